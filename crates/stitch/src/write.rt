// The text of two sheets that fit, copied from their texts.
ghost use Rattle.std.specs.Prelude.{◌≡◌, ◌+◌, ◌^◌, ◌<◌, ◌≤◌, length};
ghost use Rattle.std.proofs.lemmas.List.Edits.{sets};
ghost use Rattle.copying.specs.Parts.{past, Put};
ghost use Rattle.seam.specs.Used.{used_of};
ghost use Rattle.stitch.specs.Bytes.{said_lines, head_text, head_left, pair_text, pair_left, pair_right, pairs_text, open_text, stitch_text};

use crate::{Fit, marks};
use contents::{Channel, Settings, Sheet};
use copying::{Texts, Writer};

// The lines of all settings: at most 3.
fn said_lines(x: Settings) -> usize
    ensures { (result ≡ said_lines x) × (result ≤ 3) }
{
    usize::from(x.rounding.is_some())
        + (usize::from(x.start.is_some()) + usize::from(x.hold.is_some()))
}

// The header's line with the widths w and p, and m lines after it.
fn write_head<'a>(left: &'a [u8], w: usize, p: usize, m: usize, to: &mut Writer) -> &'a [u8]
    requires few { m ≤ 3 }
    requires room { to.old.at + length (head_text w p m left.now) < 2 ^ 64 }
    ensures rest { result.now ≡ head_left m left.now }
    ensures put { Put to.old (head_text w p m left.now) to.new }
{
    let after_sides = copying::refit(left, w, to);
    let after_picture = copying::refit(after_sides, p, to);
    copying::copy(after_picture, b'\n', m + 1, to)
}

// The header and the settings of the left text with the summed widths; those of the right text are skipped.
fn write_open<'a>(from: Texts<'a>, s: Sheet, t: Sheet, to: &mut Writer) -> Texts<'a>
    requires { to.old.at + length (open_text s t from.left.now) < 2 ^ 64 }
    ensures left { result.left.now ≡ head_left (said_lines s.settings) from.entry.left.now }
    ensures right { result.right.now ≡ past 10 (said_lines t.settings + 1) from.entry.right.now }
    ensures put { Put to.old (open_text s t from.entry.left.now) to.new }
{
    let h = s.header;
    let k = t.header;
    let w = h.width as usize + k.width as usize;
    let p = h.picture_width as usize + k.picture_width as usize;
    let left = write_head(from.left, w, p, said_lines(s.settings), to);
    let right = copying::skip(from.right, b'\n', said_lines(t.settings) + 1);
    Texts { left, right }
}

// A channel of both.
fn write_pair<'a>(from: Texts<'a>, c: Channel, d: Channel, to: &mut Writer) -> Texts<'a>
    requires { to.old.at + length (pair_text c d from.left.now from.right.now) < 2 ^ 64 }
    ensures left { result.left.now ≡ pair_left c from.entry.left.now }
    ensures right { result.right.now ≡ pair_right c d from.entry.right.now }
    ensures put { Put to.old (pair_text c d from.entry.left.now from.entry.right.now) to.new }
{
    let w = c.width as usize;
    let v = d.width as usize;
    copying::copy_channel(from, w + v, c.height as usize / 8, w / 8, v / 8, to)
}

// The channels in use of both, and what follows them.
fn write_pairs(from: Texts, s: Sheet, t: Sheet, to: &mut Writer)
    requires { let n = s.header.channels in
        to.old.at + length (pairs_text s (used_of n s) (used_of n t) from.left.now from.right.now)
        < 2 ^ 64 }
    ensures { let n = s.header.channels in
        Put to.old (pairs_text s (used_of n s) (used_of n t)
        from.entry.left.now from.entry.right.now) to.new }
{
    let n = s.header.channels;
    let mut rest = from;
    for (c, d) in seam::used_of(n, &s).iter().zip(seam::used_of(n, &t)) {
        rest = write_pair(rest, *c, *d, to);
    }
    marks::write_last(rest, s, to)
}

// The text into an output, as far as there is room, and its length.
pub fn write(from: Texts, fit: Fit, out: &mut [u8]) -> usize
    requires { length (stitch_text fit.left fit.right from.left.now from.right.now) < 2 ^ 64 }
    ensures count { result ≡ length (stitch_text fit.left fit.right from.entry.left.now from.entry.right.now) }
    ensures bytes { out.new ≡ sets out.old 0 (stitch_text fit.left fit.right from.entry.left.now from.entry.right.now) }
{
    let mut to = Writer::new(out);
    let blocks = write_open(from, fit.left, fit.right, &mut to);
    write_pairs(blocks, fit.left, fit.right, &mut to);
    to.at
}
