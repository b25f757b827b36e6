// Do two sheets fit together?
#![tactic(auto)]

ghost use Rattle.std.specs.Prelude.{◌≡◌, eqb};
ghost use Rattle.contents.specs.Hold.{hold_at};
ghost use Rattle.seam.specs.Seam.{same, same_weight, same_weights, same_shape, same_header, second, same_letters, same_channel, same_channels, same_numbers};
ghost use Rattle.seam.specs.Used.{used, used_of, holds_used, same_used};

use contents::{Channel, Header, Letter, Settings, Sheet, Weight};

// By the bits of their values.
// Kept: `==` tells w1 from h3f800000, which mean one weight.
fn same_weight(a: Weight, b: Weight) -> bool
    ensures { result ≡ same_weight a b }
{
    float::bits::to_bits(f32::from(a)) == float::bits::to_bits(f32::from(b))
}

// Place by place.
// Kept: `==` of the arrays is that of their weights, as above.
fn same_weights(a: [Weight; 3], b: [Weight; 3]) -> bool
    ensures { result ≡ same_weights a b }
{
    a.iter().zip(b.iter()).all(|(v, w)| same_weight(*v, *w))
}

// Heights, channels, mode, and a left picture as wide as its sheet.
// Kept: `==` of the headers asks for equal widths, which may differ.
fn same_shape(h: Header, k: Header) -> bool
    ensures { result ≡ same_shape h k }
{
    h.height == k.height
        && h.channels == k.channels
        && h.joint == k.joint
        && h.picture_height == k.picture_height
        && h.picture_width == h.width
}

// All that the headers of two sheets that fit have in common.
// Kept: `==` asks for equal widths and tells weights apart that mean one.
fn same_header(h: Header, k: Header) -> bool
    ensures { result ≡ same_header h k }
{
    same_shape(h, k)
        && h.iterations == k.iterations
        && same_weights(h.smoothing, k.smoothing)
        && same_weights(h.data_weights, k.data_weights)
}

// The letters of F and A by their meaning.
// Kept: `==` of the settings tells no line F from `F t`.
fn same_letters(x: Settings, y: Settings) -> bool
    ensures { result ≡ same_letters x y }
{
    let second = Some(Letter::Second);
    (x.rounding == second) == (y.rounding == second) && (x.start == second) == (y.start == second)
}

// How many of three channels are looked at where a header says n. It may say any number: a caller's
// sheet need not be legal.
fn used(n: u32) -> u32
    ensures { result ≡ used n }
{
    if n == 1 { 1 } else { 3 }
}

// The channels in use of a sheet with n channels: the first alone if n is 1, else all three.
// Ruled out: two channels of a header that says 2; the spare channels of one that says 1.
pub fn used_of(n: u32, s: &Sheet) -> &[Channel]
    ensures { result.now ≡ used_of n s.now }
{
    &s.channels[..used(n) as usize]
}

// The held counts of the channels in use.
// Kept: `==` of the settings tells no line H from one with the iterations' counts, and compares those of spare channels.
fn same_holds(s: Sheet, t: Sheet) -> bool
    ensures { result ≡ holds_used s.header.channels s t }
{
    let n = used(s.header.channels);
    (0..n).all(|c| contents::held_after(s, c) == contents::held_after(t, c))
}

// Own heights, factors, and own widths that fill the full widths w and v.
// Kept: `==` asks for equal own widths, which may differ.
fn same_channel(w: u32, v: u32, c: Channel, d: Channel) -> bool
    ensures { result ≡ same_channel w v c d }
{
    c.height == d.height
        && c.across == d.across
        && c.down == d.down
        && u64::from(c.width) * u64::from(c.across) == u64::from(w)
        && u64::from(d.width) * u64::from(d.across) == u64::from(v)
}

// The channels in use.
// Kept: each pair is compared as above, with its sheets' widths.
fn same_channels(s: Sheet, t: Sheet) -> bool
    ensures { let n = s.header.channels in
        result ≡ same_channels s.header.width t.header.width (used_of n s) (used_of n t) }
{
    let n = s.header.channels;
    let w = s.header.width;
    let v = t.header.width;
    used_of(n, &s)
        .iter()
        .zip(used_of(n, &t))
        .all(|(c, d)| same_channel(w, v, *c, *d))
}

// Two sheets but for their tables, by what they mean.
// Kept: `==` of sheets asks for the same widths, spelling and spare channels.
// Ruled out: w1 and h3f800000 told apart; no line F and `F t` told apart.
pub fn same_sheet(s: Sheet, t: Sheet) -> bool
    ensures { result ≡ same_used s t }
{
    same_header(s.header, t.header)
        && same_letters(s.settings, t.settings)
        && same_holds(s, t)
        && same_channels(s, t)
}
