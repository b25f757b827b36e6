// The lines after the last block: the marks of both texts and the line E.
ghost use Rattle.std.specs.Prelude.{◌≡◌, ◌+◌, ◌^◌, ◌<◌, length};
ghost use Rattle.copying.specs.Parts.{past, Put};
ghost use Rattle.stitch.specs.Stitched.{moved_by};
ghost use Rattle.stitch.specs.Bytes.{front_mark, moved_line, moved_lines, last_text};

use contents::{Mark, Sheet};
use copying::{Texts, Writer};
use text::pieces;

// The mark of a text's first line.
fn mark_at(text: &[u8]) -> Mark
    ensures { result ≡ front_mark text.now }
{
    lines::mark_of(&text[..pieces::first_line(text).length])
}

// The column of a mark of the right text in the output, whose left sheet is s.
fn moved_column(s: Sheet, m: Mark) -> usize
    ensures { result ≡ (moved_by s m).column }
{
    (contents::channel_at(s, m.channel).width / 8) as usize + m.column as usize
}

// A line of a mark, with its column moved.
fn write_mark<'a>(right: &'a [u8], s: Sheet, to: &mut Writer) -> &'a [u8]
    requires { to.old.at + length (moved_line s right.now) < 2 ^ 64 }
    ensures rest { result.now ≡ past 10 1 right.now }
    ensures put { Put to.old (moved_line s right.now) to.new }
{
    let column = moved_column(s, mark_at(right));
    copying::copy(right, b'\t', 3, to);
    to.put_decimal(column);
    to.put_byte(b'\n');
    copying::skip(right, b'\n', 1)
}

// n lines of marks, with their columns moved.
fn write_marks(right: &[u8], s: Sheet, n: usize, to: &mut Writer)
    requires { to.old.at + length (moved_lines s n right.now) < 2 ^ 64 }
    ensures { Put to.old (moved_lines s n right.now) to.new }
{
    let mut rest = right;
    for mark in 0..n {
        rest = write_mark(rest, s, to);
    }
}

// The left text's marks as they are, the right text's with their columns moved, and the left text's line E.
// Ruled out: the right text's marks first; its columns moved by the left sheet's blocks of another channel.
pub fn write_last(from: Texts, s: Sheet, to: &mut Writer)
    requires { to.old.at + length (last_text s from.left.now from.right.now) < 2 ^ 64 }
    ensures { Put to.old (last_text s from.entry.left.now from.entry.right.now) to.new }
{
    let end = copying::copy(from.left, b'\n', copying::count(from.left, b'N'), to);
    write_marks(from.right, s, copying::count(from.right, b'N'), to);
    copying::copy(end, b'\n', 1, to);
}
