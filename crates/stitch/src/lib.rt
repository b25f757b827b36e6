// Two sheet texts stitched in time: the length of the text that both make, and that text.
#![tactic(auto)]

mod marks;
#[cfg(test)]
mod tests;
mod write;

ghost use Rattle.std.specs.Prelude.{◌≡◌, ℕ, List, Some, length};
ghost use Rattle.refusal.specs.Refusal.{number_of};
ghost use Rattle.sheet.specs.Reading.{Contents, read_text};
ghost use Rattle.grammar.specs.Accepts.{TextOf};
ghost use Rattle.stitch.specs.Numbers.{which_of, numbers, numbered, shown};
ghost use Rattle.stitch.specs.Calls.{whole, stitching, output_of, measuring, Stitches, FitTogether};
ghost use Rattle.stitch.specs.Calls.Stitch.{Text};
ghost use Rattle.stitch.specs.Stitched.{stitched_sheet, stitched_held};
ghost use Rattle.stitch.specs.Bytes.{stitch_text, in_use_text};
ghost use Rattle.stitch.specs.Judging.{outlining, judging, fit_of};

use contents::{Limits, Sheet};
use copying::Texts;
use refusal::Refusal;
use sheet::Outlined;
use std::error::Error;
use std::fmt;

/// One of the two texts.
#[derive(Clone, Copy, Debug, PartialEq, Eq)]
pub enum Side {
    Left,
    Right,
}

/// A refusal: of a text, with its line there, or of neither.
#[derive(Clone, Copy, Debug, PartialEq, Eq)]
pub struct Refused {
    pub refusal: Refusal,
    pub which: Option<Side>,
    pub line: usize,
}

impl Refused {
    // A refusal of neither text.
    fn of_neither(refusal: Refusal) -> Refused
        ensures { numbers result ≡ record { number = number_of refusal; which = 0; line = 0 } }
    {
        Refused {
            refusal,
            which: None,
            line: 0,
        }
    }

    // A refusal of a text, as reading gives it.
    fn of(side: Side, r: sheet::Refused) -> Refused
        ensures { numbers result ≡ record { number = number_of r.refusal; which = which_of (Some side); line = r.line } }
    {
        Refused {
            refusal: r.refusal,
            which: Some(side),
            line: r.line,
        }
    }

    /// The number of the text that it is about: 1 the left, 2 the right, 0 neither.
    // Kept: 0 for neither is of the Option, so that a `From<Side>` would leave half of this function here.
    // Rules out: 1 for the right text; 2 where neither text is refused.
    pub fn which_number(self) -> u8
        ensures { result ≡ which_of self.which }
    {
        match self.which {
            None => 0,
            Some(Side::Left) => 1,
            Some(Side::Right) => 2,
        }
    }
}

/// The refusal as it is shown alone, its text and the line: `refusal 4 (table) of text 1 at line 2`.
// Rules out: the text's number and the line exchanged; 2 for the left text.
impl fmt::Display for Refused {
    ghost output = { λ r. Some (shown r) };

    fn fmt<W: fmt::Write>(&self, f: &mut fmt::Formatter<W>) -> fmt::Result {
        let refusal = self.refusal;
        let which = self.which_number();
        let line = self.line;
        write!(f, "{refusal} of text {which} at line {line}")
    }
}

impl Error for Refused {}

// Two sheets that fit.
#[derive(Clone, Copy)]
struct Fit {
    left: Sheet,
    right: Sheet,
}

// A text's sheet and its tables.
fn outline(text: &[u8], side: Side) -> Result<Outlined, Refused>
    ensures { numbered result ≡ outlining (which_of (Some side)) (read_text whole text.now) }
{
    let limits = Limits {
        side: 512,
        iterations: 1000,
    };
    match sheet::outline(text, limits) {
        Ok(outlined) => Ok(outlined),
        Err(r) => Err(Refused::of(side, r)),
    }
}

// Whether two sheets with these tables fit.
fn fitted(left: Sheet, right: Sheet, a: &[u16], b: &[u16]) -> Result<Fit, Refused>
    requires { length a.now ≡ length b.now }
    ensures { numbered result ≡ fit_of left right a.now b.now }
{
    if !(seam::same_sheet(left, right) && a == b) {
        return Err(Refused::of_neither(Refusal::Seam));
    }
    if 512 < u64::from(left.header.width) + u64::from(right.header.width) {
        return Err(Refused::of_neither(Refusal::Size));
    }
    Ok(Fit { left, right })
}

// Both texts judged, the left first, and whether they fit.
fn judge(left: &[u8], right: &[u8]) -> Result<Fit, Refused>
    ensures { numbered result ≡ judging (read_text whole left.now) (read_text whole right.now) }
{
    let one = outline(left, Side::Left)?;
    let other = outline(right, Side::Right)?;
    fitted(one.sheet, other.sheet, &one.tables, &other.tables)
}

/// The length of the text that stitching writes, or the refusal that it gives.
// Rules out: 16 for a right text that is itself refused; the sum of both lengths, though the widths have other digits.
pub fn measure(left: &[u8], right: &[u8]) -> Result<usize, Refused>
    ensures { numbered result ≡ measuring (stitching left.now right.now) }
{
    let fit = judge(left, right)?;
    Ok(write::write(Texts { left, right }, fit, &mut []))
}

/// Writes the text of both sheets into an output of exactly its length; a refusal leaves the output
/// unchanged. What the text holds: `joined_law`; where each block stands: `places::stitched_law`.
// Rules out: the right sheet's blocks first in a row of blocks; an output of another length that is written in part.
pub fn stitch(left: &[u8], right: &[u8], out: &mut [u8]) -> Result<(), Refused>
    ensures { Stitches left.now right.now out.old out.new result }
{
    let fit = judge(left, right)?;
    let from = Texts { left, right };
    let length = write::write(from, fit, &mut []);
    if length != out.len() {
        return Err(Refused::of_neither(Refusal::Length));
    }
    write::write(from, fit, out);
    Ok(())
}

/// Two texts that fit give the text of both sheets side by side: it is legal, so that it is read as
/// those two sheets side by side, and it is what is copied of the two texts by their tabs and line
/// ends, of the channels that the code looks at and of those that the headers say alike.
// Rules out: a text that is no sheet; a byte that is copied from another place.
pub fn joined_law()
    ensures text { (left right : List ℕ) (c d : Contents) → FitTogether left right c d →
        stitching left right ≡ Text (output_of c d) }
    ensures legal { (left right : List ℕ) (c d : Contents) → FitTogether left right c d →
        TextOf whole (stitched_sheet c.sheet d.sheet)
        (stitched_held c.sheet d.sheet c.held d.held) (output_of c d) }
    ensures copied { (left right : List ℕ) (c d : Contents) → FitTogether left right c d →
        stitch_text c.sheet d.sheet left right ≡ output_of c d }
    ensures in_use { (left right : List ℕ) (c d : Contents) → FitTogether left right c d →
        in_use_text c.sheet d.sheet left right ≡ output_of c d }
{}
