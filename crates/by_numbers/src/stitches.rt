// Stitching with its answer as numbers: 0 for done, or the table's number; the text that it is about, 1 left, 2 right, 0 neither; and its line there.
ghost use Rattle.std.specs.Prelude.{◌≡◌};
ghost use Rattle.refusal.specs.Refusal.{number_of};
ghost use Rattle.stitch.specs.Numbers.{which_of};
ghost use Rattle.stitch.specs.Calls.{stitching, sized};
ghost use Rattle.by_numbers.specs.Stitches.{MeasuresStitched, StitchesNumbers};

use stitch::Refused;

// A refusal's number, with the text that it is about and its line there.
fn told(e: Refused, which: &mut u32, line: &mut usize) -> u32
    ensures number { result ≡ number_of e.refusal }
    ensures text { which.new ≡ which_of e.which }
    ensures at { line.new ≡ e.line }
{
    *which = u32::from(e.which_number());
    *line = e.line;
    u32::from(e.refusal)
}

// Kept: a number and two `&mut` for which text and line, here and in `stitch`, as the C functions whose bodies these are have them; the `Err` arms share `told`.
// The output's length. A refusal leaves it as it was. Ruled out: 16 for a right text that is itself refused; the line of the left text with the right's number.
pub fn measure(
    left: &[u8],
    right: &[u8],
    length: &mut usize,
    which: &mut u32,
    line: &mut usize,
) -> u32
    ensures { MeasuresStitched (stitching left.now right.now) length.old length.new which.new line.new result }
{
    match stitch::measure(left, right) {
        Ok(n) => {
            *length = n;
            *which = 0;
            *line = 0;
            0
        }
        Err(e) => told(e, which, line),
    }
}

// The text of both sheets in an output of exactly its length. Ruled out: 8 for texts that do not fit; an output of another length that is written in part.
pub fn stitch(left: &[u8], right: &[u8], out: &mut [u8], which: &mut u32, line: &mut usize) -> u32
    ensures { StitchesNumbers (sized out.old (stitching left.now right.now)) out.old out.new which.new line.new result }
{
    match stitch::stitch(left, right, out) {
        Ok(()) => {
            *which = 0;
            *line = 0;
            0
        }
        Err(e) => told(e, which, line),
    }
}
