// Two sheets stitched in time, as C functions. Both answer 0 for done, or the table's number; `which` is then the text that it is about, 1 the left and 2 the right,
// or 0 for neither, and `line` its line there.
ghost use Rattle.std.specs.Prelude.{◌≡◌};
ghost use Rattle.stitch.specs.Calls.{stitching, sized};
ghost use Rattle.by_numbers.specs.Stitches.{MeasuresStitched, StitchesNumbers};

// The length of the text that both sheets make. Ruled out: 16 for a right text that is itself refused; the line of the left text with the right's number.
// Kept: a C function of its own, one call long, as is `smoother_stitch`.
#[unsafe(no_mangle)]
pub extern "C" fn smoother_stitch_measure(
    left: &[u8],
    right: &[u8],
    length: &mut usize,
    which: &mut u32,
    line: &mut usize,
) -> u32
    ensures { MeasuresStitched (stitching left.now right.now) length.old length.new which.new line.new result }
{
    by_numbers::stitches::measure(left, right, length, which, line)
}

// That text in an output of exactly its length. Ruled out: 8 for texts that do not fit; an output of another length that is written in part.
// Kept: as `smoother_stitch_measure`.
#[unsafe(no_mangle)]
pub extern "C" fn smoother_stitch(
    left: &[u8],
    right: &[u8],
    out: &mut [u8],
    which: &mut u32,
    line: &mut usize,
) -> u32
    ensures { StitchesNumbers (sized out.old (stitching left.now right.now)) out.old out.new which.new line.new result }
{
    by_numbers::stitches::stitch(left, right, out, which, line)
}
