// Levels rearranged for the archive tapes, and back, as C functions. Both answer 0 for done, or the table's number.
ghost use Rattle.std.specs.Prelude.{◌≡◌};
ghost use Rattle.answers.specs.Answers.{filled};
ghost use Rattle.archive.specs.Archive.{rearranging, restoring};

use refusal::answer_number;

// The levels of one channel, rearranged for the archive. Ruled out: level 3 at place 3, where T.81 has level 16; 5 for slices of 63 values.
// Kept: as `smoother_dqt_import`.
#[unsafe(no_mangle)]
pub extern "C" fn smoother_rearrange(levels: &[i16], out: &mut [i16]) -> u32
    ensures { filled result out.new ≡ rearranging levels.now out.old }
{
    answer_number(archive::rearrange(levels, out))
}

// The levels of one channel, from what the archive has. Ruled out: a difference of 4,094 refused behind a first level of -2,047; values written before a later
// one is refused.
// Kept: as `smoother_dqt_import`.
#[unsafe(no_mangle)]
pub extern "C" fn smoother_restore(stored: &[i16], out: &mut [i16]) -> u32
    ensures { filled result out.new ≡ restoring stored.now out.old }
{
    answer_number(archive::restore(stored, out))
}
