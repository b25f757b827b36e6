// Quantisation tables from a DQT segment, and as one, as C functions. Both answer 0 for done, or the table's number.
ghost use Rattle.std.specs.Prelude.{◌≡◌};
ghost use Rattle.answers.specs.Answers.{filled};
ghost use Rattle.dqt.specs.Dqt.{importing, exporting};

use refusal::answer_number;

// The tables of a segment, each stored at its destination. Ruled out: quantisers left in zigzag order; the first table stored where the second is refused.
// Kept: a C function of its own, one call long, as are `smoother_dqt_export` and the two of `tapes`.
#[unsafe(no_mangle)]
pub extern "C" fn smoother_dqt_import(segment: &[u8], tables: &mut [u16]) -> u32
    ensures { filled result tables.new ≡ importing segment.now tables.old }
{
    answer_number(dqt::import(segment, tables))
}

// The four tables as one segment. Ruled out: a quantiser of 256 written as 0; a stated length of 264, which would count the marker.
// Kept: as `smoother_dqt_import`.
#[unsafe(no_mangle)]
pub extern "C" fn smoother_dqt_export(tables: &[u16], out: &mut [u8]) -> u32
    ensures { filled result out.new ≡ exporting tables.now out.old }
{
    answer_number(dqt::export(tables, out))
}
