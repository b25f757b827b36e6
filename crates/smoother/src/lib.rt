// The library for C and Rust: each public call as a C function. A call answers the number of document 01's table, 0 where nothing is refused.
#![tactic(auto)]

pub mod runs;
pub mod segments;
pub mod sheets;
pub mod sizes;
pub mod stitches;
pub mod tapes;

ghost use Rattle.std.specs.Prelude.{◌≡◌, length};
ghost use Rattle.contents.specs.Letters.{reader_from};
ghost use Rattle.contents.specs.Sheets.{lent};
ghost use Rattle.sheet.specs.Calls.{measuring, reading};
ghost use Rattle.by_numbers.specs.Sheets.{Measures, ReadsNumbers, with_record, by_reader};

use contents::Limits;
use record::{Channel, Run};
use refusal::Refusal;
use start::coef::Reorder;

// The run's record as C has it: that of `record`, but for the letter of line A, which is a number here: 0 for m, 1 for o.
#[repr(C)]
#[derive(Clone, Copy)]
pub struct LentRun {
    pub w: u32,
    pub h: u32,
    pub n: u32,
    pub smoothing: f32,
    pub reorder: u32,
    pub count: u32,
    pub channels: [Channel; 3],
}

// The record that C's record says; 13 where its letter's number is neither 0 nor 1.
impl TryFrom<LentRun> for Run {
    type Error = Refusal;

    ghost use Rattle.smoother.specs.Numbers.{RunFrom};

    ghost try_from_gives = { RunFrom };

    fn try_from(x: LentRun) -> Result<Run, Refusal> {
        let reorder = match x.reorder {
            0 => Reorder::Each,
            1 => Reorder::Once,
            _ => return Err(Refusal::Record),
        };
        let channels = x.channels;
        Ok(Run {
            w: x.w,
            h: x.h,
            n: x.n,
            smoothing: x.smoothing,
            reorder,
            count: x.count,
            channels,
        })
    }
}

// And back.
impl From<Run> for LentRun {
    ghost use Rattle.smoother.specs.Numbers.{LentFrom};

    ghost from_gives = { LentFrom };

    fn from(r: Run) -> LentRun {
        let channels = r.channels;
        LentRun {
            w: r.w,
            h: r.h,
            n: r.n,
            smoothing: r.smoothing,
            reorder: r.reorder as u32,
            count: r.count,
            channels,
        }
    }
}

// The lengths of the levels and tables buffers that a text needs, or its refusal with the line. A refusal leaves both lengths as they are.
// Ruled out: lengths of a text that reading refuses; the line of a later fault.
#[unsafe(no_mangle)]
pub extern "C" fn smoother_measure(
    text: &[u8],
    side: u32,
    iterations: u32,
    levels: &mut usize,
    tables: &mut usize,
    line: &mut usize,
) -> u32
    ensures { Measures (measuring (record { side = side; iterations = iterations }) text.now) levels.old levels.new tables.old tables.new line.new result }
{
    // Kept: both arms end as those of `smoother_read`: a function of the Err arms, as `told` of by_numbers::stitches, is longer with its contract than what it saves at two places.
    match sheet::measure(text, Limits { side, iterations }) {
        Ok(lengths) => {
            *levels = lengths.levels;
            *tables = lengths.tables;
            *line = 0;
            0
        }
        Err(e) => {
            *line = e.line;
            u32::from(e.refusal)
        }
    }
}

// Reads a text into the lent buffers: lows, highs, tables and the record's numbers. Partner is 0 for the staff and 1 for a partner, to whom all levels of a marked
// block but the first are 0; another number is 2 at line 0, before the text is looked at. A refusal leaves all four as they are.
// Ruled out: levels of a text whose last line is bad; highs in the lows; 8 for a text that is itself refused; a level of a marked block, but the first, for a partner;
// a partner's number read as staff; 1 at line 1 for a bad text where the reader's number is 2.
// Kept: the reader is a number, as C has it.
#[unsafe(no_mangle)]
pub extern "C" fn smoother_read(
    text: &[u8],
    side: u32,
    iterations: u32,
    partner: u32,
    lows: &mut [i16],
    highs: &mut [i16],
    tables: &mut [u16],
    header: &mut [u32],
    line: &mut usize,
) -> u32
    ensures { ReadsNumbers (reader_from partner) (by_reader partner (with_record (length header.old) (reading (record { side = side; iterations = iterations }) text.now (lent lows.old highs.old tables.old))))
        (lent lows.old highs.old tables.old) (lent lows.new highs.new tables.new) header.old header.new line.new result }
{
    let limits = Limits { side, iterations };
    match by_numbers::reading::read(text, limits, partner, lows, highs, tables, header) {
        Ok(()) => {
            *line = 0;
            0
        }
        Err(e) => {
            *line = e.line;
            u32::from(e.refusal)
        }
    }
}
