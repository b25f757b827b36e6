// The sheet text: how long its buffers are, and what it says.
#![tactic(auto)]

mod walk;

ghost use Rattle.std.specs.Prelude.{◌≡◌, ℕ, List, Result, Err};
ghost use Rattle.contents.specs.Sheets.{Lent, lent};
ghost use Rattle.sheet.specs.Calls.{measuring, outlining, Counts, Reads};
ghost use Rattle.sheet.specs.Walk.{said};

pub use crate::walk::Refused;
use crate::walk::Walked;
use contents::{Limits, Reader, Sheet};
use refusal::Refusal;

/// How long the buffers are that reading needs: each of the two levels buffers, lows and highs, and
/// the tables.
#[derive(Clone, Copy, Debug, PartialEq, Eq)]
pub struct Lengths {
    pub levels: usize,
    pub tables: usize,
}

/// What a text says before its levels: the sheet, and its quantisers in places for three tables,
/// with zeros behind them where there are fewer.
#[derive(Clone, Copy, Debug, PartialEq, Eq)]
pub struct Outlined {
    pub sheet: Sheet,
    pub tables: [u16; 192],
}

// How much a text holds: a walk that keeps no level, and a legal text's quantisers as far as there is room.
// Rules out: the quantisers at the end of longer tables; a refusal where there is no room for them.
fn count(text: &[u8], limits: Limits, tables: &mut [u16]) -> Result<Walked, Refused>
    ensures { Counts limits text.now tables.old tables.new result }
{
    walk::walk(text, limits, &mut [], &mut [], tables, &mut [false; 12288])
}

/// The lengths that reading needs, or the refusal that it gives. A side or an iteration count above
/// the limit is refused, and so are limits that no caller may set.
// Rules out: lengths for a text with a byte after E; a refusal at a later line than the first bad one.
pub fn measure(text: &[u8], limits: Limits) -> Result<Lengths, Refused>
    ensures { said result ≡ measuring limits text.now }
{
    let counted = count(text, limits, &mut [])?;
    Ok(Lengths {
        levels: counted.lows,
        tables: counted.tables,
    })
}

/// A text's sheet and its tables, with nothing lent, or the refusal that reading gives.
// Rules out: the outline of a text that is refused at its last line; another channel's table first.
pub fn outline(text: &[u8], limits: Limits) -> Result<Outlined, Refused>
    ensures { said result ≡ outlining limits text.now }
{
    let mut tables = [0u16; 192];
    let counted = count(text, limits, &mut tables)?;
    Ok(Outlined {
        sheet: counted.sheet,
        tables,
    })
}

/// Reads a sheet into the lent buffers: of each place the lowest and the highest level, and the
/// tables. They are written only once the whole text and all lengths are good. To a partner all
/// levels of a marked block but the first are 0. Which texts are accepted: `grammar::accepts_law`; that
/// a partner can't tell hidden levels apart: `grammar::partner_law`.
// Rules out: a level stored before a later line is refused; a range's high in the lows; 8 given for a text that is itself
// refused; a level of a marked block, but the first, shown to a partner.
pub fn read(
    text: &[u8],
    limits: Limits,
    who: Reader,
    lows: &mut [i16],
    highs: &mut [i16],
    tables: &mut [u16],
) -> Result<Sheet, Refused>
    ensures { Reads limits who text.now (lent lows.old highs.old tables.old) (lent lows.new highs.new tables.new) result }
{
    let counted = count(text, limits, &mut [])?;
    if counted.lows != lows.len()
        || counted.highs != highs.len()
        || counted.tables != tables.len()
    {
        return Err(Refused {
            refusal: Refusal::Length,
            line: 0,
        });
    }
    let mut bits = [false; 12288];
    let walked = walk::walk(text, limits, lows, highs, tables, &mut bits)?;
    hiding::show(who, &bits, lows);
    hiding::show(who, &bits, highs);
    Ok(walked.sheet)
}

/// Whether and how a text is refused, and its sheet, do not depend on who reads it; and a text that is
/// refused leaves the lent buffers as they were.
// Rules out: 2048 in a marked block refused for the staff alone; another line for a partner; a level stored before a refusal.
pub fn readers_law()
    ensures alike { (limits : Limits) (text : List ℕ) (who other : Reader) (into after last : Lent)
        (r q : Result Sheet Refused) → Reads limits who text into after r →
        Reads limits other text into last q → said r ≡ said q }
    ensures kept { (limits : Limits) (text : List ℕ) (who : Reader) (into after : Lent)
        (f : Refused) → Reads limits who text into after (Err f) → after ≡ into }
{}
