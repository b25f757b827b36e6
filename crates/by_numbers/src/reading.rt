// Reading a text into lent buffers, with the sheet's record as numbers, and the reader by its
// number.
ghost use Rattle.std.specs.Prelude.{length};
ghost use Rattle.contents.specs.Letters.{reader_from};
ghost use Rattle.contents.specs.Sheets.{lent};
ghost use Rattle.sheet.specs.Calls.{reading};
ghost use Rattle.sheet.specs.Walk.{said};
ghost use Rattle.by_numbers.specs.Sheets.{ReadsNumbers, with_record, by_reader, line_in, number_in};

use crate::{NUMBERS, numbers};
use contents::{Limits, Reader};
use refusal::Refusal;
use sheet::Refused;

// Reads for this reader. Where there is no room for the record's numbers, 8 is the last fault.
// Ruled out: 8 for a text that is itself refused; the numbers of a text that is refused.
pub fn read_as(
    text: &[u8],
    limits: Limits,
    who: Reader,
    lows: &mut [i16],
    highs: &mut [i16],
    tables: &mut [u16],
    header: &mut [u32],
) -> Result<(), Refused>
    ensures { ReadsNumbers who (with_record (length header.old) (reading limits text.now (lent lows.old highs.old tables.old)))
        (lent lows.old highs.old tables.old) (lent lows.new highs.new tables.new) header.old header.new (line_in (said result)) (number_in (said result)) }
{
    if header.len() == NUMBERS {
        let s = sheet::read(text, limits, who, lows, highs, tables)?;
        header.copy_from_slice(&numbers(s));
        Ok(())
    } else {
        sheet::measure(text, limits)?;
        Err(Refused {
            refusal: Refusal::Length,
            line: 0,
        })
    }
}

// Reads by the reader's number: 0 is staff, 1 a partner; another is 2 at line 0, before the text is
// looked at. Ruled out: a partner's number read as staff; 1 at line 1 for a bad text where the
// reader's number is 2.
// Kept: the reader is a number, as C has it.
pub fn read(
    text: &[u8],
    limits: Limits,
    partner: u32,
    lows: &mut [i16],
    highs: &mut [i16],
    tables: &mut [u16],
    header: &mut [u32],
) -> Result<(), Refused>
    ensures { ReadsNumbers (reader_from partner)
        (by_reader partner (with_record (length header.old)
        (reading limits text.now (lent lows.old highs.old tables.old))))
        (lent lows.old highs.old tables.old) (lent lows.new highs.new tables.new)
        header.old header.new (line_in (said result)) (number_in (said result)) }
{
    if 1 < partner {
        return Err(Refused {
            refusal: Refusal::Size,
            line: 0,
        });
    }
    read_as(
        text,
        limits,
        Reader::from(partner),
        lows,
        highs,
        tables,
        header,
    )
}
