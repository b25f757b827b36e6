// Reading line by line and field by field.
ghost use Rattle.std.specs.Prelude.{◌≡◌, Some, false, replicate};
ghost use Rattle.progress.specs.Progress.{most_blocks};
ghost use Rattle.contents.specs.Sheets.{lent};
ghost use Rattle.sheet.specs.Reading.{allowed};
ghost use Rattle.sheet.specs.Walk.{Walks, shown};

use contents::{Limits, Sheet};
use lines::Tag;
use refusal::Refusal;
use std::error::Error;
use std::fmt;
use text::field::Field;
use text::{field, pieces};

/// Why a text is refused, and at which line, counted from 1; line 0 where it is no line's fault.
#[derive(Clone, Copy, Debug, PartialEq, Eq)]
pub struct Refused {
    pub refusal: Refusal,
    pub line: usize,
}

/// The refusal as it is shown alone, and the line: `refusal 4 (table) at line 2`.
// Rules out: the line in the number's place; the line counted from 0.
impl fmt::Display for Refused {
    ghost output = { λ r. Some (shown r) };

    fn fmt<W: fmt::Write>(&self, f: &mut fmt::Formatter<W>) -> fmt::Result {
        let refusal = self.refusal;
        let line = self.line;
        write!(f, "{refusal} at line {line}")
    }
}

impl Error for Refused {}

// What a walk of a text gives: the sheet, and how many lows, highs and quantisers it has.
#[derive(Clone, Copy, Debug, PartialEq, Eq)]
pub struct Walked {
    pub sheet: Sheet,
    pub lows: usize,
    pub highs: usize,
    pub tables: usize,
}

// May a caller set these limits?
fn are_allowed(limits: Limits) -> bool
    ensures { result ≡ allowed limits }
{
    field::is_side(limits.side, 512) && limits.iterations <= 1000
}

// Reads a whole text and stops at the first bad field of the first bad line. Levels and quantisers go to the lent buffers as
// far as there is room, and the marks to a map of all blocks, which is lent with no block marked.
// Kept: lows, highs and tables one by one, here and in `read`: a struct of the three `&mut` would need in each contract that each is still the same buffer.
pub fn walk(
    text: &[u8],
    limits: Limits,
    lows: &mut [i16],
    highs: &mut [i16],
    tables: &mut [u16],
    bits: &mut [bool; 12288],
) -> Result<Walked, Refused>
    requires { bits.old ≡ replicate most_blocks false }
    ensures { Walks limits text.now (lent lows.old highs.old tables.old) (lent lows.new highs.new tables.new) bits.new result }
{
    if !are_allowed(limits) {
        return Err(Refused {
            refusal: Refusal::Size,
            line: 0,
        });
    }
    let mut state = progress::nothing();
    let mut rest = text;
    let mut line: usize = 1;
    let mut low: usize = 0;
    let mut high: usize = 0;
    let mut listed: usize = 0;
    // Kept: document 01 names this form: nested loops over lines and fields, left from inside by a label with the refusal. So the walk is one function, and no `?` leaves it.
    'lines: loop {
        // the line's length, then its end, then tag and field count
        let l = pieces::first_line(rest);
        if 1024 < l.length {
            break 'lines Err(Refused {
                refusal: Refusal::Form,
                line,
            });
        }
        if l.length == rest.len() {
            break 'lines Err(Refused {
                refusal: Refusal::Cut,
                line,
            });
        }
        let row = &rest[..l.length];
        let tag = progress::expected(state, row);
        let count = lines::field_count(tag);
        if l.fields != count {
            break 'lines Err(Refused {
                refusal: Refusal::Form,
                line,
            });
        }
        // its fields, left to right, each after what the one before it said
        let sheet = state.sheet;
        let header = sheet.header;
        // Kept: the fields' places by hand, for the reason at `text::field_at`: of the parts of the library's `split` it isn't known that they are the fields.
        let mut a: usize = 0;
        let mut last = Field::Good;
        for i in 0..count {
            let f = pieces::first_field(&row[a..]);
            let rule = lines::rule_at(tag, i, limits, header, last, row);
            match field::read_field(rule, f) {
                Ok(field) => last = field,
                Err(refusal) => break 'lines Err(Refused { refusal, line }),
            }
            let (lowest, highest) = last.levels();
            low = storing::put(lowest, lows, low);
            high = storing::put(highest, highs, high);
            listed = storing::put(last.quantiser(), tables, listed);
            a = a + f.len() + 1;
        }
        // nothing after E; cover after a channel's fields, a mark's block after its line's form
        if tag == Tag::End {
            if l.length + 1 == rest.len() {
                break 'lines Ok(Walked {
                    sheet,
                    lows: low,
                    highs: high,
                    tables: listed,
                });
            }
            break 'lines Err(Refused {
                refusal: Refusal::Cut,
                line: line + 1,
            });
        }
        let rec = lines::record_of(tag, row);
        match progress::take_record(state, rec, bits) {
            Ok(next) => state = next,
            Err(refusal) => break 'lines Err(Refused { refusal, line }),
        }
        rest = &rest[l.length + 1..];
        line += 1;
    }
}
