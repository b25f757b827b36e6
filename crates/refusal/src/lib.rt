// Why a call or a text is refused: the table of refusals in README, one name for each of its numbers.
#![tactic(auto)]

ghost use Rattle.std.specs.Prelude.{◌≡◌, Some};
ghost use Rattle.refusal.specs.Refusal.{number_of, word_of, shown, answer_number};

use std::error::Error;
use std::fmt;

/// The table's words, with its numbers, 1 to 20.
#[derive(Clone, Copy, Debug, PartialEq, Eq, Hash)]
pub enum Refusal {
    Form = 1,
    Size,
    Factor,
    Table,
    Level,
    Weight,
    Cut,
    Length,
    Turn,
    Blown,
    Done,
    Channel,
    Record,
    Range,
    Page,
    Seam,
    Hold,
    Mark,
    Segment,
    Precision,
}

impl Refusal {
    /// Its number in the table.
    // Rules out: the places counted from 0; 4 for a level beyond its range, which is the number of a quantiser.
    pub fn number(self) -> u8
        ensures { result ≡ number_of self }
    {
        self as u8
    }

    /// Its word in the table.
    // Rules out: the word of another line; a capital letter.
    pub fn word(self) -> &'static str
        ensures { result.now ≡ word_of self }
    {
        match self {
            Refusal::Form => "form",
            Refusal::Size => "size",
            Refusal::Factor => "factor",
            Refusal::Table => "table",
            Refusal::Level => "level",
            Refusal::Weight => "weight",
            Refusal::Cut => "cut",
            Refusal::Length => "length",
            Refusal::Turn => "turn",
            Refusal::Blown => "blown",
            Refusal::Done => "done",
            Refusal::Channel => "channel",
            Refusal::Record => "record",
            Refusal::Range => "range",
            Refusal::Page => "page",
            Refusal::Seam => "seam",
            Refusal::Hold => "hold",
            Refusal::Mark => "mark",
            Refusal::Segment => "segment",
            Refusal::Precision => "precision",
        }
    }
}

impl From<Refusal> for u8 {
    ghost from_gives = { λ r n. n ≡ number_of r };

    fn from(r: Refusal) -> u8 {
        r.number()
    }
}

impl From<Refusal> for u32 {
    ghost from_gives = { λ r n. n ≡ number_of r };

    fn from(r: Refusal) -> u32 {
        u32::from(r.number())
    }
}

/// Its number and its word, as in `refusal 4 (table)`.
// Rules out: the word in the number's place; the number of another refusal; nothing printed.
impl fmt::Display for Refusal {
    ghost output = { λ r. Some (shown r) };

    fn fmt<W: fmt::Write>(&self, f: &mut fmt::Formatter<W>) -> fmt::Result {
        let number = self.number();
        let word = self.word();
        write!(f, "refusal {number} ({word})")
    }
}

impl Error for Refusal {}

/// The number that a call answers for C: the refusal's, or 0 where nothing is refused.
// Rules out: 0 for the table's first refusal; 1 for an answer that refuses nothing.
pub fn answer_number(answer: Result<(), Refusal>) -> u32
    ensures { result ≡ answer_number answer }
{
    answer.map_or_else(u32::from, |()| 0)
}
