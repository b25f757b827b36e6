// The lines: the rule of each field, and what a good line holds.
#![tactic(auto)]

ghost use Rattle.std.specs.Prelude.{◌≡◌, [], ◌∷◌, ◌+◌, ◌<◌, get_or, Ok};
ghost use Rattle.text.specs.Pieces.{split};
ghost use Rattle.text.specs.Weights.{weight_at};
ghost use Rattle.lines.specs.Lines.{header_rules, letter_of, letter_in, hold_rules, hold_of, mark_of, channel_rules, rules_of, field_count, header_of, channel_of, record_of};
ghost use Rattle.lines.specs.Said.{said_before, range_rule};

use contents::{Channel, Header, Letter, Limits, Mark, Weight, measured_by};
use refusal::Refusal;
use text::field::{Field, Rule};
use text::{field, number, weight};

// A setting's line: F, A or H.
#[derive(Clone, Copy, Debug, PartialEq, Eq)]
pub enum Setting {
    Rounding(Letter),
    Start(Letter),
    Hold([u32; 3]),
}

// A line as read. Quantisers and levels go to the buffers.
#[derive(Clone, Copy, Debug, PartialEq, Eq)]
pub enum Record {
    Header(Header),
    Setting(Setting),
    Channel(Channel),
    Block,
    Mark(Mark),
}

// The kinds of lines: S; the settings F, A and H; C; a block's B or G; N; and E.
#[derive(Clone, Copy, Debug, PartialEq, Eq)]
pub enum Tag {
    Header,
    Rounding,
    Start,
    Hold,
    Channel,
    Block,
    Range,
    Mark,
    End,
}

impl Tag {
    // Its letter, the line's first field.
    // Ruled out: B for a block with ranges; a small letter.
    pub fn letter(self) -> u8
        ensures { result ≡ letter_of self }
    {
        match self {
            Tag::Header => b'S',
            Tag::Rounding => b'F',
            Tag::Start => b'A',
            Tag::Hold => b'H',
            Tag::Channel => b'C',
            Tag::Block => b'B',
            Tag::Range => b'G',
            Tag::Mark => b'N',
            Tag::End => b'E',
        }
    }
}

// How many fields a line has.
// Ruled out: the fields after the tag alone; 65 for a block with ranges.
#[tactic(auto, unfolding(crate::specs::Lines::field_count))]
pub fn field_count(tag: Tag) -> usize
    ensures { result ≡ field_count (letter_of tag) }
{
    match tag {
        Tag::Header => 16,
        Tag::Rounding | Tag::Start => 2,
        Tag::Hold | Tag::Mark => 4,
        Tag::Channel => 69,
        Tag::Block => 65,
        Tag::Range => 129,
        Tag::End => 1,
    }
}

// The rule of a header's field behind the tag.
// Kept: that it stands behind the tag, here and in the rules of a channel and of the held counts: the tag's rule, that of place 0, is `rule_at`'s own; the places are those of the line's fields, whose first is the tag, as in `header_of` and in document 01's examples.
#[tactic(auto, using(crate::proofs::LineLaws::rules))]
fn header_rule(i: usize, limits: Limits, row: &[u8]) -> Rule
    requires { (0 < i) × (i < 16) }
    ensures { result ≡ get_or (header_rules limits (split 9 row.now)) i (Rule.Tag 0) }
{
    match i {
        1 | 2 => Rule::Side(limits.side),
        3 | 4 => Rule::Range {
            fault: Refusal::Size,
            low: 1,
            high: number::number_at(row, i - 2),
        },
        5 => Rule::Channels,
        6 => Rule::Letters(b'j', b's'),
        7..=9 => Rule::Count(limits.iterations),
        _ => Rule::Weight,
    }
}

#[tactic(auto, using(crate::proofs::LineLaws::rules))]
fn channel_rule(i: usize) -> Rule
    requires { (0 < i) × (i < 69) }
    ensures { result ≡ get_or channel_rules i (Rule.Tag 0) }
{
    match i {
        1 | 2 => Rule::Side(999999),
        3 | 4 => Rule::Range {
            fault: Refusal::Factor,
            low: 1,
            high: 4,
        },
        _ => Rule::Quantiser,
    }
}

// A block with 64 pairs: behind the tag low and high by turns. A high's rule has the low before it.
fn range_rule(last: Field) -> Rule
    ensures { result ≡ range_rule 1 last }
{
    match last {
        Field::Low(low) => Rule::High(low),
        _ => Rule::Low,
    }
}

// Three held counts, each against its iteration count.
#[tactic(auto, using(crate::proofs::LineLaws::rules))]
fn hold_rule(i: usize, header: Header) -> Rule
    requires { (0 < i) × (i < 4) }
    ensures { result ≡ get_or (hold_rules header) i (Rule.Tag 0) }
{
    Rule::Range {
        fault: Refusal::Hold,
        low: 0,
        high: measured_by(header, (i - 1) as u32),
    }
}

// The rule of field i of a line after this header. The field before it said `last`, so that a rule can depend on it and nothing is read twice.
#[tactic(auto, using(crate::proofs::LineLaws::first_rule, crate::proofs::LineLaws::later_rules), unfolding(crate::specs::Lines::rules_of, crate::specs::Lines::field_count))]
pub fn rule_at(tag: Tag, i: usize, limits: Limits, header: Header, last: Field, row: &[u8]) -> Rule
    requires { (i < field_count (letter_of tag)) × (Ok last ≡ said_before (rules_of (letter_of tag) limits header (split 9 row.now)) (split 9 row.now) i) }
    ensures { result ≡ get_or (rules_of (letter_of tag) limits header (split 9 row.now)) i (Rule.Tag 0) }
{
    if i == 0 {
        return Rule::Tag(tag.letter());
    }
    match tag {
        Tag::Header => header_rule(i, limits, row),
        Tag::Rounding => Rule::Letters(b't', b'n'),
        Tag::Start => Rule::Letters(b'm', b'o'),
        Tag::Hold => hold_rule(i, header),
        Tag::Channel => channel_rule(i),
        Tag::Block => Rule::Level,
        Tag::Range => range_rule(last),
        Tag::Mark => Rule::Range {
            fault: Refusal::Form,
            low: 0,
            high: 999999,
        },
        // its tag is its one field
        Tag::End => unreachable!(),
    }
}

// The three weights from field i on.
fn weights_at(row: &[u8], i: usize) -> [Weight; 3]
    requires { i < 14 }
    ensures { result ≡ weight_at (split 9 row.now) i ∷ weight_at (split 9 row.now) (i + 1) ∷ weight_at (split 9 row.now) (i + 2) ∷ [] }
{
    [i, i + 1, i + 2].map(|k| weight::weight_at(row, k))
}

#[tactic(auto, unfolding(crate::specs::Lines::header_of))]
fn header_of(row: &[u8]) -> Header
    ensures { result ≡ header_of (split 9 row.now) }
{
    Header {
        width: number::number_at(row, 1),
        height: number::number_at(row, 2),
        picture_width: number::number_at(row, 3),
        picture_height: number::number_at(row, 4),
        channels: number::number_at(row, 5),
        joint: field::letter_at(row, 6, b'j'),
        iterations: [7, 8, 9].map(|i| number::number_at(row, i)),
        smoothing: weights_at(row, 10),
        data_weights: weights_at(row, 13),
    }
}

#[tactic(auto, unfolding(crate::specs::Lines::channel_of))]
fn channel_of(row: &[u8]) -> Channel
    ensures { result ≡ channel_of (split 9 row.now) }
{
    Channel {
        width: number::number_at(row, 1),
        height: number::number_at(row, 2),
        across: number::number_at(row, 3),
        down: number::number_at(row, 4),
    }
}

// Is field i the letter a, or the other?
fn letter_in(row: &[u8], i: usize, a: u8) -> Letter
    ensures { result ≡ letter_in a (get_or (split 9 row.now) i []) }
{
    if field::letter_at(row, i, a) {
        Letter::First
    } else {
        Letter::Second
    }
}

#[tactic(auto, unfolding(crate::specs::Lines::hold_of))]
fn hold_of(row: &[u8]) -> [u32; 3]
    ensures { result ≡ hold_of (split 9 row.now) }
{
    [1, 2, 3].map(|i| number::number_at(row, i))
}

// The mark of a line N: its channel, row and column. Ruled out: the column as the row; the line's first field as its channel.
#[tactic(auto, unfolding(crate::specs::Lines::mark_of))]
pub fn mark_of(row: &[u8]) -> Mark
    ensures { result ≡ mark_of (split 9 row.now) }
{
    Mark {
        channel: number::number_at(row, 1),
        row: number::number_at(row, 2),
        column: number::number_at(row, 3),
    }
}

// What a good line holds.
// Kept: E, which holds nothing, is answered as a block's line, which holds nothing but what went to the buffers: `sheet::walk` leaves its loop at E before it asks, a clause that says so would ask more of
// callers, and as an Option the answer would be opened there for a None that never comes.
#[tactic(auto, unfolding(crate::specs::Lines::record_of))]
pub fn record_of(tag: Tag, row: &[u8]) -> Record
    ensures { result ≡ record_of (letter_of tag) (split 9 row.now) }
{
    match tag {
        Tag::Header => Record::Header(header_of(row)),
        Tag::Rounding => Record::Setting(Setting::Rounding(letter_in(row, 1, b't'))),
        Tag::Start => Record::Setting(Setting::Start(letter_in(row, 1, b'm'))),
        Tag::Hold => Record::Setting(Setting::Hold(hold_of(row))),
        Tag::Channel => Record::Channel(channel_of(row)),
        Tag::Mark => Record::Mark(mark_of(row)),
        Tag::Block | Tag::Range | Tag::End => Record::Block,
    }
}
