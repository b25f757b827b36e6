// Fields and their rules.
ghost use Rattle.std.specs.Prelude.{Bool, ℕ, ◌≡◌, [], get_or, Ok, Err};
ghost use Rattle.std.specs.Option.{option_to_list};
ghost use Rattle.text.specs.Pieces.{split};
ghost use Rattle.text.specs.Numbers.{number_of};
ghost use Rattle.text.specs.Fields.{letter, is_side, number_field, field_of, lows_in, highs_in, tables_in};

use crate::{level, number, pieces, weight};
use refusal::Refusal;

// What a field must be: this one letter; a number from low to high, else this fault; an iteration count up to the most; a
// multiple of 8 from 8 to the most; 1 or 3; one of two letters; a weight; a quantiser; a level; the lowest of a range of
// levels; the highest of the range with this lowest.
#[derive(Clone, Copy, Debug, PartialEq, Eq)]
pub enum Rule {
    Tag(u8),
    Range { fault: Refusal, low: u32, high: u32 },
    Count(u32),
    Side(u32),
    Channels,
    Letters(u8, u8),
    Weight,
    Quantiser,
    Level,
    Low,
    High(i16),
}

// What a good field says under its rule: a quantiser, a level, the lowest or the highest of a range, or something else.
#[derive(Clone, Copy, Debug, PartialEq, Eq)]
pub enum Field {
    Quantiser(u16),
    Level(i16),
    Low(i16),
    High(i16),
    Good,
}

impl Field {
    // What it adds to the lows and to the highs.
    // Ruled out: a level in the lows alone; the highest of a range in the lows.
    pub fn levels(self) -> (Option<i16>, Option<i16>)
        ensures lows { option_to_list result.0 ≡ lows_in (Ok self) }
        ensures highs { option_to_list result.1 ≡ highs_in (Ok self) }
    {
        match self {
            Field::Level(v) => (Some(v), Some(v)),
            Field::Low(v) => (Some(v), None),
            Field::High(v) => (None, Some(v)),
            Field::Quantiser(_) | Field::Good => (None, None),
        }
    }

    // What it adds to the tables.
    // Ruled out: a level as a quantiser; none for a quantiser.
    pub fn quantiser(self) -> Option<u16>
        ensures { option_to_list result ≡ tables_in (Ok self) }
    {
        match self {
            Field::Quantiser(v) => Some(v),
            Field::Level(_) | Field::Low(_) | Field::High(_) | Field::Good => None,
        }
    }
}

// Is the field just the letter t?
pub fn is_letter(f: &[u8], t: u8) -> bool
    ensures { result ≡ letter t f.now }
{
    matches!(f, [b] if *b == t)
}

// Is this a multiple of 8 from 8 to the most?
// Ruled out: 0; the most itself refused.
pub fn is_side(n: u32, most: u32) -> bool
    ensures { result ≡ is_side most n }
{
    n % 8 == 0 && 8 <= n && n <= most
}

// Is field i of a row just the letter t?
pub fn letter_at(row: &[u8], i: usize, t: u8) -> bool
    ensures { result ≡ letter t (get_or (split 9 row.now) i []) }
{
    is_letter(pieces::field_at(row, i), t)
}

// A number that passes this test, else this fault.
fn number_if<F: Fn(u32) -> bool>(f: &[u8], fault: Refusal, test: F) -> Result<Field, Refusal>
    requires { F.IsAlwaysCallable test }
    ensures { (ok : ℕ → Bool) → ((n : ℕ) (b : Bool) → F.post test n b → b ≡ ok n) → result ≡ number_field fault ok (number_of f.now) }
{
    let n = number::read_number(f).ok_or(Refusal::Form)?;
    test(n).then_some(Field::Good).ok_or(fault)
}

#[tactic(auto, unfolding(crate::specs::Fields::field_of))]
fn read_count(f: &[u8], most: u32) -> Result<Field, Refusal>
    ensures { result ≡ field_of (Rule.Count most) f.now }
{
    let n = number::read_number(f).ok_or(Refusal::Form)?;
    if 1000 < n {
        return Err(Refusal::Size);
    }
    (n <= most).then_some(Field::Good).ok_or(Refusal::Page)
}

#[tactic(auto, unfolding(crate::specs::Fields::field_of))]
fn read_quantiser(f: &[u8]) -> Result<Field, Refusal>
    ensures { result ≡ field_of Rule.Quantiser f.now }
{
    let n = number::read_number(f).ok_or(Refusal::Form)?;
    if n < 1 || 255 < n {
        return Err(Refusal::Table);
    }
    Ok(Field::Quantiser(n as u16))
}

// The highest level of a range, not below its lowest.
#[tactic(auto, unfolding(crate::specs::Fields::field_of))]
fn read_high(f: &[u8], low: i16) -> Result<Field, Refusal>
    ensures { result ≡ field_of (Rule.High low) f.now }
{
    let high = level::read_level(f)?;
    if low <= high {
        Ok(Field::High(high))
    } else {
        Err(Refusal::Range)
    }
}

// What a field says under its rule, spelling before range.
#[tactic(auto, unfolding(crate::specs::Fields::field_of))]
pub fn read_field(rule: Rule, f: &[u8]) -> Result<Field, Refusal>
    ensures { result ≡ field_of rule f.now }
{
    match rule {
        Rule::Tag(t) => is_letter(f, t).then_some(Field::Good).ok_or(Refusal::Form),
        Rule::Range { fault, low, high } => number_if(f, fault, |n| low <= n && n <= high),
        Rule::Count(most) => read_count(f, most),
        Rule::Side(high) => number_if(f, Refusal::Size, |n| is_side(n, high)),
        Rule::Channels => number_if(f, Refusal::Size, |n| n == 1 || n == 3),
        Rule::Letters(a, b) => (is_letter(f, a) || is_letter(f, b))
            .then_some(Field::Good)
            .ok_or(Refusal::Form),
        Rule::Weight => weight::read_weight(f).map(|_| Field::Good),
        Rule::Quantiser => read_quantiser(f),
        Rule::Level => level::read_level(f).map(Field::Level),
        Rule::Low => level::read_level(f).map(Field::Low),
        Rule::High(low) => read_high(f, low),
    }
}
