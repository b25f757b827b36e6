// Weights, in either form.
ghost use Rattle.std.specs.Prelude.{◌≡◌};
ghost use Rattle.text.specs.Pieces.{split};
ghost use Rattle.text.specs.Weights.{hex_digit, bit_form, weight_of, weight_at};

use crate::{number, pieces};
use contents::Weight;
use refusal::Refusal;

// The value of a lowercase hexadecimal digit.
// Kept: `char::from(b).to_digit(16)` takes A to F too, which are misspelt here: `(!b.is_ascii_uppercase()).then(|| char::from(b).to_digit(16)).flatten()` would be no plainer.
// Ruled out: 10 for a capital A; 16 for the letter g.
pub fn hex_digit(b: u8) -> Option<u32>
    ensures { result ≡ hex_digit b }
{
    match b {
        b'0'..=b'9' => Some(u32::from(b - b'0')),
        b'a'..=b'f' => Some(u32::from(b - 87)),
        _ => None,
    }
}

// The bit form: h and eight lowercase hexadecimal digits.
// Kept: `u32::from_str_radix` takes capital letters and a plus, each of which is misspelt here.
// Ruled out: seven digits; a sign before the digits.
#[tactic(auto, unfolding(crate::specs::Weights::bit_form))]
pub fn bit_form(f: &[u8]) -> Option<u32>
    ensures { result ≡ bit_form f.now }
{
    let [b'h', digits @ ..] = f else {
        return None;
    };
    if digits.len() != 8 {
        return None;
    }
    let mut v: u32 = 0;
    for &b in digits {
        let d = hex_digit(b)?;
        v = v * 16 + d;
    }
    Some(v)
}

// A weight: its bits or, where it isn't a bit form, the whole number after its w: `let .. else` takes the bits apart, the else branch reads the w form, as document 01 asks.
// Kept: the bits are what it keeps, and one test of them says "no sign bit, no infinity, no NaN"; `is_finite` of an f32 made of them needs a test of the sign beside it.
#[tactic(auto, unfolding(crate::specs::Weights::weight_of))]
pub fn read_weight(f: &[u8]) -> Result<Weight, Refusal>
    ensures { result ≡ weight_of f.now }
{
    let Some(bits) = bit_form(f) else {
        let [b'w', rest @ ..] = f else {
            return Err(Refusal::Form);
        };
        let n = number::read_number(rest).ok_or(Refusal::Form)?;
        return u8::try_from(n)
            .map(Weight::Whole)
            .map_err(|_| Refusal::Weight);
    };
    if 0x7f80_0000 <= bits {
        return Err(Refusal::Weight);
    }
    Ok(Weight::Bits(bits))
}

// The weight in field i of a row; the whole number 0 where there is none, as in `number_at`.
#[tactic(auto, unfolding(crate::specs::Weights::weight_at))]
pub fn weight_at(row: &[u8], i: usize) -> Weight
    ensures { result ≡ weight_at (split 9 row.now) i }
{
    read_weight(pieces::field_at(row, i)).unwrap_or_default()
}
