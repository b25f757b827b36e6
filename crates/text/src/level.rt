// Levels.
ghost use Rattle.std.specs.Prelude.{◌≡◌};
ghost use Rattle.text.specs.Levels.{from_zero, below_zero, level_of};

use crate::number;
use refusal::Refusal;

// A level by its number, where no minus stands before it.
fn from_zero(number: Option<u32>) -> Result<i16, Refusal>
    ensures { result ≡ from_zero number }
{
    let n = number.ok_or(Refusal::Form)?;
    if n <= 2047 {
        Ok(n as i16)
    } else {
        Err(Refusal::Level)
    }
}

// A level by the number after its minus.
fn below_zero(number: Option<u32>) -> Result<i16, Refusal>
    ensures { result ≡ below_zero number }
{
    let n = number.ok_or(Refusal::Form)?;
    if n == 0 {
        return Err(Refusal::Form);
    }
    if 2047 < n {
        return Err(Refusal::Level);
    }
    Ok(-(n as i16))
}

// A level: a number, or a minus and a number that isn't 0.
#[tactic(auto, unfolding(crate::specs::Levels::level_of))]
pub fn read_level(f: &[u8]) -> Result<i16, Refusal>
    ensures { result ≡ level_of f.now }
{
    match f {
        [b'-', rest @ ..] => below_zero(number::read_number(rest)),
        [_, ..] => from_zero(number::read_number(f)),
        [] => Err(Refusal::Form),
    }
}
