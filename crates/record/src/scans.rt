// Tests of every value of what is lent: lengths (8), levels (5 and 14).
ghost use Rattle.std.specs.Prelude.{◌≡◌, eqb, length};
ghost use Rattle.refusal.specs.Refusal.{answer_number};
ghost use Rattle.start.specs.Coef.{pairs};
ghost use Rattle.calls.specs.Calls.{all, pair_fault, levels_fault};

use answers::level_ok;
use refusal::Refusal;

// Kept: this and `first_place` of `text` are each one call of the library with a test of its own; a function that takes the test would be that call again.
pub fn all_equal(n: usize, lengths: &[usize]) -> bool
    ensures { result ≡ all (λ m. eqb m n) lengths.now }
{
    lengths.iter().all(|&m| m == n)
}

// 5 for a level beyond ±2,047, then 14 for a low above its high.
fn pair_fault(low: i16, high: i16) -> Result<(), Refusal>
    ensures { answer_number result ≡ pair_fault low high }
{
    if !level_ok(i32::from(low)) || !level_ok(i32::from(high)) {
        return Err(Refusal::Level);
    }
    if high < low {
        return Err(Refusal::Range);
    }
    Ok(())
}

// The first fault of a pair, from place to place.
// Rules out: 5 looked for in every pair before 14, and a high that isn't looked at.
pub fn levels_fault(lows: &[i16], highs: &[i16]) -> Result<(), Refusal>
    requires { length highs.now ≡ length lows.now }
    ensures { answer_number result ≡ levels_fault (pairs lows.now highs.now) }
{
    for (&low, &high) in lows.iter().zip(highs) {
        pair_fault(low, high)?;
    }
    Ok(())
}
