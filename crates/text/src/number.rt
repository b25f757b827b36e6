// Numbers.
ghost use Rattle.std.specs.Prelude.{◌≡◌};
ghost use Rattle.text.specs.Pieces.{split};
ghost use Rattle.text.specs.Numbers.{padded, number_of, number_at};

use crate::pieces;

// Is the first byte a zero before another?
fn is_padded(f: &[u8]) -> bool
    ensures { result ≡ padded f.now }
{
    matches!(f, [b'0', _, ..])
}

// One to six decimal digits, no zero before another digit.
// Kept: `parse` takes a sign, zeros before a digit and more than six digits, each of which is misspelt here.
// Kept: a loop. Tried as `f.iter().try_fold(0u32, |v, &b| Some(v * 10 + char::from(b).to_digit(10)?))`, and the proof didn't close: open stayed what the closure asks of its calls, that ten times the value so far and
// a digit fit in 32 bits, which the loop's invariant says by the place (`words::number` wraps, and so asks nothing), and the contract.
pub fn read_number(f: &[u8]) -> Option<u32>
    ensures { result ≡ number_of f.now }
{
    if f.is_empty() || 6 < f.len() || is_padded(f) {
        return None;
    }
    let mut v: u32 = 0;
    for &b in f {
        if b < b'0' || b'9' < b {
            return None;
        }
        v = v * 10 + u32::from(b - b'0');
    }
    Some(v)
}

// The number in field i of a row; 0 where there is none.
// Kept: a good line has a number in each field that is asked; an Option would be opened at each call, as `number_at(row, 1).unwrap_or(0)`, where the 0 that never comes is said once here.
#[tactic(auto, unfolding(crate::specs::Numbers::number_at))]
pub fn number_at(row: &[u8], i: usize) -> u32
    ensures { result ≡ number_at (split 9 row.now) i }
{
    read_number(pieces::field_at(row, i)).unwrap_or(0)
}
