// The calls for the archive tapes: a line's words are `rearrange` or `restore`, the answer's number, the lengths of the slice that is read and of the one
// that is written, the values of the first, and those of the second afterwards; before, all are 77. Numbers are hexadecimal.
ghost use Rattle.std.specs.Prelude.{◌≤◌};

use refusal::{Refusal, answer_number};
use words::low_half;
use words::running::{from_word, number_at, read, same_values};

// A number modulo 2^16 as a value.
fn value(n: u32) -> i16 {
    low_half(n).cast_signed()
}

// Word k as the length of a slice, at most 256.
fn length_at(line: &[u8], k: usize) -> usize
    ensures { result ≤ 256 }
{
    (number_at(line, k) % 257) as usize
}

// Whether the line has the answer and the values that the call gives on slices of its lengths.
pub fn same_call<F: Fn(&[i16], &mut [i16]) -> Result<(), Refusal>>(line: &[u8], call: F) -> bool
    requires { F.IsAlwaysCallable call }
{
    let mut from = [0i16; 256];
    let mut out = [77i16; 256];
    let n = length_at(line, 2);
    let m = length_at(line, 3);
    let after = read(from_word(line, 4), &mut from[..n], value);
    let answer = call(&from[..n], &mut out[..m]);
    answer_number(answer) == number_at(line, 1)
        && same_values(after, &out[..m], |x, n| x == value(n))
}
