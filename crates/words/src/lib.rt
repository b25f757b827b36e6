// Words of a list of answers: lines ended by byte 10, words parted by one space, numbers as eight hexadecimal digits. For the
// programs that replay the oracle's answers and count how many are the same. A word that is no number reads as some number.
// A `line` is here the line alone, without the byte that ends it; `running`, by which the programs
// read, has the same of a line that is handed with what follows it, and `word_end` is from there.
#![tactic(auto)]

pub mod running;
#[cfg(test)]
mod tests;

ghost use Rattle.std.specs.Prelude.{Bool, ℕ, ◌≡◌, ◌≤◌, ◌+◌, ◌*◌, ◌%◌, ◌^◌, length, IfOk};
ghost use Rattle.words.specs.Words.{word_end, first_word, after_word, from_word, digit, number, values_of, same_values, with, with_all};

pub use crate::running::word_end;
use filling::read_full;
use std::io::Read;
use std::ops::Range;
use std::{fmt, io};

// Where the line's first word ends. Ruled out: the place behind the space; that of a later space.
fn first_space(line: &[u8]) -> Option<usize>
    ensures { result ≡ word_end line.now }
{
    line.iter().position(|&b| b == b' ')
}

// A line's first word, and what stands behind the space that ends it.
// Ruled out: the space left at the front of what follows; nothing for a line of one word.
pub fn split_word(line: &[u8]) -> (&[u8], &[u8])
    ensures first { result.0.now ≡ first_word line.now }
    ensures after { result.1.now ≡ after_word line.now }
{
    match first_space(line) {
        Some(end) => (&line[..end], &line[end + 1..]),
        None => (line, &[]),
    }
}

// What stands behind the line's first k words. Ruled out: the line itself for a k other than 0; what stands behind word k.
pub fn from_word(line: &[u8], k: usize) -> &[u8]
    ensures { result.now ≡ from_word k line.now }
{
    let mut rest = line;
    for _ in 0..k {
        rest = split_word(rest).1;
    }
    rest
}

// Word k of the line, words counted from 0; no bytes behind the last. Ruled out: the word before or after it.
pub fn word(line: &[u8], k: usize) -> &[u8]
    ensures { result.now ≡ first_word (from_word k line.now) }
{
    split_word(from_word(line, k)).0
}

// A number with one more hexadecimal digit; a byte that is no digit counts as 0.
fn next_value(v: u32, b: u8) -> u32
    ensures { result ≡ ((v * 16) % 2 ^ 32 + digit b) % 2 ^ 32 }
{
    let digit = char::from(b).to_digit(16).unwrap_or(0);
    v.wrapping_mul(16).wrapping_add(digit)
}

// The number whose hexadecimal digits the word is; a byte that is no digit counts as 0. Ruled out: the digits' sum; the digits read from the last to the first.
// Kept: `u32::from_str_radix` takes a str, and gives no number for a word with another byte or with more than eight digits.
pub fn number(word: &[u8]) -> u32
    ensures { result ≡ number word.now }
{
    word.iter().fold(0, |v, &b| next_value(v, b))
}

// The number that word k of the line is. Ruled out: that of the word before or after it.
pub fn number_at(line: &[u8], k: usize) -> u32
    ensures { result ≡ number (first_word (from_word k line.now)) }
{
    number(word(line, k))
}

// A number modulo 2^16. Ruled out: its upper half; 0 for 2^16 - 1.
pub fn low_half(n: u32) -> u16
    ensures { result ≡ n % 2 ^ 16 }
{
    (n % 65536) as u16
}

// The bytes that the word spells, two digits each, as far as there is room. Answers how many.
// Ruled out: more bytes than there is room for; more than half the word's digits.
pub fn bytes(word: &[u8], out: &mut [u8]) -> usize
    ensures len { length out.new ≡ length out.old }
    ensures room { result ≤ length out.old }
    ensures digits { result * 2 ≤ length word.now }
{
    for (byte, digits) in out.iter_mut().zip(word.chunks_exact(2)) {
        *byte = (number(digits) % 256) as u8;
    }
    out.len().min(word.len() / 2)
}

// The values of xs become those of the line's first words. Answers what stands behind them.
// Ruled out: a word read for no value; the first word read for each value.
pub fn read<'a, T: Copy, F: Fn(u32) -> T>(line: &'a [u8], xs: &mut [T], value: F) -> &'a [u8]
    requires { F.IsAlwaysCallable value }
    ensures len { length xs.new ≡ length xs.old }
    ensures values { (g : ℕ → T) → ((n : ℕ) (x : T) → F.post value n x → x ≡ g n) → xs.new ≡ values_of g (length xs.old) line.now }
    ensures after { result.now ≡ from_word (length xs.old) line.now }
{
    let mut rest = line;
    for x in xs.iter_mut() {
        let (word, after) = split_word(rest);
        *x = value(number(word));
        rest = after;
    }
    rest
}

// Whether `same` says so of each value of xs and the number that the line's word at its place is.
// Ruled out: true where the last value alone is another; the first word read for each value.
pub fn same_values<T: Copy, F: Fn(T, u32) -> bool>(line: &[u8], xs: &[T], same: F) -> bool
    requires { F.IsAlwaysCallable same }
    ensures { (g : T → ℕ → Bool) → ((x : T) (n : ℕ) (b : Bool) → F.post same x n b → b ≡ g x n) → result ≡ same_values g line.now xs.now }
{
    let mut rest = line;
    for x in xs {
        let (word, behind) = split_word(rest);
        if !same(*x, number(word)) {
            return false;
        }
        rest = behind;
    }
    true
}

// A digest with one more number. Ruled out: a digest of the numbers in another order; one that a number of 0 leaves as it is.
pub fn with(digest: u32, n: u32) -> u32
    ensures { result ≡ with digest n }
{
    digest.wrapping_mul(31).wrapping_add(n)
}

// A digest with the numbers of these values, one after the other. Ruled out: the number of the first value for each; a digest of the numbers from the last to the first.
pub fn with_all<T: Copy, F: Fn(T) -> u32>(digest: u32, xs: &[T], number: F) -> u32
    requires { F.IsAlwaysCallable number }
    ensures { (g : T → ℕ) → ((x : T) (n : ℕ) → F.post number x n → n ≡ g x) → result ≡ with_all g digest xs.now }
{
    xs.iter().fold(digest, |d, &x| with(d, number(x)))
}

// Moves what stands at these places to the front of the buffer, reads the input behind it until the buffer is full or the input ends, and answers
// where what was read ends. Where a read fails its error is answered, and of the buffer only its length is promised.
// Rules out: an end past the buffer's; and a buffer that comes back with another length.
pub fn refill<R: Read>(input: &mut R, buf: &mut [u8], places: Range<usize>) -> io::Result<usize>
    requires { (places.start ≤ places.end) × (places.end ≤ length buf.old) }
    ensures len { length buf.new ≡ length buf.old }
    ensures ends { IfOk result (λ n. n ≤ length buf.old) }
{
    let kept = places.end - places.start;
    buf.copy_within(places, 0);
    let got = read_full(input, &mut buf[kept..])?;
    Ok(kept + got)
}

// How many answers are the same as the oracle's, and how many are not.
#[derive(Clone, Copy, Default)]
pub struct Tally {
    pub same: u64,
    pub other: u64,
}

impl fmt::Display for Tally {
    fn fmt<W: fmt::Write>(&self, f: &mut fmt::Formatter<W>) -> fmt::Result {
        let same = self.same;
        let other = self.other;
        write!(f, "{same} same, {other} other")
    }
}

// The tally with the lines that end in `text`, and how many bytes they take.
fn count_lines<F: Fn(&[u8]) -> bool>(text: &[u8], tally: Tally, same: &F) -> (Tally, usize)
    requires { F.IsAlwaysCallable same.now }
    ensures { result.1 ≤ length text.now }
{
    match text.iter().rposition(|&b| b == b'\n') {
        None => (tally, 0),
        Some(end) => {
            let mut tally = tally;
            for line in text[..end].split(|&b| b == b'\n') {
                if same(line) {
                    tally.same = tally.same.saturating_add(1);
                } else {
                    tally.other = tally.other.saturating_add(1);
                }
            }
            (tally, end + 1)
        }
    }
}

// Counts for how many lines of the input `same` says that the line's answer is the oracle's. The input is read piece by piece; the loop ends where nothing more
// is counted. Where a read fails its error is answered. No clause promises anything of the two numbers.
pub fn count<R: Read, F: Fn(&[u8]) -> bool>(input: &mut R, same: F) -> io::Result<Tally>
    requires { F.IsAlwaysCallable same }
{
    let mut text = [0u8; 65536];
    let mut tally = Tally::default();
    let mut from = 0;
    let mut to = 0;
    // Kept: each loop is proved to end, and nothing says that an input does, so that a loop without a count has no measure; `lines` and `split` of std's `BufRead` put each line on a heap.
    for _ in 0..u64::MAX {
        to = refill(input, &mut text, from..to)?;
        (tally, from) = count_lines(&text[..to], tally, &same);
        if from == 0 {
            break;
        }
    }
    Ok(tally)
}

// What a program that replays does: it makes the tally of standard input with `count` and prints it as one line. Where a read or the printing fails its error is
// answered. No clause promises anything of what is printed.
pub fn replay<F: Fn(&[u8]) -> bool>(rt: HostRuntime, same: F) -> io::Result<()>
    requires { F.IsAlwaysCallable same }
{
    let tally = count(&mut rt.stdin(), same)?;
    println!(rt; "{tally}")
}
