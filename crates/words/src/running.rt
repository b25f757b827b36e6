// Words of a list of answers whose lines run on: a line is handed with all that the buffer holds
// behind it, so that one with too few words goes on with those of the next. Words are ended by byte
// 10 or by one space, and digits are lowercase. The programs that replay the oracle's answers read
// so.
ghost use Rattle.std.specs.Prelude.{Bool, ℕ, ◌≡◌, ◌≤◌, ◌<◌, ◌+◌, ◌*◌, ◌%◌, ◌^◌, length};
ghost use Rattle.words.specs.Running.{word_end, first_word, after_word, from_word, digit, number, values_of, same_values};

use crate::{Tally, refill};
use std::io;
use std::io::Read;

// Where the line's first word ends. Ruled out: the place behind the byte that ends it; that of a
// later space; the line's end passed over.
pub fn word_end(line: &[u8]) -> Option<usize>
    ensures { result ≡ word_end line.now }
{
    line.iter().position(|&b| b == b' ' || b == b'\n')
}

// A line's first word, and what stands behind the byte that ends it.
// Ruled out: the space left at the front of what follows; nothing for a line of one word.
pub fn split_word(line: &[u8]) -> (&[u8], &[u8])
    ensures first { result.0.now ≡ first_word line.now }
    ensures after { result.1.now ≡ after_word line.now }
{
    match word_end(line) {
        Some(end) => (&line[..end], &line[end + 1..]),
        None => (line, &[]),
    }
}

// What stands behind the line's first k words. Ruled out: the line itself for a k other than 0; what stands behind word k.
pub fn from_word(line: &[u8], k: usize) -> &[u8]
    ensures { result.now ≡ from_word k line.now }
{
    let mut rest = line;
    for _ in 0..k {
        rest = split_word(rest).1;
    }
    rest
}

// Word k of the line, words counted from 0; no bytes behind the last. Ruled out: the word before or after it.
pub fn word(line: &[u8], k: usize) -> &[u8]
    ensures { result.now ≡ first_word (from_word k line.now) }
{
    split_word(from_word(line, k)).0
}

// A number with one more hexadecimal digit; a byte that is no digit counts as 0, and so does an
// uppercase letter. Ruled out: 10 for an A.
// Kept: std's `to_digit` reads uppercase letters too.
fn next_value(v: u32, b: u8) -> u32
    ensures { result ≡ ((v * 16) % 2 ^ 32 + digit b) % 2 ^ 32 }
{
    let digit = match b {
        b'0'..=b'9' => b - b'0',
        b'a'..=b'f' => b - b'a' + 10,
        _ => 0,
    };
    v.wrapping_mul(16).wrapping_add(u32::from(digit))
}

// The number whose hexadecimal digits the word is; a byte that is no digit counts as 0. Ruled out: the digits' sum; the digits read from the last to the first.
// Kept: `u32::from_str_radix` takes a str, and gives no number for a word with another byte or with more than eight digits.
pub fn number(word: &[u8]) -> u32
    ensures { result ≡ number word.now }
{
    word.iter().fold(0, |v, &b| next_value(v, b))
}

// The number that word k of the line is. Ruled out: that of the word before or after it.
pub fn number_at(line: &[u8], k: usize) -> u32
    ensures { result ≡ number (first_word (from_word k line.now)) }
{
    number(word(line, k))
}

// The bytes that the word spells, two digits each, as far as there is room. Answers how many.
// Ruled out: more bytes than there is room for; more than half the word's digits.
pub fn bytes(word: &[u8], out: &mut [u8]) -> usize
    ensures len { length out.new ≡ length out.old }
    ensures room { result ≤ length out.old }
    ensures digits { result * 2 ≤ length word.now }
{
    for (byte, digits) in out.iter_mut().zip(word.chunks_exact(2)) {
        *byte = (number(digits) % 256) as u8;
    }
    out.len().min(word.len() / 2)
}

// The values of xs become those of the line's first words. Answers what stands behind them.
// Ruled out: a word read for no value; the first word read for each value.
pub fn read<'a, T: Copy, F: Fn(u32) -> T>(line: &'a [u8], xs: &mut [T], value: F) -> &'a [u8]
    requires { F.IsAlwaysCallable value }
    ensures len { length xs.new ≡ length xs.old }
    ensures values { (g : ℕ → T) → ((n : ℕ) (x : T) → F.post value n x → x ≡ g n) → xs.new ≡ values_of g (length xs.old) line.now }
    ensures after { result.now ≡ from_word (length xs.old) line.now }
{
    let mut rest = line;
    for x in xs.iter_mut() {
        let (word, after) = split_word(rest);
        *x = value(number(word));
        rest = after;
    }
    rest
}

// Whether `same` says so of each value of xs and the number that the line's word at its place is.
// Ruled out: true where the last value alone is another; the first word read for each value.
pub fn same_values<T: Copy, F: Fn(T, u32) -> bool>(line: &[u8], xs: &[T], same: F) -> bool
    requires { F.IsAlwaysCallable same }
    ensures { (g : T → ℕ → Bool) → ((x : T) (n : ℕ) (b : Bool) → F.post same x n b → b ≡ g x n) → result ≡ same_values g line.now xs.now }
{
    let mut rest = line;
    for x in xs {
        let (word, behind) = split_word(rest);
        if !same(*x, number(word)) {
            return false;
        }
        rest = behind;
    }
    true
}

// One more, up to 2^32 - 1. Ruled out: 2^32.
fn one_more(n: u64) -> u64
    ensures more { n < 4294967295 → result ≡ n + 1 }
    ensures full { 4294967295 ≤ n → result ≡ n }
{
    if n < 0xffff_ffff { n + 1 } else { n }
}

// The tally with the lines that end before `to`, and where the first line that has no end there
// starts.
fn count_lines<F: Fn(&[u8]) -> bool>(
    text: &[u8],
    to: usize,
    tally: Tally,
    same: &F,
) -> (Tally, usize)
    requires callable { F.IsAlwaysCallable same.now }
    requires inside { to ≤ length text.now }
    ensures { result.1 ≤ to }
{
    let mut tally = tally;
    let mut at = 0;
    while let Some(n) = text[at..to].iter().position(|&b| b == b'\n') {
        if same(&text[at..]) {
            tally.same = one_more(tally.same);
        } else {
            tally.other = one_more(tally.other);
        }
        at += n + 1;
    }
    (tally, at)
}

// Counts for how many lines of the input `same` says that the line's answer is the oracle's. It is
// handed the line and what the buffer holds behind it. The input is read piece by piece, at most
// 1,000,000 times; the loop ends where nothing more is counted. Where a read fails its error is
// answered. No clause promises anything of the two numbers.
pub fn count<R: Read, F: Fn(&[u8]) -> bool>(input: &mut R, same: F) -> io::Result<Tally>
    requires { F.IsAlwaysCallable same }
{
    let mut text = [0u8; 65536];
    let mut tally = Tally::default();
    let mut from = 0;
    let mut to = 0;
    // Kept: each loop is proved to end, and nothing says that an input does, so that a loop without a count has no measure; `lines` and `split` of std's `BufRead` put each line on a heap.
    for _ in 0..1_000_000 {
        to = refill(input, &mut text, from..to)?;
        (tally, from) = count_lines(&text, to, tally, &same);
        if from == 0 {
            break;
        }
    }
    Ok(tally)
}

// What a program that replays does: it makes the tally of standard input with `count` and prints it as one line. Where a read or the printing fails its error is
// answered. No clause promises anything of what is printed.
pub fn replay<F: Fn(&[u8]) -> bool>(rt: HostRuntime, same: F) -> io::Result<()>
    requires { F.IsAlwaysCallable same }
{
    let tally = count(&mut rt.stdin(), same)?;
    println!(rt; "{tally}")
}
