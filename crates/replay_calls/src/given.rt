// A line's words, in hexadecimal: `serve`, the digest, what all values of the six buffers are before, the lengths of the six, of lows, highs, tables, jobs,
// channels and answers, the record's 33 numbers, the lows and the highs modulo 2^16, the quantisers, the jobs' numbers and the channels.
ghost use Rattle.std.specs.Prelude.{◌≤◌};

use crate::served;
use float::bits::from_bits;
use record::lent::{Buffers, Given};
use record::{Channel, Run};
use start::coef::Reorder;
use words::low_half;
use words::running::{from_word, number_at, read};

// A number modulo 2^16 as a level.
fn level(n: u32) -> i16 {
    low_half(n).cast_signed()
}

fn byte(n: u32) -> u8 {
    (n % 256) as u8
}

// Word k as a length, at most `most`.
fn length_of(line: &[u8], k: usize, most: usize) -> usize
    ensures { result ≤ most }
{
    most.min(number_at(line, k) as usize)
}

// The channel whose nine numbers these words are.
fn read_channel(words: &[u8]) -> Channel {
    Channel {
        width: number_at(words, 0),
        height: number_at(words, 1),
        across: number_at(words, 2),
        down: number_at(words, 3),
        weight: from_bits(number_at(words, 4)),
        held: number_at(words, 5),
        position: number_at(words, 6),
        mark: number_at(words, 7) == 1,
        clipped: number_at(words, 8),
    }
}

fn read_run(line: &[u8]) -> Run {
    let a = read_channel(from_word(line, 21));
    let b = read_channel(from_word(line, 30));
    let c = read_channel(from_word(line, 39));
    Run {
        w: number_at(line, 15),
        h: number_at(line, 16),
        n: number_at(line, 17),
        smoothing: from_bits(number_at(line, 18)),
        reorder: Reorder::from(number_at(line, 19)),
        count: number_at(line, 20),
        channels: [a, b, c],
    }
}

// The digest that the proved calls give for the line's six buffers, all their values being word 2.
fn digest_of(line: &[u8], jobs: &[u8], channels: &[u32], answers: &mut [u8], given: Given) -> u32 {
    let x = from_bits(number_at(line, 2));
    let mut plane = [x; 3072];
    let mut prior = [x; 3072];
    let mut gradient = [x; 3072];
    let mut across = [x; 3072];
    let mut down = [x; 3072];
    let mut saved = [x; 3072];
    let a = length_of(line, 3, 3072);
    let b = length_of(line, 4, 3072);
    let c = length_of(line, 5, 3072);
    let d = length_of(line, 6, 3072);
    let e = length_of(line, 7, 3072);
    let f = length_of(line, 8, 3072);
    let mut lent = Buffers {
        plane: &mut plane[..a],
        prior: &mut prior[..b],
        gradient: &mut gradient[..c],
        across: &mut across[..d],
        down: &mut down[..e],
        saved: &mut saved[..f],
    };
    served::digest(read_run(line), jobs, channels, answers, given, &mut lent)
}

// Reads the lists of jobs and of channels, which `words` begins with, and makes the calls.
fn same_calls(line: &[u8], words: &[u8], given: Given) -> bool {
    let mut jobs = [0u8; 256];
    let mut channels = [0u32; 256];
    let mut answers = [77u8; 256];
    let n = length_of(line, 12, 256);
    let m = length_of(line, 13, 256);
    let k = length_of(line, 14, 256);
    let rest = read(words, &mut jobs[..n], byte);
    read(rest, &mut channels[..m], |n| n);
    let digest = digest_of(line, &jobs[..n], &channels[..m], &mut answers[..k], given);
    number_at(line, 1) == digest
}

// Whether the line has the digest that the proved calls give.
pub fn same_line(line: &[u8]) -> bool {
    let mut lows = [0i16; 3072];
    let mut highs = [0i16; 3072];
    let mut tables = [0u16; 256];
    let n = length_of(line, 9, 3072);
    let o = length_of(line, 10, 3072);
    let m = length_of(line, 11, 256);
    let after_lows = read(from_word(line, 48), &mut lows[..n], level);
    let after_highs = read(after_lows, &mut highs[..o], level);
    let rest = read(after_highs, &mut tables[..m], low_half);
    let given = Given {
        lows: &lows[..n],
        highs: &highs[..o],
        tables: &tables[..m],
    };
    same_calls(line, rest, given)
}
