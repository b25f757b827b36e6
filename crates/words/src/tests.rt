// What the words of a line alone are, and beside each what they are where the line runs on.
use crate::{
    bytes, count, from_word, number, number_at, read, replay, running, same_values, split_word,
    word,
};
use std::io;
use std::io::Read;
use std::test::Fail;

// Gives one line a call and says after each that the input is at its end, so that the buffer is
// filled anew for each.
#[derive(Drop)]
struct LineByLine {
    left: u32,
    given: bool,
}

impl Read for LineByLine {
    fn read(&mut self, buf: &mut [u8]) -> io::Result<usize> {
        self.given = !self.given;
        if !self.given || self.left == 0 || buf.is_empty() {
            return Ok(0);
        }
        self.left -= 1;
        buf[0] = b'\n';
        Ok(1)
    }
}

#[test]
fn words_of_a_line(rt: HostRuntime) -> Result<(), Fail> {
    let line = &b"op 1A\nff c"[..];
    let (first, after) = split_word(line);
    assert_eq!(rt; first, &b"op"[..]);
    assert_eq!(rt; after, &b"1A\nff c"[..]);
    let (first, after) = split_word(&line[3..]);
    assert_eq!(rt; first, &b"1A\nff"[..]);
    assert_eq!(rt; after, &b"c"[..]);
    let (first, after) = running::split_word(&line[3..]);
    assert_eq!(rt; first, &b"1A"[..]);
    assert_eq!(rt; after, &b"ff c"[..]);
    assert_eq!(rt; from_word(line, 2), &b"c"[..]);
    assert_eq!(rt; running::from_word(line, 2), &b"ff c"[..]);
    assert_eq!(rt; word(line, 1), &b"1A\nff"[..]);
    assert_eq!(rt; running::word(line, 1), &b"1A"[..]);
    Ok(())
}

#[test]
fn numbers_of_a_line(rt: HostRuntime) -> Result<(), Fail> {
    assert_eq!(rt; number(b"1Af"), 0x1af);
    assert_eq!(rt; running::number(b"1Af"), 0x10f);
    assert_eq!(rt; number_at(b"op B", 1), 0xb);
    assert_eq!(rt; running::number_at(b"op B", 1), 0);
    let mut out = [1u8; 3];
    assert_eq!(rt; bytes(b"0Aff7", &mut out), 2);
    assert_eq!(rt; &out[..], &[10u8, 255, 1][..]);
    assert_eq!(rt; running::bytes(b"0Aff7", &mut out), 2);
    assert_eq!(rt; &out[..], &[0u8, 255, 1][..]);
    let mut xs = [0u32; 2];
    assert_eq!(rt; running::read(b"a 1F\n 2", &mut xs, |n| n), &b" 2"[..]);
    assert_eq!(rt; &xs[..], &[10u32, 0x10][..]);
    assert_eq!(rt; read(b"a 1F\n 2", &mut xs, |n| n), &b"2"[..]);
    assert_eq!(rt; &xs[..], &[10u32, 0x1f0][..]);
    assert_eq!(rt; same_values(b"A 1f0 2", &xs, |x, n| x == n), true);
    assert_eq!(rt; running::same_values(b"A 1f0 2", &xs, |x, n| x == n), false);
    Ok(())
}

#[test]
fn counts_lines(rt: HostRuntime) -> Result<(), Fail> {
    let mut input = &b"A\nb c\nd"[..];
    let tally = count(&mut input, |line| line == b"A".as_slice())?;
    assert_eq!(rt; tally.same, 1);
    assert_eq!(rt; tally.other, 1);
    let mut input = &b"A\nb c\nd"[..];
    let tally = running::count(&mut input, |line| line == b"A".as_slice())?;
    assert_eq!(rt; tally.same, 0);
    assert_eq!(rt; tally.other, 2);
    Ok(())
}

#[test]
fn reads_on(rt: HostRuntime) -> Result<(), Fail> {
    let mut input = LineByLine {
        left: 1_000_002,
        given: false,
    };
    let tally = count(&mut input, |line| line.is_empty())?;
    assert_eq!(rt; tally.same, 1_000_002);
    let mut input = LineByLine {
        left: 1_000_002,
        given: false,
    };
    let tally = running::count(&mut input, |line| line.first() == Some(&b'\n'))?;
    assert_eq!(rt; tally.same, 1_000_000);
    Ok(())
}

// Both read all of standard input and print, and no clause says what.
#[test]
fn replays(rt: HostRuntime) -> Result<(), Fail> {
    replay(rt, |_| true)?;
    running::replay(rt, |_| true)?;
    Ok(())
}
