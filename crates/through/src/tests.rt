// What no clause says: that the bytes are given and taken at all, by readers and writers that do
// what pipes do.
ghost use Rattle.std.specs.Prelude.{◌≡◌, IfOk};
ghost use Rattle.program.specs.Printed.{printed};

use crate::run;
use std::alloc::Global;
use std::io;
use std::io::{ErrorKind, Read, Write};
use std::test::Fail;

// The text for bytes that are known: what `run` says of them.
fn answered(alloc: Global, text: &[u8]) -> io::Result<Vec<u8>>
    ensures { IfOk result (λ out. out.items ≡ printed text.now) }
{
    let mut input = text;
    let mut out = Vec::new(alloc);
    run(&mut input, &mut out)?;
    Ok(out)
}

// Gives one byte a call, and every other call is interrupted; after its last byte it fails, or is
// at its end.
#[derive(Drop)]
struct Drip {
    left: &'static [u8],
    interrupted: bool,
    fails: bool,
}

impl Read for Drip {
    fn read(&mut self, buf: &mut [u8]) -> io::Result<usize> {
        self.interrupted = !self.interrupted;
        if self.interrupted {
            return Err(ErrorKind::Interrupted.into());
        }
        if self.left.is_empty() && self.fails {
            return Err(ErrorKind::Other.into());
        }
        if self.left.is_empty() || buf.is_empty() {
            return Ok(0);
        }
        buf[0] = self.left[0];
        self.left = &self.left[1..];
        Ok(1)
    }
}

// Takes one byte a call, and no more than `room` in all.
#[derive(Drop)]
struct Sip {
    taken: Vec<u8>,
    room: usize,
}

impl Write for Sip {
    fn write(&mut self, buf: &[u8]) -> io::Result<usize> {
        if self.room == 0 {
            return Err(ErrorKind::BrokenPipe.into());
        }
        let n = buf.len().min(1);
        self.taken.extend_from_slice(&buf[..n])?;
        self.room -= n;
        Ok(n)
    }

    fn flush(&mut self) -> io::Result<()> {
        Ok(())
    }
}

#[test]
fn answers_slices(rt: HostRuntime) -> Result<(), Fail> {
    let alloc = rt.alloc();
    for (text, want) in [
        (&b""[..], &b"X\t7\t1\n"[..]),
        (&b"E"[..], &b"X\t7\t1\n"[..]),
        (&b"E\n"[..], &b"X\t1\t1\n"[..]),
    ] {
        let out = answered(alloc, text)?;
        assert_eq!(rt; &out[..], want);
    }
    Ok(())
}

#[test]
fn answers_pipes(rt: HostRuntime) -> Result<(), Fail> {
    let alloc = rt.alloc();
    for (fails, room, want) in [(false, 9, true), (true, 9, false), (false, 5, false)] {
        let mut input = Drip {
            left: b"E\n",
            interrupted: false,
            fails,
        };
        let mut output = Sip {
            taken: Vec::new(alloc),
            room,
        };
        let done = run(&mut input, &mut output).is_ok();
        assert_eq!(rt; done, want);
        if done {
            assert_eq!(rt; &output.taken[..], &b"X\t1\t1\n"[..]);
        }
    }
    Ok(())
}
