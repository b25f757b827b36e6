// Reading until a buffer is full.
#![tactic(auto)]

ghost use Rattle.std.specs.Prelude.{◌≡◌, ◌≢◌, ◌≤◌, ◌<◌, length, take, IfOk, IfErr};
ghost use Rattle.std.specs.Io.KnownBytes.{Consumes, IsAtEnd};
ghost use Rattle.std.specs.IoError.{error_kind};

use std::io;
use std::io::{ErrorKind, Read};

/// Reads until the buffer is full or the input ends, and answers how many bytes stand at its front:
/// the input's next bytes, in their order, and fewer than the buffer holds only at the input's end,
/// where the input's bytes are known.
/// A read that a signal interrupts is made again. Where a read fails its error is answered, and
/// what the buffer then holds is not promised but for its length.
// Rules out: a count past the buffer's end or of bytes that were not read; bytes left out or read
// twice; a stop before the input's end; and a buffer that comes back with another length.
pub fn read_full<R: Read>(input: &mut R, buf: &mut [u8]) -> io::Result<usize>
    ensures len { length buf.new ≡ length buf.old }
    ensures bound { IfOk result (λ n. n ≤ length buf.old) }
    ensures bytes { IfOk result (λ n.
        Consumes (R.remaining input.old) (R.remaining input.new) (take n buf.new)) }
    ensures end { IfOk result (λ n. n < length buf.old → IsAtEnd (R.remaining input.new)) }
    ensures retried { IfErr result (λ e. error_kind e ≢ ErrorKind.Interrupted) }
{
    let mut done = 0;
    // Kept: each loop is proved to end. Tried `while done < buf.len()`: a read that a signal
    // interrupts leaves `done` as it was, so that no measure gets less, and nothing says that such
    // reads come to an end. `read_to_end` needs a heap, and after an error of `read_exact` nothing
    // is known of how much was read.
    for _ in 0..u64::MAX {
        if done >= buf.len() {
            return Ok(done);
        }
        match input.read(&mut buf[done..]) {
            Ok(0) => return Ok(done),
            Ok(n) => done += n,
            Err(e) => {
                if e.kind() != ErrorKind::Interrupted {
                    return Err(e);
                }
            }
        }
    }
    // So many reads were interrupted: an error, and not a count that looks like the input's end.
    Err(io::Error::from(ErrorKind::TimedOut))
}
