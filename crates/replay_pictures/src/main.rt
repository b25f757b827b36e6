// Prints for each text of standard input what `smooth` prints for it: a text stands after its length in five decimal digits. The file `stdout` has the
// oracle's answers.
#![tactic(auto)]

ghost use Rattle.std.specs.Prelude.{◌≤◌, length};
ghost use Rattle.program.specs.Printed.{most_printed};

use filling::read_full;
use std::io;
use std::io::{Read, Write};

// What five digits say; 0 for more than 65,536.
// Kept: the 0, for which the program reads an empty text, as it did: the one caller would make an Option that 0 again.
fn length_of(digits: &[u8; 5]) -> usize
    ensures { result ≤ 65536 }
{
    let n = digits.iter().fold(0usize, |n, &b| {
        n.wrapping_mul(10).wrapping_add(usize::from(b % 16 % 10))
    });
    if n > 65536 { 0 } else { n }
}

// The next text of standard input, and what is printed for it. Whether there was one.
fn print_next<R: Read, W: Write>(
    input: &mut R,
    to: &mut W,
    space: &mut [u8],
    out: &mut [u8],
) -> io::Result<bool>
    requires { (65536 ≤ length space.old) × (most_printed ≤ length out.old) }
{
    let mut d = [48u8; 5];
    let got = read_full(input, &mut d)?;
    if got < 5 {
        return Ok(false);
    }
    let n = length_of(&d);
    let m = read_full(input, &mut space[0..n])?;
    let r = program::smooth_text(&space[0..m], out).unwrap();
    to.write_all(&out[0..r])?;
    Ok(true)
}

// The first 1,000,000 texts of standard input. The loop ends where there is no more.
fn print_all<R: Read, W: Write>(
    input: &mut R,
    to: &mut W,
    space: &mut [u8],
    out: &mut [u8],
) -> io::Result<()>
    requires { (65536 ≤ length space.old) × (most_printed ≤ length out.old) }
{
    // Kept: each loop is proved to end, and nothing says that an input does: `while print_next(..)? {}` has no measure.
    for _ in 0..1_000_000 {
        if !print_next(input, to, space, out)? {
            return Ok(());
        }
    }
    Ok(())
}

fn main(rt: HostRuntime) -> io::Result<()> {
    let mut space = [0u8; 65536];
    let mut out = [0u8; 139264];
    print_all(&mut rt.stdin(), &mut rt.stdout(), &mut space, &mut out)
}
