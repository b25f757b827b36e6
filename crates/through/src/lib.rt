// The whole path of the program `smooth`: from any reader, through `program::smooth_text`, to any
// writer.
#![tactic(auto)]

ghost use Rattle.std.specs.Prelude.{ℕ, List, OnOk, IfSome};
ghost use Rattle.std.specs.Io.KnownBytes.{Appends};
ghost use Rattle.program.specs.Printed.{printed};
ghost use Rattle.program_laws.specs.Answer.{IsAnswer};

use filling::read_full;
use std::io;
use std::io::{Read, Write};

// So many bytes of a text are read, more than decide what is printed for it.
const READ_MOST: usize = 65536;
// Room for the text of every answer.
const PRINTED_MOST: usize = 139264;

/// Reads a text, or as much of it as decides, and writes what is printed for the whole of it, once
/// and nothing else: one complete picture, or one numbered refusal. An error is the reader's or the
/// writer's, and what was written until then is not promised. This is said of readers and writers
/// whose bytes are known, as slices and vectors are: which bytes a file or a pipe gives and takes,
/// nothing says.
// Rules out: an answer to a part of the text, as to what one read of a pipe gives; an answer cut
// short, or written twice; a picture of another text.
#[tactic(auto, using(program_laws::proofs::Answers::one_answer))]
pub fn run<R: Read, W: Write>(input: &mut R, output: &mut W) -> io::Result<()>
    ensures writes { OnOk result (IfSome (R.remaining input.old) (λ text.
        Appends (W.contents output.old) (W.contents output.new) (printed text))) }
    ensures one_answer { (text : List ℕ) → IsAnswer (printed text) }
{
    let mut space = [0u8; READ_MOST];
    let n = read_full(input, &mut space)?;
    let mut out = [0u8; PRINTED_MOST];
    let m = program::smooth_text(&space[..n], &mut out).unwrap();
    output.write_all(&out[..m])
}

#[cfg(test)]
mod tests;
