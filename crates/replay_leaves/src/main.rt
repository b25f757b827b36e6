// Replays calls on lent slices: each line of standard input has a call, what it is lent, and the answer and values that the oracle's own gives.
// Writes how many of the lines have what the proved code gives, and how many have another.
#![tactic(auto)]

mod segments;
mod stitches;
mod tapes;

use std::io;
use words::running::replay;

// Whether the line has what the proved code gives. Its first letter tells the crate, and at the
// tapes its third the call: a word that is no call's name is read as one of those too.
fn same_line(line: &[u8]) -> bool {
    match line {
        [b'i', ..] => segments::same_import(line),
        [b'e', ..] => segments::same_export(line),
        [b's', ..] => stitches::same_line(line),
        [_, _, b'a', ..] => tapes::same_call(line, archive::rearrange),
        _ => tapes::same_call(line, archive::restore),
    }
}

fn main(rt: HostRuntime) -> io::Result<()> {
    replay(rt, same_line)
}
