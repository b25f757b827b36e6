// The program `smooth`: standard input, or as much of it as decides, to standard output. What it
// reads and prints is `through::run`'s.
#![tactic(auto)]

use std::io;

fn main(rt: HostRuntime) -> io::Result<()> {
    through::run(&mut rt.stdin(), &mut rt.stdout())
}
