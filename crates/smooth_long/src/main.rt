// `smooth` once more, for a text that no one read of a pipe brings: it takes over 32 kB.
#![tactic(auto)]

use std::io;

fn main(rt: HostRuntime) -> io::Result<()> {
    through::run(&mut rt.stdin(), &mut rt.stdout())
}
