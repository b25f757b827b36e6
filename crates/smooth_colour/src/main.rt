// `smooth` once more, for a longer sheet and answer: a program is run on one input.
#![tactic(auto)]

use std::io;

fn main(rt: HostRuntime) -> io::Result<()> {
    through::run(&mut rt.stdin(), &mut rt.stdout())
}
