// Replays lists of calls on a run: each line of standard input has a record, levels, tables, a list of calls and a digest of what the oracle's model of
// the calls leaves: the answers, the record and all six buffers. Writes how many of the lines have the digest that the proved calls give, and
// how many have another.
#![tactic(auto)]

mod given;
mod served;

use std::io;
use words::running::replay;

fn main(rt: HostRuntime) -> io::Result<()> {
    replay(rt, given::same_line)
}
