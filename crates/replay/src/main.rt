// Replays the oracle's answers: each line of standard input has an operation, its operands and the answer of the Rust.
// Writes how many of the lines have the answer that the proved code gives, and how many have another.
#![tactic(auto)]

mod arith;
mod sheets;
mod transforms;

use std::io;
use utils::blocks::Order;
use utils::dct::Transform;
use words::running::replay;

// Whether the line has the answer that the proved code gives. Its two first letters tell the
// operation: a word that is no operation's name is read as one that begins as it does.
fn same_line(line: &[u8]) -> bool {
    match line {
        [b'i', ..] => transforms::same_transform(line, Transform::Inverse),
        [b'd', ..] => transforms::same_transform(line, Transform::Forward),
        [b't', ..] => transforms::same_order(line, Order::Blocks),
        [b'u', ..] => transforms::same_up(line),
        [b'r', ..] => sheets::same_read(line),
        [b'w', ..] => arith::same_wide(line),
        [_, b'r', ..] => transforms::same_order(line, Order::Raster),
        _ => arith::same(line),
    }
}

fn main(rt: HostRuntime) -> io::Result<()> {
    replay(rt, same_line)
}
