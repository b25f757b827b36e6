// blocks.rs: block order, where the 64 values of a block follow one another, and raster order.
ghost use Rattle.std.specs.Prelude.{◌≡◌, ℕ, ◌+◌, ◌*◌, ◌≤◌, Float, List, length, take};
ghost use Rattle.float.specs.Names.{val};
ghost use Rattle.utils.specs.Blocks.{copy8, from_blocks, move_blocks, stored, taken, to_blocks};
ghost use Rattle.utils.specs.Blocks.{IsPlaced};

// The order that values are brought to.
#[derive(Clone, Copy)]
pub enum Order {
    Blocks,
    Raster,
}

impl Order {
    // Where a row of a block is read, and where it is stored: it starts at `row_start` in the raster, and at `index` in block order.
    fn places(self, row_start: usize, index: usize) -> (usize, usize)
        ensures { (result.0 ≡ taken self row_start index) × (result.1 ≡ stored self row_start index) }
    {
        match self {
            Order::Blocks => (row_start, index),
            Order::Raster => (index, row_start),
        }
    }
}

/// A row of a block: eight values.
// Rules out: a value outside the row changed.
// Kept: tried with this line in `move_blocks` itself, and the proof of its bounds didn't close: both slices, the ends of both and the sum of the place and 8.
#[tactic(auto, using(crate::proofs::Copied::copied))]
pub fn copy8(input: &[f32], output: &mut [f32], from: usize, to: usize)
    requires { (from + 8 ≤ length input.now) × (to + 8 ≤ length output.old) }
    ensures { output.new ≡ copy8 input.now from to output.old }
{
    output[to..to + 8].copy_from_slice(&input[from..from + 8]);
}

// Values of bh lines of bw blocks brought to this order: the first w * h values of `output`.
// Ruled out: the rows of a block one after the other above width 8; blocks taken column by column; and the other order, which differs above width 8.
// Kept: the Rust's four parameters of `from_blocks` and `to_blocks`, in its order, since the port keeps the Rust's, a rule of the project; with the eighths alone both clauses on them would go.
#[tactic(auto, using(crate::proofs::Places::placed, fold::proofs::Loops::upto_more, fold::proofs::Loops::upto_none, crate::proofs::Opened::move_is))]
pub fn move_blocks(
    input: &[f32],
    output: &mut [f32],
    w: usize,
    h: usize,
    bw: usize,
    bh: usize,
    order: Order,
)
    requires { (w ≡ bw * 8) × (h ≡ bh * 8) × (w * h ≤ length input.now) × (w * h ≤ length output.old) }
    ensures { output.new ≡ move_blocks order w bw bh input.now output.old }
{
    let mut index = 0;
    for by in 0..bh {
        for bx in 0..bw {
            for y in 0..8 {
                let row_start = (by * 8 + y) * w + bx * 8;
                let (from, to) = order.places(row_start, index);
                copy8(input, output, from, to);
                index += 8;
            }
        }
    }
}

/// Values of bh lines of bw blocks from block order to raster order: the first w * h values of
/// `output`, and the rest of it stays. `to_blocks` undoes it.
// Rules out: the other order, which differs above width 8; blocks placed column by column; a value
// past the raster changed.
pub fn from_blocks(input: &[f32], output: &mut [f32], w: usize, h: usize, bw: usize, bh: usize)
    requires width { w ≡ bw * 8 }
    requires height { h ≡ bh * 8 }
    requires given { w * h ≤ length input.now }
    requires room { w * h ≤ length output.old }
    ensures moved { output.new ≡ from_blocks w bw bh input.now output.old }
    ensures placed { IsPlaced w bw bh input.now output.new }
    ensures rest { (p : ℕ) → w * h ≤ p → val output.new p ≡ val output.old p }
    ensures undone { (held : List Float) → w * h ≤ length held
        → take (w * h) (to_blocks w bw bh output.new held) ≡ take (w * h) input.now }
{
    move_blocks(input, output, w, h, bw, bh, Order::Raster);
}

/// Values of bh lines of bw blocks from raster order to block order: the first w * h values of
/// `output`, and the rest of it stays. `from_blocks` undoes it.
// Rules out: the other order, which differs above width 8; blocks taken column by column; a value
// past the blocks changed.
pub fn to_blocks(input: &[f32], output: &mut [f32], w: usize, h: usize, bw: usize, bh: usize)
    requires width { w ≡ bw * 8 }
    requires height { h ≡ bh * 8 }
    requires given { w * h ≤ length input.now }
    requires room { w * h ≤ length output.old }
    ensures moved { output.new ≡ to_blocks w bw bh input.now output.old }
    ensures placed { IsPlaced w bw bh output.new input.now }
    ensures rest { (p : ℕ) → w * h ≤ p → val output.new p ≡ val output.old p }
    ensures undone { (held : List Float) → w * h ≤ length held
        → take (w * h) (from_blocks w bw bh output.new held) ≡ take (w * h) input.now }
{
    move_blocks(input, output, w, h, bw, bh, Order::Blocks);
}
