// How many steps the runs of a sheet have, and so how many blends they make.
ghost use Rattle.std.specs.Prelude.{◌≡◌, ◌*◌, ◌≤◌};
ghost use Rattle.solve.specs.Solve.{iterations_at, steps_before, blend_count};

use contents::{Sheet, of_three};

// Channel c's own iteration count.
pub fn iterations_at(s: Sheet, c: u32) -> u32
    ensures { result ≡ iterations_at s c }
{
    of_three(c, s.header.iterations)
}

// How many steps the runs of the channels before c have in separate mode.
// Kept: tried `(0..c).map(|k| iterations_at(s, k) as usize).sum()`. What stayed open is that it fits, and the bound that is promised: `sum` tells the sum alone, and that a count is
// below 2^32 is known of what a call answers, as here in each turn of the loop.
pub fn steps_before(s: Sheet, c: u32) -> usize
    ensures { (result ≡ steps_before s c) × (result ≤ c * 4294967295) }
{
    let mut sum = 0;
    for k in 0..c {
        sum += iterations_at(s, k) as usize;
    }
    sum
}

// How many blends all runs of a sheet make.
pub fn blend_count(s: Sheet) -> usize
    ensures is { result ≡ blend_count s }
    ensures most { s.header.channels ≤ 3 → result ≤ 12884901885 }
{
    let h = s.header;
    if h.joint {
        return h.iterations[0] as usize;
    }
    steps_before(s, h.channels)
}
