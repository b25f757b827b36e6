// The clamp of eight coefficients at once, each in a lane, and how many it moves.
ghost use Rattle.std.specs.Prelude.{◌≡◌, ◌+◌, ◌<◌, ◌≤◌, ◌^◌, ◌||◌, length, pos};
ghost use Rattle.std.specs.Prelude.{slice_index_or, slice_set};
ghost use Rattle.std.specs.Float.Ieee.{lt};
ghost use Rattle.fold.specs.Fold.{upto};
ghost use Rattle.float.specs.Names.{val};
ghost use Rattle.float.specs.Ops.{clamp};
ghost use Rattle.interval.specs.Interval.{highest, lowest};
ghost use Rattle.utils.specs.Lanes.{eight};
ghost use Rattle.projection.specs.Projection.{tally};

use std::simd::prelude::*;
use utils::wholes::{signed, unsigned};

// Each lane, or the end that it lies beyond.
fn clamp_lanes(x: f32x8, least: f32x8, most: f32x8) -> f32x8
    requires x { length x ≡ 8 }
    requires least { length least ≡ 8 }
    requires most { length most ≡ 8 }
    ensures { result ≡ eight (λ j. clamp (val x j) (val least j) (val most j)) }
{
    let raised = x.simd_lt(least).select(least, x);
    most.simd_lt(raised).select(most, raised)
}

// How many lanes lie beyond an end, on top of n.
fn count_outside(x: f32x8, least: f32x8, most: f32x8, n: usize) -> usize
    requires x { length x ≡ 8 }
    requires least { length least ≡ 8 }
    requires most { length most ≡ 8 }
    requires few { n < 2 ^ 62 }
    ensures counted { result
        ≡ upto (λ j n. tally (lt (val x j) (val least j) || lt (val most j) (val x j)) n) 8 n }
    ensures few { result ≤ n + 8 }
{
    let outside = x.simd_lt(least) | most.simd_lt(x);
    n + outside.to_bitmask().count_ones() as usize
}

// The lower ends of eight intervals.
pub fn least_of(lows: &[i16], table: &[u16]) -> f32x8
    requires lows { length lows.now ≡ 8 }
    requires table { length table.now ≡ 8 }
    ensures { result
        ≡ eight (λ j. lowest (slice_index_or lows.now j (pos 0)) (slice_index_or table.now j 0)) }
{
    (signed(lows) - f32x8::splat(0.5)) * unsigned(table)
}

// The upper ends.
pub fn most_of(highs: &[i16], table: &[u16]) -> f32x8
    requires highs { length highs.now ≡ 8 }
    requires table { length table.now ≡ 8 }
    ensures { result
        ≡ eight (λ j. highest (slice_index_or highs.now j (pos 0)) (slice_index_or table.now j 0)) }
{
    (signed(highs) + f32x8::splat(0.5)) * unsigned(table)
}

// The eight values from `at` on, clamped. Gives n and, on top of it, how many that moved.
pub fn clamp_row(x: &mut [f32], at: usize, least: f32x8, most: f32x8, n: usize) -> usize
    requires room { at + 8 ≤ length x.old }
    requires least { length least ≡ 8 }
    requires most { length most ≡ 8 }
    requires few { n < 2 ^ 62 }
    ensures clamped { x.new
        ≡ upto (λ j t. slice_set t (at + j)
        (clamp (val t (at + j)) (val least j) (val most j))) 8 x.old }
    ensures counted { result
        ≡ upto (λ j n. tally (lt (val x.old (at + j)) (val least j)
        || lt (val most j) (val x.old (at + j))) n) 8 n }
    ensures few { result ≤ n + 8 }
{
    let v = f32x8::from_slice(&x[at..at + 8]);
    let moved = count_outside(v, least, most, n);
    clamp_lanes(v, least, most).copy_to_slice(&mut x[at..at + 8]);
    moved
}
