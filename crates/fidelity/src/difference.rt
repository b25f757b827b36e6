// The difference of eight saved coefficients from half sum × quantiser, over the quantiser's
// square, each in a lane.
ghost use Rattle.std.specs.Prelude.{◌≡◌, ℕ, ◌+◌, ◌<◌, ◌≤◌, length, pos, slice_index_or, slice_set};
ghost use Rattle.fold.specs.Fold.{upto};
ghost use Rattle.float.specs.Names.{val};
ghost use Rattle.interval.specs.Interval.{mid};
ghost use Rattle.utils.specs.Lanes.{eight};
ghost use Rattle.fidelity.specs.DctGradient.{cosb_of};

use std::simd::prelude::*;
use utils::wholes::{signed, unsigned};

// With quantisers of 8 bits the product with the half sum is exact: product and sum round once.
fn cosb_lanes(x: f32x8, lows: &[i16], highs: &[i16], table: &[u16]) -> f32x8
    requires x { length x ≡ 8 }
    requires lows { length lows.now ≡ 8 }
    requires highs { length highs.now ≡ 8 }
    requires table { length table.now ≡ 8 }
    requires bytes { (j : ℕ) → j < 8 → slice_index_or table.now j 0 ≤ 255 }
    ensures { result ≡ eight (λ j. cosb_of
        (mid (slice_index_or lows.now j (pos 0)) (slice_index_or highs.now j (pos 0)))
        (slice_index_or table.now j 0) (val x j)) }
{
    let quant = unsigned(table);
    let sum = signed(lows) + signed(highs);
    let mid = sum * f32x8::splat(0.5);
    (mid * -quant + x) / (quant * quant)
}

// Of the eight values from `from` on.
pub fn difference_at(cosbs: &mut [f32], from: usize, lows: &[i16], highs: &[i16], table: &[u16])
    requires room { from + 8 ≤ length cosbs.old }
    requires lows { length lows.now ≡ 8 }
    requires highs { length highs.now ≡ 8 }
    requires table { length table.now ≡ 8 }
    requires bytes { (j : ℕ) → j < 8 → slice_index_or table.now j 0 ≤ 255 }
    ensures { cosbs.new ≡ upto (λ j t. slice_set t (from + j) (cosb_of
        (mid (slice_index_or lows.now j (pos 0)) (slice_index_or highs.now j (pos 0)))
        (slice_index_or table.now j 0) (val t (from + j)))) 8 cosbs.old }
{
    let x = f32x8::from_slice(&cosbs[from..from + 8]);
    cosb_lanes(x, lows, highs, table).copy_to_slice(&mut cosbs[from..from + 8]);
}
