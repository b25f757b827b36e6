// Eight whole numbers as eight lanes of f32.
ghost use Rattle.std.specs.Prelude.{◌≡◌, ℕ, ◌<◌, ◌≤◌, length, nat_abs, pos, slice_index_or};
ghost use Rattle.std.specs.Float.{binary32};
ghost use Rattle.std.specs.Float.Ieee.{of_int};
ghost use Rattle.float.specs.Names.{float};
ghost use Rattle.utils.specs.Lanes.{eight};

use std::simd::prelude::*;

/// Eight numbers of 16 bits with a sign, each in a lane.
pub fn signed(xs: &[i16]) -> f32x8
    requires { length xs.now ≡ 8 }
    ensures value { result ≡ eight (λ j. of_int binary32 (slice_index_or xs.now j (pos 0))) }
    ensures fit { (j : ℕ) → j < 8 → nat_abs (slice_index_or xs.now j (pos 0)) ≤ 32768 }
{
    i16x8::from_array([xs[0], xs[1], xs[2], xs[3], xs[4], xs[5], xs[6], xs[7]]).cast::<f32>()
}

/// Eight numbers of 16 bits with no sign, each in a lane.
pub fn unsigned(xs: &[u16]) -> f32x8
    requires { length xs.now ≡ 8 }
    ensures { result ≡ eight (λ j. float (slice_index_or xs.now j 0)) }
{
    u16x8::from_slice(xs).cast::<f32>()
}
