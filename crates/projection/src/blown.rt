// The condition under which project marks a channel, which the Rust has not.
ghost use Rattle.std.specs.Prelude.{◌≡◌, ◌||◌, ℕ, ◌<◌, false, length, true};
ghost use Rattle.std.specs.Float.Ieee.{lt};
ghost use Rattle.float.specs.Names.{val};
ghost use Rattle.projection.specs.Blown.{bad, any_bad};

use std::simd::prelude::*;

// NaN or infinite.
#[tactic(auto, using(crate::proofs::Bad::bad_is))]
fn bad(x: f32) -> bool
    ensures { result ≡ bad x }
{
    !x.is_finite()
}

// Value by value.
// Kept: one call of std's `any`, as others are of its `all`; a function over both would be longer than the call.
fn has_bad(xs: &[f32]) -> bool
    ensures { result ≡ any_bad xs.now }
{
    xs.iter().any(|&x| bad(x))
}

// Whether each lane is above `least`.
fn are_above(x: f32x8, least: f32) -> bool
    requires { length x ≡ 8 }
    ensures { result ≡ true → (j : ℕ) → j < 8 → lt least (val x j) ≡ true }
{
    f32x8::splat(least).simd_lt(x).to_bitmask() == 0xff
}

// Whether eight values lie between the infinities, so that none is bad.
fn are_finite(row: &[f32]) -> bool
    requires { length row.now ≡ 8 }
    ensures { result ≡ true → any_bad row.now ≡ false }
{
    let x = f32x8::from_slice(row);
    are_above(x, f32::NEG_INFINITY) && are_above(-x, f32::NEG_INFINITY)
}

// Eight values: one by one where one may be bad.
fn bad_row(row: &[f32]) -> bool
    requires { length row.now ≡ 8 }
    ensures { result ≡ any_bad row.now }
{
    if are_finite(row) { false } else { has_bad(row) }
}

// Eight by eight.
fn any_bad(xs: &[f32]) -> bool
    ensures { result ≡ any_bad xs.now }
{
    let n = xs.len() / 8;
    for k in 0..n {
        if bad_row(&xs[k * 8..k * 8 + 8]) {
            return true;
        }
    }
    has_bad(&xs[n * 8..])
}

// Whether a plane value or a saved coefficient is NaN or infinite.
// Rules out: a test of the plane alone, and a test for NaN alone.
pub fn is_blown(plane: &[f32], saved: &[f32]) -> bool
    ensures { result ≡ (any_bad plane.now || any_bad saved.now) }
{
    any_bad(plane) || any_bad(saved)
}
