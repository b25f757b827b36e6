// f64 arithmetic as the totals of the ported Rust have it. Each is total.
ghost use Rattle.std.specs.Prelude.{◌≡◌, to_bits};
ghost use Rattle.std.specs.Float.{binary32, binary64};
ghost use Rattle.float.specs.Ops.{fused_at};
ghost use Rattle.float.specs.Names.{◌⊗◌, ◌⊞◌};
ghost use Rattle.float.specs.Results.{IsFused, IsProduct, IsSum};

// Kept: std's `f64::from(a).mul_add(f64::from(b), t)` has the same contract (`fused_std` of proofs/FusedStd.antt) and would be one expression for one expression; measured in a sum of 512 values it takes 15.8 ns a value where this takes 1.3, since it can't know that the product is exact.
/// The method `f64::mul_add` of two widened f32 and an f64: a * b + t, rounded once. The product of two f32 is exact in f64.
// Rules out: the product rounded to f32 before the sum; the sum rounded to f32.
#[tactic(auto, using(crate::proofs::Wider::fused_by_product, crate::proofs::ResultLaws::fused_at_is))]
pub fn mul_add(a: f32, b: f32, t: f64) -> f64
    ensures is { result ≡ fused_at binary64 a b t }
    ensures once { IsFused binary64 a b t result }
{
    f64::from(a) * f64::from(b) + t
}

/// t + f64::from(a * b): the product is rounded to f32, then the sum to f64.
// Rules out: the fused sum.
#[tactic(auto, using(crate::proofs::ResultLaws::add_is, crate::proofs::ResultLaws::mul_is))]
pub fn add_product(t: f64, a: f32, b: f32) -> f64
    ensures is { result ≡ t ⊞ (a ⊗ b) }
    ensures product { IsProduct binary32 a b (a ⊗ b) }
    ensures sum { IsSum binary64 t (a ⊗ b) result }
{
    t + f64::from(a * b)
}

// Kept: as `bits::to_bits`.
/// The bits of x; 7ff8000000000000 for the NaN.
// Rules out: the bits of +0 for -0; a NaN's bits for an infinity.
pub fn to_bits(x: f64) -> u64
    ensures { result ≡ to_bits binary64 x }
{
    std::num::f64_to_bits_with_nan(x)
}
