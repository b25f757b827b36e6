// Arithmetic on f32 as the ported Rust has it: the methods `mul_add`, `midpoint` and `sqrt`, from whole numbers and rounded once, the
// macro `mul_add!`, `powi(2)` and `clamp`. Each is total: NaN, infinities, subnormals and both zeros included.
#![tactic(auto)]

pub mod add;
pub mod bits;
pub mod double;
pub mod parts;
pub mod root;
pub mod round;

ghost use Rattle.std.specs.Prelude.{◌≡◌, Float};
ghost use Rattle.std.specs.Float.{binary32, binary64, float_mul_add};
ghost use Rattle.float.specs.Names.{◌⊗◌};
ghost use Rattle.float.specs.Ops.{clamp, fused, fused_at, midpoint, mul_add, root, square};
ghost use Rattle.float.specs.Results.{IsFused, IsMidpoint, IsProduct, IsSquareRoot, IsSum};

// Kept: the fused product, the midpoint and the root are to round from whole numbers, by a shift that the leading zeros of a u64 give; so do this, `midpoint` and `sqrt`. `wide` comes to this where f64
// can't decide, but for a factor of 0 or a first one of 1; a step's constants take the midpoint, and every root but that of the next term, from the other two.
/// The method `mul_add`: a * b + c, rounded once.
// Rules out: the product rounded before the sum (0 for 1 + 2^-23, 1 - 2^-23, -1); -0 where the exact sum cancels.
#[tactic(auto, using(crate::proofs::ResultLaws::fused_is, crate::proofs::Values::fused_value, crate::proofs::Values::fused_left, crate::proofs::Values::fused_right, crate::proofs::Values::fused_last, crate::proofs::Fields::not_finite, crate::proofs::Fields::is_finite))]
pub fn mul_add(a: f32, b: f32, c: f32) -> f32
    ensures is { result ≡ fused a b c }
    ensures once { IsFused binary32 a b c result }
{
    if !parts::is_finite(a) || !parts::is_finite(b) {
        return a * b + c;
    }
    if !parts::is_finite(c) {
        return c;
    }
    let p = parts::unpack(a);
    let q = parts::unpack(b);
    let r = parts::unpack(c);
    add::add_round(
        p.neg != q.neg,
        p.m * q.m,
        p.x + q.x + 128,
        r.neg,
        r.m,
        r.x + 277,
    )
}

// Kept: as `mul_add`, from whole numbers.
/// The function `f32::midpoint`: (a + b) / 2, rounded once.
// Rules out: an infinity for two largest values, whose sum overflows; a half sum of subnormals that loses its last digit before it is rounded.
#[tactic(auto, using(crate::proofs::ResultLaws::midpoint_is, crate::proofs::Values::midpoint_left, crate::proofs::Values::midpoint_right, crate::proofs::Values::midpoint_value, crate::proofs::Fields::not_finite))]
pub fn midpoint(a: f32, b: f32) -> f32
    ensures is { result ≡ midpoint a b }
    ensures once { IsMidpoint binary32 a b result }
{
    if !parts::is_finite(a) || !parts::is_finite(b) {
        return a + b;
    }
    let p = parts::unpack(a);
    let q = parts::unpack(b);
    add::add_round(p.neg, p.m, p.x + 276, q.neg, q.m, q.x + 276)
}

// Kept: as `mul_add`, from whole numbers: the significand is brought to its leading one before it is rounded.
/// The method `sqrt`: the square root, rounded once.
// Rules out: the root cut off where the next value is nearer; the root of a value below 0 taken as that of its size; +0 for -0.
#[tactic(auto, using(crate::proofs::ResultLaws::root_is, crate::proofs::RootCases::root_infinite, crate::proofs::RootCases::root_none, crate::proofs::RootCases::root_zero, crate::proofs::RootCases::root_negative, crate::proofs::RootCases::root_value, crate::proofs::Fields::not_finite))]
pub fn sqrt(x: f32) -> f32
    ensures is { result ≡ root x }
    ensures once { IsSquareRoot binary32 x result }
{
    if !parts::is_finite(x) {
        if 0.0 < x {
            return x;
        }
        return x - x;
    }
    let p = parts::unpack(x);
    if p.m == 0 {
        return x;
    }
    if p.neg {
        return f32::NAN;
    }
    root::root_of(p.m, p.x)
}

/// The macro `mul_add!`: the product is rounded, then the sum.
// Rules out: the fused product; the sum of a and b rounded first.
#[tactic(auto, using(crate::proofs::ResultLaws::add_is, crate::proofs::ResultLaws::mul_is), unfolding(crate::specs::Ops::mul_add))]
pub fn mul_add_rounded(a: f32, b: f32, c: f32) -> f32
    ensures is { result ≡ mul_add a b c }
    ensures product { IsProduct binary32 a b (a ⊗ b) }
    ensures sum { IsSum binary32 (a ⊗ b) c result }
{
    a * b + c
}

/// The method `powi(2)`: one rounded square.
// Rules out: |x|; an exact square that is not rounded to f32.
#[tactic(auto, using(crate::proofs::SquareStd::square_std, crate::proofs::ResultLaws::square_is))]
pub fn powi2(x: f32) -> f32
    ensures is { result ≡ square x }
    ensures once { IsProduct binary32 x x result }
{
    x.powi(2)
}

// Kept: std's `x.clamp(low, high)` requires that low is at most high, and so that neither is a NaN; this asks nothing of its callers.
/// The method `clamp`: x, or the end that it lies beyond; a NaN stays.
// Rules out: an end for a NaN; +0 for a -0 that equals an end.
#[tactic(auto, unfolding(crate::specs::Ops::clamp))]
pub fn clamp(x: f32, low: f32, high: f32) -> f32
    ensures { result ≡ clamp x low high }
{
    let raised = if x < low { low } else { x };
    if high < raised { high } else { raised }
}

/// std's method `mul_add` is the fused product of `mul_add`, of f32 and of f64.
#[tactic(auto, using(crate::proofs::FusedStd::fused_is, crate::proofs::FusedStd::fused_std))]
pub fn fused_law()
    ensures single { (a b c : Float) → float_mul_add binary32 a b c ≡ fused a b c }
    ensures double { (a b c : Float) → float_mul_add binary64 a b c ≡ fused_at binary64 a b c }
{}
