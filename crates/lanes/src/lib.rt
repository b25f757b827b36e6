// Eight fused products at once, by f64, where it decides all eight. The crate `wide` takes one at a
// time, and any.
#![tactic(auto)]

ghost use Rattle.std.specs.Prelude.{◌≡◌, ℕ, true, not, T, ◌<◌, length};
ghost use Rattle.std.specs.Float.{binary32, binary64};
ghost use Rattle.std.specs.Float.Ieee.{is_nan, of_bits, to_bits};
ghost use Rattle.float.specs.Names.{val};
ghost use Rattle.float.specs.Ops.{fused};
ghost use Rattle.float.specs.Results.{IsFused};
ghost use Rattle.lanes.specs.Lanes.{Finite, Finites, Decided, high_word, low_word, tidied, lane, wide_sum};

use std::simd::prelude::*;

// The digits of an f64's upper word but for its sign, and its lower word.
const MAGNITUDE: u32 = 0x7fffffff;

const LOWER: u64 = 0xffffffff;

// The upper word of 2^-125, and how far above it that of 2^127 is: between them the clear sums lie.
const LEAST: u32 = 0x38200000;

const REACH: u32 = 0x0fc00000;

// The 29 digits of an f64 that an f32 has no room for, and a one with zeros there, which is a tie.
const DROPPED: u32 = 0x1fffffff;

const TIE: u32 = 0x10000000;

// The same one as a number to be added, and all digits but the 29.
const HALF_DROPPED: u64 = 0x10000000;

const KEPT: u64 = 0xffffffffe0000000;

// No lane of either is a NaN or an infinity: those less themselves are a NaN, which nothing equals,
// and any other value less itself is 0.
fn all_finite(q: f32x8, g: f32x8) -> bool
    ensures { result ≡ true → Finites q × Finites g }
{
    (q - q).simd_eq(g - g).all()
}

// alpha * q + g in f64, where the product is exact. Ruled out: the product rounded to f32 first.
fn sums(alpha: f32, q: f32x8, g: f32x8) -> f64x8
    requires factor { Finite alpha }
    requires factors { Finites q }
    requires summands { Finites g }
    ensures len { length result ≡ 8 }
    ensures lanes { (i : ℕ) → i < 8 → val result i ≡ wide_sum alpha (val q i) (val g i) }
{
    f64x8::splat(alpha as f64) * q.cast::<f64>() + g.cast::<f64>()
}

// Their bit patterns.
fn patterns(s: f64x8) -> u64x8
    requires { (i : ℕ) → i < 8 → T (not (is_nan (val s i))) }
    ensures len { length result ≡ 8 }
    ensures lanes { (i : ℕ) → i < 8 → lane result i ≡ to_bits binary64 (val s i) }
{
    s.to_bits()
}

// The upper words, without the sign.
fn high(b: u64x8) -> u32x8
    ensures len { length result ≡ 8 }
    ensures lanes { (i : ℕ) → i < 8 → lane result i ≡ high_word (lane b i) }
{
    (b >> u64x8::splat(32)).cast::<u32>() & u32x8::splat(MAGNITUDE)
}

// The lower words.
fn low(b: u64x8) -> u32x8
    ensures len { length result ≡ 8 }
    ensures lanes { (i : ℕ) → i < 8 → lane result i ≡ low_word (lane b i) }
{
    (b & u64x8::splat(LOWER)).cast::<u32>()
}

// Each pattern is that of a zero, or of a sum that f64 decides.
fn decided(b: u64x8) -> bool
    ensures { result ≡ true → (i : ℕ) → i < 8 → Decided (lane b i) }
{
    let high = high(b);
    let low = low(b);
    let zero = high.simd_eq(u32x8::splat(0)) & low.simd_eq(u32x8::splat(0));
    let near = (high - u32x8::splat(LEAST)).simd_lt(u32x8::splat(REACH));
    let untied = (low & u32x8::splat(DROPPED)).simd_ne(u32x8::splat(TIE));
    (zero | (near & untied)).all()
}

// The patterns with the last 29 digits rounded away.
fn tidy(b: u64x8) -> u64x8
    requires { (i : ℕ) → i < 8 → Decided (lane b i) }
    ensures len { length result ≡ 8 }
    ensures lanes { (i : ℕ) → i < 8 → lane result i ≡ tidied (lane b i) }
{
    (b + u64x8::splat(HALF_DROPPED)) & u64x8::splat(KEPT)
}

// The f32 that the patterns decide.
fn narrow(b: u64x8) -> f32x8
    requires { (i : ℕ) → i < 8 → Decided (lane b i) }
    ensures len { length result ≡ 8 }
    ensures lanes { (i : ℕ) → i < 8 → val result i ≡ of_bits binary64 (tidied (lane b i)) }
{
    f64x8::from_bits(tidy(b)).cast::<f32>()
}

/// Eight times alpha * q + g, each rounded once, and whether f64 or f32 decides all of them; where
/// not, g itself.
// Rules out: a tie of two f32 in one lane, a subnormal sum or an infinity taken for decided; -0
// where the exact sum cancels.
#[inline(always)]
pub fn mul_add_eight(alpha: f32, q: f32x8, g: f32x8) -> (f32x8, bool)
    ensures len { length result.0 ≡ 8 }
    ensures lanes { result.1 ≡ true
        → (i : ℕ) → i < 8 → val result.0 i ≡ fused alpha (val q i) (val g i) }
    ensures once { result.1 ≡ true
        → (i : ℕ) → i < 8 → IsFused binary32 alpha (val q i) (val g i) (val result.0 i) }
{
    if alpha == 1.0 {
        return (q + g, true);
    }
    if !alpha.is_finite() || !all_finite(q, g) {
        return (g, false);
    }
    let b = patterns(sums(alpha, q, g));
    if !decided(b) {
        return (g, false);
    }
    (narrow(b), true)
}
