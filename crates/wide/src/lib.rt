// `mul_add`, `midpoint` and `sqrt` of `float`, with the same contracts. `mul_add` goes by way of f64: the exact sum is rounded to the 53 digits of an f64 and that to the 24 of an f32, where the first rounding can't
// mislead the second; everything else goes to `float`, which works from whole numbers. The midpoint and the root are std's.
#![tactic(auto)]

ghost use Rattle.std.specs.Prelude.{◌≡◌, Bool, true, false, ℕ, ◌+◌, ◌/◌, ◌<◌};
ghost use Rattle.std.specs.Float.{binary32, binary64};
ghost use Rattle.std.specs.Float.Ieee.{round, units};
ghost use Rattle.float.specs.Ops.{fused, midpoint, root, root_of};
ghost use Rattle.float.specs.Results.{IsFused, IsMidpoint, IsSquareRoot};
ghost use Rattle.wide.specs.Wide.{Clear, IsGuess, narrowed};

// The digit of an f64's sign, and the patterns of 2^-125 and of 2^127, between which the clear sums lie.
const SIGN: u64 = 0x8000000000000000;

const LEAST: u64 = 0x3820000000000000;

const LIMIT: u64 = 0x47e0000000000000;

// The 29 digits of an f64 that an f32 has no room for: 2^29, and a half of that.
const DROPPED: u64 = 0x20000000;

const HALF_DROPPED: u64 = 0x10000000;

// s is in the normal range of f32, and no tie between two of them.
fn is_clear(s: f64) -> bool
    ensures { result ≡ true → Clear s }
{
    if s.is_nan() {
        return false;
    }
    let m = s.to_bits() % SIGN;
    LEAST <= m && m < LIMIT && m % DROPPED != HALF_DROPPED
}

// The last 29 digits of s rounded away, by its bit pattern: an f32, held as an f64.
#[tactic(auto, using(crate::proofs::Tidied::tidied, crate::proofs::Tidied::tidy_number, crate::proofs::Tidied::bits_lt))]
fn tidy(s: f64) -> f64
    requires { Clear s }
    ensures { result ≡ narrowed s }
{
    f64::from_bits((s.to_bits() + HALF_DROPPED) / DROPPED * DROPPED)
}

// The f32 nearest to s, and to each number whose nearest f64 s is: the ties lie between both alike, being f64 themselves.
#[tactic(auto, using(crate::proofs::Clearly::narrow_is))]
fn narrow(s: f64) -> f32
    requires { Clear s }
    ensures { (t : Bool) (n d : ℕ) → 0 < d → s ≡ round binary64 t n d → result ≡ round binary32 t n d }
{
    tidy(s) as f32
}

// a * b + c where the sum isn't clear: a factor that is 0 makes a product that is exact in f32, and everything else goes to `float`.
// Never inlined, so that `mul_add` is small enough to stand in the loop of move, which takes 1.5 times as long otherwise.
#[inline(never)]
#[tactic(auto, using(crate::proofs::Zero::is_zero, crate::proofs::Zero::first_zero, crate::proofs::Zero::second_zero))]
fn mul_add_unclear(a: f32, b: f32, c: f32) -> f32
    ensures { result ≡ fused a b c }
{
    if a == 0.0 || b == 0.0 {
        return a * b + c;
    }
    float::mul_add(a, b, c)
}

// Kept: std's `a.mul_add(b, c)` gives the same (`float::fused_law`). The form that is wanted rounds from whole numbers, by a shift that the leading zeros of a u64 give: `float::mul_add`
// does, and this comes to it wherever f64 can't decide, but for a factor of 0 or a first one of 1; std's method never would. A step's constants take the midpoint, and every root but
// that of the next term, from `float`.
/// The method `mul_add`: a * b + c, rounded once. A factor a of 1, that of the first-order term in a run of one channel, leaves the f32 sum, which often is a tie of the f64 one.
/// Else the product is exact in f64. A NaN, a zero and any other sum that isn't clear go to `mul_add_unclear`.
// Rules out: the f64 sum at a tie of two f32 taken for the exact sum; -0 where the exact sum cancels.
#[tactic(auto, using(float::proofs::ResultLaws::fused_is, crate::proofs::One::is_one, crate::proofs::One::first_one))]
pub fn mul_add(a: f32, b: f32, c: f32) -> f32
    ensures is { result ≡ fused a b c }
    ensures once { IsFused binary32 a b c result }
{
    if a == 1.0 {
        return b + c;
    }
    let s = f64::from(a) * f64::from(b) + f64::from(c);
    if is_clear(s) {
        return narrow(s);
    }
    mul_add_unclear(a, b, c)
}

/// The function `f32::midpoint`: (a + b) / 2, rounded once.
// Rules out: an infinity for two largest values, whose sum overflows; a subnormal half sum rounded twice.
#[tactic(auto, using(float::proofs::MidpointStd::midpoint_std, float::proofs::ResultLaws::midpoint_is))]
pub fn midpoint(a: f32, b: f32) -> f32
    ensures is { result ≡ midpoint a b }
    ensures once { IsMidpoint binary32 a b result }
{
    a.midpoint(b)
}

/// The method `sqrt`: the square root, rounded once.
// Rules out: a value beside the nearest one; +0 for -0.
#[tactic(auto, using(float::proofs::RootStd::sqrt_root, float::proofs::ResultLaws::root_is))]
pub fn sqrt(x: f32) -> f32
    ensures is { result ≡ root x }
    ensures once { IsSquareRoot binary32 x result }
{
    x.sqrt()
}

/// A guess of a root that whole numbers confirm is the root, rounded once.
#[tactic(auto, using(crate::proofs::Near::guess_is))]
pub fn guess_law()
    ensures { (m k q : ℕ) → IsGuess m k q → units binary32 false q (63 + k / 2) ≡ root_of m k }
{}
