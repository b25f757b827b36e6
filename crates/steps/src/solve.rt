// scalar/mod.rs, `solve`: the constants of a step, and push.
ghost use Rattle.std.specs.Prelude.{◌≡◌, ◌+◌, ◌*◌, ◌<◌, ◌≤◌, length};
ghost use Rattle.float.specs.Ops.{root};
ghost use Rattle.float.specs.Names.{float};
ghost use Rattle.steps.specs.Solve.{next_term, term_of, constants, pushed, PushedTo, pushed_part};

/// The constants of a step: term, factor, step size, second-order weight.
#[derive(Clone, Copy)]
pub struct Constants {
    pub term: f32,
    pub factor: f32,
    pub step_size: f32,
    // Kept: `second` numbers no field: it is the weight of the second-order terms, and the first-order ones have none, so that an array would be no plainer.
    pub second: f32,
}

// next_term = f32::midpoint(1.0, mul_add!(4.0, term.powi(2), 1.0).sqrt()). A job takes up to 64 of each: the root is by `wide`, since that of `float` would show in a whole run; the midpoint is by `float`, from whole numbers.
#[tactic(auto, unfolding(crate::specs::Solve::next_term))]
fn next_term(term: f32) -> f32
    ensures { result ≡ next_term term }
{
    float::midpoint(
        1.0,
        wide::sqrt(float::mul_add_rounded(4.0, float::powi2(term), 1.0)),
    )
}

// The terms of the steps 0, 64, 128, .., 960.
const MARKS: [f32; 16] = [
    1.0, 33.87721, 66.0441, 98.14314, 130.2138, 162.2688, 194.31383, 226.35197, 258.38504,
    290.41415, 322.4403, 354.46405, 386.48566, 418.50552, 450.52393, 482.54123,
];

// The last of these steps that isn't after `step`, in 64s.
fn mark_before(step: u32) -> usize
    ensures { (result < 16) × (64 * result ≤ step) }
{
    (step as usize / 64).min(15)
}

// The term of a step, counted from 0: from the last mark on, as many turns as steps are left.
fn term_of(step: u32) -> f32
    ensures { result ≡ term_of step }
{
    let k = mark_before(step);
    let from = (64 * k) as u32;
    (from..step).fold(MARKS[k], |term, _| next_term(term))
}

/// √n of a whole number.
// Rules out: a root cut to a whole number, and a number above 2 ^ 24 cut, and not rounded, to f32.
pub fn root_of(n: u32) -> f32
    ensures { result ≡ root (float n) }
{
    float::sqrt(std::num::nearest_u32_to_f32(n))
}

/// The constants of a step, from the sheet and the step's number alone.
// Rules out: a term carried one step too far, and a step size of the own sides.
#[tactic(auto, unfolding(crate::specs::Solve::constants))]
pub fn step_constants(w: u32, h: u32, iterations: u32, weight: f32, step: u32) -> Constants
    requires { (w ≤ 512) × (h ≤ 512) }
    ensures { result ≡ constants w h iterations weight step }
{
    let term = term_of(step);
    let radius = root_of(w * h) / 2.0;
    let rest = float::sqrt(1.0 + std::num::nearest_u32_to_f32(iterations));
    Constants {
        term,
        factor: (term - 1.0) / next_term(term),
        step_size: radius / rest,
        second: weight / float::sqrt(2.0),
    }
}

/// The first n places of push, in one pass and with no further buffer: both values of a place are read once, then both are written once.
// Rules out: a prior taken after the plane is written, and a plane made from a prior that lags by one place.
// Kept: n beside the slices: what stands after each place is to be proved, and this is its contract, for every n.
#[tactic(auto, using(crate::proofs::Laws::pushed_front))]
pub fn push_places(plane: &mut [f32], prior: &mut [f32], factor: f32, n: usize)
    requires { (n ≤ length plane.old) × (n ≤ length prior.old) }
    ensures { PushedTo factor (record { plane = plane.old; prior = prior.old }) n
        (record { plane = plane.new; prior = prior.new }) }
{
    // Kept: `plane[..n].iter_mut().zip(prior)` was tried, and what stays open is the contract: after a `zip` of it a proof knows both lengths and no value of either.
    for (i, x) in plane[..n].iter_mut().enumerate() {
        let old = *x;
        *x = float::mul_add_rounded(factor, old - prior[i], old);
        prior[i] = old;
    }
}

/// Job 1: new plane = mul_add!(factor, plane - prior, plane), new prior = old plane.
// Rules out: the product and sum rounded once, and a prior that is the old prior.
pub fn push(plane: &mut [f32], prior: &mut [f32], k: Constants)
    requires { length plane.old ≡ length prior.old }
    ensures is { record { plane = plane.new; prior = prior.new }
        ≡ pushed k.factor (record { plane = plane.old; prior = prior.old }) }
    ensures places { PushedTo k.factor (record { plane = plane.old; prior = prior.old })
        (length plane.old) (record { plane = plane.new; prior = prior.new }) }
    ensures prior { prior.new ≡ plane.old }
{
    let n = plane.len();
    push_places(plane, prior, k.factor, n);
}

// Kept: c and n: the mutable part from c * n on, which push, move and project work on, is cut here.
/// Job 1 on the part of channel c, of n values.
// Rules out: another channel's part pushed, and a place beyond the part changed.
pub fn push_channel(plane: &mut [f32], prior: &mut [f32], k: Constants, c: usize, n: usize)
    requires { (c * n + n ≤ length plane.old) × (length plane.old ≡ length prior.old) }
    ensures { record { plane = plane.new; prior = prior.new }
        ≡ pushed_part k.factor (c * n) (c * n + n) (record { plane = plane.old; prior = prior.old }) }
{
    let from = c * n;
    let to = from + n;
    push(&mut plane[from..to], &mut prior[from..to], k);
}
