// scalar/step.rs, `solver_step`: the weight of the data term, the gradient's norm, and the move along it.
ghost use Rattle.std.specs.Prelude.{◌≡◌, ◌+◌, ◌*◌, ◌≤◌, length};
ghost use Rattle.std.specs.Float.Ieee.{neg};
ghost use Rattle.fold.specs.Fold.{upto};
ghost use Rattle.float.specs.Names.{◌⊘◌, val};
ghost use Rattle.float.specs.Ops.{fused};
ghost use Rattle.steps.specs.Step.{data_alpha, gradient_norm, move_at, moved, moved_part};
ghost use Rattle.utils.specs.Lanes.{eight};

use crate::solve::Constants;
use std::simd::prelude::*;

/// The data term's alpha: pweight * 2.0 * 255.0 * 2.0_f32.sqrt().
// Rules out: the factors in another order, and one constant in their place.
#[tactic(auto, unfolding(crate::specs::Step::data_alpha))]
pub fn data_alpha(weight: f32) -> f32
    ensures { result ≡ data_alpha weight }
{
    weight * 2.0 * 255.0 * float::sqrt(2.0)
}

// The Euclidean norm of the objective gradient.
fn gradient_norm(gradient: &[f32]) -> f32
    ensures { result ≡ gradient_norm gradient.now }
{
    let sum = gradient
        .iter()
        .fold(0.0, |acc, &x| float::mul_add_rounded(x, x, acc));
    float::sqrt(sum)
}

// Eight values moved along their gradient, one by one.
fn move_each(plane: &mut [f32], gradient: &[f32], step_size: f32, norm: f32)
    requires moved { length plane.old ≡ 8 }
    requires given { length gradient.now ≡ 8 }
    ensures { plane.new
        ≡ eight (λ j. fused step_size (neg (val gradient.now j ⊘ norm)) (val plane.old j)) }
{
    for (j, x) in plane.iter_mut().enumerate() {
        *x = wide::mul_add(step_size, -(gradient[j] / norm), *x);
    }
}

// The same at once where f64 decides all eight, and else one by one.
// Rules out: a move up the gradient; a value kept where another lane is not decided.
fn move_eight(plane: &mut [f32], gradient: &[f32], step_size: f32, norm: f32)
    requires moved { length plane.old ≡ 8 }
    requires given { length gradient.now ≡ 8 }
    ensures { plane.new
        ≡ eight (λ j. fused step_size (neg (val gradient.now j ⊘ norm)) (val plane.old j)) }
{
    let along = -(f32x8::from_slice(gradient) / f32x8::splat(norm));
    let (new, decided) = lanes::mul_add_eight(step_size, along, f32x8::from_slice(plane));
    if decided {
        new.copy_to_slice(plane);
    } else {
        move_each(plane, gradient, step_size, norm);
    }
}

// Place k of the plane becomes step_size.mul_add(-(gradient[k] / norm), plane[k]): eight at once,
// and one by one those that are left.
fn descend(plane: &mut [f32], gradient: &[f32], step_size: f32, norm: f32)
    requires { length plane.old ≡ length gradient.now }
    ensures { plane.new
        ≡ upto (move_at step_size norm gradient.now) (length plane.old) plane.old }
{
    let whole = plane.len() / 8;
    for k in 0..whole {
        let at = k * 8;
        let e = at + 8;
        move_eight(&mut plane[at..e], &gradient[at..e], step_size, norm);
    }
    for i in whole * 8..plane.len() {
        plane[i] = wide::mul_add(step_size, -(gradient[i] / norm), plane[i]);
    }
}

/// Job 4: plane = step_size.mul_add(-(gradient / norm), plane), if the norm isn't 0.
// Rules out: a move up the gradient, and a NaN norm taken for 0.
#[tactic(auto, using(fold::proofs::Loops::upto_more, fold::proofs::Loops::upto_none), unfolding(crate::specs::Step::moved, crate::specs::Step::moved_by))]
pub fn move_plane(plane: &mut [f32], gradient: &[f32], k: Constants)
    requires { length plane.old ≡ length gradient.now }
    ensures is { plane.new ≡ moved k.step_size gradient.now plane.old }
    ensures len { length plane.new ≡ length plane.old }
{
    let norm = gradient_norm(gradient);
    if norm != 0.0 {
        descend(plane, gradient, k.step_size, norm);
    }
}

// Kept: c and n, as `push_channel`.
/// Job 4 on the part of channel c, of n values.
// Rules out: the norm of all channels' gradients, and a place beyond the part moved.
pub fn move_channel(plane: &mut [f32], gradient: &[f32], k: Constants, c: usize, n: usize)
    requires { (c * n + n ≤ length plane.old) × (length plane.old ≡ length gradient.now) }
    ensures { plane.new ≡ moved_part k.step_size (c * n) (c * n + n) gradient.now plane.old }
{
    let from = c * n;
    let to = from + n;
    move_plane(&mut plane[from..to], &gradient[from..to], k);
}
