// Rows of the two gradients: each kind of change of a row's pixels as one loop, by quotients that are worked out before.
#![tactic(auto)]

ghost use Rattle.std.specs.Prelude.{ℕ, ◌≡◌, false, ◌+◌, ◌*◌, ◌<◌, ◌≤◌, ◌^◌, length};
ghost use Rattle.fold.specs.Fold.{upto};
ghost use Rattle.float.specs.Ops.{root};
ghost use Rattle.float.specs.Names.{◌⊖◌, val};
ghost use Rattle.gradients.specs.Tv.{px_idx};
ghost use Rattle.gradients.specs.Grid.{Fills};
ghost use Rattle.rows.specs.Rows.{Row, Idle, store_in, hit_in, own_row, right_row, left_row, below_row, above_row, above_right_row, below_left_row};

use gradients::grid::Grid;
use std::simd::prelude::*;

// Where row y of channel c starts. Rules out: the start of the row below, and of another channel's row.
// Kept: beside `px(g, c, y, 0)` of `gradients`, which asks for a column 0, and so for a row that isn't empty.
// Kept: that y and c lie within the grid, here and in the seven below, and in those seven that it has a column: each is the bound of one number, as an index has one. The rows of both gradients have y and the column in their
// type (`NormedRow`) once there are norms, but not c; of the seven, which have norms, see their line.
pub fn row_at(g: Grid, c: usize, y: usize) -> usize
    requires { (c < g.n) × (y < g.h) × (g.n * (g.w * g.h) < 2 ^ 63) }
    ensures { (result ≡ px_idx g.w g.h c y 0) × (result + g.w ≤ g.n * (g.w * g.h)) }
{
    let w = g.w;
    let h = g.h;
    c * (w * h) + y * w
}

// Each place's value becomes f of itself and of what stands there in both rows. Rules out: a place left out, and the values of another column.
// Kept: x in brackets. With `for ((value, p), q) in out.iter_mut().zip(a).zip(b)` the proof doesn't close: the loop's invariant can't name out, and after the loop its length alone is known.
pub fn combine<F: Fn(f32, f32, f32) -> f32>(out: &mut [f32], a: &[f32], b: &[f32], f: F)
    requires { F.IsAlwaysCallable f × (length a.now ≡ length out.old) × (length b.now ≡ length out.old) }
    ensures { (x : ℕ) → x < length out.old → F.post f (val out.old x) (val a.now x) (val b.now x) (val out.new x) }
{
    for (x, value) in out.iter_mut().enumerate() {
        *value = f(*value, a[x], b[x]);
    }
}

// The same with three rows. Rules out: a place left out, and two of the rows exchanged.
// Kept: x in brackets, as in `combine`, for the same reason.
pub fn combine_three<F: Fn(f32, f32, f32, f32) -> f32>(
    out: &mut [f32],
    a: &[f32],
    b: &[f32],
    c: &[f32],
    f: F,
)
    requires { F.IsAlwaysCallable f × (length a.now ≡ length out.old) × (length b.now ≡ length out.old) × (length c.now ≡ length out.old) }
    ensures { (x : ℕ) → x < length out.old → F.post f (val out.old x) (val a.now x) (val b.now x) (val c.now x) (val out.new x) }
{
    for (x, value) in out.iter_mut().enumerate() {
        *value = f(*value, a[x], b[x], c[x]);
    }
}

// alpha.mul_add(q, ..) at each place, unless its norm is 0; place by place.
fn put_each(gradient: &mut [f32], norm: &[f32], q: &[f32], alpha: f32)
    requires { (length norm.now ≡ length gradient.old) × (length q.now ≡ length gradient.old) }
    ensures { gradient.new ≡ upto (hit_in alpha norm.now q.now) (length gradient.old) gradient.old }
{
    combine(gradient, norm, q, |value, m, quotient| {
        if m == 0.0 {
            value
        } else {
            wide::mul_add(alpha, quotient, value)
        }
    });
}

// The same at eight places at once, where f64 or f32 decides them all, and else place by place.
// Where the norm is 0 the quotient is a NaN or an infinity, and f64 would decide nothing: 0 takes
// its place, and the old value is kept.
// Rules out: a change where the norm is 0; a value kept where it is not.
fn put_eight(gradient: &mut [f32], norm: &[f32], q: &[f32], alpha: f32)
    requires { (length gradient.old ≡ 8) × (length norm.now ≡ 8) × (length q.now ≡ 8) }
    ensures { gradient.new ≡ upto (hit_in alpha norm.now q.now) (length gradient.old) gradient.old }
{
    let zeros = f32x8::splat(0.0);
    let idle = f32x8::from_slice(norm).simd_eq(zeros);
    let old = f32x8::from_slice(gradient);
    let factors = idle.select(zeros, f32x8::from_slice(q));
    let (new, decided) = lanes::mul_add_eight(alpha, factors, old);
    if decided {
        idle.select(old, new).copy_to_slice(gradient);
    } else {
        put_each(gradient, norm, q, alpha);
    }
}

// The same at any number of places, eight at once, and place by place those that are left.
// Never inlined: ten copies of the loop in blend take longer than one.
#[inline(never)]
fn put(gradient: &mut [f32], norm: &[f32], q: &[f32], alpha: f32)
    requires { (length norm.now ≡ length gradient.old) × (length q.now ≡ length gradient.old) }
    ensures { gradient.new ≡ upto (hit_in alpha norm.now q.now) (length gradient.old) gradient.old }
{
    let whole = gradient.len() / 8;
    for k in 0..whole {
        let at = k * 8;
        let e = at + 8;
        put_eight(&mut gradient[at..e], &norm[at..e], &q[at..e], alpha);
    }
    let at = whole * 8;
    let e = gradient.len();
    put_each(&mut gradient[at..e], &norm[at..e], &q[at..e], alpha);
}

// The differences to - from of two rows. Rules out: the sign turned, and the difference of another column.
pub fn differ(to: &[f32], from: &[f32], out: &mut [f32])
    requires { (length to.now ≡ length out.old) × (length from.now ≡ length out.old) }
    ensures { out.new
        ≡ upto (store_in (λ x. val to.now x ⊖ val from.now x)) (length out.old) out.old }
{
    combine(out, to, from, |_, end, start| end - start);
}

// The roots of a row's sums. Rules out: a root of another column's sum, and a sum left as it is.
pub fn root_row(sums: &mut [f32])
    ensures { Row (length sums.old) sums.new (λ x. root (val sums.old x)) }
{
    for sum in sums.iter_mut() {
        *sum = wide::sqrt(*sum);
    }
}

// Whether any of a row's norms isn't 0; where none is, the row changes nothing. Rules out: a NaN taken for 0, and a last column that isn't looked at.
// Kept: one call of the library, but with a contract that both kinds of rows cite, `Idle`, where the call's own says what `any` answers.
pub fn any(norm: &[f32]) -> bool
    ensures { result ≡ false → Idle (length norm.now) norm.now }
{
    norm.iter().any(|&m| m != 0.0)
}

// Whether more than 3 in 4 of a row's norms are 0: then the changes are quicker pixel by pixel than kind by kind. Nothing is said of the answer, since both ways change the same.
pub fn sparse(norm: &[f32]) -> bool {
    norm.len() / 4 * 3 < norm.iter().filter(|m| **m == 0.0).count()
}

// Kept: the seven below, and what each takes. One function over an enum of neighbours would be a match with these seven calls for its arms; a struct of norm, g, alpha and y would be a row without its differences beside the
// `NormedRow` of each crate, made anew by its callers, and by `below` and `above` for the row beside.
// Own places. Rules out: a change where the norm is 0, and by the quotient of another pixel. So do the six below.
pub fn own(gradient: &mut [f32], norm: &[f32], q: &[f32], g: Grid, alpha: f32, y: usize, c: usize)
    requires { (c < g.n) × (y < g.h) × (0 < g.w) × (g.w ≤ length norm.now) × (g.w ≤ length q.now) × Fills g (length gradient.old) }
    ensures { gradient.new
        ≡ upto (own_row g.w g.h alpha (λ x. val norm.now x) (λ x. val q.now x) y c) g.w gradient.old }
{
    let w = g.w;
    let at = row_at(g, c, y);
    put(&mut gradient[at..at + w], &norm[..w], &q[..w], alpha);
}

// Right of them. Rules out also: the last column wrapped into the next row.
pub fn right(gradient: &mut [f32], norm: &[f32], q: &[f32], g: Grid, alpha: f32, y: usize, c: usize)
    requires { (c < g.n) × (y < g.h) × (0 < g.w) × (g.w ≤ length norm.now) × (g.w ≤ length q.now) × Fills g (length gradient.old) }
    ensures { gradient.new
        ≡ upto (right_row g.w g.h alpha (λ x. val norm.now x) (λ x. val q.now x) y c) g.w gradient.old }
{
    let w = g.w;
    let at = row_at(g, c, y);
    put(
        &mut gradient[at + 1..at + w],
        &norm[..w - 1],
        &q[..w - 1],
        alpha,
    );
}

// Left. Rules out also: the first column wrapped into the row above.
pub fn left(gradient: &mut [f32], norm: &[f32], q: &[f32], g: Grid, alpha: f32, y: usize, c: usize)
    requires { (c < g.n) × (y < g.h) × (0 < g.w) × (g.w ≤ length norm.now) × (g.w ≤ length q.now) × Fills g (length gradient.old) }
    ensures { gradient.new
        ≡ upto (left_row g.w g.h alpha (λ x. val norm.now x) (λ x. val q.now x) y c) g.w gradient.old }
{
    let w = g.w;
    let at = row_at(g, c, y);
    put(
        &mut gradient[at..at + (w - 1)],
        &norm[1..w],
        &q[1..w],
        alpha,
    );
}

// Kept: this and `below_left`: a test of the edge and one call, of `own` here and of `left` there; a function that takes the call would be longer than both bodies.
// Below. Rules out also: the last row changing another channel.
pub fn below(gradient: &mut [f32], norm: &[f32], q: &[f32], g: Grid, alpha: f32, y: usize, c: usize)
    requires { (c < g.n) × (y < g.h) × (0 < g.w) × (g.w ≤ length norm.now) × (g.w ≤ length q.now) × Fills g (length gradient.old) }
    ensures { gradient.new
        ≡ upto (below_row g.w g.h alpha (λ x. val norm.now x) (λ x. val q.now x) y c) g.w gradient.old }
{
    if y >= g.h - 1 {
        return;
    }
    own(gradient, norm, q, g, alpha, y + 1, c);
}

// Kept: this and `above_right`, like `below` and `below_left`: `own` is called here, `right` there.
// Above. Rules out also: the first row changing another channel.
pub fn above(gradient: &mut [f32], norm: &[f32], q: &[f32], g: Grid, alpha: f32, y: usize, c: usize)
    requires { (c < g.n) × (y < g.h) × (0 < g.w) × (g.w ≤ length norm.now) × (g.w ≤ length q.now) × Fills g (length gradient.old) }
    ensures { gradient.new
        ≡ upto (above_row g.w g.h alpha (λ x. val norm.now x) (λ x. val q.now x) y c) g.w gradient.old }
{
    if y == 0 {
        return;
    }
    own(gradient, norm, q, g, alpha, y - 1, c);
}

// Kept: this and `above`, for what the line there says.
// Above right. Rules out also: a change from the first row or from the last column.
pub fn above_right(
    gradient: &mut [f32],
    norm: &[f32],
    q: &[f32],
    g: Grid,
    alpha: f32,
    y: usize,
    c: usize,
)
    requires { (c < g.n) × (y < g.h) × (0 < g.w) × (g.w ≤ length norm.now) × (g.w ≤ length q.now) × Fills g (length gradient.old) }
    ensures { gradient.new
        ≡ upto (above_right_row g.w g.h alpha (λ x. val norm.now x) (λ x. val q.now x) y c) g.w gradient.old }
{
    if y == 0 {
        return;
    }
    right(gradient, norm, q, g, alpha, y - 1, c);
}

// Kept: this and `below`, for what the line there says.
// Below left. Rules out also: a change from the last row or from the first column.
pub fn below_left(
    gradient: &mut [f32],
    norm: &[f32],
    q: &[f32],
    g: Grid,
    alpha: f32,
    y: usize,
    c: usize,
)
    requires { (c < g.n) × (y < g.h) × (0 < g.w) × (g.w ≤ length norm.now) × (g.w ≤ length q.now) × Fills g (length gradient.old) }
    ensures { gradient.new
        ≡ upto (below_left_row g.w g.h alpha (λ x. val norm.now x) (λ x. val q.now x) y c) g.w gradient.old }
{
    if y >= g.h - 1 {
        return;
    }
    left(gradient, norm, q, g, alpha, y + 1, c);
}
