// scalar/tgv.rs, `tgv_gradient`, row by row: quotients and each kind of change as a loop of its own.
#![tactic(auto)]

ghost use Rattle.std.specs.Prelude.{◌≡◌, ◌+◌, ◌-◌, ◌*◌, ◌<◌, ◌≤◌, length};
ghost use Rattle.std.specs.Float.Ieee.{neg};
ghost use Rattle.fold.specs.Fold.{upto};
ghost use Rattle.float.specs.Ops.{midpoint, mul_add, square};
ghost use Rattle.float.specs.Names.{◌⊕◌, ◌⊗◌, ◌⊘◌, f2, val};
ghost use Rattle.gradients.specs.Grid.{Fills};
ghost use Rattle.gradients.specs.Tgv.{tgv_gradient_row, tgv_gradient, tgv_total_row, tgv_total};
ghost use Rattle.rows.specs.Rows.{Row, store_from, store_in, none};
ghost use Rattle.tgv_rows.specs.TgvRows.{xx_of, yy_of, xy_of, row_in, tgv_norms, tgv_turn, tgv_besides, tgv_aboves, tgv_belows, tgv_kinds, tgv_totals};

use gradients::grid::{ChannelPixel, Grid, Pixel};
use gradients::tgv::{ChannelSecond, middle, square_of};

// Row y: the differences of differences of all channels, one channel after another, the norms, and the alpha by which it changes the gradient.
#[derive(Clone, Copy)]
struct NormedRow<'a> {
    xx: &'a [f32],
    xy: &'a [f32],
    yy: &'a [f32],
    norm: &'a [f32],
    g: Grid,
    alpha: f32,
    y: usize,
    ghost inside: { (y < g.h) × (0 < g.w) },
    ghost kept: { (g.n * g.w ≤ length xx.now) × (g.n * g.w ≤ length xy.now) × (g.n * g.w ≤ length yy.now) },
    ghost normed: { length norm.now ≡ g.w },
}

// The differences of xs along row y of channel c.
fn left_row(xs: &[f32], out: &mut [f32], g: Grid, y: usize, c: usize)
    requires { (c < g.n) × (y < g.h) × (0 < g.w) × Fills g (length xs.now) × (length out.old ≡ g.w) }
    ensures { out.new ≡ upto (store_in (xx_of g.w g.h xs.now y c)) g.w out.old }
{
    let w = g.w;
    let at = rows::row_at(g, c, y);
    out[0] = 0.0;
    rows::differ(&xs[at + 1..at + w], &xs[at..at + (w - 1)], &mut out[1..w]);
}

// The differences from the row above.
fn above_row(xs: &[f32], out: &mut [f32], g: Grid, y: usize, c: usize)
    requires { (c < g.n) × (y < g.h) × Fills g (length xs.now) × (length out.old ≡ g.w) }
    ensures { out.new ≡ upto (store_in (yy_of g.w g.h xs.now y c)) g.w out.old }
{
    let w = g.w;
    if y == 0 {
        out.fill(0.0);
        return;
    }
    let at = rows::row_at(g, c, y);
    let above = rows::row_at(g, c, y - 1);
    rows::differ(&xs[at..at + w], &xs[above..above + w], out);
}

// The midpoints of two rows.
fn mid_row(s: &[f32], t: &[f32], out: &mut [f32])
    requires { (length s.now ≡ length out.old) × (length t.now ≡ length out.old) }
    ensures { out.new ≡ upto (store_in (λ x. midpoint (val s.now x) (val t.now x))) (length out.old) out.old }
{
    rows::combine(out, s, t, |_, g_xy, g_yx| wide::midpoint(g_xy, g_yx));
}

// Kept: that out is a row of the grid, and that across and down fill it, in each contract; a struct of the `&mut` would need in its place that it is still the same buffer. And that y and c lie within it and a row has a
// column, for the reason at `rows::row_at`.
// g_xy_syms of row y.
fn cross_row(
    across: &[f32],
    down: &[f32],
    out: &mut [f32],
    s: &mut [f32],
    t: &mut [f32],
    g: Grid,
    y: usize,
    c: usize,
)
    requires { (c < g.n) × (y < g.h) × (0 < g.w) × Fills g (length across.now) × Fills g (length down.now)
        × (length out.old ≡ g.w) × (length s.old ≡ g.w) × (length t.old ≡ g.w) }
    ensures { out.new
        ≡ upto (store_in (xy_of g.w g.h across.now down.now y c)) g.w out.old }
{
    above_row(across, s, g, y, c);
    left_row(down, t, g, y, c);
    mid_row(&s[..], &t[..], out);
}

// The differences of differences of row y, one channel's row after another.
fn second_rows(
    across: &[f32],
    down: &[f32],
    xx: &mut [f32],
    xy: &mut [f32],
    yy: &mut [f32],
    s: &mut [f32],
    t: &mut [f32],
    g: Grid,
    y: usize,
)
    requires { (y < g.h) × (0 < g.w) × Fills g (length across.now) × Fills g (length down.now)
        × (g.n * g.w ≤ length xx.old) × (g.n * g.w ≤ length xy.old) × (g.n * g.w ≤ length yy.old) × (length s.old ≡ g.w) × (length t.old ≡ g.w) }
    ensures { (xx.new ≡ upto (λ c. upto (store_from (c * g.w) (xx_of g.w g.h across.now y c)) g.w) g.n xx.old)
        × (xy.new ≡ upto (λ c. upto (store_from (c * g.w) (xy_of g.w g.h across.now down.now y c)) g.w) g.n xy.old)
        × (yy.new ≡ upto (λ c. upto (store_from (c * g.w) (yy_of g.w g.h down.now y c)) g.w) g.n yy.old) }
{
    let n = g.n;
    let w = g.w;
    for c in 0..n {
        let b = c * w;
        left_row(across, &mut xx[b..b + w], g, y, c);
        cross_row(across, down, &mut xy[b..b + w], s, t, g, y, c);
        above_row(down, &mut yy[b..b + w], g, y, c);
    }
}

// The squares of a channel's row, added to the sums.
fn square_row(xx: &[f32], xy: &[f32], yy: &[f32], sums: &mut [f32])
    requires { (length xx.now ≡ length sums.old) × (length xy.now ≡ length sums.old) × (length yy.now ≡ length sums.old) }
    ensures { Row (length sums.old) sums.new (λ x. val sums.old x ⊕ mul_add (val yy.now x) (val yy.now x)
        (mul_add f2 (square (val xy.now x)) (square (val xx.now x)))) }
{
    rows::combine_three(
        sums,
        xx,
        xy,
        yy,
        |sum, g_xx, g_xy_sym, g_yy| sum + square_of(g_xx, g_xy_sym, g_yy),
    );
}

// The norms of a row.
fn norm_row(xx: &[f32], xy: &[f32], yy: &[f32], norm: &mut [f32], n: usize, w: usize)
    requires { (n * w ≤ length xx.now) × (n * w ≤ length xy.now) × (n * w ≤ length yy.now) × (length norm.old ≡ w) }
    ensures { Row w norm.new (tgv_norms n (row_in w xx.now) (row_in w xy.now) (row_in w yy.now)) }
{
    norm.fill(0.0);
    for c in 0..n {
        let b = c * w;
        square_row(&xx[b..b + w], &xy[b..b + w], &yy[b..b + w], norm);
    }
    rows::root_row(norm);
}

// The quotients of sums by the norms of their row.
fn sum_quotients(s: &[f32], t: &[f32], norm: &[f32], q: &mut [f32])
    requires { (length s.now ≡ length q.old) × (length t.now ≡ length q.old) × (length norm.now ≡ length q.old) }
    ensures { Row (length q.old) q.new (λ x. (val s.now x ⊕ val t.now x) ⊘ val norm.now x) }
{
    rows::combine_three(q, s, t, norm, |_, a, b, m| (a + b) / m);
}

// The quotients of negated values.
fn neg_quotients(s: &[f32], norm: &[f32], q: &mut [f32])
    requires { (length s.now ≡ length q.old) × (length norm.now ≡ length q.old) }
    ensures { Row (length q.old) q.new (λ x. neg (val s.now x) ⊘ val norm.now x) }
{
    rows::combine(q, s, norm, |_, a, m| -a / m);
}

// Kept: that the slices are as long as one another, in each contract: it is all that a loop over them needs, and a struct of them would be made for one call.
// The quotients for the own places.
// Kept: the loop over x, which reads four rows beside q: by `rows::combine_three` and then `rows::combine`, which divides, q is gone over twice; a function over four rows would have this one caller.
fn own_quotients(xx: &[f32], xy: &[f32], yy: &[f32], norm: &[f32], q: &mut [f32])
    requires { (length xx.now ≡ length q.old) × (length xy.now ≡ length q.old) × (length yy.now ≡ length q.old) × (length norm.now ≡ length q.old) }
    ensures { Row (length q.old) q.new (λ x. neg (mul_add f2 (val yy.now x) (mul_add f2 (val xx.now x) (f2 ⊗ val xy.now x))) ⊘ val norm.now x) }
{
    for (x, quotient) in q.iter_mut().enumerate() {
        *quotient = middle(xx[x], xy[x], yy[x]) / norm[x];
    }
}

// The changes in the row itself: right, own place, left.
fn besides(gradient: &mut [f32], q: &mut [f32], row: &NormedRow<'_>, c: usize)
    requires { (c < row.now.g.n) × (length q.old ≡ row.now.g.w) × Fills row.now.g (length gradient.old) }
    ensures { let r = row.now in let g = r.g in gradient.new ≡ tgv_besides g.w g.h r.alpha (λ x. val r.norm.now x)
        (row_in g.w r.xx.now) (row_in g.w r.xy.now) (row_in g.w r.yy.now) r.y c gradient.old }
{
    let w = row.g.w;
    let b = c * w;
    let xx = &row.xx[b..b + w];
    let xy = &row.xy[b..b + w];
    let yy = &row.yy[b..b + w];
    sum_quotients(xy, xx, row.norm, q);
    rows::right(gradient, row.norm, &q[..], row.g, row.alpha, row.y, c);
    own_quotients(xx, xy, yy, row.norm, q);
    rows::own(gradient, row.norm, &q[..], row.g, row.alpha, row.y, c);
    sum_quotients(xy, xx, row.norm, q);
    rows::left(gradient, row.norm, &q[..], row.g, row.alpha, row.y, c);
}

// In the row above: above right, above.
fn aboves(gradient: &mut [f32], q: &mut [f32], row: &NormedRow<'_>, c: usize)
    requires { (c < row.now.g.n) × (length q.old ≡ row.now.g.w) × Fills row.now.g (length gradient.old) }
    ensures { let r = row.now in let g = r.g in gradient.new ≡ tgv_aboves g.w g.h r.alpha (λ x. val r.norm.now x)
        (row_in g.w r.xx.now) (row_in g.w r.xy.now) (row_in g.w r.yy.now) r.y c gradient.old }
{
    let w = row.g.w;
    let b = c * w;
    let xy = &row.xy[b..b + w];
    let yy = &row.yy[b..b + w];
    neg_quotients(xy, row.norm, q);
    rows::above_right(gradient, row.norm, &q[..], row.g, row.alpha, row.y, c);
    sum_quotients(yy, xy, row.norm, q);
    rows::above(gradient, row.norm, &q[..], row.g, row.alpha, row.y, c);
}

// In the row below: below, below left.
fn belows(gradient: &mut [f32], q: &mut [f32], row: &NormedRow<'_>, c: usize)
    requires { (c < row.now.g.n) × (length q.old ≡ row.now.g.w) × Fills row.now.g (length gradient.old) }
    ensures { let r = row.now in let g = r.g in gradient.new ≡ tgv_belows g.w g.h r.alpha (λ x. val r.norm.now x)
        (row_in g.w r.xx.now) (row_in g.w r.xy.now) (row_in g.w r.yy.now) r.y c gradient.old }
{
    let w = row.g.w;
    let b = c * w;
    let xy = &row.xy[b..b + w];
    let yy = &row.yy[b..b + w];
    sum_quotients(yy, xy, row.norm, q);
    rows::below(gradient, row.norm, &q[..], row.g, row.alpha, row.y, c);
    neg_quotients(xy, row.norm, q);
    rows::below_left(gradient, row.norm, &q[..], row.g, row.alpha, row.y, c);
}

// Kept: what the four for a channel take: a struct of it would hold two `&mut` beside the row and be made anew for each call.
// All seven kinds. An element takes the changes of a row's pixels in the order of the columns, as pixel by pixel.
fn channel_row(gradient: &mut [f32], q: &mut [f32], row: &NormedRow<'_>, c: usize)
    requires { (c < row.now.g.n) × (length q.old ≡ row.now.g.w) × Fills row.now.g (length gradient.old) }
    ensures { let r = row.now in let g = r.g in gradient.new ≡ tgv_kinds g.w g.h r.alpha (λ x. val r.norm.now x)
        (row_in g.w r.xx.now) (row_in g.w r.xy.now) (row_in g.w r.yy.now) r.y c gradient.old }
{
    besides(gradient, q, row, c);
    aboves(gradient, q, row, c);
    belows(gradient, q, row, c);
}

// The changes of pixel x of a row in every channel, all seven as tgv.rs has them; nothing where its norm is 0.
fn pixel(gradient: &mut [f32], row: &NormedRow<'_>, x: usize)
    requires { (x < row.now.g.w) × Fills row.now.g (length gradient.old) }
    ensures { let r = row.now in let g = r.g in gradient.new ≡ upto (λ c. tgv_turn g.w g.h r.alpha (λ z. val r.norm.now z)
        (row_in g.w r.xx.now) (row_in g.w r.xy.now) (row_in g.w r.yy.now) r.y c x) g.n gradient.old }
{
    let n = row.g.n;
    let w = row.g.w;
    let m = row.norm[x];
    if m == 0.0 {
        return;
    }
    let p = Pixel {
        g: row.g,
        alpha: row.alpha,
        norm: m,
        y: row.y,
        x,
    };
    for c in 0..n {
        let k = c * w + x;
        let d = ChannelSecond {
            g_xx: row.xx[k],
            g_xy_sym: row.xy[k],
            g_yy: row.yy[k],
        };
        gradients::tgv::channel_derivatives(gradient, ChannelPixel { p, c }, d);
    }
}

// Kept: this and `pixels` of `tv_rows`: all that is alike is a `for` over the columns with one call in it; with that call as a closure the function would be the `for` itself.
// All changes of a row, pixel by pixel.
fn pixels(gradient: &mut [f32], row: &NormedRow<'_>)
    requires { Fills row.now.g (length gradient.old) }
    ensures { let r = row.now in let g = r.g in gradient.new ≡ upto (tgv_kinds g.w g.h r.alpha (λ x. val r.norm.now x)
        (row_in g.w r.xx.now) (row_in g.w r.xy.now) (row_in g.w r.yy.now) r.y) g.n gradient.old }
{
    let w = row.g.w;
    for x in 0..w {
        pixel(gradient, row, x);
    }
}

// Kept: this and `spread_rows` of `tv_rows`, for what the line there says.
// All changes of a row: nothing where each norm is 0, pixel by pixel where many are, else kind by kind, one channel after another.
fn spread_rows(gradient: &mut [f32], q: &mut [f32], row: &NormedRow<'_>)
    requires { (length q.old ≡ row.now.g.w) × Fills row.now.g (length gradient.old) }
    ensures { let r = row.now in let g = r.g in gradient.new ≡ upto (tgv_kinds g.w g.h r.alpha (λ x. val r.norm.now x)
        (row_in g.w r.xx.now) (row_in g.w r.xy.now) (row_in g.w r.yy.now) r.y) g.n gradient.old }
{
    let n = row.g.n;
    if !rows::any(row.norm) {
        return;
    }
    if rows::sparse(row.norm) {
        pixels(gradient, row);
        return;
    }
    for c in 0..n {
        channel_row(gradient, q, row, c);
    }
}

// Kept: this and `total_row` of `tv_rows`, where the line says why.
// The total so far and the row's part of it, column by column.
fn total_row(norm: &[f32], alpha: f32, tv2: f64) -> f64
    ensures { result ≡ upto (tgv_totals alpha (λ x. val norm.now x)) (length norm.now) tv2 }
{
    norm.iter()
        .fold(tv2, |t, &m| float::double::add_product(t, alpha, m))
}

// Row y: the differences of differences of all channels, the norms, then the changes. The total so far, tv2, is taken and given back.
fn row(
    across: &[f32],
    down: &[f32],
    gradient: &mut [f32],
    xx: &mut [f32],
    xy: &mut [f32],
    yy: &mut [f32],
    norm: &mut [f32],
    q: &mut [f32],
    g: Grid,
    alpha: f32,
    y: usize,
    tv2: f64,
) -> f64
    requires { (g.n ≤ 3) × (y < g.h) × (0 < g.w) × (g.n * g.w ≤ length xx.old) × (g.n * g.w ≤ length xy.old) × (g.n * g.w ≤ length yy.old)
        × (length norm.old ≡ g.w) × (length q.old ≡ g.w) × Fills g (length across.now) × Fills g (length down.now) × Fills g (length gradient.old) }
    ensures { (gradient.new
        ≡ tgv_gradient_row g.w g.h g.n none alpha across.now down.now y gradient.old)
        × (result ≡ tgv_total_row g.w g.h g.n none alpha across.now down.now y tv2) }
{
    let n = g.n;
    let w = g.w;
    second_rows(across, down, xx, xy, yy, norm, q, g, y);
    norm_row(&xx[..], &xy[..], &yy[..], norm, n, w);
    let row = NormedRow {
        xx: &xx[..],
        xy: &xy[..],
        yy: &yy[..],
        norm: &norm[..],
        g,
        alpha,
        y,
    };
    spread_rows(gradient, q, &row);
    total_row(&norm[..], alpha, tv2)
}

// Kept: this and `tv_rows::tv_gradient`, where the line says why.
// tgv_gradient where no channel is held: every row. The total is returned. Rules out: two changes of one place in another order, and a total summed row by row first.
pub fn tgv_gradient(across: &[f32], down: &[f32], gradient: &mut [f32], g: Grid, alpha: f32) -> f64
    requires { (g.n ≤ 3) × (0 < g.w) × (g.w ≤ 512) × Fills g (length across.now) × Fills g (length down.now) × Fills g (length gradient.old) }
    ensures { (gradient.new
        ≡ tgv_gradient g.w g.h g.n none alpha across.now down.now gradient.old)
        × (result ≡ tgv_total g.w g.h g.n none alpha across.now down.now) }
{
    let n = g.n;
    let w = g.w;
    let h = g.h;
    let part = gradients::tgv::alpha_of(n, alpha);
    let mut xx = [0.0f32; 1536];
    let mut xy = [0.0f32; 1536];
    let mut yy = [0.0f32; 1536];
    let mut norms = [0.0f32; 512];
    let mut quotients = [0.0f32; 512];
    let norm = &mut norms[..w];
    let q = &mut quotients[..w];
    let mut tv2 = 0.0f64;
    for y in 0..h {
        tv2 = row(
            across, down, gradient, &mut xx, &mut xy, &mut yy, norm, q, g, part, y, tv2,
        );
    }
    tv2
}
