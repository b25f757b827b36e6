// scalar/tv.rs, `tv_gradient`, row by row: quotients and each kind of change as a loop of its own.
#![tactic(auto)]

ghost use Rattle.std.specs.Prelude.{◌≡◌, ◌+◌, ◌*◌, ◌<◌, ◌≤◌, length};
ghost use Rattle.std.specs.Float.Ieee.{neg};
ghost use Rattle.fold.specs.Fold.{upto};
ghost use Rattle.float.specs.Ops.{square};
ghost use Rattle.float.specs.Names.{◌⊕◌, ◌⊘◌, val};
ghost use Rattle.gradients.specs.Grid.{Fills};
ghost use Rattle.gradients.specs.Tv.{tv_gradient_row, tv_gradient, tv_total_row, tv_total};
ghost use Rattle.rows.specs.Rows.{Row, keep_row, none};
ghost use Rattle.tv_rows.specs.TvRows.{across_of, down_of, tv_norms, tv_turn, tv_kinds, tv_totals, kept_in};

use gradients::grid::{ChannelPixel, Grid, Pixel};
use gradients::tv::ChannelForward;

// Row y of all channels: its kept differences and its norms, and the alpha by which it changes the gradient.
#[derive(Clone, Copy)]
struct NormedRow<'a> {
    across: &'a [f32],
    down: &'a [f32],
    norm: &'a [f32],
    g: Grid,
    alpha: f32,
    y: usize,
    ghost inside: { (y < g.h) × (0 < g.w) },
    ghost kept: { Fills g (length across.now) × Fills g (length down.now) },
    ghost normed: { length norm.now ≡ g.w },
}

// The quotients of kept differences by the norms of their row.
fn quotients(xs: &[f32], norm: &[f32], q: &mut [f32])
    requires { (length xs.now ≡ length q.old) × (length norm.now ≡ length q.old) }
    ensures { Row (length q.old) q.new (λ x. val xs.now x ⊘ val norm.now x) }
{
    rows::combine(q, xs, norm, |_, difference, m| difference / m);
}

// The same for the own places.
fn own_quotients(across: &[f32], down: &[f32], norm: &[f32], q: &mut [f32])
    requires { (length across.now ≡ length q.old) × (length down.now ≡ length q.old) × (length norm.now ≡ length q.old) }
    ensures { Row (length q.old) q.new (λ x. neg (val across.now x ⊕ val down.now x) ⊘ val norm.now x) }
{
    rows::combine_three(q, across, down, norm, |_, g_x, g_y, m| -(g_x + g_y) / m);
}

// The differences across of row y of channel c, kept.
fn across_row(plane: &[f32], across: &mut [f32], g: Grid, y: usize, c: usize)
    requires { (c < g.n) × (y < g.h) × (0 < g.w) × Fills g (length plane.now) × Fills g (length across.old) }
    ensures { across.new
        ≡ upto (keep_row g.w g.h (across_of g.w g.h plane.now y c) y c) g.w across.old }
{
    let at = rows::row_at(g, c, y);
    let last = at + (g.w - 1);
    rows::differ(
        &plane[at + 1..last + 1],
        &plane[at..last],
        &mut across[at..last],
    );
    across[last] = 0.0;
}

// The differences down.
fn down_row(plane: &[f32], down: &mut [f32], g: Grid, y: usize, c: usize)
    requires { (c < g.n) × (y < g.h) × Fills g (length plane.now) × Fills g (length down.old) }
    ensures { down.new
        ≡ upto (keep_row g.w g.h (down_of g.w g.h plane.now y c) y c) g.w down.old }
{
    let w = g.w;
    let h = g.h;
    let at = rows::row_at(g, c, y);
    if y >= h - 1 {
        down[at..at + w].fill(0.0);
        return;
    }
    let below = rows::row_at(g, c, y + 1);
    rows::differ(
        &plane[below..below + w],
        &plane[at..at + w],
        &mut down[at..at + w],
    );
}

// Both, of every channel.
fn difference_rows(plane: &[f32], across: &mut [f32], down: &mut [f32], g: Grid, y: usize)
    requires { (y < g.h) × (0 < g.w) × Fills g (length plane.now) × Fills g (length across.old) × Fills g (length down.old) }
    ensures { (across.new
        ≡ upto (λ c. upto (keep_row g.w g.h (across_of g.w g.h plane.now y c) y c) g.w) g.n across.old)
        × (down.new
        ≡ upto (λ c. upto (keep_row g.w g.h (down_of g.w g.h plane.now y c) y c) g.w) g.n down.old) }
{
    let n = g.n;
    for c in 0..n {
        across_row(plane, across, g, y, c);
        down_row(plane, down, g, y, c);
    }
}

// The squares of a row's differences, added to the sums.
fn square_row(across: &[f32], down: &[f32], sums: &mut [f32])
    requires { (length across.now ≡ length sums.old) × (length down.now ≡ length sums.old) }
    ensures { Row (length sums.old) sums.new
        (λ x. val sums.old x ⊕ square (val across.now x) ⊕ square (val down.now x)) }
{
    rows::combine(
        sums,
        across,
        down,
        |sum, g_x, g_y| sum + g_x * g_x + g_y * g_y,
    );
}

// The norms of row y.
fn norm_row(across: &[f32], down: &[f32], norm: &mut [f32], g: Grid, y: usize)
    requires { (y < g.h) × (length norm.old ≡ g.w) × Fills g (length across.now) × Fills g (length down.now) }
    ensures { Row g.w norm.new
        (tv_norms g.n (kept_in g.w g.h across.now y) (kept_in g.w g.h down.now y)) }
{
    let n = g.n;
    let w = g.w;
    norm.fill(0.0);
    for c in 0..n {
        let at = rows::row_at(g, c, y);
        square_row(&across[at..at + w], &down[at..at + w], norm);
    }
    rows::root_row(norm);
}

// Kept: that the gradient fills the row's grid, in four contracts: it is lent `&mut`, and in the struct of the row each contract would say in its place that it is still the same buffer.
// The changes of a row in channel c, kind by kind: right, own place, below. An element takes those of a row in the order of the columns, as pixel by pixel.
fn channel_row(gradient: &mut [f32], q: &mut [f32], row: &NormedRow<'_>, c: usize)
    requires { (c < row.now.g.n) × (length q.old ≡ row.now.g.w) × Fills row.now.g (length gradient.old) }
    ensures { let r = row.now in let g = r.g in gradient.new ≡ tv_kinds g.w g.h r.alpha (λ x. val r.norm.now x)
        (kept_in g.w g.h r.across.now r.y) (kept_in g.w g.h r.down.now r.y) r.y c gradient.old }
{
    let g = row.g;
    let y = row.y;
    let at = rows::row_at(g, c, y);
    let across = &row.across[at..at + g.w];
    let down = &row.down[at..at + g.w];
    quotients(across, row.norm, q);
    rows::right(gradient, row.norm, &q[..], g, row.alpha, y, c);
    own_quotients(across, down, row.norm, q);
    rows::own(gradient, row.norm, &q[..], g, row.alpha, y, c);
    quotients(down, row.norm, q);
    rows::below(gradient, row.norm, &q[..], g, row.alpha, y, c);
}

// The changes of pixel x of a row in every channel, as tv.rs has them: own place, right, below; nothing where its norm is 0.
fn pixel(gradient: &mut [f32], row: &NormedRow<'_>, x: usize)
    requires { (x < row.now.g.w) × Fills row.now.g (length gradient.old) }
    ensures { let r = row.now in let g = r.g in gradient.new ≡ upto (λ c. tv_turn g.w g.h r.alpha (λ z. val r.norm.now z)
        (kept_in g.w g.h r.across.now r.y) (kept_in g.w g.h r.down.now r.y) r.y c x) g.n gradient.old }
{
    let g = row.g;
    let n = g.n;
    let y = row.y;
    let norm = row.norm[x];
    if norm == 0.0 {
        return;
    }
    let p = Pixel {
        g,
        alpha: row.alpha,
        norm,
        y,
        x,
    };
    for c in 0..n {
        let k = gradients::grid::px(g, c, y, x);
        let d = ChannelForward {
            g_x: row.across[k],
            g_y: row.down[k],
        };
        gradients::tv::channel_derivatives(gradient, ChannelPixel { p, c }, d);
    }
}

// Kept: this and `pixels` of `tgv_rows`: all that is alike is a `for` over the columns with one call in it; with that call as a closure the function would be the `for` itself.
// All changes of a row, pixel by pixel.
fn pixels(gradient: &mut [f32], row: &NormedRow<'_>)
    requires { Fills row.now.g (length gradient.old) }
    ensures { let r = row.now in let g = r.g in gradient.new ≡ upto (tv_kinds g.w g.h r.alpha (λ x. val r.norm.now x)
        (kept_in g.w g.h r.across.now r.y) (kept_in g.w g.h r.down.now r.y) r.y) g.n gradient.old }
{
    let w = row.g.w;
    for x in 0..w {
        pixel(gradient, row, x);
    }
}

// Kept: this and `spread_rows` of `tgv_rows`. One function of `rows` for both would take a pixel's changes and a channel's as a trait of the row or as two closures over a lent gradient, and its contract would ask where each may be called, what each leaves, that rows of norms 0 change nothing, and that all pixels change what all channels do: both crates would prove all of this for it, which is longer than these ten lines twice.
// All changes of a row: nothing where each norm is 0, pixel by pixel where many are, else kind by kind, one channel after another.
fn spread_rows(gradient: &mut [f32], q: &mut [f32], row: &NormedRow<'_>)
    requires { (length q.old ≡ row.now.g.w) × Fills row.now.g (length gradient.old) }
    ensures { let r = row.now in let g = r.g in gradient.new ≡ upto (tv_kinds g.w g.h r.alpha (λ x. val r.norm.now x)
        (kept_in g.w g.h r.across.now r.y) (kept_in g.w g.h r.down.now r.y) r.y) g.n gradient.old }
{
    let n = row.g.n;
    if !rows::any(row.norm) {
        return;
    }
    if rows::sparse(row.norm) {
        pixels(gradient, row);
        return;
    }
    for c in 0..n {
        channel_row(gradient, q, row, c);
    }
}

// Kept: this and `total_row` of `tgv_rows`. Each is one `fold` over its own product, fused into the total here and rounded to f32 first there; a function of both would take that product as a closure, and be `fold`.
// The total so far and the row's part of it, column by column.
fn total_row(norm: &[f32], alpha: f32, tv: f64) -> f64
    ensures { result ≡ upto (tv_totals alpha (λ x. val norm.now x)) (length norm.now) tv }
{
    norm.iter()
        .fold(tv, |t, &m| float::double::mul_add(alpha, m, t))
}

// Kept: that each buffer fills the grid, in each contract: a struct of the three that are lent `&mut` would need in its place that each is still the same buffer, and be taken apart again at the next call. And that
// y is a row of it and a row has a column, for the reason at `rows::row_at`.
// Row y: the differences of all channels, the norms, then the changes. The total so far, tv, is taken and given back.
fn row(
    plane: &[f32],
    gradient: &mut [f32],
    across: &mut [f32],
    down: &mut [f32],
    norm: &mut [f32],
    q: &mut [f32],
    g: Grid,
    alpha: f32,
    y: usize,
    tv: f64,
) -> f64
    requires { (g.n ≤ 3) × (y < g.h) × (0 < g.w) × (length norm.old ≡ g.w) × (length q.old ≡ g.w) × Fills g (length plane.now)
        × Fills g (length gradient.old) × Fills g (length across.old) × Fills g (length down.old) }
    ensures { (record { gradient = gradient.new; across = across.new; down = down.new }
        ≡ tv_gradient_row g.w g.h g.n none alpha plane.now y
        (record { gradient = gradient.old; across = across.old; down = down.old }))
        × (result ≡ tv_total_row g.w g.h g.n none alpha plane.now y tv) }
{
    difference_rows(plane, across, down, g, y);
    norm_row(&across[..], &down[..], norm, g, y);
    let row = NormedRow {
        across: &across[..],
        down: &down[..],
        norm: &norm[..],
        g,
        alpha,
        y,
    };
    spread_rows(gradient, q, &row);
    total_row(&norm[..], alpha, tv)
}

// Kept: this and `tgv_rows::tgv_gradient`. A function of both would take a row as a closure that writes lent buffers, five here and six there, of which a proof knows nothing after the call; what it would hold is the `for`.
// tv_gradient where no channel is held: every row. The total is returned. Rules out: two changes of one place in another order, and a total summed row by row first.
pub fn tv_gradient(
    plane: &[f32],
    gradient: &mut [f32],
    across: &mut [f32],
    down: &mut [f32],
    g: Grid,
) -> f64
    requires { (g.n ≤ 3) × (0 < g.w) × (g.w ≤ 512) × Fills g (length plane.now) × Fills g (length gradient.old)
        × Fills g (length across.old) × Fills g (length down.old) }
    ensures { (record { gradient = gradient.new; across = across.new; down = down.new }
        ≡ tv_gradient g.w g.h g.n none plane.now
        (record { gradient = gradient.old; across = across.old; down = down.old }))
        × (result ≡ tv_total g.w g.h g.n none plane.now) }
{
    let n = g.n;
    let w = g.w;
    let h = g.h;
    let alpha = gradients::tgv::alpha_of(n, 1.0);
    let mut norms = [0.0f32; 512];
    let mut quotients = [0.0f32; 512];
    let norm = &mut norms[..w];
    let q = &mut quotients[..w];
    let mut tv = 0.0f64;
    for y in 0..h {
        tv = row(plane, gradient, across, down, norm, q, g, alpha, y, tv);
    }
    tv
}
