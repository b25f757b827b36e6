// scalar/tv.rs, `tv_gradient` and `tv_gradient_px`: the first-order term. The buffers have document 01's names: plane is fdata, gradient is obj_gradient,
// across and down are pixel_diff.x and pixel_diff.y.
ghost use Rattle.std.specs.Prelude.{◌≡◌, ◌<◌, ◌≤◌, length};
ghost use Rattle.gradients.specs.Held.{flag};
ghost use Rattle.gradients.specs.Grid.{Inside, Fills};
ghost use Rattle.gradients.specs.Tv.{tv_differences, g_norm_of, tv_channel_derivatives, tv_derivatives, forward_of, store, tv_gradient_px, tv_total_px, tv_gradient, tv_total};

use crate::grid::{ChannelPixel, Grid, Pixel};
use crate::{grid, tgv};

// g_x and g_y: a channel's forward differences at a pixel.
#[derive(Clone, Copy)]
pub struct ChannelForward {
    pub g_x: f32,
    pub g_y: f32,
}

// The forward differences at (x, y) of each channel.
// Kept: the test of `held` within the loop, here, in two below, in two of tgv.rt, and in both norms' loops over a `zip`: `for c in (0..n).filter(|&c| !held[c])`, or a filter of the pairs, has the same test, in a closure, and says no more plainly that these channels are passed over.
fn differences(plane: &[f32], g: Grid, y: usize, x: usize) -> [ChannelForward; 3]
    requires { (g.n ≤ 3) × Inside g y x × Fills g (length plane.now) }
    ensures { result ≡ tv_differences g.w g.h g.n (flag g.held) plane.now y x }
{
    let n = g.n;
    let held = g.held;
    let right = x >= g.w - 1;
    let bottom = y >= g.h - 1;
    let mut d = [ChannelForward { g_x: 0.0, g_y: 0.0 }; 3];
    for c in 0..n {
        if held[c] {
            continue;
        }
        d[c] = ChannelForward {
            g_x: grid::difference(right, plane, g, c, y, x + 1, y, x),
            g_y: grid::difference(bottom, plane, g, c, y + 1, x, y, x),
        };
    }
    d
}

// Kept: that the channels are three at most, here and where a grid's are: the arrays of channels have three places. In `Grid` it would ask more of `px`, `difference` and `bump`, which promise for every number of channels.
// g_norm: √ of the squares of both differences, added channel by channel.
fn g_norm_of(n: usize, held: [bool; 3], d: [ChannelForward; 3]) -> f32
    requires { n ≤ 3 }
    ensures { result ≡ g_norm_of n (flag held) d }
{
    let mut g_norm = 0.0f32;
    for (held, d) in held[..n].iter().zip(&d) {
        if *held {
            continue;
        }
        g_norm += float::powi2(d.g_x);
        g_norm += float::powi2(d.g_y);
    }
    wide::sqrt(g_norm)
}

// Kept: that the planes fill the gradient, in each contract; a struct of the lent buffer would need in its place, as `copying::Writer` does, that it is still the same buffer.
// "compute derivatives" of a channel: own place, right, below.
// Rules out: two of the three exchanged, and a change beyond an edge.
pub fn channel_derivatives(gradient: &mut [f32], own: ChannelPixel, d: ChannelForward)
    requires { Fills own.p.g (length gradient.old) }
    ensures { gradient.new ≡ tv_channel_derivatives own.p.g.w own.p.g.h own.p.alpha own.p.norm d.g_x d.g_y own.p.y own.p.x own.c gradient.old }
{
    let p = own.p;
    own.bump(gradient, p.y, p.x, -(d.g_x + d.g_y));
    if p.x < p.g.w - 1 {
        own.bump(gradient, p.y, p.x + 1, d.g_x);
    }
    if p.y < p.g.h - 1 {
        own.bump(gradient, p.y + 1, p.x, d.g_y);
    }
}

// "compute derivatives": each channel's, if g_norm isn't 0.
fn derivatives(gradient: &mut [f32], p: Pixel, d: [ChannelForward; 3])
    requires { (p.g.n ≤ 3) × Fills p.g (length gradient.old) }
    ensures { gradient.new ≡ tv_derivatives p.g.w p.g.h p.g.n (flag p.g.held) p.alpha p.norm d p.y p.x gradient.old }
{
    let n = p.g.n;
    let held = p.g.held;
    if p.norm != 0.0 {
        for c in 0..n {
            if held[c] {
                continue;
            }
            channel_derivatives(gradient, ChannelPixel { p, c }, d[c]);
        }
    }
}

// "store for the second-order TGV pass": both differences of (x, y), each channel's.
fn store(across: &mut [f32], down: &mut [f32], g: Grid, d: [ChannelForward; 3], y: usize, x: usize)
    requires { (g.n ≤ 3) × Inside g y x × Fills g (length across.old) × Fills g (length down.old) }
    ensures { (across.new ≡ store g.w g.h g.n (flag g.held) (λ c. (forward_of d c).g_x) y x across.old)
        × (down.new ≡ store g.w g.h g.n (flag g.held) (λ c. (forward_of d c).g_y) y x down.old) }
{
    let n = g.n;
    let held = g.held;
    for c in 0..n {
        if held[c] {
            continue;
        }
        let k = grid::px(g, c, y, x);
        across[k] = d[c].g_x;
        down[k] = d[c].g_y;
    }
}

// Kept: the four buffers and the grid, as the run lends them; a struct of the three `&mut` would need that each is still the same buffer where the contract now says its length.
// tv_gradient_px: every channel's gradient and differences. The total so far, tv, is taken and given back.
fn tv_gradient_px(
    plane: &[f32],
    gradient: &mut [f32],
    across: &mut [f32],
    down: &mut [f32],
    g: Grid,
    alpha: f32,
    y: usize,
    x: usize,
    tv: f64,
) -> f64
    requires { (g.n ≤ 3) × Inside g y x × Fills g (length plane.now) × Fills g (length gradient.old)
        × Fills g (length across.old) × Fills g (length down.old) }
    ensures { (record { gradient = gradient.new; across = across.new; down = down.new }
        ≡ tv_gradient_px g.w g.h g.n (flag g.held) alpha plane.now y x
        (record { gradient = gradient.old; across = across.old; down = down.old }))
        × (result ≡ tv_total_px g.w g.h g.n (flag g.held) alpha plane.now y x tv) }
{
    let d = differences(plane, g, y, x);
    let n = g.n;
    let held = g.held;
    let norm = g_norm_of(n, held, d);
    let p = Pixel {
        g,
        alpha,
        norm,
        y,
        x,
    };
    derivatives(gradient, p, d);
    store(across, down, g, d, y, x);
    float::double::mul_add(alpha, norm, tv)
}

// Kept: this and `tgv::tgv_gradient`. A function of both would take a pixel's part as a closure that writes lent buffers, three here and one there, of which a proof knows nothing after the call; what it would hold is the two `for`s.
// tv_gradient: every pixel, row by row. The total is returned. Rules out: a norm of each channel alone, a pixel whose differences are left as they were,
// a total of rounded products, or one summed in f32 or channel by channel, and a held channel in the norm or out of the divisor.
pub fn tv_gradient(
    plane: &[f32],
    gradient: &mut [f32],
    across: &mut [f32],
    down: &mut [f32],
    g: Grid,
) -> f64
    requires { (g.n ≤ 3) × Fills g (length plane.now) × Fills g (length gradient.old)
        × Fills g (length across.old) × Fills g (length down.old) }
    ensures { (record { gradient = gradient.new; across = across.new; down = down.new }
        ≡ tv_gradient g.w g.h g.n (flag g.held) plane.now
        (record { gradient = gradient.old; across = across.old; down = down.old }))
        × (result ≡ tv_total g.w g.h g.n (flag g.held) plane.now) }
{
    let n = g.n;
    let w = g.w;
    let h = g.h;
    let alpha = tgv::alpha_of(n, 1.0);
    let mut tv = 0.0f64;
    for y in 0..h {
        for x in 0..w {
            tv = tv_gradient_px(plane, gradient, across, down, g, alpha, y, x, tv);
        }
    }
    tv
}
