// scalar/tgv.rs, `tgv_gradient` and `tgv_gradient_px`: the second-order term. The buffers have document 01's names: gradient is obj_gradient,
// across and down are pixel_diff.x and pixel_diff.y.
ghost use Rattle.std.specs.Prelude.{◌≡◌, ◌-◌, ◌*◌, ◌<◌, ◌≤◌, length};
ghost use Rattle.std.specs.Float.Ieee.{neg};
ghost use Rattle.float.specs.Ops.{mul_add, square};
ghost use Rattle.float.specs.Names.{◌⊗◌, f2};
ghost use Rattle.gradients.specs.Held.{flag};
ghost use Rattle.gradients.specs.Grid.{Inside, Fills};
ghost use Rattle.gradients.specs.Tgv.{tgv_differences, g2_norm_of, tgv_beside, tgv_up_down, tgv_corners, tgv_channel_derivatives, tgv_derivatives, tgv_gradient_px, tgv_total_px, tgv_alpha, tgv_gradient, tgv_total};

use crate::grid;
use crate::grid::{ChannelPixel, Grid, Pixel};

// g_xx, g_xy_sym and g_yy: a channel's differences of differences at a pixel.
#[derive(Clone, Copy)]
pub struct ChannelSecond {
    pub g_xx: f32,
    pub g_xy_sym: f32,
    pub g_yy: f32,
}

// The backward differences x and y of the differences at (x, y), and their mixed one made symmetric, of each channel.
fn differences(across: &[f32], down: &[f32], g: Grid, y: usize, x: usize) -> [ChannelSecond; 3]
    requires { (g.n ≤ 3) × Inside g y x × Fills g (length across.now) × Fills g (length down.now) }
    ensures { result ≡ tgv_differences g.w g.h g.n (flag g.held) across.now down.now y x }
{
    let n = g.n;
    let held = g.held;
    let left = x.saturating_sub(1);
    let above = y.saturating_sub(1);
    let mut d = [ChannelSecond {
        g_xx: 0.0,
        g_xy_sym: 0.0,
        g_yy: 0.0,
    }; 3];
    for c in 0..n {
        if held[c] {
            continue;
        }
        let g_xx = grid::difference(x == 0, across, g, c, y, x, y, left);
        let g_yx = grid::difference(x == 0, down, g, c, y, x, y, left);
        let g_yy = grid::difference(y == 0, down, g, c, y, x, above, x);
        let g_xy = grid::difference(y == 0, across, g, c, y, x, above, x);
        let g_xy_sym = wide::midpoint(g_xy, g_yx);
        d[c] = ChannelSecond {
            g_xx,
            g_xy_sym,
            g_yy,
        };
    }
    d
}

// What a channel adds to g2_norm. Rules out: the mixed square taken once, and the squares added in another order.
pub fn square_of(g_xx: f32, g_xy_sym: f32, g_yy: f32) -> f32
    ensures { result ≡ mul_add g_yy g_yy (mul_add f2 (square g_xy_sym) (square g_xx)) }
{
    float::mul_add_rounded(
        g_yy,
        g_yy,
        float::mul_add_rounded(2.0, float::powi2(g_xy_sym), float::powi2(g_xx)),
    )
}

// g2_norm: √ of what each channel adds.
fn g2_norm_of(n: usize, held: [bool; 3], d: [ChannelSecond; 3]) -> f32
    requires { n ≤ 3 }
    ensures { result ≡ g2_norm_of n (flag held) d }
{
    let mut g2_norm = 0.0f32;
    for (held, d) in held[..n].iter().zip(&d) {
        if *held {
            continue;
        }
        g2_norm += square_of(d.g_xx, d.g_xy_sym, d.g_yy);
    }
    wide::sqrt(g2_norm)
}

// The derivative at the pixel's own place, before it is divided by g2_norm. Rules out: its sign turned, and the mixed difference taken once.
pub fn middle(g_xx: f32, g_xy_sym: f32, g_yy: f32) -> f32
    ensures { result ≡ neg (mul_add f2 g_yy (mul_add f2 g_xx (f2 ⊗ g_xy_sym))) }
{
    -float::mul_add_rounded(2.0, g_yy, float::mul_add_rounded(2.0, g_xx, 2.0 * g_xy_sym))
}

impl ChannelPixel {
    // "compute derivatives" of a channel: own place, left, right.
    fn beside(self, gradient: &mut [f32], d: ChannelSecond)
        requires { Fills self.p.g (length gradient.old) }
        ensures { gradient.new ≡ tgv_beside self.p.g.w self.p.g.h self.p.alpha self.p.norm d.g_xx d.g_xy_sym d.g_yy self.p.y self.p.x self.c gradient.old }
    {
        let p = self.p;
        let side = d.g_xy_sym + d.g_xx;
        self.bump(gradient, p.y, p.x, middle(d.g_xx, d.g_xy_sym, d.g_yy));
        if p.x != 0 {
            self.bump(gradient, p.y, p.x - 1, side);
        }
        if p.x < p.g.w - 1 {
            self.bump(gradient, p.y, p.x + 1, side);
        }
    }

    // Above, below.
    fn up_down(self, gradient: &mut [f32], d: ChannelSecond)
        requires { Fills self.p.g (length gradient.old) }
        ensures { gradient.new ≡ tgv_up_down self.p.g.w self.p.g.h self.p.alpha self.p.norm d.g_xy_sym d.g_yy self.p.y self.p.x self.c gradient.old }
    {
        let p = self.p;
        let end = d.g_yy + d.g_xy_sym;
        if p.y != 0 {
            self.bump(gradient, p.y - 1, p.x, end);
        }
        if p.y < p.g.h - 1 {
            self.bump(gradient, p.y + 1, p.x, end);
        }
    }

    // Above right, below left.
    fn corners(self, gradient: &mut [f32], d: ChannelSecond)
        requires { Fills self.p.g (length gradient.old) }
        ensures { gradient.new ≡ tgv_corners self.p.g.w self.p.g.h self.p.alpha self.p.norm d.g_xy_sym self.p.y self.p.x self.c gradient.old }
    {
        let p = self.p;
        let corner = -d.g_xy_sym;
        if p.x < p.g.w - 1 && p.y != 0 {
            self.bump(gradient, p.y - 1, p.x + 1, corner);
        }
        if p.x != 0 && p.y < p.g.h - 1 {
            self.bump(gradient, p.y + 1, p.x - 1, corner);
        }
    }
}

// "compute derivatives" of a channel: all seven, in this order. Rules out: a corner left out, and a change beyond an edge.
pub fn channel_derivatives(gradient: &mut [f32], own: ChannelPixel, d: ChannelSecond)
    requires { Fills own.p.g (length gradient.old) }
    ensures { gradient.new
        ≡ tgv_channel_derivatives own.p.g.w own.p.g.h own.p.alpha own.p.norm d.g_xx d.g_xy_sym d.g_yy own.p.y own.p.x own.c gradient.old }
{
    own.beside(gradient, d);
    own.up_down(gradient, d);
    own.corners(gradient, d);
}

// "compute derivatives": each channel's, unless g2_norm is 0.
fn derivatives(gradient: &mut [f32], p: Pixel, d: [ChannelSecond; 3])
    requires { (p.g.n ≤ 3) × Fills p.g (length gradient.old) }
    ensures { gradient.new ≡ tgv_derivatives p.g.w p.g.h p.g.n (flag p.g.held) p.alpha p.norm d p.y p.x gradient.old }
{
    let n = p.g.n;
    let held = p.g.held;
    if p.norm == 0.0 {
        return;
    }
    for c in 0..n {
        if held[c] {
            continue;
        }
        channel_derivatives(gradient, ChannelPixel { p, c }, d[c]);
    }
}

// Kept: the three buffers and the grid, as the run lends them; as at `tv_gradient_px`, a struct with the `&mut` would need that it is still the same buffer.
// tgv_gradient_px: every channel's gradient. The total so far, tv2, is taken and given back.
fn tgv_gradient_px(
    across: &[f32],
    down: &[f32],
    gradient: &mut [f32],
    g: Grid,
    alpha: f32,
    y: usize,
    x: usize,
    tv2: f64,
) -> f64
    requires { (g.n ≤ 3) × Inside g y x × Fills g (length across.now) × Fills g (length down.now) × Fills g (length gradient.old) }
    ensures { (gradient.new
        ≡ tgv_gradient_px g.w g.h g.n (flag g.held) alpha across.now down.now y x gradient.old)
        × (result ≡ tgv_total_px g.w g.h g.n (flag g.held) alpha across.now down.now y x tv2) }
{
    let n = g.n;
    let held = g.held;
    let d = differences(across, down, g, y, x);
    let norm = g2_norm_of(n, held, d);
    let p = Pixel {
        g,
        alpha,
        norm,
        y,
        x,
    };
    derivatives(gradient, p, d);
    float::double::add_product(tv2, alpha, norm)
}

// alpha /= (nchannel as f32).sqrt(), the same in each pixel; tv.rs has it of 1.0.
// Rules out: alpha undivided, the root of the channels that aren't held, and its product with 1 / √n, which rounds twice.
pub fn alpha_of(n: usize, alpha: f32) -> f32
    requires { n ≤ 3 }
    ensures { result ≡ tgv_alpha n alpha }
{
    alpha / steps::solve::root_of(n as u32)
}

// Kept: this and `tv::tv_gradient`, where the line says why.
// tgv_gradient: every pixel, row by row. The total is returned. Rules out: alpha not divided by √n, a NaN norm taken for 0,
// and a total of products that are not rounded to f32 first.
pub fn tgv_gradient(across: &[f32], down: &[f32], gradient: &mut [f32], g: Grid, alpha: f32) -> f64
    requires { (g.n ≤ 3) × Fills g (length across.now) × Fills g (length down.now) × Fills g (length gradient.old) }
    ensures { (gradient.new
        ≡ tgv_gradient g.w g.h g.n (flag g.held) alpha across.now down.now gradient.old)
        × (result ≡ tgv_total g.w g.h g.n (flag g.held) alpha across.now down.now) }
{
    let n = g.n;
    let w = g.w;
    let h = g.h;
    let alpha_over_root = alpha_of(n, alpha);
    let mut tv2 = 0.0f64;
    for y in 0..h {
        for x in 0..w {
            tv2 = tgv_gradient_px(across, down, gradient, g, alpha_over_root, y, x, tv2);
        }
    }
    tv2
}
