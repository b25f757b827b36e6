// Places in flat buffers of n planes, and the changes of the gradient at such a place.
ghost use Rattle.std.specs.Prelude.{◌≡◌, false, ◌*◌, ◌<◌, ◌^◌, length};
ghost use Rattle.gradients.specs.Tv.{px_idx, bump, difference};
ghost use Rattle.gradients.specs.Grid.{Inside, Fills};

// n planes of w by h, one after the other, and which of them are held (M-108).
// Kept: three flags, those of the record's channels, of which the first n count; there is no heap.
#[derive(Clone, Copy)]
pub struct Grid {
    pub n: usize,
    pub w: usize,
    pub h: usize,
    pub held: [bool; 3],
}

// A pixel that changes the gradient by its norm and alpha.
#[derive(Clone, Copy)]
pub struct Pixel {
    pub g: Grid,
    pub alpha: f32,
    pub norm: f32,
    pub y: usize,
    pub x: usize,
    pub ghost inside: { Inside g y x },
}

// Kept: that the place lies in the plane, in each contract: `Pixel` carries it once there is a norm; before, a struct of g, y and x would be made for both places of `difference` and opened here.
// The place of column x of row y in channel c. Rules out: row and column exchanged, and a place of another channel.
pub fn px(g: Grid, c: usize, y: usize, x: usize) -> usize
    requires { (c < g.n) × Inside g y x × (g.n * (g.w * g.h) < 2 ^ 63) }
    ensures { (result ≡ px_idx g.w g.h c y x) × (result < g.n * (g.w * g.h)) }
{
    let w = g.w;
    let h = g.h;
    c * (w * h) + (y * w + x)
}

// Kept: the flag edge. Without it each of the six calls would be `if right { 0.0 } else { grid::difference(plane, g, c, y, x + 1, y, x) }`, with one 0.0 and one test more each, and there would be nothing here to say what stands at an edge.
// The difference from (y, x) to (ty, tx), 0 at an edge. Rules out: its sign turned, and a value read beyond an edge.
pub fn difference(
    edge: bool,
    xs: &[f32],
    g: Grid,
    c: usize,
    ty: usize,
    tx: usize,
    y: usize,
    x: usize,
) -> f32
    requires { (c < g.n) × Inside g y x × (edge ≡ false → Inside g ty tx) × Fills g (length xs.now) }
    ensures { result ≡ difference edge xs.now (px_idx g.w g.h c ty tx) (px_idx g.w g.h c y x) }
{
    if edge {
        return 0.0;
    }
    let to = px(g, c, ty, tx);
    let from = px(g, c, y, x);
    xs[to] - xs[from]
}

// A pixel in channel c.
#[derive(Clone, Copy)]
pub struct ChannelPixel {
    pub p: Pixel,
    pub c: usize,
    pub ghost below: { c < p.g.n },
}

impl ChannelPixel {
    // Kept: that the planes fill the gradient, here and in the three methods of tgv.rt; `tv::channel_derivatives` has the line that says why.
    // alpha.mul_add(v / norm, ..) at (y, x). Rules out: product and sum rounded one after the other, and alpha × v divided by the norm.
    pub fn bump(self, gradient: &mut [f32], y: usize, x: usize, v: f32)
        requires { Inside self.p.g y x × Fills self.p.g (length gradient.old) }
        ensures { gradient.new ≡ bump self.p.alpha v self.p.norm (px_idx self.p.g.w self.p.g.h self.c y x) gradient.old }
    {
        let k = px(self.p.g, self.c, y, x);
        gradient[k] = wide::mul_add(self.p.alpha, v / self.p.norm, gradient[k]);
    }
}
