// Internal functions as C functions, for the comparison with Rust. Each has the contract of the function that it calls.
#![tactic(auto)]

mod jobs;

ghost use Rattle.std.specs.Prelude.{◌≡◌, ◌*◌, ◌/◌, ◌%◌, ◌<◌, ◌≤◌, length};
ghost use Rattle.std.specs.Float.{binary64};
ghost use Rattle.std.specs.Float.Ieee.{to_bits};
ghost use Rattle.float.specs.Names.{◌⊗◌, ◌⊞◌};
ghost use Rattle.float.specs.Ops.{clamp, fused, fused_at, midpoint, mul_add, root, square};
ghost use Rattle.utils.specs.Auxiliary.{upsample_pixels};
ghost use Rattle.utils.specs.Blocks.{from_blocks, to_blocks};
ghost use Rattle.utils.specs.Dct.{dct8x8, idct8x8};

#[unsafe(no_mangle)]
pub extern "C" fn probe_mul_add(a: f32, b: f32, c: f32) -> f32
    ensures { result ≡ fused a b c }
{
    float::mul_add(a, b, c)
}

#[unsafe(no_mangle)]
pub extern "C" fn probe_mul_add_rounded(a: f32, b: f32, c: f32) -> f32
    ensures { result ≡ mul_add a b c }
{
    float::mul_add_rounded(a, b, c)
}

#[unsafe(no_mangle)]
pub extern "C" fn probe_sqrt(x: f32) -> f32
    ensures { result ≡ root x }
{
    float::sqrt(x)
}

#[unsafe(no_mangle)]
pub extern "C" fn probe_midpoint(a: f32, b: f32) -> f32
    ensures { result ≡ midpoint a b }
{
    float::midpoint(a, b)
}

#[unsafe(no_mangle)]
pub extern "C" fn probe_clamp(x: f32, low: f32, high: f32) -> f32
    ensures { result ≡ clamp x low high }
{
    float::clamp(x, low, high)
}

#[unsafe(no_mangle)]
pub extern "C" fn probe_powi2(x: f32) -> f32
    ensures { result ≡ square x }
{
    float::powi2(x)
}

// The two sums of f64 that the totals are made of, by their bits.
// Kept: C calls each by its own name, and the body of each is the one call that it compares.
#[unsafe(no_mangle)]
pub extern "C" fn probe_total_mul_add(a: f32, b: f32, t: f64) -> u64
    ensures { result ≡ to_bits binary64 (fused_at binary64 a b t) }
{
    float::double::to_bits(float::double::mul_add(a, b, t))
}

// Kept: as probe_total_mul_add.
#[unsafe(no_mangle)]
pub extern "C" fn probe_total_add_product(t: f64, a: f32, b: f32) -> u64
    ensures { result ≡ to_bits binary64 (t ⊞ (a ⊗ b)) }
{
    float::double::to_bits(float::double::add_product(t, a, b))
}

#[unsafe(no_mangle)]
pub extern "C" fn probe_idct8x8(a: &mut [f32])
    requires { length a.old ≡ 64 }
    ensures { a.new ≡ idct8x8 a.old }
{
    utils::dct::idct8x8(a);
}

#[unsafe(no_mangle)]
pub extern "C" fn probe_dct8x8(a: &mut [f32])
    requires { length a.old ≡ 64 }
    ensures { a.new ≡ dct8x8 a.old }
{
    utils::dct::dct8x8(a);
}

// Kept: C calls this and probe_to_blocks each by its own name, and the body of each is the one call that it compares.
#[unsafe(no_mangle)]
pub extern "C" fn probe_from_blocks(input: &[f32], output: &mut [f32], w: usize, h: usize)
    requires { (w % 8 ≡ 0) × (h % 8 ≡ 0) × (w * h ≤ length input.now) × (w * h ≤ length output.old) }
    ensures { output.new ≡ from_blocks w (w / 8) (h / 8) input.now output.old }
{
    utils::blocks::from_blocks(input, output, w, h, w / 8, h / 8);
}

// Kept: as probe_from_blocks.
#[unsafe(no_mangle)]
pub extern "C" fn probe_to_blocks(input: &[f32], output: &mut [f32], w: usize, h: usize)
    requires { (w % 8 ≡ 0) × (h % 8 ≡ 0) × (w * h ≤ length input.now) × (w * h ≤ length output.old) }
    ensures { output.new ≡ to_blocks w (w / 8) (h / 8) input.now output.old }
{
    utils::blocks::to_blocks(input, output, w, h, w / 8, h / 8);
}

#[unsafe(no_mangle)]
pub extern "C" fn probe_upsample_pixels(
    image: &[f32],
    w: usize,
    h: usize,
    across: usize,
    down: usize,
    maxw: usize,
    maxh: usize,
    out: &mut [f32],
)
    requires { (0 < w) × (0 < h) × (0 < across) × (0 < down) × (w * h ≤ length image.now) × (maxw * maxh ≤ length out.old) }
    ensures { out.new ≡ upsample_pixels image.now w h across down maxw maxh out.old }
{
    utils::auxiliary::upsample_pixels(image, w, h, across, down, maxw, maxh, out);
}
