// auxiliary.rs: the upsampling of a channel's samples to the full plane.
ghost use Rattle.std.specs.Prelude.{◌≡◌, ℕ, ◌+◌, ◌*◌, ◌<◌, ◌≤◌, length};
ghost use Rattle.float.specs.Names.{val};
ghost use Rattle.utils.specs.Auxiliary.{sample_of, upsample_pixels};

/// Each of w by h samples repeated `horizontal` times along its row and `vertical` times along its
/// column, the last ones to the end of the maxw by maxh pixels: the first maxw * maxh values of
/// `out`, and the rest of it stays.
// Kept: the Rust's numbers in its order; `Own`, which has four of them, stands in `start`, above this crate.
// Rules out: 0 past the cover; the sample at (x % w, y % h), which repeats the whole picture; a
// value past the pixels changed.
#[tactic(auto, using(crate::proofs::Places::sampled, fold::proofs::Loops::upto_more, fold::proofs::Loops::upto_none, crate::proofs::Opened::upsample_is))]
pub fn upsample_pixels(
    image: &[f32],
    w: usize,
    h: usize,
    horizontal: usize,
    vertical: usize,
    maxw: usize,
    maxh: usize,
    out: &mut [f32],
)
    requires { (0 < w) × (0 < h) × (0 < horizontal) × (0 < vertical) × (w * h ≤ length image.now) × (maxw * maxh ≤ length out.old) }
    ensures pixels { out.new
        ≡ upsample_pixels image.now w h horizontal vertical maxw maxh out.old }
    ensures sampled { (y x : ℕ) → y < maxh → x < maxw → val out.new (y * maxw + x)
        ≡ val image.now (sample_of w h horizontal vertical y x) }
    ensures rest { (p : ℕ) → maxw * maxh ≤ p → val out.new p ≡ val out.old p }
{
    for y in 0..maxh {
        for x in 0..maxw {
            let cy = (y / vertical).min(h - 1);
            let cx = (x / horizontal).min(w - 1);
            out[y * maxw + x] = image[cy * w + cx];
        }
    }
}
