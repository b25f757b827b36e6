// The transforms of a block (`idct`, `dct`: 64 values, 64 results), the reorderings (`from`, `to`: sides) and the upsampling (`up`:
// own sides, factors, full sides) of the values 0, 1, 2, ..
ghost use Rattle.std.specs.Prelude.{◌*◌, ◌<◌, ◌≤◌};

use float::bits::{from_bits, to_bits};
use utils::blocks::{Order, move_blocks};
use utils::dct::{Transform, transform8x8};
use words::running::{from_word, number_at, read, same_values};

// Whether the words from word k on are the bits of the values.
// Kept: the values are compared with words of the line, so that no derived equality does it.
fn same_bits(line: &[u8], k: usize, xs: &[f32]) -> bool {
    same_values(from_word(line, k), xs, |x, n| to_bits(x) == n)
}

// Whether the line has the 64 values that this transform gives.
// Kept: as `same_bits`, which it ends with.
pub fn same_transform(line: &[u8], transform: Transform) -> bool {
    let mut a = [0.0f32; 64];
    read(from_word(line, 1), &mut a, from_bits);
    transform8x8(&mut a, transform);
    same_bits(line, 65, &a)
}

// The values 0, 1, 2, ..
fn count_up() -> [f32; 576] {
    let mut xs = [0.0f32; 576];
    let mut v = 0.0f32;
    for x in xs.iter_mut() {
        *x = v;
        v += 1.0;
    }
    xs
}

// Word k as a side of at most three blocks, in blocks; 0 for more.
// Kept: an Option would be opened twice in `same_order` and four times in `same_up`, for a line that no list has.
fn blocks(line: &[u8], k: usize) -> usize
    ensures { result ≤ 3 }
{
    let n = number_at(line, k) / 8;
    if n <= 3 { n as usize } else { 0 }
}

// Word k as a factor.
fn factor(line: &[u8], k: usize) -> usize
    ensures { 0 < result }
{
    number_at(line, k).max(1) as usize
}

// The values of w by h blocks.
fn area(w: usize, h: usize) -> usize
    requires { (w ≤ 3) × (h ≤ 3) }
    ensures { (w * 8 * (h * 8) ≤ result) × (result ≤ 576) }
{
    w * 8 * (h * 8)
}

// Whether the line has the values that the reordering to this order gives.
// Kept: as `same_bits`, which it ends with.
pub fn same_order(line: &[u8], order: Order) -> bool {
    let bw = blocks(line, 1);
    let bh = blocks(line, 2);
    let n = area(bw, bh);
    let image = count_up();
    let mut out = [0.0f32; 576];
    move_blocks(&image, &mut out, bw * 8, bh * 8, bw, bh, order);
    same_bits(line, 3, &out[..n])
}

// Whether the line has the values that the upsampling gives.
pub fn same_up(line: &[u8]) -> bool {
    let w = blocks(line, 1);
    let h = blocks(line, 2);
    let across = factor(line, 3);
    let down = factor(line, 4);
    let maxw = blocks(line, 5);
    let maxh = blocks(line, 6);
    if w == 0 || h == 0 {
        return false;
    }
    let n = area(maxw, maxh);
    let image = count_up();
    let mut out = [0.0f32; 576];
    utils::auxiliary::upsample_pixels(
        &image,
        w * 8,
        h * 8,
        across,
        down,
        maxw * 8,
        maxh * 8,
        &mut out,
    );
    same_bits(line, 7, &out[..n])
}
