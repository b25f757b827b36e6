// The picture of the solved planes: `finish` of lib.rs. Planes and RGB bytes are lent; the functions but `finish` are internal.
#![tactic(auto)]

ghost use Rattle.std.specs.Prelude.{◌≡◌, ◌+◌, ◌*◌, ◌<◌, ◌≤◌, true, false, OnErr, length};
ghost use Rattle.std.specs.Float.Ieee.{lt, to_unsigned};
ghost use Rattle.float.specs.Names.{f255};
ghost use Rattle.picture.specs.Finish.{nearest, to_byte, shade, colour, grey, pixel, row, picture, side, within, legal, fitting, verdict, finishing};
ghost use Rattle.picture.specs.NearestUp.{ShadesAreNearest};

use refusal::Refusal;

// How a clamped value becomes a byte: truncated as in the Rust, or the nearest whole number as T.871 has it.
#[derive(Clone, Copy, Debug, PartialEq, Eq)]
pub enum Rounding {
    Truncate,
    Nearest,
}

// The rounding of a letter's number: 1 is the nearest, any other number truncated. Ruled out: the nearest for 2, and for 0.
// Kept: each number has its rounding, as in the definitions. By `TryFrom` the one caller would have `let Ok(rounding) = Rounding::try_from(rounding) else`, with the same refusal
// after it, in the place of `if 1 < rounding`, and the definitions a second word for which numbers fail.
impl From<u32> for Rounding {
    ghost use Rattle.picture.specs.Finish.{rounding_from};

    ghost from_gives = { λ n r. r ≡ rounding_from n };

    // Kept: two arms, as those of start's `Reorder`; a trait or a macro over the enums of two would be longer than the impls.
    fn from(n: u32) -> Rounding {
        match n {
            1 => Rounding::Nearest,
            _ => Rounding::Truncate,
        }
    }
}

// Solved planes w wide and h high, one for each channel, one after the other.
#[derive(Clone, Copy)]
struct Planes<'a> {
    values: &'a [f32],
    channels: u32,
    w: usize,
    h: usize,
    ghost some: { 1 ≤ channels },
    ghost sides: { (w ≤ 512) × (h ≤ 512) },
    ghost long: { length values.now ≡ channels * (w * h) },
}

// A value clamped to 0 to 255, or NaN.
#[derive(Clone, Copy)]
struct Clamped {
    v: f32,
    ghost most: { lt f255 v ≡ false },
}

impl Clamped {
    // Truncated, and 0 for NaN.
    fn truncated(self) -> u8
        ensures { result ≡ to_unsigned 8 self.v }
    {
        if 0.0 < self.v {
            return std::num::truncating_f32_to_u64(self.v) as u8;
        }
        0
    }

    // The nearest whole number, halves upward, and 0 for NaN. k + 0.5 is exact, v + 0.5 would not be: at the f32 below 0.5 it is 1.
    fn nearest(self) -> u8
        ensures { result ≡ nearest self.v }
    {
        let k = self.truncated();
        if k as f32 + 0.5 <= self.v {
            return k + 1;
        }
        k
    }

    // As a byte. This function alone decides how.
    fn to_byte(self, rounding: Rounding) -> u8
        ensures { result ≡ to_byte rounding self.v }
    {
        match rounding {
            Rounding::Truncate => self.truncated(),
            Rounding::Nearest => self.nearest(),
        }
    }
}

// `.clamp(0.0, 255.0) as u8`.
fn shade(rounding: Rounding, x: f32) -> u8
    ensures { result ≡ shade (to_byte rounding) x }
{
    let v = float::clamp(x, 0.0, 255.0);
    Clamped { v }.to_byte(rounding)
}

// The three bytes of a pixel of three channels; y has its 128 already.
#[tactic(auto, unfolding(crate::specs::Finish::colour))]
fn colour(rounding: Rounding, y: f32, cb: f32, cr: f32) -> [u8; 3]
    ensures { result ≡ colour (to_byte rounding) y cb cr }
{
    let green = float::mul_add_rounded(0.34414, -cb, y);
    [
        shade(rounding, float::mul_add_rounded(1.402, cr, y)),
        shade(rounding, float::mul_add_rounded(0.71414, -cr, green)),
        shade(rounding, float::mul_add_rounded(1.772, cb, y)),
    ]
}

// The three bytes of a pixel of one channel.
#[tactic(auto, unfolding(crate::specs::Finish::grey))]
fn grey(rounding: Rounding, y: f32) -> [u8; 3]
    ensures { result ≡ grey (to_byte rounding) y }
{
    [shade(rounding, y); 3]
}

// The pixel at a place of the planes. Only channel 0 gets 128 added.
#[tactic(auto, unfolding(crate::specs::Finish::pixel))]
fn pixel(rounding: Rounding, planes: Planes, at: usize) -> [u8; 3]
    requires { at < planes.w * planes.h }
    ensures { result ≡ pixel (to_byte rounding) planes.entry.channels (planes.entry.w * planes.entry.h) planes.entry.values.now at }
{
    let n = planes.w * planes.h;
    let y = planes.values[at] + 128.0;
    if planes.channels == 3 {
        let cb = planes.values[n + at];
        let cr = planes.values[2 * n + at];
        return colour(rounding, y, cb, cr);
    }
    grey(rounding, y)
}

// The first pixels of the planes' row y, as many as the picture is wide.
// Kept: tried with `out.chunks_exact_mut(3).enumerate()`, and the proof didn't close: of `out` after that loop only the length is known, and not what was stored in each part.
fn row(rounding: Rounding, planes: Planes, y: usize, width: usize, out: &mut [u8])
    requires { (y < planes.h) × (width ≤ planes.w) × (length out.old ≡ width * 3) }
    ensures { out.new ≡ row (to_byte rounding) planes.entry.channels (planes.entry.w * planes.entry.h) planes.entry.values.now (y * planes.entry.w) width }
{
    for x in 0..width {
        let bytes = pixel(rounding, planes, y * planes.w + x);
        out[x * 3..x * 3 + 3].copy_from_slice(&bytes);
    }
}

// The top left part of the planes, row by row.
// Kept: as `row`, with parts of `width * 3` bytes.
fn rows(rounding: Rounding, planes: Planes, width: usize, height: usize, rgb: &mut [u8])
    requires { (width ≤ planes.w) × (height ≤ planes.h) × (length rgb.old ≡ height * (width * 3)) }
    ensures { rgb.new ≡ picture (to_byte rounding) planes.entry.w planes.entry.h width height planes.entry.channels planes.entry.values.now }
{
    let line = width * 3;
    for y in 0..height {
        let at = y * line;
        row(rounding, planes, y, width, &mut rgb[at..at + line]);
    }
}

// A full side: a multiple of 8, 8 to 512.
// Kept: `record` has this one line too, and says there why.
fn side(n: u32) -> bool
    ensures { result ≡ side n }
{
    (n % 8 == 0 && 8 <= n) && n <= 512
}

// A picture side: 1 to the full one.
fn within(most: u32, n: u32) -> bool
    ensures { result ≡ within most n }
{
    1 <= n && n <= most
}

// The full sides, the picture's sides and the channel count.
#[derive(Clone, Copy)]
struct Shape {
    w: u32,
    h: u32,
    width: u32,
    height: u32,
    channels: u32,
}

impl Shape {
    // That of a legal sheet.
    fn is_legal(self) -> bool
        ensures { result ≡ legal self.w self.h self.width self.height self.channels }
    {
        side(self.w)
            && side(self.h)
            && within(self.w, self.width)
            && within(self.h, self.height)
            && (self.channels == 1 || self.channels == 3)
    }

    // Planes and bytes of the exact lengths.
    fn is_fitting(self, values: usize, bytes: usize) -> bool
        requires { legal self.w self.h self.width self.height self.channels ≡ true }
        ensures { result ≡ fitting self.w self.h self.width self.height self.channels values bytes }
    {
        values == self.channels as usize * (self.w as usize * self.h as usize)
            && bytes == 3 * (self.width as usize * self.height as usize)
    }
}

// The picture's bytes, pixel by pixel from the top left, made of the lent planes, which are only read.
// Rules out: 57 for green at planes 0, 0, 100, which is 56.586 before it is truncated, and 56 where the nearest is asked for; the second row
// of a narrower picture taken from place `width` of the planes instead of place `w`; bytes changed, or 8 given, where the channel count is 2; 128.5 rounded to 128, or 0.49999997 to 1, where the nearest is asked for.
// Kept: C lends the five numbers one by one, and `program` has them as fields of a header; a `Shape` handed in would only move its making to both callers.
pub fn finish(
    rounding: Rounding,
    w: u32,
    h: u32,
    width: u32,
    height: u32,
    channels: u32,
    planes: &[f32],
    rgb: &mut [u8],
) -> Result<(), Refusal>
    ensures made { record { answer = verdict result; bytes = rgb.new }
        ≡ finishing rounding w h width height channels planes.now rgb.old }
    ensures nearest_up { ShadesAreNearest }
    ensures unchanged { OnErr result (rgb.new ≡ rgb.old) }
{
    let shape = Shape {
        w,
        h,
        width,
        height,
        channels,
    };
    if !shape.is_legal() {
        return Err(Refusal::Record);
    }
    if !shape.is_fitting(planes.len(), rgb.len()) {
        return Err(Refusal::Length);
    }
    let solved = Planes {
        values: planes,
        channels,
        w: w as usize,
        h: h as usize,
    };
    rows(rounding, solved, width as usize, height as usize, rgb);
    Ok(())
}
