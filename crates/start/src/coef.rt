// coef.rs: the pixels and the saved coefficients that a channel starts with.
ghost use Rattle.std.specs.Prelude.{◌≡◌, ◌+◌, ◌*◌, ◌<◌, ◌≤◌, Float, length};
ghost use Rattle.start.specs.declared.coef.Reorder.TheVariants.{Once};
ghost use Rattle.start.specs.Coef.{Covers, Eights, EqualLevels, Lent, Placement, pairs};

use fold::copy;
use interval::Interval;
use utils::blocks::{copy8, from_blocks};
use utils::dct::idct_blocks;

// A channel's own sides and its factors.
#[derive(Clone, Copy)]
pub struct Own {
    pub width: usize,
    pub height: usize,
    pub horizontal: usize,
    pub vertical: usize,
}

// When the image is reordered: after each block, as the Rust does, or once after all of them.
#[derive(Clone, Copy, Debug, PartialEq, Eq)]
pub enum Reorder {
    Each,
    Once,
}

// The order of a letter's number: 1 is once, any other number after each block. Rules out: 2 for once, and 0 for once.
// Kept: each number has its order, which `probe_start` promises to C for any number that it is lent; by `TryFrom` it could fail.
impl From<u32> for Reorder {
    ghost use Rattle.start.specs.Coef.{reorder_from};

    ghost from_gives = { λ n r. r ≡ reorder_from n };

    // Kept: two arms, as those of picture's `Rounding`; a trait or a macro over the enums of two would be longer than the impls.
    fn from(n: u32) -> Reorder {
        match n {
            1 => Reorder::Once,
            _ => Reorder::Each,
        }
    }
}

// ScalarCoef: a channel's own sides and factors, its levels and its quantisers.
#[derive(Clone, Copy)]
pub struct ScalarCoef<'a> {
    pub own: Own,
    pub lows: &'a [i16],
    pub highs: &'a [i16],
    pub table: &'a [u16],
    pub ghost eights: { Eights own },
    pub ghost width_most: { own.width ≤ 512 },
    pub ghost lent: { Lent own (pairs lows.now highs.now) table.now },
}

impl ScalarCoef<'_> {
    ghost use Rattle.start.specs.Coef.{block_count, block_h, block_w, dequantise, high_at, image_of, init_dct_target, low_at, px_count, quant_at};
    ghost use Rattle.start.specs.Coef.{held_unit, image_data, transformed};
    ghost use Rattle.start.specs.AsCoef.{scalar};
    ghost use Rattle.utils.specs.Blocks.{from_blocks};

    // The blocks of a channel: 64 values each, as many as its own plane has.
    // Rules out: the blocks of the full plane, and the count of values.
    #[tactic(auto, using(crate::proofs::Cover::blocks_fill))]
    pub fn block_count(&self) -> usize
        ensures { (result ≡ block_count self.now.own) × (result * 64 ≡ px_count self.now.own) }
    {
        self.own.width / 8 * (self.own.height / 8)
    }

    // The interval of coefficient j of block i. Rules out: the quantiser of the block's first place, and the levels of another block.
    pub fn interval(&self, i: usize, j: usize) -> Interval
        requires { (i * 64 + 64 ≤ px_count self.now.own) × (j < 64) }
        ensures { (result.low ≡ low_at (scalar self.now).levels (i * 64 + j)) × (result.high ≡ high_at (scalar self.now).levels (i * 64 + j))
            × (result.quantiser ≡ quant_at self.now.table.now j) }
    {
        let k = i * 64 + j;
        Interval {
            low: self.lows[k],
            high: self.highs[k],
            quantiser: self.table[j],
        }
    }

    // The values of the levels of block i: half sum × quantiser.
    fn dequantise(&self, out: &mut [f32], i: usize)
        requires { (i * 64 + 64 ≤ px_count self.now.own) × (i * 64 + 64 ≤ length out.old) }
        ensures { out.new ≡ dequantise (scalar self.now).middle self.now.table.now i out.old }
    {
        // Kept: tried with `out[i * 64..i * 64 + 64].iter_mut().enumerate()`, and the proof didn't close: the loop's invariant sees that part alone, where the definition goes by the places of all of `out`.
        for j in 0..64 {
            out[i * 64 + j] = self.interval(i, j).dequantised();
        }
    }

    /// The saved coefficients at the start: half sum × quantiser.
    // Rules out: the inverse transform of those values; a value changed past the channel's own.
    pub fn init_dct_target_into(&self, out: &mut [f32])
        requires { px_count self.now.own ≤ length out.old }
        ensures { out.new ≡ init_dct_target (scalar self.now) out.old }
    {
        for i in 0..self.block_count() {
            self.dequantise(out, i);
        }
    }

    // All blocks dequantised and transformed, in block order: each transform is handed the 64
    // values of one block.
    fn transform(&self, image: &mut [f32])
        requires { length image.old ≡ px_count self.now.own }
        ensures { image.new ≡ transformed (scalar self.now) }
    {
        image.fill(0.0);
        self.init_dct_target_into(image);
        idct_blocks(image);
    }

    // The image from block order to raster order. The Rust's clone of the image goes to `scratch`.
    fn reorder(&self, image: &mut [f32], scratch: &mut [f32])
        requires { (length image.old ≡ px_count self.now.own) × (length scratch.old ≡ px_count self.now.own) }
        ensures { image.new ≡ from_blocks self.now.own.width (block_w self.now.own) (block_h self.now.own) image.old image.old }
    {
        let w = self.own.width;
        let h = self.own.height;
        copy(image, scratch);
        from_blocks(scratch, image, w, h, w / 8, h / 8);
    }

    // The unit of `held` where unit u of the image lies, after k reorderings, of which `power`
    // is 8 ^ k % (w - 1).
    // Rules out: the last unit of a stripe turned as the others are, and one of another stripe.
    fn held_unit(&self, u: usize, power: usize) -> usize
        requires within { u * 8 + 8 ≤ px_count self.now.own }
        requires reduced { power < self.now.own.width }
        ensures unit { result ≡ held_unit self.now.own.width power u }
        ensures ends { result * 8 + 8 ≤ px_count self.now.own }
    {
        let w = self.own.width;
        let m = u % w;
        let unit = if m == w - 1 { m } else { m * power % (w - 1) };
        u / w * w + unit
    }

    // The image that is reordered after each block, from all blocks in block order, each of them
    // transformed once: in linear time, since nothing in `held` moves. A block's units are stored
    // where the reorderings after it look for them, and so over those of earlier blocks.
    // Rules out: the blocks placed once, and one reordering more or fewer.
    fn reorder_each(&self, image: &mut [f32], held: &mut [f32])
        requires image_long { length image.old ≡ px_count self.now.own }
        requires held_long { length held.old ≡ px_count self.now.own }
        requires blocks { image.old ≡ transformed (scalar self.now) }
        ensures { image.new ≡ image_data (scalar self.now) }
    {
        held.fill(0.0);
        let mut power = 1;
        for i in 0..self.block_count() {
            for y in 0..8 {
                let u = i * 8 + y;
                let unit = self.held_unit(u, power);
                copy8(image, held, u * 8, unit * 8);
            }
            power = power * 8 % (self.own.width - 1);
        }
        for u in 0..self.block_count() * 8 {
            let unit = self.held_unit(u, power);
            copy8(held, image, unit * 8, u * 8);
        }
    }

    /// The channel's pixels in its own sides. Reordered once, the image has the blocks where T.81
    /// places them; above width 8 one that is reordered after each block has not.
    // Rules out: with `Once` a reordering after each block; none with `Each`; blocks placed column
    // by column; values that `image` held before.
    pub fn image_of(&self, image: &mut [f32], scratch: &mut [f32], reorder: Reorder)
        requires { (length image.old ≡ px_count self.now.own) × (length scratch.old ≡ px_count self.now.own) }
        ensures image { image.new ≡ image_of reorder (scalar self.now) }
        ensures placed { reorder ≡ Once → Placement (scalar self.now) image.new }
        ensures narrow { self.now.own.width ≡ 8 → Placement (scalar self.now) image.new }
    {
        self.transform(image);
        match reorder {
            Reorder::Each => self.reorder_each(image, scratch),
            Reorder::Once => self.reorder(image, scratch),
        }
    }
}

// A `ScalarCoef` with the full sides w and h that it covers.
// Kept: its four fields again: with a `ScalarCoef` inside, each use would be `coef.scalar.own.width`. And a table is a slice, cut from those of all channels, whose length `Lent` says with that of the levels.
#[derive(Clone, Copy)]
pub struct Coef<'a> {
    pub own: Own,
    pub w: usize,
    pub h: usize,
    pub lows: &'a [i16],
    pub highs: &'a [i16],
    pub table: &'a [u16],
    pub ghost covers: { Covers own w h },
    pub ghost lent: { Lent own (pairs lows.now highs.now) table.now },
}

impl Coef<'_> {
    ghost use Rattle.start.specs.Coef.{px_count};
    ghost use Rattle.start.specs.AsCoef.{as_coef, scalar};

    // Without the full sides. Rules out: the lows in the highs' place, and other sides than the own ones.
    #[tactic(auto, using(crate::proofs::Cover::own_narrow))]
    pub fn scalar(&self) -> ScalarCoef<'_>
        ensures { (scalar result ≡ as_coef self.now) × (result.own ≡ self.now.own) }
    {
        ScalarCoef {
            own: self.own,
            lows: self.lows,
            highs: self.highs,
            table: self.table,
        }
    }

    // The values of the own plane, which are no more than those of the full plane.
    // Rules out: the full plane's count, and the count of blocks.
    #[tactic(auto, using(crate::proofs::Cover::own_fits))]
    pub fn px_count(&self) -> usize
        ensures { (result ≡ px_count self.now.own) × (result ≤ self.now.w * self.now.h) }
    {
        self.own.width * self.own.height
    }
}

// The own sample (cx, cy) of a channel.
#[derive(Clone, Copy)]
pub struct Sample<'a, 'b> {
    pub coef: &'a Coef<'b>,
    pub cy: usize,
    pub cx: usize,
    pub ghost within: { (cy < coef.now.own.height) × (cx < coef.now.own.width) },
}

impl Sample<'_, '_> {
    ghost use Rattle.start.specs.Coef.{change, spot};

    // Its place in the own plane. Rules out: its place in the full plane, and columns for rows.
    #[tactic(auto, using(crate::proofs::Cover::own_place))]
    pub fn own_px(&self) -> usize
        ensures { (result ≡ self.now.cy * self.now.coef.now.own.width + self.now.cx) × (result < self.now.coef.now.w * self.now.coef.now.h) }
    {
        self.cy * self.coef.own.width + self.cx
    }

    // The place in the full plane of its subsample (sx, sy). Rules out: the factors exchanged, and rows as wide as the own plane's.
    #[tactic(auto, using(crate::proofs::Cover::within))]
    pub fn spot(&self, sy: usize, sx: usize) -> usize
        requires { (sy < self.now.coef.now.own.vertical) × (sx < self.now.coef.now.own.horizontal) }
        ensures { (result ≡ spot self.now.coef.now.own self.now.coef.now.w self.now.cy self.now.cx sy sx) × (result < self.now.coef.now.w * self.now.coef.now.h) }
    {
        (self.cy * self.coef.own.vertical + sy) * self.coef.w
            + (self.cx * self.coef.own.horizontal + sx)
    }

    // f done to each of its places. Rules out: a place left out or taken twice, and f of another place's value.
    pub fn change<F: Fn(f32) -> f32>(&self, plane: &mut [f32], f: F)
        requires { F.IsAlwaysCallable f × (length plane.old ≡ self.now.coef.now.w * self.now.coef.now.h) }
        ensures { (g : Float → Float) → ((x y : Float) → F.post f x y → y ≡ g x)
            → plane.new ≡ change g self.now.coef.now.own self.now.coef.now.w self.now.cy self.now.cx plane.old }
    {
        for sy in 0..self.coef.own.vertical {
            for sx in 0..self.coef.own.horizontal {
                let k = self.spot(sy, sx);
                plane[k] = f(plane[k]);
            }
        }
    }
}

/// A pair of equal levels is the level itself: with legal levels a channel's coefficients, and so
/// all that the jobs compute of them, are those of a sheet that has one level for each place.
pub fn equal_levels_law()
    ensures { EqualLevels }
{}
