// projection.rs: the projection of each block onto its coefficients' intervals.
ghost use Rattle.std.specs.Prelude.{◌≡◌, ◌+◌, ◌*◌, ◌<◌, ◌≤◌, List, length, Float};
ghost use Rattle.float.specs.Names.{float};
ghost use Rattle.start.specs.Coef.{block_count, block_h, block_w, px_count};
ghost use Rattle.start.specs.AsCoef.{as_coef};
ghost use Rattle.fold.specs.Fold.{upto};
ghost use Rattle.utils.specs.Blocks.{on_block, to_blocks};
ghost use Rattle.utils.specs.Dct.{dct8x8};
ghost use Rattle.projection.specs.Projection.{resample, mean_of, split, clamp_block, clamped, keep, back, project_full, project_onto_box, transformed, clipped, clipped_block};
ghost use Rattle.projection.specs.Projection.{FromSheet, clipped_exactly};

use crate::clip::{clamp_row, least_of, most_of};
use fold::copy;
use start::coef::{Coef, Sample};
use utils::blocks::{from_blocks, to_blocks};
use utils::dct::{dct_blocks, idct_blocks};

fn resample(coef: &Coef) -> bool
    ensures { result ≡ resample coef.now.own coef.now.w coef.now.h }
{
    coef.own.width != coef.w || coef.own.height != coef.h
}

// How many places an own sample has, as f32.
fn places(coef: &Coef) -> f32
    ensures { result ≡ float (coef.now.own.horizontal * coef.now.own.vertical) }
{
    std::num::nearest_u32_to_f32((coef.own.horizontal * coef.own.vertical) as u32)
}

// The mean of the places of an own sample: a sum from 0, divided by their number.
fn mean_of(plane: &[f32], sample: Sample) -> f32
    requires { length plane.now ≡ sample.coef.now.w * sample.coef.now.h }
    ensures { result ≡ mean_of sample.entry.coef.now.own sample.entry.coef.now.w plane.now sample.entry.cy sample.entry.cx }
{
    let mut mean = 0.0f32;
    for sy in 0..sample.coef.own.vertical {
        for sx in 0..sample.coef.own.horizontal {
            let k = sample.spot(sy, sx);
            mean += plane[k];
        }
    }
    mean / places(sample.coef)
}

// The mean of each own sample goes to `down`, and the plane keeps the difference; row by row.
fn split(plane: &mut [f32], down: &mut [f32], coef: &Coef)
    requires { (length plane.old ≡ coef.now.w * coef.now.h) × (length down.old ≡ coef.now.w * coef.now.h) }
    ensures { record { plane = plane.new; down = down.new }
        ≡ split coef.now.own coef.now.w (record { plane = plane.old; down = down.old }) }
{
    for cy in 0..coef.own.height {
        for cx in 0..coef.own.width {
            let sample = Sample { coef, cy, cx };
            let mean = mean_of(plane, sample);
            let k = sample.own_px();
            down[k] = mean;
            sample.change(plane, |x| x - mean);
        }
    }
}

// The difference is added back: `down` has the new means.
fn back(plane: &mut [f32], down: &[f32], coef: &Coef)
    requires { (length plane.old ≡ coef.now.w * coef.now.h) × (length down.now ≡ coef.now.w * coef.now.h) }
    ensures { plane.new ≡ back coef.now.own coef.now.w down.now plane.old }
{
    for cy in 0..coef.own.height {
        for cx in 0..coef.own.width {
            let sample = Sample { coef, cy, cx };
            let k = sample.own_px();
            let mean = down[k];
            sample.change(plane, |x| x + mean);
        }
    }
}

// The 64 coefficients of block i, each clamped to its interval. Gives n and, on top of it, how many that moved.
// Rules out: a value at an end that counts.
fn clamp_block(x: &mut [f32], coef: &Coef, i: usize, n: usize) -> usize
    requires { (i * 64 + 64 ≤ px_count coef.now.own) × (i * 64 + 64 ≤ length x.old) × (n ≤ i * 64) }
    ensures { (x.new ≡ clamp_block (as_coef coef.now).levels coef.now.table.now i x.old)
        × (result ≡ clipped_block (as_coef coef.now).levels coef.now.table.now x.old i n) × (result ≤ i * 64 + 64) }
{
    let mut moved = n;
    for y in 0..8 {
        let from = y * 8;
        let at = i * 64 + from;
        let table = &coef.table[from..from + 8];
        let least = least_of(&coef.lows[at..at + 8], table);
        let most = most_of(&coef.highs[at..at + 8], table);
        moved = clamp_row(x, at, least, most, moved);
    }
    moved
}

// The coefficients of every block, clamped. Gives how many that moved.
fn clamped(x: &mut [f32], coef: &Coef) -> usize
    requires { px_count coef.now.own ≤ length x.old }
    ensures { (x.new ≡ clamped (as_coef coef.now) x.old)
        × (result ≡ clipped (as_coef coef.now) (upto (on_block dct8x8) (block_count coef.now.own) x.old)) }
{
    let n = coef.scalar().block_count();
    dct_blocks(&mut x[..n * 64]);
    let mut moved = 0;
    for i in 0..n {
        moved = clamp_block(x, coef, i, moved);
    }
    moved
}

// Blocks of an image in own sides, `plane`, to coefficients, which are clamped and kept, and back. Gives how many were moved.
// Kept: the means of a channel whose own sides are not the full sides stand in `down`, which is then the `plane` here, so the buffers are not fields of one struct.
fn project_full(plane: &mut [f32], across: &mut [f32], saved: &mut [f32], coef: &Coef) -> usize
    requires { (length plane.old ≡ coef.now.w * coef.now.h) × (length across.old ≡ coef.now.w * coef.now.h) × (length saved.old ≡ coef.now.w * coef.now.h) }
    ensures { ((down : List Float) → record { plane = plane.new; across = across.new; down = down; saved = saved.new }
        ≡ project_full (as_coef coef.now)
        (record { plane = plane.old; across = across.old; down = down; saved = saved.old }))
        × (result ≡ clipped (as_coef coef.now)
        (upto (on_block dct8x8) (block_count coef.now.own) (to_blocks coef.now.own.width (block_w coef.now.own) (block_h coef.now.own) plane.old across.old))) }
{
    let width = coef.own.width;
    let height = coef.own.height;
    let bw = width / 8;
    let bh = height / 8;
    let count = coef.px_count();
    to_blocks(plane, across, width, height, bw, bh);
    let moved = clamped(across, coef);
    let own = &mut across[..count];
    copy(own, &mut saved[..count]);
    idct_blocks(own);
    from_blocks(across, plane, width, height, bw, bh);
    moved
}

/// Job 5 on a channel's part of each buffer: with own sides that are not the full sides, the blocks
/// are those of the means. Gives the number of coefficients that it moved: with the levels and
/// quantisers of a sheet, of those that lie outside their exact intervals.
// Rules out: saved taken after the inverse transform; resampling decided by the factors; a number
// that counts values at an end, NaN, or places past the channel's own.
pub fn project_onto_box(
    plane: &mut [f32],
    across: &mut [f32],
    down: &mut [f32],
    saved: &mut [f32],
    coef: &Coef,
) -> usize
    requires { (length plane.old ≡ coef.now.w * coef.now.h) × (length across.old ≡ coef.now.w * coef.now.h)
        × (length down.old ≡ coef.now.w * coef.now.h) × (length saved.old ≡ coef.now.w * coef.now.h) }
    ensures boxed { record {
      plane = plane.new;
      across = across.new;
      down = down.new;
      saved = saved.new;
    }
        ≡ project_onto_box (as_coef coef.now) coef.now.w coef.now.h
        (record { plane = plane.old; across = across.old; down = down.old; saved = saved.old }) }
    ensures counted { result ≡ clipped (as_coef coef.now)
        (transformed (as_coef coef.now) coef.now.w coef.now.h
        (record { plane = plane.old; across = across.old; down = down.old; saved = saved.old })) }
    ensures exact { FromSheet (as_coef coef.now) → result ≡ clipped_exactly (as_coef coef.now)
        (transformed (as_coef coef.now) coef.now.w coef.now.h
        (record { plane = plane.old; across = across.old; down = down.old; saved = saved.old })) }
{
    if !resample(coef) {
        return project_full(plane, across, saved, coef);
    }
    split(plane, down, coef);
    let moved = project_full(down, across, saved, coef);
    back(plane, down, coef);
    moved
}
