// dct_gradient.rs: the gradient of the distance of the saved coefficients from the quantised ones.
ghost use Rattle.std.specs.Prelude.{◌≡◌, ℕ, ◌+◌, ◌*◌, ◌≤◌, ◌<◌, length, true};
ghost use Rattle.fold.specs.Fold.{upto};
ghost use Rattle.start.specs.Coef.{block_h, block_w, px_count, quant_at};
ghost use Rattle.start.specs.AsCoef.{as_coef};
ghost use Rattle.interval.specs.Interval.{mid};
ghost use Rattle.fidelity.specs.DctGradient.{cosb_at, cosb_of, cosbs_of, spread_block};
ghost use Rattle.fidelity.specs.DctGradient.{data_gradient, dct_gradient};

use crate::difference::difference_at;
use crate::row::add_at;
use interval::Interval;
use start::coef::{Coef, Sample};
use utils::dct::idct8x8;

// A coefficient's difference from half sum × quantiser, over the quantiser's square.
#[tactic(auto, unfolding(crate::specs::DctGradient::cosb_of))]
fn cosb_of(interval: Interval, cosb: f32) -> f32
    ensures { result ≡ cosb_of (mid interval.low interval.high) interval.quantiser cosb }
{
    let quant = f32::from(interval.quantiser);
    wide::mul_add(interval.mid(), -quant, cosb) / float::powi2(quant)
}

// Whether each quantiser has 8 bits, as those of a sheet have.
fn are_bytes(table: &[u16]) -> bool
    ensures { result ≡ true → (j : ℕ) → quant_at table.now j ≤ 255 }
{
    table.iter().all(|q| *q <= 255)
}

// The differences of the values of block i.
fn difference_each(cosbs: &mut [f32; 64], coef: &Coef, i: usize)
    requires { i * 64 + 64 ≤ px_count coef.now.own }
    ensures { cosbs.new
        ≡ upto (cosb_at (as_coef coef.now).middle coef.now.table.now i) 64 cosbs.old }
{
    let scalar = coef.scalar();
    for (j, cosb) in cosbs.iter_mut().enumerate() {
        *cosb = cosb_of(scalar.interval(i, j), *cosb);
    }
}

// The same with quantisers of 8 bits, row by row.
fn difference_by_bytes(cosbs: &mut [f32; 64], coef: &Coef, i: usize)
    requires block { i * 64 + 64 ≤ px_count coef.now.own }
    requires bytes { (j : ℕ) → quant_at coef.now.table.now j ≤ 255 }
    ensures { cosbs.new
        ≡ upto (cosb_at (as_coef coef.now).middle coef.now.table.now i) 64 cosbs.old }
{
    for y in 0..8 {
        let from = y * 8;
        let at = i * 64 + from;
        difference_at(
            cosbs,
            from,
            &coef.lows[at..at + 8],
            &coef.highs[at..at + 8],
            &coef.table[from..from + 8],
        );
    }
}

// Either.
fn difference(cosbs: &mut [f32; 64], coef: &Coef, bytes: bool, i: usize)
    requires block { i * 64 + 64 ≤ px_count coef.now.own }
    requires bytes { bytes ≡ true → (j : ℕ) → quant_at coef.now.table.now j ≤ 255 }
    ensures { cosbs.new
        ≡ upto (cosb_at (as_coef coef.now).middle coef.now.table.now i) 64 cosbs.old }
{
    if bytes {
        difference_by_bytes(cosbs, coef, i);
    } else {
        difference_each(cosbs, coef, i);
    }
}

// A copy of block i of the saved coefficients, differenced and transformed.
fn cosbs_of(cos: &[f32], coef: &Coef, bytes: bool, i: usize) -> [f32; 64]
    requires own { i * 64 + 64 ≤ px_count coef.now.own }
    requires given { i * 64 + 64 ≤ length cos.now }
    requires bytes { bytes ≡ true → (j : ℕ) → quant_at coef.now.table.now j ≤ 255 }
    ensures { result ≡ cosbs_of (as_coef coef.now).middle coef.now.table.now cos.now i }
{
    let mut cosbs = [0.0f32; 64];
    cosbs.copy_from_slice(&cos[i * 64..i * 64 + 64]);
    difference(&mut cosbs, coef, bytes, i);
    idct8x8(&mut cosbs);
    cosbs
}

// v, times alpha, is added at the places of each of the 64 own samples of the block (bx, by), v being that sample's value.
// Kept: with the gradient as a field of a struct, the clause on its length would give way to one that the field is still the slice that was lent.
fn spread_block(
    gradient: &mut [f32],
    coef: &Coef,
    alpha: f32,
    cosbs: &[f32; 64],
    by: usize,
    bx: usize,
)
    requires { (by < block_h coef.now.own) × (bx < block_w coef.now.own)
        × (length gradient.old ≡ coef.now.w * coef.now.h) }
    ensures { gradient.new
        ≡ spread_block coef.now.own coef.now.w alpha cosbs.now by bx gradient.old }
{
    for y in 0..8 {
        for x in 0..8 {
            let v = cosbs[y * 8 + x];
            let sample = Sample {
                coef,
                cy: by * 8 + y,
                cx: bx * 8 + x,
            };
            sample.change(gradient, |g| wide::mul_add(alpha, v, g));
        }
    }
}

// The same where each own sample has one place: row by row.
fn add_block(gradient: &mut [f32], coef: &Coef, alpha: f32, cosbs: &[f32; 64], by: usize, bx: usize)
    requires within { (by < block_h coef.now.own) × (bx < block_w coef.now.own) }
    requires full { length gradient.old ≡ coef.now.w * coef.now.h }
    requires one { (coef.now.own.horizontal ≡ 1) × (coef.now.own.vertical ≡ 1) }
    ensures { gradient.new
        ≡ spread_block coef.now.own coef.now.w alpha cosbs.now by bx gradient.old }
{
    for y in 0..8 {
        let at = (by * 8 + y) * coef.w + bx * 8;
        add_at(gradient, at, &cosbs[y * 8..y * 8 + 8], alpha);
    }
}

// Either, by the factors.
fn place_block(
    gradient: &mut [f32],
    coef: &Coef,
    alpha: f32,
    cosbs: &[f32; 64],
    by: usize,
    bx: usize,
)
    requires { (by < block_h coef.now.own) × (bx < block_w coef.now.own)
        × (length gradient.old ≡ coef.now.w * coef.now.h) }
    ensures { gradient.new
        ≡ spread_block coef.now.own coef.now.w alpha cosbs.now by bx gradient.old }
{
    if coef.own.horizontal == 1 && coef.own.vertical == 1 {
        add_block(gradient, coef, alpha, cosbs, by, bx);
    } else {
        spread_block(gradient, coef, alpha, cosbs, by, bx);
    }
}

// The number of the block (bx, by), whose values lie within the own plane's.
fn block_index(coef: &Coef, by: usize, bx: usize) -> usize
    requires { (by < block_h coef.now.own) × (bx < block_w coef.now.own) }
    ensures { (result ≡ by * block_w coef.now.own + bx) × (result * 64 + 64 ≤ px_count coef.now.own) }
{
    by * (coef.own.width / 8) + bx
}

// alpha times the gradient of the distance is added, block by block. Saved (cos) is only read: the block that is changed is a copy.
// Rules out: the quantiser itself as divisor, and the gradient's earlier values lost.
pub fn dct_gradient(cos: &[f32], gradient: &mut [f32], coef: &Coef, alpha: f32)
    requires { (length cos.now ≡ coef.now.w * coef.now.h) × (length gradient.old ≡ coef.now.w * coef.now.h) }
    ensures { gradient.new ≡ dct_gradient (as_coef coef.now) coef.now.w alpha cos.now gradient.old }
{
    let bytes = are_bytes(coef.table);
    for by in 0..coef.own.height / 8 {
        for bx in 0..coef.own.width / 8 {
            let i = block_index(coef, by, bx);
            let cosbs = cosbs_of(cos, coef, bytes, i);
            place_block(gradient, coef, alpha, &cosbs, by, bx);
        }
    }
}

// Job 2: the gradient zeroed, then the data gradient if the data weight isn't 0.
// Rules out: alpha tested in the weight's place, and saved coefficients changed.
pub fn data(saved: &[f32], gradient: &mut [f32], coef: &Coef, weight: f32)
    requires { (length saved.now ≡ coef.now.w * coef.now.h) × (length gradient.old ≡ coef.now.w * coef.now.h) }
    ensures { gradient.new ≡ data_gradient (as_coef coef.now) coef.now.w coef.now.h weight saved.now }
{
    gradient.fill(0.0);
    if weight != 0.0 {
        dct_gradient(saved, gradient, coef, steps::step::data_alpha(weight));
    }
}
