// dct.rs: Ooura's transforms of a block of 8 by 8 values, in the Rust's order.
ghost use Rattle.std.specs.Prelude.{◌≡◌, ◌+◌, ◌*◌, ◌/◌, ◌<◌, ◌≤◌, length};
ghost use Rattle.fold.specs.Fold.{upto};
ghost use Rattle.fold.specs.Part.{splice};
ghost use Rattle.utils.specs.Blocks.{on_block};
ghost use Rattle.utils.specs.Dct.{dct8, dct8x8, idct8, idct8x8, transform8x8};
ghost use Rattle.utils.specs.Lanes.{IsBlock, each_lane, interleaved, joined, rows, transposed};

use std::simd::prelude::*;

const C8_1R: f32 = 0.490_392_640_201_615_224_56;

const C8_1I: f32 = 0.097_545_161_008_064_133_92;

const C8_2R: f32 = 0.461_939_766_255_643_378_06;

const C8_2I: f32 = 0.191_341_716_182_544_885_86;

const C8_3R: f32 = 0.415_734_806_151_272_618_54;

const C8_3I: f32 = 0.277_785_116_509_801_112_37;

const C8_4R: f32 = 0.353_553_390_593_273_762_20;

const W8_4R: f32 = 0.707_106_781_186_547_524_40;

// A block is eight vectors, one for each of its rows. A pass transforms all eight columns at once,
// a lane each, and the rows are the columns of the transposed block.
// The eight rows.
fn load(a: &[f32]) -> [f32x8; 8]
    requires { length a.now ≡ 64 }
    ensures { result ≡ rows a.now }
{
    [
        f32x8::from_slice(&a[0..8]),
        f32x8::from_slice(&a[8..16]),
        f32x8::from_slice(&a[16..24]),
        f32x8::from_slice(&a[24..32]),
        f32x8::from_slice(&a[32..40]),
        f32x8::from_slice(&a[40..48]),
        f32x8::from_slice(&a[48..56]),
        f32x8::from_slice(&a[56..64]),
    ]
}

// A row of a block, the eight values from `at` on.
fn store_row(a: &mut [f32], at: usize, row: f32x8)
    requires room { at + 8 ≤ length a.old }
    requires lanes { length row ≡ 8 }
    ensures { a.new ≡ splice a.old at (at + 8) row }
{
    row.copy_to_slice(&mut a[at..at + 8]);
}

// The rows become those of a block.
fn store(a: &mut [f32], m: [f32x8; 8])
    requires long { length a.old ≡ 64 }
    requires block { IsBlock m }
    ensures { a.new ≡ joined m }
{
    let [m0, m1, m2, m3, m4, m5, m6, m7] = m;
    store_row(a, 0, m0);
    store_row(a, 8, m1);
    store_row(a, 16, m2);
    store_row(a, 24, m3);
    store_row(a, 32, m4);
    store_row(a, 40, m5);
    store_row(a, 48, m6);
    store_row(a, 56, m7);
}

// A round of interleaving: vector i with vector i + 4.
fn interleave(m: [f32x8; 8]) -> [f32x8; 8]
    requires { IsBlock m }
    ensures { result ≡ interleaved m }
{
    let [m0, m1, m2, m3, m4, m5, m6, m7] = m;
    let (a, b) = m0.interleave(m4);
    let (c, d) = m1.interleave(m5);
    let (e, f) = m2.interleave(m6);
    let (g, h) = m3.interleave(m7);
    [a, b, c, d, e, f, g, h]
}

// Rows for columns, by three rounds.
fn transpose(m: [f32x8; 8]) -> [f32x8; 8]
    requires { IsBlock m }
    ensures { result ≡ transposed m }
{
    interleave(interleave(interleave(m)))
}

// What `idct8x8` makes of the eight values of a column or row, in each lane.
fn idct8(a: [f32x8; 8]) -> [f32x8; 8]
    requires { IsBlock a }
    ensures { result ≡ each_lane idct8 a }
{
    let c1r = f32x8::splat(C8_1R);
    let c1i = f32x8::splat(C8_1I);
    let c2r = f32x8::splat(C8_2R);
    let c2i = f32x8::splat(C8_2I);
    let c3r = f32x8::splat(C8_3R);
    let c3i = f32x8::splat(C8_3I);
    let c4r = f32x8::splat(C8_4R);
    let w4r = f32x8::splat(W8_4R);
    let [a0, a1, a2, a3, a4, a5, a6, a7] = a;
    let mut x1r = c1r * a1 + c1i * a7;
    let mut x1i = c1r * a7 + -(c1i * a1);
    let mut x3r = c3r * a3 + c3i * a5;
    let mut x3i = c3r * a5 + -(c3i * a3);
    let mut xr = x1r - x3r;
    let mut xi = x1i + x3i;
    x1r += x3r;
    x3i -= x1i;
    x1i = w4r * (xr + xi);
    x3r = w4r * (xr - xi);
    xr = c2r * a2 + c2i * a6;
    xi = c2r * a6 + -(c2i * a2);
    let mut x0r = c4r * (a0 + a4);
    let mut x0i = c4r * (a0 - a4);
    let x2r = x0r - xr;
    let x2i = x0i - xi;
    x0r += xr;
    x0i += xi;
    [
        x0r + x1r,
        x2i + x3r,
        x0i + x1i,
        x2r + x3i,
        x2r - x3i,
        x0i - x1i,
        x2i - x3r,
        x0r - x1r,
    ]
}

// What `dct8x8` makes of the eight values of a column or row, in each lane.
fn dct8(a: [f32x8; 8]) -> [f32x8; 8]
    requires { IsBlock a }
    ensures { result ≡ each_lane dct8 a }
{
    let c1r = f32x8::splat(C8_1R);
    let c1i = f32x8::splat(C8_1I);
    let c2r = f32x8::splat(C8_2R);
    let c2i = f32x8::splat(C8_2I);
    let c3r = f32x8::splat(C8_3R);
    let c3i = f32x8::splat(C8_3I);
    let c4r = f32x8::splat(C8_4R);
    let w4r = f32x8::splat(W8_4R);
    let [a0, a1, a2, a3, a4, a5, a6, a7] = a;
    let x0r = a0 + a7;
    let mut x1r = a0 - a7;
    let x0i = a2 + a5;
    let mut x1i = a2 - a5;
    let x2r = a4 + a3;
    let mut x3r = a4 - a3;
    let x2i = a6 + a1;
    let mut x3i = a6 - a1;
    let mut xr = x0r + x2r;
    let mut xi = x0i + x2i;
    let r0 = c4r * (xr + xi);
    let r4 = c4r * (xr - xi);
    xr = x0r - x2r;
    xi = x0i - x2i;
    let r2 = c2r * xr + -(c2i * xi);
    let r6 = c2r * xi + c2i * xr;
    xr = w4r * (x1i - x3i);
    x1i = w4r * (x1i + x3i);
    x3i = x1i - x3r;
    x1i += x3r;
    x3r = x1r - xr;
    x1r += xr;
    let r1 = c1r * x1r + -(c1i * x1i);
    let r7 = c1r * x1i + c1i * x1r;
    let r3 = c3r * x3r + -(c3i * x3i);
    let r5 = c3r * x3i + c3i * x3r;
    [r0, r1, r2, r3, r4, r5, r6, r7]
}

/// The inverse transform of the 64 values of a block, in place: of its eight columns, and then of
/// its eight rows.
// Rules out: rows before columns; `mul_add!` rounded once.
pub fn idct8x8(a: &mut [f32])
    requires { length a.old ≡ 64 }
    ensures { a.new ≡ idct8x8 a.old }
{
    let columns = idct8(load(a));
    let rows = transpose(idct8(transpose(columns)));
    store(a, rows);
}

/// The forward transform of the 64 values of a block, in place: of its eight columns, and then of
/// its eight rows.
// Rules out: rows before columns; the inverse transform.
pub fn dct8x8(a: &mut [f32])
    requires { length a.old ≡ 64 }
    ensures { a.new ≡ dct8x8 a.old }
{
    let columns = dct8(load(a));
    let rows = transpose(dct8(transpose(columns)));
    store(a, rows);
}

// The two transforms.
#[derive(Clone, Copy)]
pub enum Transform {
    Forward,
    Inverse,
}

// The transform of the 64 values of a block.
// Kept: a slice with its length, since it is handed the part that starts at 64 times the block
// number; an array of that part would be `as_mut_array().unwrap()` in `transform_block` and twice
// in `probe`, for two other callers that have an array.
pub fn transform8x8(a: &mut [f32], transform: Transform)
    requires { length a.old ≡ 64 }
    ensures { a.new ≡ transform8x8 transform a.old }
{
    match transform {
        Transform::Forward => dct8x8(a),
        Transform::Inverse => idct8x8(a),
    }
}

// The transform of block i, the 64 values from 64 times i on.
// Ruled out: the block after it; and a value of another block changed.
pub fn transform_block(xs: &mut [f32], i: usize, transform: Transform)
    requires { i * 64 + 64 ≤ length xs.old }
    ensures { xs.new ≡ on_block (transform8x8 transform) i xs.old }
{
    transform8x8(&mut xs[i * 64..i * 64 + 64], transform);
}

// The transform of each whole block.
// Ruled out: the first block alone; and a value past the last whole block changed.
#[tactic(auto, using(fold::proofs::Loops::upto_more, fold::proofs::Loops::upto_none))]
pub fn transform_blocks(xs: &mut [f32], transform: Transform)
    ensures { xs.new ≡ upto (on_block (transform8x8 transform)) (length xs.old / 64) xs.old }
{
    for i in 0..xs.len() / 64 {
        transform_block(xs, i, transform);
    }
}

/// The inverse transform of each whole block.
// Rules out: the forward transform; the first block alone; a value past the last whole block
// changed.
pub fn idct_blocks(xs: &mut [f32])
    ensures { xs.new ≡ upto (on_block idct8x8) (length xs.old / 64) xs.old }
{
    transform_blocks(xs, Transform::Inverse);
}

/// The forward transform of each whole block.
// Rules out: the inverse transform; the first block alone; a value past the last whole block
// changed.
pub fn dct_blocks(xs: &mut [f32])
    ensures { xs.new ≡ upto (on_block dct8x8) (length xs.old / 64) xs.old }
{
    transform_blocks(xs, Transform::Forward);
}
