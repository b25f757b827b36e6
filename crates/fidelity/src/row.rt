// What a block adds to a row of eight values of the gradient.
ghost use Rattle.std.specs.Prelude.{◌≡◌, ℕ, ◌+◌, ◌<◌, ◌≤◌, length, slice_set, true};
ghost use Rattle.std.specs.Float.Ieee.{eq, ne};
ghost use Rattle.fold.specs.Fold.{upto};
ghost use Rattle.float.specs.Names.{f0, val};
ghost use Rattle.float.specs.Ops.{fused};
ghost use Rattle.utils.specs.Lanes.{eight};

use std::simd::prelude::*;

// Whether all eight are 0, of either sign.
fn are_zero(g: f32x8) -> bool
    requires { length g ≡ 8 }
    ensures { result ≡ true → (j : ℕ) → j < 8 → eq (val g j) f0 ≡ true }
{
    g.simd_eq(f32x8::splat(0.0)).to_bitmask() == 0xff
}

// alpha * v + g, rounded once, where g is 0: the product alone, unless v is 0 too.
fn products(alpha: f32, v: f32x8, g: f32x8) -> f32x8
    requires some { ne alpha f0 ≡ true }
    requires given { length v ≡ 8 }
    requires held { length g ≡ 8 }
    requires zero { (j : ℕ) → j < 8 → eq (val g j) f0 ≡ true }
    ensures { result ≡ eight (λ j. fused alpha (val v j) (val g j)) }
{
    let p = f32x8::splat(alpha) * v;
    v.simd_eq(f32x8::splat(0.0)).select(p + g, p)
}

// alpha times the eight values of v is added, one by one.
fn add_each(row: &mut [f32], v: &[f32], alpha: f32)
    requires held { length row.old ≡ 8 }
    requires given { length v.now ≡ 8 }
    ensures { row.new ≡ eight (λ j. fused alpha (val v.now j) (val row.old j)) }
{
    for (j, x) in row.iter_mut().enumerate() {
        *x = wide::mul_add(alpha, v[j], *x);
    }
}

// alpha times the eight values of v is added, each product and sum rounded once. Mostly the row
// is 0 still.
fn add_row(row: &mut [f32], v: &[f32], alpha: f32)
    requires held { length row.old ≡ 8 }
    requires given { length v.now ≡ 8 }
    ensures { row.new ≡ eight (λ j. fused alpha (val v.now j) (val row.old j)) }
{
    let g = f32x8::from_slice(row);
    if alpha != 0.0 && are_zero(g) {
        products(alpha, f32x8::from_slice(v), g).copy_to_slice(row);
    } else {
        add_each(row, v, alpha);
    }
}

// The same of the row of eight values from `at` on.
pub fn add_at(gradient: &mut [f32], at: usize, v: &[f32], alpha: f32)
    requires room { at + 8 ≤ length gradient.old }
    requires given { length v.now ≡ 8 }
    ensures { gradient.new
        ≡ upto (λ j t. slice_set t (at + j) (fused alpha (val v.now j) (val t (at + j)))) 8
        gradient.old }
{
    add_row(&mut gradient[at..at + 8], v, alpha);
}
