// A sheet's record as numbers, in the order of `numbers_of`: what reading lends out, and what the whole run and the picture take back.
#![tactic(auto)]

pub mod reading;
pub mod sheets;
pub mod stitches;

ghost use Rattle.std.specs.Prelude.{◌≡◌};
ghost use Rattle.by_numbers.specs.Sheets.{numbers_of, weight_bits};
ghost use Rattle.by_numbers.specs.Whole.{NumbersSolveSheet};

use contents::{Sheet, Weight, chosen, held_after};

// How many numbers a sheet's record has.
pub const NUMBERS: usize = 32;

// The bits of a weight's f32.
// Kept: two calls that stand together in six places; `f32::to_bits` says nothing of a NaN's bits, and a weight can have any.
fn weight_bits(w: Weight) -> u32
    ensures { result ≡ weight_bits w }
{
    float::bits::to_bits(f32::from(w))
}

// Kept: as `header_from` of sheets.rt: a `From` between an array and `Sheet` can't stand here, since neither is this crate's.
// A sheet's record as numbers; a setting's letter by its meaning: 1 for the second, 0 for the first and for no line.
pub fn numbers(s: Sheet) -> [u32; NUMBERS]
    ensures { result ≡ numbers_of s }
{
    let h = s.header;
    let [a, b, c] = s.channels;
    [
        h.width,
        h.height,
        h.picture_width,
        h.picture_height,
        h.channels,
        u32::from(h.joint),
        h.iterations[0],
        h.iterations[1],
        h.iterations[2],
        weight_bits(h.smoothing[0]),
        weight_bits(h.smoothing[1]),
        weight_bits(h.smoothing[2]),
        weight_bits(h.data_weights[0]),
        weight_bits(h.data_weights[1]),
        weight_bits(h.data_weights[2]),
        a.width,
        a.height,
        a.across,
        a.down,
        b.width,
        b.height,
        b.across,
        b.down,
        c.width,
        c.height,
        c.across,
        c.down,
        chosen(s.settings.rounding, 0, 1),
        chosen(s.settings.start, 0, 1),
        held_after(s, 0),
        held_after(s, 1),
        held_after(s, 2),
    ]
}

/// A sheet's record lent out as numbers and given back: the whole run of the numbers refuses what the
/// sheet's run refuses, and leaves what that leaves.
// Rules out: a weight whose bits are another's; a held count lost; separate mode read back as joint.
pub fn numbers_law()
    ensures { NumbersSolveSheet }
{}
