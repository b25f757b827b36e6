// f32 values and their bit patterns, every NaN being one.
ghost use Rattle.std.specs.Prelude.{◌≡◌, from_bits, to_bits};
ghost use Rattle.std.specs.Float.{binary32};

// Kept: this and `to_bits`: std's methods of these names say nothing of a NaN, and its functions that do, `std::num::f32_from_bits_with_nan` and `f32_to_bits_with_nan`, would say the width at each caller; `contents`, which uses no crate, calls one itself.
/// The value with these bits; each pattern of a NaN gives the NaN.
// Rules out: an infinity for a NaN's pattern; +0 for the bits of -0.
pub fn from_bits(bits: u32) -> f32
    ensures { result ≡ from_bits binary32 bits }
{
    std::num::f32_from_bits_with_nan(bits)
}

/// The bits of x; 7fc00000 for the NaN.
// Rules out: the bits of +0 for -0; a NaN's bits for an infinity.
pub fn to_bits(x: f32) -> u32
    ensures { result ≡ to_bits binary32 x }
{
    std::num::f32_to_bits_with_nan(x)
}
