// The f32 operations, and the sums of f64 that the totals are made of: `fma` (the method `mul_add`), `mac` (the macro `mul_add!`), `clamp`, `sqrt`, `pow` (`powi(2)`), `mid` (`f32::midpoint`).
use float::bits::{from_bits, to_bits};
use float::double;
use words::running::number_at;

// Operand k of the line.
fn operand(line: &[u8], k: usize) -> f32 {
    from_bits(number_at(line, k))
}

// Whether the line has the result that the proved operation gives. Its two first letters tell the
// operation, and only the operands that it takes are read.
pub fn same(line: &[u8]) -> bool {
    let a = operand(line, 1);
    let (result, k) = match line {
        [b's', ..] => (float::sqrt(a), 2),
        [b'p', ..] => (float::powi2(a), 2),
        [_, b'i', ..] => (float::midpoint(a, operand(line, 2)), 3),
        [b'f', ..] => (float::mul_add(a, operand(line, 2), operand(line, 3)), 4),
        [b'c', ..] => (float::clamp(a, operand(line, 2), operand(line, 3)), 4),
        _ => (
            float::mul_add_rounded(a, operand(line, 2), operand(line, 3)),
            4,
        ),
    };
    to_bits(result) == number_at(line, k)
}

// Whether the line has the sum of its four products: in f64 from 0, the first and the third fused, the others rounded to f32 before. Words 9 and
// 10 are the halves of the sum's bits.
pub fn same_wide(line: &[u8]) -> bool {
    let t = double::mul_add(operand(line, 1), operand(line, 2), 0.0);
    let u = double::add_product(t, operand(line, 3), operand(line, 4));
    let v = double::mul_add(operand(line, 5), operand(line, 6), u);
    let w = double::add_product(v, operand(line, 7), operand(line, 8));
    let bits = double::to_bits(w);
    bits / 4294967296 == u64::from(number_at(line, 9))
        && bits % 4294967296 == u64::from(number_at(line, 10))
}
