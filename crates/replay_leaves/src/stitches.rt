// The stitching of two texts: a line's words are `stitch`, the refusal's number, text and line (0 where there is none), the length that measuring gives (0 where it refuses),
// and, as bytes in one word each, the left text, the right text, and the output afterwards; before, it is 7.
use stitch::Refused;
use words::running::{bytes, number_at, word};

// Whether word k of the line is this number.
fn is_word(line: &[u8], k: usize, n: usize) -> bool {
    number_at(line, k) as usize == n
}

// Whether the line has this answer: a refusal's number, text and line.
fn answered(line: &[u8], answer: Result<(), Refused>) -> bool {
    let (number, which, at) = match answer {
        Ok(()) => (0, 0, 0),
        Err(refused) => (
            refused.refusal.number(),
            refused.which_number(),
            refused.line,
        ),
    };
    is_word(line, 1, usize::from(number))
        && is_word(line, 2, usize::from(which))
        && is_word(line, 3, at)
}

// Whether the line has what measuring gives, which knows no output and so never 8.
fn same_measured(line: &[u8], left: &[u8], right: &[u8]) -> bool {
    match stitch::measure(left, right) {
        Ok(n) => is_word(line, 4, n) && (is_word(line, 1, 8) || answered(line, Ok(()))),
        Err(refused) => is_word(line, 4, 0) && answered(line, Err(refused)),
    }
}

// Whether the line has what the proved code measures, answers and writes.
pub fn same_line(line: &[u8]) -> bool {
    let mut left = [0u8; 4096];
    let mut right = [0u8; 4096];
    let mut after = [0u8; 8192];
    let mut out = [7u8; 8192];
    let n = bytes(word(line, 5), &mut left);
    let m = bytes(word(line, 6), &mut right);
    let k = bytes(word(line, 7), &mut after);
    same_measured(line, &left[..n], &right[..m])
        && answered(line, stitch::stitch(&left[..n], &right[..m], &mut out[..k]))
        && out[..k] == after[..k]
}
