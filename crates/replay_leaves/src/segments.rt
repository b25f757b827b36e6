// The calls for DQT segments: a line's words are `import` or `export`, the answer's number, the length of the tables, bytes in one word, and the tables.
// Import: the segment, and the tables afterwards; before, all are 77. Export: the output afterwards, before it is 77, and the tables.
ghost use Rattle.std.specs.Prelude.{◌≤◌};

use refusal::answer_number;
use words::low_half;
use words::running::{bytes, from_word, number_at, read, same_values, word};

// Word 2 as the length of the tables, at most 256.
fn length_of(line: &[u8]) -> usize
    ensures { result ≤ 256 }
{
    (number_at(line, 2) % 257) as usize
}

// Whether the line has the answer and the tables that the proved import gives.
pub fn same_import(line: &[u8]) -> bool {
    let mut segment = [0u8; 1024];
    let mut tables = [77u16; 256];
    let n = bytes(word(line, 3), &mut segment);
    let m = length_of(line);
    let answer = dqt::import(&segment[..n], &mut tables[..m]);
    answer_number(answer) == number_at(line, 1)
        && same_values(from_word(line, 4), &tables[..m], |x, n| x == low_half(n))
}

// The same of the proved export, and the bytes that it is to write.
pub fn same_export(line: &[u8]) -> bool {
    let mut after = [0u8; 512];
    let mut out = [77u8; 512];
    let mut tables = [0u16; 256];
    let n = bytes(word(line, 3), &mut after);
    let m = length_of(line);
    read(from_word(line, 4), &mut tables[..m], low_half);
    let answer = dqt::export(&tables[..m], &mut out[..n]);
    answer_number(answer) == number_at(line, 1) && out[..n] == after[..n]
}
