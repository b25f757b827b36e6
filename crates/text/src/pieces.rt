// Lines are cut at byte 10, fields at byte 9.
ghost use Rattle.std.specs.Prelude.{◌≡◌, [], length, ◌==◌, position, get_or};
ghost use Rattle.text.specs.Pieces.{before, split};
ghost use Rattle.text.specs.Cursor.{IsLine};

// A line: how many bytes it has, and how many fields.
// Kept: a length and not the line itself: three tests of `sheet::walk` and its cut of what is left need the length; with the line in its place each would be `l.row.len()`, for one cut less there and one in `stitch`.
#[derive(Clone, Copy, Debug, PartialEq, Eq)]
pub struct Line {
    pub length: usize,
    pub fields: usize,
}

// The place of the first byte b.
// Kept: it tells a place, and the function of this shape in `record` whether all are equal; each is one call of the library.
fn first_place(row: &[u8], b: u8) -> Option<usize>
    ensures { result ≡ position (λ x. x == b) row.now }
{
    row.iter().position(|&x| x == b)
}

// What comes before the first byte b; all where there is none.
fn before(rest: &[u8], b: u8) -> &[u8]
    ensures { result.now ≡ before b rest.now }
{
    match first_place(rest, b) {
        Some(n) => &rest[..n],
        None => rest,
    }
}

// How many fields a line has. No turn of this loop depends on a byte, so that it takes many bytes at a time.
// Kept: tried as `1 + filter(..).count()`: reading 512 by 512 then takes 1.85 times the time of the plain Rust, where the bar is 1.5 and this loop takes 1.46.
fn fields_in(line: &[u8]) -> usize
    ensures { result ≡ length (split 9 line.now) }
{
    let mut fields: usize = 1;
    for &b in line {
        fields += usize::from(b == b'\t');
    }
    fields
}

// The first line of a text: it ends before the next byte 10, or with the text.
// Ruled out: a length that counts the byte 10; a field less where a tab ends the line.
pub fn first_line(text: &[u8]) -> Line
    ensures { IsLine text.now result }
{
    let line = before(text, b'\n');
    Line {
        length: line.len(),
        fields: fields_in(line),
    }
}

// The first field of a row: it ends before the next byte 9, or with the row.
// Ruled out: a field with its tab; an empty field where the row has no tab.
pub fn first_field(row: &[u8]) -> &[u8]
    ensures { result.now ≡ before 9 row.now }
{
    before(row, b'\t')
}

// Field i of a row; an empty part where there is none.
// Kept: tried as `row.split(..).nth(i)`, and the proof didn't close: open stayed that the parts of the library's `split` are those of the specification, one by one; it promises how many there are, and its steps.
pub fn field_at(row: &[u8], i: usize) -> &[u8]
    ensures { result.now ≡ get_or (split 9 row.now) i [] }
{
    let mut rest = row;
    for _ in 0..i {
        let n = first_field(rest).len();
        if n == rest.len() {
            return &[];
        }
        rest = &rest[n + 1..];
    }
    first_field(rest)
}
