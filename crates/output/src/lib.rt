// The text that the program `smooth` prints, written to a lent output from its place on.
#![tactic(auto)]

ghost use Rattle.std.specs.Prelude.{[], ◌∷◌, ◌+◌, ◌*◌, ◌^◌, ◌≤◌, ◌<◌, ◌≡◌, ◌/◌, length, get_or, OnOk, OnErr};
ghost use Rattle.std.specs.Float.{nan, binary64};
ghost use Rattle.std.specs.Float.Ieee.{to_bits};
ghost use Rattle.refusal.specs.Refusal.{number_of};
ghost use Rattle.digits.specs.Written.{decimal, hex_byte, hex_of, joined, ended};
ghost use Rattle.copying.specs.Parts.{Put};
ghost use Rattle.output.specs.Output.{each, numbers_line, pixel, picture_text, picture_room, picture_answer, total_line, totals_text, totals_answer, clipped_text, clipped_answer, refusal_text, refusal_answer, room, Adds};

use copying::Writer;
use refusal::Refusal;

// A tab and a number.
// Kept: nothing is printed by hand here: it is `put_byte` and `put_decimal` of the `Writer`, whose digits are kept for the reason at `Writer::put_digits`.
fn put_number(n: usize, to: &mut Writer)
    requires { to.old.at + (1 + length (decimal n)) < 2 ^ 64 }
    ensures { Put to.old (9 ∷ decimal n) to.new }
{
    to.put_byte(b'\t');
    to.put_decimal(n);
}

// A letter and two numbers.
// Kept: the letter is the byte that is written; an enum of the letters would be turned into that byte here.
fn put_head(letter: u8, a: usize, b: usize, to: &mut Writer)
    requires { to.old.at + (3 + length (decimal a) + length (decimal b)) < 2 ^ 64 }
    ensures { Put to.old (numbers_line letter a b) to.new }
{
    to.put_byte(letter);
    put_number(a, to);
    put_number(b, to);
}

// The line of a letter and two numbers.
// Kept: the letter is the byte that is written, as in `put_head`.
fn put_numbers(letter: u8, a: usize, b: usize, to: &mut Writer)
    requires { to.old.at + (4 + length (decimal a) + length (decimal b)) < 2 ^ 64 }
    ensures { Put to.old (ended (numbers_line letter a b ∷ [])) to.new }
{
    put_head(letter, a, b, to);
    to.put_byte(b'\n');
}

// A hexadecimal digit, in lower case.
// Kept: the digit is the byte that is written; `char::from_digit` gives an Option of a char, to be unwrapped and turned into that byte.
fn hex_digit(d: u8) -> u8
    requires { d < 16 }
    ensures { result ≡ hex_byte d }
{
    if d < 10 {
        return b'0' + d;
    }
    b'a' - 10 + d
}

// The last k hexadecimal digits of a number.
// Kept: as `Writer::put_digits`; and `hex::encode_to_slice` of the kit writes into a buffer that is just as long, so that both its uses here would need a buffer, an `unwrap` and a `put`.
fn put_hex(k: usize, n: u64, to: &mut Writer)
    requires { to.old.at + k < 2 ^ 64 }
    ensures { Put to.old (hex_of k n) to.new }
{
    if k == 0 {
        return;
    }
    put_hex(k - 1, n / 16, to);
    to.put_byte(hex_digit((n % 16) as u8));
}

// A tab and the sixteen hexadecimal digits of a total's bits.
fn put_total(x: f64, to: &mut Writer)
    requires { to.old.at + 17 < 2 ^ 64 }
    ensures { Put to.old (9 ∷ hex_of 16 (to_bits binary64 x)) to.new }
{
    to.put_byte(b'\t');
    put_hex(16, float::double::to_bits(x), to);
}

// The line of the two totals of step k, which counts from 0.
fn put_step(channel: usize, k: usize, pair: [f64; 2], to: &mut Writer)
    requires { (channel ≤ 9) × (k ≤ 9998) × (to.old.at + 43 < 2 ^ 64) }
    ensures { Put to.old (ended (total_line channel k (get_or pair 0 nan) (get_or pair 1 nan) ∷ [])) to.new }
{
    put_head(b'T', channel, k + 1, to);
    put_total(pair[0], to);
    put_total(pair[1], to);
    to.put_byte(b'\n');
}

// The lines of a run's steps that fit, two totals for each.
fn put_totals(channel: usize, totals: &[f64], to: &mut Writer)
    requires { (channel ≤ 9) × (length totals.now / 2 ≤ 9999) × (length totals.now / 2 * 43 ≤ room to.old) }
    ensures { Put to.old (totals_text channel (length totals.now / 2) totals.now) to.new }
{
    let (pairs, _) = totals.as_chunks::<2>();
    for (k, pair) in pairs.iter().enumerate() {
        put_step(channel, k, *pair, to);
    }
}

// A tab and a pixel: its red, green and blue byte.
fn put_pixel(rgb: [u8; 3], to: &mut Writer)
    requires { to.old.at + 7 < 2 ^ 64 }
    ensures { Put to.old (9 ∷ pixel rgb 0) to.new }
{
    to.put_byte(b'\t');
    put_hex(2, u64::from(rgb[0]), to);
    put_hex(2, u64::from(rgb[1]), to);
    put_hex(2, u64::from(rgb[2]), to);
}

// The line of a row of pixels.
fn put_row(row: &[[u8; 3]], to: &mut Writer)
    requires { to.old.at + (7 * length row.now + 2) < 2 ^ 64 }
    ensures { Put to.old (ended (joined ((82 ∷ []) ∷ each (λ x. pixel (get_or row.now x []) 0) (length row.now)) ∷ [])) to.new }
{
    to.put_byte(b'R');
    for rgb in row {
        put_pixel(*rgb, to);
    }
    to.put_byte(b'\n');
}

// A picture that fits.
fn put_picture(width: usize, height: usize, rgb: &[u8], to: &mut Writer)
    requires { (width ≤ 512) × (height ≤ 512) × (length rgb.now ≡ 3 * (width * height)) × (to.old.at + picture_room width height < 2 ^ 64) }
    ensures { Put to.old (picture_text width height rgb.now) to.new }
{
    put_numbers(b'I', width, height, to);
    let (pixels, _) = rgb.as_chunks::<3>();
    // Kept: `chunks_exact(width)` asks for a width above 0; at width 0 the text still has a line `R` for each row, and `chunks_exact` would give no row.
    for y in 0..height {
        put_row(&pixels[y * width..(y + 1) * width], to);
    }
}

// How many bytes an output has from its place on.
fn room(to: &Writer) -> usize
    ensures { result ≡ room to.now }
{
    to.out.len().saturating_sub(to.at)
}

// Whether a picture is written: its sides, the number of its bytes, and the room that its text has.
fn picture_answer(width: usize, height: usize, bytes: usize, room: usize) -> Result<(), Refusal>
    ensures { result ≡ picture_answer width height bytes room }
{
    if width <= 512 && height <= 512 {
        if bytes == 3 * (width * height) && 10 + height * (7 * width + 2) <= room {
            Ok(())
        } else {
            Err(Refusal::Length)
        }
    } else {
        Err(Refusal::Size)
    }
}

/// Writes the text of a picture. Refuses by 2 a side above 512, and by 8 a number of bytes other
/// than three for each pixel, and an output with less room than any picture of these sides takes.
// Rules out: `ABCDEF` for `abcdef`, or green before red; a row left out, or one that does not end
// with byte 10; a byte before the output's place changed; a part of a text that is refused.
pub fn write_picture(width: u32, height: u32, rgb: &[u8], to: &mut Writer) -> Result<(), Refusal>
    ensures answer { result ≡ picture_answer width height (length rgb.now) (room to.old) }
    ensures writes { OnOk result (Adds to.old (picture_text width height rgb.now) to.new) }
    ensures unchanged { OnErr result (to.new ≡ to.old) }
{
    let w = width as usize;
    let h = height as usize;
    picture_answer(w, h, rgb.len(), room(to))?;
    put_picture(w, h, rgb, to);
    Ok(())
}

// Whether the lines of a run's steps are written: the channel and the steps, the number of totals,
// and the room that the lines have.
fn totals_answer(channel: usize, steps: usize, values: usize, room: usize) -> Result<(), Refusal>
    ensures { result ≡ totals_answer channel steps values room }
{
    if channel > 9 {
        return Err(Refusal::Channel);
    }
    if steps > 9999 {
        return Err(Refusal::Size);
    }
    if values == steps * 2 && steps * 43 <= room {
        Ok(())
    } else {
        Err(Refusal::Length)
    }
}

/// Writes the lines of both totals of each step of a run. `channel` is that of the run's start.
/// Refuses by 12 a channel above 9, by 2 more than 9,999 steps, and by 8 a number of totals other
/// than two for each step, and an output with less room than 43 bytes for each line.
// Rules out: `T` with step 0; the step before the channel; the digits `7FF0000000000000`, or the
// sign of a NaN; the first lines alone where there is no room for all.
pub fn write_totals(
    channel: usize,
    steps: usize,
    totals: &[f64],
    to: &mut Writer,
) -> Result<(), Refusal>
    ensures answer { result ≡ totals_answer channel steps (length totals.now) (room to.old) }
    ensures writes { OnOk result (Adds to.old (totals_text channel steps totals.now) to.new) }
    ensures unchanged { OnErr result (to.new ≡ to.old) }
{
    totals_answer(channel, steps, totals.len(), room(to))?;
    put_totals(channel, totals, to);
    Ok(())
}

// Whether the line of a clipped number is written: the channel, the number, and the line's room.
fn clipped_answer(channel: usize, number: usize, room: usize) -> Result<(), Refusal>
    ensures { result ≡ clipped_answer channel number room }
{
    if channel > 9 {
        return Err(Refusal::Channel);
    }
    if number > 999999 {
        return Err(Refusal::Record);
    }
    if room < 11 {
        return Err(Refusal::Length);
    }
    Ok(())
}

/// Writes the line of a channel's number of clipped coefficients. Refuses by 12 a channel above 9,
/// by 13 a number above 999,999, and by 8 an output with less room than 11 bytes.
// Rules out: the number before the channel; an empty field for 0; a line cut at the output's end.
pub fn write_clipped(channel: usize, number: usize, to: &mut Writer) -> Result<(), Refusal>
    ensures answer { result ≡ clipped_answer channel number (room to.old) }
    ensures writes { OnOk result (Adds to.old (clipped_text channel number) to.new) }
    ensures unchanged { OnErr result (to.new ≡ to.old) }
{
    clipped_answer(channel, number, room(to))?;
    put_numbers(b'K', channel, number, to);
    Ok(())
}

// Whether the text of a refusal at this line is written: the line and the text's room.
fn refusal_answer(line: usize, room: usize) -> Result<(), Refusal>
    ensures { result ≡ refusal_answer line room }
{
    if line > 999999 {
        return Err(Refusal::Size);
    }
    if room < 13 {
        return Err(Refusal::Length);
    }
    Ok(())
}

/// Writes the text of a refusal of a line, or of no line by 0. Refuses by 2 a line above 999,999,
/// and by 8 an output with less room than 13 bytes.
// Rules out: the line before the refusal's number; an empty field for line 0, which is written `0`;
// a number that is not in the table of refusals; the letter alone where the rest has no room.
pub fn write_refusal(refused: Refusal, line: usize, to: &mut Writer) -> Result<(), Refusal>
    ensures answer { result ≡ refusal_answer line (room to.old) }
    ensures writes { OnOk result (Adds to.old (refusal_text (number_of refused) line) to.new) }
    ensures unchanged { OnErr result (to.new ≡ to.old) }
{
    refusal_answer(line, room(to))?;
    put_numbers(b'X', usize::from(refused.number()), line, to);
    Ok(())
}
