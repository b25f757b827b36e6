// The whole program as a function: the bytes that `smooth` prints for a text.
#![tactic(auto)]

ghost use Rattle.std.specs.Prelude.{◌≡◌, ℕ, ◌+◌, ◌*◌, ◌≤◌, ◌<◌, false, length, nat_le, if◌then◌else◌, Ok, Err, IfOk, OnErr};
ghost use Rattle.fold.specs.Join.{join_upto};
ghost use Rattle.contents.specs.Sheets.{lent};
ghost use Rattle.record.specs.Lent.{levels_in, six_of};
ghost use Rattle.sheet.specs.Calls.{measuring};
ghost use Rattle.sheet.specs.declared.Lengths.{Lengths};
ghost use Rattle.grammar.specs.Longest.{decisive};
ghost use Rattle.sheet.specs.Reading.Outcome.{Gives};
ghost use Rattle.contents.specs.Legal.{LegalHeader, LegalSheet};
ghost use Rattle.solve.specs.Solve.{blend_count, number_in};
ghost use Rattle.output.specs.Output.{Wrote, Adds, room};
ghost use Rattle.program.specs.Printed.{limits, painted, run_lines, totals_lines, clipped_lines, sheet_text, printed, most_picture, most_totals, most_printed, SixLong, AddsTo};

use contents::{Header, Limits, Reader, Sheet, chosen};
use copying::Writer;
use picture::Rounding;
use record::lent::{Buffers, Given};
use refusal::Refusal;
use sheet::Lengths;
use solve::counts::{blend_count, iterations_at, steps_before};
use solve::{Solved, solve};

// So many bytes of a text decide what is printed for it: `decisive 32`.
const DECISIVE: usize = 39294;
// No text that is printed takes more bytes: `most_printed`.
const MOST_PRINTED: usize = 136269;
// What `smooth` allows: sides to 32, every legal iteration count.
const LIMITS: Limits = Limits {
    side: 32,
    iterations: 1000,
};

// The lines `T` of the runs of separate mode.
fn write_runs(s: Sheet, totals: &[f64], to: &mut Writer)
    requires { LegalHeader limits s.header × (s.header.joint ≡ false) × (length totals.now ≡ blend_count s * 2) × (most_totals ≤ room to.old) }
    ensures { AddsTo most_totals to.old (join_upto (run_lines s totals.now) s.header.channels) to.new }
{
    let h = s.header;
    for c in 0..h.channels {
        let from = steps_before(s, c) * 2;
        let end = steps_before(s, c + 1) * 2;
        let steps = iterations_at(s, c) as usize;
        output::write_totals(c as usize, steps, &totals[from..end], to).unwrap();
    }
}

// The lines `T` of all runs.
fn write_sums(s: Sheet, totals: &[f64], to: &mut Writer)
    requires { LegalHeader limits s.header × (length totals.now ≡ blend_count s * 2) × (most_totals ≤ room to.old) }
    ensures { AddsTo most_totals to.old (totals_lines s totals.now) to.new }
{
    let h = s.header;
    if h.joint {
        return output::write_totals(0, h.iterations[0] as usize, totals, to).unwrap();
    }
    write_runs(s, totals, to)
}

// The lines `K` of n channels.
// Kept: n and three numbers, as `solve` gives them; `number_in`, by which the contract is said, is of those three.
fn write_numbers(n: u32, clipped: [u32; 3], to: &mut Writer)
    requires { (n ≤ 3) × ((c : ℕ) → c < n → number_in clipped c ≤ 1024) × (27 + most_picture ≤ room to.old) }
    ensures { AddsTo 27 to.old (clipped_lines n (number_in clipped)) to.new }
{
    for c in 0..n as usize {
        output::write_clipped(c, clipped[c] as usize, to).unwrap();
    }
}

// The text of the picture of solved planes; rgb is room for its bytes.
fn paint_with(rounding: Rounding, h: Header, planes: &[f32], rgb: &mut [u8], to: &mut Writer)
    requires { LegalHeader limits h × (length planes.now ≡ h.channels * (h.width * h.height)) × (length rgb.old ≡ 3 * (h.picture_width * h.picture_height)) × (most_picture ≤ room to.old) }
    ensures { Adds to.old (painted rounding h planes.now) to.new }
{
    let width = h.picture_width;
    let height = h.picture_height;
    picture::finish(
        rounding, h.width, h.height, width, height, h.channels, planes, rgb,
    )
    .unwrap();
    output::write_picture(width, height, rgb, to).unwrap()
}

// The same, with room of its own.
fn paint(rounding: Rounding, h: Header, planes: &[f32], to: &mut Writer)
    requires { LegalHeader limits h × (length planes.now ≡ h.channels * (h.width * h.height)) × (most_picture ≤ room to.old) }
    ensures { Adds to.old (painted rounding h planes.now) to.new }
{
    let mut rgb = [0u8; 3072];
    let n = 3 * ((h.picture_width as usize) * (h.picture_height as usize));
    paint_with(rounding, h, planes, &mut rgb[0..n], to)
}

// The text of a sheet that was read: its lines `T` and `K` and its picture, or 10. The six and the totals are room for its runs, so that solving
// refuses nothing here.
// Kept: `most_printed` is the room of an output that nothing is written to yet, here and in the four functions up to `smooth_text`. An array of `MOST_PRINTED` bytes
// could say it, but then the three that write each make a `Writer` of it, and all five hand back how far it came; here one `Writer` goes through all.
fn solved_with(s: Sheet, given: Given, six: &mut Buffers, totals: &mut [f64], to: &mut Writer)
    requires { let B = six_of six.old in
        LegalSheet limits s (lent given.lows.now given.highs.now given.tables.now) × SixLong s.header B.plane B.prior B.gradient B.across B.down B.saved
        × (length totals.old ≡ blend_count s * 2) × (most_printed ≤ room to.old) }
    ensures { Adds to.old (sheet_text s (levels_in given.entry) given.entry.tables.now) to.new }
{
    let h = s.header;
    // Line F's letter; without it t holds.
    let rounding = chosen(s.settings.rounding, Rounding::Truncate, Rounding::Nearest);
    let Solved::Done(clipped) = solve(s, given, six, totals).unwrap() else {
        return output::write_refusal(Refusal::Blown, 0, to).unwrap();
    };
    write_sums(s, totals, to);
    write_numbers(h.channels, clipped, to);
    paint(rounding, h, six.plane, to)
}

// The same, with room of its own.
fn solved(s: Sheet, given: Given, to: &mut Writer)
    requires { LegalSheet limits s (lent given.lows.now given.highs.now given.tables.now) × (most_printed ≤ room to.old) }
    ensures { Adds to.old (sheet_text s (levels_in given.entry) given.entry.tables.now) to.new }
{
    let mut plane = [0.0f32; 3072];
    let mut prior = [0.0f32; 3072];
    let mut gradient = [0.0f32; 3072];
    let mut across = [0.0f32; 3072];
    let mut down = [0.0f32; 3072];
    let mut saved = [0.0f32; 3072];
    let mut totals = [0.0f64; 6000];
    let h = s.header;
    let n = (h.channels as usize) * ((h.width as usize) * (h.height as usize));
    let m = blend_count(s) * 2;
    let mut six = Buffers {
        plane: &mut plane[0..n],
        prior: &mut prior[0..n],
        gradient: &mut gradient[0..n],
        across: &mut across[0..n],
        down: &mut down[0..n],
        saved: &mut saved[0..n],
    };
    solved_with(s, given, &mut six, &mut totals[0..m], to)
}

// The text of a sheet, read as staff: lines N change nothing. Lows, highs and tables are room for its levels and tables.
fn read_with(text: &[u8], lows: &mut [i16], highs: &mut [i16], tables: &mut [u16], to: &mut Writer)
    requires { (measuring limits text.now ≡ Gives (record { levels = length lows.old; tables = length tables.old })) × (length highs.old ≡ length lows.old) × (most_printed ≤ room to.old) }
    ensures { Adds to.old (printed text.now) to.new }
{
    match sheet::read(text, LIMITS, Reader::Staff, lows, highs, tables) {
        Ok(s) => {
            let given = Given {
                lows,
                highs,
                tables,
            };
            solved(s, given, to)
        }
        Err(e) => output::write_refusal(e.refusal, e.line, to).unwrap(),
    }
}

// The same, with room of its own for the levels and quantisers.
fn read_and_solve(text: &[u8], lengths: Lengths, to: &mut Writer)
    requires { (measuring limits text.now ≡ Gives lengths) × (most_printed ≤ room to.old) }
    ensures { Adds to.old (printed text.now) to.new }
{
    let mut lows = [0i16; 3072];
    let mut highs = [0i16; 3072];
    let mut tables = [0u16; 192];
    let n = lengths.levels;
    let m = lengths.tables;
    read_with(
        text,
        &mut lows[0..n],
        &mut highs[0..n],
        &mut tables[0..m],
        to,
    )
}

// The text of a refusal, or of a sheet. What is read is short enough that a line's number has few digits.
fn answer(text: &[u8], to: &mut Writer)
    requires { (length text.now ≤ decisive 32) × (most_printed ≤ room to.old) }
    ensures { Adds to.old (printed text.now) to.new }
{
    match sheet::measure(text, LIMITS) {
        Ok(lengths) => read_and_solve(text, lengths, to),
        Err(e) => output::write_refusal(e.refusal, e.line, to).unwrap(),
    }
}

/// Writes what `smooth` prints for a text to the front of `out`, and answers how many bytes that
/// is. Of a long text the first bytes decide. Refuses by 8 an output with less room than any answer
/// may take, whatever this one takes.
// Rules out: a grey picture for every sheet; a refusal for a sheet that keeps every rule; a byte
// changed behind the answer, or before a refusal.
pub fn smooth_text(text: &[u8], out: &mut [u8]) -> Result<usize, Refusal>
    ensures answer { result ≡ (if nat_le most_printed (length out.old)
        then Ok (length (printed text.now)) else Err Refusal.Length) }
    ensures writes { IfOk result (λ n. Wrote 0 (printed text.now) out.old n out.new) }
    ensures unchanged { OnErr result (out.new ≡ out.old) }
{
    if out.len() < MOST_PRINTED {
        return Err(Refusal::Length);
    }
    let mut to = Writer::new(out);
    answer(&text[..DECISIVE.min(text.len())], &mut to);
    Ok(to.at)
}
