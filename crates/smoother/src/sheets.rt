// The whole run of a sheet and its picture as C functions. Both answer 0 for done, or the table's number.
ghost use Rattle.std.specs.Prelude.{◌≡◌, ◌≢◌};
ghost use Rattle.start.specs.Coef.{pairs};
ghost use Rattle.rounds.specs.Whole.{six, loan};
ghost use Rattle.by_numbers.specs.Whole.{letters_ok, SolveNumbers, FinishNumbers};
ghost use Rattle.smoother.specs.Mild.{MildNumbers};

use by_numbers::NUMBERS;
use by_numbers::sheets::{put_clipped, sheet_of};
use picture::Rounding;
use record::lent::{Buffers, Given};
use refusal::{Refusal, answer_number};
use serve::BLOWN;
use solve::Solved;
use solve::modes::all_legal;

// The mode's and line A's letter are there.
fn letters_ok(numbers: &[u32; NUMBERS]) -> bool
    ensures { result ≡ letters_ok numbers.now }
{
    (numbers[5] <= 1) & (numbers[28] <= 1)
}

// The whole run of a sheet, by the numbers that `smoother_read` lends out. 8 for another count of them, 13 for a mode or a letter of line A that is neither 0 nor 1, and
// else what `solve` answers, with 8 also for a buffer `clipped` that has not one place for each channel. Where done, that has each channel's number of clipped
// coefficients, and `totals` both totals of each blend. Ruled out: the planes of separate mode for a record whose mode is 1; 8 for six good buffers where a weight is infinite (13); numbers changed by a
// refusal.
#[unsafe(no_mangle)]
pub extern "C" fn smoother_solve(
    numbers: &[u32],
    lows: &[i16],
    highs: &[i16],
    tables: &[u16],
    plane: &mut [f32],
    prior: &mut [f32],
    gradient: &mut [f32],
    across: &mut [f32],
    down: &mut [f32],
    saved: &mut [f32],
    clipped: &mut [u32],
    totals: &mut [f64],
) -> u32
    ensures solved { SolveNumbers numbers.now (pairs lows.now highs.now) tables.now
        (loan (six plane.old prior.old gradient.old across.old down.old saved.old) totals.old) clipped.old result
        (loan (six plane.new prior.new gradient.new across.new down.new saved.new) totals.new) clipped.new }
    ensures mild { MildNumbers numbers.now → result ≢ 255 }
{
    let Some(numbers) = numbers.as_array::<NUMBERS>() else {
        return u32::from(Refusal::Length);
    };
    if !letters_ok(numbers) {
        return u32::from(Refusal::Record);
    }
    let s = sheet_of(numbers);
    if !all_legal(s) {
        return u32::from(Refusal::Record);
    }
    if clipped.len() != s.header.channels as usize {
        return u32::from(Refusal::Length);
    }
    let given = Given {
        lows,
        highs,
        tables,
    };
    let mut lent = Buffers {
        plane,
        prior,
        gradient,
        across,
        down,
        saved,
    };
    match solve::solve(s, given, &mut lent, totals) {
        Ok(Solved::Done(counts)) => {
            put_clipped(counts, clipped);
            0
        }
        Ok(Solved::Blown) => u32::from(BLOWN),
        Err(e) => u32::from(e),
    }
}

// The picture's bytes of solved planes, which are only read; rounding is 0 for t and 1 for n, else 13. Ruled out: the second row of a picture narrower than the planes taken from the end of the
// first row's part; bytes changed where 8 or 13 is answered; the bytes of t for the rounding 2.
// Kept: the rounding is a number, as C has it.
#[unsafe(no_mangle)]
pub extern "C" fn smoother_finish(
    rounding: u32,
    w: u32,
    h: u32,
    width: u32,
    height: u32,
    channels: u32,
    planes: &[f32],
    rgb: &mut [u8],
) -> u32
    ensures { FinishNumbers rounding w h width height channels planes.now rgb.old result rgb.new }
{
    if 1 < rounding {
        return u32::from(Refusal::Record);
    }
    answer_number(picture::finish(
        Rounding::from(rounding),
        w,
        h,
        width,
        height,
        channels,
        planes,
        rgb,
    ))
}
