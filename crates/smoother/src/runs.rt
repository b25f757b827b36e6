// The public calls on a run as C functions. Each is lent the record, and answers a number: 0 for done, the table's number for a refusal, and 255
// for done with the channel now marked blown. A record whose letter's number is neither 0 nor 1 is 13, before anything else.
ghost use Rattle.std.specs.Prelude.{◌≡◌, ℕ, List, length};
ghost use Rattle.start.specs.Coef.{Levels, pairs};
ghost use Rattle.record.specs.Model.{answer_of};
ghost use Rattle.serve.specs.Serve.{byte_of};
ghost use Rattle.smoother.specs.OneByOne.{CallsNeverBlow, MildCallsNeverBlow, OneByOneServed};
ghost use Rattle.smoother.specs.Numbers.{run_from, lent_from, pair_in, room_refusal, NeverBlowsNumbers, StartNumbers, PushNumbers, DataNumbers, BlendNumbers, MoveNumbers, ProjectNumbers, ServeNumbers};
ghost use Rattle.refusal.specs.Refusal.{number_of};

use crate::LentRun;
use record::legal::legal;
use record::lent::{Buffers, Given};
use record::{Accepted, Run};
use refusal::Refusal;
use serve::answer_byte;

// How each call below ends: the record goes back, and the answer is told by its number.
fn told(run: &mut LentRun, r: Run, answer: Result<Accepted, Refusal>) -> u32
    ensures { (run.new ≡ lent_from r) × (result ≡ byte_of (answer_of answer)) }
{
    *run = LentRun::from(r);
    u32::from(answer_byte(answer))
}

// Start. Ruled out: a record at positions that are not 0, or marked, afterwards; a prior that is not the plane; the start of m for a letter's number 2 (13).
// Kept: the nine slices stand one by one, here, in `smoother_serve` and in `smoother_solve`: a C function takes no struct of slices.
#[unsafe(no_mangle)]
pub extern "C" fn smoother_start(
    run: &mut LentRun,
    lows: &[i16],
    highs: &[i16],
    tables: &[u16],
    plane: &mut [f32],
    prior: &mut [f32],
    gradient: &mut [f32],
    across: &mut [f32],
    down: &mut [f32],
    saved: &mut [f32],
) -> u32
    ensures { StartNumbers run.old (pairs lows.now highs.now) tables.now
        (record { plane = plane.old; prior = prior.old; gradient = gradient.old; across = across.old; down = down.old; saved = saved.old })
        result run.new
        (record { plane = plane.new; prior = prior.new; gradient = gradient.new; across = across.new; down = down.new; saved = saved.new }) }
{
    let Ok(mut r) = Run::try_from(*run) else {
        return u32::from(Refusal::Record);
    };
    let given = Given {
        lows,
        highs,
        tables,
    };
    let mut lent = Buffers {
        plane,
        prior,
        gradient,
        across,
        down,
        saved,
    };
    let answer = run::jobs::start(&mut r, given, &mut lent);
    told(run, r, answer)
}

// 1 where no call on the record's run ever answers 255 or 10. Ruled out: 1 for 21 iterations or a third data weight of 2; 0 for 20 iterations and weights of
// exactly 1; a record that is not as it was.
#[unsafe(no_mangle)]
pub extern "C" fn smoother_never_blows(run: &mut LentRun) -> u32
    ensures tells { NeverBlowsNumbers run.old result run.new }
    ensures calls { result ≡ 1 → CallsNeverBlow (run_from run.old) }
{
    match Run::try_from(*run) {
        Ok(r) => u32::from(mild::never_blows(r)),
        Err(_) => 0,
    }
}

// Push. Ruled out: the record's position counted up where the answer is a refusal; the plane of another channel written.
// Kept: each call has the record in and out around it. Tried: one function that is handed the call as a closure; a proof then knows nothing of what the closure leaves in the
// buffers that it borrows.
#[unsafe(no_mangle)]
pub extern "C" fn smoother_push(
    run: &mut LentRun,
    c: u32,
    plane: &mut [f32],
    prior: &mut [f32],
) -> u32
    ensures { PushNumbers run.old c plane.old prior.old result run.new plane.new prior.new }
{
    let Ok(mut r) = Run::try_from(*run) else {
        return u32::from(Refusal::Record);
    };
    let answer = run::jobs::push(&mut r, c, plane, prior);
    told(run, r, answer)
}

// Data. Ruled out: 9 where the level of another channel is beyond its range (5); a gradient added to what stood there.
#[unsafe(no_mangle)]
pub extern "C" fn smoother_data(
    run: &mut LentRun,
    c: u32,
    lows: &[i16],
    highs: &[i16],
    tables: &[u16],
    gradient: &mut [f32],
    saved: &[f32],
) -> u32
    ensures { DataNumbers run.old c (pairs lows.now highs.now) tables.now gradient.old saved.now result run.new gradient.new }
{
    let Ok(mut r) = Run::try_from(*run) else {
        return u32::from(Refusal::Record);
    };
    let given = Given {
        lows,
        highs,
        tables,
    };
    let answer = run::jobs::data(&mut r, c, given, gradient, saved);
    told(run, r, answer)
}

// What blend refuses where not two places are lent for its totals.
fn room_refusal(run: LentRun) -> Refusal
    ensures { number_of result ≡ room_refusal run }
{
    match Run::try_from(run) {
        Ok(r) if legal(r) => Refusal::Length,
        _ => Refusal::Record,
    }
}

// Both totals of a blend's answer, into two places.
fn put_pair(a: Result<Accepted, Refusal>, totals: &mut [f64])
    requires { length totals.old ≡ 2 }
    ensures { totals.new ≡ pair_in (answer_of a) totals.old }
{
    if let Ok(Accepted::Blended { tv, tgv }) = a {
        rounds::put_two(tv, tgv, totals);
    }
}

// Blend. `totals` has two places, else 8. Ruled out: done where a channel's data is still to come; the position of the first channel alone counted up; totals
// stored by a refusal.
#[unsafe(no_mangle)]
pub extern "C" fn smoother_blend(
    run: &mut LentRun,
    plane: &[f32],
    gradient: &mut [f32],
    across: &mut [f32],
    down: &mut [f32],
    totals: &mut [f64],
) -> u32
    ensures { BlendNumbers run.old plane.now gradient.old across.old down.old totals.old
        result run.new gradient.new across.new down.new totals.new }
{
    if totals.len() != 2 {
        return u32::from(room_refusal(*run));
    }
    let Ok(mut r) = Run::try_from(*run) else {
        return u32::from(Refusal::Record);
    };
    let answer = run::jobs::blend(&mut r, plane, gradient, across, down);
    put_pair(answer, totals);
    told(run, r, answer)
}

// Move. Ruled out: a plane moved twice by two calls in a row; 11 given before the last step's project.
// Kept: as `smoother_push`.
#[unsafe(no_mangle)]
pub extern "C" fn smoother_move(
    run: &mut LentRun,
    c: u32,
    plane: &mut [f32],
    gradient: &[f32],
) -> u32
    ensures { MoveNumbers run.old c plane.old gradient.now result run.new plane.new }
{
    let Ok(mut r) = Run::try_from(*run) else {
        return u32::from(Refusal::Record);
    };
    let answer = run::jobs::move_plane(&mut r, c, plane, gradient);
    told(run, r, answer)
}

// Project. Ruled out: 255 for a plane that was blown before, in a step of another channel; a mark with the answer 0.
#[unsafe(no_mangle)]
pub extern "C" fn smoother_project(
    run: &mut LentRun,
    c: u32,
    lows: &[i16],
    highs: &[i16],
    tables: &[u16],
    plane: &mut [f32],
    across: &mut [f32],
    down: &mut [f32],
    saved: &mut [f32],
) -> u32
    ensures { ProjectNumbers run.old c (pairs lows.now highs.now) tables.now plane.old across.old down.old saved.old
        result run.new plane.new across.new down.new saved.new }
{
    let Ok(mut r) = Run::try_from(*run) else {
        return u32::from(Refusal::Record);
    };
    let given = Given {
        lows,
        highs,
        tables,
    };
    let answer = run::jobs::project(&mut r, c, given, plane, across, down, saved);
    told(run, r, answer)
}

// A fresh run, and then a list of calls, each by its job's number (0 push to 4 project) and a channel. Ruled out: all steps done in the first job;
// the answer of a call given for the one before.
#[unsafe(no_mangle)]
pub extern "C" fn smoother_serve(
    run: &mut LentRun,
    jobs: &[u8],
    channels: &[u32],
    answers: &mut [u8],
    lows: &[i16],
    highs: &[i16],
    tables: &[u16],
    plane: &mut [f32],
    prior: &mut [f32],
    gradient: &mut [f32],
    across: &mut [f32],
    down: &mut [f32],
    saved: &mut [f32],
) -> u32
    ensures { ServeNumbers run.old jobs.now channels.now answers.old (pairs lows.now highs.now) tables.now
        (record { plane = plane.old; prior = prior.old; gradient = gradient.old; across = across.old; down = down.old; saved = saved.old })
        result run.new answers.new
        (record { plane = plane.new; prior = prior.new; gradient = gradient.new; across = across.new; down = down.new; saved = saved.new }) }
{
    let Ok(mut r) = Run::try_from(*run) else {
        return u32::from(Refusal::Record);
    };
    let given = Given {
        lows,
        highs,
        tables,
    };
    let mut lent = Buffers {
        plane,
        prior,
        gradient,
        across,
        down,
        saved,
    };
    let answer = serve::serve(&mut r, jobs, channels, answers, given, &mut lent);
    told(run, r, answer)
}

/// The exported calls made one by one after a start that answers 0, each with what the one before
/// left: their answers are the plain run's, with both totals of a blend in its two places and the
/// number that a project clipped in the record. With at most 20 iterations and weights of at most 1
/// none answers 255 or 10.
// Rules out: a project's number that is not the record's; a blend without its totals.
pub fn one_by_one_law()
    ensures served { (levels : Levels) (tables : List ℕ) → OneByOneServed levels tables }
    ensures mild { MildCallsNeverBlow }
{}
