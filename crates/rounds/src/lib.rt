// A run from its start to its last job, in rounds: a round makes one job for every channel.
#![tactic(auto)]

ghost use Rattle.std.specs.Prelude.{◌≡◌, [], ◌∷◌, ◌+◌, ◌*◌, ◌%◌, ◌≤◌, length, OnErr, Ok};
ghost use Rattle.record.specs.Lent.{levels_in, six_of, SameSix};
ghost use Rattle.record.specs.Model.{given_of, clipped_of, turn_of};
ghost use Rattle.rounds.specs.Whole.{loan, run_of, ending_of, Ends, RunIs, RestStays, EndsDone};
ghost use Rattle.rounds.specs.Rounds.{next_of, round_of, turns, RoundAsks, RoundIs, with_pair, RunAsks};

use numbered::job_value;
use record::lent::{Buffers, Given};
use record::{Accepted, Job, Run};
use refusal::Refusal;
use run::jobs::start;

// The jobs of a step, in the order of their turns.
const JOBS: [Job; 5] = [Job::Push, Job::Data, Job::Blend, Job::Move, Job::Project];

// How many calls a round makes: one for each channel, but one for all if the job is blend.
fn turns_of(job: Job, count: u32) -> u32
    ensures { result ≡ turns (turn_of job) count }
{
    match job {
        Job::Blend => 1,
        Job::Push | Job::Data | Job::Move | Job::Project => count,
    }
}

// How a round ends: each channel has had its job, or its blend, with both totals; or a channel is blown.
#[derive(Clone, Copy)]
enum RoundEnd {
    Done,
    Blended { tv: f64, tgv: f64 },
    Blown,
}

/// How a run of all its jobs ends that is not refused: done, or a channel is blown.
#[derive(Clone, Copy)]
pub enum Ran {
    Done,
    Blown,
}

// What an accepted call means for its round: done, so that the next channel is called, or the round's end.
fn round_of(answer: Accepted) -> RoundEnd
    ensures { result ≡ round_of answer }
{
    match answer {
        Accepted::Projected { blown: true, .. } => RoundEnd::Blown,
        Accepted::Done | Accepted::Projected { .. } => RoundEnd::Done,
        Accepted::Blended { tv, tgv } => RoundEnd::Blended { tv, tgv },
    }
}

// The job that is next for every channel. It stops at a channel that is blown.
fn round(run: &mut Run, job: Job, given: Given, lent: &mut Buffers) -> Result<RoundEnd, Refusal>
    requires { RoundAsks run.old (next_of run.old) (levels_in given) given.tables.now (six_of lent.old) × (turn_of job ≡ next_of run.old % 5) }
    ensures is { RoundIs (given_of run.old (levels_in given.entry) given.entry.tables.now) (next_of run.old) result run.new (six_of lent.new) }
    ensures same { SameSix lent.old lent.new }
    ensures rest { RestStays run.old run.new }
{
    for c in 0..turns_of(job, run.count) {
        let answer = job_value(run, job, c, given, lent)?;
        let so_far = round_of(answer);
        let RoundEnd::Done = so_far else {
            return Ok(so_far);
        };
    }
    Ok(RoundEnd::Done)
}

// Both totals of a blend, into two places.
// Kept: a slice with its length: both callers have one, cut from the totals or lent by C, and would turn it into an array by `as_mut_array().unwrap()`.
pub fn put_two(tv: f64, tgv: f64, two: &mut [f64])
    requires { length two.old ≡ 2 }
    ensures { two.new ≡ (tv ∷ tgv ∷ []) }
{
    two.copy_from_slice(&[tv, tgv]);
}

// The totals of step k's blend, if this is its answer, at their places.
// Kept: beside `put_pair` of `smoother`, which has two places of its own and may be handed a refusal; what both share is `put_two`.
// Kept: C lends the totals flat. Of a loop over `totals.chunks_exact_mut(2)` in `all_rounds` the proof would know only that `totals` keeps its length, as in `row` of `picture`,
// where such a loop was tried.
fn put_pair(answer: RoundEnd, k: usize, totals: &mut [f64])
    requires { k * 2 + 2 ≤ length totals.old }
    ensures { totals.new ≡ with_pair (Ok answer) k totals.old }
{
    if let RoundEnd::Blended { tv, tgv } = answer {
        let from = k * 2;
        let to = from + 2;
        put_two(tv, tgv, &mut totals[from..to]);
    }
}

// All rounds of a run that stands at its start: 5N of them. Both totals of each blend are stored, step after step. Leaves the record as it is after them.
fn all_rounds(
    run: &mut Run,
    given: Given,
    lent: &mut Buffers,
    totals: &mut [f64],
) -> Result<Ran, Refusal>
    requires { RunAsks run.old (levels_in given) given.tables.now (six_of lent.old) totals.old }
    ensures is { Ends 0 (run_of (given_of run.old (levels_in given.entry) given.entry.tables.now))
        (loan (six_of lent.old) totals.old) (ending_of result) (clipped_of run.new)
        (loan (six_of lent.new) totals.new) }
    ensures same { SameSix lent.old lent.new }
    ensures rest { RestStays run.old run.new }
    ensures at_end { EndsDone result
        (given_of run.old (levels_in given.entry) given.entry.tables.now) run.new }
{
    for step in 0..run.n as usize {
        for &job in &JOBS {
            let answer = round(run, job, given, lent)?;
            if let RoundEnd::Blown = answer {
                return Ok(Ran::Blown);
            }
            put_pair(answer, step, totals);
        }
    }
    Ok(Ran::Done)
}

// The run of a record, from its start to its last job. Both totals of its N blends are stored, step after step. Leaves the record as it is afterwards,
// with each channel's number of clipped coefficients.
// Rules out: one step too many or too few, so that N = 0 is projected; planes handed back where a channel is blown; a sum over the steps for the
// number that the last one clipped; the totals of the planes after a step for those of the planes that its blend was lent; another width, weight or letter in
// the record afterwards; a channel one job short, or marked, in the record of a run that is done; a record changed by a refusal.
pub fn run_value(
    run: &mut Run,
    given: Given,
    lent: &mut Buffers,
    totals: &mut [f64],
) -> Result<Ran, Refusal>
    requires { length totals.old ≡ run.old.n * 2 }
    ensures is { RunIs run.old (levels_in given.entry) given.entry.tables.now (loan (six_of lent.old) totals.old) result run.new
        (loan (six_of lent.new) totals.new) }
    ensures same { SameSix lent.old lent.new }
    ensures refused { OnErr result (run.new ≡ run.old) }
    ensures rest { RestStays run.old run.new }
    ensures at_end { EndsDone result
        (given_of run.old (levels_in given.entry) given.entry.tables.now) run.new }
{
    start(run, given, lent)?;
    all_rounds(run, given, lent, totals)
}
