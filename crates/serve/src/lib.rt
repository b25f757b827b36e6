// A list of calls on a fresh run, whose contract is demand 3 of document 01.
#![tactic(auto)]

mod lists;

ghost use Rattle.record.specs.Lent.{levels_in, six_of, SameSix};
ghost use Rattle.serve.specs.Serve.{ServeIs};
ghost use Rattle.serve.specs.Made.{MadeServed, ProjectKeeps};

pub use crate::lists::{BLOWN, answer_byte};
use record::lent::{Buffers, Given};
use record::{Accepted, Run};
use refusal::Refusal;

// Kept: jobs, channels and answers are three slices, as C lends them, for the reason at `Given` of `record`.
// A fresh run of the record, and then the calls of the two lists of numbers, one after the other; their answers as bytes.
// Rules out: all steps done in the first job, and a position counted up without its job.
pub fn serve(
    run: &mut Run,
    jobs: &[u8],
    channels: &[u32],
    answers: &mut [u8],
    given: Given,
    lent: &mut Buffers,
) -> Result<Accepted, Refusal>
    ensures is { ServeIs run.old jobs.now channels.now answers.old (levels_in given.entry) given.entry.tables.now
        (six_of lent.old) result run.new answers.new (six_of lent.new) }
    ensures same { SameSix lent.old lent.new }
{
    lists::serve_refusal(
        *run,
        jobs,
        channels.len(),
        answers.len(),
        &lent.lengths(),
        given,
    )?;
    run::jobs::start(run, given, lent)?;
    lists::make_calls(run, jobs, channels, answers, given, lent);
    Ok(Accepted::Done)
}

/// Calls made one by one after a start that is accepted, each with what the one before left, leave
/// what a list of them leaves, and their whole answers are the plain run's: a blend's with both its
/// totals, and a project's with the number that it clipped, which the record then keeps.
// Rules out: a project's number that is not the record's; a blend without its totals.
pub fn one_by_one_law()
    ensures served { MadeServed }
    ensures kept { ProjectKeeps }
{}
