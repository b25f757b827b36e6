// One call of any job, by the job and the channel's number: for the crates that make many calls. The public calls are those of `run`.
#![tactic(auto)]

ghost use Rattle.record.specs.Lent.{levels_in, six_of, SameSix};
ghost use Rattle.record.specs.Model.{turn_of};
ghost use Rattle.numbered.specs.Numbered.{NumberedIs};

use record::lent::{Buffers, Given};
use record::{Accepted, Job, Run};
use refusal::Refusal;
use run::jobs::{blend, data, move_plane, project, push};

// Kept: a switch on the job: each arm lends other buffers, so that a closure for each job would be handed all that any job is lent, and there would be five of them in the place of five arms.
// The call of a job, lent all that any of them is lent. Rules out: another job's call made, and the call of another channel.
pub fn job_value(
    run: &mut Run,
    job: Job,
    c: u32,
    given: Given,
    lent: &mut Buffers,
) -> Result<Accepted, Refusal>
    ensures is { NumberedIs run.old (turn_of job) c (levels_in given.entry) given.entry.tables.now (six_of lent.old) result run.new (six_of lent.new) }
    ensures same { SameSix lent.old lent.new }
{
    match job {
        Job::Push => push(run, c, &mut *lent.plane, &mut *lent.prior),
        Job::Data => data(run, c, given, &mut *lent.gradient, &mut *lent.saved),
        Job::Blend => blend(
            run,
            &mut *lent.plane,
            &mut *lent.gradient,
            &mut *lent.across,
            &mut *lent.down,
        ),
        Job::Move => move_plane(run, c, &mut *lent.plane, &mut *lent.gradient),
        Job::Project => project(
            run,
            c,
            given,
            &mut *lent.plane,
            &mut *lent.across,
            &mut *lent.down,
            &mut *lent.saved,
        ),
    }
}
