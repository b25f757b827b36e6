// Ordinary weights never blow (document 02, M-112): the statement is in specs/Mild.antt and its proof in proofs/Never.antt. `never_blows` tells whether it
// speaks of a record.
#![tactic(auto)]

ghost use Rattle.std.specs.Prelude.{◌≡◌, ◌≤◌};
ghost use Rattle.calls.specs.Run.{every, own};
ghost use Rattle.record.specs.Model.{sheet_of};
ghost use Rattle.demand.specs.Solver.{jobs};
ghost use Rattle.mild.specs.Mild.{light, MildNeverBlows};
ghost use Rattle.mild.specs.Checked.{Tells};

use record::Run;
use record::legal::legal;

// A weight of at most 1.
fn light_ok(w: f32) -> bool
    ensures { result ≡ light w }
{
    w <= 1.0
}

// Every channel's data weight is at most 1.
fn weights_ok(run: Run) -> bool
    requires { run.count ≤ 3 }
    ensures { result ≡ every run.count (λ c. light (own (sheet_of run) c).data_weight) }
{
    run.channels().iter().all(|x| light_ok(x.weight))
}

// Whether the record is legal, has at most 20 iterations and weights of at most 1. Then no call on its runs answers that a channel is blown.
// This rules out true for 21 iterations or a third data weight of 2, and false for 20 iterations and weights of exactly 1.
pub fn never_blows(run: Run) -> bool
    ensures { Tells run result }
{
    legal(run) && ((run.n <= 20) & light_ok(run.smoothing) & weights_ok(run))
}

/// No list of calls on a fresh run with weights of at most 1 and at most 20 iterations marks a channel, answers
/// that one is blown, or refuses a call for one that is.
// Rules out: a blown channel after the twentieth step, from either start, or in a run that holds a channel.
pub fn mild_runs_law()
    ensures { MildNeverBlows jobs }
{}
