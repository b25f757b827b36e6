// The solver's jobs as the model has them, and the claim about every list of calls of them. The laws are
// contracts of functions that have nothing to do; the work is in specs/ and proofs/.
#![tactic(auto)]

ghost use Rattle.calls.specs.Demand.{MeetsDemand3};
ghost use Rattle.calls.specs.Laws.{Laws};
ghost use Rattle.demand.specs.Solver.{jobs};

/// Every list of calls on a fresh run answers as the plain run does and leaves what the recursion fixes
/// for each channel's count, with each saved coefficient of a channel that is not marked in its interval.
// Rules out: a job that reads another channel's levels, tables or ends; a call accepted out of its turn;
// a buffer that depends on the order of the calls.
pub fn call_lists_agree()
    ensures plain_run { MeetsDemand3 jobs }
    ensures arithmetic { Laws jobs }
{}
