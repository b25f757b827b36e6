// Solvers that would fool a glance, and that the claim about every list of calls excludes. Each law is the
// contract of a function that has nothing to do; the work is in specs/ and proofs/.
#![tactic(auto)]

ghost use Rattle.std.specs.Prelude.{◌≡◌};
ghost use Rattle.calls.specs.Buffers.{Plane, Gradient, Saved};
ghost use Rattle.calls.specs.Calls.{State, none_yet, plain_answers};
ghost use Rattle.demand.specs.Solver.{jobs};
ghost use Rattle.wrong.specs.Sheet.{low8, in_turn};
ghost use Rattle.wrong.specs.Wrong.{all_said, Accepted, AllAccepted, Refusing, MovesOn, NeverLeaves};

/// The claim says something of the small sheet: start accepts it, and the plain run accepts its ten calls.
// Rules out: a sheet on which every solver would meet the claim.
pub fn small_sheet_law()
    ensures accepted { Accepted }
    ensures all_done { plain_answers jobs low8 in_turn (none_yet low8) ≡ all_said }
{}

/// No solver that meets the claim refuses a call that is in its turn, says early that a channel is blown, or
/// leaves the record where it was.
// Rules out: every job refused; a mark told before there is one; a run that never ends.
pub fn wrong_answers_law()
    ensures none_refused { AllAccepted }
    ensures every_refused { (t : State) → ¬ Refusing t }
    ensures stands_still { MovesOn }
{}

/// No solver that meets the claim hands back the planes or the coefficients of the start, nor does all steps
/// in the first job.
// Rules out: a picture that is not smoothed; the Rust's whole loop run in one call.
pub fn wrong_planes_law()
    ensures unmoved { NeverLeaves Plane 10 0 }
    ensures dequantised { NeverLeaves Saved 10 0 }
    ensures at_once { NeverLeaves Plane 1 10 }
{}

/// No solver that meets the claim counts a position up without its job, whichever of the five it is.
// Rules out: a job of the second step left out.
pub fn skipped_jobs_law()
    ensures push { NeverLeaves Plane 6 5 }
    ensures fidelity { NeverLeaves Gradient 7 6 }
    ensures blend { NeverLeaves Gradient 8 7 }
    ensures shift { NeverLeaves Plane 9 8 }
    ensures project { NeverLeaves Plane 10 9 }
{}
