// The jobs over the six buffers, as definitions, with their laws, which are contracts of a function that has
// nothing to do. The code of the jobs is in steps, gradients, start, fidelity and projection.
#![tactic(auto)]

ghost use Rattle.work.specs.Laws.{LengthsKept, IntervalsKept, HeldLeft, FewClipped};

/// The jobs keep the lengths of the six buffers and the intervals of the saved coefficients, blend leaves a held
/// channel as it is, and project clips no more coefficients than there are.
// Rules out: a job that leaves a buffer longer; a coefficient outside its interval that no overflow explains;
// a held channel blended.
pub fn jobs_law()
    ensures lengths { LengthsKept }
    ensures intervals { IntervalsKept }
    ensures held_left { HeldLeft }
    ensures few_clipped { FewClipped }
{}
