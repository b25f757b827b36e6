// What `solve` of scalar/mod.rs and `solver_step` of step.rs do themselves: the step constants, push, and the move along the gradient.
#![tactic(auto)]

pub mod solve;
pub mod step;
