// coef.rs and `Aux::init` of auxiliary.rs: start, on a channel's own part of the lent buffers.
#![tactic(auto)]

pub mod auxiliary;
pub mod coef;
