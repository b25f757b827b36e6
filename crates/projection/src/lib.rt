// projection.rs: job 5, project, on a channel's own part of the lent buffers, and the test for a blown channel.
#![tactic(auto)]

pub mod blown;
mod clip;
pub mod projection;
