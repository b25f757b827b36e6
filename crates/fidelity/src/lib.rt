// dct_gradient.rs: job 2, data, on a channel's own part of the lent buffers.
#![tactic(auto)]

pub mod dct_gradient;
mod difference;
mod row;
