// utils/ of the Rust: transforms of a block, block order and raster order, and the upsampling of a channel; on lent f32 slices.
// Functions of this crate are called by the port alone, which shows what they require.
#![tactic(auto)]

pub mod auxiliary;
pub mod blocks;
pub mod dct;
pub mod wholes;
