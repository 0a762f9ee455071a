//! The memory of the running program in pages of 4,096 bytes, which are found by halving.
#![tactic(auto)]

mod blocks;
mod closing;
mod extents;
mod guesses;
mod opening;
mod paged;
mod pages;
mod room;
mod search;
mod steps;
mod table;
mod types;

pub use paged::PagedSpace;
pub use steps::Steps;
