//! The instructions of one function of an image, as the lines that show them.
#![tactic(auto)]

mod code;
mod laws;
mod lines;
mod listing;

pub use laws::lines_follow_one_another;
pub use listing::{Listing, list_code};
