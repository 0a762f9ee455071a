//! Laws: an object that was linked to an image is found in it where it was placed.
#![tactic(auto)]

mod holding;
mod laws;

pub use holding::places_hold_sections;
pub use laws::{placement_is_answered, placement_is_solution};
