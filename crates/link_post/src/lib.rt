//! Values of what the references of new code go to, places for its sections, their bytes at these places, what these
//! bytes need of the running program, and what is free of an arena.
#![tactic(auto)]

mod arena;
mod arena_laws;
mod blocks;
mod gaps;
mod laws;
mod linking;
mod lookups;
mod placing;
mod resolving;
mod rooms;
mod sections;
mod types;

pub use crate::arena::without_all;
pub use crate::arena_laws::{
    gaps_are_all_that_is_free, gaps_are_free, gaps_of_pieces, order_has_no_say,
};
pub use crate::laws::{
    needed_targets_have_addresses, places_are_lowest, places_keep_the_order, places_lie_apart,
    values_are_found,
};
pub use crate::linking::{linked, needs, put_word, target_address};
pub use crate::lookups::{in_order, solved_as, value_in};
pub use crate::placing::{ascend, place};
pub use crate::resolving::{add_address, resolve_post};
pub use crate::rooms::round_up;
pub use crate::sections::{function_symbol, kind_of_class, variable_symbol};
pub use crate::types::{Need, Needs, Placed, Placement, SectionSize};
