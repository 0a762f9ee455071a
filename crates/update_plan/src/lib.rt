//! What an update would do to a running program, or why it is refused.
#![tactic(auto)]

mod fates;
mod hooks;
mod laws;
mod olds;
mod parts;
mod planning;
mod types;

pub use crate::laws::{
    alike_programs_have_one_plan, fields_stand_inside, matched_bodies_are_code,
    matched_bodies_are_in_use, new_fields_have_addresses, plans_can_be_made,
    plans_replace_the_newest, replaced_functions_have_new_code, retired_code_is_guarded,
    single_changes_are_reported,
};
pub use planning::plan;
pub use types::{AllNeeds, Fences, Hook, Hooks, Plan};
