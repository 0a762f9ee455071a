//! The running system: a program whose functions can be replaced while it runs, seen as an abstract machine whose code
//! is never patched.
#![tactic(auto)]

mod accepted;
mod carrying;
mod covering;
mod hooked;
mod laws;
mod live;
mod planned;
mod scratch;
mod system;
mod taking_back;
mod uncovered;
mod updates;
mod withdrawing;

pub use crate::accepted::{accepted_updates_lie_on_top, retired_code_is_not_met};
pub use crate::hooked::hooks_are_updates;
pub use crate::laws::{
    accepted_code_is_reached, open_homes_lead_on, phases_leave_views, reached_code_stays,
    steps_keep_plans, steps_stand, steps_stand_in, threads_leave_code, updates_can_be_made,
};
pub use crate::planned::Planned;
pub use crate::scratch::scratch_comes_and_goes;
pub use crate::taking_back::{machines_are_built, undo_restores};
pub use crate::uncovered::uncovered_updates_can_go;
pub use system::System;
pub use updates::{HookEnd, Update, Updates};
