//! An update of one function that is made in three separate writes while threads run, and is accepted as a whole at the
//! first of them.
#![tactic(auto)]

mod changes;
mod laws;
mod live;

pub use crate::laws::{
    first_writes_open_one_home, later_writes_change_their_bytes, machines_go_on, systems_stay_live,
};
pub use live::LiveSystem;
