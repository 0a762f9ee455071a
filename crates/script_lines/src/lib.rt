//! The script of a session: its lines, read into a list of commands.
#![tactic(auto)]

mod forms;
mod lines;
mod numbers;
mod reading;
mod texts;
mod types;

pub use numbers::decimal;
pub use reading::read_script;
pub use texts::text_of;
pub use types::{Command, Script};
