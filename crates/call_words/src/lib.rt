//! What the words of a call ask for.
#![tactic(auto)]

mod command;
mod forms;
mod reading;

pub use command::Command;
pub use reading::read_words;
