//! A session: a program that runs under a script, and the watch over its events.
#![tactic(auto)]

mod answers;
mod files;
mod laws;
mod lines;
mod memory;
mod places;
mod running;
mod session;
mod stepping;
mod types;

pub use crate::laws::{disciplined_runs_are_safe, watch_prints_the_premise};
pub use answers::answer;
pub use files::{OBJECT_LIMIT, write_file_line};
pub use lines::{
    put_applied, put_hooked, put_marked, put_peek, put_sealed, put_spawned, put_stepped,
    put_tailed, put_threads, put_turns, put_undone, put_updates, put_watch,
};
pub use running::run_session;
pub use session::Session;
pub use types::{Answer, SessionEnd};
