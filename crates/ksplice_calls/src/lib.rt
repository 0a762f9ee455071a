//! A whole call of the program: what its words ask for, the files that it loads, the reply to each command, and the
//! status that it ends with. Beside it the files and the output of the operating system, for a program to hand in.
#![tactic(auto)]

mod answering;
mod comparing;
mod diffing;
mod held;
mod image_code;
mod laws;
mod limits;
mod linking;
mod listing;
mod matching;
mod real;
mod reply_lines;
mod saying;
mod session_run;
mod solution;
mod status;
mod summary;
mod work_run;

pub use crate::answering::ksplice;
pub use crate::laws::{answers_tell, calls_have_one_answer};
pub use crate::real::{RealFiles, RealSink};
pub use crate::status::Status;
