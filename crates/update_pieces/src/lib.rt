//! What an update adds to the running program: its pieces of memory and its symbols; and what it reports.
#![tactic(auto)]

mod laws;
mod olds;
mod parts;
mod pieces;
mod reporting;
mod symbols;

pub use crate::laws::{new_pieces_lie_apart, places_are_found, replaced_functions_have_new_text};
pub use crate::parts::{Part, sizes};
pub use crate::pieces::new_pieces;
pub use crate::reporting::report_of;
pub use crate::symbols::{NewSymbols, new_symbols};
pub use extract_post::Role;
