//! Laws of code in whose fields a linker has put addresses: it is decoded as it was in its object, and matches it.
#![tactic(auto)]

mod decoding;
mod standing;

pub use decoding::fields_decode_alike;
pub use standing::{linked_code_runs_alike, sections_have_blank_fields};
