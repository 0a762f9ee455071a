//! The symbol table of a running program: which addresses a name has, which function an address lies in,
//! which body of a function is the newest, and what the unknowns of an object come to.
#![tactic(auto)]

mod addresses;
mod blocks;
mod bodies;
mod entries;
mod functions;
mod kinds;
mod names;
mod next;
mod symbols;
mod table;
mod values;

pub use addresses::Addresses;
pub use bodies::Bodies;
pub use symbols::{Missing, Symbol};
pub use table::{SymbolTable, only_address};
pub use values::{Solved, Unknown, Values};
