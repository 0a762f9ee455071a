//! What every crate of ksplice stands on: lists that contracts see as lists, names and places in an
//! object, the refusals, and the bytes of one reply.
#![tactic(auto)]

mod fields;
mod list;
mod parts;
mod places;
mod refusal_texts;
mod refusals;
mod reply;
mod reports;

pub use list::ListOf;
pub use places::{Bytes, Name, Names, Range, Ranges, Spot};
pub use refusals::{
    ConflictName, Difference, DifferenceKind, Fault, ImageFault, Large, LinkLimit, Place, Refusal,
    Standing,
};
pub use reply::Line;
pub use reports::{
    Added, AddedList, HookReport, HookRun, HookRuns, Replaced, ReplacedList, Report,
};
