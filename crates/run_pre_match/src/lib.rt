//! Run-pre matching: whether the code of an object is what runs at an address of a program, and what that says of the
//! addresses of functions, variables and outside names.
#![tactic(auto)]

mod bodies;
mod borrowed;
mod candidate;
mod code;
mod comparing;
mod finding;
mod forms;
mod goals;
mod judging;
mod laws;
mod matching;
mod nth;
mod pair;
mod stating;
mod types;
mod values;
mod widening;

pub use bodies::Body;
pub use borrowed::{BorrowedSpot, BorrowedUnknown, UnknownKind};
pub use code::{PreCode, PreObject, match_body};
pub use laws::{
    agreeing_values_match, alike_memories_match_alike, bodies_lie_in_code, claims_agree,
    claims_stand_at_their_fields, interiors_stand_at_their_fields, matches_have_one_valuation,
    numbers_stand_for_one,
};
pub use types::{Claim, Claims, Interior, Interiors, MatchFault, Matched};
