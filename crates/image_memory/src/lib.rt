//! The memory of the running program: pieces of code and data, retired ranges of code, and what is
//! read, written and fetched there.
#![tactic(auto)]

mod bytes;
mod changes;
mod flat;
mod laws;
mod lookup;
mod met;
mod parts;
mod placement;
mod ranges;
mod retired;
mod space;
mod spare;
mod types;

pub use bytes::overlay;
pub use changes::{insert_spare, put_piece, ranges_of};
pub use flat::FlatSpace;
pub use laws::pieces_stay_placed;
pub use lookup::piece_at;
pub use met::window_met;
pub use placement::are_placed;
pub use ranges::{meets, sorted};
pub use retired::RetiredRanges;
pub use space::Space;
pub use spare::SpareRanges;
pub use types::{
    Access, END_LIMIT, Fence, JUMP_LENGTH, Kind, Piece, Pieces, WINDOW_LENGTH, Window,
};
