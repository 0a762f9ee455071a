//! The running program in which functions are looked for.
use image_memory::Space;
use std::marker::Model;
use symbol_table::{Bodies, SymbolTable};

/// A running program as it is searched for functions: its memory, its symbols, and the newest base of each home that
/// has one.
#[derive(Drop)]
pub struct Running<'r, S: Space> {
    /// The newest bases.
    pub bodies: &'r Bodies,
    /// The memory.
    pub space: &'r S,
    /// The symbols.
    pub table: &'r SymbolTable,
}

impl<'r, S: Space> Model for Running<'r, S> {
    ghost use Rattle.match_candidates.specs.Candidates.{Running};

    ghost Value = { Running };

    ghost view = { λ r.
        record { contents = S.contents r.space.now; symbols = r.table.now.symbols; bodies = r.bodies.now } };
}
