//! What an image holds.
ghost use Rattle.std.specs.Prelude.{◌≤◌, length, IsTrue};
ghost use Rattle.std.specs.List.{All};
ghost use Rattle.image_memory.specs.Contents.{ArePlaced, ArePlaced-prop, piece_range};
ghost use Rattle.image_memory.specs.Ranges.{Ascends, Ascends-prop};
ghost use Rattle.image_file.specs.Rules.{own_range, total_of};
ghost use Rattle.image_file.specs.Keeps.{keeps_arena, keeps_region, keeps_symbol, keeps_stack};

use image_memory::Pieces;
use ks_base::{Range, Ranges};
use symbol_table::SymbolTable;

/// A program that isn't running yet. Each image keeps the rules of the file format: its counts and sums
/// are within their limits, no two of its regions, stacks and its arena meet, regions and stacks ascend,
/// and each symbol has a name and lies in a region of its kind.
#[derive(Drop)]
pub struct Image {
    /// The regions of memory with their bytes, in ascending order.
    pub pieces: Pieces,
    /// The symbols in the file's order.
    pub symbols: SymbolTable,
    /// The stacks in ascending order; each is writable memory that holds zeros at the start.
    pub stacks: Ranges,
    /// The addresses where new pieces may be placed.
    pub arena: Range,
    pub ghost few_regions: { length pieces ≤ 1024 },
    pub ghost few_symbols: { length symbols.symbols ≤ 65536 },
    pub ghost few_stacks: { length stacks ≤ 64 },
    pub ghost arena_kept: { IsTrue (keeps_arena arena) },
    pub ghost regions_kept: { All (λ piece. IsTrue (keeps_region arena piece)) pieces },
    pub ghost regions_placed: { ArePlaced pieces } by { ArePlaced-prop pieces },
    pub ghost regions_fit: { total_of piece_range pieces ≤ 16777216 },
    pub ghost symbols_kept: { All (λ symbol. IsTrue (keeps_symbol pieces symbol)) symbols.symbols },
    pub ghost stacks_kept: { All (λ stack. IsTrue (keeps_stack arena pieces stack)) stacks },
    pub ghost stacks_ascend: { Ascends own_range 0 stacks } by { Ascends-prop own_range 0 stacks },
    pub ghost stacks_fit: { total_of own_range stacks ≤ 16777216 },
}
