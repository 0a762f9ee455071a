//! The room for a jump at the home of a first version.
ghost use Rattle.std.specs.Prelude.{◌≡◌, ◌≤◌, ◌<◌, ◌+◌, ◌-◌, ◌^◌, min, length, IfSome};
ghost use Rattle.image_memory.specs.Ranges.{MeetsNone, from_to};
ghost use Rattle.image_memory.specs.Contents.{fence_range};
ghost use Rattle.image_memory.specs.Fetch.{jump_length, view_at};
ghost use Rattle.update_retired.specs.Room.{padding_length, padding_end, room, up_to_symbol};
ghost use Rattle.update_retired.specs.inside.Met.{code_met};

use ia32_decode::{decode, instructions_have_bytes, is_padding};
use image_memory::{JUMP_LENGTH, Space, window_met};
use symbol_table::SymbolTable;

/// How many bytes of code are met at an address, none at a spliced home and in a retired range.
#[tactic(auto, using(crate::proofs::PaddingLaws::none_long, crate::proofs::PaddingLaws::met_long))]
fn length_met<S: Space>(space: &S, address: u32) -> u32
    ensures met { result ≡ length (code_met (view_at (S.contents space.now) address)) }
    ensures low { 0 < result → address < 0xFFFF_0000 }
    ensures short { result ≤ 15 }
{
    match window_met(space, address) {
        Some(window) => window.length,
        None => 0,
    }
}

/// The length of the instruction that is met at an address, where it is padding.
#[tactic(auto, using(crate::proofs::PaddingLaws::none_padded, crate::proofs::PaddingLaws::padded_as))]
fn padding_at<S: Space>(space: &S, address: u32) -> Option<u32>
    ensures length { result ≡ padding_length (view_at (S.contents space.now) address) }
    ensures some { IfSome result (λ n. 0 < n) }
    ensures low { IfSome result (λ n. address + n < 2 ^ 32) }
{
    // Nothing is done here: the law says that no instruction is empty.
    instructions_have_bytes();
    let window = window_met(space, address)?;
    let decoded = decode(&window.bytes[..window.length as usize])?;
    if is_padding(&decoded) {
        Some(decoded.length)
    } else {
        None
    }
}

/// Where the padding ends that begins at an address, or the limit where it goes that far.
fn padding_end<S: Space>(space: &S, begin: u32, limit: u32) -> u32
    ensures { result ≡ min (padding_end (S.contents space.now) (limit - begin) begin) limit }
{
    // Nothing is done here: the law says that no instruction is empty.
    instructions_have_bytes();
    let mut end = begin;
    while end < limit {
        let Some(length) = padding_at(space, end) else {
            return end;
        };
        end += length;
    }
    limit
}

/// The least of an end and of the next symbol's address.
fn up_to_symbol(end: u32, next: Option<u32>) -> u32
    ensures { result ≡ up_to_symbol end next }
{
    match next {
        Some(address) => end.min(address),
        None => end,
    }
}

/// How many of the bytes of a jump have room at the home of a first version, which has so many bytes: those that lie in
/// one code piece, in the body and the padding that directly follows it, and below the next symbol. It takes no memory,
/// and at most five instructions are decoded.
pub fn room_for_jump<S: Space>(space: &S, table: &SymbolTable, home: u32, length: u32) -> u32
    requires fits { home + length < 2 ^ 32 }
    requires in_use { MeetsNone fence_range (from_to home (home + length)) (S.contents space.now).fences }
    ensures { result ≡ min (room (S.contents space.now) table.now.symbols home length) jump_length }
{
    // Nothing is done here: the law says how many bytes an instruction has.
    instructions_have_bytes();
    let met = length_met(space, home).min(JUMP_LENGTH as u32);
    let end = padding_end(space, home + length, home + met);
    up_to_symbol(end, table.next_address(home)).saturating_sub(home)
}
