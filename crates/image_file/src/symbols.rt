//! The symbols.
ghost use Rattle.std.specs.Prelude.{◌≡◌, ◌≤◌, ◌+◌, ◌*◌, ◌<◌, ◌^◌, ◌==◌, IfOk, IsTrue, if◌then◌else◌, length, []};
ghost use Rattle.std.specs.Option.{option_map};
ghost use Rattle.std.specs.List.{All, list_any};
ghost use Rattle.image_memory.specs.Contents.{ArePlaced, holding};
ghost use Rattle.image_memory.specs.Access.{kind_of};
ghost use Rattle.ks_base.specs.Gives.{Gives};
ghost use Rattle.image_file.specs.Fields.{field, items_at};
ghost use Rattle.image_file.specs.Rules.{fits_region, symbol_kind_rules, binding_rules};
ghost use Rattle.image_file.specs.Rules.{name_length_rules, name_rules, is_zero};
ghost use Rattle.image_file.specs.Keeps.{all_hold, keeps_symbol};
ghost use Rattle.image_file.specs.Reading.{name_at, symbol_among, symbol_at, symbol_width};

use crate::numbers::{content_of, number_of, plain_of};
use image_memory::{Kind, Piece, piece_at};
use ks_base::{ImageFault, Name, Refusal};
use std::alloc::Global;
use symbol_table::{Symbol, SymbolTable};

/// A name has at most so many bytes.
const NAME_LIMIT: u32 = 4096;

/// The number of a function symbol.
pub(crate) const FUNCTION: u32 = 1;

/// The number of a data symbol.
pub(crate) const DATA: u32 = 2;

/// The number of a local symbol.
pub(crate) const LOCAL: u32 = 0;

/// The number of a global symbol.
pub(crate) const GLOBAL: u32 = 1;

/// The symbols of a file from an offset on, and the offset after them.
pub(crate) fn symbols_of(
    alloc: Global,
    bytes: &[u8],
    pieces: &[Piece],
    count: u32,
    first: u32,
) -> Result<(SymbolTable, u32), Refusal>
    requires count { count ≤ 65536 }
    requires place { first ≤ 17000000 }
    requires placed { ArePlaced pieces.now }
    ensures exact { Gives (λ x. (x.0.symbols, x.1)) result
        (items_at count (symbol_at bytes.now pieces.now) symbol_width [] first) }
    ensures within { IfOk result (λ x. x.1 ≤ first + 4112 * count) }
    ensures count { IfOk result (λ x. length x.0.symbols ≡ count) }
    ensures kept { IfOk result (λ x. All (λ symbol. IsTrue (keeps_symbol pieces.now symbol)) x.0.symbols) }
{
    let mut symbols = Vec::new(alloc);
    let mut offset = first;
    for _ in 0..count {
        let symbol = symbol_of(alloc, bytes, pieces, offset)?;
        offset += 16 + symbol.name.len() as u32;
        symbols.reserve(1)?;
        symbols.push_reserved(symbol);
    }
    Ok((SymbolTable::from_symbols(alloc, symbols)?, offset))
}

/// The symbol at an offset.
#[tactic(auto, unfolding(crate::specs::Reading::symbol_among))]
fn symbol_of(alloc: Global, bytes: &[u8], pieces: &[Piece], offset: u32) -> Result<Symbol, Refusal>
    requires place { offset ≤ 300000000 }
    requires placed { ArePlaced pieces.now }
    ensures exact { Gives (λ symbol. symbol) result (symbol_among bytes.now pieces.now offset) }
    ensures short { IfOk result (λ symbol. length symbol.name ≤ 4096) }
    ensures kept { IfOk result (λ symbol. IsTrue (keeps_symbol pieces.now symbol)) }
{
    let address = plain_of(bytes, offset)?;
    let kind = kind_number_of(bytes, offset + 4, pieces, address)?;
    let binding = binding_of(bytes, offset + 8)?;
    let length = name_length_of(bytes, offset + 12)?;
    let name = name_of(alloc, bytes, offset + 16, length)?;
    Ok(Symbol {
        address,
        function: kind == FUNCTION,
        global: binding == GLOBAL,
        name,
    })
}

fn kind_number_of(bytes: &[u8], offset: u32, pieces: &[Piece], address: u32) -> Result<u32, Refusal>
    requires place { offset < 2 ^ 31 }
    requires placed { ArePlaced pieces.now }
    ensures exact { Gives (λ n. n) result (field bytes.now offset (symbol_kind_rules pieces.now address)) }
    ensures kept { IfOk result (λ n. IsTrue (all_hold (symbol_kind_rules pieces.now address n))) }
    ensures known { IfOk result (λ n. n ≡ (if n == 1 then 1 else 2)) }
{
    let number = number_of(bytes, offset)?;
    if number < 1 || number > 2 {
        return Err(Refusal::BadImage(offset, ImageFault::Kind));
    }
    if !fits_region(number, kind_at(pieces, address)) {
        return Err(Refusal::BadImage(offset, ImageFault::Range));
    }
    Ok(number)
}

/// Whether a symbol of a kind may lie in a region of a kind, or in none.
fn fits_region(number: u32, region: Option<Kind>) -> bool
    ensures { result ≡ fits_region number region }
{
    match region {
        None => false,
        Some(Kind::Code) => number == FUNCTION,
        Some(_) => number != FUNCTION,
    }
}

/// The kind of the piece that has a byte at an address.
fn kind_at(pieces: &[Piece], address: u32) -> Option<Kind>
    requires { ArePlaced pieces.now }
    ensures { result ≡ option_map kind_of (holding pieces.now address) }
{
    let piece = piece_at(pieces, u64::from(address))?;
    Some(piece.kind)
}

fn binding_of(bytes: &[u8], offset: u32) -> Result<u32, Refusal>
    requires { offset < 2 ^ 31 }
    ensures { Gives (λ n. n) result (field bytes.now offset binding_rules) }
{
    let binding = number_of(bytes, offset)?;
    if binding > 1 {
        return Err(Refusal::BadImage(offset, ImageFault::Kind));
    }
    Ok(binding)
}

fn name_length_of(bytes: &[u8], offset: u32) -> Result<u32, Refusal>
    requires { offset < 2 ^ 31 }
    ensures exact { Gives (λ n. n) result (field bytes.now offset name_length_rules) }
    ensures short { IfOk result (λ n. n ≤ 4096) }
    ensures kept { IfOk result (λ n. IsTrue (all_hold (name_length_rules n))) }
{
    let length = number_of(bytes, offset)?;
    if length > NAME_LIMIT {
        return Err(Refusal::BadImage(offset, ImageFault::Limit));
    }
    if length < 1 {
        return Err(Refusal::BadImage(offset, ImageFault::Name));
    }
    Ok(length)
}

fn has_zero(name: &[u8]) -> bool
    ensures { result ≡ list_any is_zero name.now }
{
    name.iter().any(|byte| *byte == 0)
}

fn name_of(alloc: Global, bytes: &[u8], offset: u32, count: u32) -> Result<Name, Refusal>
    requires { offset + count < 2 ^ 32 }
    ensures exact { Gives (λ name. name) result (name_at bytes.now offset count) }
    ensures long { IfOk result (λ name. length name ≡ count) }
    ensures kept { IfOk result (λ name. IsTrue (all_hold (name_rules name))) }
{
    let name = content_of(bytes, offset, count)?;
    if has_zero(name) {
        return Err(Refusal::BadImage(offset, ImageFault::Name));
    }
    Ok(Name::from_slice(alloc, name)?)
}
