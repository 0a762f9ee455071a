//! Writing an image as the bytes of a file.
ghost use Rattle.std.specs.Prelude.{◌≡◌, ◌<◌, ◌≤◌, ◌^◌, ◌++◌, length, Ok, OnOk, IfOk, if◌then◌else◌};
ghost use Rattle.std.specs.List.{All, flat_map};
ghost use Rattle.image_file.specs.Keeps.{symbol_kind};
ghost use Rattle.image_file.specs.Spelling.{number, kind_number, region_spelling, symbol_spelling};
ghost use Rattle.image_file.specs.Spelling.{stack_spelling, header_spelling, spelling};
ghost use Rattle.image_file.specs.Reading.{image_of};
ghost use Rattle.image_file.specs.Seen.{contents_of};

use crate::bounds::MAGIC;
use crate::laws::written_is_read;
use crate::symbols::{DATA, FUNCTION, GLOBAL, LOCAL};
use crate::types::Image;
use image_memory::{Kind, Piece};
use ks_base::{Bytes, Range};
use std::alloc::{AllocError, Global};
use symbol_table::{Symbol, SymbolTable};

/// The one spelling of an image as the bytes of a file, which are read as that image again. `Err` comes
/// only if memory runs out.
#[tactic(auto, unfolding(crate::specs::Spelling::spelling))]
pub fn write_image(alloc: Global, image: &Image) -> Result<Bytes, AllocError>
    ensures exact { IfOk result (λ bytes. bytes ≡ spelling (contents_of image.now)) }
    ensures read_again { IfOk result (λ bytes. image_of bytes ≡ Ok (contents_of image.now)) }
{
    // Nothing is done here: the law says that what is written is read as the image again.
    written_is_read(image);
    let room = symbols_room(&image.symbols).saturating_add(pieces_room(image.pieces.as_slice()));
    let mut out = Vec::with_capacity(alloc, room)?;
    put_header(&mut out, image)?;
    put_regions(&mut out, image.pieces.as_slice())?;
    put_symbols(&mut out, &image.symbols)?;
    put_stacks(&mut out, image.stacks.as_slice())?;
    Ok(Bytes::from_vec(out))
}

/// Room for the spelling of pieces, and of the header and the stacks that an image may have. It changes no byte.
fn pieces_room(pieces: &[Piece]) -> usize {
    let mut room: usize = 1024;
    for piece in pieces {
        room = room.saturating_add(piece.bytes.len()).saturating_add(12);
    }
    room
}

/// Room for the spelling of symbols.
fn symbols_room(symbols: &SymbolTable) -> usize {
    let mut room: usize = 0;
    for i in 0..symbols.len() {
        if let Some(symbol) = symbols.get(i) {
            room = room.saturating_add(symbol.name.len()).saturating_add(16);
        }
    }
    room
}

fn put_number(out: &mut Vec<u8>, n: u32) -> Result<(), AllocError>
    ensures { OnOk result (out.new.items ≡ out.old.items ++ number n) }
{
    out.extend_from_slice(&n.to_le_bytes())?;
    Ok(())
}

#[tactic(auto, unfolding(crate::specs::Spelling::header_spelling))]
fn put_header(out: &mut Vec<u8>, image: &Image) -> Result<(), AllocError>
    ensures { OnOk result (out.new.items ≡ out.old.items ++ header_spelling (contents_of image.now)) }
{
    put_number(out, MAGIC)?;
    put_number(out, image.pieces.len() as u32)?;
    put_number(out, image.symbols.len() as u32)?;
    put_number(out, image.stacks.len() as u32)?;
    put_number(out, image.arena.low)?;
    put_number(out, image.arena.high)?;
    Ok(())
}

fn kind_number(kind: Kind) -> u32
    ensures { result ≡ kind_number kind }
{
    match kind {
        Kind::Code => 1,
        Kind::ReadOnly => 2,
        Kind::Writable => 3,
    }
}

#[tactic(auto, unfolding(crate::specs::Spelling::region_spelling))]
fn put_region(out: &mut Vec<u8>, piece: &Piece) -> Result<(), AllocError>
    requires { length piece.now.bytes < 2 ^ 32 }
    ensures { OnOk result (out.new.items ≡ out.old.items ++ region_spelling piece.now) }
{
    put_number(out, kind_number(piece.kind))?;
    put_number(out, piece.base)?;
    put_number(out, piece.bytes.len() as u32)?;
    out.extend_from_slice(piece.bytes.as_slice())?;
    Ok(())
}

fn put_regions(out: &mut Vec<u8>, pieces: &[Piece]) -> Result<(), AllocError>
    requires { All (λ piece. length piece.bytes < 2 ^ 32) pieces.now }
    ensures { OnOk result (out.new.items ≡ out.old.items ++ flat_map region_spelling pieces.now) }
{
    for piece in pieces {
        put_region(out, piece)?;
    }
    Ok(())
}

fn symbol_kind(symbol: &Symbol) -> u32
    ensures { result ≡ symbol_kind symbol.now }
{
    if symbol.function { FUNCTION } else { DATA }
}

fn binding_number(global: bool) -> u32
    ensures { result ≡ (if global then 1 else 0) }
{
    if global { GLOBAL } else { LOCAL }
}

#[tactic(auto, unfolding(crate::specs::Spelling::symbol_spelling))]
fn put_symbol(out: &mut Vec<u8>, symbol: &Symbol) -> Result<(), AllocError>
    requires { length symbol.now.name < 2 ^ 32 }
    ensures { OnOk result (out.new.items ≡ out.old.items ++ symbol_spelling symbol.now) }
{
    put_number(out, symbol.address)?;
    put_number(out, symbol_kind(symbol))?;
    put_number(out, binding_number(symbol.global))?;
    put_number(out, symbol.name.len() as u32)?;
    out.extend_from_slice(symbol.name.as_slice())?;
    Ok(())
}

fn put_symbols(out: &mut Vec<u8>, symbols: &SymbolTable) -> Result<(), AllocError>
    requires { All (λ symbol. length symbol.name < 2 ^ 32) symbols.now.symbols }
    ensures { OnOk result (out.new.items ≡ out.old.items ++ flat_map symbol_spelling symbols.now.symbols) }
{
    for i in 0..symbols.len() {
        let Some(symbol) = symbols.get(i) else {
            unreachable!()
        };
        put_symbol(out, symbol)?;
    }
    Ok(())
}

#[tactic(auto, unfolding(crate::specs::Spelling::stack_spelling))]
fn put_stack(out: &mut Vec<u8>, stack: &Range) -> Result<(), AllocError>
    ensures { OnOk result (out.new.items ≡ out.old.items ++ stack_spelling stack.now) }
{
    put_number(out, stack.low)?;
    put_number(out, stack.high)
}

fn put_stacks(out: &mut Vec<u8>, stacks: &[Range]) -> Result<(), AllocError>
    ensures { OnOk result (out.new.items ≡ out.old.items ++ flat_map stack_spelling stacks.now) }
{
    for stack in stacks {
        put_stack(out, stack)?;
    }
    Ok(())
}
