//! Small objects, small memories and their symbols, and what comes of matching as text.

use elf32_object::read_object;
use i386_reloc::{Normal, normalise};
use image_memory::{FlatSpace, Kind, Piece, Pieces, Space, are_placed};
use ks_base::{Bytes, Line, Name, Range, Refusal};
use run_pre_match::{BorrowedSpot, Claim, Interior, MatchFault, Matched};
use std::alloc::{AllocError, Global};
use std::test::Fail;
use symbol_table::{Symbol, SymbolTable, Unknown};

/// The address at which most of the code begins.
pub(crate) const HOME: u32 = 0x0010_0000;

pub(crate) const CODE: Kind = Kind::Code;

pub(crate) const CONSTANT: Kind = Kind::ReadOnly;

pub(crate) const VARIABLE: Kind = Kind::Writable;

/// A piece of memory: its kind, its base and its bytes.
pub(crate) type Part<'a> = (Kind, u32, &'a [u8]);

/// A symbol: its name, whether it is global, and its address.
pub(crate) type Listed = (&'static str, bool, u32);

/// A retired range, and whether its low is a spliced home.
pub(crate) type Retired = Option<(u32, u32, bool)>;

fn pieces_of(alloc: Global, parts: &[Part<'_>]) -> Result<Pieces, AllocError> {
    let mut pieces = Pieces::new(alloc);
    for (kind, base, bytes) in parts {
        pieces.push(Piece {
            kind: *kind,
            base: *base,
            bytes: Bytes::from_slice(alloc, bytes)?,
        })?;
    }
    Ok(pieces)
}

/// The memory with its retired range.
pub(crate) fn space_of(
    alloc: Global,
    parts: &[Part<'_>],
    retired: Retired,
) -> Result<FlatSpace, Fail> {
    let pieces = pieces_of(alloc, parts)?;
    if !are_placed(&pieces) {
        return Err(Fail::from("pieces"));
    }
    let mut space = FlatSpace::new(alloc, pieces)?;
    if let Some((low, high, jump)) = retired {
        space.reserve(&Pieces::new(alloc), 1)?;
        if low < high {
            space.fence(Range { low, high }, jump);
        }
    }
    Ok(space)
}

/// The table of the symbols, each of a function.
pub(crate) fn table_of(alloc: Global, listed: &[Listed]) -> Result<SymbolTable, AllocError> {
    let mut symbols = Vec::new(alloc);
    for (name, global, address) in listed {
        symbols.push(Symbol {
            address: *address,
            function: true,
            global: *global,
            name: Name::from_slice(alloc, name.as_bytes())?,
        })?;
    }
    SymbolTable::from_symbols(alloc, symbols)
}

/// The sections of the object of these.
pub(crate) fn normal_of(alloc: Global, file: &[u8]) -> Result<Normal<'_>, Fail> {
    let object = read_object(alloc, file).ok().ok_or("not read")?;
    Ok(normalise(alloc, &object).ok().ok_or("no sections")?)
}

fn put_spot(alloc: Global, line: &mut Line, place: &BorrowedSpot<'_>) -> Result<(), AllocError> {
    let place = place.owned(alloc)?;
    line.put_text(" at ")?;
    line.put_name(&place.section)?;
    line.put_text("+")?;
    line.put_offset(place.offset)?;
    line.put_text("\n")
}

fn put_claim(alloc: Global, line: &mut Line, claim: &Claim<'_>) -> Result<(), AllocError> {
    let unknown = claim.unknown.owned(alloc)?;
    let (kind, name) = match &unknown {
        Unknown::Code(name) => ("code ", name),
        Unknown::Data(name) => ("data ", name),
        Unknown::Outside(name) => ("outside ", name),
    };
    line.put_text(kind)?;
    line.put_name(name)?;
    line.put_text(" ")?;
    line.put_hex(claim.value)?;
    put_spot(alloc, line, &claim.place)
}

fn put_interior(alloc: Global, line: &mut Line, interior: &Interior<'_>) -> Result<(), AllocError> {
    line.put_text("inside ")?;
    line.put_name(&Name::from_slice(alloc, interior.section.as_slice())?)?;
    line.put_text("+")?;
    line.put_offset(interior.offset)?;
    line.put_text(" ")?;
    line.put_hex(interior.address)?;
    put_spot(alloc, line, &interior.place)
}

fn put_matched(alloc: Global, line: &mut Line, matched: &Matched<'_>) -> Result<(), AllocError> {
    line.put_text("length ")?;
    line.put_number(u64::from(matched.length))?;
    line.put_text("\n")?;
    for claim in matched.claims.as_slice() {
        put_claim(alloc, line, claim)?;
    }
    for interior in matched.interiors.as_slice() {
        put_interior(alloc, line, interior)?;
    }
    Ok(())
}

/// What comes of a section, as text: its length, claims and interiors, or the refusal.
pub(crate) fn put_answer(
    alloc: Global,
    line: &mut Line,
    section: &str,
    answer: &Result<Matched<'_>, MatchFault>,
) -> Result<(), AllocError> {
    let name = Name::from_slice(alloc, section.as_bytes())?;
    match answer {
        Ok(matched) => put_matched(alloc, line, matched),
        Err(MatchFault::Differs(difference)) => {
            line.put_refusal(&Refusal::Mismatch(name, *difference))
        }
        Err(MatchFault::Undecoded(offset)) => {
            line.put_refusal(&Refusal::PreUndecoded(name, *offset))
        }
        Err(MatchFault::Memory) => line.put_text("memory\n"),
    }
}
