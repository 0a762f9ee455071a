//! The code of an object beside what an image has at an address.
ghost use Rattle.std.specs.Prelude.{◌≡◌};
ghost use Rattle.i386_reloc.specs.Classes.{is_code_class};
ghost use Rattle.i386_reloc.specs.Reaches.{is_in};

use i386_reloc::{Normal, read_sections};
use image_file::read_image;
use image_memory::{Kind, Piece, Pieces, are_placed};
use ks_base::{Bytes, Line, Name, Range, Refusal};
use paged_memory::PagedSpace;
use run_pre_match::{MatchFault, Matched, match_body};
use std::alloc::{AllocError, Global};

/// A stack as it is at first.
fn stack_piece(alloc: Global, stack: Range) -> Result<Piece, AllocError> {
    let mut bytes = Vec::new(alloc);
    bytes.resize(stack.high.saturating_sub(stack.low) as usize, 0)?;
    Ok(Piece {
        kind: Kind::Writable,
        base: stack.low,
        bytes: Bytes::from_vec(bytes),
    })
}

/// Regions with the pieces of stacks among them, by their bases.
fn all_pieces(alloc: Global, regions: Pieces, stacks: &[Range]) -> Result<Pieces, AllocError> {
    let mut pieces = regions.into_vec();
    for stack in stacks {
        let at = pieces
            .as_slice()
            .partition_point(|piece| piece.base < stack.low);
        pieces.insert(at, stack_piece(alloc, *stack)?)?;
    }
    Ok(Pieces::from_vec(pieces))
}

/// Whether there is a code section of a name.
fn has_code(normal: &Normal<'_>, name: &Name) -> bool
    ensures { result ≡ is_in is_code_class normal.now name.now }
{
    match normal.find(name.as_slice()) {
        Some(section) => section.class.is_code(),
        None => false,
    }
}

/// A fault as what is refused of a section.
fn refusal_of(alloc: Global, section: &Name, fault: MatchFault) -> Refusal {
    let Ok(name) = Name::from_slice(alloc, section.as_slice()) else {
        return Refusal::Memory;
    };
    match fault {
        MatchFault::Differs(difference) => Refusal::Mismatch(name, difference),
        MatchFault::Undecoded(offset) => Refusal::PreUndecoded(name, offset),
        MatchFault::Memory => Refusal::Memory,
    }
}

/// What comes of a code section whose home and base is an address; `None` where no code section has the name.
fn compared<'a>(
    alloc: Global,
    object: &'a [u8],
    image: &[u8],
    section: &Name,
    address: u32,
) -> Result<Option<Matched<'a>>, Refusal> {
    let normal = read_sections(alloc, object)?;
    let image = read_image(alloc, image)?;
    let table = image.symbols;
    let pieces = all_pieces(alloc, image.pieces, image.stacks.as_slice())?;
    if !has_code(&normal, section) || !are_placed(&pieces) {
        return Ok(None);
    }
    let space = PagedSpace::new(alloc, pieces)?;
    match match_body(alloc, &normal, section, &space, &table, address, address) {
        Ok(matched) => Ok(Some(matched)),
        Err(fault) => Err(refusal_of(alloc, section, fault)),
    }
}

fn put_matched(line: &mut Line, matched: &Matched<'_>) -> Result<(), AllocError> {
    line.put_text("ok ")?;
    line.put_number(u64::from(matched.length))?;
    line.put_text(" ")?;
    line.put_number(matched.claims.len() as u64)?;
    line.put_text(" ")?;
    line.put_number(matched.interiors.len() as u64)?;
    line.put_text("\n")
}

/// The line of what comes of the section of a name in an object file, whose home and base is an address of an image
/// file: `ok` with length, claims and interiors, or what is refused of object, image or match.
pub fn line_of(
    alloc: Global,
    object: &[u8],
    image: &[u8],
    section: &str,
    address: u32,
) -> Result<Line, AllocError> {
    let section = Name::from_slice(alloc, section.as_bytes())?;
    let mut line = Line::new(alloc);
    match compared(alloc, object, image, &section, address) {
        Ok(Some(matched)) => put_matched(&mut line, &matched)?,
        Ok(None) => line.put_text("no code section\n")?,
        Err(Refusal::Memory) => line.put_text("memory\n")?,
        Err(refusal) => line.put_refusal(&refusal)?,
    }
    Ok(line)
}
