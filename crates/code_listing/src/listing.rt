//! The lines of a function's instructions, a page at a time.
ghost use Rattle.std.specs.Prelude.{◌≡◌, ◌≤◌, ◌<◌, ◌++◌, [], length, OnErr, IfOk, IfSome};
ghost use Rattle.std.specs.Option.{option_copied};
ghost use Rattle.ks_base.specs.Gives.{Gives};
ghost use Rattle.image_memory.specs.Contents.{piece_range, holding};
ghost use Rattle.image_file.specs.Seen.{contents_of};
ghost use Rattle.code_listing.specs.Listing.{code_of, end_above, end_within};

use crate::code::Code;
use image_file::Image;
use image_memory::{Piece, piece_at};
use ks_base::{Line, Name, Refusal};
use paged_memory::PagedSpace;
use std::alloc::{AllocError, Global};
use std::marker::Model;

/// The lines that are still to come of a function's instructions. A clause sees it as their bytes.
#[derive(Drop)]
pub struct Listing {
    code: Code,
    /// the address of the next line, `None` after the last line
    next: Option<u32>,
}

impl Model for Listing {
    ghost use Rattle.std.specs.Prelude.{ℕ, List};
    ghost use Rattle.code_listing.specs.Listing.{remaining};

    ghost Value = { List ℕ };

    ghost view = { λ l. remaining l.code.contents l.code.end l.next };
}

impl Listing {
    /// Takes the next lines: 65,536 bytes at least, or all that are left. They are none exactly where none is left.
    /// `Err` comes only if memory runs out, and the listing is then as before.
    pub fn next_page(&mut self, alloc: Global) -> Result<Line, AllocError>
        ensures page { IfOk result (λ page. self.old ≡ page ++ self.new) }
        ensures full { IfOk result (λ page. length page < 65536 → self.new ≡ []) }
        ensures end { IfOk result (λ page. page ≡ [] → self.old ≡ []) }
        ensures err { OnErr result (self.new ≡ self.old) }
    {
        let mut page = Line::new(alloc);
        self.next = self.code.put_lines(self.next, &mut page)?;
        Ok(page)
    }
}

/// The instructions of the function of a name in an image: a line for each, with its address, its length and its bytes,
/// from the function's address on, while they begin below the next symbol's address and in the function's region; and a
/// line for the address after them, or for the one at which no instruction stands.
///
/// [`Refusal::NoSymbol`] comes exactly where no function symbol has the name, [`Refusal::TwoNames`] exactly where
/// several addresses do, and [`Refusal::Memory`] only if memory runs out.
#[tactic(auto, unfolding(crate::specs::Listing::code_of))]
pub fn list_code(alloc: Global, image: Image, name: &Name) -> Result<Listing, Refusal>
    ensures { Gives (λ lines. lines) result (code_of (contents_of image) name.now) }
{
    let address = image.symbols.function_named(name)?;
    let end = end_above(&image, address);
    let memory = PagedSpace::new(alloc, image.pieces)?;
    Ok(Listing {
        code: Code::new(memory, end),
        next: Some(address),
    })
}

/// Where the listing of the function at an address ends.
fn end_above(image: &Image, address: u32) -> u32
    ensures { result ≡ end_above (contents_of image.now) address }
{
    let Some(region) = region_at(image, address) else {
        return 0;
    };
    end_within(region, image.symbols.next_address(address))
}

/// The region that has a byte at an address. It is found by halving.
fn region_at(image: &Image, address: u32) -> Option<&Piece>
    ensures region { option_copied result ≡ holding image.now.pieces address }
    ensures low { IfSome result (λ region. (piece_range region.now).high ≤ 0xFFFF_0000) }
{
    piece_at(image.pieces.as_slice(), u64::from(address))
}

/// The end of a region, or the address of the next symbol where that is lower.
fn end_within(region: &Piece, next: Option<u32>) -> u32
    requires { (piece_range region.now).high ≤ 0xFFFF_0000 }
    ensures { result ≡ end_within (Some region.now) next }
{
    let high = region.base + region.bytes.len() as u32;
    match next {
        Some(address) => address.min(high),
        None => high,
    }
}
