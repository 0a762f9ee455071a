//! The image to which objects are linked.
ghost use Rattle.std.specs.Prelude.{◌≡◌, ◌≤◌, length, IfOk, Ok};
ghost use Rattle.ks_base.specs.Gives.{Gives};
ghost use Rattle.image_file.specs.Reading.{image_of};
ghost use Rattle.image_file.specs.Spelling.{spelling};
ghost use Rattle.image_file.specs.Seen.{contents_of};
ghost use Rattle.image_link.specs.Places.{laid_out, total_length};
ghost use Rattle.image_link.specs.Symbols.{all_symbols};
ghost use Rattle.image_link.specs.Refused.{symbol_fault};
ghost use Rattle.image_link.specs.Linked.{global_values, image_of_laid, image_unless, linked_image};
ghost use Rattle.image_link.specs.inside.Linkable.{AreLinkable};

use crate::globals::global_values;
use crate::laid::LaidObject;
use crate::outside::first_missing;
use crate::placing::lay_out;
use crate::regions::regions;
use crate::symbols::{all_symbols, count_symbols};
use i386_reloc::Normal;
use image_file::{Image, written_is_read};
use ks_base::{LinkLimit, ListOf, Range, Ranges, Refusal};
use std::alloc::{AllocError, Global};
use symbol_table::{Symbol, SymbolTable, Values};

/// An image has at most so many symbols.
const MOST_SYMBOLS: usize = 65_536;

/// The addresses where pieces may be placed later.
const ARENA: Range = Range {
    low: 0x0400_0000,
    high: 0x0410_0000,
};

/// The stacks: 0x10000 bytes each.
const STACKS: [Range; 4] = [
    Range {
        low: 0x0500_0000,
        high: 0x0501_0000,
    },
    Range {
        low: 0x0502_0000,
        high: 0x0503_0000,
    },
    Range {
        low: 0x0504_0000,
        high: 0x0505_0000,
    },
    Range {
        low: 0x0506_0000,
        high: 0x0507_0000,
    },
];

/// The image to which objects are linked, in their order.
///
/// Object by object, in the order of the sections, code goes to one region from `0x00100000`, each section at the next
/// multiple of 16 and of its alignment, with bytes `0x90` (NOP) between sections; texts and other constants to one from
/// `0x02000000`, and data that the program may change to one from `0x03000000`, each at the next multiple of 4 and of
/// its alignment, with zeros between. A region ends with its last section, and one to which no section goes isn't
/// there. The field of each reference is filled: with the place of a section of the same object, the address of a
/// text, or the address of the one global symbol of an outside name. The symbols are, in the same order, the function
/// of each code section, and of each other section the variables that begin inside it; those without a name are left
/// out. The arena is `0x04000000` to `0x04100000`, and four stacks of `0x10000` bytes begin at `0x05000000`,
/// `0x05020000`, `0x05040000` and `0x05060000`.
///
/// [`Refusal::LinkTooLarge`] comes with [`LinkLimit::Bytes`] where the lengths of the regions, with what lies between
/// sections, sum to more than 16,777,216 bytes; with [`LinkLimit::Symbols`] where there are more than 65,536 symbols;
/// then [`Refusal::DoubleGlobal`] with the name of the first global symbol whose name an earlier one has; then
/// [`Refusal::Undefined`] with the first outside name, object by object, section by section and by offset, that no
/// global symbol has. [`Refusal::Memory`] comes only if memory runs out. The time grows as n log n in the objects.
#[tactic(auto, unfolding(crate::specs::Linked::linked_image, crate::specs::Refused::link_fault))]
pub fn link_image(alloc: Global, objects: &[Normal<'_>]) -> Result<Image, Refusal>
    ensures answered { Gives contents_of result (linked_image objects.now) }
    ensures read { IfOk result (λ image. image_of (spelling (contents_of image)) ≡ Ok (contents_of image)) }
{
    let Some(laid) = lay_out(alloc, objects)? else {
        return Err(Refusal::LinkTooLarge(LinkLimit::Bytes));
    };
    let image = link_laid(alloc, objects, laid.as_slice())?;
    written_is_read(&image);
    Ok(image)
}

/// The image of objects at their places.
fn link_laid(
    alloc: Global,
    objects: &[Normal<'_>],
    laid: &[LaidObject<'_, '_>],
) -> Result<Image, Refusal>
    requires laid { laid.now ≡ laid_out objects.now }
    requires short { total_length objects.now ≤ 16777216 }
    requires linkable { AreLinkable objects.now }
    ensures { Gives contents_of result
        (image_unless (symbol_fault (all_symbols laid.now) objects.now) (image_of_laid laid.now)) }
{
    if count_symbols(laid) > MOST_SYMBOLS {
        return Err(Refusal::LinkTooLarge(LinkLimit::Symbols));
    }
    link_counted(alloc, objects, laid)
}

/// The image of objects at their places that have no more symbols than an image may have.
fn link_counted(
    alloc: Global,
    objects: &[Normal<'_>],
    laid: &[LaidObject<'_, '_>],
) -> Result<Image, Refusal>
    requires laid { laid.now ≡ laid_out objects.now }
    requires short { total_length objects.now ≤ 16777216 }
    requires linkable { AreLinkable objects.now }
    requires few { length (all_symbols laid.now) ≤ 65536 }
    ensures { Gives contents_of result
        (image_unless (symbol_fault (all_symbols laid.now) objects.now) (image_of_laid laid.now)) }
{
    let symbols = all_symbols(alloc, laid)?;
    let values = global_values(alloc, &symbols)?;
    if let Some(name) = first_missing(alloc, objects, &values)? {
        return Err(Refusal::Undefined(name));
    }
    Ok(make_image(alloc, objects, laid, &values, symbols)?)
}

/// The image of objects at their places, whose outside names have values.
fn make_image(
    alloc: Global,
    objects: &[Normal<'_>],
    laid: &[LaidObject<'_, '_>],
    values: &Values,
    symbols: ListOf<Symbol>,
) -> Result<Image, AllocError>
    requires laid { laid.now ≡ laid_out objects.now }
    requires short { total_length objects.now ≤ 16777216 }
    requires linkable { AreLinkable objects.now }
    requires symbols { symbols ≡ all_symbols laid.now }
    requires few { length symbols ≤ 65536 }
    requires values { values.now.entries ≡ global_values symbols }
    ensures { IfOk result (λ image. contents_of image ≡ image_of_laid laid.now) }
{
    let _ = objects;
    let pieces = regions(alloc, laid, values)?;
    let stacks = Ranges::from_slice(alloc, &STACKS)?;
    let symbols = SymbolTable::from_symbols(alloc, symbols.into_vec())?;
    Ok(Image {
        pieces,
        symbols,
        stacks,
        arena: ARENA,
    })
}
