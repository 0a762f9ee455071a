//! Reading an image from the bytes of a file.
ghost use Rattle.std.specs.Prelude.{◌≡◌, IfOk};
ghost use Rattle.ks_base.specs.Gives.{Gives};
ghost use Rattle.image_file.specs.Reading.{image_of, Contents};
ghost use Rattle.image_file.specs.Spelling.{spelling};
ghost use Rattle.image_file.specs.Seen.{contents_of};

use crate::front::header_of;
use crate::regions::regions_of;
use crate::stacks::stacks_of;
use crate::symbols::symbols_of;
use crate::types::Image;
use ks_base::{ImageFault, Refusal};
use std::alloc::Global;

/// The image that the bytes of a file spell. No other bytes spell it.
///
/// [`Refusal::BadImage`] has the offset of the field that breaks a rule, in bytes from the file's start,
/// and which rule it is; it comes exactly where a rule is broken, and names the first one in the order of
/// the file. Where one field breaks several, the limit comes first, then the kind, the range, the order
/// and the name. A file that ends inside a field is short at its own end. [`Refusal::Memory`] comes only
/// if memory runs out.
#[tactic(auto, unfolding(crate::specs::Reading::image_of))]
pub fn read_image(alloc: Global, bytes: &[u8]) -> Result<Image, Refusal>
    ensures exact { Gives contents_of result (image_of bytes.now) }
    ensures spelled { IfOk result (λ image. bytes.now ≡ spelling (contents_of image)) }
{
    let header = header_of(bytes)?;
    let (pieces, offset) = regions_of(alloc, bytes, header.regions, header.arena)?;
    let (symbols, offset) = symbols_of(alloc, bytes, pieces.as_slice(), header.symbols, offset)?;
    let (stacks, offset) = stacks_of(
        alloc,
        bytes,
        header.arena,
        pieces.as_slice(),
        header.stacks,
        offset,
    )?;
    if (offset as usize) < bytes.len() {
        return Err(Refusal::BadImage(offset, ImageFault::Trailing));
    }
    let arena = header.arena;
    Ok(Image {
        pieces,
        symbols,
        stacks,
        arena,
    })
}
