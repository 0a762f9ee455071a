//! What holds of every image and its spelling.
ghost use Rattle.std.specs.Prelude.{◌≡◌, ◌<◌, ◌^◌, ℕ, List, Ok, Some, true, slice_index};
ghost use Rattle.std.specs.List.{All};
ghost use Rattle.std.specs.Option.{option_map};
ghost use Rattle.image_memory.specs.declared.types.Kind.TheVariants.{Code};
ghost use Rattle.image_memory.specs.Access.{kind_of};
ghost use Rattle.image_memory.specs.Contents.{holding};
ghost use Rattle.image_file.specs.Reading.{Contents, image_of};
ghost use Rattle.image_file.specs.Keeps.{Keeps};
ghost use Rattle.image_file.specs.Spelling.{spelling};
ghost use Rattle.image_file.specs.Seen.{contents_of};

use crate::types::Image;

/// Reading the spelling of contents that keep the rules of an image gives them again.
pub fn spelling_is_read()
    ensures { (image : Contents) → Keeps image → image_of (spelling image) ≡ Ok image }
{}

/// What is read as an image is the spelling of that image, and so no other bytes are read as it.
pub fn read_is_spelled()
    ensures { (bytes : List ℕ) (image : Contents) → ((i : ℕ) → slice_index bytes i < 256) →
        image_of bytes ≡ Ok image → spelling image ≡ bytes }
{}

/// An image keeps the rules.
pub fn image_keeps_rules(image: &Image)
    ensures { Keeps (contents_of image.now) }
{
    // Nothing is done here: the arena ends below 2^32.
    fits(image.arena.high);
}

/// A number of 32 bits is below 2^32.
fn fits(number: u32)
    ensures { number < 2 ^ 32 }
{}

/// What an image is written as is read as that image again.
pub fn written_is_read(image: &Image)
    ensures { image_of (spelling (contents_of image.now)) ≡ Ok (contents_of image.now) }
{
    // Nothing is done here: the law says that the image keeps the rules.
    image_keeps_rules(image);
}

/// Each function symbol of an image lies in a code region.
pub fn functions_lie_in_code(image: &Image)
    ensures { All (λ symbol. symbol.function ≡ true →
        option_map kind_of (holding image.now.pieces symbol.address) ≡ Some Code) image.now.symbols.symbols }
{}
