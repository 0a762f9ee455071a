//! The whole work of a number.
ghost use Rattle.std.specs.Prelude.{◌≡◌, IfOk};
ghost use Rattle.work_gen.specs.Work.{work_of};

use crate::image::image_file;
use crate::objects::object_file;
use crate::script::script_file;
use crate::types::{Build, Version, Work};
use std::alloc::{AllocError, Global};

/// The work of a number: a program of 16 to 512 functions, each of which adds a constant to EAX and calls the next one;
/// two objects of it, in the second of which every fourth function adds one more; and a script that asks eight times,
/// while threads run, that it be updated, forth and back. An error comes only if memory runs out.
pub fn make_work(alloc: Global, number: u32) -> Result<Work, AllocError>
    ensures { IfOk result (λ work. work ≡ work_of number) }
{
    let image = image_file(alloc, number)?;
    let pre = object_file(
        alloc,
        Build {
            number,
            version: Version::Old,
        },
    )?;
    let post = object_file(
        alloc,
        Build {
            number,
            version: Version::New,
        },
    )?;
    let script = script_file(alloc)?;
    Ok(Work {
        image,
        pre,
        post,
        script,
    })
}
