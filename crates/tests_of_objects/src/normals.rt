//! Objects, read and normalised.

use elf32_object::read_object;
use i386_reloc::{Normal, normalise};
use std::alloc::Global;
use std::test::Fail;

/// The sections of an object.
pub(crate) fn normal_of(alloc: Global, file: &[u8]) -> Result<Normal<'_>, Fail> {
    let object = read_object(alloc, file).ok().ok_or("not read")?;
    Ok(normalise(alloc, &object).ok().ok_or("no sections")?)
}
