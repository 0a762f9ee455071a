//! A line's text by its parts.
ghost use Rattle.std.specs.Prelude.{◌≡◌, ◌++◌, OnOk};
ghost use Rattle.ks_base.specs.inside.Parts.{part_text, parts_text};

use crate::places::Name;
use crate::reply::Line;
use std::alloc::AllocError;

/// A part of a line: words as they stand, a number in decimal, a name, an address, an offset.
#[derive(Clone, Copy)]
pub(crate) enum Part<'a> {
    Words(&'a str),
    Number(u32),
    Named(&'a Name),
    Address(u32),
    Offset(u32),
}

/// Appends a part.
fn put_part(line: &mut Line, part: Part<'_>) -> Result<(), AllocError>
    ensures { OnOk result (line.new ≡ line.old ++ part_text part.entry) }
{
    match part {
        Part::Words(words) => line.put_text(words),
        Part::Number(n) => line.put_number(u64::from(n)),
        Part::Named(name) => line.put_name(name),
        Part::Address(address) => line.put_hex(address),
        Part::Offset(offset) => line.put_offset(offset),
    }
}

/// Appends parts one after another.
pub(crate) fn put_parts(line: &mut Line, parts: &[Part<'_>]) -> Result<(), AllocError>
    ensures { OnOk result (line.new ≡ line.old ++ parts_text parts.now) }
{
    for part in parts {
        put_part(line, *part)?;
    }
    Ok(())
}
