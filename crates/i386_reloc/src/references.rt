//! The references of a section.
ghost use Rattle.std.specs.Prelude.{◌≡◌, ◌≤◌, ◌+◌, true, length, map, IfOk, All};
ghost use Rattle.elf32_object.specs.Fields.{section_bytes, ends_in};
ghost use Rattle.i386_reloc.specs.References.{form_of, addend_in, reference_of, reference_to, text_through};
ghost use Rattle.i386_reloc.specs.inside.Fields.{IsField};
ghost use Rattle.i386_reloc.specs.inside.Loaded.{IsLoadedSection};

use crate::known::Known;
use crate::source::Source;
use crate::span::Span;
use crate::types::{Form, Ref, Refs, Target};
use byteorder::{ByteOrder, LittleEndian};
use elf32_object::elf::R_386_32;
use elf32_object::types::{Reloc, Section};
use ks_base::ListOf;
use std::alloc::{AllocError, Global};

/// The references that the fields of loaded section `i` make.
pub(crate) fn references<'a>(
    alloc: Global,
    source: &Source<'_, 'a>,
    i: u32,
    section: &Section<'_>,
    fields: &[Reloc],
) -> Result<Refs<'a>, AllocError>
    requires section { IsLoadedSection source.now.object.now i section.now }
    requires fields { All (IsField source.now.object.now i) fields.now }
    ensures { IfOk result (λ refs. refs ≡ map (reference_of source.now.object.now i) fields.now) }
{
    let mut refs = Vec::with_capacity(alloc, fields.len())?;
    for r in fields {
        refs.push(reference(source, i, section, *r))?;
    }
    Ok(ListOf::from_vec(refs))
}

/// The reference that a field makes, by the table of targets.
fn reference<'a>(source: &Source<'_, 'a>, i: u32, section: &Section<'_>, r: Reloc) -> Ref<'a>
    requires section { IsLoadedSection source.now.object.now i section.now }
    requires field { IsField source.now.object.now i r }
    ensures { result ≡ reference_of source.now.object.now i r }
{
    let addend = addend(source, i, section, r);
    let symbol = source.symbol(r.symbol);
    if symbol.is_outside() {
        return made(
            r,
            Target::Outside(Span::new(symbol.name.as_slice())),
            addend,
        );
    }
    let known = source.section(symbol.section);
    if !known.class.is_strings() {
        let name = Span::new(known.name.as_slice());
        return made(r, Target::Section(name), addend.wrapping_add(symbol.value));
    }
    if symbol.is_section_symbol() {
        made(r, text(known, addend), 0)
    } else {
        made(r, text(known, symbol.value), addend)
    }
}

/// The reference of a relocation to a target.
fn made(r: Reloc, target: Target<'_>, addend: u32) -> Ref<'_>
    ensures { result ≡ reference_to r target.entry addend }
{
    Ref {
        offset: r.offset,
        form: form(r),
        target,
        addend,
    }
}

fn form(r: Reloc) -> Form
    ensures { result ≡ form_of r }
{
    if r.kind == R_386_32 {
        Form::Absolute
    } else {
        Form::Relative
    }
}

/// The text at an offset of a section of texts.
fn text<'a>(known: &Known<'a>, offset: u32) -> Target<'a>
    requires { ends_in known.now.texts offset ≡ true }
    ensures { result ≡ Target.Text known.now.name offset (text_through known.now.texts offset) }
{
    Target::Text {
        section: Span::new(known.name.as_slice()),
        offset,
        text: Span::new(known.texts.text(offset)),
    }
}

/// The addend that stands in a relocation's field.
#[tactic(auto, unfolding(crate::specs::References::addend_in, elf32_object::specs::Fields::word_at))]
pub(crate) fn addend(source: &Source<'_, '_>, i: u32, section: &Section<'_>, r: Reloc) -> u32
    requires section { IsLoadedSection source.now.object.now i section.now }
    requires within { r.offset + 4 ≤ length (section_bytes source.now.object.now i) }
    ensures { result ≡ addend_in source.now.object.now i r }
{
    LittleEndian::read_u32(&section.bytes[r.offset as usize..])
}
