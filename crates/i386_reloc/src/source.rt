//! An object with what references need of its sections and symbols.
ghost use Rattle.std.specs.Prelude.{◌≡◌, ◌<◌, IfOk, if◌then◌else◌, [], length, is_some, true, ◌+◌, ◌^◌};
ghost use Rattle.std.specs.Option.{option_copied};
ghost use Rattle.elf32_object.specs.Fields.{section_count, section_name, section_bytes};
ghost use Rattle.elf32_object.specs.Fields.{is_loaded, symbol_count, symbol_entry, symbol_name};
ghost use Rattle.i386_reloc.specs.Classes.{is_strings, is_strings_class};
ghost use Rattle.i386_reloc.specs.inside.Known.{known_at, known_section, named_at};
ghost use Rattle.i386_reloc.specs.inside.Loaded.{IsLoadedSection};
ghost use Rattle.i386_reloc.specs.Normal.{loaded_below};
ghost use Rattle.elf32_object.specs.Below.{each_below};

use crate::known::{Known, Named};
use crate::loaded::{class_of, loaded_section};
use crate::span::Span;
use crate::texts::Texts;
use crate::types::Class;
use elf32_object::Object;
use elf32_object::types::Section;
use std::alloc::{AllocError, Global};

/// An object, and each of its loaded sections and symbols by index, so that each name is read once.
#[derive(Drop)]
pub(crate) struct Source<'o, 'a> {
    pub object: &'o Object<'a>,
    pub sections: Vec<Option<Known<'a>>>,
    pub symbols: Vec<Named<'a>>,
    ghost known: { sections.items ≡ each_below (known_at object.now) (section_count object.now) },
    ghost named: { symbols.items ≡ each_below (named_at object.now) (symbol_count object.now) },
}

impl<'o, 'a> Source<'o, 'a> {
    /// Reads what is known of each section and symbol.
    pub fn new(alloc: Global, object: &'o Object<'a>) -> Result<Source<'o, 'a>, AllocError>
        ensures { IfOk result (λ source. source.object.now ≡ object.now) }
    {
        let sections = known_sections(alloc, object)?;
        let symbols = named_symbols(alloc, object)?;
        Ok(Source {
            object,
            sections,
            symbols,
        })
    }

    /// The symbol of an index.
    #[tactic(auto, using(crate::proofs::KnownSections::length_named))]
    pub fn symbol(&self, k: u32) -> &Named<'a>
        requires above_null { 0 < k }
        requires within { k < symbol_count self.now.object.now }
        ensures name { result.now.name ≡ symbol_name self.now.object.now k }
        ensures value { result.now.value ≡ (symbol_entry self.now.object.now k).value }
        ensures info { result.now.info ≡ (symbol_entry self.now.object.now k).info }
        ensures section { result.now.section ≡ (symbol_entry self.now.object.now k).section }
    {
        &self.symbols[k as usize]
    }

    /// The section of an index, `None` exactly where it isn't loaded.
    #[tactic(auto, using(crate::proofs::KnownSections::known_here, crate::proofs::KnownSections::known_beyond, crate::proofs::KnownSections::length_known))]
    fn known(&self, j: u16) -> Option<&Known<'a>>
        ensures { option_copied result ≡ known_at self.now.object.now j }
    {
        let j = usize::from(j);
        if j < self.sections.len() {
            self.sections[j].as_ref()
        } else {
            None
        }
    }

    /// The loaded section at an index.
    pub fn section(&self, j: u16) -> &Known<'a>
        requires { is_loaded self.now.object.now j ≡ true }
        ensures name { result.now.name ≡ section_name self.now.object.now j }
        ensures class { is_strings_class result.now.class ≡ is_strings self.now.object.now j }
        ensures texts { is_strings self.now.object.now j ≡ true
            → result.now.texts ≡ section_bytes self.now.object.now j }
        ensures place { result.now.place ≡ length (loaded_below self.now.object.now j) }
    {
        match self.known(j) {
            Some(known) => known,
            None => unreachable!(),
        }
    }

    /// Whether an index is that of a loaded section.
    #[tactic(auto, using(crate::proofs::KnownSections::is_known))]
    pub fn is_loaded(&self, j: u16) -> bool
        ensures { result ≡ is_loaded self.now.object.now j }
    {
        self.known(j).is_some()
    }

    /// Whether an index is that of a loaded section of texts.
    #[tactic(auto, using(crate::proofs::KnownSections::strings_known, crate::proofs::KnownSections::strings_unknown))]
    pub fn is_strings(&self, j: u16) -> bool
        ensures { result ≡ is_strings self.now.object.now j }
    {
        match self.known(j) {
            Some(known) => known.class.is_strings(),
            None => false,
        }
    }
}

#[tactic(auto, using(elf32_object::specs::laws::BelowLaws::each_below_more))]
fn known_sections<'a>(
    alloc: Global,
    object: &Object<'a>,
) -> Result<Vec<Option<Known<'a>>>, AllocError>
    ensures { IfOk result (λ sections. sections.items ≡ each_below (known_at object.now) (section_count object.now)) }
{
    let mut sections = Vec::new(alloc);
    let mut place = 0;
    for i in 0..object.section_count() {
        let known = read_known(alloc, object, i, place)?;
        place = place_behind(place, &known);
        sections.push(known)?;
    }
    Ok(sections)
}

/// How many loaded sections stand before the next section.
fn place_behind(place: u32, known: &Option<Known<'_>>) -> u32
    requires { place < 4096 }
    ensures { result ≡ (if is_some known.now then place + 1 else place) }
{
    match known {
        Some(_) => place + 1,
        None => place,
    }
}

#[tactic(auto, unfolding(crate::specs::inside::Known::known_at))]
fn read_known<'a>(
    alloc: Global,
    object: &Object<'a>,
    i: u32,
    place: u32,
) -> Result<Option<Known<'a>>, AllocError>
    requires within { i < section_count object.now }
    requires place { place ≡ length (loaded_below object.now i) }
    ensures { IfOk result (λ known. known ≡ known_at object.now i) }
{
    match loaded_section(object, i) {
        Some(section) => Ok(Some(know(alloc, object, i, &section, place)?)),
        None => Ok(None),
    }
}

#[tactic(auto, unfolding(crate::specs::inside::Known::known_section))]
fn know<'a>(
    alloc: Global,
    object: &Object<'_>,
    i: u32,
    section: &Section<'a>,
    place: u32,
) -> Result<Known<'a>, AllocError>
    requires section { IsLoadedSection object.now i section.now }
    requires place { place ≡ length (loaded_below object.now i) }
    ensures { IfOk result (λ known. known ≡ known_section object.now i) }
{
    let class = class_of(section);
    Ok(Known {
        name: Span::new(section.name),
        class,
        texts: texts(alloc, class, section.bytes)?,
        place,
    })
}

/// The texts of a section of this class.
fn texts(alloc: Global, class: Class, bytes: &[u8]) -> Result<Texts<'_>, AllocError>
    requires { length bytes.now < 2 ^ 32 }
    ensures { IfOk result (λ texts. texts ≡ (if is_strings_class class then bytes.now else [])) }
{
    if class.is_strings() {
        Texts::new(alloc, bytes)
    } else {
        Texts::new(alloc, &[])
    }
}

#[tactic(auto, using(elf32_object::specs::laws::BelowLaws::each_below_more))]
fn named_symbols<'a>(alloc: Global, object: &Object<'a>) -> Result<Vec<Named<'a>>, AllocError>
    ensures { IfOk result (λ symbols. symbols.items ≡ each_below (named_at object.now) (symbol_count object.now)) }
{
    let mut symbols = Vec::new(alloc);
    for k in 0..object.symbol_count() {
        symbols.push(read_named(object, k))?;
    }
    Ok(symbols)
}

/// Symbol `k`. Symbol 0 is none.
#[tactic(auto, using(crate::proofs::KnownSections::named_null, crate::proofs::KnownSections::named_read))]
fn read_named<'a>(object: &Object<'a>, k: u32) -> Named<'a>
    requires { k < symbol_count object.now }
    ensures { result ≡ named_at object.now k }
{
    if k == 0 {
        return Named {
            name: Span::new(&[]),
            value: 0,
            info: 0,
            section: 0,
        };
    }
    let symbol = object.symbol(k);
    Named {
        name: Span::new(symbol.name),
        value: symbol.value,
        info: symbol.info,
        section: symbol.section,
    }
}
