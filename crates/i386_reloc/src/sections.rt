//! The loaded sections of an object, and lookups among them.
ghost use Rattle.std.specs.Prelude.{◌≡◌, ℕ, ◌≤◌, List, Some, All, length, map};
ghost use Rattle.std.specs.List.{IsDistinct};
ghost use Rattle.std.specs.Option.{option_copied};
ghost use Rattle.i386_reloc.specs.Normal.{same_bytes, name_of, section_named, HasFieldsInOrder, IsFunction};
ghost use Rattle.i386_reloc.specs.Places.{place_named, reference_at, place_of_reference};
ghost use Rattle.i386_reloc.specs.inside.NamePlaces.{named};
ghost use Rattle.i386_reloc.specs.inside.Targets.{targets_in};
ghost use Rattle.i386_reloc.specs.Texts.{HasTexts};
ghost use Rattle.i386_reloc.specs.Whole.{HasSymbolNames, IsWhole};

use crate::types::NormalSection;
use ks_base::ListOf;
use std::collections::BTreeMap;
use std::marker::Model;

/// The loaded sections of an object, in the order of its section header table. Contracts see their list.
#[derive(Drop)]
pub struct Normal<'a> {
    sections: ListOf<NormalSection<'a>>,
    places: BTreeMap<&'a [u8], usize>,
    targets: ListOf<ListOf<Option<u32>>>,
}

impl<'a> Model for Normal<'a> {
    ghost use Rattle.std.specs.Prelude.{◌≡◌, ℕ, ◌≤◌, List, Some, All, length, map};
    ghost use Rattle.std.specs.List.{IsDistinct};
    ghost use Rattle.i386_reloc.specs.declared.types.NormalSection.{NormalSection};
    ghost use Rattle.i386_reloc.specs.Normal.{same_bytes, name_of, section_named, HasFieldsInOrder, IsFunction};
    ghost use Rattle.i386_reloc.specs.Places.{place_named};
    ghost use Rattle.i386_reloc.specs.inside.NamePlaces.{named};
    ghost use Rattle.i386_reloc.specs.inside.Targets.{targets_in};
    ghost use Rattle.i386_reloc.specs.Texts.{HasTexts};
    ghost use Rattle.i386_reloc.specs.Whole.{HasSymbolNames, IsWhole};

    ghost Value = { List NormalSection };

    ghost view = { λ n. n.sections };

    ghost invariant = { λ n. ((q : List ℕ) → named n.places q ≡ place_named n.sections q)
        × All (λ section. section_named n.sections section.name ≡ Some section) n.sections
        × All IsFunction n.sections
        × All HasFieldsInOrder n.sections
        × All IsWhole n.sections
        × All HasSymbolNames n.sections
        × IsDistinct same_bytes (map name_of n.sections)
        × HasTexts n.sections
        × (n.targets ≡ targets_in n.sections)
        × (length n.sections ≤ 4096) };
}

impl<'a> Normal<'a> {
    /// The sections with the place of each name and of each reference's target.
    pub(crate) fn new(
        sections: ListOf<NormalSection<'a>>,
        places: BTreeMap<&'a [u8], usize>,
        targets: ListOf<ListOf<Option<u32>>>,
    ) -> Normal<'a>
        requires places { (q : List ℕ) → named places q ≡ place_named sections q }
        requires named { All (λ section. section_named sections section.name ≡ Some section) sections }
        requires functions { All IsFunction sections }
        requires by_offset { All HasFieldsInOrder sections }
        requires whole { All IsWhole sections }
        requires symbol_names { All HasSymbolNames sections }
        requires distinct { IsDistinct same_bytes (map name_of sections) }
        requires texts { HasTexts sections }
        requires targets { targets ≡ targets_in sections }
        requires few { length sections ≤ 4096 }
        ensures { result ≡ sections.entry }
    {
        Normal {
            sections,
            places,
            targets,
        }
    }

    /// How many sections there are.
    pub fn len(&self) -> usize
        ensures sections { result ≡ length self.now }
        ensures few { length self.now ≤ 4096 }
    {
        self.sections.len()
    }

    /// All sections in order. No two have one name, each code section is a function, the references of a section stand
    /// by offset, and a reference to a text has that text's bytes from its section. Each section has some bytes, as many
    /// as its size where the file holds them, and the names of functions and variables have at most 4,096 bytes, none of
    /// them zero.
    pub fn as_slice(&self) -> &[NormalSection<'a>]
        ensures sections { result.now ≡ self.now }
        ensures named { All (λ section. section_named self.now section.name ≡ Some section) self.now }
        ensures functions { All IsFunction self.now }
        ensures by_offset { All HasFieldsInOrder self.now }
        ensures whole { All IsWhole self.now }
        ensures symbol_names { All HasSymbolNames self.now }
        ensures distinct { IsDistinct same_bytes (map name_of self.now) }
        ensures texts { HasTexts self.now }
        ensures few { length self.now ≤ 4096 }
    {
        self.sections.as_slice()
    }

    /// Where the section of a name stands among the sections, counted from 0; `None` exactly where there is none. The
    /// time is logarithmic in the number of sections.
    pub fn place(&self, name: &[u8]) -> Option<usize>
        ensures { result ≡ place_named self.now name.now }
    {
        self.places.get(name).copied()
    }

    /// Where the section stands that the reference `k` of the section at a place goes to, `None` where there is no such
    /// reference, or where it goes to no section of this object. No name is compared.
    #[tactic(auto, using(crate::proofs::Places::target_at))]
    pub fn target_place(&self, section: usize, k: usize) -> Option<usize>
        ensures { result ≡ place_of_reference self.now (reference_at self.now section k) }
    {
        let targets = self.targets.get(section)?;
        let place = targets.get(k).copied()??;
        Some(place as usize)
    }

    /// The section of a name, `None` exactly where there is none.
    #[tactic(auto, using(crate::specs::laws::PlaceLaws::section_named_at))]
    pub fn find(&self, name: &[u8]) -> Option<&NormalSection<'a>>
        ensures { option_copied result ≡ section_named self.now name.now }
    {
        let place = self.place(name)?;
        self.sections.get(place)
    }
}
