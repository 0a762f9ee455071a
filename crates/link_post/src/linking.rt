//! The bytes of new sections at their places, and what their fields need.
ghost use Rattle.std.specs.Prelude.{◌≡◌, ◌<◌, ◌^◌, map, unwrap_or, IfOk, OnOk};
ghost use Rattle.std.specs.List.{fold};
ghost use Rattle.i386_reloc.specs.Classes.{is_code_class};
ghost use Rattle.i386_reloc.specs.Reaches.{is_data_class, is_in};
ghost use Rattle.link_post.specs.Places.{base_in as base_in_list};
ghost use Rattle.link_post.specs.Linked.{AreInOrder, function_address, section_address};
ghost use Rattle.link_post.specs.Linked.{target_address, address_of, with_word, filled, linked};
ghost use Rattle.link_post.specs.Needs.{need_of, needs};

use crate::lookups::{base_in, value_in};
use crate::types::{Need, Needs, Placed, Placement};
use i386_reloc::{Class, Normal, NormalSection, Ref, Target, field_value};
use ks_base::{Bytes, ListOf, Name};
use std::alloc::{AllocError, Global};
use symbol_table::{Unknown, Values};

/// The bytes of the section of a name at its place: its own, with `S + A` or `S + A - P` modulo 2 to the 32nd in the
/// field of each reference, and zeros of a section that has no bytes in the file. There are none where `post` has no
/// such section. `S` is
///
/// - the home of a function of the running program that a reference enters, and the new base of any other function,
///   also where a reference goes into it and not to its entry;
/// - the new base of read-only data and texts, with a text's offset;
/// - the value of data that the running program has, and the new base of new data;
/// - the value of a name that the object doesn't define.
///
/// A target that has neither counts as 0: [`resolve_post`](crate::resolve_post) and [`place`](crate::place) give
/// each what it needs. It takes time in proportion to the bytes and references, and each name is found by halving or
/// a map.
#[tactic(auto, unfolding(crate::specs::Linked::linked))]
pub fn linked(
    alloc: Global,
    post: &Normal<'_>,
    section: &Name,
    placement: &Placement,
    values: &Values,
) -> Result<Bytes, AllocError>
    requires { AreInOrder post.now placement.now }
    ensures { IfOk result (λ bytes. bytes ≡ linked post.now placement.now values.now.entries section.now) }
{
    let Some(section) = post.find(section.as_slice()) else {
        return Ok(Bytes::new(alloc));
    };
    let bytes = match section.class {
        Class::Zero => vec![in alloc; 0; section.size as usize]?,
        _ => {
            let linking = Linking {
                post,
                placement: placement.as_slice(),
                values,
            };
            linking.filled_bytes(alloc, section)?
        }
    };
    Ok(Bytes::from_vec(bytes))
}

/// The needs of the section of a name, by offset: for each of its fields the `S` with which [`linked`] fills it from the
/// same places and values. There are none where `post` has no such section. It takes time in proportion to the
/// references, and each name is found by halving or a map.
#[tactic(auto, unfolding(crate::specs::Needs::needs))]
pub fn needs(
    alloc: Global,
    post: &Normal<'_>,
    section: &Name,
    placement: &Placement,
    values: &Values,
) -> Result<Needs, AllocError>
    requires { AreInOrder post.now placement.now }
    ensures { IfOk result (λ found. found ≡ needs post.now placement.now values.now.entries section.now) }
{
    let fields = match post.find(section.as_slice()) {
        None => ListOf::new(alloc),
        Some(normal) => {
            let linking = Linking {
                post,
                placement: placement.as_slice(),
                values,
            };
            linking.needs_of(alloc, normal.refs.as_slice())?
        }
    };
    Ok(Needs {
        section: section.clone()?,
        fields,
    })
}

/// The address of what a reference of `post` goes to, `S`, as [`linked`] fills it in from the same places and values; 0
/// where it has neither. `Err` comes only if memory runs out.
pub fn target_address(
    alloc: Global,
    post: &Normal<'_>,
    placement: &Placement,
    values: &Values,
    reference: &Ref<'_>,
) -> Result<u32, AllocError>
    requires { AreInOrder post.now placement.now }
    ensures { IfOk result
        (λ address. address ≡ address_of post.now placement.now values.now.entries reference.now) }
{
    let linking = Linking {
        post,
        placement: placement.as_slice(),
        values,
    };
    linking.address_of(alloc, reference)
}

/// What the fields of new sections are filled from.
#[derive(Drop)]
struct Linking<'a, 'b> {
    post: &'a Normal<'b>,
    placement: &'a [Placed],
    values: &'a Values,
}

impl<'a, 'b> Linking<'a, 'b> {
    /// The bytes of a section at its place.
    fn filled_bytes(
        &self,
        alloc: Global,
        section: &NormalSection<'_>,
    ) -> Result<Vec<u8>, AllocError>
        requires { AreInOrder self.now.post.now self.now.placement.now }
        ensures { IfOk result (λ bytes. bytes.items ≡ fold
            (filled self.now.post.now self.now.placement.now self.now.values.now.entries
            (unwrap_or (base_in_list self.now.placement.now section.now.name) 0))
            section.now.bytes section.now.refs) }
    {
        let base = base_in(self.post, self.placement, section.name.as_slice()).unwrap_or(0);
        let mut bytes = Vec::from_slice(alloc, section.bytes.as_slice())?;
        for r in section.refs.as_slice() {
            self.fill_field(alloc, base, &mut bytes, r)?;
        }
        Ok(bytes)
    }

    /// The needs of references.
    fn needs_of(&self, alloc: Global, refs: &[Ref<'_>]) -> Result<ListOf<Need>, AllocError>
        requires { AreInOrder self.now.post.now self.now.placement.now }
        ensures { IfOk result (λ fields. fields ≡ map
            (need_of self.now.post.now self.now.placement.now self.now.values.now.entries) refs.now) }
    {
        let mut fields = ListOf::new(alloc);
        for r in refs {
            fields.push(Need {
                offset: r.offset,
                s: self.address_of(alloc, r)?,
            })?;
        }
        Ok(fields)
    }

    /// Fills the field of a reference.
    #[tactic(auto, unfolding(crate::specs::Linked::filled))]
    fn fill_field(
        &self,
        alloc: Global,
        base: u32,
        bytes: &mut Vec<u8>,
        r: &Ref<'_>,
    ) -> Result<(), AllocError>
        requires { AreInOrder self.now.post.now self.now.placement.now }
        ensures { OnOk result (bytes.new.items
            ≡ filled self.now.post.now self.now.placement.now self.now.values.now.entries base bytes.old.items r.now) }
    {
        let s = self.address_of(alloc, r)?;
        let p = base.wrapping_add(r.offset);
        put_word(
            bytes.as_mut_slice(),
            r.offset as usize,
            field_value(r.form, s, r.addend, p),
        );
        Ok(())
    }

    /// The address of what a reference goes to, 0 where there is none.
    #[tactic(auto, unfolding(crate::specs::Linked::address_of))]
    fn address_of(&self, alloc: Global, r: &Ref<'_>) -> Result<u32, AllocError>
        requires { AreInOrder self.now.post.now self.now.placement.now }
        ensures { IfOk result (λ address. address
            ≡ address_of self.now.post.now self.now.placement.now self.now.values.now.entries r.now) }
    {
        Ok(self.target_address(alloc, r)?.unwrap_or(0))
    }

    /// The address of what a reference goes to.
    fn target_address(&self, alloc: Global, r: &Ref<'_>) -> Result<Option<u32>, AllocError>
        requires { AreInOrder self.now.post.now self.now.placement.now }
        ensures { IfOk result (λ address. address
            ≡ target_address self.now.post.now self.now.placement.now self.now.values.now.entries r.now r.now.target) }
    {
        match &r.target {
            Target::Outside(name) => {
                let which = Unknown::Outside(Name::from_slice(alloc, name.as_slice())?);
                Ok(value_in(self.values, &which))
            }
            Target::Section(name) => self.section_address(alloc, r, name.as_slice()),
            Target::Text {
                section,
                offset,
                ..
            } => match base_in(self.post, self.placement, section.as_slice()) {
                Some(base) => Ok(Some(base.wrapping_add(*offset))),
                None => Ok(None),
            },
        }
    }

    /// Where a section is for a reference.
    #[tactic(auto, unfolding(crate::specs::Linked::section_address))]
    fn section_address(
        &self,
        alloc: Global,
        r: &Ref<'_>,
        name: &[u8],
    ) -> Result<Option<u32>, AllocError>
        requires { AreInOrder self.now.post.now self.now.placement.now }
        ensures { IfOk result (λ address. address
            ≡ section_address self.now.post.now self.now.placement.now self.now.values.now.entries r.now name.now) }
    {
        let Some(section) = self.post.find(name) else {
            return Ok(base_in(self.post, self.placement, name));
        };
        if section.class.is_code() {
            return self.function_address(alloc, r, name);
        }
        if section.class.is_data() {
            let which = Unknown::Data(Name::from_slice(alloc, name)?);
            if let Some(address) = value_in(self.values, &which) {
                return Ok(Some(address));
            }
        }
        Ok(base_in(self.post, self.placement, name))
    }

    /// Where a function is for a reference.
    fn function_address(
        &self,
        alloc: Global,
        r: &Ref<'_>,
        name: &[u8],
    ) -> Result<Option<u32>, AllocError>
        requires { AreInOrder self.now.post.now self.now.placement.now }
        ensures { IfOk result (λ address. address
            ≡ function_address self.now.placement.now self.now.values.now.entries r.now name.now) }
    {
        if !r.is_interior() {
            let which = Unknown::Code(Name::from_slice(alloc, name)?);
            if let Some(home) = value_in(self.values, &which) {
                return Ok(Some(home));
            }
        }
        Ok(base_in(self.post, self.placement, name))
    }
}

/// Whether the section of a name holds data that the program may change.
pub(crate) fn is_data(post: &Normal<'_>, name: &[u8]) -> bool
    ensures { result ≡ is_in is_data_class post.now name.now }
{
    match post.find(name) {
        Some(section) => section.class.is_data(),
        None => false,
    }
}

/// Puts a word into the field at an offset, little-endian. Where the field doesn't lie in the bytes nothing changes.
pub fn put_word(bytes: &mut [u8], offset: usize, word: u32)
    requires { offset < 2 ^ 32 }
    ensures { bytes.new ≡ with_word bytes.old offset word }
{
    if offset + 4 <= bytes.len() {
        bytes[offset..offset + 4].copy_from_slice(&word.to_le_bytes());
    }
}
