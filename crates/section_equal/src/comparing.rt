//! Compares the sections of two objects.
ghost use Rattle.std.specs.Prelude.{◌≡◌, ◌≤◌, ◌+◌, Decides, Some, List, length};
ghost use Rattle.std.specs.List.{slice_get};
ghost use Rattle.std.specs.Cmp.Lexicographic.{pointwise};
ghost use Rattle.i386_reloc.specs.declared.types.NormalSection.{NormalSection};
ghost use Rattle.i386_reloc.specs.Normal.{same_bytes};
ghost use Rattle.i386_reloc.specs.Places.{bytes_at};
ghost use Rattle.section_equal.specs.Same.{same_target, same_reference, is_same, are_same, same_in};
ghost use Rattle.section_equal.specs.inside.Texts.{IsKnown, AreKnown, refs_at, EndsIn, HoldsTarget};

use crate::bytes::equal_bytes;
use crate::parts::{same_content, same_field};
use crate::texts::{Ends, agreement};
use i386_reloc::{Normal, NormalSection, Ref, Target};
use std::alloc::Global;
use std::collections::BTreeMap;
use std::marker::Model;

/// Compares the sections of two objects. Texts are compared from their ends. A comparison for many sections keeps, for
/// each pair of ends, how many bytes before them are equal: however many references go to texts that end there, these
/// bytes are compared once.
#[derive(Drop)]
pub(crate) struct Comparison<'n, 'a> {
    pre: &'n Normal<'a>,
    post: &'n Normal<'a>,
    known: Option<BTreeMap<Ends, usize>>,
}

impl<'n, 'a> Model for Comparison<'n, 'a> {
    ghost use Rattle.section_equal.specs.inside.Texts.{Compared, AreKept};

    ghost Value = { Compared };

    ghost view = { λ c. record { pre = c.pre.now; post = c.post.now } };

    ghost invariant = { λ c. AreKept c.pre.now c.post.now c.known };
}

/// The bytes of the section at a place, none where there is no section.
fn bytes_at<'n>(normal: &'n Normal<'_>, place: usize) -> &'n [u8]
    ensures { result.now ≡ bytes_at normal.now place }
{
    match normal.as_slice().get(place) {
        Some(section) => section.bytes.as_slice(),
        None => &[],
    }
}

/// Where the section stands that holds the text to which the reference `k` of a section goes. Where the reference goes
/// to no text, the answer says nothing.
#[tactic(auto, using(crate::proofs::EndsOfTexts::holds_target))]
fn place_of_text(normal: &Normal<'_>, section: usize, k: usize, r: &Ref<'_>) -> usize
    requires { slice_get (refs_at normal.now section) k ≡ Some r.now }
    ensures { HoldsTarget normal.now result r.now.target }
{
    // All texts stand in their sections.
    let _sections = normal.as_slice();
    normal.target_place(section, k).unwrap_or(0)
}

/// How many bytes of a section are before the end of a text that it holds at an offset.
fn end_of_text(offset: u32, text: &[u8]) -> usize
    ensures { result ≡ offset + length text.now }
{
    offset as usize + text.len()
}

/// Keeps how many bytes before the ends are equal. Where there is no memory for that, nothing is kept: the bytes are
/// compared again.
fn keep(known: &mut BTreeMap<Ends, usize>, ends: Ends, count: usize)
    ensures { (pre post : List NormalSection) → AreKnown pre post known.old → IsKnown pre post ends count
        → AreKnown pre post known.new }
{
    let _kept = known.insert(ends, count);
}

impl<'n, 'a> Comparison<'n, 'a> {
    /// A comparison that takes no memory: no pair of ends is kept.
    pub(crate) fn forgetful(pre: &'n Normal<'a>, post: &'n Normal<'a>) -> Self
        ensures pre { result.pre ≡ pre.now }
        ensures post { result.post ≡ post.now }
    {
        Comparison {
            pre,
            post,
            known: None,
        }
    }

    /// A comparison for many sections.
    pub(crate) fn new(alloc: Global, pre: &'n Normal<'a>, post: &'n Normal<'a>) -> Self
        ensures pre { result.pre ≡ pre.now }
        ensures post { result.post ≡ post.now }
    {
        Comparison {
            pre,
            post,
            known: Some(BTreeMap::new(alloc)),
        }
    }

    /// How many bytes before the ends are known to be equal.
    fn known(&self, ends: Ends) -> usize
        ensures { IsKnown self.now.pre self.now.post ends result }
    {
        let Some(known) = &self.known else {
            return 0;
        };
        match known.get(&ends) {
            Some(count) => *count,
            None => 0,
        }
    }

    /// Keeps how many bytes before the ends are equal.
    fn learn(&mut self, ends: Ends, count: usize)
        requires { IsKnown self.old.pre self.old.post ends count }
        ensures { self.new ≡ self.old }
    {
        if let Some(known) = &mut self.known {
            keep(known, ends, count);
        }
    }

    /// Whether so many bytes before the ends are equal.
    fn same_before(&mut self, ends: Ends, count: usize) -> bool
        requires old_end { ends.old_end ≤ length (bytes_at self.old.pre ends.old_place) }
        requires new_end { ends.new_end ≤ length (bytes_at self.old.post ends.new_place) }
        requires in_old { count ≤ ends.old_end }
        requires in_new { count ≤ ends.new_end }
        ensures same { Decides result (IsKnown self.old.pre self.old.post ends count) }
        ensures objects { self.new ≡ self.old }
    {
        let known = self.known(ends);
        if count <= known {
            return true;
        }
        let old = bytes_at(self.pre, ends.old_place);
        let new = bytes_at(self.post, ends.new_place);
        let equal = agreement(old, new, ends, known, count);
        self.learn(ends, equal);
        equal == count
    }

    /// Whether two texts that end there are equal.
    fn same_text(&mut self, ends: Ends, old: &[u8], new: &[u8]) -> bool
        requires old { EndsIn (bytes_at self.old.pre ends.old_place) ends.old_end old.now }
        requires new { EndsIn (bytes_at self.old.post ends.new_place) ends.new_end new.now }
        ensures same { result ≡ same_bytes old.now new.now }
        ensures objects { self.new ≡ self.old }
    {
        if old.len() != new.len() {
            return false;
        }
        self.same_before(ends, old.len())
    }

    /// Whether the reference `k` of a section of each object goes to the same.
    fn same_target(
        &mut self,
        old_section: usize,
        new_section: usize,
        k: usize,
        old: &Ref<'_>,
        new: &Ref<'_>,
    ) -> bool
        requires old { slice_get (refs_at self.old.pre old_section) k ≡ Some old.now }
        requires new { slice_get (refs_at self.old.post new_section) k ≡ Some new.now }
        ensures same { result ≡ same_target old.now.target new.now.target }
        ensures objects { self.new ≡ self.old }
    {
        match (&old.target, &new.target) {
            (Target::Section(a), Target::Section(b)) => equal_bytes(a.as_slice(), b.as_slice()),
            (Target::Outside(a), Target::Outside(b)) => equal_bytes(a.as_slice(), b.as_slice()),
            (
                Target::Text {
                    offset: i,
                    text: a,
                    ..
                },
                Target::Text {
                    offset: j,
                    text: b,
                    ..
                },
            ) => {
                let (a, b) = (a.as_slice(), b.as_slice());
                let ends = Ends {
                    old_place: place_of_text(self.pre, old_section, k, old),
                    old_end: end_of_text(*i, a),
                    new_place: place_of_text(self.post, new_section, k, new),
                    new_end: end_of_text(*j, b),
                };
                self.same_text(ends, a, b)
            }
            (_, _) => false,
        }
    }

    /// Whether the reference `k` is the same in a section of each object.
    fn same_reference(
        &mut self,
        old_section: usize,
        new_section: usize,
        k: usize,
        old: &Ref<'_>,
        new: &Ref<'_>,
    ) -> bool
        requires old { slice_get (refs_at self.old.pre old_section) k ≡ Some old.now }
        requires new { slice_get (refs_at self.old.post new_section) k ≡ Some new.now }
        ensures same { result ≡ same_reference old.now new.now }
        ensures objects { self.new ≡ self.old }
    {
        if !same_field(old, new) {
            return false;
        }
        self.same_target(old_section, new_section, k, old, new)
    }

    /// Whether all references are the same in a section of each object.
    fn same_references(
        &mut self,
        old_section: usize,
        new_section: usize,
        old: &[Ref<'_>],
        new: &[Ref<'_>],
    ) -> bool
        requires old { old.now ≡ refs_at self.old.pre old_section }
        requires new { new.now ≡ refs_at self.old.post new_section }
        ensures same { result ≡ pointwise same_reference old.now new.now }
        ensures objects { self.new ≡ self.old }
    {
        if old.len() != new.len() {
            return false;
        }
        for k in 0..old.len() {
            if !self.same_reference(old_section, new_section, k, &old[k], &new[k]) {
                return false;
            }
        }
        true
    }

    /// Whether two sections that stand at these places are the same.
    #[tactic(auto, using(crate::proofs::EndsOfTexts::is_same_by))]
    fn same_at(
        &mut self,
        old_place: usize,
        new_place: usize,
        old: &NormalSection<'_>,
        new: &NormalSection<'_>,
    ) -> bool
        requires old { slice_get self.old.pre old_place ≡ Some old.now }
        requires new { slice_get self.old.post new_place ≡ Some new.now }
        ensures same { result ≡ is_same old.now new.now }
        ensures objects { self.new ≡ self.old }
    {
        if !same_content(old, new) {
            return false;
        }
        if old.class.is_strings() {
            return true;
        }
        let (old, new) = (old.refs.as_slice(), new.refs.as_slice());
        self.same_references(old_place, new_place, old, new)
    }

    /// Whether there are sections at these places of the two objects, and they are the same.
    fn same_places(&mut self, old_place: usize, new_place: usize) -> bool
        ensures same { result ≡ are_same (slice_get self.old.pre old_place) (slice_get self.old.post new_place) }
        ensures objects { self.new ≡ self.old }
    {
        let (pre, post) = (self.pre.as_slice(), self.post.as_slice());
        let Some(old) = pre.get(old_place) else {
            return false;
        };
        let Some(new) = post.get(new_place) else {
            return false;
        };
        self.same_at(old_place, new_place, old, new)
    }

    /// Whether both objects have a section of this name, and it is the same.
    #[tactic(auto, using(crate::proofs::Samenesses::same_in_at))]
    pub(crate) fn same_named(&mut self, name: &[u8]) -> bool
        ensures same { result ≡ same_in self.old.pre self.old.post name.now }
        ensures objects { self.new ≡ self.old }
    {
        let Some(old) = self.pre.place(name) else {
            return false;
        };
        let Some(new) = self.post.place(name) else {
            return false;
        };
        self.same_places(old, new)
    }
}
