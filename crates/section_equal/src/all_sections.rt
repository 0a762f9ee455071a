//! Which sections of two objects are the same in both.
ghost use Rattle.std.specs.Prelude.{◌≡◌, IfOk, map};
ghost use Rattle.i386_reloc.specs.Places.{place_named};
ghost use Rattle.section_equal.specs.Same.{same_in, same_names};
ghost use Rattle.section_equal.specs.inside.Texts.{mark_at};

use crate::comparing::Comparison;
use i386_reloc::{Normal, NormalSection};
use std::alloc::{AllocError, Global};

/// For each section of two objects, in order: whether both have a section of its name, and the two are the same.
#[derive(Drop)]
pub struct SameSections {
    /// For the first object's sections.
    pub pre: Vec<bool>,
    /// For the second's.
    pub post: Vec<bool>,
}

/// Whether both objects have a section of this name, and the two are the same: class, size, bytes outside the fields,
/// and references are equal. Of sections of texts nothing but the class is compared, since their texts are compared at
/// the references. It takes no memory; to compare many sections, see [`same_sections`].
pub fn same_section<'a>(pre: &Normal<'a>, post: &Normal<'a>, name: &[u8]) -> bool
    ensures { result ≡ same_in pre.now post.now name.now }
{
    let mut comparison = Comparison::forgetful(pre, post);
    comparison.same_named(name)
}

/// Which sections are the same in both objects. Bytes of texts that end at the same two places are compared once.
pub fn same_sections<'a>(
    alloc: Global,
    pre: &Normal<'a>,
    post: &Normal<'a>,
) -> Result<SameSections, AllocError>
    ensures pre { IfOk result (λ same. same.pre.items ≡ same_names pre.now post.now pre.now) }
    ensures post { IfOk result (λ same. same.post.items ≡ same_names pre.now post.now post.now) }
{
    let mut comparison = Comparison::new(alloc, pre, post);
    let in_post = marks_of_post(alloc, &mut comparison, post)?;
    let in_pre = marks_of_pre(alloc, pre, post, in_post.as_slice())?;
    Ok(SameSections {
        pre: in_pre,
        post: in_post,
    })
}

/// For each section of the second object, whether it is the same in the first.
fn marks_of_post(
    alloc: Global,
    comparison: &mut Comparison<'_, '_>,
    post: &Normal<'_>,
) -> Result<Vec<bool>, AllocError>
    ensures { IfOk result (λ marks. marks.items ≡ same_names comparison.old.pre comparison.old.post post.now) }
{
    let mut marks = Vec::new(alloc);
    let sections = post.as_slice();
    for place in 0..sections.len() {
        let same = comparison.same_named(sections[place].name.as_slice());
        marks.push(same)?;
    }
    Ok(marks)
}

/// The mark of a name, false where no section of the object has it.
fn mark_of(normal: &Normal<'_>, marks: &[bool], name: &[u8]) -> bool
    ensures { result ≡ mark_at marks.now (place_named normal.now name.now) }
{
    match normal.place(name) {
        Some(place) => marks.get(place).copied().unwrap_or(false),
        None => false,
    }
}

/// The mark of each section's name in another object.
fn marks_of_names(
    alloc: Global,
    sections: &[NormalSection<'_>],
    other: &Normal<'_>,
    marks: &[bool],
) -> Result<Vec<bool>, AllocError>
    ensures { IfOk result (λ found. found.items ≡ map
        (λ section. mark_at marks.now (place_named other.now section.name)) sections.now) }
{
    sections
        .iter()
        .map(|section| mark_of(other, marks, section.name.as_slice()))
        .collect(alloc)
}

/// For each section of the first object, whether it is the same in the second, by the marks of the second's sections.
fn marks_of_pre(
    alloc: Global,
    pre: &Normal<'_>,
    post: &Normal<'_>,
    marks: &[bool],
) -> Result<Vec<bool>, AllocError>
    requires { marks.now ≡ same_names pre.now post.now post.now }
    ensures { IfOk result (λ found. found.items ≡ same_names pre.now post.now pre.now) }
{
    marks_of_names(alloc, pre.as_slice(), post, marks)
}
