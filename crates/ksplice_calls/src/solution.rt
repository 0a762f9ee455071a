//! The reply to `match`.
ghost use Rattle.std.specs.Prelude.{◌≡◌, ◌++◌, [], Ok, IfOk, OnOk};
ghost use Rattle.ks_base.specs.Gives.{Gives};
ghost use Rattle.ks_base.specs.Text.{shown_name};
ghost use Rattle.symbol_table.specs.Unknowns.{address_in};
ghost use Rattle.image_file.specs.Reading.{image_of};
ghost use Rattle.image_file.specs.Seen.{contents_of};
ghost use Rattle.ksplice_calls.specs.Reply.{match_reply, matched_in};
ghost use Rattle.ksplice_calls.specs.Solution.{unknown_text, value_line, value_lines};

use crate::listing::function_of;
use i386_reloc::{Normal, read_sections};
use image_file::{Image, read_image};
use ks_base::{Line, Name, Refusal};
use paged_memory::PagedSpace;
use std::alloc::{AllocError, Global};
use symbol_solve::solve;
use symbol_table::{Bodies, Solved, Unknown, Values};

/// The lines of which functions of an image the code sections of an object file are, and of what they refer to. Refuses
/// what is wrong with the image, else what is wrong with the object, else why the object has no one reading there. The
/// image's bytes are gone once it is read.
#[tactic(auto, unfolding(crate::specs::Reply::match_reply))]
pub fn list_solution(alloc: Global, image: Vec<u8>, pre: &[u8]) -> Result<Line, Refusal>
    ensures { Gives (λ lines. lines) result (match_reply image.items pre.now) }
{
    let image = image_of(alloc, image)?;
    let object = read_sections(alloc, pre)?;
    list_matched(alloc, image, &object)
}

/// The image that a file holds, whose bytes are gone then.
fn image_of(alloc: Global, bytes: Vec<u8>) -> Result<Image, Refusal>
    ensures { Gives contents_of result (image_of bytes.items) }
{
    read_image(alloc, &bytes)
}

/// The lines of an object in an image in which nothing was replaced.
fn list_matched(alloc: Global, image: Image, object: &Normal<'_>) -> Result<Line, Refusal>
    ensures { Gives (λ lines. lines) result
        (matched_in (contents_of image) (Ok object.now)) }
{
    let memory = PagedSpace::new(alloc, image.pieces)?;
    let values = solve(alloc, object, &no_bodies(alloc), &memory, &image.symbols)?;
    Ok(list_values(alloc, object, &values)?)
}

/// The newest bases where nothing was replaced.
fn no_bodies(alloc: Global) -> Bodies
    ensures { result ≡ [] }
{
    Bodies::new(Vec::new(alloc))
}

/// The lines of an object's values, in their order.
#[tactic(auto, unfolding(crate::specs::Solution::value_lines))]
fn list_values(alloc: Global, object: &Normal<'_>, values: &Values) -> Result<Line, AllocError>
    ensures { IfOk result (λ lines. lines ≡ value_lines object.now values.now.entries) }
{
    let mut lines = Line::new(alloc);
    for (unknown, solved) in values.iter() {
        put_value(alloc, &mut lines, object, unknown, *solved)?;
    }
    Ok(lines)
}

#[tactic(auto, unfolding(crate::specs::Solution::value_line))]
fn put_value(
    alloc: Global,
    lines: &mut Line,
    object: &Normal<'_>,
    unknown: &Unknown,
    solved: Solved,
) -> Result<(), AllocError>
    ensures { OnOk result (lines.new ≡ lines.old ++ value_line object.now (unknown.now, solved)) }
{
    put_unknown(alloc, lines, object, unknown)?;
    lines.put_text(" ")?;
    lines.put_hex(address_in(solved))?;
    lines.put_text("\n")
}

fn put_unknown(
    alloc: Global,
    lines: &mut Line,
    object: &Normal<'_>,
    unknown: &Unknown,
) -> Result<(), AllocError>
    ensures { OnOk result (lines.new ≡ lines.old ++ unknown_text object.now unknown.now) }
{
    match unknown {
        Unknown::Code(section) => {
            let function = function_of(object.find(section.as_slice()));
            put_named(lines, "code ", &Name::from_slice(alloc, function)?)
        }
        Unknown::Data(section) => put_named(lines, "data ", section),
        Unknown::Outside(name) => put_named(lines, "outside ", name),
    }
}

fn put_named(lines: &mut Line, kind: &str, name: &Name) -> Result<(), AllocError>
    ensures { OnOk result (lines.new ≡ lines.old ++ kind.now ++ shown_name name.now) }
{
    lines.put_text(kind)?;
    lines.put_name(name)
}

/// Where a function has its home, or where a section or name is.
fn address_in(solved: Solved) -> u32
    ensures { result ≡ address_in solved }
{
    match solved {
        Solved::Body { home, .. } => home,
        Solved::Address(address) => address,
    }
}
