//! Plans an update from two objects and a running program.
ghost use Rattle.std.specs.Prelude.{◌≡◌, ℕ, List, map, Ok, IfOk};
ghost use Rattle.ks_base.specs.Gives.{Gives};
ghost use Rattle.image_memory.specs.Ranges.{Ascends};
ghost use Rattle.image_memory.specs.Contents.{spliced_at};
ghost use Rattle.symbol_table.specs.declared.symbols.Symbol.{Symbol};
ghost use Rattle.splice_jump.specs.Jumps.{AreSpliced};
ghost use Rattle.extract_post.specs.Extracted.{extracted};
ghost use Rattle.symbol_solve.specs.Solve.{solved};
ghost use Rattle.link_post.specs.Linked.{AreInOrder, AreNamesInOrder};
ghost use Rattle.link_post.specs.Needs.{needs};
ghost use Rattle.link_post.specs.Places.{placed};
ghost use Rattle.link_post.specs.Values.{resolved};
ghost use Rattle.update_pieces.specs.Parts.{size_of};
ghost use Rattle.update_pieces.specs.Pieces.{new_pieces};
ghost use Rattle.update_pieces.specs.NewSymbols.{new_symbols};
ghost use Rattle.update_retired.specs.Overlaps.{code_refusal};
ghost use Rattle.update_retired.specs.Retired.{AreBodies, guarded};
ghost use Rattle.update_plan.specs.Olds.{olds_of};
ghost use Rattle.update_plan.specs.Placing.{names_of};
ghost use Rattle.update_plan.specs.Plan.{fences_of, plan_of, planned, unless};
ghost use Rattle.update_plan.specs.inside.Rests.{planned_at, planned_between, planned_with};

use crate::hooks::hooks_of;
use crate::laws::matched_bodies_are_in_use;
use crate::olds::olds_of;
use crate::parts::{names_of, parts_of};
use crate::types::{AllNeeds, Fences, Plan};
use extract_post::{Extract, extract, extract_is_computed};
use i386_reloc::{Normal, read_sections};
use image_memory::{Fence, Pieces, Space};
use ks_base::{Name, Ranges, Refusal};
use link_post::{Placement, needs, place, places_keep_the_order, resolve_post};
use std::alloc::{AllocError, Global};
use symbol_solve::{answers_tell_each_body, solve};
use symbol_table::{Bodies, SymbolTable, Values};
use update_pieces::{NewSymbols, Part, new_pieces, new_symbols, report_of, sizes};
use update_retired::{OldFunction, code_refusal, guarded_ranges};

/// What an update from the object file `pre` to the object file `post` would do to a running program. The bodies are
/// the newest bases of homes at which a jump stands, and the retired ranges come the oldest first; the new sections are
/// placed in the gaps, which lie apart and ascend.
///
/// The first refusal comes of these, in this order: what is wrong with `pre`, then with `post`, as of
/// [`read_sections`]; what can't be changed between them, as of [`extract`]; why `pre` has no one reading in the
/// program, as of [`solve`]; a name or data that the new sections refer to and that has no one address, as of
/// [`resolve_post`]; a home without room for the jump, or code that overlaps, as of [`code_refusal`]; a new section
/// that fits in no gap, as of [`place`]. [`Refusal::Memory`] comes only if memory runs out.
pub fn plan<'a, S: Space>(
    alloc: Global,
    space: &S,
    bodies: &Bodies,
    symbols: &SymbolTable,
    retired: &Ranges,
    gaps: &Ranges,
    pre: &'a [u8],
    post: &'a [u8],
) -> Result<Plan, Refusal>
    requires spliced { AreSpliced (S.contents space.now) bodies.now }
    requires gaps { Ascends (λ range. range) 0 gaps.now }
    ensures { Gives (λ plan. plan) result (planned
        (record { contents = S.contents space.now; symbols = symbols.now.symbols; bodies = bodies.now })
        retired.now gaps.now pre.now post.now) }
{
    let old = read_sections(alloc, pre)?;
    let new = read_sections(alloc, post)?;
    let program = Program {
        space,
        bodies,
        symbols,
        retired,
        gaps,
    };
    let objects = Objects {
        pre: &old,
        post: &new,
    };
    plan_between(alloc, &program, &objects)
}

/// A running program, for which an update is planned.
#[derive(Drop)]
struct Program<'p, S: Space> {
    space: &'p S,
    /// the newest bases
    bodies: &'p Bodies,
    symbols: &'p SymbolTable,
    /// what is retired, the oldest first
    retired: &'p Ranges,
    /// where new sections may be placed
    gaps: &'p Ranges,
}

/// The sections of the objects of an update.
#[derive(Drop)]
struct Objects<'o, 'a> {
    pre: &'o Normal<'a>,
    post: &'o Normal<'a>,
}

/// The same of the sections of both objects.
fn plan_between<S: Space>(
    alloc: Global,
    program: &Program<'_, S>,
    objects: &Objects<'_, '_>,
) -> Result<Plan, Refusal>
    requires spliced { AreSpliced (S.contents program.now.space.now) program.now.bodies.now }
    requires gaps { Ascends (λ range. range) 0 program.now.gaps.now }
    ensures { Gives (λ plan. plan) result (planned_between
        (record {
          contents = S.contents program.now.space.now;
          symbols = program.now.symbols.now.symbols;
          bodies = program.now.bodies.now;
        })
        program.now.retired.now program.now.gaps.now objects.now.pre.now objects.now.post.now) }
{
    let extract = extract_of(alloc, objects.pre, objects.post)?;
    let found = solve(
        alloc,
        objects.pre,
        program.bodies,
        program.space,
        program.symbols,
    )?;
    plan_with(alloc, program, objects, &extract, &found)
}

/// The same where the difference and the old object's values are known.
fn plan_with<S: Space>(
    alloc: Global,
    program: &Program<'_, S>,
    objects: &Objects<'_, '_>,
    extract: &Extract,
    found: &Values,
) -> Result<Plan, Refusal>
    requires spliced { AreSpliced (S.contents program.now.space.now) program.now.bodies.now }
    requires gaps { Ascends (λ range. range) 0 program.now.gaps.now }
    requires solved { solved objects.now.pre.now program.now.bodies.now
        (S.contents program.now.space.now) program.now.symbols.now.symbols ≡ Ok found.now.entries }
    ensures { Gives (λ plan. plan) result (planned_with
        (record {
          contents = S.contents program.now.space.now;
          symbols = program.now.symbols.now.symbols;
          bodies = program.now.bodies.now;
        })
        program.now.retired.now program.now.gaps.now objects.now.pre.now objects.now.post.now
        extract.now found.now.entries) }
{
    let parts = parts_of(alloc, objects.post, extract)?;
    let values = values_for(alloc, objects, program.symbols, parts.as_slice(), found)?;
    let olds = free_olds(alloc, program, objects.pre, found, extract)?;
    plan_at(
        alloc,
        program,
        objects,
        parts.as_slice(),
        &values,
        olds.as_slice(),
    )
}

/// The same where the sections to place, their values and the old functions are known.
#[tactic(auto, unfolding(crate::specs::inside::Rests::planned_at))]
fn plan_at<S: Space>(
    alloc: Global,
    program: &Program<'_, S>,
    objects: &Objects<'_, '_>,
    parts: &[Part<'_, '_>],
    values: &Values,
    olds: &[OldFunction],
) -> Result<Plan, Refusal>
    requires gaps { Ascends (λ range. range) 0 program.now.gaps.now }
    requires order { AreNamesInOrder objects.now.post.now (names_of parts.now) }
    requires bodies { AreBodies olds.now }
    ensures { (symbols : List Symbol) (bodies : List (ℕ × ℕ)) → Gives (λ plan. plan) result (planned_at
        (record { contents = S.contents program.now.space.now; symbols = symbols; bodies = bodies })
        program.now.gaps.now objects.now.pre.now objects.now.post.now parts.now values.now.entries olds.now) }
{
    let placement = places_of(alloc, objects.post, parts, program.gaps)?;
    Ok(plan_of(
        alloc,
        program.space,
        objects,
        values,
        olds,
        parts,
        &placement,
    )?)
}

/// The values with those that the references of the sections to place need besides.
fn values_for(
    alloc: Global,
    objects: &Objects<'_, '_>,
    symbols: &SymbolTable,
    parts: &[Part<'_, '_>],
    found: &Values,
) -> Result<Values, Refusal>
    ensures { Gives (λ values. values.entries) result
        (resolved objects.now.pre.now objects.now.post.now symbols.now.symbols (names_of parts.now) found.now.entries) }
{
    let names = names_of(alloc, parts)?;
    resolve_post(alloc, objects.pre, objects.post, &names, found, symbols)
}

/// The lists of sections that an update is about.
fn extract_of<'a>(alloc: Global, pre: &Normal<'a>, post: &Normal<'a>) -> Result<Extract, Refusal>
    ensures { Gives (λ extract. extract) result (extracted pre.now post.now) }
{
    // Nothing is done here: the law says that the answer is the one that is computed.
    extract_is_computed();
    extract(alloc, pre, post)
}

/// The functions of the old object as they run, where nothing of the code stands in the update's way.
fn free_olds<S: Space>(
    alloc: Global,
    program: &Program<'_, S>,
    pre: &Normal<'_>,
    found: &Values,
    extract: &Extract,
) -> Result<Vec<OldFunction>, Refusal>
    requires spliced { AreSpliced (S.contents program.now.space.now) program.now.bodies.now }
    requires solved { solved pre.now program.now.bodies.now
        (S.contents program.now.space.now) program.now.symbols.now.symbols ≡ Ok found.now.entries }
    ensures olds { Gives (λ olds. olds.items) result (unless
        (code_refusal (S.contents program.now.space.now) program.now.symbols.now.symbols program.now.retired.now
        (olds_of extract.now found.now.entries pre.now))
        (olds_of extract.now found.now.entries pre.now)) }
    ensures bodies { IfOk result (λ olds. AreBodies olds.items) }
{
    let olds = olds_of(alloc, pre, found, extract)?;
    // What a Normal says of its sections: no two have one name. By the laws each has its body below the limit, and what
    // is matched is in use.
    let _sections = pre.as_slice();
    answers_tell_each_body();
    matched_bodies_are_in_use();
    code_refusal(
        alloc,
        program.space,
        program.symbols,
        program.retired,
        olds.as_slice(),
    )?;
    Ok(olds)
}

/// The places of sections that stand in the order of the object, which keep that order.
fn places_of(
    alloc: Global,
    post: &Normal<'_>,
    parts: &[Part<'_, '_>],
    gaps: &Ranges,
) -> Result<Placement, Refusal>
    requires order { AreNamesInOrder post.now (names_of parts.now) }
    requires gaps { Ascends (λ range. range) 0 gaps.now }
    ensures places { Gives (λ placement. placement) result (placed (map size_of parts.now) gaps.now) }
    ensures order { IfOk result (λ placement. AreInOrder post.now placement) }
{
    // The law says that the places keep the order of the sections.
    places_keep_the_order();
    let sizes = sizes(alloc, parts)?;
    place(alloc, sizes.as_slice(), gaps)
}

/// The plan of new sections at their places, and of the functions of the old object.
fn plan_of<S: Space>(
    alloc: Global,
    space: &S,
    objects: &Objects<'_, '_>,
    values: &Values,
    olds: &[OldFunction],
    parts: &[Part<'_, '_>],
    placement: &Placement,
) -> Result<Plan, AllocError>
    requires bodies { AreBodies olds.now }
    requires order { AreInOrder objects.now.post.now placement.now }
    ensures { IfOk result (λ plan. (symbols : List Symbol) (bodies : List (ℕ × ℕ)) → plan ≡ plan_of
        (record { contents = S.contents space.now; symbols = symbols; bodies = bodies })
        objects.now.pre.now objects.now.post.now values.now.entries olds.now parts.now placement.now) }
{
    let post = objects.post;
    let report = report_of(alloc, parts, placement, olds)?;
    let (pieces, symbols) = additions_of(alloc, post, values, parts, placement)?;
    let (fences, guarded) = ranges_of(alloc, space, olds)?;
    let needs = needs_of(alloc, post, values, parts, placement)?;
    let hooks = hooks_of(alloc, objects.pre, post, placement, values)?;
    Ok(Plan {
        report,
        pieces,
        symbols,
        fences,
        guarded,
        needs,
        hooks,
    })
}

/// What the fields of new sections at their places need, section by section.
fn needs_of(
    alloc: Global,
    post: &Normal<'_>,
    values: &Values,
    parts: &[Part<'_, '_>],
    placement: &Placement,
) -> Result<AllNeeds, AllocError>
    requires { AreInOrder post.now placement.now }
    ensures { IfOk result
        (λ all. all ≡ map (needs post.now placement.now values.now.entries) (names_of parts.now)) }
{
    let mut all = AllNeeds::new(alloc);
    for part in parts {
        let name = Name::from_slice(alloc, part.section().name.as_slice())?;
        all.push(needs(alloc, post, &name, placement, values)?)?;
    }
    Ok(all)
}

/// The pieces and the symbols that new sections at their places come to.
fn additions_of(
    alloc: Global,
    post: &Normal<'_>,
    values: &Values,
    parts: &[Part<'_, '_>],
    placement: &Placement,
) -> Result<(Pieces, NewSymbols), AllocError>
    requires { AreInOrder post.now placement.now }
    ensures pieces { IfOk result
        (λ added. added.0 ≡ new_pieces post.now parts.now placement.now values.now.entries) }
    ensures symbols { IfOk result (λ added. added.1 ≡ new_symbols parts.now placement.now) }
{
    let pieces = new_pieces(alloc, post, parts, placement, values)?;
    Ok((pieces, new_symbols(alloc, parts, placement)?))
}

/// What is retired of the functions of the old object, and where no thread may stand.
fn ranges_of<S: Space>(
    alloc: Global,
    space: &S,
    olds: &[OldFunction],
) -> Result<(Fences, Ranges), AllocError>
    requires { AreBodies olds.now }
    ensures fences { IfOk result (λ ranges. ranges.0 ≡ fences_of olds.now) }
    ensures guarded { IfOk result
        (λ ranges. ranges.1 ≡ guarded (spliced_at (S.contents space.now).fences) olds.now) }
{
    let fences = fences_of(alloc, olds)?;
    Ok((fences, guarded_ranges(alloc, space, olds)?))
}

/// What is retired of the functions, each with whether the jump is written at its low.
fn fences_of(alloc: Global, olds: &[OldFunction]) -> Result<Fences, AllocError>
    requires { AreBodies olds.now }
    ensures { IfOk result (λ fences. fences ≡ fences_of olds.now) }
{
    let mut fences = Fences::new(alloc);
    for old in olds {
        if old.fate.is_retired() {
            fences.push(Fence {
                range: old.retired_range(),
                jump: old.takes_jump(),
            })?;
        }
    }
    Ok(fences)
}
