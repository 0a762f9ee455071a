//! What carrying out a plan takes and does, piece by piece.
ghost use Rattle.std.specs.Prelude.{◌≡◌, ℕ, false, List, ◌≤◌, ◌<◌, ◌+◌, ◌^◌, ◌++◌, [], ◌∷◌, length, map, IfOk, OnOk, OnErr};
ghost use Rattle.std.specs.List.{filter, list_any, All};
ghost use Rattle.std.specs.List.Sorted.{IsPermutation, IsNonDecreasingBy};
ghost use Rattle.image_memory.specs.Contents.{piece_range, fence_range};
ghost use Rattle.image_memory.specs.Changes.{ArePlaceable};
ghost use Rattle.splice_jump.specs.Jumps.{jumped_memory, olds_at};
ghost use Rattle.update_memory.specs.Added.{AreAddable, with_pieces};
ghost use Rattle.update_memory.specs.Retired.{AreRetirable, with_fences};
ghost use Rattle.update_memory.specs.Rows.{olds_of, rows_of};
ghost use Rattle.update_stack.specs.StandsFor.{seen};
ghost use Rattle.update_stack.specs.AbstractMachine.{bodies_in, contents_of, is_text, jump_rows};
ghost use Rattle.update_stack.specs.declared.updates.Update.{Update as Shown};
ghost use Rattle.update_stack.specs.Apply.{has_name};
ghost use Rattle.update_stack.specs.Systems.{Holds, machine_of};
ghost use Rattle.update_stack.specs.inside.Carrying.{bare_jump, base_of_piece, EndsLow, FitsIn, HasHomeCode};
ghost use Rattle.update_stack.specs.inside.Carrying.{HoldsAfter, IsCarriedOut, IsKeptOf, IsPrepared};
ghost use Rattle.update_stack.specs.inside.Carrying.{shown_as};
ghost use Rattle.update_stack.specs.declared.updates.Arena.{Arena as ArenaOf};
ghost use Rattle.update_stack.specs.declared.updates.Kept.{Kept as KeptOf};
ghost use Rattle.image_threads.specs.Program.{Program};
ghost use Rattle.update_memory.specs.declared.types.Jump.{Jump as Jumped};
ghost use Rattle.update_plan.specs.declared.types.Plan.{Plan as Planned};
ghost use Rattle.update_plan.specs.Sound.{AllReplaceNewest, CanBeMade};

use crate::updates::{Kept, KeptList, Prepared, Update, Updates};
use image_memory::{Fence, Kind, Piece, Pieces, Space, ranges_of, sorted};
use image_threads::Machine;
use ks_base::{Name, Ranges, Replaced, Report};
use splice_jump::{
    code_stays_code, homes_stay_spliced, jumps_are_added_and_replaced, jumps_are_taken_back,
    jumps_change_their_bytes_alone,
};
use std::alloc::{AllocError, Global};
use std::mem;
use symbol_table::{Addresses, SymbolTable};
use update_memory::{
    Jump, Jumps, add_pieces, changes_are_withdrawn, code_that_stays, note_old_code,
    pieces_are_added, pieces_are_added_past_code, ranges_are_retired, retire, write_jumps,
};
use update_pieces::NewSymbols;
use update_plan::{AllNeeds, Plan};

/// Makes all that carrying a plan out takes memory for: what is put into the system's lists, and room in the program.
/// What is seen of the program stays, and so does the plan, out of which the needs of its fields are moved.
pub(crate) fn prepare<S: Space>(
    alloc: Global,
    machine: &mut Machine<S>,
    name: &Name,
    plan: &mut Plan,
) -> Result<Prepared, AllocError>
    requires pieces { ArePlaceable plan.old.pieces }
    requires ends { All EndsLow plan.old.report.replaced }
    ensures prepared { IfOk result (IsPrepared machine.old.contents name.now plan.old) }
    ensures rest { plan.new ≡ record plan.old { needs = plan.new.needs } }
    ensures seen { seen machine.new ≡ seen machine.old }
    ensures ranges { OnOk result (machine.new.room.ranges ≡ map piece_range plan.old.pieces) }
    ensures fences { OnOk result (length plan.old.fences ≤ machine.new.room.fences) }
    ensures symbols { OnOk result (length plan.old.symbols ≤ machine.new.table.spare) }
{
    reserve(machine, plan)?;
    let jumps = jumps_of(alloc, machine.space(), plan.report.replaced.as_slice())?;
    let update = shown_as(alloc, name, &plan.report)?;
    let kept = kept_of(alloc, plan, &jumps)?;
    Ok(Prepared {
        update,
        kept,
        jumps,
    })
}

/// Makes room in a program for pieces, retired ranges and symbols to come. What is seen of the program stays.
fn reserve<S: Space>(machine: &mut Machine<S>, plan: &Plan) -> Result<(), AllocError>
    requires { ArePlaceable plan.now.pieces }
    ensures seen { seen machine.new ≡ seen machine.old }
    ensures ranges { OnOk result (machine.new.room.ranges ≡ map piece_range plan.now.pieces) }
    ensures fences { OnOk result (length plan.now.fences ≤ machine.new.room.fences) }
    ensures symbols { OnOk result (length plan.now.symbols ≤ machine.new.table.spare) }
{
    let fences = counted(plan.fences.len())?;
    let symbols = counted(plan.symbols.len())?;
    machine.space_mut().reserve(&plan.pieces, fences)?;
    machine.symbols_mut().reserve(symbols)
}

/// A number of items as 32 bits. `Err` comes only for 2^32 and more: there is no room for so many.
fn counted(count: usize) -> Result<u32, AllocError>
    ensures value { IfOk result (λ n. n ≡ count) }
    ensures many { OnErr result (2 ^ 32 ≤ count) }
{
    match u32::try_from(count) {
        Ok(n) => Ok(n),
        Err(_) => Err(AllocError),
    }
}

/// Adds pieces, retires ranges, writes jumps and adds symbols, for which there is room. It takes no memory.
pub(crate) fn change<S: Space>(
    machine: &mut Machine<S>,
    pieces: Pieces,
    fences: &[Fence],
    jumps: &[Jump],
    symbols: NewSymbols,
)
    requires ranges { machine.old.room.ranges ≡ map piece_range pieces }
    requires fences { length fences.now ≤ machine.old.room.fences }
    requires spare { length symbols ≤ machine.old.table.spare }
    requires addable { AreAddable machine.old.contents pieces }
    requires retirable { AreRetirable (with_pieces machine.old.contents pieces) fences.now }
    requires code { All
        (HasHomeCode (with_fences (with_pieces machine.old.contents pieces) fences.now).pieces) jumps.now }
    ensures { seen machine.new ≡ record (seen machine.old) {
      contents = jumped_memory (rows_of jumps.now) (with_fences (with_pieces machine.old.contents pieces) fences.now);
      symbols = machine.old.table.symbols ++ symbols;
    } }
{
    let space = machine.space_mut();
    add_pieces(space, pieces);
    retire(space, fences);
    write_jumps(space, jumps);
    add_symbols(machine.symbols_mut(), symbols);
}

/// Adds symbols, for which there is room.
fn add_symbols(table: &mut SymbolTable, symbols: NewSymbols)
    requires { length symbols ≤ table.old.spare }
    ensures { table.new.symbols ≡ table.old.symbols ++ symbols }
{
    for symbol in symbols.into_vec() {
        table.add(symbol);
    }
}

/// The jumps of replaced functions, each with the code that stands at its home.
#[tactic(auto, using(crate::proofs::CarryLaws::rows_bare, crate::proofs::CarryLaws::homes_low))]
fn jumps_of<S: Space>(alloc: Global, space: &S, replaced: &[Replaced]) -> Result<Jumps, AllocError>
    requires { All EndsLow replaced.now }
    ensures rows { IfOk result (λ jumps. rows_of jumps ≡ jump_rows replaced.now) }
    ensures olds { IfOk result
        (λ jumps. olds_of jumps ≡ olds_at (S.contents space.now).pieces (jump_rows replaced.now)) }
{
    let jumps = bare_jumps(alloc, replaced)?;
    Ok(Jumps::from_vec(with_old_code(space, jumps)))
}

/// Jumps, each with the code that stands at its home.
fn with_old_code<S: Space>(space: &S, mut jumps: Vec<Jump>) -> Vec<Jump>
    requires { All (λ jump. jump.home + 5 ≤ 2 ^ 32) jumps.items }
    ensures rows { rows_of result.items ≡ rows_of jumps.items }
    ensures olds { olds_of result.items ≡ olds_at (S.contents space.now).pieces (rows_of jumps.items) }
{
    note_old_code(space, jumps.as_mut_slice());
    jumps
}

/// The jumps of replaced functions, before the code at their homes is noted.
fn bare_jumps(alloc: Global, replaced: &[Replaced]) -> Result<Vec<Jump>, AllocError>
    ensures { IfOk result (λ jumps. jumps.items ≡ map bare_jump replaced.now) }
{
    let mut jumps = Vec::new(alloc);
    for one in replaced {
        jumps.push(bare_jump(one))?;
    }
    Ok(jumps)
}

fn bare_jump(one: &Replaced) -> Jump
    ensures { result ≡ bare_jump one.now }
{
    Jump {
        home: one.home,
        base: one.base,
        old: [0; 5],
    }
}

/// What is kept of a plan that is carried out with these jumps. The needs of its fields are moved out of it.
fn kept_of(alloc: Global, plan: &mut Plan, jumps: &Jumps) -> Result<Kept, AllocError>
    requires { ArePlaceable plan.old.pieces }
    ensures kept { IfOk result (λ kept. IsKeptOf plan.old jumps.now kept) }
    ensures rest { plan.new ≡ record plan.old { needs = plan.new.needs } }
{
    let symbol_count = counted(plan.symbols.len())?;
    let (pieces, retired) = places_of(alloc, plan)?;
    let (ranges, code_ranges) = ranges_in_order(alloc, plan.pieces.as_slice())?;
    let (symbols, jumps) = copies_of(&plan.symbols, jumps)?;
    Ok(Kept {
        pieces,
        ranges,
        code_ranges,
        retired,
        symbols,
        symbol_count,
        needs: mem::replace(&mut plan.needs, AllNeeds::new(alloc)),
        jumps,
    })
}

/// Copies of symbols and jumps.
fn copies_of(symbols: &NewSymbols, jumps: &Jumps) -> Result<(NewSymbols, Jumps), AllocError>
    ensures symbols { IfOk result (λ copies. copies.0 ≡ symbols.now) }
    ensures jumps { IfOk result (λ copies. copies.1 ≡ jumps.now) }
{
    Ok((symbols.clone()?, jumps.clone()?))
}

/// Where the pieces of a plan begin, and the ranges that it retires.
fn places_of(alloc: Global, plan: &Plan) -> Result<(Addresses, Ranges), AllocError>
    ensures bases { IfOk result (λ places. places.0 ≡ map base_of_piece plan.now.pieces) }
    ensures retired { IfOk result (λ places. places.1 ≡ map fence_range plan.now.fences) }
{
    let bases = bases_of(alloc, plan.pieces.as_slice())?;
    Ok((bases, retired_of(alloc, plan.fences.as_slice())?))
}

/// The ranges of pieces, and those of the pieces of code, each in ascending order.
fn ranges_in_order(alloc: Global, pieces: &[Piece]) -> Result<(Ranges, Ranges), AllocError>
    requires { ArePlaceable pieces.now }
    ensures all { IfOk result (λ sorted. IsPermutation (map piece_range pieces.now) sorted.0) }
    ensures code { IfOk result
        (λ sorted. IsPermutation (map piece_range (filter is_text pieces.now)) sorted.1) }
    ensures order { IfOk result (λ sorted. IsNonDecreasingBy (λ range. range.low) sorted.0) }
    ensures code_order { IfOk result (λ sorted. IsNonDecreasingBy (λ range. range.low) sorted.1) }
{
    let all = in_order(alloc, &ranges_of(alloc, pieces)?)?;
    Ok((all, in_order(alloc, &code_ranges_of(alloc, pieces)?)?))
}

/// Ranges in ascending order.
fn in_order(alloc: Global, ranges: &Ranges) -> Result<Ranges, AllocError>
    ensures same { IfOk result (λ sorted. IsPermutation ranges.now sorted) }
    ensures order { IfOk result (λ sorted. IsNonDecreasingBy (λ range. range.low) sorted) }
{
    Ok(Ranges::from_vec(sorted(alloc, ranges.as_slice())?))
}

/// The ranges of the pieces of code.
fn code_ranges_of(alloc: Global, pieces: &[Piece]) -> Result<Ranges, AllocError>
    requires { ArePlaceable pieces.now }
    ensures { IfOk result (λ ranges. ranges ≡ map piece_range (filter is_text pieces.now)) }
{
    let mut ranges = Ranges::new(alloc);
    for piece in pieces {
        if piece.kind == Kind::Code {
            ranges.push(piece.range())?;
        }
    }
    Ok(ranges)
}

fn bases_of(alloc: Global, pieces: &[Piece]) -> Result<Addresses, AllocError>
    ensures { IfOk result (λ bases. bases ≡ map base_of_piece pieces.now) }
{
    let mut bases = Addresses::new(alloc);
    for piece in pieces {
        bases.push(piece.base)?;
    }
    Ok(bases)
}

fn retired_of(alloc: Global, fences: &[Fence]) -> Result<Ranges, AllocError>
    ensures { IfOk result (λ ranges. ranges ≡ map fence_range fences.now) }
{
    let mut ranges = Ranges::new(alloc);
    for fence in fences {
        ranges.push(fence.range)?;
    }
    Ok(ranges)
}

/// The update of a name, as it is shown.
fn shown_as(alloc: Global, name: &Name, report: &Report) -> Result<Update, AllocError>
    ensures { IfOk result (λ update. update ≡ shown_as name.now report.now) }
{
    Ok(Update {
        name: Name::from_slice(alloc, name.as_slice())?,
        report: report.clone()?,
    })
}

/// Puts an update, and what is kept of it, after the others. If memory runs out both lists are as before.
pub(crate) fn push_both(
    updates: &mut Updates,
    kept: &mut KeptList,
    update: Update,
    one: Kept,
) -> Result<(), AllocError>
    ensures updates { OnOk result (updates.new ≡ updates.old ++ update ∷ []) }
    ensures kept { OnOk result (kept.new ≡ kept.old ++ one ∷ []) }
    ensures refused_updates { OnErr result (updates.new ≡ updates.old) }
    ensures refused_kept { OnErr result (kept.new ≡ kept.old) }
{
    updates.push(update)?;
    if let Err(fault) = kept.push(one) {
        let _ = updates.pop();
        return Err(fault);
    }
    Ok(())
}

/// A plan that can be made on a system's machine fits in its program, each of its jumps ends at an address of 32 bits,
/// and when it is carried out, the system holds, as the machine after the update.
pub(crate) fn plans_are_carried_out()
    ensures fits { (program : Program)
        (arena : ArenaOf) (updates : List Shown) (kept : List KeptOf)
        (plan : Planned) (jumps : List Jumped) → Holds program arena updates kept
        → CanBeMade (contents_of (machine_of program arena updates kept)) plan
        → rows_of jumps ≡ jump_rows plan.report.replaced → FitsIn program.contents plan jumps }
    ensures ends { (program : Program)
        (arena : ArenaOf) (updates : List Shown) (kept : List KeptOf)
        (plan : Planned) → Holds program arena updates kept
        → CanBeMade (contents_of (machine_of program arena updates kept)) plan → All EndsLow plan.report.replaced }
    ensures holds { (before after : Program) (arena : ArenaOf) (updates : List Shown)
        (kept : List KeptOf) (name : List ℕ) (plan : Planned) (jumps : List Jumped) (one : KeptOf)
        → Holds before arena updates kept → CanBeMade (contents_of (machine_of before arena updates kept)) plan
        → AllReplaceNewest (bodies_in (machine_of before arena updates kept).table) plan
        → list_any (has_name name) (machine_of before arena updates kept).updates ≡ false
        → IsCarriedOut before after plan jumps → IsKeptOf plan jumps one
        → HoldsAfter before after arena updates kept name plan one }
{
    // Nothing is done here: the laws say what each change of the memory leaves, and what taking it back restores.
    pieces_are_added();
    ranges_are_retired();
    changes_are_withdrawn();
    code_that_stays();
    pieces_are_added_past_code();
    jumps_are_added_and_replaced();
    jumps_are_taken_back();
    jumps_change_their_bytes_alone();
    homes_stay_spliced();
    code_stays_code();
}
