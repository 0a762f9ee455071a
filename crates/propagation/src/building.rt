//! The tables of what choices say.
ghost use Rattle.std.specs.Prelude.{◌≡◌, ◌<◌, ◌++◌, ◌∷◌, [], ℕ, length, All, OnOk, IfOk};
ghost use Rattle.std.specs.List.{Contains};
ghost use Rattle.propagation.specs.declared.choice.Demand.{Demand};
ghost use Rattle.propagation.specs.inside.Engine.{list_at, is_known, said_below, claims_of, claims_at};
ghost use Rattle.propagation.specs.inside.Engine.{demands_of, demands_at, place_if, members_at};
ghost use Rattle.propagation.specs.inside.Engine.{AreListed, Grows, HasDemands, HasNumbers};

use crate::choice::{Choice, Claim, Demand};
use crate::tables::{Entry, Known, Table};
use std::alloc::{AllocError, Global};

/// A number above that of each choice's section.
pub(crate) fn section_count(choices: &[Choice]) -> usize
    ensures { All (λ c. c.section < result) choices.now }
{
    let mut count = 0;
    for choice in choices {
        count = count.max(choice.section as usize + 1);
    }
    count
}

/// Puts the claims of the choice at a place into a table by unknown.
fn put_claims(
    alloc: Global,
    table: &mut Table<Entry>,
    place: usize,
    claims: &[Claim],
) -> Result<(), AllocError>
    ensures { OnOk result ((unknown : ℕ) →
        list_at table.new unknown ≡ list_at table.old unknown ++ claims_of unknown place claims.now) }
{
    for claim in claims {
        let entry = Entry {
            choice: place,
            value: claim.value,
        };
        table.push(alloc, claim.unknown as usize, entry)?;
    }
    Ok(())
}

/// By unknown, the choices that claim a value of it.
pub(crate) fn claims_by_unknown(
    alloc: Global,
    choices: &[Choice],
) -> Result<Table<Entry>, AllocError>
    ensures { IfOk result (λ table. (unknown : ℕ) →
        list_at table unknown ≡ said_below (claims_at choices.now unknown) (length choices.now)) }
{
    let mut table = Table::new(alloc);
    for (place, choice) in choices.iter().enumerate() {
        put_claims(alloc, &mut table, place, choice.claims.as_slice())?;
    }
    Ok(table)
}

/// Puts the place of a choice into a table by section.
fn put_member(
    alloc: Global,
    table: &mut Table<usize>,
    own: u32,
    place: usize,
) -> Result<(), AllocError>
    ensures { OnOk result ((section : ℕ) →
        list_at table.new section ≡ list_at table.old section ++ place_if section own place) }
{
    table.push(alloc, own as usize, place)
}

/// By section, its choices.
pub(crate) fn members_by_section(
    alloc: Global,
    choices: &[Choice],
) -> Result<Table<usize>, AllocError>
    ensures { IfOk result (λ table. (section : ℕ) →
        list_at table section ≡ said_below (members_at choices.now section) (length choices.now)) }
{
    let mut table = Table::new(alloc);
    for (place, choice) in choices.iter().enumerate() {
        put_member(alloc, &mut table, choice.section, place)?;
    }
    Ok(table)
}

/// Puts the demands that the choice at a place makes on other sections into a table by their numbers.
fn put_demands(
    alloc: Global,
    table: &mut Table<Entry>,
    place: usize,
    own: u32,
    demands: &[Demand],
) -> Result<(), AllocError>
    ensures { OnOk result ((number : ℕ) →
        list_at table.new number ≡ list_at table.old number ++ demands_of number place own demands.now) }
{
    for demand in demands {
        put_demand(alloc, table, place, own, *demand)?;
    }
    Ok(())
}

/// The same for one demand.
fn put_demand(
    alloc: Global,
    table: &mut Table<Entry>,
    place: usize,
    own: u32,
    demand: Demand,
) -> Result<(), AllocError>
    ensures { OnOk result ((number : ℕ) →
        list_at table.new number ≡ list_at table.old number ++ demands_of number place own (demand ∷ [])) }
{
    if demand.section == own {
        return Ok(());
    }
    let entry = Entry {
        choice: place,
        value: demand.section,
    };
    table.push(alloc, demand.number as usize, entry)
}

/// By the number of a demand, the choices that make it on another section than their own.
pub(crate) fn demands_by_number(
    alloc: Global,
    choices: &[Choice],
) -> Result<Table<Entry>, AllocError>
    ensures { IfOk result (λ table. (number : ℕ) →
        list_at table number ≡ said_below (demands_at choices.now number) (length choices.now)) }
{
    let mut table = Table::new(alloc);
    for (place, choice) in choices.iter().enumerate() {
        put_demands(
            alloc,
            &mut table,
            place,
            choice.section,
            choice.demands.as_slice(),
        )?;
    }
    Ok(table)
}

/// Puts the number of a demand on another section than its own into a table by section, where it wasn't put last.
fn put_number(
    alloc: Global,
    table: &mut Table<u32>,
    listed: &mut Known,
    own: u32,
    demand: Demand,
) -> Result<(), AllocError>
    requires { AreListed listed.old table.old }
    ensures listed { OnOk result (AreListed listed.new table.new) }
    ensures grows { OnOk result (Grows table.old table.new) }
    ensures put { OnOk result ((demand.section ≡ own → ⊥) → Contains (list_at table.new demand.section) demand.number) }
{
    if demand.section == own || listed.is(demand.number as usize, demand.section) {
        return Ok(());
    }
    table.push(alloc, demand.section as usize, demand.number)?;
    listed.set(demand.number as usize, demand.section);
    Ok(())
}

/// The same for each of some demands.
fn put_numbers(
    alloc: Global,
    table: &mut Table<u32>,
    listed: &mut Known,
    own: u32,
    demands: &[Demand],
) -> Result<(), AllocError>
    requires { AreListed listed.old table.old }
    ensures listed { OnOk result (AreListed listed.new table.new) }
    ensures grows { OnOk result (Grows table.old table.new) }
    ensures put { OnOk result (HasDemands own demands.now table.new) }
{
    for demand in demands {
        put_number(alloc, table, listed, own, *demand)?;
    }
    Ok(())
}

/// By section, the numbers of the demands that choices of other sections make on it, each once where a number is below
/// `room` and stands for demands on one section alone.
pub(crate) fn numbers_by_section(
    alloc: Global,
    choices: &[Choice],
    room: usize,
) -> Result<Table<u32>, AllocError>
    ensures { IfOk result (λ table. HasNumbers choices.now (length choices.now) table) }
{
    let mut table = Table::new(alloc);
    let mut listed = Known::new(alloc, room)?;
    for choice in choices {
        put_numbers(
            alloc,
            &mut table,
            &mut listed,
            choice.section,
            choice.demands.as_slice(),
        )?;
    }
    Ok(table)
}
