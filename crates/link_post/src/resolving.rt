//! Values of what the references of new code go to.
ghost use Rattle.std.specs.Prelude.{◌≡◌, ◌++◌, ◌∷◌, [], None, IfOk, OnOk};
ghost use Rattle.std.specs.Option.{option_copied};
ghost use Rattle.ks_base.specs.Gives.{Gives};
ghost use Rattle.i386_reloc.specs.Normal.{section_named};
ghost use Rattle.symbol_table.specs.Symbols.{data_addresses, only_address};
ghost use Rattle.link_post.specs.Values.{with_address, solved_as, needed_by, less, first_object, listed_as, with_value};
ghost use Rattle.link_post.specs.Values.{with_needed, is_kept_data, resolved_by, references_of, resolved};

use crate::linking::is_data;
use crate::lookups::solved_as;
use i386_reloc::{Normal, ObjectSymbol, Ref, Target};
use ks_base::{Name, Names, Refusal};
use std::alloc::{AllocError, Global};
use symbol_table::{Missing, Solved, SymbolTable, Unknown, Values, only_address};

/// The values with those that the references of some sections of `post` need besides, in the order in which the
/// references need them: of each name that the object doesn't define, and of each section of data that is in `pre`
/// too. A value that is there stays. Otherwise the one address that the table lists is taken: for a name its global
/// symbols, for a section the data symbols of its first variable in `post`, less the variable's offset.
///
/// At the first reference, section by section and in each by offset, whose name has no address,
/// [`Refusal::Unresolved`] comes with the name, or with the section's where it has no variable; where there are
/// several, [`Refusal::TwoNames`] with the two lowest. [`Refusal::Memory`] comes only if memory runs out. The time is n
/// log n in the references.
#[tactic(auto, unfolding(crate::specs::Values::resolved))]
pub fn resolve_post(
    alloc: Global,
    pre: &Normal<'_>,
    post: &Normal<'_>,
    sections: &Names,
    values: &Values,
    table: &SymbolTable,
) -> Result<Values, Refusal>
    ensures { Gives (λ found. found.entries) result
        (resolved pre.now post.now table.now.symbols sections.now values.now.entries) }
{
    let mut values = copied(values)?;
    for section in sections.as_slice() {
        resolve_section(alloc, pre, post, table, &mut values, section.as_slice())?;
    }
    Ok(values)
}

/// A copy of the values.
fn copied(values: &Values) -> Result<Values, AllocError>
    ensures { IfOk result (λ copy. copy.entries ≡ values.now.entries) }
{
    values.clone()
}

/// Adds the values that the references of a section need.
#[tactic(auto, unfolding(crate::specs::Values::resolved_by))]
fn resolve_section(
    alloc: Global,
    pre: &Normal<'_>,
    post: &Normal<'_>,
    table: &SymbolTable,
    values: &mut Values,
    section: &[u8],
) -> Result<(), Refusal>
    ensures { Gives (λ _. values.new.entries) result
        (resolved_by pre.now post.now table.now.symbols (references_of post.now section.now) values.old.entries) }
{
    match post.find(section) {
        Some(section) => resolve_all(alloc, pre, post, table, values, section.refs.as_slice()),
        None => Ok(()),
    }
}

/// Adds the values that references need.
#[tactic(auto, unfolding(crate::specs::Values::resolved_by))]
fn resolve_all(
    alloc: Global,
    pre: &Normal<'_>,
    post: &Normal<'_>,
    table: &SymbolTable,
    values: &mut Values,
    refs: &[Ref<'_>],
) -> Result<(), Refusal>
    ensures { Gives (λ _. values.new.entries) result
        (resolved_by pre.now post.now table.now.symbols refs.now values.old.entries) }
{
    for r in refs {
        resolve_target(alloc, pre, post, table, values, &r.target)?;
    }
    Ok(())
}

/// Adds the value that a reference to a target needs.
fn resolve_target(
    alloc: Global,
    pre: &Normal<'_>,
    post: &Normal<'_>,
    table: &SymbolTable,
    values: &mut Values,
    target: &Target<'_>,
) -> Result<(), Refusal>
    ensures { Gives (λ _. values.new.entries) result
        (with_needed post.now table.now.symbols values.old.entries (needed_by pre.now post.now target.now)) }
{
    match needed_by(alloc, pre, post, target)? {
        Some(which) => resolve(alloc, post, table, values, which),
        None => Ok(()),
    }
}

/// What a reference to a target needs a value of.
fn needed_by(
    alloc: Global,
    pre: &Normal<'_>,
    post: &Normal<'_>,
    target: &Target<'_>,
) -> Result<Option<Unknown>, AllocError>
    ensures { IfOk result (λ which. which ≡ needed_by pre.now post.now target.now) }
{
    match target {
        Target::Outside(name) => Ok(Some(Unknown::Outside(Name::from_slice(
            alloc,
            name.as_slice(),
        )?))),
        Target::Section(name) => {
            if is_kept_data(pre, post, name.as_slice()) {
                Ok(Some(Unknown::Data(Name::from_slice(alloc, name.as_slice())?)))
            } else {
                Ok(None)
            }
        }
        Target::Text { .. } => Ok(None),
    }
}

/// Whether a section of data is one of both objects.
fn is_kept_data(pre: &Normal<'_>, post: &Normal<'_>, name: &[u8]) -> bool
    ensures { result ≡ is_kept_data pre.now post.now name.now }
{
    is_data(post, name) && pre.find(name).is_some()
}

/// Adds the value of an unknown, which is looked up where it has none yet.
#[tactic(auto, unfolding(crate::specs::Values::with_value))]
fn resolve(
    alloc: Global,
    post: &Normal<'_>,
    table: &SymbolTable,
    values: &mut Values,
    which: Unknown,
) -> Result<(), Refusal>
    ensures { Gives (λ _. values.new.entries) result
        (with_value post.now table.now.symbols values.old.entries which) }
{
    if solved_as(values, &which).is_some() {
        return Ok(());
    }
    add_listed(alloc, post, table, values, which)
}

/// Adds the address that the running program lists for an unknown that has no value yet.
fn add_listed(
    alloc: Global,
    post: &Normal<'_>,
    table: &SymbolTable,
    values: &mut Values,
    which: Unknown,
) -> Result<(), Refusal>
    requires { solved_as values.old.entries which ≡ None }
    ensures { Gives (λ _. values.new.entries) result
        (with_address values.old.entries which (listed_as post.now table.now.symbols which)) }
{
    let address = listed_as(alloc, post, table, &which)?;
    add_address(values, which, address)?;
    Ok(())
}

/// Puts the address of an unknown that has no value yet at the end. `Err` comes only if memory runs out.
pub fn add_address(values: &mut Values, which: Unknown, address: u32) -> Result<(), AllocError>
    requires { solved_as values.old.entries which ≡ None }
    ensures { OnOk result (values.new.entries ≡ values.old.entries ++ (which, Solved.Address address) ∷ []) }
{
    values.insert(which, Solved::Address(address))?;
    Ok(())
}

/// The address that the running program lists for an unknown.
fn listed_as(
    alloc: Global,
    post: &Normal<'_>,
    table: &SymbolTable,
    which: &Unknown,
) -> Result<u32, Refusal>
    ensures { Gives (λ address. address) result (listed_as post.now table.now.symbols which.now) }
{
    match which {
        Unknown::Outside(name) => {
            let addresses = table.globals_of(name)?;
            only_address(
                alloc,
                name.as_slice(),
                addresses.as_slice(),
                Missing::Unresolved,
            )
        }
        Unknown::Data(name) => match first_object(post, name.as_slice()) {
            Some(object) => address_by(alloc, table, object),
            None => Err(Refusal::Unresolved(Name::from_slice(alloc, name.as_slice())?)),
        },
        Unknown::Code(name) => Err(Refusal::Unresolved(Name::from_slice(alloc, name.as_slice())?)),
    }
}

/// The first variable of the section of a name.
fn first_object<'a, 'b>(post: &'a Normal<'b>, name: &[u8]) -> Option<&'a ObjectSymbol<'b>>
    ensures { option_copied result ≡ first_object (section_named post.now name.now) }
{
    let section = post.find(name)?;
    section.objects.get(0)
}

/// Where the section begins that has a variable, by the variable's one address.
fn address_by(alloc: Global, table: &SymbolTable, object: &ObjectSymbol<'_>) -> Result<u32, Refusal>
    ensures { Gives (λ address. address) result
        (less object.now.value (only_address Missing.Unresolved object.now.name
        (data_addresses table.now.symbols object.now.name))) }
{
    let name = Name::from_slice(alloc, object.name.as_slice())?;
    let addresses = table.data_of(&name)?;
    let address = only_address(
        alloc,
        name.as_slice(),
        addresses.as_slice(),
        Missing::Unresolved,
    )?;
    Ok(address.wrapping_sub(object.value))
}
