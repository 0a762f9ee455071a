//! The symbols of a linked image.
ghost use Rattle.std.specs.Prelude.{◌≡◌, ◌+◌, ◌++◌, ◌∷◌, [], ◌≤◌, length, min, IfOk, OnOk};
ghost use Rattle.std.specs.List.{flat_map};
ghost use Rattle.image_link.specs.Symbols.{all_symbols, if_named, symbols_at, symbols_of, variable_in};
ghost use Rattle.image_link.specs.inside.Counting.{is_listed};

use crate::laid::LaidObject;
use i386_reloc::{NormalSection, ObjectSymbol};
use ks_base::ListOf;
use link_post::{function_symbol, variable_symbol};
use std::alloc::{AllocError, Global};
use symbol_table::Symbol;

/// One more symbol than an image may have: no more are counted.
const COUNT_END: usize = 65_537;

/// How many symbols there are, counted up to one more than an image may have.
#[tactic(auto, unfolding(crate::specs::Symbols::all_symbols))]
pub(crate) fn count_symbols(laid: &[LaidObject<'_, '_>]) -> usize
    ensures { result ≡ min (length (all_symbols laid.now)) 65537 }
{
    let mut count = 0;
    for object in laid {
        count = count_object(count, object);
    }
    count
}

/// A count with the symbols of an object.
#[tactic(auto, using(crate::proofs::Counts::parts_more, crate::proofs::Zips::zipped_all))]
fn count_object(count: usize, laid: &LaidObject<'_, '_>) -> usize
    requires { count ≤ 65537 }
    ensures { result ≡ min (count + length (symbols_of laid.now)) 65537 }
{
    let object = laid.object();
    let placement = laid.placement();
    let mut counted = count;
    for (section, place) in object.as_slice().iter().zip(placement.as_slice()) {
        counted = count_section(counted, section, place.base);
    }
    counted
}

/// A count with the symbols of a section at a base.
fn count_section(count: usize, section: &NormalSection<'_>, base: u32) -> usize
    requires { count ≤ 65537 }
    ensures { result ≡ min (count + length (symbols_at section.now base)) 65537 }
{
    if !section.class.is_code() {
        return count_variables(count, section, base);
    }
    if section.function_name().is_empty() {
        return count;
    }
    (count + 1).min(COUNT_END)
}

/// A count with the variables of a section at a base.
#[tactic(auto, using(crate::proofs::Counts::listed_one, crate::proofs::Counts::listed_none))]
fn count_variables(count: usize, section: &NormalSection<'_>, base: u32) -> usize
    requires { count ≤ 65537 }
    ensures { result ≡ min (count + length (flat_map (variable_in section.now base) section.now.objects)) 65537 }
{
    let _ = base;
    let mut counted = count;
    for object in section.objects.as_slice() {
        if is_listed(section, object) {
            counted = (counted + 1).min(COUNT_END);
        }
    }
    counted
}

/// Whether a variable is listed: it begins inside its section, and has a name.
fn is_listed(section: &NormalSection<'_>, object: &ObjectSymbol<'_>) -> bool
    ensures { result ≡ is_listed section.now object.now }
{
    object.value < section.size && !object.name.as_slice().is_empty()
}

/// The symbols of all objects, in the order of the objects and of their sections.
#[tactic(auto, unfolding(crate::specs::Symbols::all_symbols))]
pub(crate) fn all_symbols(
    alloc: Global,
    laid: &[LaidObject<'_, '_>],
) -> Result<ListOf<Symbol>, AllocError>
    ensures { IfOk result (λ symbols. symbols ≡ all_symbols laid.now) }
{
    let mut symbols = ListOf::new(alloc);
    for object in laid {
        add_object(alloc, &mut symbols, object)?;
    }
    Ok(symbols)
}

/// Adds the symbols of an object.
#[tactic(auto, using(crate::proofs::Zips::joined_more, crate::proofs::Zips::zipped_all))]
fn add_object(
    alloc: Global,
    symbols: &mut ListOf<Symbol>,
    laid: &LaidObject<'_, '_>,
) -> Result<(), AllocError>
    ensures { OnOk result (symbols.new ≡ symbols.old ++ symbols_of laid.now) }
{
    let object = laid.object();
    let placement = laid.placement();
    for (section, place) in object.as_slice().iter().zip(placement.as_slice()) {
        add_section(alloc, symbols, section, place.base)?;
    }
    Ok(())
}

/// Adds the symbols of a section at a base.
fn add_section(
    alloc: Global,
    symbols: &mut ListOf<Symbol>,
    section: &NormalSection<'_>,
    base: u32,
) -> Result<(), AllocError>
    ensures { OnOk result (symbols.new ≡ symbols.old ++ symbols_at section.now base) }
{
    if section.class.is_code() {
        return add_named(symbols, function_symbol(alloc, section, base)?);
    }
    add_variables(alloc, symbols, section, base)
}

/// Adds the variables of a section at a base that begin inside it.
fn add_variables(
    alloc: Global,
    symbols: &mut ListOf<Symbol>,
    section: &NormalSection<'_>,
    base: u32,
) -> Result<(), AllocError>
    ensures { OnOk result (symbols.new
        ≡ symbols.old ++ flat_map (variable_in section.now base) section.now.objects) }
{
    for object in section.objects.as_slice() {
        if object.value < section.size {
            add_named(symbols, variable_symbol(alloc, object, base)?)?;
        }
    }
    Ok(())
}

/// Adds a symbol that has a name.
fn add_named(symbols: &mut ListOf<Symbol>, symbol: Symbol) -> Result<(), AllocError>
    ensures { OnOk result (symbols.new ≡ symbols.old ++ if_named symbol) }
{
    if symbol.name.is_empty() {
        return Ok(());
    }
    symbols.push(symbol)
}
