//! The symbols that an update adds.
ghost use Rattle.std.specs.Prelude.{◌≡◌, ◌++◌, map, IfOk, OnOk};
ghost use Rattle.link_post.specs.Sections.{variable_symbol};
ghost use Rattle.update_pieces.specs.NewSymbols.{new_symbols, symbols_of};

use crate::parts::{Part, PlacedPart, at_places};
use extract_post::Role;
use i386_reloc::ObjectSymbol;
use ks_base::ListOf;
use link_post::{Placement, function_symbol, variable_symbol};
use std::alloc::{AllocError, Global};
use symbol_table::Symbol;

/// Symbols in order.
pub type NewSymbols = ListOf<Symbol>;

/// The symbols of an update, in the order of its sections: of each function that it adds, and of each variable of new
/// data in the order of the object's symbol table. Each is global where it is so in the object. `Err` comes only if
/// memory runs out.
pub fn new_symbols(
    alloc: Global,
    parts: &[Part<'_, '_>],
    placement: &Placement,
) -> Result<NewSymbols, AllocError>
    ensures { IfOk result (λ symbols. symbols ≡ new_symbols parts.now placement.now) }
{
    let placed = at_places(alloc, parts, placement)?;
    let mut symbols = NewSymbols::new(alloc);
    for part in &placed {
        add_symbols(alloc, &mut symbols, part)?;
    }
    Ok(symbols)
}

/// Adds the symbols of one section.
fn add_symbols(
    alloc: Global,
    symbols: &mut NewSymbols,
    part: &PlacedPart<'_, '_>,
) -> Result<(), AllocError>
    ensures { OnOk result (symbols.new ≡ symbols.old ++ symbols_of part.now) }
{
    let section = part.section();
    match part.role() {
        Role::Added => symbols.push(function_symbol(alloc, section, part.base())?),
        Role::NewData => add_variables(alloc, symbols, section.objects.as_slice(), part.base()),
        Role::Changed => Ok(()),
        Role::Carried => Ok(()),
    }
}

/// Adds the symbols of the variables of a section.
fn add_variables(
    alloc: Global,
    symbols: &mut NewSymbols,
    objects: &[ObjectSymbol<'_>],
    base: u32,
) -> Result<(), AllocError>
    ensures { OnOk result (symbols.new ≡ symbols.old ++ map (variable_symbol base) objects.now) }
{
    for object in objects {
        symbols.push(variable_symbol(alloc, object, base)?)?;
    }
    Ok(())
}
