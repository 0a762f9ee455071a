//! What outside names come to: the addresses of the global symbols.
ghost use Rattle.std.specs.Prelude.{[]};
ghost use Rattle.ks_base.specs.Gives.{Gives};
ghost use Rattle.image_link.specs.inside.Globals.{with_all, with_symbol};

use ks_base::{ListOf, Refusal};
use link_post::{add_address, solved_as};
use std::alloc::Global;
use symbol_table::{Symbol, Unknown, Values};

/// The address of each global symbol, under its name. [`Refusal::DoubleGlobal`] comes with the first name that an
/// earlier one has, too.
#[tactic(auto, unfolding(crate::specs::inside::Globals::with_all))]
pub(crate) fn global_values(alloc: Global, symbols: &ListOf<Symbol>) -> Result<Values, Refusal>
    ensures { Gives (λ values. values.entries) result (with_all [] symbols.now) }
{
    let mut values = Values::new(alloc);
    for symbol in symbols.as_slice() {
        add_symbol(alloc, &mut values, symbol)?;
    }
    Ok(values)
}

/// Adds the address of a symbol, if it is global.
fn add_symbol(alloc: Global, values: &mut Values, symbol: &Symbol) -> Result<(), Refusal>
    ensures { Gives (λ _. values.new.entries) result (with_symbol values.old.entries symbol.now) }
{
    if !symbol.global {
        return Ok(());
    }
    let which = Unknown::Outside(symbol.name.clone()?);
    if solved_as(values, &which).is_some() {
        return Err(Refusal::DoubleGlobal(symbol.name.clone()?));
    }
    add_address(values, which, symbol.address)?;
    Ok(())
}
