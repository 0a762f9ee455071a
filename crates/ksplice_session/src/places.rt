//! An address and the state of a thread.
ghost use Rattle.std.specs.Prelude.{◌≡◌, ◌++◌, OnOk};
ghost use Rattle.std.specs.Option.{option_map};
ghost use Rattle.ksplice_session.specs.Places.{named_text, place_text, state_text};

use ia32_step::{State, Thread};
use ks_base::{Line, Name};
use std::alloc::AllocError;
use symbol_table::SymbolTable;

fn put_named(line: &mut Line, place: Option<(&Name, u32)>) -> Result<(), AllocError>
    ensures { OnOk result (line.new ≡ line.old ++ named_text (option_map (λ p. (p.0.now, p.1)) place.entry)) }
{
    if let Some((name, offset)) = place {
        line.put_text(" ")?;
        line.put_name(name)?;
        line.put_text("+")?;
        line.put_offset(offset)?;
    }
    Ok(())
}

/// An address, and the function that it lies in.
#[tactic(auto, unfolding(crate::specs::Places::place_text))]
pub(crate) fn put_place(
    line: &mut Line,
    symbols: &SymbolTable,
    address: u32,
) -> Result<(), AllocError>
    ensures { OnOk result (line.new ≡ line.old ++ place_text symbols.now.symbols address) }
{
    line.put_hex(address)?;
    put_named(line, symbols.name_at(address))
}

/// A space, and the state of a thread.
#[tactic(auto, unfolding(crate::specs::Places::state_text))]
pub(crate) fn put_state(
    line: &mut Line,
    symbols: &SymbolTable,
    thread: &Thread,
) -> Result<(), AllocError>
    ensures { OnOk result (line.new ≡ line.old ++ state_text symbols.now.symbols thread.now) }
{
    match thread.state {
        State::Running => {
            line.put_text(" running ")?;
            put_place(line, symbols, thread.pc)
        }
        State::Exited(value) => {
            line.put_text(" exited ")?;
            line.put_hex(value)
        }
        State::Stopped(fault) => {
            line.put_text(" stopped ")?;
            line.put_text(fault.word())?;
            line.put_text(" ")?;
            put_place(line, symbols, thread.pc)
        }
    }
}
