//! The table of symbols.
ghost use Rattle.std.specs.Prelude.{◌≡◌, ◌==◌, ◌+◌, ◌<◌, ◌≤◌, ◌^◌, ◌++◌, [], ◌∷◌, length, max, vec_capacity, OnOk, OnErr, IfOk};
ghost use Rattle.std.specs.Option.{option_copied, option_map};
ghost use Rattle.std.specs.List.{slice_get, list_any};
ghost use Rattle.ks_base.specs.Gives.{Gives};
ghost use Rattle.symbol_table.specs.Symbols.{function_addresses, global_addresses, data_addresses};
ghost use Rattle.symbol_table.specs.Symbols.{name_below, missing_as, only_address, function_named, next_address};
ghost use Rattle.symbol_table.specs.Table.{without_symbols};

use crate::addresses::Addresses;
use crate::entries::{Entry, Index, entries_of, list_entries, note_last};
use crate::functions::function_below;
use crate::kinds::{Kind, addresses_of, is_global};
use crate::next::{lesser, next_of};
use crate::symbols::{Missing, Symbol};
use ks_base::{Name, Refusal};
use std::alloc::{AllocError, Global};
use std::marker::Model;

/// The offsets below which an address is shown with a function's name.
const NAMED_REACH: u32 = 65_536;

/// The most symbols that a table has, so that 32 bits count them.
const MOST_SYMBOLS: usize = u32::MAX as usize;

/// The symbols of a running program in order. A clause sees it as the list of its symbols and the number
/// of its spare places, which [`reserve`](SymbolTable::reserve) makes and [`add`](SymbolTable::add) takes.
#[derive(Drop)]
pub struct SymbolTable {
    symbols: Vec<Symbol>,
    /// the indices of the symbols, each in blocks that are in order
    functions: Vec<Entry>,
    data_entries: Vec<Entry>,
    globals: Vec<Entry>,
    names: Vec<Entry>,
    spare: usize,
}

impl Model for SymbolTable {
    ghost use Rattle.std.specs.Prelude.{◌≡◌};
    ghost use Rattle.symbol_table.specs.Table.{Table};

    ghost Value = { Table };

    ghost view = { λ t. record { symbols = t.symbols.items; spare = t.spare } };

    ghost use Rattle.symbol_table.specs.inside.Indexed.{IsIndexed};

    ghost invariant = { λ t. IsIndexed t.symbols t.functions t.data_entries t.globals t.names t.spare };
}

impl SymbolTable {
    /// The table without symbols and without spare places. It takes no memory; `alloc` is kept for what
    /// is reserved and answered later.
    pub fn new(alloc: Global) -> Self
        ensures { result ≡ record { symbols = []; spare = 0 } }
    {
        SymbolTable {
            symbols: Vec::new(alloc),
            functions: Vec::new(alloc),
            data_entries: Vec::new(alloc),
            globals: Vec::new(alloc),
            names: Vec::new(alloc),
            spare: 0,
        }
    }

    /// The table of some symbols, in their order, without spare places. Each index is sorted once, so that it is
    /// made faster than by [`add`](SymbolTable::add) of each symbol. An error comes only if memory runs out; for 2 to
    /// the 32nd symbols there is none.
    pub fn from_symbols(alloc: Global, symbols: Vec<Symbol>) -> Result<Self, AllocError>
        ensures { IfOk result (λ table. table ≡ record { symbols = symbols.items; spare = 0 }) }
    {
        if symbols.len() > MOST_SYMBOLS {
            return Err(AllocError);
        }
        let functions = entries_of(alloc, Index::Functions, symbols.as_slice())?;
        let data_entries = entries_of(alloc, Index::Data, symbols.as_slice())?;
        let globals = entries_of(alloc, Index::Globals, symbols.as_slice())?;
        let names = entries_of(alloc, Index::Names, symbols.as_slice())?;
        Ok(SymbolTable {
            symbols,
            functions,
            data_entries,
            globals,
            names,
            spare: 0,
        })
    }

    /// How many symbols the table has.
    pub fn len(&self) -> usize
        ensures value { result ≡ length self.now.symbols }
        ensures few { result < 2 ^ 32 }
    {
        self.symbols.len()
    }

    /// The symbol at index `i`, counted from 0, `None` exactly where there is none.
    pub fn get(&self, i: usize) -> Option<&Symbol>
        ensures { option_copied result ≡ slice_get self.now.symbols i }
    {
        self.symbols.as_slice().get(i)
    }

    /// The distinct addresses of the function symbols of a name, ascending.
    pub fn functions_of(&self, name: &Name) -> Result<Addresses, AllocError>
        ensures { IfOk result (λ found. found ≡ function_addresses self.now.symbols name.now) }
    {
        addresses_of(
            *self.symbols.allocator(),
            self.symbols.as_slice(),
            self.names.as_slice(),
            Kind::Function,
            name,
        )
    }

    /// The one address of the function symbols of a name. [`Refusal::NoSymbol`] comes exactly where there is
    /// none, [`Refusal::TwoNames`] with the two lowest where there are several, and [`Refusal::Memory`] only if memory
    /// runs out.
    pub fn function_named(&self, name: &Name) -> Result<u32, Refusal>
        ensures { Gives (λ address. address) result (function_named self.now.symbols name.now) }
    {
        let found = self.functions_of(name)?;
        only_address(
            *self.symbols.allocator(),
            name.as_slice(),
            found.as_slice(),
            Missing::NoSymbol,
        )
    }

    /// The distinct addresses of the global symbols of a name, ascending.
    pub fn globals_of(&self, name: &Name) -> Result<Addresses, AllocError>
        ensures { IfOk result (λ found. found ≡ global_addresses self.now.symbols name.now) }
    {
        addresses_of(
            *self.symbols.allocator(),
            self.symbols.as_slice(),
            self.names.as_slice(),
            Kind::Global,
            name,
        )
    }

    /// The distinct addresses of the data symbols of a name, those that aren't functions, ascending.
    pub fn data_of(&self, name: &Name) -> Result<Addresses, AllocError>
        ensures { IfOk result (λ found. found ≡ data_addresses self.now.symbols name.now) }
    {
        addresses_of(
            *self.symbols.allocator(),
            self.symbols.as_slice(),
            self.names.as_slice(),
            Kind::Data,
            name,
        )
    }

    /// The name that an address is shown with, and the offset from it in bytes: of the function symbols
    /// at or below the address the one with the greatest address, of several there the first, where the
    /// offset is below 65,536; `None` exactly where there is no such symbol. It takes no memory.
    pub fn name_at(&self, address: u32) -> Option<(&Name, u32)>
        ensures { option_map (λ shown. (shown.0.now, shown.1)) result ≡ name_below self.now.symbols address }
    {
        let symbols = self.symbols.as_slice();
        let symbol = function_below(symbols, self.functions.as_slice(), address)?;
        let offset = address - symbol.address;
        if offset < NAMED_REACH {
            Some((&symbol.name, offset))
        } else {
            None
        }
    }

    /// The least address of a symbol above an address, `None` exactly where there is none. It takes no memory,
    /// and no more time than the square of the logarithm of the number of symbols.
    pub fn next_address(&self, address: u32) -> Option<u32>
        ensures { result ≡ next_address self.now.symbols address }
    {
        lesser(
            next_of(self.functions.as_slice(), address),
            next_of(self.data_entries.as_slice(), address),
        )
    }

    /// Whether a global symbol of a name stands at an address: whether the address is one of
    /// [`globals_of`](SymbolTable::globals_of). It takes no memory, and no more time than the square of the
    /// logarithm of the number of symbols.
    pub fn is_global(&self, name: &Name, address: u32) -> bool
        ensures { result ≡ list_any (λ a. address == a) (global_addresses self.now.symbols name.now) }
    {
        is_global(
            self.symbols.as_slice(),
            self.globals.as_slice(),
            name,
            address,
        )
    }

    /// Makes spare places until there are `n`, if there are fewer. The symbols stay. `Err` comes only if memory runs
    /// out, as it does where places and symbols would be 2 to the 32nd or more, and the table is then as before.
    pub fn reserve(&mut self, n: u32) -> Result<(), AllocError>
        ensures symbols { self.new.symbols ≡ self.old.symbols }
        ensures spare { OnOk result (self.new.spare ≡ max self.old.spare n) }
        ensures err { OnErr result (self.new ≡ self.old) }
    {
        let wanted = n as usize;
        if wanted <= self.spare {
            return Ok(());
        }
        let count = self.symbols.len();
        if count + wanted > MOST_SYMBOLS {
            return Err(AllocError);
        }
        self.symbols.reserve(wanted)?;
        self.functions
            .reserve(count - self.functions.len() + wanted)?;
        self.data_entries
            .reserve(count - self.data_entries.len() + wanted)?;
        self.globals.reserve(count - self.globals.len() + wanted)?;
        self.names.reserve(count - self.names.len() + wanted)?;
        self.spare = wanted;
        Ok(())
    }

    /// Puts a symbol at the end, and takes one spare place. It takes no memory.
    pub fn add(&mut self, symbol: Symbol)
        requires { 0 < self.old.spare }
        ensures symbols { self.new.symbols ≡ self.old.symbols ++ symbol ∷ [] }
        ensures spare { self.new.spare + 1 ≡ self.old.spare }
    {
        self.symbols.push_reserved(symbol);
        let symbols = self.symbols.as_slice();
        note_last(&mut self.functions, Index::Functions, symbols);
        note_last(&mut self.data_entries, Index::Data, symbols);
        note_last(&mut self.globals, Index::Globals, symbols);
        note_last(&mut self.names, Index::Names, symbols);
        self.spare -= 1;
    }

    /// Takes `n` symbols away, the first of them at index `first`. The others stay in their order, and the spare places
    /// as many. It takes no memory.
    pub fn remove_at(&mut self, first: u32, n: u32)
        requires { first + n ≤ length self.old.symbols }
        ensures symbols { self.new.symbols ≡ without_symbols first n self.old.symbols }
        ensures spare { self.new.spare ≡ self.old.spare }
    {
        drop_range(&mut self.symbols, first as usize, n as usize);
        let symbols = self.symbols.as_slice();
        list_entries(&mut self.functions, Index::Functions, symbols);
        list_entries(&mut self.data_entries, Index::Data, symbols);
        list_entries(&mut self.globals, Index::Globals, symbols);
        list_entries(&mut self.names, Index::Names, symbols);
    }
}

/// Drops `n` symbols, the first of them at index `first`. It takes time in proportion to the symbols from there on.
fn drop_range(symbols: &mut Vec<Symbol>, first: usize, n: usize)
    requires { first + n ≤ length symbols.old.items }
    ensures items { symbols.new.items ≡ without_symbols first n symbols.old.items }
    ensures capacity { vec_capacity symbols.new ≡ vec_capacity symbols.old }
{
    symbols.drain(first..first + n);
}

/// The one address of a name, whose addresses are given in ascending order. The refusal that `missing` names comes
/// exactly where there is none, [`Refusal::TwoNames`] with the two lowest exactly where there are several, and
/// [`Refusal::Memory`] only if memory runs out.
pub fn only_address(
    alloc: Global,
    name: &[u8],
    addresses: &[u32],
    missing: Missing,
) -> Result<u32, Refusal>
    ensures { Gives (λ address. address) result (only_address missing name.now addresses.now) }
{
    match addresses {
        [address] => Ok(*address),
        [first, second, ..] => Err(Refusal::TwoNames {
            name: Name::from_slice(alloc, name)?,
            first: *first,
            second: *second,
        }),
        [] => Err(missing.refusal(Name::from_slice(alloc, name)?)),
    }
}

impl Missing {
    /// The refusal, of a name.
    fn refusal(self, name: Name) -> Refusal
        ensures { result ≡ missing_as self name }
    {
        match self {
            Missing::NoSymbol => Refusal::NoSymbol(name),
            Missing::Unresolved => Refusal::Unresolved(name),
        }
    }
}
