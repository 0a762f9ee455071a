//! Each call on its happy path, over one table of symbols that has several blocks.

use ks_base::{Line, Name};
use std::alloc::{AllocError, Global};
use std::test::Fail;
use symbol_table::{Bodies, Solved, Symbol, SymbolTable, Unknown, Values};

/// The address, whether it is a function, whether it is global, and the name.
type Row = (u32, bool, bool, &'static [u8]);

const ROWS: [Row; 13] = [
    (0x30, true, true, b"f"),
    (0x10, true, false, b"early"),
    (0x20, false, true, b"f"),
    (0x10, true, true, b"g"),
    (0x30, true, false, b"f"),
    (0x20, false, false, b"d"),
    (0x20, false, true, b"d"),
    (0x20100, true, true, b"far"),
    (0x20100, true, false, b"twin"),
    (0x8, true, false, b"f"),
    (0x40, true, true, b"f"),
    (0x10, true, false, b"late"),
    (0x28, false, true, b"f"),
];

/// Adds the rows from an index on.
fn add_rows(table: &mut SymbolTable, alloc: Global, from: usize) -> Result<(), AllocError> {
    for row in ROWS.iter().skip(from) {
        let symbol = Symbol {
            address: row.0,
            function: row.1,
            global: row.2,
            name: Name::from_slice(alloc, row.3)?,
        };
        table.reserve(1)?;
        table.add(symbol);
    }
    Ok(())
}

fn table_of_rows(alloc: Global) -> Result<SymbolTable, AllocError> {
    let mut table = SymbolTable::new(alloc);
    add_rows(&mut table, alloc, 0)?;
    Ok(table)
}

/// The table with its last four symbols taken away.
fn table_shortened(alloc: Global) -> Result<SymbolTable, AllocError> {
    let mut table = table_of_rows(alloc)?;
    if 13 <= table.len() {
        table.remove_at(9, 4);
    }
    Ok(table)
}

/// The table with three symbols taken away from among the others: data of `f`, the function `g` and a function `f`.
fn table_without_three(alloc: Global) -> Result<SymbolTable, AllocError> {
    let mut table = table_of_rows(alloc)?;
    if 5 <= table.len() {
        table.remove_at(2, 3);
    }
    Ok(table)
}

/// The same with these put back.
fn table_put_back(alloc: Global) -> Result<SymbolTable, AllocError> {
    let mut table = table_shortened(alloc)?;
    add_rows(&mut table, alloc, 9)?;
    Ok(table)
}

/// Whether a symbol stands at an index, with this address and name.
fn has_at(table: &SymbolTable, index: usize, address: u32, name: &[u8]) -> bool {
    match table.get(index) {
        Some(symbol) => symbol.address == address && symbol.name.as_slice() == name,
        None => false,
    }
}

/// Whether the symbol at an index has this address and name, and whether the table has so many.
fn ends_with(table: &SymbolTable, index: usize, address: u32, name: &[u8], length: usize) -> bool {
    has_at(table, index, address, name) && table.len() == length && table.get(length).is_none()
}

#[test]
fn symbols_stand_in_order(rt: HostRuntime) -> Result<(), Fail> {
    let table = table_of_rows(rt.alloc())?;
    assert!(rt; ends_with(&table, 1, 0x10, b"early", 13));
    let table = table_shortened(rt.alloc())?;
    let next = table.next_address(0x30) == Some(0x20100);
    assert!(rt; ends_with(&table, 8, 0x20100, b"twin", 9) && next && table.name_at(0xf).is_none());
    let table = table_without_three(rt.alloc())?;
    let around = has_at(&table, 1, 0x10, b"early") && has_at(&table, 2, 0x20, b"d");
    assert!(rt; around && ends_with(&table, 9, 0x28, b"f", 10));
    Ok(())
}

/// What a name is looked up as.
#[derive(Clone, Copy)]
enum Kind {
    Function,
    Global,
    Data,
}

/// Whether a name has these addresses.
fn has_addresses(
    alloc: Global,
    table: &SymbolTable,
    row: &(Kind, &str, &[u32]),
) -> Result<bool, AllocError> {
    let name = Name::from_slice(alloc, row.1.as_bytes())?;
    let found = match row.0 {
        Kind::Function => table.functions_of(&name)?,
        Kind::Global => table.globals_of(&name)?,
        Kind::Data => table.data_of(&name)?,
    };
    Ok(found.as_slice() == row.2)
}

/// Whether all names have their addresses.
fn have_addresses(
    alloc: Global,
    table: &SymbolTable,
    rows: &[(Kind, &str, &[u32])],
) -> Result<bool, AllocError> {
    for row in rows {
        if !has_addresses(alloc, table, row)? {
            return Ok(false);
        }
    }
    Ok(true)
}

#[test]
fn names_have_their_addresses(rt: HostRuntime) -> Result<(), Fail> {
    let rows: [(Kind, &str, &[u32]); 5] = [
        (Kind::Function, "f", &[0x8, 0x30, 0x40]),
        (Kind::Global, "f", &[0x20, 0x28, 0x30, 0x40]),
        (Kind::Data, "f", &[0x20, 0x28]),
        (Kind::Data, "d", &[0x20]),
        (Kind::Function, "d", &[]),
    ];
    let table = table_put_back(rt.alloc())?;
    assert!(rt; have_addresses(rt.alloc(), &table, &rows)?);
    let rows: [(Kind, &str, &[u32]); 2] = [
        (Kind::Function, "f", &[0x30]),
        (Kind::Data, "f", &[0x20]),
    ];
    let table = table_shortened(rt.alloc())?;
    assert!(rt; have_addresses(rt.alloc(), &table, &rows)?);
    let rows: [(Kind, &str, &[u32]); 4] = [
        (Kind::Function, "f", &[0x8, 0x30, 0x40]),
        (Kind::Function, "g", &[]),
        (Kind::Global, "f", &[0x28, 0x30, 0x40]),
        (Kind::Data, "f", &[0x28]),
    ];
    let table = table_without_three(rt.alloc())?;
    assert!(rt; have_addresses(rt.alloc(), &table, &rows)?);
    Ok(())
}

/// Whether `f` is global at some addresses.
fn are_global(alloc: Global) -> Result<[bool; 4], AllocError> {
    let table = table_put_back(alloc)?;
    let name = Name::from_slice(alloc, b"f")?;
    Ok([
        table.is_global(&name, 0x8),
        table.is_global(&name, 0x10),
        table.is_global(&name, 0x28),
        table.is_global(&name, 0x30),
    ])
}

#[test]
fn names_are_global_at_their_addresses(rt: HostRuntime) -> Result<(), Fail> {
    assert!(rt; are_global(rt.alloc())? == [false, false, true, true]);
    Ok(())
}

/// The address of the function of a name, or the line of the refusal.
fn function_line(alloc: Global, table: &SymbolTable, name: &str) -> Result<Line, AllocError> {
    let name = Name::from_slice(alloc, name.as_bytes())?;
    let mut line = Line::new(alloc);
    match table.function_named(&name) {
        Ok(address) => line.put_hex(address)?,
        Err(refusal) => line.put_refusal(&refusal)?,
    }
    Ok(line)
}

#[test]
fn names_have_one_function(rt: HostRuntime) -> Result<(), Fail> {
    let table = table_put_back(rt.alloc())?;
    let rows = [
        ("g", "0x00000010"),
        ("d", "refused 31 no symbol d\n"),
        ("f", "refused 19 two names f 0x00000008 0x00000030\n"),
    ];
    for (name, wanted) in rows {
        let line = function_line(rt.alloc(), &table, name)?;
        assert_eq!(rt; line.bytes(), wanted.as_bytes(), "{name}");
    }
    Ok(())
}

/// Whether an address has the name and the offset, and the next address, of a row.
fn is_near(table: &SymbolTable, row: &(u32, &[u8], u32, u32)) -> bool {
    let named = match table.name_at(row.0) {
        Some((name, offset)) => name.as_slice() == row.1 && offset == row.2,
        None => row.1.is_empty(),
    };
    named && table.next_address(row.0).unwrap_or(0) == row.3
}

#[test]
fn addresses_have_their_function(rt: HostRuntime) -> Result<(), Fail> {
    let table = table_put_back(rt.alloc())?;
    // the address, the name without which there is none, the offset, and the next address or 0
    let rows: [(u32, &[u8], u32, u32); 11] = [
        (0x7, b"", 0, 0x8),
        (0x8, b"f", 0, 0x10),
        (0xf, b"f", 7, 0x10),
        (0x10, b"early", 0, 0x20),
        (0x2f, b"early", 0x1f, 0x30),
        (0x31, b"f", 1, 0x40),
        (0x40, b"f", 0, 0x20100),
        (0x1003f, b"f", 0xffff, 0x20100),
        (0x10040, b"", 0, 0x20100),
        (0x20100, b"far", 0, 0),
        (0x300ff, b"far", 0xffff, 0),
    ];
    for row in rows.iter() {
        assert!(rt; is_near(&table, row), "at {}", row.0);
    }
    Ok(())
}

#[test]
fn homes_have_their_newest_base(rt: HostRuntime) -> Result<(), Fail> {
    let bodies = Bodies::new(vec![in rt.alloc(); (0x30, 0x900), (0x10, 0x700), (0x20, 0x800)]?);
    let found = [
        bodies.newest(0x10),
        bodies.newest(0x20),
        bodies.newest(0x30),
        bodies.newest(0x18),
        bodies.newest(0x700),
    ];
    assert!(rt; found == [0x700, 0x800, 0x900, 0x18, 0x700]);
    Ok(())
}

/// The values of a section of code and of one of data that have one name.
fn values(alloc: Global, body: Solved) -> Result<Values, Fail> {
    let mut values = Values::new(alloc);
    values.insert(Unknown::Code(Name::from_slice(alloc, b"f")?), body)?;
    let data = Unknown::Data(Name::from_slice(alloc, b"f")?);
    values.insert(data, Solved::Address(0x20))?;
    Ok(values)
}

/// What `f` comes to as code, as data and as an outside name.
fn values_of_f(alloc: Global, body: Solved) -> Result<[Option<Solved>; 3], Fail> {
    let values = values(alloc, body)?;
    let code = Unknown::Code(Name::from_slice(alloc, b"f")?);
    let data = Unknown::Data(Name::from_slice(alloc, b"f")?);
    let outside = Unknown::Outside(Name::from_slice(alloc, b"f")?);
    Ok([
        values.get(&code).copied(),
        values.get(&data).copied(),
        values.get(&outside).copied(),
    ])
}

#[test]
fn unknowns_have_their_values(rt: HostRuntime) -> Result<(), Fail> {
    let body = Solved::Body {
        home: 0x10,
        base: 0x700,
        length: 9,
    };
    let found = values_of_f(rt.alloc(), body)?;
    assert!(rt; found == [Some(body), Some(Solved::Address(0x20)), None]);
    Ok(())
}
