//! What follows the first words of a refusal.
ghost use Rattle.std.specs.Prelude.{◌≡◌, ◌++◌, OnOk};
ghost use Rattle.ks_base.specs.Refusals.{register_name, difference_word, busy_text, mismatch_text};
ghost use Rattle.ks_base.specs.Refusals.{conflict_name_text, value_at_text, conflict_text};
ghost use Rattle.ks_base.specs.inside.Fields.{fields_text};

use crate::parts::Part::{Address, Named, Number, Offset, Words};
use crate::parts::put_parts;
use crate::places::{Name, Spot};
use crate::refusals::{ConflictName, Difference, DifferenceKind, Place, Standing};
use crate::reply::Line;
use std::alloc::AllocError;

/// The fields of a refusal, by the form in which they are written.
#[derive(Clone, Copy)]
pub(crate) enum Fields<'a> {
    Nothing,
    Word(&'a str),
    Number(u32),
    Numbers(u32, u32),
    NumberAndWord(u32, &'a str),
    NumberAndAddress(u32, u32),
    Offset(u32),
    Addresses(u32, u32),
    Name(&'a Name),
    NameAndNumber(&'a Name, u32),
    NameAndNumbers(&'a Name, u32, u32),
    NameAndOffset(&'a Name, u32),
    NameAndAddresses(&'a Name, u32, u32),
    NameAndRoom(&'a Name, u32),
    NameAndField(&'a Name, &'a Name, u32),
    NameAndFault(&'a Name, &'a str, u32),
    Standing(Standing),
    Difference(&'a Name, Difference),
    Values(&'a ConflictName, u32, u32, &'a Spot, &'a Spot),
}

impl DifferenceKind {
    fn word(self) -> &'static str
        ensures { result.now ≡ difference_word self }
    {
        match self {
            DifferenceKind::End => "end",
            DifferenceKind::Undecoded => "undecoded",
            DifferenceKind::Opcode => "opcode",
            DifferenceKind::Operand => "operand",
            DifferenceKind::Target => "target",
            DifferenceKind::Value => "value",
            DifferenceKind::Content => "content",
        }
    }
}

fn name_of_register(number: u8) -> &'static str
    ensures { result.now ≡ register_name number }
{
    match number {
        0 => "eax",
        1 => "ecx",
        2 => "edx",
        3 => "ebx",
        4 => "esp",
        5 => "ebp",
        6 => "esi",
        7 => "edi",
        _ => "",
    }
}

/// The text of a thread that stands in a range: where it has which address of it.
fn put_busy(line: &mut Line, standing: Standing) -> Result<(), AllocError>
    ensures { OnOk result (line.new ≡ line.old ++ busy_text standing.thread standing.place standing.value) }
{
    let Standing {
        thread,
        value,
        place,
    } = standing;
    match place {
        Place::Pc => put_parts(
            line,
            &[
                Words("busy thread "),
                Number(thread),
                Words(" pc "),
                Address(value),
            ],
        ),
        Place::Register(number) => put_parts(
            line,
            &[
                Words("busy thread "),
                Number(thread),
                Words(" register "),
                Words(name_of_register(number)),
                Words(" "),
                Address(value),
            ],
        ),
        Place::Stack(slot) => put_parts(
            line,
            &[
                Words("busy thread "),
                Number(thread),
                Words(" stack "),
                Address(slot),
                Words(" "),
                Address(value),
            ],
        ),
    }
}

/// The text of what two candidates give two values, before these values.
fn put_conflict_name(line: &mut Line, unknown: &ConflictName) -> Result<(), AllocError>
    ensures { OnOk result (line.new ≡ line.old ++ conflict_name_text unknown.now) }
{
    match unknown.offset {
        None => put_parts(line, &[Words("conflict "), Named(&unknown.name)]),
        Some(offset) => put_parts(
            line,
            &[
                Words("conflict "),
                Named(&unknown.name),
                Words("+"),
                Offset(offset),
            ],
        ),
    }
}

/// The text of a value and of the place where it stands.
fn put_value_at(line: &mut Line, value: u32, at: &Spot) -> Result<(), AllocError>
    ensures { OnOk result (line.new ≡ line.old ++ value_at_text value at.now) }
{
    put_parts(
        line,
        &[
            Words(" "),
            Address(value),
            Words(" at "),
            Named(&at.section),
            Words("+"),
            Offset(at.offset),
        ],
    )
}

fn put_conflict(
    line: &mut Line,
    unknown: &ConflictName,
    a: u32,
    at_a: &Spot,
    b: u32,
    at_b: &Spot,
) -> Result<(), AllocError>
    ensures { OnOk result (line.new ≡ line.old ++ conflict_text unknown.now a b at_a.now at_b.now) }
{
    put_conflict_name(line, unknown)?;
    put_value_at(line, a, at_a)?;
    put_value_at(line, b, at_b)
}

fn put_mismatch(line: &mut Line, section: &Name, difference: Difference) -> Result<(), AllocError>
    ensures { OnOk result (line.new ≡ line.old ++ mismatch_text section.now difference) }
{
    put_parts(
        line,
        &[
            Words("mismatch "),
            Named(section),
            Words(" index "),
            Number(difference.index),
            Words(" pre "),
            Offset(difference.pre_offset),
            Words(" run "),
            Address(difference.run_address),
            Words(" "),
            Words(difference.kind.word()),
        ],
    )
}

/// Appends the fields of a refusal.
pub(crate) fn put_fields(line: &mut Line, fields: Fields<'_>) -> Result<(), AllocError>
    ensures { OnOk result (line.new ≡ line.old ++ fields_text fields.entry) }
{
    match fields {
        Fields::Nothing => Ok(()),
        Fields::Word(word) => line.put_text(word),
        Fields::Number(n) => line.put_number(u64::from(n)),
        Fields::Numbers(a, b) => put_parts(line, &[Number(a), Words(" "), Number(b)]),
        Fields::NumberAndWord(n, word) => put_parts(line, &[Number(n), Words(" "), Words(word)]),
        Fields::NumberAndAddress(n, a) => put_parts(line, &[Number(n), Words(" "), Address(a)]),
        Fields::Offset(offset) => line.put_offset(offset),
        Fields::Addresses(a, b) => put_parts(line, &[Address(a), Words(" "), Address(b)]),
        Fields::Name(name) => line.put_name(name),
        Fields::NameAndNumber(name, n) => put_parts(line, &[Named(name), Words(" "), Number(n)]),
        Fields::NameAndNumbers(name, a, b) => put_parts(
            line,
            &[Named(name), Words(" "), Number(a), Words(" "), Number(b)],
        ),
        Fields::NameAndOffset(name, o) => put_parts(line, &[Named(name), Words(" "), Offset(o)]),
        Fields::NameAndAddresses(name, a, b) => put_parts(
            line,
            &[Named(name), Words(" "), Address(a), Words(" "), Address(b)],
        ),
        Fields::NameAndRoom(name, n) => {
            put_parts(line, &[Named(name), Words(" room "), Number(n)])
        }
        Fields::NameAndField(name, section, offset) => put_parts(
            line,
            &[
                Named(name),
                Words(" "),
                Named(section),
                Words("+"),
                Offset(offset),
            ],
        ),
        Fields::NameAndFault(name, word, pc) => put_parts(
            line,
            &[
                Named(name),
                Words(" "),
                Words(word),
                Words(" "),
                Address(pc),
            ],
        ),
        Fields::Standing(standing) => put_busy(line, standing),
        Fields::Difference(section, difference) => put_mismatch(line, section, difference),
        Fields::Values(unknown, a, b, at_a, at_b) => put_conflict(line, unknown, a, at_a, b, at_b),
    }
}
