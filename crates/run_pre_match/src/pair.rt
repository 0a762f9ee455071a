//! Two instructions that are compared.
ghost use Rattle.std.specs.Prelude.{◌≡◌, ◌&&◌, Some, None, IsTrue, ◌+◌, ◌<◌, ◌^◌, not, length, is_some, if◌then◌else◌};
ghost use Rattle.std.specs.List.{list_any};
ghost use Rattle.i386_reloc.specs.Normal.{same_bytes};
ghost use Rattle.ia32_decode.specs.Branches.{same_kind};
ghost use Rattle.ia32_decode.specs.Encoding.{byte_in, dword_in};
ghost use Rattle.match_instructions.specs.Instructions.{direct_branch};
ghost use Rattle.match_constants.specs.Constants.{covers};
ghost use Rattle.run_pre_match.specs.WideForms.{form_bytes, form_fields, moved_references, is_cut};
ghost use Rattle.run_pre_match.specs.Found.{held_with};
ghost use Rattle.run_pre_match.specs.Differences.{differs_in_opcode, blanked, blanked_form, differs_in_operand};
ghost use Rattle.run_pre_match.specs.Differences.{difference_at};

use crate::forms::Form;
use crate::widening::{field_for, front, has_four, is_in_field, offset_in};
use i386_reloc::{FIELD_LENGTH, Ref};
use ia32_decode::{Branch, BranchKind, Fields};
use ks_base::{Difference, DifferenceKind};
use match_instructions::{PreInstruction, RunInstruction};
use std::marker::Model;

/// Two instructions that are compared, and their number.
#[derive(Drop)]
pub(crate) struct Pair<'i, 's, 'a> {
    pub(crate) index: u32,
    pub(crate) pre: &'i PreInstruction<'s, 'a>,
    pub(crate) run: &'i RunInstruction,
}

impl<'i, 's, 'a> Model for Pair<'i, 's, 'a> {
    ghost use Rattle.run_pre_match.specs.Candidate.{Pair};

    ghost Value = { Pair };

    ghost view = { λ p. record { index = p.index; pre = p.pre.now; run = p.run.now } };
}

/// Whether two direct branches are of one kind.
fn same_kind(a: BranchKind, b: BranchKind) -> bool
    ensures { result ≡ same_kind a b }
{
    match (a, b) {
        (BranchKind::Call, BranchKind::Call) => true,
        (BranchKind::Jump, BranchKind::Jump) => true,
        (BranchKind::JumpIf(a), BranchKind::JumpIf(b)) => a.number() == b.number(),
        (BranchKind::Loop(a), BranchKind::Loop(b)) => a == b,
        _ => false,
    }
}

/// The byte of an instruction at an offset, 0 past its end.
fn byte_in(bytes: &[u8], at: usize) -> u8
    ensures { result ≡ byte_in bytes.now at }
{
    bytes.get(at).copied().unwrap_or(0)
}

/// The dword of an instruction at an offset.
fn dword_in(bytes: &[u8], at: u32) -> u32
    ensures { result ≡ dword_in bytes.now at }
{
    let at = at as usize;
    u32::from_le_bytes([
        byte_in(bytes, at),
        byte_in(bytes, at + 1),
        byte_in(bytes, at + 2),
        byte_in(bytes, at + 3),
    ])
}

/// Whether running bytes, with zeros in the fields of an object's references as they stand in the wide form of its
/// instruction, are other bytes.
#[tactic(auto, unfolding(crate::specs::Differences::blanked))]
fn same_outside_fields(
    instruction: &PreInstruction<'_, '_>,
    fields: &Fields,
    place: usize,
    run: &[u8],
    pre: &[u8],
) -> bool
    requires fields { fields.now ≡ form_fields instruction.now }
    requires low { place + length run.now < 2 ^ 33 }
    ensures { result ≡ same_bytes (blanked (moved_references instruction.now) place run.now) pre.now }
{
    let [running, run @ ..] = run else {
        return pre.is_empty();
    };
    let [own, pre @ ..] = pre else {
        return false;
    };
    blanked(instruction, fields, place, *running) == *own
        && same_outside_fields(instruction, fields, place + 1, run, pre)
}

/// A running byte, or 0 in the field of a reference.
fn blanked(instruction: &PreInstruction<'_, '_>, fields: &Fields, place: usize, byte: u8) -> u8
    requires { fields.now ≡ form_fields instruction.now }
    ensures { result ≡ (if list_any (covers place) (moved_references instruction.now) then 0 else byte) }
{
    if is_in_field(instruction, fields, place) {
        0
    } else {
        byte
    }
}

impl Pair<'_, '_, '_> {
    /// Whether two direct branches have different prefixes or are of different kinds.
    fn differ_as_branches(&self, a: &Branch, b: &Branch) -> bool
        ensures { result ≡ differs_in_opcode (Some a.now) (Some b.now) self.now }
    {
        !(same_kind(a.kind, b.kind)
            && front(self.pre.bytes(), self.pre.decoded().prefixes.count as usize)
                == front(self.run.bytes(), self.run.decoded().prefixes.count as usize))
    }

    /// Whether both have the same bytes, and so the same wide form.
    fn are_equal(&self) -> bool
        ensures bytes { IsTrue result → self.now.pre.bytes ≡ self.now.run.bytes }
        ensures decoded { IsTrue result → self.now.pre.decoded ≡ self.now.run.decoded }
    {
        self.pre.bytes() == self.run.bytes()
    }

    /// Whether the prefixes and opcodes of the wide forms differ.
    fn differ_as_forms(&self) -> bool
        ensures { result ≡ differs_in_opcode None None self.now }
    {
        if self.are_equal() {
            return false;
        }
        let pre = Form::of(self.pre.bytes(), self.pre.decoded());
        let run = Form::of(self.run.bytes(), self.run.decoded());
        front(pre.bytes(), self.pre.decoded().fields.opcode_end as usize)
            != front(run.bytes(), self.run.decoded().fields.opcode_end as usize)
    }

    /// Whether prefixes, opcodes or kinds of branch differ.
    pub(crate) fn differs_in_opcode(&self) -> bool
        ensures { result ≡ differs_in_opcode (direct_branch self.now.pre) (direct_branch self.now.run) self.now }
    {
        match (self.pre.branch(), self.run.branch()) {
            (Some(a), Some(b)) => self.differ_as_branches(&a, &b),
            (None, None) => self.differ_as_forms(),
            _ => true,
        }
    }

    /// Whether the bytes of the wide forms outside the fields of references, or their lengths, differ.
    fn differ_outside_fields(&self) -> bool
        ensures { result ≡ not (same_bytes (blanked_form self.now) (form_bytes self.now.pre)) }
    {
        let pre = Form::of(self.pre.bytes(), self.pre.decoded());
        let run = Form::of(self.run.bytes(), self.run.decoded());
        !same_outside_fields(
            self.pre,
            pre.fields(),
            self.pre.place() as usize,
            run.bytes(),
            pre.bytes(),
        )
    }

    /// Whether the running instruction, as it stands, hasn't four bytes where a reference of the other has its field.
    fn is_cut(&self) -> bool
        ensures { result ≡ list_any (is_cut self.now.pre self.now.run) self.now.pre.references }
    {
        let fields = &self.run.decoded().fields;
        self.pre
            .references()
            .iter()
            .any(|r| !has_four(field_for(self.pre, r, fields)))
    }

    /// Whether the wide forms differ outside the fields of references, or a field has fewer than four bytes.
    fn differ_in_numbers(&self) -> bool
        ensures { result ≡ differs_in_operand None None self.now }
    {
        if self.pre.references().is_empty() && self.are_equal() {
            return false;
        }
        self.differ_outside_fields() || self.is_cut()
    }

    /// Whether neither is a direct branch, and another byte of the wide forms outside the fields of references differs,
    /// or the length, or a running field at a reference has fewer than four bytes.
    pub(crate) fn differs_in_operand(&self) -> bool
        ensures { result ≡ differs_in_operand (direct_branch self.now.pre) (direct_branch self.now.run) self.now }
    {
        match (self.pre.branch(), self.run.branch()) {
            (None, None) => self.differ_in_numbers(),
            _ => false,
        }
    }

    /// Whether both are direct branches.
    pub(crate) fn are_branches(&self) -> bool
        ensures { result ≡ (is_some (direct_branch self.now.pre) && is_some (direct_branch self.now.run)) }
    {
        self.pre.branch().is_some() && self.run.branch().is_some()
    }

    /// That they differ in a kind.
    pub(crate) fn difference(&self, kind: DifferenceKind) -> Difference
        ensures { result ≡ difference_at self.now kind }
    {
        Difference {
            index: self.index,
            pre_offset: self.pre.place(),
            run_address: self.run.place(),
            kind,
        }
    }

    /// What the field of a reference of the first holds in the second: `S + A`.
    pub(crate) fn held(&self, r: &Ref<'_>) -> u32
        ensures { result ≡ held_with (direct_branch self.now.pre) self.now r.now }
    {
        match self.pre.branch() {
            Some(_) => self.run.target().wrapping_sub(FIELD_LENGTH),
            None => {
                let field = field_for(self.pre, r, &self.run.decoded().fields);
                dword_in(self.run.bytes(), offset_in(field))
            }
        }
    }
}
