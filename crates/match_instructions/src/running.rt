//! The instructions of the running program.
ghost use Rattle.std.specs.Prelude.{◌≡◌, ◌<◌, ◌≤◌, ◌^◌, ℕ, not, length, take, Some, None, option_map, IfSome};
ghost use Rattle.ks_base.specs.declared.refusals.DifferenceKind.{DifferenceKind};
ghost use Rattle.image_memory.specs.Contents.{Contents, IsValid};
ghost use Rattle.image_memory.specs.Fetch.{fetched, view_at};
ghost use Rattle.ia32_decode.specs.Decode.{decoded_from};
ghost use Rattle.ia32_decode.specs.Padding.{is_padding_of};
ghost use Rattle.match_instructions.specs.Instructions.{Instruction, after, direct_branch, target_of, listed_on};
ghost use Rattle.match_instructions.specs.RunCode.{run_instruction, run_instruction_at, run_code, break_kind};

use crate::instructions::{displacement, own_bytes};
use ia32_decode::{Branch, Decoded, decode, instructions_have_bytes, is_padding};
use image_memory::{Space, Window, window_met};
use ks_base::DifferenceKind;
use std::marker::Model;

/// An instruction that is met in a memory. A clause sees it with its own bytes.
#[derive(Drop)]
pub struct RunInstruction {
    place: u32,
    decoded: Decoded,
    window: Window,
}

impl Model for RunInstruction {
    ghost use Rattle.std.specs.Prelude.{◌≡◌, ◌<◌, ◌≤◌, not, take, [], Some};
    ghost use Rattle.ia32_decode.specs.Decode.{decoded_from};
    ghost use Rattle.ia32_decode.specs.Padding.{is_padding_of};
    ghost use Rattle.match_instructions.specs.Instructions.{Instruction};

    ghost Value = { Instruction };

    ghost view = { λ i. record {
      place = i.place;
      decoded = i.decoded;
      bytes = take i.decoded.length i.window.bytes;
      references = [];
      kept = not (is_padding_of i.decoded);
    } };

    ghost invariant = { λ i. (i.place < 0xFFFF_0000) × (i.decoded.length ≤ 15)
        × (decoded_from (take i.decoded.length i.window.bytes) ≡ Some i.decoded) };
}

impl RunInstruction {
    /// The instruction with which what is met at an address begins.
    fn at_front(place: u32, window: Window) -> Option<Self>
        requires low { place < 0xFFFF_0000 }
        requires short { window.length ≤ 15 }
        ensures { result ≡ option_map (run_instruction place (fetched window)) (decoded_from (fetched window)) }
    {
        let fetched = &window.bytes[..window.length as usize];
        let decoded = decode(fetched)?;
        // The call is made for its fact alone: the instruction's own bytes spell it.
        let _own = own_bytes(fetched, &decoded);
        Some(RunInstruction {
            place,
            decoded,
            window,
        })
    }

    /// Its address.
    pub fn place(&self) -> u32
        ensures { result ≡ self.now.place }
    {
        self.place
    }

    /// What its bytes spell.
    pub fn decoded(&self) -> &Decoded
        ensures { result.now ≡ self.now.decoded }
    {
        &self.decoded
    }

    /// Its bytes.
    pub fn bytes(&self) -> &[u8]
        ensures bytes { result.now ≡ self.now.bytes }
        ensures short { length result.now ≤ 15 }
        ensures spelt { decoded_from result.now ≡ Some self.now.decoded }
    {
        &self.window.bytes[..self.decoded.length as usize]
    }

    /// Whether it is kept: it isn't padding.
    pub fn is_kept(&self) -> bool
        ensures { result ≡ self.now.kept }
    {
        !is_padding(&self.decoded)
    }

    /// The address after it.
    pub fn after(&self) -> u32
        ensures { result ≡ after self.now }
    {
        self.place + self.decoded.length
    }

    /// The direct branch that it is, `None` where it is none.
    pub fn branch(&self) -> Option<Branch>
        ensures { result ≡ direct_branch self.now }
    {
        self.decoded.branch()
    }

    /// Where it goes, if it is a direct branch: an address.
    pub fn target(&self) -> u32
        ensures { result ≡ target_of self.now }
    {
        self.after().wrapping_add(displacement(self.branch()))
    }
}

/// The instruction that is met at an address of a memory. `None` exactly where there is no code, at a spliced home, in
/// a retired range, and where the bytes spell none.
#[tactic(auto, unfolding(crate::specs::RunCode::run_instruction_at))]
pub fn instruction_at<S: Space>(space: &S, address: u32) -> Option<RunInstruction>
    ensures at { result ≡ run_instruction_at (S.contents space.now) address }
    ensures low { IfSome result (λ _. address < 0xFFFF_0000) }
{
    RunInstruction::at_front(address, window_met(space, address)?)
}

/// Why no instruction is met where a list breaks off: there is no code, or its bytes spell none.
pub fn break_kind<S: Space>(space: &S, address: u32) -> DifferenceKind
    ensures { result ≡ break_kind (view_at (S.contents space.now) address) }
{
    match window_met(space, address) {
        Some(_) => DifferenceKind::Undecoded,
        None => DifferenceKind::End,
    }
}

/// The running code from an address on is the instruction there and then the running code from its end on. Each
/// instruction has 1 to 15 bytes and ends at 0xFFFF0000 or below.
pub fn run_code_goes_on()
    ensures next { (contents : Contents) (address : ℕ) → IsValid contents → address < 2 ^ 32 → run_code contents address
        ≡ listed_on (run_instruction_at contents address) (run_code contents) }
    ensures some_bytes { (contents : Contents) (address : ℕ) (i : Instruction) →
        run_instruction_at contents address ≡ Some i → 0 < i.decoded.length }
    ensures short { (contents : Contents) (address : ℕ) (i : Instruction) →
        run_instruction_at contents address ≡ Some i → i.decoded.length ≤ 15 }
    ensures place { (contents : Contents) (address : ℕ) (i : Instruction) →
        run_instruction_at contents address ≡ Some i → i.place ≡ address }
    ensures low { (contents : Contents) (address : ℕ) (i : Instruction) → IsValid contents →
        run_instruction_at contents address ≡ Some i → address < 0xFFFF_0000 }
    ensures ends { (contents : Contents) (address : ℕ) (i : Instruction) → IsValid contents →
        run_instruction_at contents address ≡ Some i → (address < after i) × (after i ≤ 0xFFFF_0000) }
{
    // Nothing is done here: the law says that each instruction has a byte, at most 15, and no more than are there.
    instructions_have_bytes();
}
