//! The functions of a work: how many there are, their names, their constants and their code.
ghost use Rattle.std.specs.Prelude.{◌≡◌, ◌++◌, ℕ, length, OnOk};
ghost use Rattle.work_gen.specs.Functions.{function_count, calls_next, function_name, function_code, running_code};
ghost use Rattle.work_gen.specs.inside.Builds.{constants_of};

use crate::encoding::{put_copies, put_word};
use crate::types::{Build, Version};
use ks_base::Line;
use std::alloc::AllocError;

/// ADD EAX with a constant.
const ADD_EAX: u8 = 0x05;

/// CALL by a displacement of 32 bits.
const CALL: u8 = 0xE8;

const RET: u8 = 0xC3;

const NOP: u8 = 0x90;

/// How many bytes each function takes in the running program.
pub(crate) const STRIDE: usize = 32;

/// How far it is in the running program from the end of a call to the next function.
const TO_THE_NEXT: usize = 22;

/// What stands in a call's field in an object: -4, since the field is counted from its end.
pub(crate) const ADDEND: usize = 0xFFFF_FFFC;

/// How many functions the work of a number has, from 16 to 512.
pub fn function_count(number: u32) -> u32
    ensures { result ≡ function_count number }
{
    16 + number % 497
}

/// Whether function `i` calls the next one: all but the last do.
pub(crate) fn calls_next(count: u32, i: u32) -> bool
    ensures { result ≡ calls_next count i }
{
    i as usize + 1 < count as usize
}

/// Appends the name of function `i`.
#[tactic(auto, using(crate::proofs::AppendLaws::append_laws), unfolding(crate::specs::Functions::function_name))]
pub(crate) fn put_function_name(to: &mut Vec<u8>, i: u32) -> Result<(), AllocError>
    ensures { OnOk result (to.new.items ≡ to.old.items ++ function_name i) }
{
    let mut name = Line::new(*to.allocator());
    name.put_text("f")?;
    name.put_number(u64::from(i))?;
    to.extend_from_slice(name.bytes())
}

impl Build {
    /// The constant that function `i` adds.
    #[tactic(auto, unfolding(crate::specs::Functions::old_constant, crate::specs::Functions::new_constant))]
    pub(crate) fn constant(self, i: u32) -> usize
        ensures { result ≡ constants_of self i }
    {
        let old = self.number as usize * (i as usize + 1) % 65536;
        match self.version {
            Version::Old => old,
            Version::New => if i % 4 == 1 { old + 1 } else { old },
        }
    }
}

/// Appends the code of a function, which calls another or doesn't.
#[tactic(auto, using(crate::proofs::AppendLaws::append_laws), unfolding(crate::specs::Functions::function_code))]
pub(crate) fn put_code(
    to: &mut Vec<u8>,
    calls: bool,
    displacement: usize,
    constant: usize,
) -> Result<(), AllocError>
    ensures { OnOk result (to.new.items ≡ to.old.items ++ function_code calls displacement constant) }
{
    to.push(ADD_EAX)?;
    put_word(to, constant)?;
    if calls {
        to.push(CALL)?;
        put_word(to, displacement)?;
    }
    to.push(RET)?;
    Ok(())
}

/// How many bytes the code of a function has.
pub(crate) fn code_size(calls: bool) -> usize
    ensures { (displacement constant : ℕ) → result ≡ length (function_code calls displacement constant) }
{
    if calls { 11 } else { 6 }
}

/// Appends the code of function `i` in the running program, filled up by NOP.
#[tactic(auto, using(crate::proofs::AppendLaws::append_laws), unfolding(crate::specs::Functions::running_code))]
pub(crate) fn put_running_code(to: &mut Vec<u8>, number: u32, i: u32) -> Result<(), AllocError>
    ensures { OnOk result (to.new.items ≡ to.old.items ++ running_code number i) }
{
    let build = Build {
        number,
        version: Version::Old,
    };
    let calls = calls_next(function_count(number), i);
    put_code(to, calls, TO_THE_NEXT, build.constant(i))?;
    put_copies(to, NOP, STRIDE.saturating_sub(code_size(calls)))
}
