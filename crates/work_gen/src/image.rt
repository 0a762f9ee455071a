//! The image file of a work.
ghost use Rattle.std.specs.Prelude.{◌≡◌, ◌++◌, OnOk, IfOk};
ghost use Rattle.std.specs.List.{flat_map};
ghost use Rattle.work_gen.specs.Functions.{functions, function_count, running_code};
ghost use Rattle.work_gen.specs.Image.{image_symbol, stack_bounds, image_file};

use crate::encoding::put_words;
use crate::functions::{STRIDE, function_count, put_function_name, put_running_code};
use ks_base::Bytes;
use std::alloc::{AllocError, Global};

const REGIONS: usize = 1;

/// Where function 0 begins.
const CODE_BASE: usize = 0x10_0000;

const ARENA_LOW: usize = 0x80_0000;

const ARENA_HIGH: usize = 0x90_0000;

/// The kind of a region of code.
const CODE: usize = 1;

/// The kind of a function's symbol.
const FUNCTION: usize = 1;

/// The binding of a global symbol.
const GLOBAL: usize = 1;

const STACK_LOWS: [u32; 4] = [0x40_0000, 0x42_0000, 0x44_0000, 0x46_0000];

const STACK_SIZE: usize = 0x1_0000;

/// The image of the program of a number.
#[tactic(auto, using(crate::proofs::AppendLaws::append_laws), unfolding(crate::specs::Image::image_file, crate::specs::Image::counts_and_arena, crate::specs::Image::code_region))]
pub(crate) fn image_file(alloc: Global, number: u32) -> Result<Bytes, AllocError>
    ensures { IfOk result (λ image. image ≡ image_file number) }
{
    let count = function_count(number);
    let size = STRIDE * count as usize;
    let header = [
        REGIONS,
        count as usize,
        STACK_LOWS.len(),
        ARENA_LOW,
        ARENA_HIGH,
        CODE,
        CODE_BASE,
        size,
    ];
    let mut out = Vec::from_slice(alloc, b"KIM1")?;
    put_words(&mut out, &header)?;
    put_running_codes(&mut out, number)?;
    put_symbols(&mut out, count)?;
    put_stacks(&mut out, &STACK_LOWS)?;
    Ok(Bytes::from_vec(out))
}

#[tactic(auto, using(crate::proofs::AppendLaws::count_laws))]
fn put_running_codes(out: &mut Vec<u8>, number: u32) -> Result<(), AllocError>
    ensures { OnOk result
        (out.new.items ≡ out.old.items ++ flat_map (running_code number) (functions (function_count number))) }
{
    for i in 0..function_count(number) {
        put_running_code(out, number, i)?;
    }
    Ok(())
}

#[tactic(auto, using(crate::proofs::AppendLaws::append_laws), unfolding(crate::specs::Image::image_symbol))]
fn put_symbol(out: &mut Vec<u8>, i: u32) -> Result<(), AllocError>
    ensures { OnOk result (out.new.items ≡ out.old.items ++ image_symbol i) }
{
    let mut name = Vec::new(*out.allocator());
    put_function_name(&mut name, i)?;
    let address = CODE_BASE + STRIDE * i as usize;
    put_words(out, &[address, FUNCTION, GLOBAL, name.len()])?;
    out.extend_from_slice(name.as_slice())
}

#[tactic(auto, using(crate::proofs::AppendLaws::count_laws))]
fn put_symbols(out: &mut Vec<u8>, count: u32) -> Result<(), AllocError>
    ensures { OnOk result (out.new.items ≡ out.old.items ++ flat_map image_symbol (functions count)) }
{
    for i in 0..count {
        put_symbol(out, i)?;
    }
    Ok(())
}

#[tactic(auto, unfolding(crate::specs::Image::stack_bounds))]
fn put_stacks(out: &mut Vec<u8>, lows: &[u32]) -> Result<(), AllocError>
    ensures { OnOk result (out.new.items ≡ out.old.items ++ flat_map stack_bounds lows.now) }
{
    for low in lows {
        let bottom = *low as usize;
        put_words(out, &[bottom, bottom + STACK_SIZE])?;
    }
    Ok(())
}
