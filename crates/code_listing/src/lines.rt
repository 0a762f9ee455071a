//! The lines of a listing, put at the end of a page.
ghost use Rattle.std.specs.Prelude.{◌≡◌, ◌++◌, ◌<◌, length, OnOk};
ghost use Rattle.std.specs.List.{flat_map};
ghost use Rattle.code_listing.specs.Lines.{spaced_byte, padding_word, instruction_line, end_line, undecoded_line};

use ia32_decode::{Decoded, is_padding};
use ks_base::Line;
use match_instructions::RunInstruction;
use std::alloc::AllocError;

fn put_bytes(page: &mut Line, bytes: &[u8]) -> Result<(), AllocError>
    ensures { OnOk result (page.new ≡ page.old ++ flat_map spaced_byte bytes.now) }
{
    for byte in bytes {
        put_spaced_byte(page, *byte)?;
    }
    Ok(())
}

fn put_spaced_byte(page: &mut Line, byte: u8) -> Result<(), AllocError>
    ensures { OnOk result (page.new ≡ page.old ++ spaced_byte byte) }
{
    page.put_text(" ")?;
    page.put_byte(byte)
}

fn put_padding_word(page: &mut Line, decoded: &Decoded) -> Result<(), AllocError>
    ensures { OnOk result (page.new ≡ page.old ++ padding_word decoded.now) }
{
    if is_padding(decoded) {
        return page.put_text(" padding");
    }
    Ok(())
}

/// The line of an instruction: its address, its length, its bytes, and whether it is padding.
#[tactic(auto, unfolding(crate::specs::Lines::instruction_line))]
pub(crate) fn put_instruction(
    page: &mut Line,
    address: u32,
    instruction: &RunInstruction,
) -> Result<(), AllocError>
    ensures line { OnOk result
        (page.new ≡ page.old ++ instruction_line address instruction.now.decoded instruction.now.bytes) }
    ensures grows { OnOk result (length page.old < length page.new) }
{
    page.put_hex(address)?;
    page.put_text(" ")?;
    page.put_number(u64::from(instruction.decoded().length))?;
    put_bytes(page, instruction.bytes())?;
    put_padding_word(page, instruction.decoded())?;
    page.put_text("\n")
}

/// The last line, where no instruction is left below the end.
#[tactic(auto, unfolding(crate::specs::Lines::end_line))]
pub(crate) fn put_end(page: &mut Line, address: u32) -> Result<(), AllocError>
    ensures line { OnOk result (page.new ≡ page.old ++ end_line address) }
    ensures grows { OnOk result (length page.old < length page.new) }
{
    page.put_text("end ")?;
    page.put_hex(address)?;
    page.put_text("\n")
}

/// The last line, where no instruction stands at the address.
#[tactic(auto, unfolding(crate::specs::Lines::undecoded_line))]
pub(crate) fn put_undecoded(page: &mut Line, address: u32) -> Result<(), AllocError>
    ensures line { OnOk result (page.new ≡ page.old ++ undecoded_line address) }
    ensures grows { OnOk result (length page.old < length page.new) }
{
    page.put_text("undecoded ")?;
    page.put_hex(address)?;
    page.put_text("\n")
}
