//! The code of a memory up to an end.
ghost use Rattle.std.specs.Prelude.{◌≡◌, ◌<◌, ◌++◌, length, IfOk, None};
ghost use Rattle.code_listing.specs.Listing.{listing, remaining};

use crate::laws::lines_follow_one_another;
use crate::lines::{put_end, put_instruction, put_undecoded};
use image_memory::Space;
use ks_base::Line;
use match_instructions::instruction_at;
use paged_memory::PagedSpace;
use std::alloc::AllocError;
use std::marker::Model;

/// A page takes no further line once it has so many bytes.
const PAGE_LENGTH: usize = 65_536;

/// A memory, and the address at which the listing of its code ends.
#[derive(Drop)]
pub(crate) struct Code {
    memory: PagedSpace,
    end: u32,
}

impl Model for Code {
    ghost use Rattle.code_listing.specs.inside.Extent.{Extent};

    ghost Value = { Extent };

    ghost view = { λ c. record { contents = ⟦<PagedSpace as Space>⟧.contents c.memory; end = c.end } };
}

impl Code {
    /// The code of a memory up to an end.
    pub(crate) fn new(memory: PagedSpace, end: u32) -> Self
        ensures { result ≡ record { contents = ⟦<PagedSpace as Space>⟧.contents memory; end = end } }
    {
        Code { memory, end }
    }

    /// Puts the line of an address, and answers the address of the next line, `None` where it is the last one.
    fn put_line(&self, address: u32, page: &mut Line) -> Result<Option<u32>, AllocError>
        ensures lines { IfOk result (λ next. page.old ++ listing self.now.contents self.now.end address
            ≡ page.new ++ remaining self.now.contents self.now.end next) }
        ensures grows { IfOk result (λ _. length page.old < length page.new) }
    {
        // Nothing is done here: the law says what the line of an address is, and that those after it follow.
        lines_follow_one_another();
        if self.end <= address {
            put_end(page, address)?;
            return Ok(None);
        }
        let Some(instruction) = instruction_at(&self.memory, address) else {
            put_undecoded(page, address)?;
            return Ok(None);
        };
        put_instruction(page, address, &instruction)?;
        Ok(Some(instruction.after()))
    }

    /// Puts the lines from an address on until the page is full, and answers the address of the line after them, `None`
    /// where none is left.
    pub(crate) fn put_lines(
        &self,
        first: Option<u32>,
        page: &mut Line,
    ) -> Result<Option<u32>, AllocError>
        ensures lines { IfOk result (λ next. page.old ++ remaining self.now.contents self.now.end first
            ≡ page.new ++ remaining self.now.contents self.now.end next) }
        ensures full { IfOk result (λ next. length page.new < 65536 → next ≡ None) }
    {
        let mut next = first;
        while page.bytes().len() < PAGE_LENGTH {
            let Some(address) = next else {
                return Ok(None);
            };
            next = self.put_line(address, page)?;
        }
        Ok(next)
    }
}
