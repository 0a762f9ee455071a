//! Room for a section among blocks of free ranges.
ghost use Rattle.std.specs.Prelude.{◌≡◌, ◌++◌, ◌≤◌, Some, length, take, drop, position, IfOk, OnOk};
ghost use Rattle.link_post.specs.inside.Rooms.{first_start, after_first};
ghost use Rattle.link_post.specs.inside.BlockLists.{ranges_of, block_fits};

use crate::blocks::Block;
use crate::rooms::take_room;
use crate::types::SectionSize;
use ks_base::Range;
use std::alloc::{AllocError, Global};

/// How many ranges a block is made with, where there are more.
const NEW_BLOCK_LENGTH: usize = 256;

/// How many ranges a block may come to have: one with more becomes two.
const MOST_BLOCK_LENGTH: usize = 512;

/// Ranges in blocks.
pub(crate) fn blocks_of(alloc: Global, ranges: &[Range]) -> Result<Vec<Block>, AllocError>
    ensures { IfOk result (λ blocks. ranges_of blocks.items ≡ ranges.now) }
{
    let mut blocks = Vec::new(alloc);
    let mut rest = ranges;
    while !rest.is_empty() {
        let (front, back) = rest.split_at(NEW_BLOCK_LENGTH.min(rest.len()));
        add_block(alloc, &mut blocks, front)?;
        rest = back;
    }
    Ok(blocks)
}

/// Puts a block at the end.
#[tactic(auto, using(std::proofs::lemmas::Grind::common_steps))]
fn add_block(alloc: Global, blocks: &mut Vec<Block>, ranges: &[Range]) -> Result<(), AllocError>
    ensures { OnOk result (ranges_of blocks.new.items ≡ ranges_of blocks.old.items ++ ranges.now) }
{
    let block = Block::new(alloc, Vec::from_slice(alloc, ranges)?)?;
    blocks.push(block)?;
    Ok(())
}

/// Takes the room of a section from the first range in which it fits; `None` where there is none.
#[tactic(auto, using(crate::proofs::BlockLaws::no_block_start, crate::proofs::BlockLaws::no_block_left))]
pub(crate) fn take_from(
    alloc: Global,
    blocks: &mut Vec<Block>,
    section: &SectionSize,
) -> Result<Option<u32>, AllocError>
    ensures start { IfOk result (λ base. base ≡ first_start section.now (ranges_of blocks.old.items)) }
    ensures left { OnOk result (ranges_of blocks.new.items ≡ after_first section.now (ranges_of blocks.old.items)) }
{
    match first_block(blocks.as_slice(), section) {
        Some(i) => take_in_block(alloc, blocks, i, section),
        None => Ok(None),
    }
}

/// Which block is the first in which a section fits.
fn first_block(blocks: &[Block], section: &SectionSize) -> Option<usize>
    ensures { result ≡ position (block_fits section.now) blocks.now }
{
    blocks.iter().position(|block| block.has_fit(section))
}

/// Takes the room of a section from block `i`, the first in which it fits.
fn take_in_block(
    alloc: Global,
    blocks: &mut Vec<Block>,
    i: usize,
    section: &SectionSize,
) -> Result<Option<u32>, AllocError>
    requires { position (block_fits section.now) blocks.old.items ≡ Some i }
    ensures start { IfOk result (λ base. base ≡ first_start section.now (ranges_of blocks.old.items)) }
    ensures left { OnOk result (ranges_of blocks.new.items ≡ after_first section.now (ranges_of blocks.old.items)) }
{
    let mut ranges = blocks.remove(i).into_ranges();
    let base = take_room(&mut ranges, section)?;
    put_ranges(alloc, blocks, i, ranges)?;
    Ok(base)
}

/// Puts ranges at an index, in one block or in two.
fn put_ranges(
    alloc: Global,
    blocks: &mut Vec<Block>,
    i: usize,
    mut ranges: Vec<Range>,
) -> Result<(), AllocError>
    requires { i ≤ length blocks.old.items }
    ensures { OnOk result (ranges_of blocks.new.items
        ≡ ranges_of (take i blocks.old.items) ++ (ranges.items ++ ranges_of (drop i blocks.old.items))) }
{
    if ranges.len() > MOST_BLOCK_LENGTH {
        let upper = Block::new(alloc, ranges.split_off(NEW_BLOCK_LENGTH)?)?;
        let lower = Block::new(alloc, ranges)?;
        blocks.insert(i, upper)?;
        blocks.insert(i, lower)?;
    } else {
        let block = Block::new(alloc, ranges)?;
        blocks.insert(i, block)?;
    }
    Ok(())
}
