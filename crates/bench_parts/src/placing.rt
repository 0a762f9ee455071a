//! Places of many sections among many gaps.
use ks_base::{Name, Range, Ranges};
use link_post::{SectionSize, ascend, place};
use std::alloc::{AllocError, Global};

/// So many gaps of 16 bytes, one every 64 bytes, and a large one after them.
fn gaps_of(alloc: Global, count: u32) -> Result<Ranges, AllocError> {
    let mut gaps = Ranges::new(alloc);
    for k in 0..count {
        let low = k.wrapping_mul(64);
        gaps.push(Range {
            low,
            high: low.wrapping_add(16),
        })?;
    }
    gaps.push(Range {
        low: 0x8000_0000,
        high: 0xFFFF_0000,
    })?;
    Ok(gaps)
}

/// So many sections, by turns one that fits in a small gap, and one that fits in the large gap alone.
fn sections_of(alloc: Global, count: u32) -> Result<Vec<SectionSize>, AllocError> {
    let mut sections = Vec::new(alloc);
    for k in 0..count {
        let (size, align) = if k % 2 == 0 { (16, 16) } else { (17, 4_096) };
        sections.push(SectionSize {
            name: Name::from_slice(alloc, b".text.f")?,
            size,
            align,
        })?;
    }
    Ok(sections)
}

/// The sum of the places of so many sections among so many gaps, `None` where they have none.
pub fn sum_of_places(alloc: Global, sections: u32, gaps: u32) -> Result<Option<u64>, AllocError> {
    let gaps = gaps_of(alloc, gaps)?;
    let sections = sections_of(alloc, sections)?;
    if !ascend(&gaps) {
        return Ok(None);
    }
    let Ok(placement) = place(alloc, sections.as_slice(), &gaps) else {
        return Ok(None);
    };
    let mut sum: u64 = 0;
    for placed in placement.as_slice() {
        sum = sum.wrapping_add(u64::from(placed.base));
    }
    Ok(Some(sum))
}
