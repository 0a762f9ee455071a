//! Places of sections among gaps.

use ks_base::{Line, Name, Range, Ranges};
use link_post::{Placement, SectionSize, ascend, place};
use std::alloc::{AllocError, Global};
use std::test::Fail;

/// Sections of sizes and alignments.
fn sections_of(alloc: Global, sizes: &[(u32, u32)]) -> Result<Vec<SectionSize>, Fail> {
    let mut sections = Vec::new(alloc);
    for (size, align) in sizes {
        sections.push(SectionSize {
            name: Name::from_slice(alloc, b".text.f")?,
            size: *size,
            align: *align,
        })?;
    }
    Ok(sections)
}

fn ranges_of(alloc: Global, gaps: &[(u32, u32)]) -> Result<Ranges, Fail> {
    let mut ranges = Ranges::new(alloc);
    for (low, high) in gaps {
        ranges.push(Range {
            low: *low,
            high: *high,
        })?;
    }
    Ok(ranges)
}

/// What comes of sections among gaps: their bases, or the refusal.
fn put_places(
    alloc: Global,
    line: &mut Line,
    sizes: &[(u32, u32)],
    gaps: &[(u32, u32)],
) -> Result<(), Fail> {
    let gaps = ranges_of(alloc, gaps)?;
    if !ascend(&gaps) {
        return Err(Fail::from("gaps that don't ascend"));
    }
    let sections = sections_of(alloc, sizes)?;
    match place(alloc, sections.as_slice(), &gaps) {
        Ok(placement) => Ok(put_bases(line, &placement)?),
        Err(refusal) => Ok(line.put_refusal(&refusal)?),
    }
}

fn put_bases(line: &mut Line, placement: &Placement) -> Result<(), AllocError> {
    for placed in placement.as_slice() {
        line.put_hex(placed.base)?;
        line.put_text("\n")?;
    }
    Ok(())
}

const ARENA: &[(u32, u32)] = &[(0x0080_0000, 0x0081_0000)];

const THREE: &[(u32, u32)] = &[(0x1000, 0x1010), (0x2000, 0x2020), (0x3000, 0x3010)];

/// Sizes and alignments, gaps, and the bases or the refusal.
static ROWS: [(&[(u32, u32)], &[(u32, u32)], &str); 11] = [
    (
        &[(6, 16), (5, 16), (8, 4)],
        ARENA,
        "0x00800000\n0x00800010\n0x00800020\n",
    ),
    (&[(16, 4)], &[(0x0080_0008, 0x0080_0020)], "0x00800010\n"),
    (
        &[(1, 1), (1, 64), (1, 16)],
        ARENA,
        "0x00800000\n0x00800040\n0x00800010\n",
    ),
    (
        &[(32, 16), (8, 16), (8, 16)],
        THREE,
        "0x00002000\n0x00001000\n0x00003000\n",
    ),
    (&[(1, 4096)], &[(0x0080_0001, 0x0081_0000)], "0x00801000\n"),
    (&[(0, 0), (16, 0)], THREE, "0x00001000\n0x00001000\n"),
    (&[], THREE, ""),
    (
        &[(16, 4), (1, 1)],
        &[(0x0080_0008, 0x0080_0020)],
        "refused 23 no room 1\n",
    ),
    (&[(6, 16)], &[], "refused 23 no room 6\n"),
    (
        &[(17, 16), (33, 16)],
        &[(0x1000, 0x1010), (0x2000, 0x2020)],
        "refused 23 no room 33\n",
    ),
    (
        &[(1, 64)],
        &[(0x1001, 0x1040), (0xffff_ffc1, 0xffff_ffff)],
        "refused 23 no room 1\n",
    ),
];

#[test]
fn sections_take_the_lowest_addresses(rt: HostRuntime) -> Result<(), Fail> {
    for (sizes, gaps, wanted) in &ROWS {
        let mut line = Line::new(rt.alloc());
        put_places(rt.alloc(), &mut line, sizes, gaps)?;
        assert!(rt; line.bytes() == wanted.as_bytes());
    }
    Ok(())
}

/// A thousand times a size and an alignment.
fn push_all(to: &mut Vec<(u32, u32)>, size: u32, align: u32) -> Result<(), AllocError> {
    for _ in 0..1_000u32 {
        to.push((size, align))?;
    }
    Ok(())
}

/// The bases that go up from one in steps of 64.
fn put_ascending(line: &mut Line, first: u32) -> Result<(), AllocError> {
    for k in 0..1_000u32 {
        line.put_hex(first.saturating_add(64 * k))?;
        line.put_text("\n")?;
    }
    Ok(())
}

/// 1,000 gaps of 16 bytes, every 64 bytes, and one of 64 KiB after them.
fn many_gaps(alloc: Global) -> Result<Vec<(u32, u32)>, AllocError> {
    let mut gaps = Vec::new(alloc);
    for k in 0..1_000u32 {
        gaps.push((0x0010_0000 + 64 * k, 0x0010_0010 + 64 * k))?;
    }
    gaps.push((0x0090_0000, 0x0091_0000))?;
    Ok(gaps)
}

/// Sections of which the first fills none of many gaps, the next ones fill one each, and the last ones lie after them.
fn put_filled(alloc: Global, found: &mut Line, wanted: &mut Line) -> Result<(), Fail> {
    let gaps = many_gaps(alloc)?;
    let mut sizes = Vec::new(alloc);
    sizes.push((17, 16))?;
    push_all(&mut sizes, 16, 64)?;
    sizes.extend_from_slice(&[(16, 64), (32, 16)])?;
    put_places(alloc, found, sizes.as_slice(), gaps.as_slice())?;
    wanted.put_text("0x00900000\n")?;
    put_ascending(wanted, 0x0010_0000)?;
    Ok(wanted.put_text("0x00900040\n0x00900020\n")?)
}

/// A thousand small sections that lie apart, as many that lie between them, and one after them.
fn put_split(alloc: Global, found: &mut Line, wanted: &mut Line) -> Result<(), Fail> {
    let mut sizes = Vec::new(alloc);
    push_all(&mut sizes, 1, 64)?;
    push_all(&mut sizes, 33, 16)?;
    sizes.push((33, 16))?;
    put_places(
        alloc,
        found,
        sizes.as_slice(),
        &[(0x0010_0000, 0x0011_0000)],
    )?;
    put_ascending(wanted, 0x0010_0000)?;
    put_ascending(wanted, 0x0010_0010)?;
    Ok(wanted.put_text("0x0010fa00\n")?)
}

#[test]
fn a_thousand_gaps(rt: HostRuntime) -> Result<(), Fail> {
    let (mut found, mut wanted) = (Line::new(rt.alloc()), Line::new(rt.alloc()));
    put_filled(rt.alloc(), &mut found, &mut wanted)?;
    put_split(rt.alloc(), &mut found, &mut wanted)?;
    assert!(rt; found.bytes() == wanted.bytes());
    Ok(())
}
