//! The numbers of points by their sections.
ghost use Rattle.std.specs.Prelude.{◌≡◌, ◌<◌, ◌+◌, [], length, IfOk, OnOk};
ghost use Rattle.std.specs.Option.{unwrap_or};
ghost use Rattle.std.specs.List.{slice_get};
ghost use Rattle.symbol_solve.specs.inside.Numbers.{AreListed};

use crate::numbers::{Point, word};
use ks_base::ListOf;
use std::alloc::{AllocError, Global};

/// For each of so many sections the numbers of its points, ascending.
pub(crate) fn points_by_section(
    alloc: Global,
    count: usize,
    points: &[Point],
) -> Result<Vec<ListOf<u32>>, AllocError>
    ensures count { IfOk result (λ table. length table.items ≡ count) }
    ensures lists { IfOk result (λ table. AreListed points.now (length points.now) table.items) }
{
    let mut table = no_points(alloc, count, points)?;
    for n in 0..points.len() {
        put_point(&mut table, points, n)?;
    }
    Ok(table)
}

/// No points of so many sections.
fn no_points(alloc: Global, count: usize, points: &[Point]) -> Result<Vec<ListOf<u32>>, AllocError>
    ensures count { IfOk result (λ table. length table.items ≡ count) }
    ensures lists { IfOk result (λ table. AreListed points.now 0 table.items) }
{
    let mut table = Vec::new(alloc);
    for _place in 0..count {
        table.push(ListOf::new(alloc))?;
    }
    Ok(table)
}

/// Takes the point of a number into the table.
fn put_point(table: &mut Vec<ListOf<u32>>, points: &[Point], n: usize) -> Result<(), AllocError>
    requires within { n < length points.now }
    requires before { AreListed points.now n table.old.items }
    ensures count { OnOk result (length table.new.items ≡ length table.old.items) }
    ensures lists { OnOk result (AreListed points.now (n + 1) table.new.items) }
{
    let number = word(n)?;
    let place = points[n].place as usize;
    if place < table.len() {
        table[place].push(number)?;
    }
    Ok(())
}

/// The numbers of the points of the section at a place.
pub(crate) fn points_of<'t>(table: &'t [ListOf<u32>], place: usize) -> &'t [u32]
    ensures { result.now ≡ unwrap_or (slice_get table.now place) [] }
{
    match table.get(place) {
        Some(list) => list.as_slice(),
        None => &[],
    }
}
