//! The points of a section that lie in a body, by their addresses.
ghost use Rattle.std.specs.Prelude.{◌≡◌, ◌≤◌, ◌+◌, true, false, length};
ghost use Rattle.std.specs.List.Sorted.{IsPartitionPoint};
ghost use Rattle.symbol_solve.specs.inside.Points.{Ascend, address_at, is_before, points_before, points_from};
ghost use Rattle.symbol_solve.specs.inside.Points.{points_between};

use crate::numbers::Point;

/// The address of the point of a number, 0 where there is none.
fn address_at(points: &[Point], n: u32) -> u32
    ensures { result ≡ address_at points.now n }
{
    match points.get(n as usize) {
        Some(point) => point.address,
        None => 0,
    }
}

/// How many of some points lie before an address.
fn count_before(points: &[Point], own: &[u32], address: u64) -> usize
    requires { Ascend points.now own.now }
    ensures within { result ≤ length own.now }
    ensures point { IsPartitionPoint (λ n. is_before points.now address n ≡ true)
        (λ n. is_before points.now address n ≡ false) own.now result }
{
    own.partition_point(|n| u64::from(address_at(points, *n)) < address)
}

/// Those of some points that lie at an address or above it.
fn points_from<'o>(points: &[Point], own: &'o [u32], low: u64) -> &'o [u32]
    requires { Ascend points.now own.now }
    ensures points { result.now ≡ points_from points.now low own.now }
    ensures order { Ascend points.now result.now }
{
    let count = count_before(points, own, low);
    &own[count..]
}

/// Those of some points that lie before an address.
fn points_before<'o>(points: &[Point], own: &'o [u32], high: u64) -> &'o [u32]
    requires { Ascend points.now own.now }
    ensures { result.now ≡ points_before points.now high own.now }
{
    let count = count_before(points, own, high);
    &own[..count]
}

/// Those of some points, ascending by address, that lie in so many bytes from a base on. It takes the logarithm of
/// their number.
pub(crate) fn points_within<'o>(
    points: &[Point],
    own: &'o [u32],
    base: u32,
    length: u32,
) -> &'o [u32]
    requires { Ascend points.now own.now }
    ensures { result.now ≡ points_between points.now base (base + length) own.now }
{
    let low = u64::from(base);
    let above = points_from(points, own, low);
    points_before(points, above, low + u64::from(length))
}
