//! Lists of distinct addresses in ascending order.
ghost use Rattle.std.specs.Prelude.{◌≡◌, [], IfOk, nat_eq};
ghost use Rattle.std.specs.List.Retain.{IsFiltered, DiffersFromLast};
ghost use Rattle.std.specs.List.Sorted.{IsSorted, IsPermutation};
ghost use Rattle.std.specs.Ordering.{nat_cmp};
ghost use Rattle.symbol_table.specs.Symbols.{ascending};

use ks_base::ListOf;
use std::alloc::AllocError;

/// Addresses in order.
pub type Addresses = ListOf<u32>;

/// The addresses of a vector, each once, ascending.
pub(crate) fn put_in_order(found: Vec<u32>) -> Result<Addresses, AllocError>
    ensures { IfOk result (λ addresses. addresses ≡ ascending found.items) }
{
    Ok(each_once(sorted(found)?))
}

/// The addresses of a vector, the lower ones before the higher ones.
fn sorted(mut found: Vec<u32>) -> Result<Vec<u32>, AllocError>
    ensures rise { IfOk result (λ sorted. IsSorted nat_cmp sorted.items) }
    ensures same { IfOk result (λ sorted. IsPermutation found.items sorted.items) }
{
    found.sort()?;
    Ok(found)
}

/// The addresses of a sorted vector, each where it isn't the one before it.
fn each_once(mut sorted: Vec<u32>) -> Addresses
    ensures { IsFiltered (DiffersFromLast nat_eq) [] sorted.items result }
{
    sorted.dedup();
    Addresses::from_vec(sorted)
}
