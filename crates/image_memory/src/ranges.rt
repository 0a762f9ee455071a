//! Whether two ranges meet, and ranges in order.
ghost use Rattle.std.specs.Prelude.{◌≡◌, IfOk};
ghost use Rattle.std.specs.List.Sorted.{IsNonDecreasingBy, IsPermutation};
ghost use Rattle.image_memory.specs.Ranges.{meets};

use ks_base::Range;
use std::alloc::{AllocError, Global};

/// Whether two ranges share an address.
pub fn meets(a: Range, b: Range) -> bool
    ensures { result ≡ meets a b }
{
    a.low.max(b.low) < a.high.min(b.high)
}

/// Ranges in ascending order of their lows. `Err` comes only if memory runs out.
pub fn sorted(alloc: Global, ranges: &[Range]) -> Result<Vec<Range>, AllocError>
    ensures same { IfOk result (λ sorted. IsPermutation ranges.now sorted.items) }
    ensures order { IfOk result (λ sorted. IsNonDecreasingBy (λ range. range.low) sorted.items) }
{
    Ok(in_order(Vec::from_slice(alloc, ranges)?))
}

/// The same, for a vector of ranges.
fn in_order(mut ranges: Vec<Range>) -> Vec<Range>
    ensures same { IsPermutation ranges.items result.items }
    ensures order { IsNonDecreasingBy (λ range. range.low) result.items }
{
    ranges.sort_unstable_by_key(|range| range.low);
    ranges
}
