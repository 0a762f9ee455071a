//! The least of numbers.
ghost use Rattle.std.specs.Prelude.{◌≡◌};
ghost use Rattle.match_instructions.specs.inside.Least.{lesser, noted};

/// The lesser of two numbers, where there are two.
pub(crate) fn lesser(a: Option<u32>, b: Option<u32>) -> Option<u32>
    ensures { result ≡ lesser a b }
{
    match (a, b) {
        (Some(x), Some(y)) => Some(x.min(y)),
        (Some(x), None) => Some(x),
        (None, other) => other,
    }
}

/// The least number with `x`, where that is one of them.
pub(crate) fn noted(counts: bool, x: u32, least: Option<u32>) -> Option<u32>
    ensures { result ≡ noted counts x least }
{
    if counts {
        lesser(least, Some(x))
    } else {
        least
    }
}
