//! Lists of bytes that are compared many at a time.
ghost use Rattle.std.specs.Prelude.{◌≡◌, ◌≤◌, ◌+◌, length, drop};
ghost use Rattle.std.specs.Simd.Lanes.{chunk};
ghost use Rattle.i386_reloc.specs.Normal.{same_bytes};

use std::simd::prelude::*;

/// How many bytes are compared at once.
const LANES: usize = 32;

/// Whether two lists of bytes are equal.
pub fn equal_bytes(a: &[u8], b: &[u8]) -> bool
    ensures { result ≡ same_bytes a.now b.now }
{
    if a.len() != b.len() {
        return false;
    }
    let mut passed = 0;
    while a.len() - passed >= LANES {
        if !equal_lanes(a, b, passed) {
            return false;
        }
        passed += LANES;
    }
    a[passed..] == b[passed..]
}

/// Whether the bytes from a place on that are compared at once are equal.
#[inline]
fn equal_lanes(a: &[u8], b: &[u8], start: usize) -> bool
    requires first { start + LANES ≤ length a.now }
    requires second { start + LANES ≤ length b.now }
    ensures { result ≡ same_bytes (chunk start LANES a.now) (chunk start LANES b.now) }
{
    let ours = u8x32::from_slice(&a[start..]);
    let theirs = u8x32::from_slice(&b[start..]);
    ours.simd_eq(theirs).all()
}
