//! Copies between slices of bytes.
ghost use Rattle.std.specs.Prelude.{◌≡◌, ◌<◌, ◌^◌, ◌++◌, length, take, drop, min};
ghost use Rattle.image_memory.specs.Access.{overlaid};

/// The first bytes, at most so many.
pub(crate) fn front(bytes: &[u8], count: usize) -> &[u8]
    ensures { result.now ≡ take count bytes.now }
{
    if count < bytes.len() {
        &bytes[..count]
    } else {
        bytes
    }
}

/// Copies as many bytes as fit to the start, and answers how many.
pub(crate) fn copy_front(into: &mut [u8], from: &[u8]) -> usize
    ensures count { result ≡ min (length into.old) (length from.now) }
    ensures copied { into.new ≡ take result from.now ++ drop result into.old }
{
    let count = into.len().min(from.len());
    into[..count].copy_from_slice(&from[..count]);
    count
}

/// Puts the bytes of `from`, whose first one has the address `start`, over those of `target`, whose first
/// one has the address `at`.
pub fn overlay(target: &mut [u8], at: u64, start: u64, from: &[u8])
    requires target_low { at < 2 ^ 48 }
    requires from_low { start < 2 ^ 32 }
    ensures { target.new ≡ overlaid start from.now at target.old }
{
    let low = at.max(start);
    let high = (at + target.len() as u64).min(start + from.len() as u64);
    if low < high {
        let part = &from[(low - start) as usize..(high - start) as usize];
        target[(low - at) as usize..(high - at) as usize].copy_from_slice(part);
    }
}
