//! What the fields of sections hold that lie in memory.
ghost use Rattle.std.specs.Prelude.{◌≡◌, ◌<◌, ◌^◌};
ghost use Rattle.image_memory.specs.Access.{byte_at, dword_at};

use image_memory::Space;

/// The byte of memory at an address, 0 where no piece holds it.
#[tactic(auto, using(crate::proofs::Bounds::zero_high))]
fn byte<S: Space>(space: &S, address: u64) -> u8
    ensures { result ≡ byte_at (S.contents space.now).pieces address }
{
    if address > u64::from(u32::MAX) {
        return 0;
    }
    match space.look(address as u32) {
        Some((_, byte)) => byte,
        None => 0,
    }
}

/// The dword of memory at an address, as the field of a section that lies there holds it. Bytes that no piece holds
/// count as 0.
pub fn dword_at<S: Space>(space: &S, address: u64) -> u32
    requires { address < 2 ^ 33 }
    ensures { result ≡ dword_at (S.contents space.now).pieces address }
{
    u32::from_le_bytes([
        byte(space, address),
        byte(space, address + 1),
        byte(space, address + 2),
        byte(space, address + 3),
    ])
}
