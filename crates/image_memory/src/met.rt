//! The code that a thread meets.
ghost use Rattle.std.specs.Prelude.{◌≡◌, ◌<◌, ◌≤◌, None, IfSome, MatchOption};
ghost use Rattle.image_memory.specs.Fetch.{Bytes, bytes_met, fetched, view_at};

use crate::space::Space;
use crate::types::Window;

/// What is fetched at an address, where code is met there. `None` exactly where no code piece holds the address, at a
/// spliced home, and elsewhere in a retired range.
pub fn window_met<S: Space>(space: &S, address: u32) -> Option<Window>
    ensures met { MatchOption result (bytes_met (view_at (S.contents space.now) address) ≡ None)
        (λ w. view_at (S.contents space.now) address ≡ Bytes (fetched w)) }
    ensures short { IfSome result (λ w. w.length ≤ 15) }
    ensures low { IfSome result (λ _. address < 0xFFFF_0000) }
{
    if space.spliced(address) {
        return None;
    }
    space.window(address).ok()
}
