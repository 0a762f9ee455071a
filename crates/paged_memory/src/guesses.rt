//! Guesses at where pages stand.
ghost use Rattle.std.specs.Prelude.{◌<◌};

use crate::types::Page;

const COUNT: usize = 256;

/// Where pages may stand among all pages in order: what is added to a page's number, for the pages of the same 64 KiB
/// alike. The guess is right where none of these is missing between two others, and no other 64 KiB has the same slot. It
/// is tried before it is used, so that no clause speaks of it. Guesses change when pages come and go, and at no look-up.
#[derive(Drop)]
pub(crate) struct Guesses {
    added: [u32; COUNT],
}

impl Guesses {
    /// Guesses at no page.
    pub(crate) fn new() -> Self {
        Guesses { added: [0; COUNT] }
    }

    /// Where the page of a number may stand.
    #[inline(always)]
    pub(crate) fn place(&self, number: u32) -> usize {
        self.added[slot_of(number)].wrapping_add(number) as usize
    }

    /// Guesses anew at the pages from a place on.
    pub(crate) fn learn(&mut self, pages: &[Page], first: usize) {
        for at in first..pages.len() {
            let number = pages[at].number;
            let place = (at % 0x1_0000_0000) as u32;
            self.added[slot_of(number)] = place.wrapping_sub(number);
        }
    }
}

/// The slot of a page's 64 KiB. Multiplied by this odd number, which is 2^32 over the golden ratio, numbers that are near
/// each other or a round number apart come far apart.
#[inline(always)]
fn slot_of(number: u32) -> usize
    ensures { result < 256 }
{
    ((number / 16).wrapping_mul(0x9E37_79B1) / 0x100_0000) as usize
}
