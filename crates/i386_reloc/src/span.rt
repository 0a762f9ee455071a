//! Bytes that are borrowed from an object's file.
ghost use Rattle.std.specs.Prelude.{◌≡◌, nat_eq};
ghost use Rattle.std.specs.Cmp;
ghost use Rattle.std.specs.Cmp.Lexicographic.{pointwise, nat_list_eq_equiv};

use std::marker::Model;

/// Bytes of an object's file, as a name or a text. They are borrowed, and contracts see the list of them.
#[derive(Drop)]
pub struct Span<'a> {
    bytes: &'a [u8],
}

impl<'a> Model for Span<'a> {
    ghost use Rattle.std.specs.Prelude.{List, ℕ};

    ghost Value = { List ℕ };

    ghost view = { λ s. s.bytes.now };
}

impl<'a> Span<'a> {
    /// These bytes.
    pub fn new(bytes: &'a [u8]) -> Span<'a>
        ensures { result ≡ bytes.now }
    {
        Span { bytes }
    }

    /// The bytes, as long as the file is there.
    pub fn as_slice(&self) -> &'a [u8]
        ensures { result.now ≡ self.now }
    {
        self.bytes
    }
}

impl<'a> PartialEq for Span<'a> {
    ghost eq = { pointwise nat_eq };

    ghost laws = { Cmp.partial_equiv_from_equiv nat_list_eq_equiv };

    fn eq(&self, other: &Self) -> bool {
        self.bytes == other.bytes
    }
}

impl<'a> Eq for Span<'a> {
    ghost laws = { nat_list_eq_equiv };
}
