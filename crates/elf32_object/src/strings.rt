//! String tables (System V gABI, chapter 4, "String Table").

ghost use Rattle.std.specs.Prelude.{◌≡◌, ℕ, ◌<◌, ◌≤◌, nat_lt, nat_le, false, length, drop, slice_index, ◌-◌};
ghost use Rattle.std.specs.List.{list_any, position_or_len};
ghost use Rattle.elf32_object.specs.Fields.{is_zero, ends_in, text_at};

/// How many bytes the name of a section or symbol may have.
const LONGEST_NAME: usize = 4096;

/// Where the first zero stands, or the length where none does.
fn first_zero(bytes: &[u8]) -> usize
    ensures { result ≡ position_or_len is_zero bytes.now }
{
    for (i, byte) in bytes.iter().enumerate() {
        if *byte == 0 {
            return i;
        }
    }
    bytes.len()
}

/// The text that begins at a place of a string table.
pub(crate) fn text(table: &[u8], place: u32) -> &[u8]
    requires { place ≤ length table.now }
    ensures { result.now ≡ text_at table.now place }
{
    let rest = &table[place as usize..];
    &rest[..first_zero(rest)]
}

/// Whether a text ends, or a zero ends it, after no more bytes than a name may have.
fn ends_as_name(text: &[u8]) -> bool
    ensures { result ≡ nat_le (position_or_len is_zero text.now) 4096 }
{
    first_zero(text) <= LONGEST_NAME
}

/// Whether the text at a place has no more bytes than a name may have. It looks at no more bytes than that.
pub(crate) fn is_name(table: &[u8], place: u32) -> bool
    requires { place ≤ length table.now }
    ensures { result ≡ nat_le (length (text_at table.now place)) 4096 }
{
    let rest = &table[place as usize..];
    ends_as_name(&rest[..rest.len().min(LONGEST_NAME + 1)])
}

/// The place after the last zero, or 0 where there is none.
fn behind_last_zero(bytes: &[u8]) -> usize
    ensures within { result ≤ length bytes.now }
    ensures zero_before { 0 < result → slice_index bytes.now (result - 1) ≡ 0 }
    ensures none_behind { list_any is_zero (drop result bytes.now) ≡ false }
{
    let mut end = bytes.len();
    while end > 0 {
        if bytes[end - 1] == 0 {
            return end;
        }
        end -= 1;
    }
    end
}

/// A string table, and the place after its last zero.
#[derive(Clone, Copy)]
pub(crate) struct Strings<'a> {
    pub bytes: &'a [u8],
    pub end: usize,
    ghost last_zero: { (place : ℕ) → ends_in bytes.now place ≡ nat_lt place end },
}

impl<'a> Strings<'a> {
    /// Finds the last zero of a table.
    pub fn new(bytes: &'a [u8]) -> Strings<'a>
        ensures { result.bytes.now ≡ bytes.now }
    {
        Strings {
            bytes,
            end: behind_last_zero(bytes),
        }
    }

    /// Whether a text begins at this place and a zero ends it.
    pub fn has_end(&self, place: u32) -> bool
        ensures { result ≡ ends_in self.now.bytes.now place }
    {
        (place as usize) < self.end
    }
}
