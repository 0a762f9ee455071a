//! The start of an instruction: its prefixes and its opcode.
ghost use Rattle.std.specs.Prelude.{◌≡◌, ◌≢◌, ◌≤◌, ◌<◌, ◌^◌, length, not, [], false, IfSome};
ghost use Rattle.std.specs.List.{position};
ghost use Rattle.ia32_decode.specs.Encoding.{byte_in, word_in, dword_in, is_prefix, prefix_count, has_byte};
ghost use Rattle.ia32_decode.specs.Encoding.{prefixes_of, head_after, head_of};
ghost use Rattle.ia32_decode.specs.declared.opcode_table.Line.TheVariants.{NoLine};
ghost use Rattle.ia32_decode.specs.Table.{line_of};

use crate::types::Prefixes;

/// The prefixes and the opcode of an instruction.
#[derive(Clone, Copy)]
pub(crate) struct Head {
    /// The prefixes.
    pub prefixes: Prefixes,
    /// The opcode stands after a byte 0F.
    pub escaped: bool,
    /// The opcode.
    pub opcode: u8,
    /// The offset after it.
    pub end: u32,
}

/// The byte at an offset, 0 past the end.
pub(crate) fn byte_at(window: &[u8], i: u32) -> u8
    ensures { result ≡ byte_in window.now i }
{
    window.get(i as usize).copied().unwrap_or(0)
}

/// The two bytes at an offset as a number, of which some may be past the end.
#[tactic(auto, unfolding(crate::specs::Encoding::word_in))]
pub(crate) fn word_at(window: &[u8], i: u32) -> u32
    requires { i ≤ 100 }
    ensures value { result ≡ word_in window.now i }
    ensures bound { result < 2 ^ 16 }
{
    let low = byte_at(window, i);
    let high = byte_at(window, i + 1);
    u32::from(low) + 0x100 * u32::from(high)
}

/// The four bytes at an offset as a number, of which some may be past the end.
#[cold]
#[inline(never)]
#[tactic(auto, unfolding(crate::specs::Encoding::dword_in))]
fn cut_dword_at(window: &[u8], i: u32) -> u32
    requires { i ≤ 90 }
    ensures { result ≡ dword_in window.now i }
{
    let low = word_at(window, i);
    let high = word_at(window, i + 2);
    low + 0x10000 * high
}

/// The four bytes at an offset as a number.
#[tactic(auto, unfolding(crate::specs::Encoding::dword_in, crate::specs::Encoding::word_in))]
pub(crate) fn dword_at(window: &[u8], i: u32) -> u32
    requires { i ≤ 90 }
    ensures { result ≡ dword_in window.now i }
{
    let at = i as usize;
    if window.len() < at + 4 {
        return cut_dword_at(window, i);
    }
    let low = u32::from(window[at]) + 0x100 * u32::from(window[at + 1]);
    let high = u32::from(window[at + 2]) + 0x100 * u32::from(window[at + 3]);
    low + 0x10000 * high
}

/// Whether a byte is a prefix.
fn is_prefix_byte(byte: u8) -> bool
    ensures { result ≡ is_prefix byte }
{
    byte == 0x66
        || byte == 0xF0
        || byte == 0xF2
        || byte == 0xF3
        || byte == 0x26
        || byte == 0x2E
        || byte == 0x36
        || byte == 0x3E
        || byte == 0x64
        || byte == 0x65
}

/// Where the first byte stands that is no prefix.
fn first_other(window: &[u8]) -> Option<usize>
    ensures value { result ≡ position (λ byte. not (is_prefix byte)) window.now }
    ensures bound { IfSome result (λ place. place < length window.now) }
{
    window.iter().position(|byte| !is_prefix_byte(*byte))
}

/// How many prefixes stand at the start.
#[tactic(auto, unfolding(crate::specs::Encoding::prefix_count))]
fn count_prefixes(window: &[u8]) -> usize
    ensures value { result ≡ prefix_count window.now }
    ensures bound { result ≤ length window.now }
{
    first_other(window).unwrap_or(window.len())
}

/// Whether a byte is among some.
fn has(bytes: &[u8], byte: u8) -> bool
    ensures { result ≡ has_byte byte bytes.now }
{
    bytes.iter().any(|b| *b == byte)
}

/// Which prefixes are among `count` bytes that are prefixes.
#[tactic(auto, unfolding(crate::specs::Encoding::prefixes_of))]
fn prefixes(front: &[u8], count: u32) -> Prefixes
    ensures { result ≡ prefixes_of front.now count }
{
    Prefixes {
        count,
        operand_size: has(front, 0x66),
        lock: has(front, 0xF0),
        repeat_not_equal: has(front, 0xF2),
        repeat: has(front, 0xF3),
        extra_segment: has(front, 0x26),
        code_segment: has(front, 0x2E),
        stack_segment: has(front, 0x36),
        data_segment: has(front, 0x3E),
        segment_f: has(front, 0x64),
        segment_g: has(front, 0x65),
    }
}

/// No prefix.
#[tactic(auto, unfolding(crate::specs::Encoding::prefixes_of))]
pub(crate) fn no_prefixes() -> Prefixes
    ensures { result ≡ prefixes_of [] 0 }
{
    Prefixes {
        count: 0,
        operand_size: false,
        lock: false,
        repeat_not_equal: false,
        repeat: false,
        extra_segment: false,
        code_segment: false,
        stack_segment: false,
        data_segment: false,
        segment_f: false,
        segment_g: false,
    }
}

/// The opcode that follows the prefixes, which are so many bytes.
#[tactic(auto, unfolding(crate::specs::Encoding::head_after))]
fn opcode_after(window: &[u8], prefixes: Prefixes, n: u32) -> Head
    requires { n ≤ 15 }
    ensures value { result ≡ head_after window.now prefixes n }
    ensures bound { result.end ≤ 17 }
{
    if byte_at(window, n) == 0x0F {
        Head {
            prefixes,
            escaped: true,
            opcode: byte_at(window, n + 1),
            end: n + 2,
        }
    } else {
        Head {
            prefixes,
            escaped: false,
            opcode: byte_at(window, n),
            end: n + 1,
        }
    }
}

/// The prefixes and the opcode at the start of a window, counted and looked for.
#[cold]
#[inline(never)]
fn read_head(window: &[u8]) -> Head
    requires { length window.now ≤ 15 }
    ensures value { result ≡ head_of window.now }
    ensures bound { result.end ≤ 17 }
{
    let count = count_prefixes(window);
    let front = &window[..count];
    opcode_after(window, prefixes(front, count as u32), count as u32)
}

/// The head of an instruction that begins with an opcode of one byte.
#[tactic(auto, unfolding(crate::specs::Encoding::prefixes_of, crate::specs::Encoding::head_after), using(crate::proofs::PlainHead::head_of_listed))]
#[inline(always)]
pub(crate) fn listed_head(window: &[u8], opcode: u8) -> Head
    requires first { opcode ≡ byte_in window.now 0 }
    requires listed { line_of false opcode ≢ NoLine }
    ensures value { result ≡ head_of window.now }
    ensures line { line_of result.escaped result.opcode ≡ line_of false opcode }
    ensures end { result.end ≡ 1 }
{
    Head {
        prefixes: no_prefixes(),
        escaped: false,
        opcode,
        end: 1,
    }
}

/// The opcode at the start of a window that doesn't begin with a prefix. Most don't, and ten searches for prefixes
/// among no bytes would take longer than all else here.
#[tactic(auto, using(crate::proofs::PlainHead::head_of_plain))]
fn plain_head(window: &[u8]) -> Head
    requires { is_prefix (byte_in window.now 0) ≡ false }
    ensures value { result ≡ head_of window.now }
    ensures bound { result.end ≤ 17 }
{
    opcode_after(window, no_prefixes(), 0)
}

/// The prefixes and the opcode at the start of a window.
pub(crate) fn any_head(window: &[u8]) -> Head
    requires { length window.now ≤ 15 }
    ensures value { result ≡ head_of window.now }
    ensures bound { result.end ≤ 17 }
{
    if is_prefix_byte(byte_at(window, 0)) {
        read_head(window)
    } else {
        plain_head(window)
    }
}
