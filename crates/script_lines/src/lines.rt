//! The lines of a script, and the words of a line.
ghost use Rattle.std.specs.Prelude.{◌≡◌, ◌<◌, ◌∷◌, [], false, IfSome, MatchOption, length, not, slice_index};
ghost use Rattle.std.specs.List.{list_all, position};
ghost use Rattle.script_lines.specs.Lines.{lines_of, words_of, is_line_end, is_space, is_plain, is_printable};

/// The longest line, in bytes.
const LONGEST_LINE: usize = 4096;

/// The first line, and what follows its end.
#[tactic(auto, using(crate::proofs::Cuts::line_cuts))]
pub(crate) fn first_line(bytes: &[u8]) -> (&[u8], &[u8])
    requires { 0 < length bytes.now }
    ensures lines { lines_of bytes.now ≡ result.0.now ∷ lines_of result.1.now }
    ensures rest { length result.1.now < length bytes.now }
{
    match find_line_end(bytes) {
        Some(end) => (&bytes[..end], &bytes[end + 1..]),
        None => (bytes, &[]),
    }
}

/// The first word, and what follows it. `None` where there is no word.
#[tactic(auto, using(crate::proofs::Cuts::word_starts))]
pub(crate) fn first_word(line: &[u8]) -> Option<(&[u8], &[u8])>
    ensures { MatchOption result (words_of line.now ≡ [])
        (λ found. words_of line.now ≡ found.0.now ∷ words_of found.1.now) }
{
    let start = find_word(line)?;
    Some(word_at_front(&line[start..]))
}

/// The word that a text begins with, and what follows it.
#[tactic(auto, using(crate::proofs::Cuts::word_cuts))]
fn word_at_front(text: &[u8]) -> (&[u8], &[u8])
    requires some { 0 < length text.now }
    requires front { is_space (slice_index text.now 0) ≡ false }
    ensures { words_of text.now ≡ result.0.now ∷ words_of result.1.now }
{
    match find_space(text) {
        Some(end) => (&text[..end], &text[end + 1..]),
        None => (text, &[]),
    }
}

fn find_line_end(bytes: &[u8]) -> Option<usize>
    ensures value { result ≡ position is_line_end bytes.now }
    ensures bound { IfSome result (λ place. place < length bytes.now) }
{
    bytes.iter().position(|byte| *byte == b'\n')
}

fn find_space(text: &[u8]) -> Option<usize>
    ensures value { result ≡ position is_space text.now }
    ensures bound { IfSome result (λ place. place < length text.now) }
{
    text.iter().position(|byte| *byte == b' ')
}

/// Where the first byte stands that is no space.
fn find_word(text: &[u8]) -> Option<usize>
    ensures value { result ≡ position (λ byte. not (is_space byte)) text.now }
    ensures bound { IfSome result (λ place. place < length text.now) }
{
    text.iter().position(|byte| *byte != b' ')
}

/// Whether a line has no more bytes than it may have, and none but printable ones.
pub(crate) fn is_plain(line: &[u8]) -> bool
    ensures { result ≡ is_plain line.now }
{
    line.len() <= LONGEST_LINE && are_printable(line)
}

fn are_printable(bytes: &[u8]) -> bool
    ensures { result ≡ list_all is_printable bytes.now }
{
    bytes.iter().all(|byte| is_printable(*byte))
}

fn is_printable(byte: u8) -> bool
    ensures { result ≡ is_printable byte }
{
    (0x20..=0x7e).contains(&byte)
}
