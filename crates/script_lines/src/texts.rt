//! The words of a line as text.
ghost use Rattle.std.specs.Prelude.{◌≡◌};
ghost use Rattle.script_lines.specs.Lines.{IsPrintable};

use ks_base::Name;
use std::str::from_utf8;

/// A word of a line, as text: it is ASCII.
pub fn text_of(word: &Name) -> &str
    requires { IsPrintable word.now }
    ensures { result.now ≡ word.now }
{
    match from_utf8(word.as_slice()) {
        Ok(text) => text,
        Err(_) => unreachable!(),
    }
}
