//! The number that a word writes.
ghost use Rattle.std.specs.Prelude.{◌≡◌, ◌≤◌, Some, None, if◌then◌else◌, length};
ghost use Rattle.std.specs.List.{list_all};
ghost use Rattle.std.specs.Char.{is_digit};
ghost use Rattle.std.specs.Str.Parse.{digits_value};
ghost use Rattle.script_lines.specs.Numbers.{number_of, numeral, when};
ghost use Rattle.script_lines.specs.Forms.{number_within};

/// The number that a word writes, in decimal, or in hexadecimal after `0x`.
pub(crate) fn number_of(word: &[u8]) -> Option<u32>
    ensures { result ≡ number_of word.now }
{
    match word {
        [b'0', b'x', digits @ ..] => numeral(digits, 16, 8),
        _ => decimal(word),
    }
}

/// The number that one to ten decimal digits write; `None` for any other word, and for a number above 4,294,967,295.
pub fn decimal(word: &[u8]) -> Option<u32>
    ensures { result ≡ numeral 10 10 word.now }
{
    numeral(word, 10, 10)
}

/// The number that a word writes, which is from `low` to `high`.
pub(crate) fn number_within(word: &[u8], low: u32, high: u32) -> Option<u32>
    ensures { result ≡ number_within low high word.now }
{
    let number = number_of(word)?;
    if number < low || number > high {
        return None;
    }
    Some(number)
}

/// The number that one to `most` digits write.
fn numeral(digits: &[u8], base: u32, most: usize) -> Option<u32>
    requires low { 2 ≤ base }
    requires high { base ≤ 16 }
    requires short { most ≤ 10 }
    ensures { result ≡ numeral base most digits.now }
{
    if digits.is_empty() || digits.len() > most {
        return None;
    }
    let value = value_of(digits, base)?;
    if value > u64::from(u32::MAX) {
        return None;
    }
    Some(value as u32)
}

/// The value of digits, `None` where some byte is no digit of the base.
fn value_of(digits: &[u8], base: u32) -> Option<u64>
    requires low { 2 ≤ base }
    requires high { base ≤ 16 }
    requires short { length digits.now ≤ 10 }
    ensures { result ≡ when (list_all (λ digit. is_digit digit base) digits.now) (digits_value base digits.now) }
{
    let mut value: u64 = 0;
    for byte in digits {
        let digit = char::from(*byte).to_digit(base)?;
        value = value * u64::from(base) + u64::from(digit);
    }
    Some(value)
}
