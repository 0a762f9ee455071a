//! The bytes of one reply, and how numbers and names are written in it.
ghost use Rattle.std.specs.Prelude.{◌≡◌, ◌++◌, ◌≤◌, ◌<◌, ◌%◌, [], map, OnOk, OnErr, IfOk, IsTrue, ◌↔◌};
ghost use Rattle.std.specs.Int.Digits.{digits_of};
ghost use Rattle.ks_base.specs.Text.{hex_digit, hex_text, byte_text, digits_text, offset_text};
ghost use Rattle.ks_base.specs.Text.{number_text, stands_for_itself, shown_byte, shown_name};
ghost use Rattle.ks_base.specs.Refusals.{refusal_line};

use crate::places::Name;
use crate::refusal_texts::write_refusal;
use crate::refusals::Refusal;
use std::alloc::{AllocError, Global};
use std::marker::Model;

/// The bytes of one reply. A clause sees it as the list of these bytes.
#[derive(Drop)]
pub struct Line {
    bytes: Vec<u8>,
}

impl Model for Line {
    ghost use Rattle.std.specs.Prelude.{ℕ, List};

    ghost Value = { List ℕ };

    ghost view = { λ l. l.bytes.items };
}

impl Line {
    /// A reply without a byte. It takes no memory; `alloc` is kept for what is put later.
    pub fn new(alloc: Global) -> Self
        ensures { result ≡ [] }
    {
        Line {
            bytes: Vec::new(alloc),
        }
    }

    /// The bytes so far.
    pub fn bytes(&self) -> &[u8]
        ensures { result.now ≡ self.now }
    {
        self.bytes.as_slice()
    }

    /// Appends an address or a word: `0x` and eight lower-case hexadecimal digits. If memory runs out
    /// the line is as before.
    pub fn put_hex(&mut self, n: u32) -> Result<(), AllocError>
        ensures ok { OnOk result (self.new ≡ self.old ++ hex_text n) }
        ensures err { OnErr result (self.new ≡ self.old) }
    {
        self.bytes.extend_from_slice(&hex_characters(n))
    }

    /// Appends a byte as two lower-case hexadecimal digits. If memory runs out the line is as before.
    pub fn put_byte(&mut self, byte: u8) -> Result<(), AllocError>
        ensures ok { OnOk result (self.new ≡ self.old ++ byte_text byte) }
        ensures err { OnErr result (self.new ≡ self.old) }
    {
        self.bytes.extend_from_slice(&byte_characters(byte))
    }

    /// Appends an offset: `0x` and as many lower-case hexadecimal digits as are needed, `0x0` for zero.
    /// If memory runs out the line is as before.
    pub fn put_offset(&mut self, n: u32) -> Result<(), AllocError>
        ensures ok { OnOk result (self.new ≡ self.old ++ offset_text n) }
        ensures err { OnErr result (self.new ≡ self.old) }
    {
        let characters = offset_characters(*self.bytes.allocator(), n)?;
        self.bytes.extend_from_slice(characters.as_slice())
    }

    /// Appends a number in decimal. If memory runs out the line is as before.
    pub fn put_number(&mut self, n: u64) -> Result<(), AllocError>
        ensures ok { OnOk result (self.new ≡ self.old ++ number_text n) }
        ensures err { OnErr result (self.new ≡ self.old) }
    {
        let characters = number_characters(*self.bytes.allocator(), n)?;
        self.bytes.extend_from_slice(characters.as_slice())
    }

    /// Appends a name: each byte outside 0x21 to 0x7E and each backslash as `\x` and two lower-case
    /// hexadecimal digits, every other byte as it is. If memory runs out the line is as before.
    pub fn put_name(&mut self, name: &Name) -> Result<(), AllocError>
        ensures ok { OnOk result (self.new ≡ self.old ++ shown_name name.now) }
        ensures err { OnErr result (self.new ≡ self.old) }
    {
        let characters = name_characters(*self.bytes.allocator(), name.as_slice())?;
        self.bytes.extend_from_slice(characters.as_slice())
    }

    /// Appends a text as it is. If memory runs out the line is as before.
    pub fn put_text(&mut self, text: &str) -> Result<(), AllocError>
        ensures ok { OnOk result (self.new ≡ self.old ++ text.now) }
        ensures err { OnErr result (self.new ≡ self.old) }
    {
        self.bytes.extend_from_slice(text.as_bytes())
    }

    /// Appends the whole line of a refusal with its line feed, and nothing for [`Refusal::Memory`]. If
    /// memory runs out the line is as before.
    pub fn put_refusal(&mut self, refusal: &Refusal) -> Result<(), AllocError>
        ensures ok { OnOk result (self.new ≡ self.old ++ refusal_line refusal.now) }
        ensures err { OnErr result (self.new ≡ self.old) }
    {
        let mut line = Line::new(*self.bytes.allocator());
        write_refusal(&mut line, refusal)?;
        self.bytes.extend_from_slice(line.bytes())
    }
}

/// The character of a number's lowest hexadecimal digit.
fn low_digit(n: u32) -> u8
    ensures { result ≡ hex_digit (n % 16) }
{
    let digit = (n % 16) as u8;
    if digit < 10 {
        b'0' + digit
    } else {
        b'a' + (digit - 10)
    }
}

#[tactic(auto, unfolding(crate::specs::Text::hex_text))]
fn hex_characters(n: u32) -> [u8; 10]
    ensures { result ≡ hex_text n }
{
    [
        b'0',
        b'x',
        low_digit(n / 0x1000_0000),
        low_digit(n / 0x100_0000),
        low_digit(n / 0x10_0000),
        low_digit(n / 0x1_0000),
        low_digit(n / 0x1000),
        low_digit(n / 0x100),
        low_digit(n / 0x10),
        low_digit(n),
    ]
}

#[tactic(auto, unfolding(crate::specs::Text::byte_text))]
fn byte_characters(byte: u8) -> [u8; 2]
    ensures { result ≡ byte_text byte }
{
    let n = u32::from(byte);
    [low_digit(n / 0x10), low_digit(n)]
}

/// Appends the digits of a number in a base, the highest first, and none for zero.
#[tactic(auto, using(crate::proofs::TextLaws::digit_laws))]
fn push_digits(digits: &mut Vec<u8>, base: u64, n: u64) -> Result<(), AllocError>
    requires low { 2 ≤ base }
    requires high { base ≤ 16 }
    ensures { OnOk result (digits.new.items ≡ digits.old.items ++ map hex_digit (digits_of base n)) }
{
    if n == 0 {
        return Ok(());
    }
    push_digits(digits, base, n / base)?;
    digits.push(low_digit((n % base) as u32))?;
    Ok(())
}

/// Appends a number in a base.
#[tactic(auto, unfolding(crate::specs::Text::digits_text))]
fn push_number(digits: &mut Vec<u8>, base: u64, n: u64) -> Result<(), AllocError>
    requires low { 2 ≤ base }
    requires high { base ≤ 16 }
    ensures { OnOk result (digits.new.items ≡ digits.old.items ++ digits_text base n) }
{
    if n == 0 {
        digits.push(b'0')?;
        return Ok(());
    }
    push_digits(digits, base, n)
}

#[tactic(auto, unfolding(crate::specs::Text::offset_text))]
fn offset_characters(alloc: Global, n: u32) -> Result<Vec<u8>, AllocError>
    ensures { IfOk result (λ v. v.items ≡ offset_text n) }
{
    let mut characters = Vec::from_slice(alloc, b"0x")?;
    push_number(&mut characters, 16, u64::from(n))?;
    Ok(characters)
}

#[tactic(auto, unfolding(crate::specs::Text::number_text))]
fn number_characters(alloc: Global, n: u64) -> Result<Vec<u8>, AllocError>
    ensures { IfOk result (λ v. v.items ≡ number_text n) }
{
    let mut characters = Vec::new(alloc);
    push_number(&mut characters, 10, n)?;
    Ok(characters)
}

fn stands_for_itself(byte: u8) -> bool
    ensures { result ≡ stands_for_itself byte }
{
    (0x21..=0x7e).contains(&byte) && byte != b'\\'
}

/// Appends one byte of a name.
#[tactic(auto, using(crate::proofs::TextLaws::append_laws), unfolding(crate::specs::Text::shown_byte))]
fn push_shown(characters: &mut Vec<u8>, byte: u8) -> Result<(), AllocError>
    ensures { OnOk result (characters.new.items ≡ characters.old.items ++ shown_byte byte) }
{
    if stands_for_itself(byte) {
        characters.push(byte)?;
        return Ok(());
    }
    characters.extend_from_slice(b"\\x")?;
    characters.extend_from_slice(&byte_characters(byte))
}

#[tactic(auto, using(crate::proofs::TextLaws::append_laws), unfolding(crate::specs::Text::shown_name))]
fn name_characters(alloc: Global, name: &[u8]) -> Result<Vec<u8>, AllocError>
    ensures { IfOk result (λ v. v.items ≡ shown_name name.now) }
{
    let mut characters = Vec::new(alloc);
    for byte in name {
        push_shown(&mut characters, *byte)?;
    }
    Ok(characters)
}
