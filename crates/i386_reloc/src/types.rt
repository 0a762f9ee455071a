//! The sections of an object as they are compared.
ghost use Rattle.std.specs.Prelude.{◌≡◌};
ghost use Rattle.i386_reloc.specs.Classes.{is_code_class, is_strings_class};
ghost use Rattle.i386_reloc.specs.Normal.{function_name};

use crate::span::Span;
use ks_base::{Bytes, ListOf};

/// What a loaded section holds.
#[derive(Clone, Copy, PartialEq, Eq)]
pub enum Class {
    /// Zeros that the file doesn't hold (`SHT_NOBITS`).
    Zero,
    /// Instructions (`SHF_EXECINSTR`): one function.
    Code,
    /// Data that the program may change (`SHF_WRITE`).
    Writable,
    /// Texts that a linker may merge (`SHF_MERGE` and `SHF_STRINGS`, of entry size 1).
    Strings,
    /// All other data.
    ReadOnly,
}

impl Class {
    /// Whether this is the class of instructions.
    pub fn is_code(self) -> bool
        ensures { result ≡ is_code_class self }
    {
        matches!(self, Class::Code)
    }

    /// Whether this is the class of texts.
    pub fn is_strings(self) -> bool
        ensures { result ≡ is_strings_class self }
    {
        matches!(self, Class::Strings)
    }
}

/// How many bytes the field of a reference has.
pub const FIELD_LENGTH: u32 = 4;

/// How the value of a reference is counted.
#[derive(Clone, Copy, PartialEq, Eq)]
pub enum Form {
    /// `S + A`: the target's address and the addend.
    Absolute,
    /// `S + A - P`: the same, counted from the field's own address.
    Relative,
}

/// What a reference refers to.
#[derive(Drop)]
pub enum Target<'a> {
    /// A loaded section of the same object that holds no texts, by its name.
    Section(Span<'a>),
    /// A symbol that the object doesn't define, by its name.
    Outside(Span<'a>),
    /// A text: the bytes from its offset in a section of texts through the first zero. Two texts are the same target
    /// where these bytes are equal, wherever they stand.
    Text {
        /// The name of the section that holds it.
        section: Span<'a>,
        /// Where it begins in that section, in bytes.
        offset: u32,
        /// Its bytes, the zero with them.
        text: Span<'a>,
    },
}

/// A reference: a field of four bytes that a relocation changes.
#[derive(Drop)]
pub struct Ref<'a> {
    /// Where the field begins in its section, in bytes.
    pub offset: u32,
    /// How its value is counted.
    pub form: Form,
    /// What it refers to.
    pub target: Target<'a>,
    /// What is added to the target's address, modulo 2 to the 32nd. The value of the relocation's symbol is part of it,
    /// except for a text.
    pub addend: u32,
}

/// References by offset.
pub type Refs<'a> = ListOf<Ref<'a>>;

/// A symbol of a variable (`STT_OBJECT`).
#[derive(Drop)]
pub struct ObjectSymbol<'a> {
    /// The symbol's name.
    pub name: Span<'a>,
    /// Where the variable begins in its section, in bytes.
    pub value: u32,
    /// Whether it is seen from other objects: the symbol's binding is global or weak.
    pub global: bool,
}

/// Symbols of variables, in the order of the symbol table.
pub type Objects<'a> = ListOf<ObjectSymbol<'a>>;

/// A loaded section. Its names and texts borrow from the file.
#[derive(Drop)]
pub struct NormalSection<'a> {
    /// The section's name. No two loaded sections of an object have one name.
    pub name: Span<'a>,
    pub class: Class,
    /// The name of the function that a code section is, `None` for every other section.
    pub function: Option<Span<'a>>,
    /// Whether that function is seen from other objects: its symbol's binding is global or weak.
    pub global: bool,
    /// The alignment, 0 or a power of two up to 4,096.
    pub align: u32,
    /// The size in bytes.
    pub size: u32,
    /// The section's bytes with zeros in the fields of its references, none for the class `Zero`.
    pub bytes: Bytes,
    /// The references that stand in the section, by offset.
    pub refs: Refs<'a>,
    /// The variables that stand in the section.
    pub objects: Objects<'a>,
}

impl<'a> NormalSection<'a> {
    /// The name of the function that the section is, without bytes where it is none.
    pub fn function_name(&self) -> &'a [u8]
        ensures { result.now ≡ function_name self.now }
    {
        match &self.function {
            Some(name) => name.as_slice(),
            None => &[],
        }
    }
}
