//! What holds of decoding code in whose fields other numbers were put.
ghost use Rattle.linked_code.specs.Filled.{FieldsDecodeAlike};

/// An instruction in whose fields of four bytes, its displacement and its immediate, other numbers were put is decoded
/// alike: it is as long, has its fields where they were, its prefixes, its opcode and addressing bytes, also those of the
/// wide form, and is a direct branch of the same kind or none. Such a branch goes as far as its field says.
pub fn fields_decode_alike()
    ensures { FieldsDecodeAlike }
{}
