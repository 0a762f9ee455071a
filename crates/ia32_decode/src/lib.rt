//! Decodes one instruction of 32-bit x86 code, and tells which instructions are padding.
//!
//! The encodings are those of the Intel SDM, volume 2: prefixes (2.1.1), ModRM and SIB bytes (2.1.5), and the
//! opcode maps (appendix A), for a chosen list of rows. Nothing here takes memory.
#![tactic(auto)]

mod addressing;
mod branches;
mod decoder;
mod heads;
mod instructions;
mod laws;
mod layouts;
mod opcode_table;
mod padding_forms;
mod registers;
mod types;
mod widening;

pub use decoder::decode;
pub use laws::{
    decoding_rests_on_its_bytes, instructions_have_bytes, jumps_decode, one_line_spells,
    others_are_their_own_wide_form, wide_forms_have_bytes, wide_forms_rest_on_their_bytes,
};
pub use padding_forms::is_padding;
pub use types::{
    Action, Branch, BranchKind, Condition, Count, Decoded, Field, Fields, Index, Instr, Memory,
    Operand, Prefixes, Register, Scale, Source, Wide,
};
pub use widening::{has_short_number, widen};
