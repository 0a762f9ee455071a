//! The value that a relocation gives its field.
ghost use Rattle.std.specs.Prelude.{◌≡◌};
ghost use Rattle.i386_reloc.specs.Value.{value_of};

use crate::types::Form;

/// The value of a field, modulo 2 to the 32nd: `s` is the target's address, `a` the addend and `p` the field's own
/// address (Intel386 supplement, "Relocation Types").
pub fn field_value(form: Form, s: u32, a: u32, p: u32) -> u32
    ensures { result ≡ value_of form s a p }
{
    match form {
        Form::Absolute => s.wrapping_add(a),
        Form::Relative => s.wrapping_add(a).wrapping_sub(p),
    }
}
