//! The classes of the sections that are reached, and where in a function a reference goes.
ghost use Rattle.std.specs.Prelude.{◌≡◌};
ghost use Rattle.i386_reloc.specs.Reaches.{is_read_only_class, is_constant_class, is_data_class, is_interior};

use crate::types::{Class, Form, Ref};

/// The addend -4 of a call.
const CALL_ADDEND: u32 = 0xffff_fffc;

impl Class {
    /// Whether this is the class of read-only data.
    pub fn is_read_only(self) -> bool
        ensures { result ≡ is_read_only_class self }
    {
        matches!(self, Class::ReadOnly)
    }

    /// Whether this is the class of read-only data or that of texts: those are what sections reach.
    pub fn is_constant(self) -> bool
        ensures { result ≡ is_constant_class self }
    {
        matches!(self, Class::ReadOnly | Class::Strings)
    }

    /// Whether this is a class of data that the program may change.
    pub fn is_data(self) -> bool
        ensures { result ≡ is_data_class self }
    {
        matches!(self, Class::Zero | Class::Writable)
    }
}

impl<'a> Ref<'a> {
    /// Whether the reference, where it goes to a function, goes somewhere other than its entry. A call of the entry has
    /// the addend -4, since a relative value is counted from the field's start.
    pub fn is_interior(&self) -> bool
        ensures { result ≡ is_interior self.now }
    {
        match self.form {
            Form::Absolute => self.addend != 0,
            Form::Relative => self.addend != CALL_ADDEND,
        }
    }
}
