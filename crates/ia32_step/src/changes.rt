//! What instructions are made of.
ghost use Rattle.std.specs.Prelude.{◌≡◌};
ghost use Rattle.ia32_step.specs.Operands.{number_at};
ghost use Rattle.ia32_step.specs.Changes.{goes_on, storing, putting, above, below, pushing, popped, raised};

use crate::operands::number_at;
use crate::types::{Change, Context, Flow, Place, Store};
use ia32_alu::Width;
use image_memory::Space;
use ks_base::Fault;

/// The address a number of bytes above another, modulo 2^32.
pub(crate) fn above(address: u32, bytes: u32) -> u32
    ensures { result ≡ above address bytes }
{
    address.wrapping_add(bytes)
}

/// The address a number of bytes below another, modulo 2^32.
fn below(address: u32, bytes: u32) -> u32
    ensures { result ≡ below address bytes }
{
    address.wrapping_sub(bytes)
}

impl Context {
    /// The dword on top of the stack.
    pub(crate) fn popped<S: Space>(&self, space: &S) -> Result<u32, Fault>
        ensures { result ≡ popped (number_at (S.contents space.now).pieces) self.now }
    {
        number_at(space, Width::Dword, self.stack_top())
    }

    /// ESP rises as after a pop, and by a number of further bytes.
    pub(crate) fn raise(&mut self, bytes: u32)
        ensures { self.new ≡ raised bytes self.old }
    {
        let top = above(above(self.stack_top(), 4), bytes);
        self.put_stack_top(top);
    }
}

impl Change {
    /// The thread goes on, and nothing is written.
    pub(crate) fn go_on(&mut self)
        ensures { self.new ≡ goes_on self.old.context }
    {
        self.flow = Flow::Plain;
        self.store = None;
    }

    /// The thread goes on, and a number is written to memory.
    pub(crate) fn write(&mut self, address: u32, width: Width, value: u32)
        ensures { self.new ≡ storing address width value self.old.context }
    {
        self.flow = Flow::Plain;
        self.store = Some(Store {
            address,
            width,
            value,
        });
    }

    /// A place takes a number.
    pub(crate) fn put(&mut self, place: Place, width: Width, value: u32)
        ensures { self.new ≡ putting place width value self.old.context }
    {
        match place {
            Place::InRegister(register) => {
                self.context.put_register(width, register, value);
                self.go_on();
            }
            Place::InMemory(address) => self.write(address, width, value),
        }
    }

    /// A dword is pushed.
    pub(crate) fn push(&mut self, value: u32)
        ensures { self.new ≡ pushing value self.old.context }
    {
        let top = below(self.context.stack_top(), 4);
        self.context.put_stack_top(top);
        self.write(top, Width::Dword, value);
    }
}
