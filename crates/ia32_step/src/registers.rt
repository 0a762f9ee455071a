//! The registers of a thread at each width.
ghost use Rattle.std.specs.Prelude.{◌≡◌, ◌<◌};
ghost use Rattle.ia32_step.specs.Registers.{byte_value, register_value, with_lowest_byte, with_second_byte};
ghost use Rattle.ia32_step.specs.Registers.{with_lower_half, with_byte, with_word, with_register, accumulator};
ghost use Rattle.ia32_step.specs.Registers.{stack_top, with_stack_top};

use crate::types::Context;
use ia32_alu::Width;
use ia32_decode::Register;

fn byte_in(registers: &[u32; 8], number: u8) -> u32
    requires { number < 8 }
    ensures { result ≡ byte_value registers.now number }
{
    if number < 4 {
        registers[usize::from(number)] % 0x100
    } else {
        registers[usize::from(number) - 4] / 0x100 % 0x100
    }
}

fn put_lowest_byte(old: u32, value: u32) -> u32
    ensures { result ≡ with_lowest_byte old value }
{
    old / 0x100 * 0x100 + value % 0x100
}

fn put_second_byte(old: u32, value: u32) -> u32
    ensures { result ≡ with_second_byte old value }
{
    old / 0x1_0000 * 0x1_0000 + value % 0x100 * 0x100 + old % 0x100
}

fn put_lower_half(old: u32, value: u32) -> u32
    ensures { result ≡ with_lower_half old value }
{
    old / 0x1_0000 * 0x1_0000 + value % 0x1_0000
}

fn put_byte(registers: &mut [u32; 8], number: u8, value: u32)
    requires { number < 8 }
    ensures { registers.new ≡ with_byte registers.old number value }
{
    let at = usize::from(number);
    if at < 4 {
        registers[at] = put_lowest_byte(registers[at], value);
    } else {
        registers[at - 4] = put_second_byte(registers[at - 4], value);
    }
}

fn put_word(registers: &mut [u32; 8], number: u8, value: u32)
    requires { number < 8 }
    ensures { registers.new ≡ with_word registers.old number value }
{
    let at = usize::from(number);
    registers[at] = put_lower_half(registers[at], value);
}

impl Context {
    /// What a register holds at a width.
    #[tactic(auto, unfolding(crate::specs::Registers::register_value))]
    pub(crate) fn register(&self, width: Width, register: Register) -> u32
        ensures { result ≡ register_value self.now.registers width register }
    {
        let number = register.number();
        match width {
            Width::Byte => byte_in(&self.registers, number),
            Width::Word => self.registers[usize::from(number)] % 0x1_0000,
            Width::Dword => self.registers[usize::from(number)],
        }
    }

    /// A register takes a number at a width; its bits above stay.
    #[tactic(auto, unfolding(crate::specs::Registers::registers_with))]
    pub(crate) fn put_register(&mut self, width: Width, register: Register, value: u32)
        ensures { self.new ≡ with_register width register value self.old }
    {
        let number = register.number();
        match width {
            Width::Byte => put_byte(&mut self.registers, number, value),
            Width::Word => put_word(&mut self.registers, number, value),
            Width::Dword => self.registers[usize::from(number)] = value,
        }
    }

    /// AL, AX or EAX.
    pub(crate) fn accumulator(&self, width: Width) -> u32
        ensures { result ≡ accumulator self.now width }
    {
        self.register(width, Register::Eax)
    }

    /// ESP.
    pub(crate) fn stack_top(&self) -> u32
        ensures { result ≡ stack_top self.now }
    {
        self.register(Width::Dword, Register::Esp)
    }

    /// ESP takes an address.
    pub(crate) fn put_stack_top(&mut self, top: u32)
        ensures { self.new ≡ with_stack_top top self.old }
    {
        self.put_register(Width::Dword, Register::Esp, top);
    }
}
