//! What is decoded, how long it is, where its fields stand, and what is padding.
use ia32_alu::Width;
use ia32_decode::{Action, Decoded, Field, Instr, Operand, Register, Source, decode, is_padding};

/// Windows, and how long the instruction at the start of each is and whether it is padding: padding, one that isn't,
/// one that another follows, and no instruction.
static WINDOWS: [(&[u8], Option<(u32, bool)>); 4] = [
    (&[0x0F, 0x1F, 0x44, 0, 0], Some((5, true))),
    (&[0x66, 0xB8, 1, 0], Some((4, false))),
    (&[0xF6, 0x04, 0x24, 1, 0xC3], Some((4, false))),
    (&[0x0F, 0xFF], None),
];

/// How long the instruction is, and whether it is padding.
fn told(window: &[u8]) -> Option<(u32, bool)> {
    match decode(window) {
        Some(decoded) => Some((decoded.length, is_padding(&decoded))),
        None => None,
    }
}

/// Where the displacement and the immediate stand, as offset and width.
fn fields_of(window: &[u8]) -> Option<(Option<Field>, Option<Field>)> {
    match decode(window) {
        Some(decoded) => Some((decoded.fields.disp, decoded.fields.imm)),
        None => None,
    }
}

fn field(offset: u32, width: u32) -> Option<Field> {
    Some(Field { offset, width })
}

/// The displacement of a MOV from memory.
fn moved_from(decoded: Option<Decoded>) -> u32 {
    match decoded {
        Some(
            Decoded {
                instr: Instr {
                    action: Action::Move(Source::Operand),
                    operand: Operand::Memory(memory),
                    ..
                },
                ..
            },
        ) => memory.displacement,
        _ => 0,
    }
}

/// The width and the register of a PUSH of one.
fn pushed(decoded: Option<Decoded>) -> Option<(Width, Register)> {
    match decoded {
        Some(
            Decoded {
                instr: Instr {
                    action: Action::Push(Source::Operand),
                    width,
                    operand: Operand::Register(register),
                    ..
                },
                ..
            },
        ) => Some((width, register)),
        _ => None,
    }
}

#[test]
fn lengths_and_padding(rt: HostRuntime) {
    for (window, wanted) in &WINDOWS {
        assert!(rt; told(window) == *wanted, "{window:?}");
    }
}

#[test]
fn fields(rt: HostRuntime) {
    let moved = fields_of(&[0xC7, 5, 0, 0, 0x20, 0, 1, 0, 0, 0]);
    assert_eq!(rt; moved, Some((field(2, 4), field(6, 4))));
    let small = fields_of(&[0x66, 0xB8, 1, 0]);
    assert_eq!(rt; small, Some((None, field(2, 2))));
    let jump = fields_of(&[0xFF, 0x24, 0x85, 0, 0, 0x18, 0]);
    assert_eq!(rt; jump, Some((field(3, 4), None)));
    let load = fields_of(&[0xA1, 0, 0, 0x18, 0]);
    assert_eq!(rt; load, Some((field(1, 4), None)));
}

#[test]
fn operands(rt: HostRuntime) {
    assert_eq!(rt; moved_from(decode(&[0x8B, 0x45, 0xFC])), 0xFFFF_FFFC);
    assert_eq!(rt; moved_from(decode(&[0x8B, 0x85, 4, 3, 2, 1])), 0x0102_0304);
    assert!(rt; pushed(decode(&[0x55])) == Some((Width::Dword, Register::Ebp)));
    assert!(rt; pushed(decode(&[0x66, 0x57])) == Some((Width::Word, Register::Edi)));
}
