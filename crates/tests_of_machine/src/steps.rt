//! Against a processor: each row is what one instruction did that was single-stepped natively on an x86-64 in 32-bit
//! mode. Flags are named by the letters O, S, Z, P and C.
ghost use Rattle.std.specs.Prelude.{◌≡◌};
ghost use Rattle.ia32_step.specs.declared.types.State.TheVariants.{Running};

use crate::flags::{defined_of, flags};
use ia32_alu::Flags;
use ia32_step::{Flow, Outcome, State, Thread, step_thread};
use image_memory::{FlatSpace, Kind, Piece, Pieces, Space, are_placed};
use ks_base::{Fault, ListOf, Range};
use std::alloc::Global;
use std::process::Abort;
use std::test::Fail;

// Where the numbers of BEFORE stand: the registers, the dword at 0x00200000, the two of the stack at 0x00400000, and
// the pc.
const EAX: usize = 0;

const ECX: usize = 1;

const EDX: usize = 2;

const EBX: usize = 3;

const ESP: usize = 4;

const EBP: usize = 5;

const ESI: usize = 6;

const EDI: usize = 7;

const DATA: usize = 8;

const LOW: usize = 9;

const HIGH: usize = 10;

const PC: usize = 11;

/// What they are before each row.
static BEFORE: [u32; 12] = [
    0x8000FF81, 0x00000103, 0x00000000, 0x00200000, 0x00400004, 0x00400000, 0xFFFFFFFE, 0x7FFFFFFF,
    0x81234567, 0x00100123, 0x00200000, 0x00100000,
];

/// What one instruction did: its bytes, the flags that were set before and after it, and what of BEFORE it changed. The
/// pc is among this where it isn't the address after the instruction.
type Row = (
    &'static [u8],
    &'static str,
    &'static str,
    &'static [(usize, u32)],
);

static ROWS: [Row; 51] = [
    (&[0x00, 0x03], "", "SP", &[(DATA, 0x812345E8)]), // add byte [ebx],al
    (&[0x13, 0xCE], "C", "C", &[(ECX, 0x102)]), // adc ecx,esi
    (&[0x2A, 0x63, 0x01], "", "S", &[(EAX, 0x8000BA81)]), // sub ah,byte [ebx+0x1]
    (&[0x66, 0x83, 0xDA, 0xFF], "C", "ZPC", &[]), // sbb dx,0xffff
    (&[0x81, 0x3B, 0x67, 0x45, 0x23, 0x81], "", "ZP", &[]), // cmp dword [ebx],0x81234567
    (&[0x47], "C", "OSPC", &[(EDI, 0x80000000)]), // inc edi
    (&[0xFE, 0x4B, 0x03], "", "S", &[(DATA, 0x80234567)]), // dec byte [ebx+0x3]
    (&[0x54], "", "", &[(ESP, 0x400000), (LOW, 0x400004)]), // push esp
    (&[0x5C], "", "", &[(ESP, 0x200000)]), // pop esp
    (&[0xFF, 0x74, 0x24, 0xFC], "", "", &[(ESP, 0x400000)]), // push dword [esp-0x4]
    (
        &[0x8F, 0x44, 0x24, 0xF8],
        "",
        "",
        &[(ESP, 0x400008), (LOW, 0x200000)],
    ), // pop dword [esp-0x8]
    (&[0x6A, 0xFE], "", "", &[(ESP, 0x400000), (LOW, 0xFFFFFFFE)]), // push 0xfffffffe
    (&[0x7C, 0x05], "S", "S", &[(PC, 0x100007)]), // jl 0x100007
    (&[0x0F, 0x8C, 0x00, 0x10, 0x00, 0x00], "OS", "OS", &[]), // jl 0x101006
    (&[0x84, 0xC8], "", "", &[]), // test al,cl
    (&[0x86, 0xC4], "", "", &[(EAX, 0x800081FF)]), // xchg ah,al
    (
        &[0x87, 0x23],
        "",
        "",
        &[(ESP, 0x81234567), (DATA, 0x400004)],
    ), // xchg dword [ebx],esp
    (&[0x8A, 0x6B, 0x02], "", "", &[(ECX, 0x2303)]), // mov ch,byte [ebx+0x2]
    (&[0x66, 0x89, 0x3B], "", "", &[(DATA, 0x8123FFFF)]), // mov word [ebx],di
    (&[0x8D, 0x44, 0xBB, 0xF8], "", "", &[(EAX, 0x1FFFF4)]), // lea eax,[ebx+edi*4-0x8]
    (&[0x96], "", "", &[(EAX, 0xFFFFFFFE), (ESI, 0x8000FF81)]), // xchg esi,eax
    (&[0x98], "", "", &[(EAX, 0xFFFFFF81)]), // cwde
    (&[0x99], "", "", &[(EDX, 0xFFFFFFFF)]), // cdq
    (&[0x66, 0x98], "", "", &[]), // cbw
    (&[0x66, 0x99], "", "", &[(EDX, 0xFFFF)]), // cwd
    (&[0xA0, 0x03, 0x00, 0x20, 0x00], "", "", &[]), // mov al,0x200003
    (
        &[0xA3, 0x00, 0x00, 0x20, 0x00],
        "",
        "",
        &[(DATA, 0x8000FF81)],
    ), // mov 0x200000,eax
    (&[0xB7, 0x5A], "", "", &[(EBX, 0x205A00)]), // mov bh,0x5a
    (&[0xD1, 0xC7], "", "O", &[(EDI, 0xFFFFFFFE)]), // rol edi,1
    (&[0x66, 0xD1, 0x2B], "", "C", &[(DATA, 0x812322B3)]), // shr word [ebx],1
    (&[0xD1, 0xCE], "", "O", &[(ESI, 0x7FFFFFFF)]), // ror esi,1
    (&[0xC1, 0x2B, 0x20], "OSZPC", "OSZPC", &[]), // shr dword [ebx],0x20
    (&[0xC3], "", "", &[(PC, 0x200000), (ESP, 0x400008)]), // ret
    (
        &[0xC2, 0x04, 0x00],
        "",
        "",
        &[(PC, 0x200000), (ESP, 0x40000C)],
    ), // ret 0x4
    (&[0xC6, 0x03, 0x07], "", "", &[(DATA, 0x81234507)]), // mov byte [ebx],0x7
    (&[0xC9], "", "", &[(EBP, 0x100123)]), // leave
    (
        &[0xE8, 0x10, 0x00, 0x00, 0x00],
        "",
        "",
        &[(PC, 0x100015), (ESP, 0x400000), (LOW, 0x100005)],
    ), // call 0x100015
    (
        &[0xFF, 0x13],
        "",
        "",
        &[(PC, 0x81234567), (ESP, 0x400000), (LOW, 0x100002)],
    ), // call dword [ebx]
    (
        &[0xFF, 0xD4],
        "",
        "",
        &[(PC, 0x400004), (ESP, 0x400000), (LOW, 0x100002)],
    ), // call esp
    (&[0xFF, 0xE1], "", "", &[(PC, 0x103)]), // jmp ecx
    (&[0xF7, 0x1B], "", "PC", &[(DATA, 0x7EDCBA99)]), // neg dword [ebx]
    (&[0xF6, 0xD1], "", "", &[(ECX, 0x1FC)]), // not cl
    (&[0x0F, 0x9C, 0x03], "S", "S", &[(DATA, 0x81234501)]), // setl byte [ebx]
    (&[0x0F, 0x4C, 0x0B], "OS", "OS", &[]), // cmovl ecx,dword [ebx]
    (&[0x0F, 0xB1, 0x0B], "", "SC", &[(EAX, 0x81234567)]), // cmpxchg dword [ebx],ecx
    (&[0x0F, 0xB1, 0xC8], "", "ZP", &[(EAX, 0x103)]), // cmpxchg eax,ecx
    (
        &[0x0F, 0xC1, 0x1B],
        "",
        "S",
        &[(EBX, 0x81234567), (DATA, 0x81434567)],
    ), // xadd dword [ebx],ebx
    (&[0x0F, 0xC1, 0xC9], "", "P", &[(ECX, 0x206)]), // xadd ecx,ecx
    (&[0x0F, 0xB6, 0x43, 0x03], "", "", &[(EAX, 0x81)]), // movzx eax,byte [ebx+0x3]
    (&[0x66, 0x0F, 0xBE, 0xD4], "", "", &[(EDX, 0xFFFF)]), // movsx dx,ah
    (&[0xF0, 0xFF, 0x03], "", "S", &[(DATA, 0x81234568)]), // lock inc dword [ebx]
];

/// After a shift by more than one place OF is undefined.
static SHIFTS: [Row; 2] = [
    (&[0xC1, 0x3B, 0x1F], "", "SP", &[(DATA, 0xFFFFFFFF)]), // sar dword [ebx],0x1f
    (&[0xD3, 0xE1], "", "P", &[(ECX, 0x818)]), // shl ecx,cl
];

/// After a product OF and CF alone are defined.
static PRODUCTS: [Row; 4] = [
    (&[0x6B, 0x13, 0xFD], "", "OC", &[(EDX, 0x7C962FCB)]), // imul edx,dword [ebx],0xfffffffd
    (&[0x66, 0x0F, 0xAF, 0xC8], "OSZPC", "OC", &[(ECX, 0x7F83)]), // imul cx,ax
    (&[0xF6, 0x23], "", "OC", &[(EAX, 0x800033E7)]), // mul byte [ebx]
    (&[0xF7, 0xEE], "", "OC", &[(EAX, 0xFFFE00FE)]), // imul esi
];

/// After a division no flag is defined.
static QUOTIENTS: [Row; 2] = [
    (
        &[0x66, 0xF7, 0xF1],
        "",
        "",
        &[(EAX, 0x800000FC), (EDX, 0x8D)],
    ), // div cx
    (&[0xF6, 0xF9], "", "", &[(EAX, 0x8000FFD6)]), // idiv cl
];

/// Bytes of an instruction, and why it stops.
static STOPS: [(&[u8], Fault); 20] = [
    (&[0xA1, 0, 0, 0x10, 0], Fault::CodeAccess),
    (&[0xA1, 0, 0, 0, 0], Fault::Unmapped),
    (&[0x0F, 0x40, 0x0D, 0, 0, 0, 0], Fault::Unmapped), // cmovo reads whether OF is set or not
    (&[0xF7, 0xF2], Fault::Divide),
    (&[0xF6, 0xF1], Fault::Divide), // 0xFF81 by 3 doesn't fit a byte
    (&[0xCC], Fault::Trap),
    (&[0xF0, 0xCC], Fault::Trap),
    (&[0xA4], Fault::Unsupported),
    (&[0xF0, 0xA4], Fault::Unsupported),
    (&[0xF2, 0x90], Fault::Unsupported),
    (&[0xF3, 0x91], Fault::Unsupported),
    (&[0x64, 0x90], Fault::Unsupported),
    (&[0x66, 0x50], Fault::Unsupported),
    (&[0x66, 0xD1, 0xC0], Fault::Unsupported), // rol ax, 1
    (&[0xF0, 0x90], Fault::BadLock),
    (&[0xF0, 0x3B, 0x03], Fault::BadLock), // cmp eax, [ebx]
    (&[0x0F, 0xFF], Fault::Undecoded),
    (&[0xC6, 0x05, 0, 0, 0x30, 0, 7], Fault::ReadOnlyWrite),
    (&[0xC1, 0x25, 0, 0, 0x30, 0, 0], Fault::ReadOnlyWrite), // shl by 0
    (&[0x0F, 0xB1, 0x0D, 0, 0, 0x30, 0], Fault::ReadOnlyWrite), // cmpxchg of what differs
];

fn push_piece(
    alloc: Global,
    pieces: &mut Pieces,
    kind: Kind,
    base: u32,
    bytes: &[u8],
) -> Result<(), Fail> {
    pieces.push(Piece {
        kind,
        base,
        bytes: ListOf::from_slice(alloc, bytes)?,
    })?;
    Ok(())
}

/// Code at 0x00100000, a dword at 0x00200000, a read-only one at 0x00300000, and a stack of two at 0x00400000.
fn memory(rt: &impl Abort, alloc: Global, code: &[u8]) -> Result<FlatSpace, Fail> {
    let mut pieces = ListOf::new(alloc);
    push_piece(alloc, &mut pieces, Kind::Code, 0x0010_0000, code)?;
    push_piece(
        alloc,
        &mut pieces,
        Kind::Writable,
        0x0020_0000,
        &BEFORE[DATA].to_le_bytes(),
    )?;
    push_piece(
        alloc,
        &mut pieces,
        Kind::ReadOnly,
        0x0030_0000,
        &[1, 2, 3, 4],
    )?;
    push_piece(
        alloc,
        &mut pieces,
        Kind::Writable,
        0x0040_0000,
        &BEFORE[LOW].to_le_bytes(),
    )?;
    push_piece(
        alloc,
        &mut pieces,
        Kind::Writable,
        0x0040_0004,
        &BEFORE[HIGH].to_le_bytes(),
    )?;
    assert!(rt; are_placed(&pieces));
    Ok(FlatSpace::new(alloc, pieces)?)
}

fn thread(flags: Flags) -> Thread
    ensures { result.state ≡ Running }
{
    let mut registers = [0; 8];
    registers.copy_from_slice(&BEFORE[..8]);
    Thread {
        number: 3,
        stack: Range {
            low: 0x0040_0000,
            high: 0x0040_0008,
        },
        registers,
        pc: 0x0010_0000,
        flags,
        state: State::Running,
    }
}

fn dword<S: Space>(space: &S, address: u32) -> u32 {
    let mut bytes = [0; 4];
    match space.read(address, &mut bytes) {
        Ok(()) => u32::from_le_bytes(bytes),
        Err(_) => 0,
    }
}

fn row_agrees(rt: &impl Abort, alloc: Global, row: &Row, defined: &str) -> Result<(), Fail> {
    let (code, before, after, changes) = *row;
    let mut space = memory(rt, alloc, code)?;
    let mut thread = thread(flags(before));
    let outcome = step_thread(&mut space, &mut thread);
    assert!(rt; matches!(outcome, Outcome::Moved(_)), "{code:?}");
    let left = defined_of(thread.flags, flags(defined));
    assert_eq!(rt; left, flags(after), "flags of {code:?}");
    let mut expected = BEFORE;
    expected[PC] = BEFORE[PC] + (code.len() % 16) as u32;
    for (place, number) in changes {
        expected[*place % 12] = *number;
    }
    assert_eq!(rt; thread.pc, expected[PC], "pc of {code:?}");
    let registers = thread.registers;
    for i in 0..8 {
        assert_eq!(rt; registers[i], expected[i], "register {i} of {code:?}");
    }
    assert_eq!(rt;
        dword(&space, 0x0020_0000),
        expected[DATA],
        "data of {code:?}"
    );
    assert_eq!(rt;
        dword(&space, 0x0040_0000),
        expected[LOW],
        "stack of {code:?}"
    );
    assert_eq!(rt;
        dword(&space, 0x0040_0004),
        expected[HIGH],
        "stack of {code:?}"
    );
    Ok(())
}

#[test]
fn instructions(rt: HostRuntime) -> Result<(), Fail> {
    for row in &ROWS {
        row_agrees(&rt, rt.alloc(), row, "OSZPC")?;
    }
    for row in &SHIFTS {
        row_agrees(&rt, rt.alloc(), row, "SZPC")?;
    }
    for row in &PRODUCTS {
        row_agrees(&rt, rt.alloc(), row, "OC")?;
    }
    for row in &QUOTIENTS {
        row_agrees(&rt, rt.alloc(), row, "")?;
    }
    Ok(())
}

#[test]
fn stops(rt: HostRuntime) -> Result<(), Fail> {
    for (code, fault) in &STOPS {
        let mut space = memory(&rt, rt.alloc(), code)?;
        let mut running = thread(flags(""));
        let outcome = step_thread(&mut space, &mut running);
        assert_eq!(rt; outcome, Outcome::Stopped(*fault), "{code:?}");
        let stopped = Thread {
            state: State::Stopped(*fault),
            ..thread(flags(""))
        };
        assert!(rt; running == stopped, "{code:?}");
    }
    Ok(())
}

#[test]
fn flows_and_ends(rt: HostRuntime) -> Result<(), Fail> {
    let mut space = memory(&rt, rt.alloc(), &[0xE8, 0, 0, 0, 0, 0xC3])?;
    let mut caller = thread(flags(""));
    let called = step_thread(&mut space, &mut caller);
    assert_eq!(rt; called, Outcome::Moved(Flow::Call));
    let mut callee = thread(flags(""));
    callee.pc = 0x0010_0005;
    let returned = step_thread(&mut space, &mut callee);
    assert_eq!(rt; returned, Outcome::Moved(Flow::Return));
    let mut last = thread(flags(""));
    last.pc = 0xFFFF_0000;
    let exited = step_thread(&mut space, &mut last);
    assert_eq!(rt; exited, Outcome::Exited(0x8000_FF81));
    assert_eq!(rt; last.state, State::Exited(0x8000_FF81));
    Ok(())
}
