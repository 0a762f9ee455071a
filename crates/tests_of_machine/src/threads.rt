//! Threads of a small program: how they start, step, end and take turns, and what is refused.
ghost use Rattle.std.specs.Prelude.{◌≤◌, IfOk};
ghost use Rattle.image_threads.specs.Spawning.{AreStacks};

use ia32_step::{Flow, Outcome, Thread};
use image_file::{Image, read_image};
use image_memory::{FlatSpace, Kind, Piece, Pieces, Space, are_placed};
use image_threads::{Machine, Turns, are_stacks};
use ks_base::{Bytes, Line, Name, Place, Range, Refusal, Standing};
use stack_scan::{StackOut, stands};
use std::alloc::{AllocError, Global};
use std::process::Abort;
use std::test::Fail;
use symbol_table::Symbol;

/// `f` gives 1, and `main` calls it and returns. Two stacks.
const IMAGE: [u8; 121] = [
    0x4b, 0x49, 0x4d, 0x31, 1, 0, 0, 0, 2, 0, 0, 0, 2, 0, 0, 0, // magic and counts
    0, 0, 0x80, 0, 0, 0, 0x81, 0, // arena
    1, 0, 0, 0, 0, 0, 0x10, 0, 0x20, 0, 0, 0, // code at 0x00100000
    0xb8, 1, 0, 0, 0, 0xc3, // mov, ret
    0x66, 0x90, 0x66, 0x90, 0x66, 0x90, 0x66, 0x90, 0x66, 0x90, // padding
    0xe8, 0xeb, 0xff, 0xff, 0xff, 0xc3, // call, ret
    0x90, 0x90, 0x90, 0x90, 0x90, 0x90, 0x90, 0x90, 0x90, 0x90, // padding
    0, 0, 0x10, 0, 1, 0, 0, 0, 1, 0, 0, 0, 1, 0, 0, 0, b'f', // 0x00100000
    0x10, 0, 0x10, 0, 1, 0, 0, 0, 1, 0, 0, 0, 4, 0, 0, 0, b'm', b'a', b'i', b'n', // 0x00100010
    0, 0, 0x40, 0, 0, 0x10, 0x40, 0, // a stack of 4,096 bytes at 0x00400000
    0, 0x20, 0x40, 0, 0, 0x30, 0x40, 0, // another at 0x00402000
];

/// The image's regions, and a writable piece of zeros for each stack.
fn pieces_of(alloc: Global, image: &Image) -> Result<Pieces, AllocError> {
    let mut pieces = image.pieces.clone()?;
    for stack in image.stacks.as_slice() {
        let mut bytes = Vec::new(alloc);
        bytes.resize(stack.high.saturating_sub(stack.low) as usize, 0)?;
        pieces.push(Piece {
            kind: Kind::Writable,
            base: stack.low,
            bytes: Bytes::from_vec(bytes),
        })?;
    }
    Ok(pieces)
}

fn machine_of(rt: &impl Abort, alloc: Global) -> Result<Machine<FlatSpace>, Refusal>
    ensures { IfOk result (λ machine. AreStacks machine.contents.pieces machine.stacks) }
{
    let image = read_image(alloc, &IMAGE)?;
    let pieces = pieces_of(alloc, &image)?;
    assert!(rt; are_placed(&pieces));
    assert!(rt; are_stacks(&pieces, &image.stacks));
    let space = FlatSpace::new(alloc, pieces)?;
    Ok(Machine::new(alloc, image, space)?)
}

fn spawned(machine: &mut Machine<FlatSpace>, alloc: Global, name: &[u8]) -> Result<u32, Refusal>
    requires { AreStacks machine.old.contents.pieces machine.old.stacks }
    ensures { AreStacks machine.new.contents.pieces machine.new.stacks }
{
    let name = Name::from_slice(alloc, name)?;
    machine.spawn(&name, 7)
}

/// The number of the thread that is started, if one is.
fn starts(machine: &mut Machine<FlatSpace>, alloc: Global, name: &[u8]) -> Option<u32>
    requires { AreStacks machine.old.contents.pieces machine.old.stacks }
    ensures { AreStacks machine.new.contents.pieces machine.new.stacks }
{
    spawned(machine, alloc, name).ok()
}

/// Whether a thread isn't started, with this line.
fn is_refused(
    machine: &mut Machine<FlatSpace>,
    alloc: Global,
    name: &[u8],
    wanted: &str,
) -> Result<bool, AllocError>
    requires { AreStacks machine.old.contents.pieces machine.old.stacks }
    ensures { AreStacks machine.new.contents.pieces machine.new.stacks }
{
    match spawned(machine, alloc, name) {
        Ok(_) => Ok(false),
        Err(refusal) => prints(alloc, &refusal, wanted),
    }
}

fn prints(alloc: Global, refusal: &Refusal, wanted: &str) -> Result<bool, AllocError> {
    let mut line = Line::new(alloc);
    line.put_refusal(refusal)?;
    Ok(line.bytes() == wanted.as_bytes())
}

fn is_at_main(thread: &Thread) -> bool {
    let registers = thread.registers;
    thread.number == 0
        && thread.pc == 0x0010_0010
        && registers == [0, 0, 0, 0, 0x0040_0FEC, 0, 0, 0]
}

fn first_frame(machine: &Machine<FlatSpace>) -> [u8; 20] {
    let mut frame = [0xFF; 20];
    let _ = machine.space().read(0x0040_0FEC, &mut frame);
    frame
}

#[test]
fn first_thread(rt: HostRuntime) -> Result<(), Fail> {
    let alloc = rt.alloc();
    let mut machine = machine_of(&rt, alloc)?;
    assert!(rt; starts(&mut machine, alloc, b"main") == Some(0));
    assert!(rt; is_at_main(machine.threads().get(0).ok_or("no thread")?));
    assert!(rt;
        first_frame(&machine)
            == [
                0, 0, 0xFF, 0xFF, 7, 0, 0, 0, 0, 0, 0, 0, 0, 0, 0, 0, 0, 0, 0, 0
            ]
    );
    Ok(())
}

/// What the steps of thread 0 come to until none is made.
fn outcomes(alloc: Global, machine: &mut Machine<FlatSpace>) -> Result<Vec<Outcome>, AllocError> {
    let mut outcomes = Vec::new(alloc);
    for _ in 0..100 {
        let Some(outcome) = machine.step(0).ok() else {
            break;
        };
        outcomes.push(outcome)?;
    }
    Ok(outcomes)
}

#[test]
fn steps_to_the_end(rt: HostRuntime) -> Result<(), Fail> {
    let alloc = rt.alloc();
    let mut machine = machine_of(&rt, alloc)?;
    assert!(rt; starts(&mut machine, alloc, b"main") == Some(0));
    let steps = [
        Outcome::Moved(Flow::Call),
        Outcome::Moved(Flow::Plain),
        Outcome::Moved(Flow::Return),
        Outcome::Moved(Flow::Return),
        Outcome::Exited(1),
    ];
    assert!(rt; outcomes(alloc, &mut machine)?.as_slice() == steps.as_slice());
    assert!(rt; matches!(machine.step(7), Err(Refusal::NoThread(7))));
    Ok(())
}

fn step_of(machine: &mut Machine<FlatSpace>, thread: u32)
    requires { AreStacks machine.old.contents.pieces machine.old.stacks }
    ensures { AreStacks machine.new.contents.pieces machine.new.stacks }
{
    let _ = machine.step(thread).ok();
}

/// Starts `f` and steps it to its end.
fn runs_once(machine: &mut Machine<FlatSpace>, alloc: Global, number: u32) -> bool
    requires { AreStacks machine.old.contents.pieces machine.old.stacks }
    ensures { AreStacks machine.new.contents.pieces machine.new.stacks }
{
    let started = starts(machine, alloc, b"f");
    step_of(machine, number);
    step_of(machine, number);
    step_of(machine, number);
    started == Some(number)
}

/// Where a thread of the program stands in a range.
fn standing(
    machine: &Machine<FlatSpace>,
    number: usize,
    range: Range,
) -> Option<Result<Option<Standing>, StackOut>>
    requires { AreStacks machine.now.contents.pieces machine.now.stacks }
{
    let thread = machine.threads().as_slice().get(number)?;
    Some(stands(thread, machine.space(), &[range]))
}

fn stands_at(place: Place, value: u32) -> Option<Result<Option<Standing>, StackOut>> {
    Some(Ok(Some(Standing {
        thread: 0,
        place,
        value,
    })))
}

/// `main` stands in itself by its pc, and after its call by the address to return to.
#[test]
fn standing_of_a_caller(rt: HostRuntime) -> Result<(), Fail> {
    let alloc = rt.alloc();
    let mut machine = machine_of(&rt, alloc)?;
    let main = Range {
        low: 0x0010_0010,
        high: 0x0010_0016,
    };
    assert!(rt; starts(&mut machine, alloc, b"main") == Some(0));
    assert!(rt; standing(&machine, 0, main) == stands_at(Place::Pc, 0x0010_0010));
    step_of(&mut machine, 0);
    assert!(rt; standing(&machine, 0, main) == stands_at(Place::Stack(0x0040_0FE8), 0x0010_0015));
    Ok(())
}

#[test]
fn stack_of_an_ended_thread(rt: HostRuntime) -> Result<(), Fail> {
    let alloc = rt.alloc();
    let mut machine = machine_of(&rt, alloc)?;
    assert!(rt; starts(&mut machine, alloc, b"main") == Some(0));
    assert!(rt; starts(&mut machine, alloc, b"f") == Some(1));
    assert!(rt; is_refused(&mut machine, alloc, b"main", "refused 32 no stack\n")?);
    step_of(&mut machine, 1);
    step_of(&mut machine, 1);
    step_of(&mut machine, 1);
    assert!(rt; starts(&mut machine, alloc, b"main") == Some(2));
    Ok(())
}

/// An unknown name is reported before a lack of stacks.
#[test]
fn unknown_function(rt: HostRuntime) -> Result<(), Fail> {
    let alloc = rt.alloc();
    let mut machine = machine_of(&rt, alloc)?;
    assert!(rt; starts(&mut machine, alloc, b"f") == Some(0));
    assert!(rt; starts(&mut machine, alloc, b"f") == Some(1));
    assert!(rt; is_refused(&mut machine, alloc, b"nope", "refused 31 no symbol nope\n")?);
    Ok(())
}

fn runs_as_often(machine: &mut Machine<FlatSpace>, alloc: Global, count: u32) -> bool
    requires { AreStacks machine.old.contents.pieces machine.old.stacks }
    ensures { AreStacks machine.new.contents.pieces machine.new.stacks }
{
    for number in 0..count {
        if !runs_once(machine, alloc, number) {
            return false;
        }
    }
    true
}

#[test]
fn too_many_threads(rt: HostRuntime) -> Result<(), Fail> {
    let alloc = rt.alloc();
    let mut machine = machine_of(&rt, alloc)?;
    assert!(rt; runs_as_often(&mut machine, alloc, 4_096));
    assert!(rt; is_refused(&mut machine, alloc, b"f", "refused 37 too many threads\n")?);
    Ok(())
}

fn add_function(
    machine: &mut Machine<FlatSpace>,
    name: Name,
    address: u32,
) -> Result<(), AllocError>
    requires { AreStacks machine.old.contents.pieces machine.old.stacks }
    ensures { AreStacks machine.new.contents.pieces machine.new.stacks }
{
    let symbols = machine.symbols_mut();
    symbols.reserve(1)?;
    symbols.add(Symbol {
        address,
        function: true,
        global: true,
        name,
    });
    Ok(())
}

#[test]
fn added_symbols(rt: HostRuntime) -> Result<(), Fail> {
    let alloc = rt.alloc();
    let mut machine = machine_of(&rt, alloc)?;
    add_function(&mut machine, Name::from_slice(alloc, b"g")?, 0x0010_0010)?;
    assert!(rt; starts(&mut machine, alloc, b"g") == Some(0));
    assert!(rt; is_at_main(machine.threads().get(0).ok_or("no thread")?));
    add_function(&mut machine, Name::from_slice(alloc, b"f")?, 0x0010_0010)?;
    let two = "refused 19 two names f 0x00100000 0x00100010\n";
    assert!(rt; is_refused(&mut machine, alloc, b"f", two)?);
    Ok(())
}

/// Bytes of the stack's top, written into the memory and read again.
fn written(machine: &mut Machine<FlatSpace>, bytes: &[u8; 20]) -> [u8; 20] {
    let _ = machine.space_mut().write(0x0040_0FEC, bytes);
    first_frame(machine)
}

#[test]
fn changed_memory(rt: HostRuntime) -> Result<(), Fail> {
    let mut machine = machine_of(&rt, rt.alloc())?;
    let bytes = [9; 20];
    assert!(rt; written(&mut machine, &bytes) == bytes);
    Ok(())
}

/// The numbers of two threads in the order in which they step.
fn order(rt: &impl Abort, alloc: Global, quantum: u32, steps: u32) -> Result<Vec<u32>, Refusal>
    requires { 1 ≤ quantum }
{
    let mut machine = machine_of(rt, alloc)?;
    spawned(&mut machine, alloc, b"main")?;
    spawned(&mut machine, alloc, b"main")?;
    Ok(in_turn(alloc, &mut machine, Turns::new(quantum, steps))?)
}

fn in_turn(
    alloc: Global,
    machine: &mut Machine<FlatSpace>,
    mut turns: Turns,
) -> Result<Vec<u32>, AllocError> {
    let mut order = Vec::new(alloc);
    for _ in 0..100 {
        let Some(thread) = turns.next(machine) else {
            break;
        };
        order.push(thread)?;
        if machine.step(thread).ok().is_none() {
            break;
        }
    }
    Ok(order)
}

#[test]
fn round_robin(rt: HostRuntime) -> Result<(), Fail> {
    let alloc = rt.alloc();
    assert!(rt; order(&rt, alloc, 1, 50)?.as_slice() == [0, 1, 0, 1, 0, 1, 0, 1, 0, 1].as_slice());
    assert!(rt; order(&rt, alloc, 2, 50)?.as_slice() == [0, 0, 1, 1, 0, 0, 1, 1, 0, 1].as_slice());
    assert!(rt; order(&rt, alloc, 3, 4)?.as_slice() == [0, 0, 0, 1].as_slice());
    assert!(rt; order(&rt, alloc, 1, 0)?.is_empty());
    Ok(())
}
