//! One step of a thread.
ghost use Rattle.std.specs.Prelude.{◌≡◌, ◌≤◌, Some, Ok, OnOk, OnErr};
ghost use Rattle.ia32_step.specs.Registers.{accumulator};
ghost use Rattle.ia32_step.specs.Step.{left_by, context_of, resumed, stopped, exited, store_fault, after_store};
ghost use Rattle.ia32_step.specs.Step.{unless_barred, change_by, change_in, stepped, store_unless, stored, done};
ghost use Rattle.ia32_step.specs.Step.{fetched_count, store_of};
ghost use Rattle.ia32_alu.specs.declared.types.Width.TheVariants.{Dword};
ghost use Rattle.ia32_step.specs.declared.types.State.TheVariants.{Running};
ghost use Rattle.ia32_step.specs.declared.types.Outcome.TheVariants.{Stopped, Exited};
ghost use Rattle.ia32_step.specs.inside.Comes.{Comes, fault_of};

use crate::exec::execute;
use crate::types::{Change, Context, Flow, Outcome, RETURN_ADDRESS, State, Store, Thread, Traced};
use ia32_alu::Width;
use ia32_decode::{Decoded, decode};
use image_memory::{Space, Window};
use ks_base::Fault;

impl Thread {
    /// What the processor holds of the thread.
    fn context(&self) -> Context
        ensures { result ≡ context_of self.now }
    {
        Context {
            registers: self.registers,
            pc: self.pc,
            flags: self.flags,
        }
    }

    /// The thread takes what an instruction leaves in the processor.
    fn resume(&mut self, context: &Context)
        ensures { self.new ≡ resumed self.old context.now }
    {
        self.registers = context.registers;
        self.pc = context.pc;
        self.flags = context.flags;
    }
}

/// Writes what an instruction leaves for memory, if anything.
fn write_store<S: Space>(space: &mut S, store: &Store) -> Result<(), Fault>
    ensures ok { OnOk result (S.contents space.new ≡ after_store (S.contents space.old) (Some store.now)) }
    ensures err { OnErr result (S.contents space.new ≡ S.contents space.old) }
    ensures cause { store_fault (S.contents space.old) (Some store.now) ≡ fault_of result }
    ensures room { S.room space.new ≡ S.room space.old }
{
    match store.width {
        Width::Byte => space.write(store.address, &[(store.value % 0x100) as u8]),
        Width::Word => {
            let number = (store.value % 0x1_0000) as u16;
            space.write(store.address, &number.to_le_bytes())
        }
        Width::Dword => space.write(store.address, &store.value.to_le_bytes()),
    }
}

/// Stops a thread.
fn stop(thread: &mut Thread, fault: Fault) -> Outcome
    ensures state { thread.new ≡ stopped fault thread.old }
    ensures outcome { result ≡ Stopped fault }
{
    thread.state = State::Stopped(fault);
    Outcome::Stopped(fault)
}

/// Ends a thread at the address to which its function returns.
fn exit(thread: &mut Thread) -> Outcome
    ensures state { thread.new ≡ exited thread.old }
    ensures outcome { result ≡ Exited (accumulator (context_of thread.old) Dword) }
{
    let value = thread.context().accumulator(Width::Dword);
    thread.state = State::Exited(value);
    Outcome::Exited(value)
}

/// A step that writes nothing.
fn unwritten(outcome: Outcome, fetched: u32) -> Traced
    ensures { result ≡ record { outcome = outcome; store = None; fetched = fetched } }
{
    Traced {
        outcome,
        store: None,
        fetched,
    }
}

/// Does what an instruction does, or stops the thread where its number can't be written.
fn carry_out<S: Space>(space: &mut S, thread: &mut Thread, change: &Change, fetched: u32) -> Traced
    ensures left { left_by (S.contents space.new) thread.new result.outcome
        ≡ unless_barred (store_fault (S.contents space.old) change.now.store) (S.contents space.old) thread.old
        change.now }
    ensures store { result.store
        ≡ store_unless (store_fault (S.contents space.old) change.now.store) change.now.store }
    ensures fetched { result.fetched ≡ fetched }
    ensures room { S.room space.new ≡ S.room space.old }
{
    if let Some(store) = &change.store {
        if let Err(fault) = write_store(space, store) {
            return unwritten(stop(thread, fault), fetched);
        }
    }
    thread.resume(&change.context);
    Traced {
        outcome: Outcome::Moved(change.flow),
        store: change.store,
        fetched,
    }
}

/// What a decoded instruction does, if there is one.
fn do_decoded<S: Space>(
    space: &S,
    change: &mut Change,
    decoded: &Option<Decoded>,
) -> Result<(), Fault>
    ensures { Comes result change.new (change_by (S.contents space.now).pieces change.old.context decoded.now) }
{
    match decoded {
        None => Err(Fault::Undecoded),
        Some(decoded) => execute(space, change, decoded),
    }
}

/// Carries out the instruction that a window spells, which was fetched at a thread's pc.
fn carry_out_window<S: Space>(space: &mut S, thread: &mut Thread, window: &Window) -> Traced
    requires short { window.now.length ≤ 15 }
    ensures left { left_by (S.contents space.new) thread.new result.outcome
        ≡ done (S.contents space.old) thread.old
        (change_in (S.contents space.old).pieces (context_of thread.old) (Ok window.now)) }
    ensures store { result.store ≡ store_of (S.contents space.old)
        (change_in (S.contents space.old).pieces (context_of thread.old) (Ok window.now)) }
    ensures fetched { result.fetched ≡ window.now.length }
    ensures room { S.room space.new ≡ S.room space.old }
{
    let mut change = Change {
        context: thread.context(),
        flow: Flow::Plain,
        store: None,
    };
    let decoded = decode(&window.bytes[..window.length as usize]);
    match do_decoded(space, &mut change, &decoded) {
        Ok(()) => carry_out(space, thread, &change, window.length),
        Err(fault) => unwritten(stop(thread, fault), window.length),
    }
}

/// Carries out the next instruction of a running thread: the one that is fetched at its pc, decoded and executed.
/// At 0xFFFF0000 nothing is fetched, and the thread ends with EAX. Where the instruction can't be carried out the
/// thread stops, and nothing but its state changes: by a fault of the fetch, [`Fault::Undecoded`],
/// [`Fault::Unsupported`], [`Fault::Trap`], [`Fault::BadLock`], the fault of the first byte that can't be read,
/// [`Fault::Divide`], or that of the first byte that can't be written, the first of these that holds. No byte of
/// code is read or written as data.
pub fn step_thread<S: Space>(space: &mut S, thread: &mut Thread) -> Outcome
    requires running { thread.old.state ≡ Running }
    ensures left { left_by (S.contents space.new) thread.new result ≡ stepped (S.contents space.old) thread.old }
    ensures room { S.room space.new ≡ S.room space.old }
{
    step_traced(space, thread).outcome
}

/// Carries out the next instruction of a running thread, as [`step_thread`] does, and answers what it wrote and how
/// many bytes it fetched beside what it came to.
#[tactic(auto, unfolding(crate::specs::Step::stepped, crate::specs::Step::stored, crate::specs::Step::next_change, crate::specs::Step::fetched_count))]
pub fn step_traced<S: Space>(space: &mut S, thread: &mut Thread) -> Traced
    requires running { thread.old.state ≡ Running }
    ensures left { left_by (S.contents space.new) thread.new result.outcome ≡ stepped
        (S.contents space.old) thread.old }
    ensures store { result.store ≡ stored (S.contents space.old) thread.old }
    ensures fetched { result.fetched ≡ fetched_count (S.contents space.old) thread.old }
    ensures room { S.room space.new ≡ S.room space.old }
{
    if thread.pc == RETURN_ADDRESS {
        return unwritten(exit(thread), 0);
    }
    match space.window(thread.pc) {
        Ok(window) => carry_out_window(space, thread, &window),
        Err(fault) => unwritten(stop(thread, fault), 0),
    }
}
