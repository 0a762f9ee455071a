//! Threads of the running program, and what becomes of one at a step.
use ia32_alu::{Flags, Width};
use ia32_decode::Register;
use ks_base::{Fault, ListOf, Range};

/// Whether a thread runs.
#[derive(Clone, Copy, PartialEq, Eq, Debug)]
pub enum State {
    /// It goes on at its pc.
    Running,
    /// It ended at the address to which its function returns, with this value in EAX.
    Exited(u32),
    /// No instruction stands at its pc, or it can't be carried out.
    Stopped(Fault),
}

/// The address to which the function that a thread is started at returns. A thread that comes to it ends.
pub const RETURN_ADDRESS: u32 = 0xFFFF_0000;

/// The number of ESP among a thread's registers.
pub const ESP: usize = 4;

/// A thread: its registers and where its stack is.
#[derive(Clone, Copy, PartialEq, Eq)]
pub struct Thread {
    /// Its number, counted from 0 in the order in which threads were made.
    pub number: u32,
    /// The addresses of its stack.
    pub stack: Range,
    /// The general registers by number: EAX, ECX, EDX, EBX, ESP, EBP, ESI and EDI.
    pub registers: [u32; 8],
    /// The address of its next instruction.
    pub pc: u32,
    /// The status flags.
    pub flags: Flags,
    /// Whether it runs.
    pub state: State,
}

/// Threads in the order of their numbers.
pub type Threads = ListOf<Thread>;

/// What the processor holds of a thread.
#[derive(Clone, Copy)]
pub(crate) struct Context {
    /// The general registers by number.
    pub registers: [u32; 8],
    /// The address of the next instruction.
    pub pc: u32,
    /// The status flags.
    pub flags: Flags,
}

/// How a step went on.
#[derive(Clone, Copy, PartialEq, Eq, Debug)]
pub enum Flow {
    /// By any instruction but a call and a return.
    Plain,
    /// By a call, which pushed the address to return to.
    Call,
    /// By a return, which popped the address it went to.
    Return,
}

/// What a step came to.
#[derive(Clone, Copy, PartialEq, Eq, Debug)]
pub enum Outcome {
    /// The instruction was carried out.
    Moved(Flow),
    /// The thread has ended, with this value in EAX.
    Exited(u32),
    /// The thread has stopped; nothing but its state has changed.
    Stopped(Fault),
}

/// What a step came to, what it wrote, and how much it fetched.
#[derive(Clone, Copy)]
pub struct Traced {
    /// What the step came to.
    pub outcome: Outcome,
    /// All that it wrote to memory; nothing where the thread ended or stopped.
    pub store: Option<Store>,
    /// How many bytes were fetched at the thread's pc, at most 15; none where it ended, or where nothing can be
    /// fetched.
    pub fetched: u32,
}

/// A call that is open: where the address to which it returns stands, and which it is.
#[derive(Clone, Copy, PartialEq, Eq, Debug)]
pub struct Frame {
    /// The address of the lowest of the four bytes of the stack that hold the return address.
    pub slot: u32,
    /// The return address.
    pub address: u32,
}

/// Where an operand stands.
#[derive(Clone, Copy)]
pub(crate) enum Place {
    /// In a register.
    InRegister(Register),
    /// In memory, at an address.
    InMemory(u32),
}

/// A number that is written to memory.
#[derive(Clone, Copy)]
pub struct Store {
    /// The address of its lowest byte.
    pub address: u32,
    /// How wide it is.
    pub width: Width,
    /// The number; only so many of its lowest bits count.
    pub value: u32,
}

/// What an instruction does where no fault stops it.
#[derive(Clone, Copy)]
pub(crate) struct Change {
    /// What the processor holds after it.
    pub context: Context,
    /// How it goes on.
    pub flow: Flow,
    /// What is written to memory, if anything is.
    pub store: Option<Store>,
}
