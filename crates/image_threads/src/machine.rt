//! A program that runs: its memory, its symbols, its stacks and its threads.
ghost use Rattle.std.specs.Prelude.{◌≡◌, ◌≢◌, ◌<◌, ◌≤◌, ◌+◌, ◌-◌, ◌++◌, [], ◌∷◌, length, map, IfOk, OnOk, OnErr};
ghost use Rattle.std.specs.Prelude.{IfSome, IsSomeAnd, IsTrue, Contains, MatchResult, Ok, Err, None, false};
ghost use Rattle.std.specs.Borrow.{Lends, sem};
ghost use Rattle.std.specs.List.Sorted.{IsNonDecreasing};
ghost use Rattle.ks_base.specs.declared.refusals.Refusal.TheVariants.{Memory};
ghost use Rattle.ia32_step.specs.declared.types.State.TheVariants.{Running};
ghost use Rattle.ia32_step.specs.Step.{left_by, stepped, stored, store_fault, after_store, fetched_count};
ghost use Rattle.image_memory.specs.Access.{after_write};
ghost use Rattle.image_memory.specs.Contents.{shape_of};
ghost use Rattle.image_threads.specs.Program.{AreNumbered, WellPlaced, running_at, running_numbers};
ghost use Rattle.image_threads.specs.Spawning.{is_stack, AreStacks, is_taken, free_stack};
ghost use Rattle.image_threads.specs.Spawning.{first_bytes, first_thread, spawned};
ghost use Rattle.image_threads.specs.Stepping.{moved, sent};

use crate::first::first_bytes;
use crate::stacks::fill_stack;
use crate::thread_list::ThreadList;
use ia32_step::{Flow, Outcome, Thread, Threads, Traced, steps_write_one_number};
use image_file::Image;
use image_memory::Space;
use ks_base::{Name, Range, Ranges, Refusal};
use std::alloc::{AllocError, Global};
use std::marker::Model;
use symbol_table::SymbolTable;

/// A program that runs, over a memory. Its threads are numbered from 0 in the order in which they were started.
#[derive(Drop)]
pub struct Machine<S: Space> {
    space: S,
    symbols: SymbolTable,
    stacks: Ranges,
    threads: ThreadList,
}

impl<S: Space> Model for Machine<S> {
    ghost use Rattle.image_threads.specs.Program.{Program, WellPlaced};

    ghost Value = { Program };

    ghost view = { λ m. record {
      contents = S.contents m.space;
      room = S.room m.space;
      table = m.symbols;
      stacks = m.stacks;
      threads = m.threads;
    } };

    ghost invariant = { λ m. WellPlaced m.stacks m.threads };
}

impl<S: Space> Machine<S> {
    ghost use Rattle.image_threads.specs.contracts.machine.Machine.{the_row};
    ghost use Rattle.symbol_table.specs.contracts.table.SymbolTable.{the_row as symbols_row};

    /// The program of an image over a memory, with no thread. `Err` comes only if memory runs out.
    ///
    /// The memory is to hold the image's regions and its stacks, these as writable pieces of zeros.
    pub fn new(alloc: Global, image: Image, space: S) -> Result<Self, AllocError>
    where
        S: Drop,
        ensures { IfOk result (λ m. m ≡ record {
          contents = S.contents space;
          room = S.room space;
          table = image.symbols;
          stacks = image.stacks;
          threads = [];
        }) }
    {
        Ok(Machine {
            space,
            symbols: image.symbols,
            stacks: image.stacks,
            threads: ThreadList::new(alloc),
        })
    }

    /// The threads in the order of their numbers: no more than 4,096, numbered from 0. Each has one of the stacks,
    /// which ascend and don't meet, and no two running threads have the same.
    pub fn threads(&self) -> &Threads
        ensures threads { result.now ≡ self.now.threads }
        ensures numbered { AreNumbered 0 self.now.threads }
        ensures few { length self.now.threads ≤ 4096 }
        ensures placed { WellPlaced self.now.stacks self.now.threads }
    {
        self.threads.all()
    }

    /// The memory.
    pub fn space(&self) -> &S
        ensures contents { S.contents result.now ≡ self.now.contents }
        ensures room { S.room result.now ≡ self.now.room }
    {
        &self.space
    }

    /// The memory, to be changed. All else stays.
    pub fn space_mut(&mut self) -> &mut S
        ensures* changed { sem 𝓛 (Lends (the_row S.row S.Space) S.row self.entry result
            (λ w. record self.old { contents = S.contents w; room = S.room w })) }
        ensures contents { S.contents result.now ≡ self.old.contents }
        ensures room { S.room result.now ≡ self.old.room }
    {
        &mut self.space
    }

    /// The symbols.
    pub fn symbols(&self) -> &SymbolTable
        ensures { result.now ≡ self.now.table }
    {
        &self.symbols
    }

    /// The symbols, to be changed. All else stays.
    pub fn symbols_mut(&mut self) -> &mut SymbolTable
        ensures* changed { sem 𝓛
            (Lends (the_row S.row S.Space) symbols_row self.entry result (λ w. record self.old { table = w })) }
        ensures table { result.now ≡ self.old.table }
    {
        &mut self.symbols
    }

    /// The numbers of the running threads, ascending.
    pub(crate) fn running(&self) -> &[u32]
        ensures numbers { result.now ≡ running_numbers self.now.threads }
        ensures ascend { IsNonDecreasing result.now }
    {
        self.threads.running()
    }

    /// The running thread of a number.
    pub(crate) fn running_at(&self, number: u32) -> Option<Thread>
        ensures { result ≡ running_at self.now.threads number }
    {
        self.threads.running_at(number)
    }

    /// The first stack that no running thread has.
    fn free_stack(&self) -> Option<Range>
        ensures first { result ≡ free_stack self.now.stacks self.now.threads }
        ensures free { IfSome result (λ stack. is_taken self.now.threads stack ≡ false) }
        ensures listed { IfSome result (Contains self.now.stacks) }
        ensures tall { IfSome result (λ stack. stack.low + 32 ≤ stack.high) }
    {
        free_among(self.stacks.as_slice(), &self.threads)
    }

    /// Starts a thread at an address on a stack, and answers its number. If memory runs out all is as before.
    fn start(&mut self, pc: u32, stack: Range, argument: u32) -> Result<u32, AllocError>
        requires few { length self.old.threads < 4096 }
        requires tall { stack.low + 32 ≤ stack.high }
        requires writable { IsTrue (is_stack self.old.contents.pieces stack) }
        requires listed { Contains self.old.stacks stack }
        requires free { is_taken self.old.threads stack ≡ false }
        ensures started { OnOk result (self.new ≡ record self.old {
          contents = after_write self.old.contents stack.low (first_bytes stack argument);
          threads = self.old.threads ++ first_thread (length self.old.threads) stack pc ∷ [];
        }) }
        ensures number { IfOk result (λ number. number ≡ length self.old.threads) }
        ensures refused { OnErr result (self.new ≡ self.old) }
    {
        let bytes = first_bytes(self.threads.alloc(), stack, argument)?;
        let number = self.threads.push(stack, pc)?;
        fill_stack(&mut self.space, stack, bytes.as_slice());
        Ok(number)
    }

    /// Starts a thread at the function of a name, and answers its number. It has the first stack that no running thread
    /// has, filled with zeros; ESP is 20 below the stack's end, where the address 0xFFFF0000 and then the argument
    /// stand; all other registers and the flags are clear. [`Refusal::NoSymbol`] comes exactly where no function symbol
    /// has the name, then [`Refusal::TwoNames`] where several addresses have, [`Refusal::TooManyThreads`] where 4,096
    /// threads were started, [`Refusal::NoStack`] where each stack has a running thread, and [`Refusal::Memory`] only
    /// if memory runs out; all is then as before.
    #[tactic(auto, unfolding(crate::specs::Spawning::spawned, crate::specs::Spawning::started))]
    pub fn spawn(&mut self, name: &Name, argument: u32) -> Result<u32, Refusal>
        requires { AreStacks self.old.contents.pieces self.old.stacks }
        ensures started { MatchResult result
            (λ number. spawned self.old name.now argument ≡ Ok self.new)
            (λ refusal. refusal ≢ Memory → spawned self.old name.now argument ≡ Err refusal) }
        ensures number { IfOk result (λ number. number ≡ length self.old.threads) }
        ensures refused { OnErr result (self.new ≡ self.old) }
        ensures stacks { AreStacks self.new.contents.pieces self.new.stacks }
    {
        let pc = self.symbols.function_named(name)?;
        if self.threads.is_full() {
            return Err(Refusal::TooManyThreads);
        }
        match self.free_stack() {
            Some(stack) => Ok(self.start(pc, stack, argument)?),
            None => Err(Refusal::NoStack),
        }
    }

    /// Steps the running thread of a number, and answers what the step came to. [`Refusal::NoThread`] comes exactly
    /// where no running thread has the number, and all is then as before. It takes no memory.
    pub fn step(&mut self, thread: u32) -> Result<Outcome, Refusal>
        ensures moved { MatchResult result
            (λ outcome. moved self.old thread ≡ Ok (self.new, outcome))
            (λ refusal. moved self.old thread ≡ Err refusal) }
        ensures refused { OnErr result (self.new ≡ self.old) }
        ensures stacks { AreStacks self.old.contents.pieces self.old.stacks
            → AreStacks self.new.contents.pieces self.new.stacks }
    {
        Ok(self.step_traced(thread)?.outcome)
    }

    /// Steps the running thread of a number, as [`Machine::step`] does, and answers what it wrote and how many bytes it
    /// fetched beside what it came to.
    #[tactic(auto, unfolding(crate::specs::Stepping::moved))]
    pub fn step_traced(&mut self, thread: u32) -> Result<Traced, Refusal>
        ensures moved { MatchResult result
            (λ traced. moved self.old thread ≡ Ok (self.new, traced.outcome))
            (λ refusal. moved self.old thread ≡ Err refusal) }
        ensures written { IfOk result (λ traced. self.new.contents ≡ after_store self.old.contents traced.store) }
        ensures clear { IfOk result (λ traced. store_fault self.old.contents traced.store ≡ None) }
        ensures store { IfOk result (λ traced. IsSomeAnd (running_at self.old.threads thread)
            (λ running. traced.store ≡ stored self.old.contents running)) }
        ensures fetched { IfOk result (λ traced. IsSomeAnd (running_at self.old.threads thread)
            (λ running. traced.fetched ≡ fetched_count self.old.contents running)) }
        ensures refused { OnErr result (self.new ≡ self.old) }
        ensures stacks { AreStacks self.old.contents.pieces self.old.stacks
            → AreStacks self.new.contents.pieces self.new.stacks }
    {
        steps_write_one_number(); // does nothing: the law says that a step writes what it tells
        match self.threads.step(thread, &mut self.space) {
            Some(traced) => Ok(traced),
            None => Err(Refusal::NoThread(thread)),
        }
    }

    /// Sends the running thread of a number to an address, as a jump there does, and answers that it moved.
    /// [`Refusal::NoThread`] comes exactly where no running thread has the number, and all is then as before. Nothing
    /// changes but where the thread stands. It takes no memory.
    #[tactic(auto, unfolding(crate::specs::Stepping::sent))]
    pub fn jump_thread(&mut self, thread: u32, pc: u32) -> Result<Outcome, Refusal>
        ensures sent { MatchResult result
            (λ outcome. sent self.old thread pc ≡ Ok (self.new, outcome))
            (λ refusal. sent self.old thread pc ≡ Err refusal) }
        ensures refused { OnErr result (self.new ≡ self.old) }
        ensures stacks { AreStacks self.old.contents.pieces self.old.stacks
            → AreStacks self.new.contents.pieces self.new.stacks }
    {
        let Some(running) = self.threads.running_at(thread) else {
            return Err(Refusal::NoThread(thread));
        };
        self.threads.send(running, pc);
        Ok(Outcome::Moved(Flow::Plain))
    }
}

/// The first of some stacks that no running thread has.
fn free_among(stacks: &[Range], threads: &ThreadList) -> Option<Range>
    ensures { result ≡ free_stack stacks.now threads.now }
{
    stacks.iter().copied().find(|stack| !threads.has(*stack))
}
