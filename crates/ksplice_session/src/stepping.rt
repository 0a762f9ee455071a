//! Many steps of one thread, and of the threads in turn.
ghost use Rattle.std.specs.Prelude.{◌≡◌, ◌≤◌, ◌<◌, ◌^◌, length, slice_index, is_some, None};
ghost use Rattle.image_threads.specs.Program.{running_at};
ghost use Rattle.update_stack.specs.Events.{Step};
ghost use Rattle.ksplice_session.specs.Running.{thread_steps, round_robin};
ghost use Rattle.ksplice_session.specs.Watching.{watched_after, watched_after_all};

use crate::session::{Session, program};
use ia32_step::{ESP, calls_and_returns};
use image_threads::Turns;
use splice_jump::{
    homes_are_not_looked_at, homes_stay_spliced, jumps_change_their_bytes_alone, jumps_leave_views,
};
use update_safety::{fetched_bytes_have_windows, threads_keep_windows};
use update_stack::steps_stand;

impl Session {
    /// A step of the running thread of a number, and whether there is one. It takes no memory.
    fn step(&mut self, thread: u32) -> bool
        ensures runs { result ≡ is_some (running_at self.old.machine.threads thread) }
        ensures after { self.new ≡ watched_after self.old (Step thread) }
    {
        let Some(before) = self.thread(thread) else {
            return false;
        };
        // The laws say what a step does, which windows stay, and that jumps, whole or not, don't matter for what is seen
        // of a machine.
        steps_stand();
        calls_and_returns();
        jumps_leave_views();
        jumps_change_their_bytes_alone();
        homes_are_not_looked_at();
        homes_stay_spliced();
        threads_keep_windows();
        fetched_bytes_have_windows();
        registers_fit(&before.registers);
        let _threads = program(&self.live).threads();
        let Ok(traced) = self.live.step_traced(thread) else {
            return false;
        };
        let machine = program(&self.live);
        let Some(after) = machine.threads().get(thread as usize) else {
            unreachable!()
        };
        self.watch
            .note_traced(&before, after, &traced, machine.space());
        true
    }

    /// At most so many steps of a thread, and how many were made: fewer where it ends. It takes no memory.
    pub(crate) fn run_thread(&mut self, thread: u32, count: u32) -> u32
        ensures made { result ≡ length (thread_steps self.old.machine thread count) }
        ensures after { self.new ≡ watched_after_all self.old (thread_steps self.old.machine thread count) }
    {
        for made in 0..count {
            if !self.step(thread) {
                return made;
            }
        }
        count
    }

    /// At most so many steps of the threads in turn, and how many were made: fewer where all end. It takes no memory.
    pub(crate) fn run_turns(&mut self, quantum: u32, count: u32) -> u32
        requires { 1 ≤ quantum }
        ensures made { result ≡ length (round_robin self.old.machine quantum count) }
        ensures after { self.new ≡ watched_after_all self.old (round_robin self.old.machine quantum count) }
    {
        // Where a turn is one step, the thread of each turn is the one after that of the turn before.
        let mut order = Turns::new(1, count);
        let mut made = 0;
        for taken in 0..count {
            let Some(thread) = order.next(program(&self.live)) else {
                return made;
            };
            made += self.run_thread(thread, quantum.min(count - made));
            if made == count {
                return made;
            }
        }
        made
    }
}

/// The registers of a thread are eight numbers of 32 bits.
fn registers_fit(registers: &[u32; 8])
    ensures count { length registers.now ≡ 8 }
    ensures esp { slice_index registers.now 4 < 2 ^ 32 }
{
    let _esp = registers[ESP];
}
