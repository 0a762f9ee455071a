//! Round robin.
ghost use Rattle.std.specs.Prelude.{◌≡◌, ◌<◌, ◌≤◌, nat_lt, IsSome, IfSome, None, Some};
ghost use Rattle.std.specs.Option.{option_map};
ghost use Rattle.std.specs.List.{slice_get, find};
ghost use Rattle.std.specs.List.Sorted.{IsNonDecreasing};
ghost use Rattle.image_threads.specs.Program.{running_at};
ghost use Rattle.image_threads.specs.Turning.{next_turn, after_turn, thread_of, begun};
ghost use Rattle.image_threads.specs.Turning.{first_turn, turn_after, turn_from};

use crate::machine::Machine;
use image_memory::Space;
use std::marker::Model;

/// Whose turn it is.
#[derive(Clone, Copy)]
struct Turn {
    /// the thread's number
    thread: u32,
    /// how many steps of the turn it has had
    had: u32,
}

/// Which thread steps next: the running threads have turns in the order of their numbers, from the least on and
/// round again, each of at most so many steps, until so many steps are made in all or no thread runs.
#[derive(Drop)]
pub struct Turns {
    quantum: u32,
    left: u32,
    turn: Option<Turn>,
}

impl Model for Turns {
    ghost use Rattle.image_threads.specs.Turning.{Schedule};

    ghost Value = { Schedule };

    ghost view = { λ t. record { quantum = t.quantum; left = t.left; turn = t.turn } };
}

impl Turns {
    /// The turns of at most `quantum` steps each, and of `steps` in all.
    pub fn new(quantum: u32, steps: u32) -> Self
        requires { 1 ≤ quantum }
        ensures { result ≡ record { quantum = quantum; left = steps; turn = None } }
    {
        Turns {
            quantum,
            left: steps,
            turn: None,
        }
    }

    /// The number of the thread that steps next, which runs; its step then counts as made. `None` exactly where no step
    /// is left or no thread runs, and then nothing changes. It takes no memory.
    #[tactic(auto, using(crate::proofs::TurnLaws::turn_runs))]
    pub fn next<S: Space>(&mut self, machine: &Machine<S>) -> Option<u32>
        ensures thread { result ≡ option_map thread_of (next_turn self.old machine.now.threads) }
        ensures schedule { self.new ≡ after_turn self.old (next_turn self.old machine.now.threads) }
        ensures runs { IfSome result (λ number. IsSome (running_at machine.now.threads number)) }
    {
        // Nothing is done here: the call says that the program's threads are numbered by their places.
        let _threads = machine.threads();
        match self.next_turn(machine) {
            Some(turn) => {
                self.left -= 1;
                self.turn = Some(turn);
                Some(turn.thread)
            }
            None => None,
        }
    }

    /// The turn of the next step.
    #[tactic(auto, unfolding(crate::specs::Turning::next_turn))]
    fn next_turn<S: Space>(&self, machine: &Machine<S>) -> Option<Turn>
        ensures turn { result ≡ next_turn self.now machine.now.threads }
        ensures left { IsSome result → 0 < self.now.left }
    {
        if self.left == 0 {
            return None;
        }
        match self.turn {
            None => first_turn(machine.running()),
            Some(turn) => turn_from(machine, self.quantum, turn),
        }
    }
}

/// The turn of the next step after a turn.
fn turn_from<S: Space>(machine: &Machine<S>, quantum: u32, turn: Turn) -> Option<Turn>
    ensures { result ≡ turn_from machine.now.threads quantum (Some turn) }
{
    if machine.running_at(turn.thread).is_some() && turn.had < quantum {
        Some(Turn {
            thread: turn.thread,
            had: turn.had + 1,
        })
    } else {
        turn_after(machine.running(), turn.thread)
    }
}

/// The turn of the first running thread after a number, or of the first of all.
fn turn_after(running: &[u32], number: u32) -> Option<Turn>
    requires { IsNonDecreasing running.now }
    ensures { result ≡ turn_after running.now number }
{
    match first_above(running, number) {
        Some(thread) => Some(Turn { thread, had: 1 }),
        None => first_turn(running),
    }
}

/// The first running thread's number above a number. It is found by halving.
fn first_above(running: &[u32], number: u32) -> Option<u32>
    requires { IsNonDecreasing running.now }
    ensures { result ≡ find (nat_lt number) running.now }
{
    let at = running.partition_point(|other| *other <= number);
    running.get(at).copied()
}

/// The turn of the first running thread.
fn first_turn(running: &[u32]) -> Option<Turn>
    ensures { result ≡ first_turn running.now }
{
    let thread = *running.first()?;
    Some(Turn { thread, had: 1 })
}
