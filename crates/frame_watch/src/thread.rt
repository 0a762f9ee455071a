//! One running thread with its open frames.
ghost use Rattle.std.specs.Prelude.{◌≡◌, ◌≤◌, ◌<◌, ◌+◌, ◌-◌, ◌/◌, ◌++◌, ◌∷◌, [], length, slice_get, true, IfOk, None};
ghost use Rattle.std.specs.List.{All, AllWithin, last_or};
ghost use Rattle.image_memory.specs.Access.{first_fault, read_fault};
ghost use Rattle.image_memory.specs.Ranges.{lies_in};
ghost use Rattle.ia32_step.specs.Threads.{esp_of};
ghost use Rattle.ia32_step.specs.Frames as frames;
ghost use Rattle.frame_watch.specs.Frames.{started, closed, keeps_slots};
ghost use Rattle.frame_watch.specs.inside.Kept.{is_in_place, is_based, keeps_address};
ghost use Rattle.frame_watch.specs.inside.Events.{flow_frames};
ghost use Rattle.ia32_step.specs.declared.types.Flow.TheVariants.{Call};

use crate::memory::{dword_at, esp_of, holds_address, is_slot};
use ia32_step::{Flow, Frame, RETURN_ADDRESS, Thread};
use image_memory::Space;
use ks_base::Range;
use std::alloc::{AllocError, Global};
use std::marker::Model;

/// A running thread: its number, its stack, where its ESP points, and its open frames, the newest last. There is room
/// for all frames that the stack can hold, and one more, since a frame is tested after it is opened.
#[derive(Drop)]
pub(crate) struct ThreadFrames {
    thread: u32,
    stack: Range,
    esp: u32,
    frames: Vec<Frame>,
}

impl Model for ThreadFrames {
    ghost use Rattle.std.specs.Prelude.{◌<◌, ◌-◌, ◌/◌, vec_capacity};
    ghost use Rattle.frame_watch.specs.Frames.{Watched};
    ghost use Rattle.frame_watch.specs.inside.Kept.{Falls};

    ghost Value = { Watched };

    ghost view = { λ t. record { thread = t.thread; stack = t.stack; esp = t.esp; frames = t.frames.items } };

    ghost invariant = { λ t. ((t.stack.high - t.stack.low) / 4 < vec_capacity t.frames) × Falls t.frames.items };
}

impl ThreadFrames {
    /// A thread that is started: the address to which it returns at last stands where its ESP points.
    pub(crate) fn start(alloc: Global, thread: &Thread) -> Result<Self, AllocError>
        ensures { IfOk result (λ kept. kept ≡ started thread.now) }
    {
        let stack = thread.stack;
        let most = stack.high.saturating_sub(stack.low) / 4 + 1;
        let esp = esp_of(thread);
        let mut frames = Vec::with_capacity(alloc, most as usize)?;
        frames.push_reserved(Frame {
            slot: esp,
            address: RETURN_ADDRESS,
        });
        Ok(ThreadFrames {
            thread: thread.number,
            stack,
            esp,
            frames,
        })
    }

    /// Its number.
    pub(crate) fn number(&self) -> u32
        ensures { result ≡ self.now.thread }
    {
        self.thread
    }

    /// The first address of its stack.
    pub(crate) fn low(&self) -> u32
        ensures { result ≡ self.now.stack.low }
    {
        self.stack.low
    }

    /// Whether its stack has an address.
    pub(crate) fn stacks(&self, address: u64) -> bool
        ensures { result ≡ lies_in address self.now.stack }
    {
        u64::from(self.stack.low) <= address && address < u64::from(self.stack.high)
    }

    /// Its last frame.
    pub(crate) fn last(&self) -> Option<Frame>
        ensures { result ≡ last_or None self.now.frames }
    {
        self.frames.last().copied()
    }

    /// It has made a step.
    pub(crate) fn go<S: Space>(&mut self, after: &Thread, flow: Flow, space: &S)
        requires in_place { is_in_place self.old ≡ true }
        requires lower { flow ≡ Call → esp_of after.now + 4 ≡ self.old.esp }
        requires readable { flow ≡ Call
            → first_fault (read_fault (S.contents space.now).pieces) (esp_of after.now) 4 ≡ None }
        ensures { self.new ≡ record self.old {
          esp = esp_of after.now;
          frames = flow_frames (S.contents space.now).pieces after.now flow self.old.frames;
        } }
    {
        self.esp = esp_of(after);
        match flow {
            Flow::Plain => {}
            Flow::Call => self.frames.push_reserved(Frame {
                slot: self.esp,
                address: dword_at(space, self.esp),
            }),
            Flow::Return => {
                self.frames.pop();
            }
        }
    }

    /// Whether each frame keeps the slot rule.
    pub(crate) fn keeps_slots<S: Space>(&self, space: &S) -> bool
        ensures { result ≡ keeps_slots (S.contents space.now).pieces self.now }
    {
        let (stack, esp) = (self.stack, self.esp);
        self.frames
            .iter()
            .all(|frame| keeps_slot(stack, esp, *frame, space))
    }

    /// Whether each slot is a multiple of 4 at or above ESP and inside the stack, where all but the last are multiples
    /// of 4 inside it: then the last, which is the least, decides.
    pub(crate) fn is_in_place(&self) -> bool
        requires { is_based self.now ≡ true }
        ensures { result ≡ is_in_place self.now }
    {
        match self.frames.last() {
            Some(frame) => is_slot(self.stack, self.esp, frame.slot),
            None => true,
        }
    }

    /// How many frames have slots above one.
    fn above(&self, slot: u64) -> usize
        ensures bound { result ≤ length self.now.frames }
        ensures above { AllWithin (λ frame. slot < frame.slot) self.now.frames 0 result }
        ensures below { AllWithin (λ frame. frame.slot ≤ slot) self.now.frames result (length self.now.frames) }
    {
        self.frames
            .partition_point(|frame| slot < u64::from(frame.slot))
    }

    /// Whether the frame that has a slot, if any, finds its address there.
    pub(crate) fn keeps_address<S: Space>(&self, slot: u64, space: &S) -> bool
        ensures { result ≡ keeps_address (S.contents space.now).pieces slot self.now }
    {
        match frame_at(&self.frames, self.above(slot)) {
            Some(frame) => u64::from(frame.slot) != slot || holds_address(space, frame),
            None => true,
        }
    }
}

/// The frame at a place.
fn frame_at(frames: &[Frame], place: usize) -> Option<Frame>
    ensures { result ≡ slice_get frames.now place }
{
    frames.get(place).copied()
}

/// Whether a frame keeps the slot rule.
#[tactic(auto, unfolding(ia32_step::specs::Frames::keeps_slot))]
fn keeps_slot<S: Space>(stack: Range, esp: u32, frame: Frame, space: &S) -> bool
    ensures { result ≡ frames.keeps_slot (S.contents space.now).pieces stack esp frame }
{
    is_slot(stack, esp, frame.slot) && holds_address(space, frame)
}
