//! What holds of each step.
ghost use Rattle.std.specs.Prelude.{◌≡◌, ◌≢◌, ℕ, ◌+◌, ◌^◌, ◌≤◌, ◌<◌, List, length, map};
ghost use Rattle.std.specs.Prelude.{Option, Some, Result, IsSomeAnd, None};
ghost use Rattle.std.specs.Option.{option_map};
ghost use Rattle.ks_base.specs.declared.refusals.Fault.{Fault};
ghost use Rattle.ks_base.specs.declared.refusals.Fault.TheVariants.{Stray};
ghost use Rattle.image_memory.specs.declared.types.Piece.{Piece};
ghost use Rattle.image_memory.specs.declared.types.Kind.TheVariants.{Code};
ghost use Rattle.image_memory.specs.Contents.{Contents, ArePlaced, holding, shape_of};
ghost use Rattle.image_memory.specs.Access.{kind_of, written};
ghost use Rattle.ia32_decode.specs.declared.types.Decoded.{Decoded};
ghost use Rattle.ia32_step.specs.Step.{Left, store_fault, after_store, change_by, done, carried_out};
ghost use Rattle.ia32_step.specs.Step.{stepped, stored};
ghost use Rattle.ia32_step.specs.Threads.{esp_of};
ghost use Rattle.ia32_step.specs.Code.{KeepsCode, SameData, SameLeft};
ghost use Rattle.ia32_step.specs.Frames.{instruction_at, IsCalled, IsReturned};
ghost use Rattle.ia32_step.specs.declared.types.Context.{Context};
ghost use Rattle.ia32_step.specs.declared.types.Change.{Change};
ghost use Rattle.ia32_step.specs.declared.types.Store.{Store};
ghost use Rattle.ia32_step.specs.declared.types.Thread.{Thread};
ghost use Rattle.ia32_step.specs.declared.types.Outcome.TheVariants.{Moved, Stopped};
ghost use Rattle.ia32_step.specs.declared.types.Flow.TheVariants.{Call, Return};

/// A step leaves a thread its number and its stack, memory its retired ranges, and each piece its kind, its base and
/// its length.
pub fn steps_keep()
    ensures number { (contents : Contents) (thread : Thread) → (stepped contents thread).thread.number ≡ thread.number }
    ensures stack { (contents : Contents) (thread : Thread) → (stepped contents thread).thread.stack ≡ thread.stack }
    ensures fences { (contents : Contents) (thread : Thread) →
        (stepped contents thread).contents.fences ≡ contents.fences }
    ensures shapes { (contents : Contents) (thread : Thread) →
        map shape_of (stepped contents thread).contents.pieces ≡ map shape_of contents.pieces }
{}

/// What a step tells that it wrote can be written, and is all that the step changes of memory.
pub fn steps_write_one_number()
    ensures clear { (contents : Contents) (thread : Thread) → store_fault contents (stored contents thread) ≡ None }
    ensures all { (contents : Contents) (thread : Thread) →
        (stepped contents thread).contents ≡ after_store contents (stored contents thread) }
{}

/// A step leaves each byte of code as it was, and so does whatever an instruction may do.
pub fn steps_leave_code()
    ensures steps { (contents : Contents) (thread : Thread) → ArePlaced contents.pieces →
        KeepsCode contents.pieces (stepped contents thread).contents.pieces }
    ensures changes { (contents : Contents) (thread : Thread) (change : Result Change Fault) →
        ArePlaced contents.pieces → KeepsCode contents.pieces (done contents thread change).contents.pieces }
{}

/// Bytes of code don't matter to what an instruction does, only to which one is fetched. On memories that differ in
/// code alone a decoded instruction does the same, or fails with the same fault, and leaves memories that differ in
/// code alone. What is written where all is code leaves a memory that differs in code alone.
pub fn code_bytes_have_no_say()
    ensures changes { (a b : List Piece) → SameData a b → (context : Context) (decoded : Option Decoded) →
        change_by a context decoded ≡ change_by b context decoded }
    ensures faults { (a b : Contents) → SameData a.pieces b.pieces → (store : Option Store) →
        store_fault a store ≡ store_fault b store }
    ensures left { (a b : Contents) → SameData a.pieces b.pieces → (thread : Thread) (change : Result Change Fault) →
        SameLeft (done a thread change) (done b thread change) }
    ensures instructions { (a b : Contents) → SameData a.pieces b.pieces →
        (thread : Thread) (decoded : Option Decoded) →
        SameLeft (carried_out a thread decoded) (carried_out b thread decoded) }
    ensures written { (pieces : List Piece) (start : ℕ) (bytes : List ℕ) → ArePlaced pieces →
        ((a : ℕ) → start ≤ a → a < start + length bytes → option_map kind_of (holding pieces a) ≡ Some Code) →
        SameData (written start bytes pieces) pieces }
{}

/// A call lowers ESP by 4, and the address after the instruction stands there and can be read; a return goes on at the
/// address that stood where ESP pointed. ESP is counted modulo 2^32, but since no piece ends above 0xFFFF0000 no call
/// that is carried out wraps it below 0.
pub fn calls_and_returns()
    ensures calls { (contents : Contents) (thread : Thread) → length thread.registers ≡ 8 →
        (stepped contents thread).outcome ≡ Moved Call →
        IsSomeAnd (instruction_at contents thread.pc) (λ call. IsCalled thread call (stepped contents thread)) }
    ensures falls { (thread : Thread) (call : Decoded) (after : Left) → IsCalled thread call after →
        ArePlaced after.contents.pieces → esp_of thread < 2 ^ 32 → esp_of after.thread + 4 ≡ esp_of thread }
    ensures returns { (contents : Contents) (thread : Thread) → (stepped contents thread).outcome ≡ Moved Return →
        IsReturned contents.pieces thread (stepped contents thread) }
    ensures called { (contents : Contents) (thread : Thread) (call : Decoded) → length thread.registers ≡ 8 →
        (carried_out contents thread (Some call)).outcome ≡ Moved Call →
        IsCalled thread call (carried_out contents thread (Some call)) }
    ensures returned { (contents : Contents) (thread : Thread) (decoded : Decoded) →
        (carried_out contents thread (Some decoded)).outcome ≡ Moved Return →
        IsReturned contents.pieces thread (carried_out contents thread (Some decoded)) }
{}

/// An instruction that is carried out never stops a thread as a retired range does: that fault is the fetch's alone.
pub fn instructions_are_never_stray()
    ensures { (contents : Contents) (thread : Thread) (decoded : Option Decoded) →
        (carried_out contents thread decoded).outcome ≢ Stopped Stray }
{}
