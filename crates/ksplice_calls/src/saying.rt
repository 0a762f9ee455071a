//! Writing the last piece of an answer, with which the call ends.
ghost use Rattle.std.specs.Prelude.{◌≡◌, ◌≢◌, ◌⊎◌, false, true, ◌||◌, ◌==◌};
ghost use Rattle.ks_io.specs.Kept.{SinkKept};
ghost use Rattle.ks_io.specs.Loads.{needed_by, outside_fault};
ghost use Rattle.ks_io.specs.Outside.{Rose};
ghost use Rattle.ksplice_calls.specs.Answer.{ComesOut, answer_of, lost_answer, refused_answer, refused_status};
ghost use Rattle.ksplice_calls.specs.Calls.{is_carried_out};

use crate::status::Status;
use ks_base::{Line, Refusal};
use ks_io::{FileFault, Sink, SinkFault, Wanted, write_all};
use ksplice_session::write_file_line;
use std::alloc::Global;

/// Writes the output and ends with the status, or with 5 or 6 where the sink doesn't take the output.
#[tactic(auto, using(ks_io::specs::laws::Fronts::front_of_part))]
pub fn say<O: Sink>(out: &mut O, output: &[u8], status: Status) -> Status
    requires { (status.code == 5 || status.code == 6) ≡ false }
    ensures answer { ComesOut (answer_of output.now status.code) (O.taken out.old) (O.taken out.new) result.code }
    ensures status { (result ≡ status) ⊎ (result.code ≡ 5) ⊎ (result.code ≡ 6) }
    ensures out { SinkKept O.faults O.quiet out.old out.new }
    ensures sink { result.code ≡ 5 → Rose (O.faults out.old) (O.faults out.new) }
    ensures steady { result.code ≢ 5 → O.faults out.new ≡ O.faults out.old }
    ensures quiet { O.quiet out.old → result.code ≢ 5 }
{
    match write_all(out, output) {
        Ok(()) => status,
        Err(SinkFault::SinkFailed) => Status::NO_SINK,
        Err(SinkFault::Memory) => Status::NO_MEMORY,
    }
}

/// Ends the call with a refusal's line. [`Refusal::Memory`] has none.
#[tactic(auto, using(ks_io::specs::laws::Fronts::nothing_taken))]
pub fn refuse<O: Sink>(alloc: Global, refusal: &Refusal, out: &mut O) -> Status
    ensures answer { refusal.now ≢ Refusal.Memory
        → ComesOut (refused_answer refusal.now) (O.taken out.old) (O.taken out.new) result.code }
    ensures memory { refusal.now ≡ Refusal.Memory → (result.code ≡ 6) × (O.taken out.new ≡ O.taken out.old) }
    ensures status { is_carried_out result.code ≡ true }
    ensures out { SinkKept O.faults O.quiet out.old out.new }
    ensures sink { result.code ≡ 5 → Rose (O.faults out.old) (O.faults out.new) }
    ensures steady { result.code ≢ 5 → O.faults out.new ≡ O.faults out.old }
    ensures quiet { O.quiet out.old → result.code ≢ 5 }
{
    if let Refusal::Memory = refusal {
        return Status::NO_MEMORY;
    }
    let mut line = Line::new(alloc);
    match line.put_refusal(refusal) {
        Ok(()) => say(out, line.bytes(), status_of(refusal)),
        Err(_) => Status::NO_MEMORY,
    }
}

/// The status of a refusal.
fn status_of(refusal: &Refusal) -> Status
    ensures { result.code ≡ refused_status refusal.now }
{
    match refusal {
        Refusal::BadImage(..) => Status::BAD_INPUT,
        Refusal::BadLine(_) => Status::BAD_INPUT,
        _ => Status::REFUSED,
    }
}

/// Ends the call with the line of a file that was not loaded, and why. A file for which memory ran out has no line.
#[tactic(auto, using(ks_io::specs::laws::Fronts::nothing_taken, ks_io::specs::laws::Fronts::front_of_part))]
pub fn end_with_file<O: Sink>(
    alloc: Global,
    file: &Wanted<'_>,
    fault: FileFault,
    out: &mut O,
) -> Status
    ensures answer { ComesOut
        (lost_answer (needed_by file.now) (outside_fault fault)) (O.taken out.old) (O.taken out.new) result.code }
    ensures status { is_carried_out result.code ≡ true }
    ensures out { SinkKept O.faults O.quiet out.old out.new }
    ensures sink { result.code ≡ 5 → Rose (O.faults out.old) (O.faults out.new) }
    ensures steady { result.code ≢ 5 → O.faults out.new ≡ O.faults out.old }
    ensures quiet { O.quiet out.old → result.code ≢ 5 }
{
    if let FileFault::Memory = fault {
        return Status::NO_MEMORY;
    }
    match write_file_line(alloc, file.name, fault, out) {
        Ok(()) => Status::NO_FILE,
        Err(SinkFault::SinkFailed) => Status::NO_SINK,
        Err(SinkFault::Memory) => Status::NO_MEMORY,
    }
}
