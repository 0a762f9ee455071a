//! Writing a whole piece to a sink.
ghost use Rattle.std.specs.Prelude.{◌≡◌, ◌≢◌, OnOk, OnErr, IsErrOf};
ghost use Rattle.ks_io.specs.Kept.{SinkKept};
ghost use Rattle.ks_io.specs.Outside.{Rose, TookPart, grown};

use crate::outside::Sink;
use crate::types::SinkFault;

/// Writes the whole piece, in as many writes as the sink wants. SinkFailed: the sink failed, or took nothing of bytes
/// that were left. Memory: the sink could not grow. After either, a prefix of the piece was taken, and not all of it.
pub fn write_all<O: Sink>(out: &mut O, piece: &[u8]) -> Result<(), SinkFault>
    ensures ok { OnOk result (O.taken out.new ≡ grown (O.taken out.old) piece.now) }
    ensures part { OnErr result (TookPart (O.taken out.old) piece.now (O.taken out.new)) }
    // The count of faults rises exactly where the sink failed.
    ensures failed { IsErrOf result SinkFault.SinkFailed
        → Rose (O.faults out.old) (O.faults out.new) }
    ensures steady { OnOk result (O.faults out.new ≡ O.faults out.old) }
    ensures memory { IsErrOf result SinkFault.Memory → O.faults out.new ≡ O.faults out.old }
    ensures kept { SinkKept O.faults O.quiet out.old out.new }
    ensures quiet_answer { O.quiet out.old → result ≢ Err SinkFault.SinkFailed }
{
    let mut rest = piece;
    while !rest.is_empty() {
        let count = out.write(rest)?;
        if count == 0 {
            return Err(SinkFault::SinkFailed);
        }
        rest = &rest[count..];
    }
    Ok(())
}
