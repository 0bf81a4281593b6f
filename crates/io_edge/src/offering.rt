ghost use Rattle.std.specs.Prelude.{◌≡◌, ◌≤◌, OnOk, OnErr};
ghost use Rattle.io_edge.specs.Fault.{Rose};
ghost use Rattle.io_edge.specs.Told.{Added, AddedFront, AddedShort};

use crate::folder::Failed;
use crate::sink::Sink;

/// Writes the whole piece: where a write took only some of it, the rest is offered again. Nothing is written of
/// an empty piece.
pub fn offer<K: Sink>(sink: &mut K, piece: &[u8]) -> Result<(), Failed>
    ensures whole { OnOk result (Added (K.written sink.old) (K.written sink.new) piece.now) }
    ensures front { OnErr result (AddedFront (K.written sink.old) (K.written sink.new) piece.now) }
    ensures short { OnErr result (AddedShort (K.written sink.old) (K.written sink.new) piece.now) }
    ensures failed { OnErr result (Rose (K.faults sink.old) (K.faults sink.new)) }
    ensures later { K.faults sink.old ≤ K.faults sink.new }
{
    let mut done = 0;
    while done < piece.len() {
        done += sink.write(&piece[done..])?;
    }
    Ok(())
}
