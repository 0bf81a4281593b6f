//! Playing.

ghost use Rattle.std.specs.Prelude.{◌≡◌, ◌≤◌, List, ℕ, IfErr};
ghost use Rattle.io_edge.specs.Told.{Took};
ghost use Rattle.sv_base.specs.Meaning.{MeansSame, first_state, held_in};
ghost use Rattle.session.specs.Playing.{ArePlayable, HasPlayed, IsPlayCause, IsUntouched};

use crate::fault::PlayFault;
use crate::memory::{Memory, take_memory};
use crate::refusing::{refuse, too_many};
use crate::showing::{begin, write_line};
use crate::stepping::make_step;
use io_edge::{Sink, Source};
use model_stage::Bench;
use std::alloc::Global;
use stimulus_reader::StepFault;
use sv_base::Face;

/// The most steps after step 0 that a run may allow.
pub const STEP_LIMIT: u64 = 16_777_215;

/// Plays a stimulus on a bench that is at its start: writes the header of the trace and the line of step 0, then makes
/// each step of the source and writes its line, up to the end of the source, to its first bad line, or to the step after
/// `max_steps`, which is a bad line too. Answers the number of steps. Memory is taken first; the header and each line are
/// offered to the sink as one piece, and what a write did not take is offered again.
pub fn play<B: Bench, S: Source, K: Sink>(
    alloc: Global,
    bench: &mut B,
    face: &Face,
    source: &mut S,
    out: &mut K,
    max_steps: u64,
) -> Result<u64, PlayFault>
    requires face { face.now.ports ≡ (B.meaning bench.old).ports }
    requires ports { ArePlayable face.now.ports }
    requires start { B.held bench.old
        ≡ held_in (B.meaning bench.old).ports (first_state (B.meaning bench.old)) }
    requires room { max_steps ≤ B.room bench.old }
    requires few { max_steps ≤ STEP_LIMIT }
    // What was taken from the source, told or not, which steps that were, what was written of their trace, and where
    // the bench stands.
    ensures played { (taken : List ℕ) × Took (S.left source.old) (S.left source.new) taken
        × HasPlayed (B.meaning bench.old) max_steps result taken
        (S.left source.new) (B.held bench.new) (K.written out.old) (K.written out.new) }
    ensures same { MeansSame (B.meaning bench.old) (B.meaning bench.new) }
    // causes
    ensures cause { IfErr result (λ fault. IsPlayCause fault
        (S.faults source.old) (S.faults source.new) (K.faults out.old) (K.faults out.new)) }
    ensures memory { IfErr result (λ fault. IsUntouched fault
        ((source.new ≡ source.old) × (out.new ≡ out.old) × (bench.new ≡ bench.old))) }
    ensures ground { S.same_ground source.old source.new }
    ensures source_later { S.faults source.old ≤ S.faults source.new }
    ensures out_later { K.faults out.old ≤ K.faults out.new }
{
    let Memory {
        mut reader,
        header,
        mut buffers,
    } = match take_memory(alloc, face) {
        Ok(memory) => memory,
        Err(_) => return Err(PlayFault::NoMemory),
    };
    let ports = face.ports.as_slice();
    match begin(&header, bench, &reader, ports, &mut buffers, out) {
        Ok(()) => {}
        Err(_) => return Err(PlayFault::WriteFault),
    }
    let mut number = 0;
    'steps: loop {
        match reader.next_step(source) {
            Ok(None) => return Ok(number),
            Ok(Some(kind)) => {
                if number == max_steps {
                    return Err(too_many(alloc, reader.line_number()));
                }
                make_step(kind, &reader, bench);
                number += 1;
                match write_line(number, bench, &reader, ports, &mut buffers, out) {
                    Ok(()) => {}
                    Err(_) => return Err(PlayFault::WriteFault),
                }
            }
            Err(StepFault::Bad { line, reason }) => {
                return Err(refuse(alloc, reader, line, reason, number == max_steps));
            }
            Err(StepFault::ReadFault) => return Err(PlayFault::ReadFault),
        }
    }
}
