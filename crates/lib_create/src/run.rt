//! The top call: all that the program does.

ghost use Rattle.std.specs.Prelude.{◌≡◌, ◌≤◌, ◌⊎◌, map, IfSome};
ghost use Rattle.std.specs.String.{string_bytes};
ghost use Rattle.io_edge.specs.Fault.{Rose};
ghost use Rattle.io_edge.specs.Told.{Added};
ghost use Rattle.model_stage.specs.Order.{Picks};
ghost use Rattle.lib_create.specs.Outcome.{status_of, message_of};
ghost use Rattle.lib_create.specs.code.Verdicts.{verdict_seen};
ghost use Rattle.lib_create.specs.code.Telling.{ToldAs, stop_status, stop_text};
ghost use Rattle.lib_create.specs.Answer.{read_fault, write_fault, no_memory, Answered, CutShort, CutMessage, HasNoFault, IsGood};

use crate::law;
use crate::simulate::simulate;
use crate::stop::Stop;
use crate::verdict::{Verdict, message, status};
use io_edge::{Folder, Sink, offer};
use model_stage::Order;
use sealer::law::one_source;
use std::alloc::Global;

/// Does all that the program does, and answers its status: 0 done, 2 the words are refused, 3 the source is, 5 the
/// stimulus is, 7 a read failed, 8 a write failed, 9 memory ran out. The outcome of words and files stands in
/// `docs/definitions.md`.
pub fn run_words<D: Folder, K: Sink, E: Sink, F: Fn(u32, u32) -> u32>(
    alloc: Global,
    words: &Vec<String>,
    folder: &mut D,
    out: &mut K,
    err: &mut E,
    order: &Order<F>,
) -> u8
    requires order { Picks (F.pre order.now.f) (F.post order.now.f) }

    // An answer up to 6 is the outcome's status, and its bytes were added.
    ensures range { result ≤ 9 }
    ensures answered { result ≤ 6 → IfSome (D.content folder.old) (λ files.
        Answered files (map string_bytes words.now.items) result (K.written out.old) (K.written out.new) (E.written err.old) (E.written err.new)) }

    // With any other answer the run was cut short: a front of what was due was added, and a message of the fault.
    ensures cut_short { 7 ≤ result → IfSome (D.content folder.old) (λ files.
        CutShort files (map string_bytes words.now.items) (K.written out.old) (K.written out.new)) }
    ensures read_fault_told { result ≡ 7 → Added (E.written err.old) (E.written err.new) read_fault }
    ensures no_memory_told { result ≡ 9 → Added (E.written err.old) (E.written err.new) no_memory }
    ensures write_fault_told { result ≡ 8 → (Rose (E.faults err.old) (E.faults err.new) → ⊥) → Added (E.written err.old) (E.written err.new) write_fault }
    ensures message_cut { result ≡ 8 → IfSome (D.content folder.old) (λ files.
        CutMessage files (map string_bytes words.now.items)
        (Rose (K.faults out.old) (K.faults out.new) ⊎ Rose (D.write_faults folder.old) (D.write_faults folder.new))
        (Rose (D.read_faults folder.old) (D.read_faults folder.new)) (E.written err.old) (E.written err.new)) }

    // A fault is answered only where a count of faults rose in this call.
    ensures read_fault_cause { result ≡ 7 → Rose (D.read_faults folder.old) (D.read_faults folder.new) }
    ensures write_fault_cause { result ≡ 8 → (Rose (K.faults out.old) (K.faults out.new) ⊎ Rose (E.faults err.old) (E.faults err.new))
        ⊎ Rose (D.write_faults folder.old) (D.write_faults folder.new) }

    // No count of faults falls.
    ensures folder_later { (D.read_faults folder.old ≤ D.read_faults folder.new) × (D.write_faults folder.old ≤ D.write_faults folder.new) }
    ensures out_later { K.faults out.old ≤ K.faults out.new }
    ensures err_later { E.faults err.old ≤ E.faults err.new }

    // The folder's files are as before.
    ensures untouched { D.content folder.new ≡ D.content folder.old }

    // Where no count rose, the outcome was given, unless memory ran out; and good words, source and stimulus give 0.
    ensures complete { HasNoFault (D.read_faults folder.old) (D.read_faults folder.new) (D.write_faults folder.old) (D.write_faults folder.new)
        (K.faults out.old) (K.faults out.new) (E.faults err.old) (E.faults err.new) → IfSome (D.content folder.old) (λ files.
        Answered files (map string_bytes words.now.items) result (K.written out.old) (K.written out.new) (E.written err.old) (E.written err.new) ⊎ (result ≡ 9)) }
    ensures succeeds { HasNoFault (D.read_faults folder.old) (D.read_faults folder.new) (D.write_faults folder.old) (D.write_faults folder.new)
        (K.faults out.old) (K.faults out.new) (E.faults err.old) (E.faults err.new) → IfSome (D.content folder.old) (λ files.
        IsGood files (map string_bytes words.now.items) → (result ≡ 0) ⊎ (result ≡ 9)) }
{
    law::one_end();
    one_source();
    match simulate(alloc, words.as_slice(), folder, out) {
        Err(stop) => complain(err, stop),
        Ok(verdict) => report(alloc, err, &verdict),
    }
}

/// Writes the message of a run that came to its end, and answers its status.
fn report<E: Sink>(alloc: Global, err: &mut E, verdict: &Verdict<'_>) -> u8
    ensures told { ToldAs result (status_of (verdict_seen verdict.now)) (Rose (E.faults err.old) (E.faults err.new)) (E.written err.old) (E.written err.new) (message_of (verdict_seen verdict.now))
        ⊎ ToldAs result 9 (Rose (E.faults err.old) (E.faults err.new)) (E.written err.old) (E.written err.new) no_memory }
    ensures later { E.faults err.old ≤ E.faults err.new }
{
    match message(alloc, verdict) {
        Err(_) => tell(err, b"no memory\n", 9),
        Ok(text) => tell(err, text.as_slice(), status(verdict)),
    }
}

/// Writes the message of what cut a run short, and answers its status.
fn complain<E: Sink>(err: &mut E, stop: Stop) -> u8
    ensures told { ToldAs result (stop_status stop) (Rose (E.faults err.old) (E.faults err.new)) (E.written err.old) (E.written err.new) (stop_text stop) }
    ensures later { E.faults err.old ≤ E.faults err.new }
{
    match stop {
        Stop::ReadFault => tell(err, b"read fault\n", 7),
        Stop::WriteFault => tell(err, b"write fault\n", 8),
        Stop::NoMemory => tell(err, b"no memory\n", 9),
    }
}

/// Writes a message and answers its status, or 8 where it couldn't be written whole.
fn tell<E: Sink>(err: &mut E, text: &[u8], status: u8) -> u8
    ensures told { ToldAs result status (Rose (E.faults err.old) (E.faults err.new)) (E.written err.old) (E.written err.new) text.now }
    ensures later { E.faults err.old ≤ E.faults err.new }
{
    match offer(err, text) {
        Ok(()) => status,
        Err(_) => 8,
    }
}
