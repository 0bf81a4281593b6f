//! A run of a design on its stimulus file.

ghost use Rattle.std.specs.Prelude.{◌≡◌, ◌≤◌, ◌⊎◌, ℕ, List, [], map, is_some, unwrap_or, IfOk, IfErr, IfSome, OnErr};
ghost use Rattle.std.specs.FinMap.{get};
ghost use Rattle.std.specs.List.{IsDistinct};
ghost use Rattle.std.specs.Str.{bytes_eq};
ghost use Rattle.io_edge.specs.Told.{Added};
ghost use Rattle.sv_base.specs.declared.face.Port.{Port};
ghost use Rattle.sv_base.specs.Meaning.{first_state, held_in};
ghost use Rattle.net_ir.specs.Face.{ports_of};
ghost use Rattle.plain_run.specs.Plain.{IsPlain};
ghost use Rattle.session.specs.Playing as played;
ghost use Rattle.session.specs.Playing.{ArePlayable};
ghost use Rattle.lib_create.specs.code.Verdicts.{verdict_seen};
ghost use Rattle.lib_create.specs.code.Running.{IsReadCause, IsPlayCause, PlayedOver};
ghost use Rattle.session.specs.declared.playing.TheConstants.{STEP_LIMIT};
ghost use Rattle.lib_create.specs.Outcome.{EndsWithStimulus};
ghost use Rattle.lib_create.specs.Answer.{HasCome};

use crate::stop::Stop;
use crate::verdict::{BadLine, Verdict};
use io_edge::{Folder, FolderSource, Got, Sink};
use model_stage::Bench;
use net_ir::law::benched_run;
use net_ir::{Spec, face};
use plain_run::{PlainBench, law};
use session::playing::STEP_LIMIT;
use session::{PlayFault, play};
use std::alloc::Global;
use sv_base::Face;

/// Runs a design on its stimulus file and writes its trace.
pub fn run_design<'a, D: Folder, K: Sink>(
    alloc: Global,
    spec: Spec,
    stimulus: &str,
    folder: &mut D,
    out: &mut K,
) -> Result<Verdict<'a>, Stop>
    requires plain { IsPlain spec }
    requires names { IsDistinct bytes_eq (map (λ (p : Port). p.name) (ports_of spec)) }
    ensures ends { IfOk result (λ verdict. IfSome (D.content folder.old) (λ files. (trace : List ℕ)
        × EndsWithStimulus spec (get files stimulus.now) (verdict_seen verdict) trace × Added (K.written out.old) (K.written out.new) trace)) }
    ensures cut { OnErr result (IfSome (D.content folder.old) (λ files.
        Added (K.written out.old) (K.written out.new) [] ⊎ HasCome spec (get files stimulus.now) (K.written out.old) (K.written out.new))) }
    ensures cause { IfErr result (λ stop. IsPlayCause stop (D.read_faults folder.old) (D.read_faults folder.new) (K.faults out.old) (K.faults out.new)) }
    ensures unchanged { D.content folder.new ≡ D.content folder.old }
    ensures read_later { D.read_faults folder.old ≤ D.read_faults folder.new }
    ensures no_write { D.write_faults folder.new ≡ D.write_faults folder.old }
    ensures out_later { K.faults out.old ≤ K.faults out.new }
{
    law::plain_ports();
    law::plain_idle();
    benched_run();
    session::law::text_of_rows();
    // matches, since a design or a bench that is alive across a `?` takes the prover minutes
    let seen = match face(alloc, &spec) {
        Err(_) => return Err(Stop::NoMemory),
        Ok(seen) => seen,
    };
    let mut bench = match PlainBench::new(alloc, spec, &seen) {
        Err(_) => return Err(Stop::NoMemory),
        Ok(bench) => bench,
    };
    match play_file(alloc, &mut bench, &seen, stimulus, folder, out) {
        Ok(0) => match is_there(folder, stimulus) {
            Err(stop) => Err(stop),
            Ok(false) => Ok(Verdict::StimulusAbsent),
            Ok(true) => Ok(Verdict::Done),
        },
        Ok(_) => Ok(Verdict::Done),
        Err(PlayFault::Stimulus { line, reason, word }) => {
            Ok(Verdict::Bad(BadLine { line, reason, word }))
        }
        Err(PlayFault::ReadFault) => Err(Stop::ReadFault),
        Err(PlayFault::WriteFault) => Err(Stop::WriteFault),
        Err(PlayFault::NoMemory) => Err(Stop::NoMemory),
    }
}

/// Plays the bytes of a file on a bench at its start, none where the file isn't there.
fn play_file<B: Bench, D: Folder, K: Sink>(
    alloc: Global,
    bench: &mut B,
    seen: &Face,
    stimulus: &str,
    folder: &mut D,
    out: &mut K,
) -> Result<u64, PlayFault>
    requires face { seen.now.ports ≡ (B.meaning bench.old).ports }
    requires ports { ArePlayable seen.now.ports }
    requires start { B.held bench.old ≡ held_in (B.meaning bench.old).ports (first_state (B.meaning bench.old)) }
    requires room { STEP_LIMIT ≤ B.room bench.old }
    ensures played { IfSome (D.content folder.old) (λ files.
        PlayedOver (B.meaning bench.old) result (unwrap_or (get files stimulus.now) []) (K.written out.old) (K.written out.new)) }
    ensures cause { IfErr result (λ fault. played.IsPlayCause fault (D.read_faults folder.old) (D.read_faults folder.new) (K.faults out.old) (K.faults out.new)) }
    ensures unchanged { D.content folder.new ≡ D.content folder.old }
    ensures read_later { D.read_faults folder.old ≤ D.read_faults folder.new }
    ensures no_write { D.write_faults folder.new ≡ D.write_faults folder.old }
    ensures out_later { K.faults out.old ≤ K.faults out.new }
{
    let mut source = FolderSource {
        folder,
        name: stimulus,
        at: 0,
    };
    play(alloc, bench, seen, &mut source, out, STEP_LIMIT)
}

/// Whether a file is there. No byte of it is read.
fn is_there<D: Folder>(folder: &mut D, name: &str) -> Result<bool, Stop>
    ensures there { IfOk result (λ there. IfSome (D.content folder.old) (λ files. there ≡ is_some (get files name.now))) }
    ensures cause { IfErr result (λ stop. IsReadCause stop (D.read_faults folder.old) (D.read_faults folder.new)) }
    ensures unchanged { D.content folder.new ≡ D.content folder.old }
    ensures later { D.read_faults folder.old ≤ D.read_faults folder.new }
    ensures no_write { D.write_faults folder.new ≡ D.write_faults folder.old }
{
    let mut probe = [0u8; 0];
    match folder.read_at(name, 0, &mut probe) {
        Err(_) => Err(Stop::ReadFault),
        Ok(Got::Absent) => Ok(false),
        Ok(Got::Bytes(_)) => Ok(true),
    }
}
