//! The command `sim`: a source, compiled, and a stimulus, played.

ghost use Rattle.std.specs.Prelude.{◌≡◌, ◌≤◌, ℕ, List, map, IfOk, IfErr, IfSome, OnErr};
ghost use Rattle.std.specs.String.{string_bytes};
ghost use Rattle.io_edge.specs.Told.{Added};
ghost use Rattle.lib_create.specs.code.Verdicts.{verdict_seen};
ghost use Rattle.lib_create.specs.code.Running.{IsPlayCause};
ghost use Rattle.lib_create.specs.Outcome.{Ends};
ghost use Rattle.lib_create.specs.Answer.{CutShort};

use crate::command::read_words;
use crate::compile::{Compiled, compile};
use crate::playing::run_design;
use crate::stop::Stop;
use crate::verdict::Verdict;
use io_edge::{Folder, Sink};
use std::alloc::Global;

/// Reads the words, compiles the source, plays the stimulus and writes the trace.
pub fn simulate<'a, D: Folder, K: Sink>(
    alloc: Global,
    words: &'a [String],
    folder: &mut D,
    out: &mut K,
) -> Result<Verdict<'a>, Stop>
    ensures ends { IfOk result (λ verdict. IfSome (D.content folder.old) (λ files. (trace : List ℕ)
        × Ends files (map string_bytes words.now) (verdict_seen verdict) trace × Added (K.written out.old) (K.written out.new) trace)) }
    ensures cut { OnErr result (IfSome (D.content folder.old) (λ files. CutShort files (map string_bytes words.now) (K.written out.old) (K.written out.new))) }
    ensures cause { IfErr result (λ stop. IsPlayCause stop (D.read_faults folder.old) (D.read_faults folder.new) (K.faults out.old) (K.faults out.new)) }
    ensures unchanged { D.content folder.new ≡ D.content folder.old }
    ensures read_later { D.read_faults folder.old ≤ D.read_faults folder.new }
    ensures no_write { D.write_faults folder.new ≡ D.write_faults folder.old }
    ensures out_later { K.faults out.old ≤ K.faults out.new }
{
    let sim = match read_words(words) {
        Err(misuse) => return Ok(Verdict::Misused(misuse)),
        Ok(sim) => sim,
    };
    match compile(alloc, sim, folder)? {
        Compiled::Absent => Ok(Verdict::SourceAbsent(sim.file)),
        Compiled::Refused(refusal) => Ok(Verdict::SourceRefused(sim.file, refusal)),
        Compiled::Design(spec) => run_design(alloc, spec, sim.stimulus, folder, out),
    }
}
