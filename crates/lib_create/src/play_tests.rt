//! Stimuli played on the plain bench, where few steps are allowed, and where a read or a write fails.

ghost use Rattle.std.specs.Prelude.{◌≤◌, ◌<◌, map, IfOk};
ghost use Rattle.std.specs.List.{IsDistinct};
ghost use Rattle.std.specs.Str.{bytes_eq};
ghost use Rattle.sv_base.specs.declared.face.Port.{Port};
ghost use Rattle.net_ir.specs.Face.{ports_of};
ghost use Rattle.plain_run.specs.Plain.{IsPlain};

use crate::compile::{Compiled, compile_bytes};
use io_edge::{MemSink, MemSource};
use net_ir::{Spec, face};
use plain_run::{PlainBench, law};
use session::{PlayFault, play};
use std::alloc::{AllocError, AllocGlobal, Global};
use std::process::Abort;
use std::test::Fail;

const INVERTER: &str = "module t(input logic a, output logic y); assign y = ~a; endmodule";

const TRACE: &str = "step a:1 y:1\n0 0 1\n1 1 0\n2 0 1\n";

fn design(alloc: Global, source: &str) -> Result<Spec, Fail>
    ensures plain { IfOk result IsPlain }
    ensures names { IfOk result (λ spec. IsDistinct bytes_eq (map (λ (p : Port). p.name) (ports_of spec))) }
{
    match compile_bytes(alloc, "t", source.as_bytes()) {
        Ok(Compiled::Design(spec)) => Ok(spec),
        _ => Err("no design")?,
    }
}

// What playing answers: the number of steps, or the fault.
fn told(alloc: Global, answer: Result<u64, PlayFault>) -> Result<String, Fail> {
    match answer {
        Ok(steps) => Ok(format!(in alloc; "{steps} steps")?),
        Err(PlayFault::Stimulus { line, reason, word }) => {
            let word = str::from_utf8(word.as_slice())?;
            Ok(format!(in alloc; "line {line}: {reason:?} {word}")?)
        }
        Err(PlayFault::ReadFault) => Ok(String::from_str(alloc, "read fault")?),
        Err(PlayFault::WriteFault) => Ok(String::from_str(alloc, "write fault")?),
        Err(PlayFault::NoMemory) => Ok(String::from_str(alloc, "no memory")?),
    }
}

fn calls(alloc: Global, fail: u64) -> Result<Vec<u64>, AllocError> {
    let mut calls = Vec::new(alloc);
    if fail > 0 {
        calls.push(fail)?;
    }
    Ok(calls)
}

// Plays on the inverter, with as many steps as are allowed and the number of the read and of the write that fails, 0 for
// none. One byte is taken by a read, and by a write.
fn played(
    rt: &(impl AllocGlobal + Abort),
    stimulus: &str,
    steps: u64,
    read: u64,
    write: u64,
) -> Result<(String, Vec<u8>), Fail>
    requires { steps ≤ 100 }
{
    law::plain_ports();
    let alloc = rt.alloc();
    let spec = design(alloc, INVERTER)?;
    let face = face(alloc, &spec)?;
    let mut bench = PlainBench::new(alloc, spec, &face)?;
    let mut source = MemSource {
        bytes: Vec::from_slice(alloc, stimulus.as_bytes())?,
        at: 0,
        fail: calls(alloc, read)?,
        calls: 0,
        most: 1,
    };
    let mut out = MemSink {
        bytes: Vec::new(alloc),
        fail: calls(alloc, write)?,
        calls: 0,
        most: 1,
        short: 0,
    };
    let answer = play(alloc, &mut bench, &face, &mut source, &mut out, steps);
    Ok((told(alloc, answer)?, out.bytes))
}

// Stimuli, the steps that are allowed, and what playing answers. Two steps are made.
const TWO_STEPS: [(&str, u64, &str); 6] = [
    ("d a=1\nd a=0\nd a=1", 2, "line 3: TooManySteps "),
    ("d a=1\nd a=0\nx", 2, "line 3: TooManySteps "),
    ("d a=1\nd a=0\n\n# x\n", 2, "2 steps"),
    ("d a=1\nd a=0\n", 3, "2 steps"),
    ("d a=1\nd a=0\nd a=2\n", 3, "line 3: NoValue 2"),
    ("d a=1\nd a=0\nc a=1\n", 9, "line 3: NoClock a"),
];

#[test]
fn steps_are_played_up_to_the_limit(rt: HostRuntime) -> Result<(), Fail> {
    for (stimulus, steps, wanted) in TWO_STEPS {
        if steps > 100 {
            return Err("many steps")?;
        }
        let (told, out) = played(&rt, stimulus, steps, 0, 0)?;
        assert_eq!(rt; told.as_str(), wanted, "{stimulus:?}");
        assert_eq!(rt; out.as_slice(), TRACE.as_bytes(), "{stimulus:?}");
    }
    Ok(())
}

// Each line of the stimulus has 6 bytes, of which a read takes one, and a line is played before any further read. So
// read 1 comes behind the header and step 0, read 7 behind step 1 too, and read 13, which would find the end, behind
// step 2. These have 13 bytes, and 6 for each step.
#[test]
fn each_read_that_fails_leaves_the_lines_before_it(rt: HostRuntime) -> Result<(), Fail> {
    for read in 1..14u64 {
        let (told, out) = played(&rt, "d a=1\nd a=0\n", 9, read, 0)?;
        let lines = if read <= 6 {
            19
        } else if read <= 12 {
            25
        } else {
            31
        };
        assert_eq!(rt; told.as_str(), "read fault", "{read}");
        assert!(rt; TRACE.as_bytes().starts_with(out.as_slice()), "{read}");
        assert_eq!(rt; out.len(), lines, "{read}");
    }
    Ok(())
}

#[test]
fn each_write_that_fails_leaves_the_bytes_before_it(rt: HostRuntime) -> Result<(), Fail> {
    for write in 1..32u64 {
        let (told, out) = played(&rt, "d a=1\nd a=0\n", 9, 0, write)?;
        assert_eq!(rt; told.as_str(), "write fault", "{write}");
        assert!(rt; TRACE.as_bytes().starts_with(out.as_slice()), "{write}");
        assert_eq!(rt; out.len() as u64, write - 1, "{write}");
    }
    let (told, out) = played(&rt, "d a=1\nd a=0\n", 9, 0, 32)?;
    assert_eq!(rt; told.as_str(), "2 steps");
    assert_eq!(rt; out.as_slice(), TRACE.as_bytes());
    Ok(())
}
