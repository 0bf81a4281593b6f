//! A stimulus played where nothing is told: on a bench that may show anything, from a source that does not say what is
//! left, to a sink that does not say what was written.

ghost use Rattle.std.specs.Prelude.{◌≡◌, ◌==◌, ◌^◌, ◌∷◌, [], ⊤, if◌then◌else◌, length, map, None, IfOk};
ghost use Rattle.std.proofs.Common.{ap, sym, arith};
ghost use Rattle.std.specs.List.{AllByRecursion, IsDistinct};
ghost use Rattle.std.specs.Str.{bytes_eq};
ghost use Rattle.bit_ops.specs.Width.{IsWidth};
ghost use Rattle.sv_base.specs.declared.face.Class.TheVariants.{Clock};
ghost use Rattle.sv_base.specs.Classes.{is_value, is_clock, is_output, words_of_class};
ghost use Rattle.sv_base.specs.Meaning.{widths_of_class};

use crate::playing::play;
use bit_ops::Bits;
use io_edge::{Failed, Source, StreamSink};
use model_stage::Bench;
use std::alloc::{AllocError, Global};
use std::test::Fail;
use sv_base::{Class, Face, Name, Port, Sequence};

/// A source whose reads give one byte each. It does not say which bytes are left.
#[derive(Drop)]
struct UntoldSource {
    bytes: Vec<u8>,
    at: usize,
}

impl Source for UntoldSource {
    ghost left = { λ _. None };

    ghost faults = { λ _. 0 };

    ghost same_ground = { λ _ _. ⊤ };

    ghost count_stops = { λ _. omega arith };

    ghost ground_at_once = { λ _. tt };

    ghost ground_after = { λ _ _ _ _ _. tt };

    fn read(&mut self, into: &mut [u8]) -> Result<usize, Failed> {
        if into.is_empty() || self.at >= self.bytes.len() {
            return Ok(0);
        }
        into[0] = self.bytes[self.at];
        self.at += 1;
        Ok(1)
    }
}

/// A design with one data input and one output, each of one bit, of which nothing is known but its ports. It shows the
/// complement of the input.
#[derive(Drop)]
struct UntoldBench<'a> {
    face: &'a Face,
    input: Bits,
    ghost data: { widths_of_class is_value face.now.ports ≡ 1 ∷ [] },
    ghost clocks: { widths_of_class is_clock face.now.ports ≡ [] },
    ghost shown: { widths_of_class is_output face.now.ports ≡ 1 ∷ [] },
    ghost one_bit: { input.width ≡ 1 },
}

impl Bench for UntoldBench<'_> {
    ghost meaning = { λ bench. record {
      ports = bench.face.now.ports;
      initial = [];
      shows = λ _ _. ⊤;
      samples = λ _ _ _. ⊤;
    } };

    ghost held = { λ bench.
        record { values = bench.input.word ∷ []; levels = []; registers = [] } };

    ghost outputs = { λ bench. (if bench.input.word == 0 then 1 else 0) ∷ [] };

    ghost room = { λ bench. 2 ^ 63 };

    ghost settled = { λ bench. tt };

    ghost each = { λ bench. ap length (sym bench.shown) };

    fn set_values(&mut self, inputs: &[Bits]) {
        self.input = inputs[0];
    }

    fn set_clocks(&mut self, levels: &[bool]) {}

    fn out(&self, k: usize) -> Bits {
        Bits::flag(self.input.word == 0)
    }
}

fn port(alloc: Global, name: &[u8], class: Class) -> Result<Port, AllocError>
    ensures name { IfOk result (λ p. p.name ≡ name.now) }
    ensures class { IfOk result (λ p. p.class ≡ class) }
    ensures width { IfOk result (λ p. p.width ≡ 1) }
{
    Ok(Port {
        name: Name::of(alloc, name)?,
        class,
        signed: false,
        width: 1,
    })
}

// The data input `a` and the output `y`.
fn face(alloc: Global) -> Result<Face, AllocError>
    ensures widths { IfOk result (λ face. AllByRecursion (λ p. IsWidth p.width) face.ports) }
    ensures no_clocks { IfOk result
        (λ face. AllByRecursion (λ p. p.class ≡ Clock → p.width ≡ 1) face.ports) }
    ensures distinct { IfOk result (λ face. IsDistinct bytes_eq (map (λ p. p.name) face.ports)) }
    ensures data { IfOk result (λ face. widths_of_class is_value face.ports ≡ 1 ∷ []) }
    ensures clocks { IfOk result (λ face. widths_of_class is_clock face.ports ≡ []) }
    ensures shown { IfOk result (λ face. widths_of_class is_output face.ports ≡ 1 ∷ []) }
    ensures first { IfOk result
        (λ face. words_of_class is_value face.ports (map (λ _. 0) face.ports) ≡ 0 ∷ []) }
    ensures first_levels { IfOk result
        (λ face. words_of_class is_clock face.ports (map (λ _. 0) face.ports) ≡ []) }
{
    let mut ports = Sequence::new(alloc);
    ports.push(port(alloc, b"a", Class::Value)?)?;
    ports.push(port(alloc, b"y", Class::Output)?)?;
    Ok(Face {
        name: Name::of(alloc, b"t")?,
        ports,
    })
}

const TRACE: &str = "step a:1 y:1\n0 0 1\n1 1 0\n2 0 1\n";

#[test]
fn plays_where_nothing_is_told(rt: HostRuntime) -> Result<(), Fail> {
    let alloc = rt.alloc();
    let face = face(alloc)?;
    let mut bench = UntoldBench {
        face: &face,
        input: Bits::zero(1),
    };
    let mut source = UntoldSource {
        bytes: Vec::from_slice(alloc, b"d a=1\n# kept\nd a=0\n")?,
        at: 0,
    };
    let mut out = StreamSink {
        to: Vec::new(alloc),
        faults: 0,
    };
    let answer = play(alloc, &mut bench, &face, &mut source, &mut out, 9);
    assert!(rt; matches!(answer, Ok(2)));
    assert_eq!(rt; out.to.as_slice(), TRACE.as_bytes());
    Ok(())
}
