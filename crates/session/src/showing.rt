//! The lines of a trace: what a bench shows after a step.

ghost use Rattle.std.specs.Prelude.{◌≡◌, ◌<◌, ◌≤◌, ◌+◌, ◌++◌, length, map, true, false, slice_get, slice_index, Some, OnOk, OnErr, if◌then◌else◌};
ghost use Rattle.std.specs.Vec.{vec_capacity};
ghost use Rattle.bit_ops.specs.Lists.{words, widths};
ghost use Rattle.io_edge.specs.Fault.{Rose};
ghost use Rattle.io_edge.specs.Told.{Added, AddedShort};
ghost use Rattle.sv_base.specs.TraceText.{header, line};
ghost use Rattle.sv_base.specs.Classes.{is_output};
ghost use Rattle.sv_base.specs.Meaning.{row_of, widths_of_class};
ghost use Rattle.stimulus_reader.specs.Reading.{IsInputAt};
ghost use Rattle.session.specs.code.Room.{HasRoom};

use crate::memory::Buffers;
use bit_ops::Bits;
use io_edge::{Failed, Sink, offer};
use model_stage::Bench;
use stimulus_reader::StepReader;
use sv_base::{Class, Port};
use trace_writer::line;

/// How many outputs there are up to a port of this class and with it, where so many are before it.
fn outputs_with(class: Class, outputs: usize) -> usize
    requires { outputs < usize.MAX }
    ensures { result ≡ outputs + (if is_output class then 1 else 0) }
{
    match class {
        Class::Output => outputs + 1,
        _ => outputs,
    }
}

/// The value of the port of this class at this place, before which there are so many outputs.
fn port_value<B: Bench>(
    bench: &B,
    reader: &StepReader,
    class: Class,
    place: usize,
    outputs: usize,
) -> Bits
    requires input { is_output class ≡ false → IsInputAt reader.now.ports place }
    requires output { is_output class ≡ true → outputs < length (B.outputs bench.now) }
    ensures word { is_output class ≡ false → result.word ≡ slice_index reader.now.values place }
    ensures width { is_output class ≡ false →
        result.width ≡ slice_index (map (λ p. p.width) reader.now.ports) place }
    ensures shown { is_output class ≡ true →
        slice_get (B.outputs bench.now) outputs ≡ Some result.word }
    ensures shown_width { is_output class ≡ true →
        slice_get (widths_of_class is_output (B.meaning bench.now).ports) outputs
        ≡ Some result.width }
{
    match class {
        Class::Output => bench.out(outputs),
        _ => reader.value(place),
    }
}

/// Puts the value of each port in place of what `values` held. Takes no memory.
fn collect_values<B: Bench>(bench: &B, reader: &StepReader, ports: &[Port], values: &mut Vec<Bits>)
    requires ports { ports.now ≡ (B.meaning bench.now).ports }
    requires reader { reader.now.ports ≡ ports.now }
    requires room { length ports.now ≤ vec_capacity values.old }
    ensures words { words values.new.items
        ≡ row_of ports.now reader.now.values (B.outputs bench.now) }
    ensures widths { widths values.new.items ≡ map (λ p. p.width) ports.now }
    ensures room { vec_capacity values.new ≡ vec_capacity values.old }
{
    values.clear();
    let mut outputs = 0;
    for (place, port) in ports.iter().enumerate() {
        values.push_reserved(port_value(bench, reader, port.class, place, outputs));
        outputs = outputs_with(port.class, outputs);
    }
}

/// Writes the line of the step of this number, from the values that the reader has for inputs and those that the bench
/// shows. Takes no memory.
pub fn write_line<B: Bench, K: Sink>(
    number: u64,
    bench: &B,
    reader: &StepReader,
    ports: &[Port],
    buffers: &mut Buffers,
    out: &mut K,
) -> Result<(), Failed>
    requires ports { ports.now ≡ (B.meaning bench.now).ports }
    requires reader { reader.now.ports ≡ ports.now }
    requires room { HasRoom ports.now buffers.old }
    ensures whole { OnOk result (Added (K.written out.old) (K.written out.new)
        (line number ports.now (row_of ports.now reader.now.values (B.outputs bench.now)))) }
    ensures short { OnErr result (AddedShort (K.written out.old) (K.written out.new)
        (line number ports.now (row_of ports.now reader.now.values (B.outputs bench.now)))) }
    ensures room { HasRoom ports.now buffers.new }
    ensures failed { OnErr result (Rose (K.faults out.old) (K.faults out.new)) }
    ensures later { K.faults out.old ≤ K.faults out.new }
{
    collect_values(bench, reader, ports, &mut buffers.values);
    line(number, &buffers.values, &mut buffers.text);
    offer(out, &buffers.text)
}

/// Writes the header of a trace and the line of step 0. Takes no memory.
pub fn begin<B: Bench, K: Sink>(
    head: &[u8],
    bench: &B,
    reader: &StepReader,
    ports: &[Port],
    buffers: &mut Buffers,
    out: &mut K,
) -> Result<(), Failed>
    requires head { head.now ≡ header ports.now }
    requires ports { ports.now ≡ (B.meaning bench.now).ports }
    requires reader { reader.now.ports ≡ ports.now }
    requires room { HasRoom ports.now buffers.old }
    ensures whole { OnOk result (Added (K.written out.old) (K.written out.new)
        (header ports.now
        ++ line 0 ports.now (row_of ports.now reader.now.values (B.outputs bench.now)))) }
    ensures short { OnErr result (AddedShort (K.written out.old) (K.written out.new)
        (header ports.now
        ++ line 0 ports.now (row_of ports.now reader.now.values (B.outputs bench.now)))) }
    ensures room { HasRoom ports.now buffers.new }
    ensures failed { OnErr result (Rose (K.faults out.old) (K.faults out.new)) }
    ensures later { K.faults out.old ≤ K.faults out.new }
{
    offer(out, head)?;
    write_line(0, bench, reader, ports, buffers, out)
}
