//! The memory of a run, taken before its first byte.

ghost use Rattle.std.specs.Prelude.{◌≡◌, IfOk};
ghost use Rattle.sv_base.specs.TraceText.{header};
ghost use Rattle.stimulus_reader.specs.Reading.{at_front};
ghost use Rattle.session.specs.Playing.{ArePlayable};
ghost use Rattle.session.specs.code.Room.{HasRoom};

use bit_ops::Bits;
use std::alloc::{AllocError, Global};
use stimulus_reader::StepReader;
use sv_base::Face;
use trace_writer::{header, reserve_line};

/// Room for a value of each port, and for the text of a line.
#[derive(Drop)]
pub struct Buffers {
    pub values: Vec<Bits>,
    pub text: Vec<u8>,
}

/// What a run works with: the reader of its stimulus, the header of its trace, and its buffers.
#[derive(Drop)]
pub struct Memory {
    pub reader: StepReader,
    pub header: Vec<u8>,
    pub buffers: Buffers,
}

/// Takes the memory of a run of a design with this face.
pub fn take_memory(alloc: Global, face: &Face) -> Result<Memory, AllocError>
    requires { ArePlayable face.now.ports }
    ensures reader { IfOk result (λ memory. memory.reader ≡ at_front face.now.ports) }
    ensures header { IfOk result (λ memory. memory.header.items ≡ header face.now.ports) }
    ensures room { IfOk result (λ memory. HasRoom face.now.ports memory.buffers) }
{
    let reader = StepReader::new(alloc, face)?;
    let header = header(alloc, face)?;
    let mut text = Vec::new(alloc);
    reserve_line(alloc, face, &mut text)?;
    let values = Vec::with_capacity(alloc, face.ports.len())?;
    Ok(Memory {
        reader,
        header,
        buffers: Buffers { values, text },
    })
}
