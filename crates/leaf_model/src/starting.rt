//! The values that a leaf begins with.

ghost use Rattle.std.specs.Prelude.{◌≡◌, IfOk, length, map, replicate};
ghost use Rattle.bit_ops.specs.Lists.{words, widths};
ghost use Rattle.code_isa.specs.Faces.{input_widths, input_count, clock_count};

use bit_ops::Bits;
use code_isa::{Machine, Reg, input_widths};
use std::alloc::{AllocError, Global};
use sv_base::{Class, Face};

/// How many clocks a face has.
pub fn clock_count(face: &Face) -> usize
    ensures { result ≡ clock_count face.now }
{
    let ports = face.ports.as_slice().iter();
    ports.filter(|p| matches!(p.class, Class::Clock)).count()
}

/// Data inputs of a machine that are 0.
pub fn zero_inputs(alloc: Global, m: &Machine) -> Result<Vec<Bits>, AllocError>
    ensures widths { IfOk result (λ values. widths values.items ≡ input_widths m.now.face) }
    ensures words { IfOk result (λ values. words values.items ≡ replicate (input_count m.now.face) 0) }
{
    let widths = input_widths(alloc, &m.face)?;
    let mut values = Vec::with_capacity(alloc, widths.len())?;
    for width in widths.as_slice() {
        values.push(Bits::zero(*width))?;
    }
    Ok(values)
}

/// Registers with their initial values.
pub fn initial_registers(alloc: Global, regs: &[Reg]) -> Result<Vec<Bits>, AllocError>
    ensures widths { IfOk result (λ values. widths values.items ≡ map (λ r. r.width) regs.now) }
    ensures words { IfOk result (λ values. words values.items ≡ map (λ r. r.init) regs.now) }
{
    let mut values = Vec::with_capacity(alloc, regs.len())?;
    for reg in regs {
        values.push(Bits::new(reg.width, reg.init))?;
    }
    Ok(values)
}
