//! Equal values with memory of their own.

ghost use Rattle.std.specs.Prelude.{◌≡◌, ◌++◌, ◌∷◌, [], OnOk, IfOk};

use crate::machine::{Instr, Kid, Machine, Reg};
use std::alloc::{AllocError, Global};
use sv_base::{Face, Name, Port, Sequence, Summary};

fn copy_name(alloc: Global, name: &Name) -> Result<Name, AllocError>
    ensures { IfOk result (λ n. n ≡ name.now) }
{
    Name::of(alloc, name.bytes())
}

fn copy_port(alloc: Global, port: &Port) -> Result<Port, AllocError>
    ensures { IfOk result (λ p. p ≡ port.now) }
{
    Ok(Port {
        name: copy_name(alloc, &port.name)?,
        class: port.class,
        signed: port.signed,
        width: port.width,
    })
}

fn copy_ports(alloc: Global, ports: &[Port]) -> Result<Sequence<Port>, AllocError>
    ensures { IfOk result (λ ps. ps ≡ ports.now) }
{
    let mut copies = Sequence::new(alloc);
    for port in ports {
        copies.push(copy_port(alloc, port)?)?;
    }
    Ok(copies)
}

fn copy_face(alloc: Global, face: &Face) -> Result<Face, AllocError>
    ensures { IfOk result (λ f. f ≡ face.now) }
{
    Ok(Face {
        name: copy_name(alloc, &face.name)?,
        ports: copy_ports(alloc, face.ports.as_slice())?,
    })
}

fn copy_positions(alloc: Global, row: &[u32]) -> Result<Sequence<u32>, AllocError>
    ensures { IfOk result (λ r. r ≡ row.now) }
{
    Ok(Sequence::from_vec(Vec::from_slice(alloc, row)?))
}

fn copy_slots(alloc: Global, slots: &[u64]) -> Result<Sequence<u64>, AllocError>
    ensures { IfOk result (λ s. s ≡ slots.now) }
{
    Ok(Sequence::from_vec(Vec::from_slice(alloc, slots)?))
}

fn copy_rows(alloc: Global, rows: &[Sequence<u32>]) -> Result<Sequence<Sequence<u32>>, AllocError>
    ensures { IfOk result (λ rs. rs ≡ rows.now) }
{
    let mut copies = Sequence::new(alloc);
    for row in rows {
        copies.push(copy_positions(alloc, row.as_slice())?)?;
    }
    Ok(copies)
}

fn copy_summary(alloc: Global, summary: &Summary) -> Result<Summary, AllocError>
    ensures { IfOk result (λ s. s ≡ summary.now) }
{
    Ok(Summary {
        rows: copy_rows(alloc, summary.rows.as_slice())?,
    })
}

fn copy_kid(alloc: Global, kid: &Kid) -> Result<Kid, AllocError>
    ensures { IfOk result (λ k. k ≡ kid.now) }
{
    let face = copy_face(alloc, &kid.face)?;
    let summary = copy_summary(alloc, &kid.summary)?;
    let ins = copy_slots(alloc, kid.ins.as_slice())?;
    let clocks = copy_positions(alloc, kid.clocks.as_slice())?;
    Ok(Kid {
        digest: kid.digest,
        face,
        summary,
        ins,
        clocks,
    })
}

fn copy_kids(alloc: Global, kids: &[Kid]) -> Result<Sequence<Kid>, AllocError>
    ensures { IfOk result (λ ks. ks ≡ kids.now) }
{
    let mut copies = Sequence::new(alloc);
    for kid in kids {
        copies.push(copy_kid(alloc, kid)?)?;
    }
    Ok(copies)
}

fn copy_regs(alloc: Global, regs: &[Reg]) -> Result<Sequence<Reg>, AllocError>
    ensures { IfOk result (λ rs. rs ≡ regs.now) }
{
    Ok(Sequence::from_vec(Vec::from_slice(alloc, regs)?))
}

fn copy_code(alloc: Global, code: &[Instr]) -> Result<Sequence<Instr>, AllocError>
    ensures { IfOk result (λ c. c ≡ code.now) }
{
    Ok(Sequence::from_vec(Vec::from_slice(alloc, code)?))
}

/// An equal machine.
pub fn copy_machine(alloc: Global, m: &Machine) -> Result<Machine, AllocError>
    ensures { IfOk result (λ copy. copy ≡ m.now) }
{
    let face = copy_face(alloc, &m.face)?;
    let summary = copy_summary(alloc, &m.summary)?;
    let regs = copy_regs(alloc, m.regs.as_slice())?;
    let kids = copy_kids(alloc, m.kids.as_slice())?;
    let code = copy_code(alloc, m.code.as_slice())?;
    let outs = copy_slots(alloc, m.outs.as_slice())?;
    Ok(Machine {
        face,
        summary,
        chain: m.chain,
        regs,
        kids,
        code,
        outs,
    })
}
