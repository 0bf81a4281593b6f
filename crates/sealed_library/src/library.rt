//! The library of a machine.

ghost use Rattle.std.specs.Prelude.{◌≡◌, ◌≤◌, Ok, map, length, IfOk, IfErr};
ghost use Rattle.code_isa.specs.declared.machine.Machine.{Machine};
ghost use Rattle.code_isa.specs.Faults.{IsFirstFault};
ghost use Rattle.code_check.specs.Told.{HasFewSlots};
ghost use Rattle.sealed_library.specs.declared.limits.TheConstants.{LIBRARY_LIMIT};
ghost use Rattle.sealed_library.specs.declared.fault.LibFault.TheVariants.{NoMemory};
ghost use Rattle.sealed_library.specs.Version1.{register_fields, child_fields, instruction_fields, machine_field, machine_fields, parts_field};
ghost use Rattle.sealed_library.specs.Library.{IsLibrary, Spells, IsRefused, library_text, magic_at, version_at, library_at};
ghost use Rattle.sealed_library.specs.code.Reading.{Gives};
ghost use Rattle.sealed_library.specs.code.Parts.{parts_of, told};

use crate::counts::output_count;
use crate::fault::{FormatFault, LibFault, Unread};
use crate::limits::LIBRARY_LIMIT;
use crate::numbers::{chain_at, u8_at};
use crate::parts::Parts;
use crate::reading::{children_at, code_at, face_at, registers_at, slots_at, summary_at};
use crate::writing::push_machine;
use code_check::{CheckFault, check};
use code_isa::{Checked, Machine};
use std::alloc::{AllocError, Global};
use sv_base::Face;

/// The library of a machine, of version 1: its one spelling.
#[tactic(auto, unfolding(crate::specs::Library::library_text))]
pub fn encode(alloc: Global, m: &Checked) -> Result<Vec<u8>, AllocError>
    ensures { IfOk result (λ bytes. IsLibrary bytes.items m.now) }
{
    let machine = m.machine();
    let mut bytes = Vec::new(alloc);
    bytes.extend_from_slice(b"HIERLIB\x01")?;
    push_machine(&mut bytes, machine)?;
    Ok(bytes)
}

/// The registers, the children, the code and the slots of the outputs of a machine with a face.
#[tactic(auto, unfolding(crate::specs::Version1::parts_field))]
fn parts_at<'a>(alloc: Global, face: &Face, bytes: &'a [u8]) -> Result<(Parts, &'a [u8]), Unread>
    ensures { Gives (λ x. (parts_of x.0, x.1.now)) result ((parts_field face.now).read bytes.now) }
{
    let (regs, rest) = registers_at(alloc, bytes)?;
    let (kids, rest) = children_at(alloc, rest)?;
    let (code, rest) = code_at(alloc, rest)?;
    let (outs, rest) = slots_at(alloc, output_count(face) as u64, rest)?;
    Ok((
        Parts {
            regs,
            kids,
            code,
            outs,
        },
        rest,
    ))
}

/// A machine, of which nothing is known but its ranges.
#[tactic(auto, unfolding(crate::specs::Version1::machine_field))]
fn machine_at(alloc: Global, bytes: &[u8]) -> Result<(Machine, &[u8]), Unread>
    ensures { Gives (λ x. (machine_fields x.0, x.1.now)) result (machine_field.read bytes.now) }
{
    let (face, rest) = face_at(alloc, bytes)?;
    let (summary, rest) = summary_at(alloc, &face, rest)?;
    let (chain, rest) = chain_at(rest)?;
    let (parts, rest) = parts_at(alloc, &face, rest)?;
    Ok((
        Machine {
            face,
            summary,
            chain,
            regs: parts.regs,
            kids: parts.kids,
            code: parts.code,
            outs: parts.outs,
        },
        rest,
    ))
}

/// The bytes behind the name of the format.
#[tactic(auto, unfolding(crate::specs::Library::magic_at))]
fn magic_at(bytes: &[u8]) -> Result<&[u8], Unread>
    ensures { Gives (λ rest. rest.now) result (magic_at bytes.now) }
{
    match bytes.strip_prefix(b"HIERLIB") {
        Some(rest) => Ok(rest),
        None => Err(Unread::Refused(FormatFault::BadMagic)),
    }
}

/// The machine of a version.
#[tactic(auto, unfolding(crate::specs::Library::version_at))]
fn version_at(alloc: Global, version: u8, bytes: &[u8]) -> Result<(Machine, &[u8]), Unread>
    ensures { Gives (λ x. (machine_fields x.0, x.1.now)) result (version_at version bytes.now) }
{
    if version == 1 {
        machine_at(alloc, bytes)
    } else {
        Err(Unread::Refused(FormatFault::BadVersion))
    }
}

/// The machine that bytes spell, all of the bytes.
#[tactic(auto, unfolding(crate::specs::Library::library_at))]
fn library_at(alloc: Global, bytes: &[u8]) -> Result<Machine, Unread>
    ensures { Gives machine_fields result (library_at bytes.now) }
{
    let rest = magic_at(bytes)?;
    let (version, rest) = u8_at(rest)?;
    let (machine, rest) = version_at(alloc, version, rest)?;
    if !rest.is_empty() {
        return Err(Unread::Refused(FormatFault::Trailing));
    }
    Ok(machine)
}

/// The machine, checked.
fn checked(alloc: Global, machine: Machine, bytes: &[u8]) -> Result<Checked, LibFault>
    requires spelled { Spells bytes.now machine }
    requires few { HasFewSlots machine }
    ensures ok { IfOk result (λ m. IsLibrary bytes.now m) }
    ensures refused { IfErr result (IsRefused bytes.now) }
{
    match check(alloc, machine) {
        Ok(checked) => Ok(checked),
        Err(CheckFault::Bad(fault)) => Err(LibFault::Code(fault)),
        Err(CheckFault::NoMemory) => Err(LibFault::NoMemory),
    }
}

fn told(fault: FormatFault) -> LibFault
    ensures { result ≡ told fault }
{
    match fault {
        FormatFault::BadMagic => LibFault::BadMagic,
        FormatFault::BadVersion => LibFault::BadVersion,
        FormatFault::Truncated => LibFault::Truncated,
        FormatFault::BadField => LibFault::BadField,
        FormatFault::Trailing => LibFault::Trailing,
    }
}

/// The checked machine whose library the bytes are, or why they are none: the first refusal from the left,
/// each field being judged where it ends, and then the first fault of the machine. Memory is taken for what
/// was read, and never for a count alone; time and memory of the check are those of `code_check`.
pub fn decode(alloc: Global, bytes: &[u8]) -> Result<Checked, LibFault>
    requires { length bytes.now ≤ LIBRARY_LIMIT }
    ensures ok { IfOk result (λ m. IsLibrary bytes.now m) }
    ensures same { (m : Machine) → IsLibrary bytes.now m → IfOk result (λ read. read ≡ m) }
    ensures only { (m : Machine) → IsLibrary bytes.now m → IfErr result (λ fault. fault ≡ NoMemory) }
    ensures refused { IfErr result (IsRefused bytes.now) }
{
    match library_at(alloc, bytes) {
        Ok(machine) => checked(alloc, machine, bytes),
        Err(Unread::Refused(fault)) => Err(told(fault)),
        Err(Unread::Memory) => Err(LibFault::NoMemory),
    }
}
