//! Why the ports of a module have no classes.

ghost use Rattle.std.specs.Prelude.{◌≡◌};
ghost use Rattle.sv_base.specs.Faults.{IfRefused};

use std::alloc::Global;
use sv_base::{Kind, Name, Place, Refusal};

/// Why the ports of a module have no classes. Refused is ClockNotPort, ClockNotPlain or ClockRead, with the
/// name and its place.
pub type ClockFault = sv_base::Fault;

/// The refusal of a name at a place.
pub fn refuse(alloc: Global, kind: Kind, place: Place, name: &[u8]) -> ClockFault
    ensures { IfRefused (λ refusal. refusal ≡ record { kind = kind; place = place; name = name.now }) result }
{
    match Name::of(alloc, name) {
        Ok(name) => ClockFault::Refused(Refusal { kind, place, name }),
        Err(_) => ClockFault::NoMemory,
    }
}
