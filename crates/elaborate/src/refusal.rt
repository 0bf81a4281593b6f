//! Refusals that name what is declared or assigned, or a limit.

ghost use Rattle.std.specs.Prelude.{◌≡◌, IfOk};
ghost use Rattle.std.specs.Option.{option_copied};
ghost use Rattle.sv_base.specs.Faults.{IfRefused};
ghost use Rattle.sv_base.specs.declared.fault.Fault.TheVariants.{Refused};
ghost use Rattle.sv_base.specs.declared.kind.Kind.TheVariants.{TooWide};
ghost use Rattle.const_eval.specs.Expressions.{refused_at};
ghost use Rattle.elaborate.specs.Refusals as spec;
ghost use Rattle.elaborate.specs.code.Walking.{IsTold, IsToldOfFirst};

use const_eval::refuse::refused_at;
use std::alloc::{AllocError, Global};
use sv_ast::Id;
use sv_base::{Fault, Kind, Name, Place, Refusal};

/// A refusal of too many bits is told of this name.
pub fn told_of(alloc: Global, name: &Id, fault: Fault) -> Fault
    ensures { IsTold name.now fault result }
{
    match fault {
        Fault::Refused(refusal) if refusal.kind == Kind::TooWide => too_wide(alloc, name),
        other => other,
    }
}

/// The refusal of a name for too many bits.
pub fn too_wide(alloc: Global, name: &Id) -> Fault
    ensures { IfRefused (λ refusal. refusal ≡ refused_at TooWide name.now) result }
{
    match refused_at(alloc, Kind::TooWide, name) {
        Ok(fault) => fault,
        Err(_) => Fault::NoMemory,
    }
}

/// So with the first of several names, where there is one.
pub fn told_of_first(alloc: Global, name: Option<&Id>, fault: Fault) -> Fault
    ensures { IsToldOfFirst (option_copied name.entry) fault result }
{
    match name {
        Some(name) => told_of(alloc, name, fault),
        None => fault,
    }
}

/// More of something than its limit, at a place, by the word of the limit.
pub fn too_many(alloc: Global, word: &[u8], place: Place) -> Result<Fault, AllocError>
    ensures { IfOk result (λ fault. fault ≡ Refused (spec.too_many word.now place)) }
{
    Ok(Fault::Refused(Refusal {
        kind: Kind::TooMany,
        place,
        name: Name::of(alloc, word)?,
    }))
}

/// What is not elaborated so far.
pub fn not_yet(alloc: Global) -> Result<Fault, AllocError>
    ensures { IfOk result (λ fault. fault ≡ Refused spec.not_yet) }
{
    Ok(Fault::Refused(Refusal {
        kind: Kind::Unsupported,
        place: Place::NOWHERE,
        name: Name::of(alloc, b"plain")?,
    }))
}
