//! Refusals of expressions, and widths.

ghost use Rattle.std.specs.Prelude.{◌≡◌, pos, IfOk};
ghost use Rattle.sv_base.specs.declared.fault.Fault.TheVariants.{Refused};
ghost use Rattle.bit_ops.specs.Width.{IsWidth};
ghost use Rattle.const_eval.specs.Expressions as spec;
ghost use Rattle.const_eval.specs.code.Agreeing.{Agrees};
ghost use Rattle.sv_base.specs.declared.kind.Kind.TheVariants.{BadRange};

use crate::fault::ConstFault;
use bit_ops::{MAX_WIDTH, Word};
use std::alloc::{AllocError, Global};
use sv_ast::Id;
use sv_base::{Kind, Name, Place, Refusal};

/// The refusal of a name, a sign or a number.
pub fn refused_at(alloc: Global, kind: Kind, id: &Id) -> Result<ConstFault, AllocError>
    ensures { IfOk result (λ fault. fault ≡ Refused (spec.refused_at kind id.now)) }
{
    Ok(ConstFault::Refused(Refusal {
        kind,
        place: id.place,
        name: Name::of(alloc, id.name.bytes())?,
    }))
}

/// A refusal that has no name.
pub fn unnamed_at(alloc: Global, kind: Kind, place: Place) -> ConstFault
    ensures { result ≡ Refused (spec.unnamed_at kind place) }
{
    ConstFault::Refused(Refusal {
        kind,
        place,
        name: Name::empty(alloc),
    })
}

/// The refusal of a second select, at its `[`.
pub fn second_select(alloc: Global, place: Place) -> Result<ConstFault, AllocError>
    ensures { IfOk result (λ fault. fault ≡ Refused (spec.second_select place)) }
{
    Ok(ConstFault::Refused(Refusal {
        kind: Kind::Unexpected,
        place,
        name: Name::of(alloc, b"[")?,
    }))
}

/// A count as the width of a part of a name.
pub fn part_width(alloc: Global, name: &Id, width: Word) -> Result<u32, ConstFault>
    ensures width { IfOk result IsWidth }
    ensures told { Agrees (λ w n. w ≡ n) result
        (spec.as_width (spec.refused_at BadRange name.now) name.now.place (pos width)) }
{
    if width == 0 {
        Err(refused_at(alloc, Kind::BadRange, name)?)
    } else if width > Word::from(MAX_WIDTH) {
        Err(unnamed_at(alloc, Kind::TooWide, name.place))
    } else {
        Ok(width as u32)
    }
}
