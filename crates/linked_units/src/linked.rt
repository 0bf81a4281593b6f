//! Units that are linked.

ghost use Rattle.std.specs.Prelude.{◌≡◌, ◌<◌, ◌^◌, length, map, IfOk, IfErr, OnOk};
ghost use Rattle.linked_units.specs.Units.{AreJoined, AreChecked, AreWithinLimits, AreLinkedUnits, AreRefused, IsRoot, HasCode, kids_of};
ghost use Rattle.linked_units.specs.code.Sharing.{unit_of};

use crate::fault::LinkFault;
use crate::figures::{all_figures, passed};
use crate::unit::Unit;
use code_isa::Checked;
use std::alloc::{AllocError, Global};
use std::marker::Model;
use std::rc::Rc;
use sv_base::Sequence;

/// A unit whose code many models share.
#[derive(Drop)]
pub struct Shared {
    code: Rc<Checked>,
    kids: Sequence<u32>,
}

/// Units that are linked; contracts see them as the list of the units.
#[derive(Drop)]
pub struct Linked {
    units: Vec<Shared>,
}

impl Model for Linked {
    ghost use Rattle.std.specs.Prelude.{map};
    ghost use Rattle.linked_units.specs.Units.{Units, AreLinkedUnits};
    ghost use Rattle.linked_units.specs.code.Sharing.{unit_of};

    ghost Value = { Units };

    ghost view = { λ l. map unit_of l.units.items };

    ghost invariant = { λ l. AreLinkedUnits (map unit_of l.units.items) };
}

impl Linked {
    /// The number of the root, which is the last unit.
    pub fn root(&self) -> u32
        ensures last { IsRoot self.now result }
        ensures linked { AreLinkedUnits self.now }
    {
        (self.units.len() - 1) as u32
    }

    /// The code of a unit.
    pub fn code(&self, unit: u32) -> &Rc<Checked>
        requires { unit < length self.now }
        ensures { HasCode self.now unit result.now.value }
    {
        &self.units[unit as usize].code
    }

    /// The numbers of a unit's kids.
    pub fn kids(&self, unit: u32) -> &Sequence<u32>
        requires { unit < length self.now }
        ensures { result.now ≡ kids_of self.now unit }
    {
        &self.units[unit as usize].kids
    }
}

/// The units, each with its code once.
fn share(alloc: Global, units: Vec<Unit>) -> Result<Vec<Shared>, AllocError>
    ensures { IfOk result (λ shared. map unit_of shared.items ≡ units.items) }
{
    let mut all = Vec::new(alloc);
    for unit in units {
        let Unit { code, kids } = unit;
        let code = Rc::new(alloc, code)?;
        all.push(Shared { code, kids })?;
    }
    Ok(all)
}

/// The first limit that the tree below the last unit passes, if there is one.
fn judge(alloc: Global, units: &[Unit]) -> Result<(), LinkFault>
    requires some { 0 < length units.now }
    requires joined { AreJoined units.now }
    ensures within { OnOk result (AreWithinLimits units.now) }
    ensures checked { OnOk result (AreChecked units.now) }
    ensures refused { IfErr result (AreRefused units.now) }
{
    let figures = all_figures(alloc, units)?;
    match passed(figures[figures.len() - 1]) {
        Some(fault) => Err(fault),
        None => Ok(()),
    }
}

/// The units, linked, or the first limit that the tree below the last one passes. Time and memory grow with the number
/// of units and kids, and not with that of models.
pub fn from_units(alloc: Global, units: Vec<Unit>) -> Result<Linked, LinkFault>
    requires some { 0 < length units.items }
    requires few { length units.items < 2 ^ 32 }
    requires joined { AreJoined units.items }
    ensures ok { IfOk result (λ linked. linked ≡ units.items) }
    ensures within { OnOk result (AreWithinLimits units.items) }
    ensures refused { IfErr result (AreRefused units.items) }
{
    judge(alloc, units.as_slice())?;
    let units = share(alloc, units)?;
    Ok(Linked { units })
}
