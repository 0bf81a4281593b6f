//! A machine that is known to be checked.

ghost use Rattle.std.specs.Prelude.{◌≡◌, IfOk};
ghost use Rattle.code_isa.specs.Checks.{IsChecked};

use crate::copies::copy_machine;
use crate::machine::Machine;
use std::alloc::{AllocError, Global};
use std::marker::Model;

/// A machine that has none of the faults; contracts see it as its machine.
#[derive(Debug, Drop)]
pub struct Checked {
    machine: Machine,
}

impl Model for Checked {
    ghost use Rattle.code_isa.specs.declared.machine.Machine.{Machine};
    ghost use Rattle.code_isa.specs.Checks.{IsChecked};

    ghost Value = { Machine };

    ghost view = { λ c. c.machine };

    ghost invariant = { λ c. IsChecked c.machine };
}

impl Checked {
    /// The machine, which the caller knows to be checked. Takes no memory.
    pub fn of(m: Machine) -> Checked
        requires { IsChecked m }
        ensures { result ≡ m }
    {
        Checked { machine: m }
    }

    pub fn machine(&self) -> &Machine
        ensures same { result.now ≡ self.now }
        ensures checked { IsChecked self.now }
    {
        &self.machine
    }

    /// An equal machine, with memory of its own.
    pub fn copy(&self, alloc: Global) -> Result<Checked, AllocError>
        ensures { IfOk result (λ c. c ≡ self.now) }
    {
        let machine = copy_machine(alloc, self.machine())?;
        Ok(Checked::of(machine))
    }
}
