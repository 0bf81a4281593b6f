//! The check of a machine.

ghost use Rattle.std.specs.Prelude.{◌≡◌, ◌↔◌, IsTrue, IfOk, IfErr, OnOk};
ghost use Rattle.code_isa.specs.Checks.{IsChecked};
ghost use Rattle.code_check.specs.Told.{HasFewSlots, TellsFirstFault};

use crate::fault::CheckFault;
use crate::verdict::examine;
use code_isa::{Checked, Machine, slot_count};
use std::alloc::Global;

/// Whether a machine has fewer than 4,294,967,296 slots, so that `check` takes it.
pub fn has_few_slots(m: &Machine) -> bool
    ensures { IsTrue result ↔ HasFewSlots m.now }
{
    slot_count(m) < 0x1_0000_0000
}

/// The machine as a checked one, or the first of its faults. Of several faults the one with the least number is told.
///
/// Time and memory grow with the number of slots times that of the data inputs, 64 inputs a word; the stack does not
/// grow with the machine. What the machine owns is kept, so the answer shares no memory with it.
pub fn check(alloc: Global, m: Machine) -> Result<Checked, CheckFault>
    requires { HasFewSlots m }
    ensures ok { IfOk result (λ checked. checked ≡ m) }
    ensures fault { IfErr result (TellsFirstFault m) }
{
    examine(alloc, &m)?;
    Ok(Checked::of(m))
}
