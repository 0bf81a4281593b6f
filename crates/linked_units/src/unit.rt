//! A unit, which names its kids by number.

use code_isa::Checked;
use sv_base::Sequence;

/// A checked machine, and for each of its children the number of the unit that stands for it.
#[derive(Debug, Drop)]
pub struct Unit {
    pub code: Checked,
    pub kids: Sequence<u32>,
}
