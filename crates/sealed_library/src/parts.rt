//! What stands behind the chain of a machine.

use code_isa::{Instr, Kid, Reg};
use sv_base::Sequence;

/// The registers, the children, the code and the slots of the outputs of a machine.
#[derive(Debug, Drop)]
pub struct Parts {
    pub regs: Sequence<Reg>,
    pub kids: Sequence<Kid>,
    pub code: Sequence<Instr>,
    pub outs: Sequence<u64>,
}
