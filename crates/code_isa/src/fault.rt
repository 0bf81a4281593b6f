//! What can be wrong with a machine.

/// Why a machine is not a checked one, in the order of the faults' numbers, `PortShape` being 1 and `ChainShort` 6. Of
/// several the one with the least number is told.
#[derive(Clone, Copy, Debug, PartialEq, Eq)]
pub enum CodeFault {
    /// In the machine's face or a child's, two ports have one name, a clock has more than one bit, or a row of the
    /// summary does not rise strictly or names a data input that is not there; or a register or a child names a clock
    /// that is not there.
    PortShape,
    /// An operand is not below its own instruction's slot, or a next, input or output slot is not there.
    SlotOrder,
    /// The widths of an operation do not fit, or a next, output or child's input slot has another width than its
    /// register, port or child's port.
    SlotWidth,
    /// An output slot of a child depends on itself.
    CycleInside,
    /// An output depends on a data input that its row does not name.
    SummaryShort,
    /// A path of dependence has more output slots of children than the chain says.
    ChainShort,
}
