//! What may happen in a world.

/// One activation of the own code of a unit, an update of a child, or a part of a step of clocks. Children are counted
/// from 0.
#[derive(Clone, Copy, Debug, PartialEq, Eq)]
pub enum Event {
    /// The own code is run.
    Own,
    /// The words of the slots that a child is joined to are delivered to it, and its outputs are taken.
    Update(u32),
    /// The registers whose edge occurs are sampled.
    StrikeOwn,
    /// A child makes its step of the clocks.
    Strike(u32),
    /// The registers get what was sampled, and the children show their new outputs.
    Commit,
}
