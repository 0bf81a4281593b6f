//! What an expression is by itself.

ghost use Rattle.std.specs.Prelude.{◌≡◌, ◌≤◌};
ghost use Rattle.bit_ops.specs.Width.{IsWidth};
ghost use Rattle.const_eval.specs.code.Waiting.{least_size};

use crate::pending::Pending;

/// The size and the sign that an expression has by itself, and its value, which waits for its context.
#[derive(Drop)]
pub struct Measured {
    pub size: u32,
    pub signed: bool,
    pub pending: Pending,
    pub ghost width: { IsWidth size },
    pub ghost least: { least_size pending ≤ size },
}
