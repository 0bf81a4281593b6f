//! What has a size by itself.

ghost use Rattle.std.specs.Prelude.{◌≡◌};
ghost use Rattle.width_rules.specs.Operations as spec;

use crate::measured::Measured;
use crate::pending::Pending;
use net_ir::Term;

/// A term with a size and a sign of its own.
pub fn alone(size: u32, term: Term, signed: bool) -> Measured
    ensures built { result ≡ spec.alone size signed term }
{
    Measured {
        size,
        signed,
        pending: Pending::Alone(size, term),
    }
}
