//! Terms in their context.

ghost use Rattle.std.specs.Prelude.{◌≡◌, IfOk};
ghost use Rattle.width_rules.specs.Waiting.{term_in, own_term, holds_term};

use crate::building::{change_by, choice_of, combined_to, extended_to, one_of, shift_by, two_of};
use crate::measured::Measured;
use crate::pending::Pending;
use bit_ops::Op;
use net_ir::Term;
use std::alloc::{AllocError, Global};

/// The term of a pending one in a context of this size and sign. It takes time and memory in the number of its nodes.
pub fn settle(alloc: Global, pending: Pending, size: u32, signed: bool) -> Result<Term, AllocError>
    ensures term { IfOk result (λ t. t ≡ term_in pending size signed) }
{
    match pending {
        Pending::Alone(width, term) => extended_to(alloc, size, signed, width, term),
        Pending::Fill(bit) => one_of(alloc, Op::Sext, size, Term::Const(bit)),
        Pending::Changed(change, a) => {
            let a = settle(alloc, a.into_inner(), size, signed)?;
            one_of(alloc, change_by(change), size, a)
        }
        Pending::Combined(operation, a, b) => {
            let a = settle(alloc, a.into_inner(), size, signed)?;
            let b = settle(alloc, b.into_inner(), size, signed)?;
            combined_to(alloc, operation, size, signed, a, b)
        }
        Pending::Shifted(shift, a, amount) => {
            let a = settle(alloc, a.into_inner(), size, signed)?;
            two_of(alloc, shift_by(shift, signed), size, a, amount)
        }
        Pending::Chosen(bit, a, b) => {
            let a = settle(alloc, a.into_inner(), size, signed)?;
            let b = settle(alloc, b.into_inner(), size, signed)?;
            choice_of(alloc, size, bit, a, b)
        }
    }
}

impl Measured {
    /// The term by itself.
    pub fn own(self, alloc: Global) -> Result<Term, AllocError>
        ensures term { IfOk result (λ t. t ≡ own_term self) }
    {
        settle(alloc, self.pending, self.size, self.signed)
    }

    /// A bit that says whether the value by itself is not 0.
    pub fn holds(self, alloc: Global) -> Result<Term, AllocError>
        ensures term { IfOk result (λ t. t ≡ holds_term self) }
    {
        let own = self.own(alloc)?;
        one_of(alloc, Op::RedOr, 1, own)
    }
}
