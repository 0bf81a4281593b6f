//! Expressions over the names that are visible so far.

ghost use Rattle.std.specs.Prelude.{◌≡◌, false, Some, IfSome};
ghost use Rattle.bit_ops.specs.Width.{IsWidth};
ghost use Rattle.const_eval.specs.Meaning.{assigned};
ghost use Rattle.const_eval.specs.code.Agreeing.{Agrees};
ghost use Rattle.width_rules.specs.Built.{measured_of};
ghost use Rattle.width_rules.specs.Values.{bits_of, const_of};
ghost use Rattle.elaborate.specs.Names.{bounds, constant_at, term_at};
ghost use Rattle.elaborate.specs.code.Walking.{reached, seen_in, IsSound};

use crate::walk::Walk;
use bit_ops::Bits;
use const_eval::{Const, assigned_constant, constant};
use net_ir::Term;
use std::alloc::Global;
use sv_ast::Expr;
use sv_base::Fault;
use width_rules::{Measured, sized, sized_alone};

impl Walk {
    /// The value of a constant expression.
    pub fn constant(&self, alloc: Global, e: &Expr) -> Result<Const, Fault>
        ensures { Agrees (λ found m. found ≡ const_of m) result (constant_at (seen_in self.now) e.now) }
    {
        constant(alloc, e, &self.scope.names)
    }

    /// The value of a constant expression as it is assigned to so many bits.
    pub fn initial(&self, alloc: Global, e: &Expr, width: u32) -> Result<Bits, Fault>
        requires { IsWidth width }
        ensures { Agrees (λ found m. found ≡ bits_of width (assigned (Some width) false m)) result (constant_at (seen_in self.now) e.now) }
    {
        assigned_constant(alloc, e, &self.scope.names, width)
    }

    /// The term of an expression, and its own sign, as `sized` has them.
    pub fn term(
        &self,
        alloc: Global,
        e: &Expr,
        target: Option<u32>,
        unsigned: bool,
    ) -> Result<(Term, bool), Fault>
        requires sound { IsSound (reached self.now) }
        requires target { IfSome target IsWidth }
        ensures { Agrees (λ found term. found ≡ term) result (term_at (seen_in self.now) self.now.scope.vars target unsigned e.now) }
    {
        sized(alloc, e, &self.scope, target, unsigned)
    }

    /// What an expression is by itself.
    pub fn measured(&self, alloc: Global, e: &Expr) -> Result<Measured, Fault>
        requires { IsSound (reached self.now) }
        ensures { Agrees (λ found m. found ≡ m) result (measured_of (bounds (seen_in self.now)) self.now.scope.vars e.now) }
    {
        sized_alone(alloc, e, &self.scope)
    }
}
