//! The call of this crate.

ghost use Rattle.std.specs.Prelude.{◌≡◌, ◌≤◌, ◌*◌, ◌&&◌, not, ℕ, List, IfOk, IfErr, IfSome, Err};
ghost use Rattle.bit_ops.specs.Width.{IsWidth};
ghost use Rattle.sv_base.specs.Faults.{IfRefused};
ghost use Rattle.net_ir.specs.Value.{widths_of};
ghost use Rattle.net_ir.specs.Lawful.{IsLawful};
ghost use Rattle.width_rules.specs.Scope.{IsScope, AreWordsIn, meaning_in};
ghost use Rattle.width_rules.specs.Sized.{IsSized};
ghost use Rattle.const_eval.specs.Env.{bound_of};
ghost use Rattle.const_eval.specs.code.Agreeing.{Agrees};
ghost use Rattle.width_rules.specs.Built.{measured_of, term_of};
ghost use Rattle.width_rules.specs.Nodes.{nodes_of, parts_of};
ghost use Rattle.width_rules.specs.Assigning.{context_size, assigned_term};

use crate::building::cut_to;
use crate::fault::WidthFault;
use crate::measure::measure;
use crate::measured::Measured;
use crate::scope::Scope;
use crate::settle::settle;
use net_ir::Term;
use std::alloc::{AllocError, Global};
use sv_ast::Expr;

/// The size at which an expression of a size is taken where it has this target: the greater one.
fn context_size(target: Option<u32>, own: u32) -> u32
    ensures { result ≡ context_size target own }
{
    match target {
        Some(width) => width.max(own),
        None => own,
    }
}

/// Whether a context is signed: where the expression is, unless an unsigned one is asked for.
fn is_context_signed(unsigned: bool, signed: bool) -> bool
    ensures { result ≡ (not unsigned && signed) }
{
    !unsigned && signed
}

impl Measured {
    /// The term that is assigned to a target of this width, or of its own size where none is told, in an unsigned
    /// context where that is asked for, else in one of its own sign.
    pub fn assigned(
        self,
        alloc: Global,
        target: Option<u32>,
        unsigned: bool,
    ) -> Result<Term, AllocError>
        ensures term { IfOk result (λ t. t ≡ assigned_term self target unsigned) }
    {
        let own = self.size;
        let size = context_size(target, own);
        let signed = is_context_signed(unsigned, self.signed);
        let term = settle(alloc, self.pending, size, signed)?;
        cut_to(alloc, target.unwrap_or(own), size, term)
    }
}

/// What an expression is by itself, its size and its sign, with a term that waits for its context; or its first
/// refusal, as `sized` has it. Takes time linear in the expression.
pub fn sized_alone(alloc: Global, e: &Expr, scope: &Scope) -> Result<Measured, WidthFault>
    requires { IsScope scope.now }
    ensures built { Agrees (λ found told. found ≡ told) result
        (measured_of (bound_of scope.now.names) scope.now.vars e.now) }
{
    measure(alloc, scope, e)
}

/// The term of an expression with its sign.
fn termed(
    alloc: Global,
    e: &Expr,
    scope: &Scope,
    target: Option<u32>,
    unsigned: bool,
) -> Result<(Term, bool), WidthFault>
    requires { IsScope scope.now }
    ensures built { Agrees (λ answer told. answer ≡ told) result
        (term_of (bound_of scope.now.names) scope.now.vars target unsigned e.now) }
{
    let measured = measure(alloc, scope, e)?;
    let signed = measured.signed;
    Ok((measured.assigned(alloc, target, unsigned)?, signed))
}

/// The term of an expression with every size and sign decided, and the expression's own sign (IEEE 1800-2017, 11.6
/// to 11.8), or its first refusal, from left to right, parts before the whole: UnknownName for a name that is not
/// visible; NotConstant for a net or variable where a constant is needed, and for `**` and `$clog2`, which only
/// constants have; TooWide for more than `MAX_WIDTH` bits; BadRange for a width or count below 1, and for a select
/// on a name without a range. With a target the term has so many bits as the target: its value in the greater of the
/// target's size and its own, cut to the target; without one it has its own size. The context is signed where the
/// expression is, and unsigned where it is said so. Takes time linear in the expression; its term has at most 6
/// nodes for each node of the expression.
pub fn sized(
    alloc: Global,
    e: &Expr,
    scope: &Scope,
    target: Option<u32>,
    unsigned: bool,
) -> Result<(Term, bool), WidthFault>
    requires scope { IsScope scope.now }
    requires target { IfSome target IsWidth }
    ensures lawful { IfOk result (λ answer. IsLawful (widths_of scope.now.vars) answer.0) }
    ensures sized { (u : List ℕ) → AreWordsIn scope.now u
        → IfOk result (IsSized (widths_of scope.now.vars) u target unsigned (meaning_in scope.now u e.now)) }
    ensures refused { (u : List ℕ) → AreWordsIn scope.now u
        → IfErr result (IfRefused (λ refusal. meaning_in scope.now u e.now ≡ Err refusal)) }
    ensures nodes { IfOk result (λ answer. nodes_of answer.0 ≤ 6 * parts_of e.now) }
    ensures built { Agrees (λ answer told. answer ≡ told) result
        (term_of (bound_of scope.now.names) scope.now.vars target unsigned e.now) }
{
    crate::law::terms();
    termed(alloc, e, scope, target, unsigned)
}
