//! Laws of what expressions mean in a scope and of their terms: each is the contract of a function that does nothing, so
//! that a caller has the law by a call.

ghost use Rattle.std.specs.Prelude.{◌≤◌, ◌*◌, ℕ, Bool, List, Option, IfOk, IfSome};
ghost use Rattle.bit_ops.specs.Width.{IsWidth};
ghost use Rattle.sv_ast.specs.declared.expression.Expr.{Expr};
ghost use Rattle.net_ir.specs.declared.design.Var.{Var};
ghost use Rattle.net_ir.specs.Value.{widths_of};
ghost use Rattle.net_ir.specs.Lawful.{IsLawful};
ghost use Rattle.const_eval.specs.Env.{bound_of};
ghost use Rattle.const_eval.specs.Alike.{Alike, HaveSameShape};
ghost use Rattle.width_rules.specs.declared.scope.Scope.{Scope};
ghost use Rattle.width_rules.specs.Scope.{AreThere, IsScope, AreWordsIn, meaning_in};
ghost use Rattle.width_rules.specs.Sized.{IsSizedTerm, IsMeasuredIn};
ghost use Rattle.width_rules.specs.Nodes.{nodes_of, parts_of};
ghost use Rattle.width_rules.specs.Selecting.{Lookup};
ghost use Rattle.width_rules.specs.Built.{measured_of, term_of};

/// Whatever words nets and variables have, an expression has one refusal, or one size and one sign.
pub fn one_shape()
    ensures { (scope : Scope) (u v : List ℕ) (e : Expr)
        → Alike HaveSameShape (meaning_in scope u e) (meaning_in scope v e) }
{
    const_eval::law::words_of_nets();
}

/// Where an expression has a term, the term is lawful, has the size and the value that the expression has in its context
/// and is no longer than the expression allows; where it has none, it is refused as what it means is. The term is lawful
/// wherever the names of nets and variables stand for some that are there.
pub fn terms()
    ensures lawful { (scope : Scope) (target : Option ℕ) (unsigned : Bool) (e : Expr) → IsScope scope → IfSome target IsWidth
        → IfOk (term_of (bound_of scope.names) scope.vars target unsigned e) (λ answer. IsLawful (widths_of scope.vars) answer.0) }
    ensures sized { (scope : Scope) (u : List ℕ) (target : Option ℕ) (unsigned : Bool) (e : Expr) → IsScope scope
        → IfSome target IsWidth → AreWordsIn scope u
        → Alike (λ answer m. IsSizedTerm (widths_of scope.vars) u target unsigned m answer.0 answer.1)
        (term_of (bound_of scope.names) scope.vars target unsigned e) (meaning_in scope u e) }
    ensures measured { (lookup : Lookup) (vars : List Var) (e : Expr) → AreThere lookup vars
        → IfOk (measured_of lookup vars e) (IsMeasuredIn (widths_of vars)) }
    ensures nodes { (lookup : Lookup) (vars : List Var) (target : Option ℕ) (unsigned : Bool) (e : Expr)
        → IfOk (term_of lookup vars target unsigned e) (λ answer. nodes_of answer.0 ≤ 6 * parts_of e) }
{
    net_ir::law::lawful_values();
    bit_ops::laws::extension_then_cut();
    bit_ops::laws::signed_numbers();
    const_eval::law::sizes_and_values();
}
