//! Laws of the definitions. The functions do nothing: their clauses are the laws.

ghost use Rattle.std.specs.Prelude.{◌≡◌, List};
ghost use Rattle.sv_base.specs.declared.refusal.Refusal.{Refusal};
ghost use Rattle.sv_lexer.specs.declared.token.Token.{Token};
ghost use Rattle.sv_ast.specs.declared.module.Module.{Module};
ghost use Rattle.module_parser.specs.Outcome.{IsFile, IsRead, IsRefused};

/// Tokens are one list of modules at most.
pub fn one_file()
    ensures { (tokens : List Token) (a b : List Module) → IsFile tokens a → IsFile tokens b → a ≡ b }
{
    expr_parser::exact_reading();
    expr_parser::nothing_goes_on();
    expr_parser::one_tree();
    expr_parser::one_nesting();
}

/// One list of modules at most is read.
pub fn one_reading()
    ensures { (tokens : List Token) (a b : List Module) → IsRead tokens a → IsRead tokens b → a ≡ b }
{
    expr_parser::exact_reading();
    expr_parser::nothing_goes_on();
    expr_parser::one_tree();
    expr_parser::one_nesting();
}

/// There is one refusal at most.
pub fn one_refusal()
    ensures { (tokens : List Token) (a b : Refusal) → IsRefused tokens a → IsRefused tokens b → a ≡ b }
{
    expr_parser::exact_reading();
    expr_parser::nothing_goes_on();
    expr_parser::one_tree();
    expr_parser::one_nesting();
}

/// Where modules are read, nothing is refused.
pub fn not_both()
    ensures { (tokens : List Token) (modules : List Module) (refusal : Refusal) → IsRead tokens modules → IsRefused tokens refusal → ⊥ }
{
    expr_parser::exact_reading();
    expr_parser::nothing_goes_on();
    expr_parser::one_tree();
    expr_parser::one_nesting();
}
