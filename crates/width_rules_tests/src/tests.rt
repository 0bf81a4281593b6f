ghost use Rattle.std.specs.Prelude.{◌≡◌, IfOk, IfSome};
ghost use Rattle.bit_ops.specs.Width.{IsWidth};
ghost use Rattle.bit_ops.specs.Lists.{widths};
ghost use Rattle.net_ir.specs.Value.{widths_of};
ghost use Rattle.width_rules.specs.Scope.{IsScope};

use crate::made_rows::{
    EIGHTH, EIGHTH_WORDS, FIFTH, FIFTH_WORDS, FIRST, FIRST_WORDS, FOURTH, FOURTH_WORDS, MADE,
    SECOND, SECOND_WORDS, SEVENTH, SEVENTH_WORDS, SIXTH, SIXTH_WORDS, THIRD, THIRD_WORDS,
};
use crate::rows::{
    ARITHMETIC, DECLARED, REFUSED, SELECTS_AND_JOINS, SHIFTS_AND_CHOICES, UNSIGNED, WORDS,
};
use bit_ops::{Bits, MAX_WIDTH, Word};
use const_eval::{Bound, Const, Env};
use expr_parser::{ParseFault, parse_expr};
use net_ir::{Role, Term, Var};
use net_values::evaluate;
use std::alloc::{AllocError, Global};
use std::process::Abort;
use std::test::Fail;
use sv_ast::Expr;
use sv_base::{Name, Place, Refusal, Sequence};
use sv_lexer::{Token, lex};
use width_rules::{Scope, WidthFault, sized};

/// A net or variable of a width that a value may have, which is told of the widths here.
fn var(rt: &impl Abort, alloc: Global, width: u32, signed: bool, low: Option<u32>) -> Var
    ensures { IsWidth result.width }
{
    assert!(rt; width >= 1 && width <= MAX_WIDTH);
    Var {
        name: Name::empty(alloc),
        place: Place::NOWHERE,
        role: Role::Inner,
        width,
        low: low.unwrap_or(0),
        ranged: low.is_some(),
        signed,
        wire: false,
        init: Bits::zero(width),
    }
}

/// The nets and variables that are declared, by their names, and the constant `Q` with the range `[11:4]`.
fn scope_of(
    rt: &impl Abort,
    alloc: Global,
    declared: &[(&str, u32, bool, Option<u32>)],
) -> Result<Scope, AllocError>
    ensures { IfOk result IsScope }
{
    assert!(rt; declared.len() < 100);
    let mut names = Env::new(alloc);
    let mut vars = Sequence::new(alloc);
    let value = Const {
        value: Bits::truncated(8, 0xa5),
        signed: false,
    };
    let constant = Name::of(alloc, b"Q")?;
    names.declare(alloc, &constant, Bound::Constant { value, low: 4 })?;
    for (number, (name, width, signed, low)) in declared.iter().enumerate() {
        let name = Name::of(alloc, name.as_bytes())?;
        names.declare(alloc, &name, Bound::Variable(number as u32))?;
        vars.push(var(rt, alloc, *width, *signed, *low))?;
    }
    Ok(Scope { names, vars })
}

/// Values of nets and variables, which have these words, or 0 where there are too few.
fn values_of(
    rt: &impl Abort,
    alloc: Global,
    vars: &[Var],
    words: &[Word],
) -> Result<Vec<Bits>, AllocError>
    ensures { IfOk result (λ values. widths values.items ≡ widths_of vars.now) }
{
    let mut values = Vec::new(alloc);
    for (number, var) in vars.iter().enumerate() {
        let width = var.width;
        assert!(rt; width >= 1 && width <= MAX_WIDTH);
        let word = words.get(number).copied().unwrap_or(0);
        values.push(Bits::truncated(width, word))?;
    }
    Ok(values)
}

fn show(alloc: Global, value: Bits, signed: bool) -> Result<String, AllocError> {
    let width = value.width;
    let word = value.word;
    if signed {
        format!(in alloc; "{width} s {word:x}")
    } else {
        format!(in alloc; "{width} u {word:x}")
    }
}

fn show_refusal(alloc: Global, refusal: &Refusal) -> Result<String, AllocError> {
    let line = refusal.place.line;
    let mut out = if line == 1 {
        String::new(alloc)
    } else {
        format!(in alloc; "{line}: ")?
    };
    out.push_str(refusal.kind.text())?;
    if !refusal.name.bytes().is_empty() {
        out.push(' ')?;
    }
    for byte in refusal.name.bytes() {
        out.push(char::from(*byte))?;
    }
    Ok(out)
}

/// The tokens of the text, whose first line is line 1 of file 1.
fn tokens_of(alloc: Global, text: &str) -> Result<Vec<Token>, Fail> {
    Ok(lex(alloc, 1, text.as_bytes())?.into_vec())
}

fn tree_of(alloc: Global, tokens: &Vec<Token>) -> Result<Expr, ParseFault> {
    let (tree, _) = parse_expr(alloc, tokens, 0, 0)?;
    Ok(tree)
}

/// What the term of a tree is, as a row says it.
fn told(
    alloc: Global,
    tree: &Expr,
    scope: &Scope,
    values: &[Bits],
    target: Option<u32>,
    unsigned: bool,
) -> Result<String, AllocError>
    requires scope { IsScope scope.now }
    requires values { widths values.now ≡ widths_of scope.now.vars }
    requires target { IfSome target IsWidth }
{
    match sized(alloc, tree, scope, target, unsigned) {
        Ok((term, signed)) => show(alloc, evaluate(&term, values), signed),
        Err(WidthFault::Refused(refusal)) => show_refusal(alloc, &refusal),
        Err(WidthFault::NoMemory) => Err(AllocError),
    }
}

/// What an expression is among these nets and variables, as a row says it.
fn outcome(
    rt: &impl Abort,
    alloc: Global,
    scope: &Scope,
    words: &[Word],
    text: &str,
    target: Option<u32>,
    unsigned: bool,
) -> Result<String, Fail>
    requires { IsScope scope.now }
{
    let width = target.unwrap_or(1);
    assert!(rt; width >= 1 && width <= MAX_WIDTH);
    let values = values_of(rt, alloc, scope.vars.as_slice(), words)?;
    let tokens = tokens_of(alloc, text)?;
    let tree = tree_of(alloc, &tokens)?;
    Ok(told(alloc, &tree, scope, &values, target, unsigned)?)
}

fn each_of(
    rt: &impl Abort,
    alloc: Global,
    scope: &Scope,
    words: &[Word],
    unsigned: bool,
    rows: &[(&str, Option<u32>, &str)],
) -> Result<(), Fail>
    requires { IsScope scope.now }
{
    for (text, target, expected) in rows {
        let found = outcome(rt, alloc, scope, words, *text, *target, unsigned)?;
        assert_eq!(rt; found.as_str(), *expected, "{text:?}");
    }
    Ok(())
}

/// Rows by hand are as they say.
fn each_is_told(
    rt: &impl Abort,
    alloc: Global,
    unsigned: bool,
    rows: &[(&str, Option<u32>, &str)],
) -> Result<(), Fail> {
    let scope = scope_of(rt, alloc, &DECLARED)?;
    each_of(rt, alloc, &scope, &WORDS, unsigned, rows)
}

/// Rows of the script are as they say.
fn each_is_made(
    rt: &impl Abort,
    alloc: Global,
    words: &[Word],
    unsigned: bool,
    rows: &[(&str, Option<u32>, &str)],
) -> Result<(), Fail> {
    let scope = scope_of(rt, alloc, &MADE)?;
    each_of(rt, alloc, &scope, words, unsigned, rows)
}

#[test]
fn rows_by_hand(rt: HostRuntime) -> Result<(), Fail> {
    each_is_told(&rt, rt.alloc(), false, &ARITHMETIC)?;
    each_is_told(&rt, rt.alloc(), false, &SHIFTS_AND_CHOICES)?;
    each_is_told(&rt, rt.alloc(), false, &SELECTS_AND_JOINS)?;
    each_is_told(&rt, rt.alloc(), true, &UNSIGNED)
}

#[test]
fn refusals(rt: HostRuntime) -> Result<(), Fail> {
    each_is_told(&rt, rt.alloc(), false, &REFUSED)
}

#[test]
fn made_rows(rt: HostRuntime) -> Result<(), Fail> {
    each_is_made(&rt, rt.alloc(), &FIRST_WORDS, false, &FIRST)?;
    each_is_made(&rt, rt.alloc(), &SECOND_WORDS, false, &SECOND)?;
    each_is_made(&rt, rt.alloc(), &THIRD_WORDS, false, &THIRD)?;
    each_is_made(&rt, rt.alloc(), &FOURTH_WORDS, true, &FOURTH)
}

#[test]
fn more_made_rows(rt: HostRuntime) -> Result<(), Fail> {
    each_is_made(&rt, rt.alloc(), &FIFTH_WORDS, false, &FIFTH)?;
    each_is_made(&rt, rt.alloc(), &SIXTH_WORDS, false, &SIXTH)?;
    each_is_made(&rt, rt.alloc(), &SEVENTH_WORDS, false, &SEVENTH)?;
    each_is_made(&rt, rt.alloc(), &EIGHTH_WORDS, true, &EIGHTH)
}

/// How many nodes a term has.
fn nodes_of(term: &Term) -> u32 {
    match term {
        Term::Const(_) | Term::Read { .. } => 1,
        Term::Pick { base, at, .. } => nodes_of(base.get())
            .saturating_add(nodes_of(at.get()))
            .saturating_add(1),
        Term::Apply { args, .. } => {
            let mut count: u32 = 1;
            for arg in args.as_slice() {
                count = count.saturating_add(nodes_of(arg));
            }
            count
        }
    }
}

/// A part stands once in the term of a replication.
#[test]
fn a_replication_is_small(rt: HostRuntime) -> Result<(), Fail> {
    let scope = scope_of(&rt, rt.alloc(), &DECLARED)?;
    let tokens = tokens_of(rt.alloc(), "^{64{^{64{^{64{x}}}}}}")?;
    let tree = tree_of(rt.alloc(), &tokens)?;
    let Ok((term, _)) = sized(rt.alloc(), &tree, &scope, None, false) else {
        return Err("it is refused")?;
    };
    assert!(rt; nodes_of(&term) <= 24);
    Ok(())
}
