//! The statements of a process (IEEE 1800-2017, clause 12, 9.3.5 and 10.4).

ghost use Rattle.std.specs.Prelude.{◌≡◌, map, IfOk, OnOk};
ghost use Rattle.const_eval.specs.code.Agreeing.{Agrees};
ghost use Rattle.elaborate.specs.Targets.{all_of};
ghost use Rattle.elaborate.specs.Statements as spec;
ghost use Rattle.elaborate.specs.code.Walking.{reached, seen_in, IsSound, IsGiven};

use crate::assignment::assignment;
use crate::refusal::not_yet;
use crate::target::place_of;
use crate::walk::Walk;
use net_ir::{Arm, Stmt, Term};
use sqlite_items::{Boxed, Items};
use std::alloc::{AllocError, Global};
use sv_ast::{CaseItem, Expr, Id, Lval};
use sv_base::{Fault, Sequence};
use width_rules::Measured;

/// An arm that waits for the size at which all are compared.
#[derive(Drop)]
pub struct Waiting {
    pub labels: Sequence<Measured>,
    pub body: Stmt,
}

/// An assignment in a process.
fn procedural(alloc: Global, walk: &mut Walk, to: &Lval, sign: &Id, e: &Expr) -> Result<Stmt, Fault>
    requires sound { IsSound (reached walk.old) }
    ensures given { IsGiven (spec.procedural to.now sign.now e.now) walk.old walk.new result }
    ensures sound { OnOk result (IsSound (reached walk.new)) }
{
    let (target, value) = assignment(alloc, walk, false, to, e)?;
    walk.count(alloc, place_of(to))?;
    Ok(Stmt::Assign {
        blocking: sign.name.bytes() == "=".as_bytes(),
        target,
        value,
    })
}

/// The labels of an arm, from the left.
fn measured_labels(alloc: Global, walk: &Walk, labels: &[Expr]) -> Result<Sequence<Measured>, Fault>
    requires { IsSound (reached walk.now) }
    ensures { Agrees (λ found ms. found ≡ ms) result (all_of (spec.measured_each (seen_in walk.now) walk.now.scope.vars labels.now)) }
{
    let mut found = Sequence::new(alloc);
    let mut rest = labels;
    while let [label, behind @ ..] = rest {
        found.push(walk.measured(alloc, label)?)?;
        rest = behind;
    }
    Ok(found)
}

/// The greatest size among these and `size`, and whether all are signed, as those before were.
fn meeting(size: u32, signed: bool, labels: &[Measured]) -> (u32, bool)
    ensures size { result.0 ≡ spec.greatest size labels.now }
    ensures signed { result.1 ≡ spec.are_signed signed labels.now }
{
    let mut greatest = size;
    let mut all = signed;
    let mut rest = labels;
    while let [label, behind @ ..] = rest {
        greatest = greatest.max(label.size);
        all = all && label.signed;
        rest = behind;
    }
    (greatest, all)
}

/// So with the labels of all arms.
fn meeting_arms(size: u32, signed: bool, arms: &[Waiting]) -> (u32, bool)
    ensures size { result.0 ≡ spec.case_size size arms.now }
    ensures signed { result.1 ≡ spec.case_signed signed arms.now }
{
    let mut greatest = size;
    let mut all = signed;
    let mut rest = arms;
    while let [arm, behind @ ..] = rest {
        let (size, signed) = meeting(greatest, all, arm.labels.as_slice());
        greatest = size;
        all = signed;
        rest = behind;
    }
    (greatest, all)
}

/// Labels as they are compared.
fn labels_at(
    alloc: Global,
    size: u32,
    signed: bool,
    labels: Sequence<Measured>,
) -> Result<Sequence<Term>, AllocError>
    ensures { IfOk result (λ found. found ≡ spec.terms_of size signed labels) }
{
    let mut found = Sequence::new(alloc);
    for label in labels.into_vec() {
        found.push(label.assigned(alloc, Some(size), !signed)?)?;
    }
    Ok(found)
}

/// Arms whose labels are taken at the size and the sign at which all are compared.
fn arms_at(
    alloc: Global,
    size: u32,
    signed: bool,
    waiting: Sequence<Waiting>,
) -> Result<Items<Arm>, AllocError>
    ensures { IfOk result (λ arms. arms ≡ spec.arms_of size signed waiting) }
{
    let mut arms = Items::new(alloc);
    for Waiting { labels, body } in waiting.into_vec() {
        let labels = labels_at(alloc, size, signed, labels)?;
        arms.push(Arm { labels, body })?;
    }
    Ok(arms)
}

/// A `case`: its expression and all labels are taken at the greatest size among them, and signed only where all are
/// (12.5).
fn case_of(alloc: Global, value: Measured, waiting: Sequence<Waiting>) -> Result<Stmt, AllocError>
    ensures { IfOk result (λ made. made ≡ spec.case_of value waiting) }
{
    let (size, signed) = meeting_arms(value.size, value.signed, waiting.as_slice());
    let value = value.assigned(alloc, Some(size), !signed)?;
    let arms = arms_at(alloc, size, signed, waiting)?;
    Ok(Stmt::Case(value, arms))
}

/// A statement, from left to right, parts before the whole. Labels of blocks are names of the module.
#[cycle(statements)]
pub fn statement(alloc: Global, walk: &mut Walk, s: &sv_ast::Stmt) -> Result<Stmt, Fault>
    requires sound { IsSound (reached walk.old) }
    ensures given { IsGiven (spec.statement s.now) walk.old walk.new result }
    ensures sound { OnOk result (IsSound (reached walk.new)) }
{
    match s {
        sv_ast::Stmt::Block(label, parts) => {
            walk.label(alloc, label)?;
            Ok(Stmt::Block(statements(alloc, walk, parts.as_slice())?))
        }
        sv_ast::Stmt::If(_, test, first, second) => {
            let (test, _) = walk.term(alloc, test, None, false)?;
            let first = boxed(alloc, walk, first.get())?;
            let second = match second {
                Some(second) => Some(boxed(alloc, walk, second.get())?),
                None => None,
            };
            Ok(Stmt::If(test, first, second))
        }
        sv_ast::Stmt::Case(_, value, items) => {
            let value = walk.measured(alloc, value)?;
            let arms = arms(alloc, walk, items.as_slice())?;
            Ok(case_of(alloc, value, arms)?)
        }
        sv_ast::Stmt::For(_, _, _) => Err(not_yet(alloc)?),
        sv_ast::Stmt::Assign(to, sign, e) => procedural(alloc, walk, to, sign, e),
        sv_ast::Stmt::Empty => Ok(Stmt::Block(Items::new(alloc))),
    }
}

/// A statement on the heap.
#[cycle(statements)]
fn boxed(alloc: Global, walk: &mut Walk, s: &sv_ast::Stmt) -> Result<Boxed<Stmt>, Fault>
    requires sound { IsSound (reached walk.old) }
    ensures given { IsGiven (spec.statement s.now) walk.old walk.new result }
    ensures sound { OnOk result (IsSound (reached walk.new)) }
{
    let made = statement(alloc, walk, s)?;
    Ok(Boxed::new(alloc, made)?)
}

/// Statements one behind another.
#[cycle(statements)]
fn statements(alloc: Global, walk: &mut Walk, parts: &[sv_ast::Stmt]) -> Result<Items<Stmt>, Fault>
    requires sound { IsSound (reached walk.old) }
    ensures given { IsGiven (spec.sequence (map spec.statement parts.now)) walk.old walk.new result }
    ensures sound { OnOk result (IsSound (reached walk.new)) }
{
    let mut found = Items::new(alloc);
    for part in parts {
        found.push(statement(alloc, walk, part)?)?;
    }
    Ok(found)
}

/// Arms one behind another: of each its labels, then its body.
#[cycle(statements)]
fn arms(alloc: Global, walk: &mut Walk, items: &[CaseItem]) -> Result<Sequence<Waiting>, Fault>
    requires sound { IsSound (reached walk.old) }
    ensures given { IsGiven (spec.sequence (map spec.arm_of items.now)) walk.old walk.new result }
    ensures sound { OnOk result (IsSound (reached walk.new)) }
{
    let mut found = Sequence::new(alloc);
    for item in items {
        let labels = measured_labels(alloc, walk, item.labels.as_slice())?;
        let body = statement(alloc, walk, &item.body)?;
        found.push(Waiting { labels, body })?;
    }
    Ok(found)
}
