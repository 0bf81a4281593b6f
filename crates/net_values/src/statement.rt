//! Statements of clocked processes.

ghost use Rattle.std.specs.Prelude.{◌≡◌};
ghost use Rattle.std.specs.List.{AllByRecursion, list_any};
ghost use Rattle.bit_ops.specs.Lists.{words, widths};
ghost use Rattle.net_ir.specs.Value.{widths_of};
ghost use Rattle.net_ir.specs.Lawful.{IsLawful, IsLawfulStmt};
ghost use Rattle.net_ir.specs.Target.{overlaid};
ghost use Rattle.net_ir.specs.Statement.{clocked_writes, has_label};
ghost use Rattle.net_values.specs.code.Arms.{HasLawfulLabels, IsLawfulInArm, labelled_arm, default_arm, taken_arm};

use crate::target::store;
use crate::term::evaluate;
use bit_ops::{Bits, Word};
use net_ir::{Arm, Stmt, Term, Var};

/// Whether a word is the value of one of the labels.
fn has_label(labels: &[Term], word: Word, seen: &[Bits]) -> bool
    requires { AllByRecursion (IsLawful (widths seen.now)) labels.now }
    ensures { result ≡ has_label (widths seen.now) (words seen.now) word labels.now }
{
    for label in labels {
        if evaluate(label, seen).word == word {
            return true;
        }
    }
    false
}

/// The number of the first arm with a label that equals the word.
fn labelled_arm(arms: &[Arm], word: Word, seen: &[Bits]) -> Option<usize>
    requires { AllByRecursion (HasLawfulLabels (widths seen.now)) arms.now }
    ensures { result ≡ labelled_arm (widths seen.now) (words seen.now) word arms.now }
{
    for number in 0..arms.len() {
        if has_label(arms[number].labels.as_slice(), word, seen) {
            return Some(number);
        }
    }
    None
}

/// The number of the arm without labels.
fn default_arm(arms: &[Arm]) -> Option<usize>
    ensures { result ≡ default_arm arms.now }
{
    arms.iter().position(|arm| arm.labels.is_empty())
}

/// The number of the arm that is taken, where one is.
fn taken_arm(arms: &[Arm], word: Word, seen: &[Bits]) -> Option<usize>
    requires { AllByRecursion (HasLawfulLabels (widths seen.now)) arms.now }
    ensures { result ≡ taken_arm (widths seen.now) (words seen.now) word arms.now }
{
    match labelled_arm(arms, word, seen) {
        Some(number) => Some(number),
        None => default_arm(arms),
    }
}

/// Executes a statement of a clocked process: every read is from `seen`, the values before the step, and what is written is changed in
/// `values` (IEEE 1800-2017, 4.9.4, 10.4, 12.4 and 12.5). A value for each variable stands in both lists. Takes no memory.
#[cycle(executing)]
pub fn execute(body: &Stmt, vars: &[Var], seen: &[Bits], values: &mut [Bits])
    requires lawful { IsLawfulStmt vars.now body.now }
    requires seen { widths seen.now ≡ widths_of vars.now }
    requires values { widths values.old ≡ widths_of vars.now }
    ensures widths { widths values.new ≡ widths_of vars.now }
    ensures words { words values.new ≡ overlaid (words values.old) (clocked_writes vars.now (words seen.now) body.now) }
{
    match body {
        Stmt::Block(parts) => {
            for part in parts.as_slice() {
                execute(part, vars, seen, values);
            }
        }
        Stmt::If(test, first, second) => {
            if evaluate(test, seen).word != 0 {
                execute(first.get(), vars, seen, values);
            } else {
                match second {
                    Some(second) => execute(second.get(), vars, seen, values),
                    None => {}
                }
            }
        }
        Stmt::Case(value, arms) => {
            let word = evaluate(value, seen).word;
            match taken_arm(arms.as_slice(), word, seen) {
                Some(number) => execute_arm(&arms.as_slice()[number], vars, seen, values),
                None => {}
            }
        }
        Stmt::Assign { target, value, .. } => {
            store(target, evaluate(value, seen), vars, seen, values);
        }
    }
}

/// Executes the body of an arm.
#[cycle(executing)]
fn execute_arm(arm: &Arm, vars: &[Var], seen: &[Bits], values: &mut [Bits])
    requires body { IsLawfulInArm vars.now arm.now }
    requires seen { widths seen.now ≡ widths_of vars.now }
    requires values { widths values.old ≡ widths_of vars.now }
    ensures widths { widths values.new ≡ widths_of vars.now }
    ensures words { words values.new ≡ overlaid (words values.old) (clocked_writes vars.now (words seen.now) arm.now.body) }
{
    execute(&arm.body, vars, seen, values);
}
