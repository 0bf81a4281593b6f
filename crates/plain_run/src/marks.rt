//! The variables that targets name, in lists and as marks.

ghost use Rattle.std.specs.Prelude.{◌≡◌, ◌++◌, OnOk};
ghost use Rattle.net_ir.specs.Target.{target_vars, var_list};
ghost use Rattle.net_ir.specs.Marks.{mark_all};
ghost use Rattle.plain_run.specs.code.Marks.{named_in, named_in_arm};

use net_ir::marks::mark_named;
use net_ir::{Arm, Stmt, Target};
use std::alloc::AllocError;

/// Adds the variable that a name means, where it means one.
fn push_named(var: Option<u32>, names: &mut Vec<u32>) -> Result<(), AllocError>
    ensures { OnOk result (names.new.items ≡ names.old.items ++ var_list var) }
{
    match var {
        Some(var) => names.push(var)?,
        None => {}
    }
    Ok(())
}

/// Adds the variables that a target names.
pub fn push_target(target: &Target, names: &mut Vec<u32>) -> Result<(), AllocError>
    ensures { OnOk result (names.new.items ≡ names.old.items ++ target_vars target.now) }
{
    match target {
        Target::Of { var, .. } => push_named(*var, names),
        Target::List(parts) => {
            for part in parts.as_slice() {
                push_target(part, names)?;
            }
            Ok(())
        }
    }
}

/// Adds the variables that the targets of a statement name.
#[cycle(naming)]
pub fn push_targets(statement: &Stmt, names: &mut Vec<u32>) -> Result<(), AllocError>
    ensures { OnOk result (names.new.items ≡ names.old.items ++ named_in statement.now) }
{
    match statement {
        Stmt::Block(parts) => {
            for part in parts.as_slice() {
                push_targets(part, names)?;
            }
            Ok(())
        }
        Stmt::If(_, first, second) => {
            push_targets(first.get(), names)?;
            match second {
                Some(second) => push_targets(second.get(), names),
                None => Ok(()),
            }
        }
        Stmt::Case(_, arms) => {
            for arm in arms.as_slice() {
                push_arm(arm, names)?;
            }
            Ok(())
        }
        Stmt::Assign { target, .. } => push_target(target, names),
    }
}

/// Adds the variables that the targets of an arm name.
#[cycle(naming)]
fn push_arm(arm: &Arm, names: &mut Vec<u32>) -> Result<(), AllocError>
    ensures { OnOk result (names.new.items ≡ names.old.items ++ named_in_arm arm.now) }
{
    push_targets(&arm.body, names)
}

/// Marks these variables.
pub fn mark_each(names: &[u32], marks: &mut Vec<bool>)
    ensures { marks.new.items ≡ mark_all names.now marks.old.items }
{
    for var in names {
        mark_named(Some(*var), marks);
    }
}
