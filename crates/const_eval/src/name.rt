//! Names of constants.

ghost use Rattle.std.specs.Prelude.{◌≡◌, true};
ghost use Rattle.const_eval.specs.Constant.{names_of};
ghost use Rattle.const_eval.specs.Expressions.{named_by};
ghost use Rattle.const_eval.specs.code.Agreeing.{Agrees, IsNamed};

use crate::env::{Bound, Const, Env};
use crate::fault::ConstFault;
use crate::refuse::refused_at;
use std::alloc::Global;
use sv_ast::Id;
use sv_base::Kind;

/// A constant that has a name, and the lowest position of its range.
#[derive(Clone, Copy, Debug)]
pub struct Constant {
    pub value: Const,
    pub low: u32,
}

/// The constant that a name means.
pub fn constant_by(alloc: Global, env: &Env, name: &Id) -> Result<Constant, ConstFault>
    ensures { Agrees IsNamed result (named_by (names_of env.now) true name.now) }
{
    match env.bound(&name.name) {
        None => Err(refused_at(alloc, Kind::UnknownName, name)?),
        Some(Bound::Variable(_)) => Err(refused_at(alloc, Kind::NotConstant, name)?),
        Some(Bound::Constant { value, low }) => Ok(Constant { value, low }),
    }
}
