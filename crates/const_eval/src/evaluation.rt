//! The call of this crate.

ghost use Rattle.std.specs.Prelude.{◌≡◌, IfOk, IfErr, Err};
ghost use Rattle.bit_ops.specs.Width.{IsWidth};
ghost use Rattle.const_eval.specs.Constant.{constant_of, IsConstant, IsAssigned};
ghost use Rattle.sv_base.specs.Faults.{IfRefused};

use crate::env::{Const, Env};
use crate::fault::ConstFault;
use crate::measure::measure;
use bit_ops::Bits;
use std::alloc::Global;
use sv_ast::Expr;

/// The value of a constant expression, with its own size of 1 to `MAX_WIDTH` bits and its own sign (IEEE
/// 1800-2017, 11.2.1, 11.6 to 11.8), or its first refusal, from left to right, parts before the whole:
/// UnknownName for a name that is not visible, NotConstant for a net or variable, TooWide for more than
/// `MAX_WIDTH` bits, BadRange for a width or count below 1 or a negative exponent. Takes time linear in the
/// expression, however many names are visible.
pub fn constant(alloc: Global, e: &Expr, env: &Env) -> Result<Const, ConstFault>
    ensures value { IfOk result (IsConstant (constant_of env.now e.now)) }
    ensures refused { IfErr result (IfRefused (λ refusal. constant_of env.now e.now ≡ Err refusal)) }
{
    let measured = measure(alloc, env, e)?;
    Ok(Const {
        value: measured.own(),
        signed: measured.signed,
    })
}

/// The value of a constant expression as it is assigned to so many bits: in the greater of this size and its own, by
/// its own sign, cut to this size (10.7); or its first refusal, as `constant` has it. Takes time linear in the
/// expression.
pub fn assigned_constant(alloc: Global, e: &Expr, env: &Env, width: u32) -> Result<Bits, ConstFault>
    requires { IsWidth width }
    ensures value { IfOk result (IsAssigned width (constant_of env.now e.now)) }
    ensures refused { IfErr result (IfRefused (λ refusal. constant_of env.now e.now ≡ Err refusal)) }
{
    let measured = measure(alloc, env, e)?;
    Ok(measured.assigned(width))
}
