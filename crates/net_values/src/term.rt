//! The value of a term on given values of the variables.

ghost use Rattle.std.specs.Prelude.{◌≡◌};
ghost use Rattle.bit_ops.specs.Width.{IsWidth};
ghost use Rattle.bit_ops.specs.Lists.{words, widths};
ghost use Rattle.net_ir.specs.Value.{whole_number, picked, size, val, reads_of};
ghost use Rattle.net_ir.specs.Target.{is_empty};
ghost use Rattle.net_ir.specs.Lawful.{IsLawful};

use crate::operation::apply;
use bit_ops::{Bits, Word};
use const_eval::{Const, bits_from};
use net_ir::Term;

/// So many bits of a base whose lowest position is `low`, from a position up, or from it down.
fn pick(base: Bits, low: u32, at: Bits, at_signed: bool, down: bool, width: u32) -> Bits
    requires { IsWidth width }
    ensures width { result.width ≡ width }
    ensures word { result.word ≡ picked base.word low down (whole_number at_signed at.width at.word) width }
{
    let position = Const {
        value: at,
        signed: at_signed,
    }
    .number();
    let above = if down { width - 1 } else { 0 };
    bits_from(
        base.word,
        position,
        Word::from(low) + Word::from(above),
        width,
    )
}

/// The value of a term where the variables have these values. Takes no memory.
pub fn evaluate(term: &Term, values: &[Bits]) -> Bits
    requires { IsLawful (widths values.now) term.now }
    ensures width { result.width ≡ size (widths values.now) term.now }
    ensures word { result.word ≡ val (widths values.now) (words values.now) term.now }
{
    match term {
        Term::Const(bits) => *bits,
        Term::Read { var, .. } => values[*var as usize],
        Term::Pick {
            base,
            low,
            at,
            at_signed,
            down,
            width,
        } => {
            let base = evaluate(base.get(), values);
            let at = evaluate(at.get(), values);
            pick(base, *low, at, *at_signed, *down, *width)
        }
        Term::Apply {
            op,
            width,
            lo,
            args,
        } => {
            let mut given = [Bits::zero(1); 3];
            let mut count = 0;
            for arg in args.as_slice() {
                given[count] = evaluate(arg, values);
                count += 1;
            }
            apply(*op, *width, *lo, &given[..count])
        }
    }
}

/// Whether a term reads no variable.
pub fn is_constant(term: &Term) -> bool
    ensures { result ≡ is_empty (reads_of term.now) }
{
    match term {
        Term::Const(_) => true,
        Term::Read { .. } => false,
        Term::Pick { base, at, .. } => is_constant(base.get()) && is_constant(at.get()),
        Term::Apply { args, .. } => {
            for arg in args.as_slice() {
                if !is_constant(arg) {
                    return false;
                }
            }
            true
        }
    }
}
