//! Concatenations and replications (IEEE 1800-2017, 11.4.12).

ghost use Rattle.std.specs.Prelude.{◌≡◌, ◌≤◌, ◌*◌, IfOk};
ghost use Rattle.bit_ops.specs.declared.value.TheConstants.{MAX_WIDTH};
ghost use Rattle.bit_ops.specs.Width.{IsWidth};
ghost use Rattle.const_eval.specs.WholeNumbers.{integer_of, count_of};
ghost use Rattle.const_eval.specs.code.Agreeing.{Agrees};
ghost use Rattle.width_rules.specs.Joining as spec;

use crate::building::{extended_to, two_of};
use crate::fault::WidthFault;
use crate::joined::Joined;
use crate::measured::Measured;
use crate::own::alone;
use bit_ops::{Bits, MAX_WIDTH, Op, Word};
use const_eval::refuse::unnamed_at;
use const_eval::{WholeNumber, copies};
use net_ir::Term;
use std::alloc::{AllocError, Global};
use sv_base::{Kind, Place};

impl Joined {
    /// One part more, which stands below the others.
    pub fn with(self, alloc: Global, part: Measured) -> Result<Joined, AllocError>
        ensures built { IfOk result (λ j. j ≡ spec.joined_with self part) }
    {
        let size = part.size;
        match self {
            Joined::Nothing => Ok(Joined::Whole(size, part.own(alloc)?)),
            Joined::Whole(width, above) if width.saturating_add(size) <= MAX_WIDTH => {
                let below = part.own(alloc)?;
                let both = two_of(alloc, Op::Concat, width + size, above, below)?;
                Ok(Joined::Whole(width + size, both))
            }
            _ => Ok(Joined::TooWide),
        }
    }
}

/// What is made of parts, where their width is one that a value may have.
pub fn concatenation(alloc: Global, place: Place, joined: Joined) -> Result<Measured, WidthFault>
    ensures built { Agrees (λ r m. r ≡ m) result (spec.concatenation place joined) }
{
    match joined {
        Joined::Nothing => Err(unnamed_at(alloc, Kind::BadRange, place)),
        Joined::Whole(width, term) => Ok(alone(width, term, false)),
        Joined::TooWide => Err(unnamed_at(alloc, Kind::TooWide, place)),
    }
}

/// So many copies of a term: one product with a 1 at the lowest place of each copy, so that the term stands in it once.
fn repetition(alloc: Global, count: u32, width: u32, term: Term) -> Result<Measured, AllocError>
    requires some { 1 ≤ count }
    requires width { IsWidth width }
    requires fits { count * width ≤ MAX_WIDTH }
    ensures built { IfOk result (λ r. r ≡ spec.repetition count width term) }
{
    let size = count * width;
    let wide = extended_to(alloc, size, false, width, term)?;
    let ones = copies(count, Bits::truncated(width, 1));
    let many = two_of(alloc, Op::Mul, size, wide, Term::Const(ones))?;
    Ok(alone(size, many, false))
}

/// Whether so many copies of some bits are a width that a value may have.
fn fits(count: Word, width: u32) -> bool
    ensures { result ≡ spec.fits count width }
{
    1 <= width && count.saturating_mul(Word::from(width)) <= Word::from(MAX_WIDTH)
}

/// So many copies of parts.
pub fn repeated(
    alloc: Global,
    place: Place,
    count: WholeNumber,
    joined: Joined,
) -> Result<Measured, WidthFault>
    ensures built { Agrees (λ r m. r ≡ m) result (spec.repeated place (count_of (integer_of count)) joined) }
{
    let count = count.count();
    if count == 0 {
        return Err(unnamed_at(alloc, Kind::BadRange, place));
    }
    match joined {
        Joined::Nothing => Err(unnamed_at(alloc, Kind::BadRange, place)),
        Joined::Whole(width, term) if fits(count, width) => {
            Ok(repetition(alloc, count as u32, width, term)?)
        }
        _ => Err(unnamed_at(alloc, Kind::TooWide, place)),
    }
}
