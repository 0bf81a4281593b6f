//! The width, range and sign that a declaration gives its names (IEEE 1800-2017, 6.8, 6.9 and 6.11).

ghost use Rattle.std.specs.Prelude.{◌≡◌, ◌≤◌, ◌+◌, ◌-◌, IfOk};
ghost use Rattle.std.specs.Option.{option_copied};
ghost use Rattle.bit_ops.specs.Width.{IsWidth};
ghost use Rattle.const_eval.specs.code.Agreeing.{Agrees};
ghost use Rattle.elaborate.specs.declared.extent.TheConstants.{GREATEST_POSITION};
ghost use Rattle.elaborate.specs.Extent as spec;
ghost use Rattle.elaborate.specs.code.Walking.{seen_in, integers_of};

use crate::walk::Walk;
use bit_ops::{MAX_WIDTH, Word};
use const_eval::WholeNumber;
use const_eval::law::sizes_and_values;
use const_eval::refuse::refused_at;
use std::alloc::Global;
use sv_ast::{Id, Range, Shape};
use sv_base::{Fault, Kind};

/// How many bits a name has and the lowest position of its range, whether a range is written, and whether it is
/// signed.
#[derive(Clone, Copy, Debug)]
pub struct Extent {
    pub width: u32,
    pub low: u32,
    pub ranged: bool,
    pub signed: bool,
}

/// The bounds of a range: the highest position, and the lowest.
pub type Span = (WholeNumber, WholeNumber);

/// The greatest position of a range.
const GREATEST_POSITION: Word = 0xffff_ffff;

/// Whether a word stands among those of a type.
pub fn has_word(word: &[u8], words: &[Id]) -> bool
    ensures { result ≡ spec.has_word word.now words.now }
{
    words.iter().any(|w| w.name.bytes() == word)
}

/// Whether it is a type of 32 bits, which is signed unless it says otherwise (6.11).
fn is_integer(words: &[Id]) -> bool
    ensures { result ≡ spec.is_integer words.now }
{
    has_word(b"int", words) || has_word(b"integer", words)
}

/// Whether it declares a net.
pub fn is_net(words: &[Id]) -> bool
    ensures { result ≡ spec.is_net words.now }
{
    has_word(b"wire", words)
}

/// Whether a sign, or a direction, is this word.
pub fn says(word: &[u8], id: Option<&Id>) -> bool
    ensures { result ≡ spec.says word.now (option_copied id.entry) }
{
    match id {
        Some(id) => id.name.bytes() == word,
        None => false,
    }
}

/// The bounds of a written range, both constants.
pub fn span_of(alloc: Global, walk: &Walk, range: &Option<Range>) -> Result<Option<Span>, Fault>
    ensures { Agrees (λ found span. integers_of found ≡ span) result (spec.span_of (seen_in walk.now) range.now) }
{
    match range {
        Some(range) => {
            sizes_and_values();
            let high = walk.constant(alloc, &range.high)?;
            let low = walk.constant(alloc, &range.low)?;
            Ok(Some((high.number(), low.number())))
        }
        None => Ok(None),
    }
}

/// The extent of a range from `low` up to `high`, which is told of a name where it is too wide.
fn spanned(alloc: Global, name: &Id, signed: bool, high: Word, low: Word) -> Result<Extent, Fault>
    requires order { low ≤ high }
    requires greatest { high ≤ GREATEST_POSITION }
    ensures extent { Agrees (λ found extent. found ≡ extent) result (spec.spanned name.now signed (high - low + 1) low) }
    ensures width { IfOk result (λ extent. IsWidth extent.width) }
{
    let width = high - low + 1;
    if width > Word::from(MAX_WIDTH) {
        return Err(refused_at(alloc, Kind::TooWide, name)?);
    }
    Ok(Extent {
        width: width as u32,
        low: low as u32,
        ranged: true,
        signed,
    })
}

/// The extent of what has this range, or none, which is told of a name where it is bad or too wide.
fn ranged_extent(
    alloc: Global,
    name: &Id,
    signed: bool,
    span: Option<Span>,
) -> Result<Extent, Fault>
    ensures extent { Agrees (λ found extent. found ≡ extent) result (spec.ranged_extent name.now signed (integers_of span)) }
    ensures width { IfOk result (λ extent. IsWidth extent.width) }
{
    match span {
        None => Ok(Extent {
            width: 1,
            low: 0,
            ranged: false,
            signed,
        }),
        Some((WholeNumber::NotNegative(high), WholeNumber::NotNegative(low)))
            if low <= high && high <= GREATEST_POSITION => {
            spanned(alloc, name, signed, high, low)
        }
        Some(_) => Err(refused_at(alloc, Kind::BadRange, name)?),
    }
}

/// The extent of a type with this range, or none: one of 32 bits has no written range.
pub fn extent_of(
    alloc: Global,
    name: &Id,
    shape: &Shape,
    span: Option<Span>,
) -> Result<Extent, Fault>
    ensures extent { Agrees (λ found extent. found ≡ extent) result (spec.extent_of name.now shape.now (integers_of span)) }
    ensures width { IfOk result (λ extent. IsWidth extent.width) }
{
    if is_integer(shape.words.as_slice()) {
        Ok(Extent {
            width: 32,
            low: 0,
            ranged: false,
            signed: !says(b"unsigned", shape.sign.as_ref()),
        })
    } else {
        let signed = says(b"signed", shape.sign.as_ref());
        ranged_extent(alloc, name, signed, span)
    }
}
