use bit_ops::{Bits, Op};
use sqlite_items::{Boxed, Items};
use sv_base::Place;

/// An expression with every size and sign decided (IEEE 1800-2017, 11.6 and 11.8).
#[derive(Drop)]
pub enum Term {
    Const(Bits),
    /// The whole of a variable, by its number.
    Read {
        var: u32,
        place: Place,
    },
    /// So many bits of a base whose lowest position is `low`, from a position up, or from it down. The position is
    /// a number by its own size and sign, and a bit that the base does not have is 0 (11.5.1).
    Pick {
        base: Boxed<Term>,
        low: u32,
        at: Boxed<Term>,
        at_signed: bool,
        down: bool,
        width: u32,
    },
    /// An operation on the values of terms: the result's width in bits, and the position that the operation's
    /// row names, 0 where it names none.
    Apply {
        op: Op,
        width: u32,
        lo: u32,
        args: Items<Term>,
    },
}
