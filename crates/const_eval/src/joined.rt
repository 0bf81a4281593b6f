//! Parts of an expression, joined (IEEE 1800-2017, 11.4.12).

use bit_ops::Bits;

/// What parts are together.
#[derive(Clone, Copy, Debug)]
pub enum Joined {
    /// There is no part.
    Nothing,
    Whole(Bits),
    /// They are more bits than a value may have.
    TooWide,
}
