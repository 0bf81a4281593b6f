//! Parts of an expression, joined (IEEE 1800-2017, 11.4.12).

use net_ir::Term;

/// What parts are together.
#[derive(Drop)]
pub enum Joined {
    /// There is no part.
    Nothing,
    /// A term with its size.
    Whole(u32, Term),
    /// They are more bits than a value may have.
    TooWide,
}
