//! Selects whose positions are known.

use crate::measured::Measured;
use const_eval::Const;

/// A select behind a name (IEEE 1800-2017, 11.5.1). Both bounds of a part and the width of an indexed part are
/// constants.
#[derive(Drop)]
pub enum Taking {
    /// `[p]`
    At(Measured),
    /// `[m:l]`
    DownTo(Const, Const),
    /// `[p +: w]`
    UpFrom(Measured, Const),
    /// `[p -: w]`
    DownFrom(Measured, Const),
}
