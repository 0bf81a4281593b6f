//! Selects whose positions are known.

use crate::measured::Measured;

/// What a select behind a name takes (IEEE 1800-2017, 11.5.1).
#[derive(Drop)]
pub enum Taking {
    /// `[p]`
    At(Measured),
    /// `[m:l]`
    DownTo(Measured, Measured),
    /// `[p +: w]`
    UpFrom(Measured, Measured),
    /// `[p -: w]`
    DownFrom(Measured, Measured),
}
