//! What a source is refused for, and where.

use crate::kind::Kind;
use crate::name::Name;

/// Where a construct stands: the file among the words of the command, counted from 1, and the line in
/// it, counted from 1. File 0 means that there is none; it is printed `-`.
#[derive(Clone, Copy, Debug, PartialEq, Eq)]
pub struct Place {
    pub file: u32,
    pub line: u32,
}

impl Place {
    /// The place of what stands in no file.
    pub const NOWHERE: Place = Place { file: 0, line: 0 };
}

/// A source that is refused: why, where, and the name, sign, number or limit that the message prints. The
/// name is empty where the message prints none.
#[derive(Debug, Drop)]
pub struct Refusal {
    pub kind: Kind,
    pub place: Place,
    pub name: Name,
}
