//! How much of something a module may have.

/// The most ports of a module.
pub const PORT_LIMIT: usize = 1024;

/// The most assignments of a specialisation, continuous and procedural ones together.
pub const ASSIGNMENT_LIMIT: u32 = 65_536;
