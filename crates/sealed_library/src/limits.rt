//! The greatest numbers of the format.

/// The greatest number of bytes of a library that is read, 256 MiB.
pub const LIBRARY_LIMIT: usize = 268_435_456;

/// The greatest number of ports of a face.
pub const PORT_LIMIT: usize = 1024;

/// The greatest chain of a machine.
pub const CHAIN_LIMIT: u32 = 4_294_967_294;

/// How many bytes a SHA-256 has.
pub const DIGEST_LENGTH: usize = 32;
