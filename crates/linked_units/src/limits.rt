//! The limits of a tree of models.

/// The greatest number of models that stand below the root on one nesting path.
pub const DEPTH_LIMIT: u32 = 16;

/// The greatest product of a nesting path, 2^38.
pub const PRODUCT_LIMIT: u64 = 274_877_906_944;

/// The greatest number of models of a tree.
pub const MODEL_LIMIT: u64 = 65_536;
