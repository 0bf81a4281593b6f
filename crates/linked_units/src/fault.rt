//! Why units were not linked.

use std::alloc::{AllocError, AllocFailed};
use thiserror::Error;

/// Why units were not linked. The first five are tried in this order. A unit is told by its number: 0 is the root, and
/// a library's is its place and 1 more.
#[derive(Clone, Copy, Debug, PartialEq, Eq, Error)]
pub enum LinkFault {
    /// No library has the digest that the unit names.
    #[error("unit {unit} names a library that is not there")]
    Missing { unit: u32, digest: [u8; 32] },
    /// The face or the summary of the unit's kid differs from the one that the unit names.
    #[error("kid {kid} of unit {unit} has another face or summary than is named")]
    Mismatch { unit: u32, kid: u32 },
    /// More models than `DEPTH_LIMIT` stand below the root on one nesting path; the count stops one above it.
    #[error("models are nested {depth} deep below the root")]
    Deep { depth: u32 },
    /// A nesting path's product is above `PRODUCT_LIMIT`; it stops one above it.
    #[error("the product of chains of a nesting path comes to {product}")]
    Heavy { product: u64 },
    /// The tree has more models than `MODEL_LIMIT`; the count stops one above it.
    #[error("the tree has {models} models")]
    Crowded { models: u64 },
    #[error("memory ran out")]
    NoMemory,
}

impl From<AllocError> for LinkFault {
    ghost use Rattle.std.specs.Prelude.{◌≡◌};
    ghost use Rattle.linked_units.specs.declared.fault.LinkFault.TheVariants.{NoMemory};

    ghost from_gives = { λ _ e. e ≡ NoMemory };

    fn from(_e: AllocError) -> LinkFault {
        LinkFault::NoMemory
    }
}

impl<T: Drop> From<AllocFailed<T>> for LinkFault {
    ghost use Rattle.std.specs.Prelude.{◌≡◌};
    ghost use Rattle.linked_units.specs.declared.fault.LinkFault.TheVariants.{NoMemory};

    ghost from_gives = { λ _ e. e ≡ NoMemory };

    fn from(_e: AllocFailed<T>) -> LinkFault {
        LinkFault::NoMemory
    }
}
