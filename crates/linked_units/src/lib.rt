//! Units that name their children by number, and the tree of models below each, in its limits.
#![tactic(auto)]

mod fault;
mod figures;
mod joining;
pub mod law;
mod limits;
mod linked;
mod unit;

pub use fault::LinkFault;
pub use joining::{are_joined, is_same_face, is_same_summary};
pub use limits::{DEPTH_LIMIT, MODEL_LIMIT, PRODUCT_LIMIT};
pub use linked::{Linked, from_units};
pub use unit::Unit;
