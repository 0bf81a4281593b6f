//! What the entries and ports of a module's header have, from themselves or from those before them (IEEE 1800-2017, 6.20 and 23.2.2.3).
#![tactic(auto)]

mod header;

pub use header::{Entry, EntryKind, Port, entries_of, ports_of};
