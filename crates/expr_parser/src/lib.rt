//! Reads an expression from tokens (IEEE 1800-2017, clause 11, as far as `docs/language.md` takes it).
#![tactic(auto)]

mod bracket;
mod cursor;
mod fault;
mod grammar;
mod law;
mod operation;
mod parser;
mod spelling;

pub use cursor::{Cursor, NESTING_LIMIT, last_place};
pub use fault::ParseFault;
pub use grammar::any;
pub use law::{
    exact_reading, not_both, nothing_goes_on, one_nesting, one_reading, one_refusal, one_tree,
};
pub use parser::parse_expr;
pub use spelling::{is_identifier, is_mark, is_this};

#[cfg(test)]
mod tests;
