//! Reads the modules of a file from tokens.
#![tactic(auto)]

mod bracket;
mod cursor;
mod declaration;
mod instance;
mod item;
mod kept;
mod law;
mod list;
mod module;
mod parser;
mod process;
mod repetition;
mod shape;
mod statement;
mod target;
mod words;

pub use law::{not_both, one_file, one_reading, one_refusal};
pub use parser::parse_file;
