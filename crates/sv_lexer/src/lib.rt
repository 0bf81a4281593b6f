//! Cuts a source text into the tokens of the language: words, system names, numbers, fills, signs and the
//! marks of hierarchical modules (IEEE 1800-2017, clause 5, as far as `docs/tokens.md` takes it).
#![tactic(auto)]

mod comment;
mod fault;
mod form;
mod found;
mod laws;
mod lead;
mod lexer;
mod number;
mod run;
mod scan;
mod sign;
mod token;
mod value;

pub use form::Base;
pub use laws::{not_both, one_list, one_refusal};
pub use lexer::lex;
pub use token::{LexFault, Token, TokenKind};
pub use value::value_of_digits;

#[cfg(test)]
mod tests;
