//! The tokens of Go sources.
#![tactic(auto)]

mod character;
mod comment;
mod escape;
mod fault;
mod flaw;
pub mod laws;
mod lexer;
mod number;
mod operator;
mod piece;
mod quote;
#[cfg(test)]
mod tests;
mod tokens;
mod word;

pub use escape::{escape_len, hex_value, octal_value};
pub use fault::LexFault;
pub use lexer::lex;
pub use number::is_octal;
pub use quote::inner;
