//! The tokens of a GML text, or the first place from which its bytes are neither blank, comment nor token.
//! It depends on mn_base.
//! Its contracts speak in the pieces of specs/Pieces.antt and in the tokens and the fault of specs/Tokens.antt.
#![tactic(auto)]

mod faults;
mod kinds;
pub mod laws;
mod lexer;
mod pieces;
mod words;

pub use faults::LexFault;
pub use kinds::{Token, TokenKind};
pub use lexer::tokens;

#[cfg(test)]
mod tests;
