//! Cuts a script's text into tokens, with exact faults (POSIX.1-2017, XCU 2.2 Quoting, 2.3 Token Recognition, 2.6
//! Word Expansions). It stands on shell_syntax and script_names. Begin with `lex`, and with specs/Lexed.antt for what
//! a cut is; then specs/Reading.antt.
#![tactic(auto)]

pub mod byte_kind;
mod bytes;
mod copies;
mod fault;
mod first_line;
mod late;
mod lexer;
mod operators;
mod parts;
mod runs;
mod scan;
pub mod sight;
mod token;

pub use fault::LexFault;
pub use lexer::lex;
pub use token::{Lexed, RawPart, Token, TokenKind};
