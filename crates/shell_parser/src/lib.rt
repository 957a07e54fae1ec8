//! The script that tokens spell (POSIX.1-2017, XCU 2.10 Shell Grammar). It stands on shell_grammar, which says what
//! that is, and on shell_lexer and shell_syntax. Begin with `parse`; the parser proper is the folder parser, with a
//! function for each rule of the grammar.
#![tactic(auto)]

mod assignments;
mod forms;
mod looks;
mod parser;
mod script;
mod tokens;
mod trees;

pub use script::parse;
