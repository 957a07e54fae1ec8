//! Laws of tokens: what a cut of a text is by the standard's words, and that printed words and tokens are cut as they
//! were. It stands on shell_lexer, and is apart from it so that no code waits for these proofs. Begin with `theorems`,
//! and with specs/Laws.antt.
#![tactic(auto)]

pub mod printed;
pub mod theorems;
