//! Printed scripts: what shell_syntax prints of a script is the texts of tokens that spell it again. It stands on
//! shell_grammar. Begin with `theorems`, and with specs/PrintedTokens.antt.
#![tactic(auto)]

pub mod theorems;
