//! The meaning of the CoLiS language: what a program does from a state and a tree, and that it does so for all trees at
//! once, as one decision over its acts. It stands on colis_syntax, shell_rules and the crates below these. Begin with
//! specs/Meaning.antt and specs/Decided.antt; `theorems` has what holds of them.
#![tactic(auto)]

pub mod theorems;
