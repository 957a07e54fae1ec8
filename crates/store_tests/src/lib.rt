//! Tests of act_cases, clause_solver and start_trees: cases of calls and of backs, stores, and cases that are added to
//! stores; and of case_paths, by a machine that does two acts, by one that asks for many paths, and by one that keeps
//! the tree and puts back from it (the types of these stand without tests, since definitions name them). They stand
//! apart from these crates, so that no crate is proved twice.
#![tactic(auto)]

#[cfg(test)]
mod adding;
mod asked_path;
#[cfg(test)]
mod call_words;
#[cfg(test)]
mod cases;
#[cfg(test)]
mod clause_texts;
#[cfg(test)]
mod copied;
#[cfg(test)]
mod emptied;
#[cfg(test)]
mod keeping;
mod kept_path;
#[cfg(test)]
mod kept_tests;
#[cfg(test)]
mod path_tests;
#[cfg(test)]
mod plainest;
#[cfg(test)]
mod questions;
#[cfg(test)]
mod returned;
#[cfg(test)]
mod starts;
#[cfg(test)]
mod steps;
#[cfg(test)]
mod stores;
#[cfg(test)]
mod taken;
#[cfg(test)]
mod targets;
#[cfg(test)]
mod two_acts;
