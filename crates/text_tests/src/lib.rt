//! Tests of the lowest crates: of script_names, shown_texts and shared_table, of debian_versions, of command_words
//! (lines of the command line), of checker_io (shelves and sinks) and of case_pool. They stand apart from these
//! crates, so that no crate is proved twice.
#![tactic(auto)]

#[cfg(test)]
mod common;
#[cfg(test)]
mod lines;
#[cfg(test)]
mod names;
#[cfg(test)]
mod paths;
#[cfg(test)]
mod pools;
#[cfg(test)]
mod requests;
#[cfg(test)]
mod shared_lists;
#[cfg(test)]
mod shelves;
#[cfg(test)]
mod shown;
#[cfg(test)]
mod usage;
#[cfg(test)]
mod versions;
