//! The text of CoLiS programs, read back: a text is read as the one program that has it, and refused exactly where no
//! program has it. It stands on script_names, shown_texts and colis_syntax. Begin with `program`; `theorems` says that
//! reading and printing belong together.
#![tactic(auto)]

mod decoding;
mod fault;
mod members;
mod nest;
mod nesting;
mod parts;
mod program;
pub mod theorems;

pub use fault::ProgramFault;
pub use program::read_program;
