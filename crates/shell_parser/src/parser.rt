//! A function for each rule of the grammar: recursive descent, which is counted by nesting alone. Lists of any length
//! are loops. Begin with `script` in parser/lists.rt.

mod cases;
mod commands;
mod conditionals;
pub mod lists;
mod loops;
mod simple_commands;
mod words;
