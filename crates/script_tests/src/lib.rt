//! Tests of scripts: their tokens and words (shell_lexer, shell_words), how they are read, accepted and printed
//! (shell_syntax, shell_parser, shell_forms), places in them (script_places), and whole scripts that are run: read,
//! accepted, translated, and run on one tree; and programs as text, that are printed again, and run from a given state
//! (shell_to_colis, colis_interp, colis_reader). They stand apart from these crates, so that no crate is proved twice.
#![tactic(auto)]

#[cfg(test)]
mod act_words;
#[cfg(test)]
mod commands;
#[cfg(test)]
mod copies;
#[cfg(test)]
mod first_words;
#[cfg(test)]
mod forms;
#[cfg(test)]
mod pages;
#[cfg(test)]
mod places;
#[cfg(test)]
mod premises;
#[cfg(test)]
mod printed;
#[cfg(test)]
mod programs;
#[cfg(test)]
mod reaches;
#[cfg(test)]
mod readings;
#[cfg(test)]
mod runs;
#[cfg(test)]
mod scripts;
#[cfg(test)]
mod texts;
#[cfg(test)]
mod tokens;
#[cfg(test)]
mod translations;
#[cfg(test)]
mod words;
