//! Programs of scripts and of texts, each behind a pointer, so that what holds one stays small.

use crate::pages::Page;
use colis_reader::{ProgramFault, read_program};
use colis_syntax::{Program, print_program};
use script_names::{Memory, Slot};
use shell_forms::{Accepted, FormFault, accept};
use shell_lexer::lex;
use shell_parser::parse;
use shell_to_colis::translate;
use std::alloc::Global;
use token_laws::theorems::limit_only_refuses;

// The script that was accepted; an error where it was not, whatever the reason.
fn kept(alloc: Global, found: Result<Accepted, FormFault>) -> Result<Slot<Accepted>, Memory> {
    match found {
        Ok(script) => Slot::new(alloc, script),
        Err(_) => Err(Memory),
    }
}

// The script of a text; an error where it is not accepted, whatever the reason.
fn accepted(alloc: Global, text: &[u8]) -> Result<Slot<Accepted>, Memory> {
    match lex(alloc, text) {
        Ok(lexed) => match parse(alloc, &lexed) {
            Ok(script) => {
                limit_only_refuses();
                kept(alloc, accept(alloc, script))
            }
            Err(_) => Err(Memory),
        },
        Err(_) => Err(Memory),
    }
}

// The program that a script was translated to.
fn made(alloc: Global, program: Result<Program, Memory>) -> Result<Slot<Program>, Memory> {
    match program {
        Ok(program) => Slot::new(alloc, program),
        Err(fault) => Err(fault),
    }
}

// The program of an accepted script.
fn program_of(alloc: Global, script: Option<&Accepted>) -> Result<Slot<Program>, Memory> {
    match script {
        Some(script) => made(alloc, translate(alloc, script)),
        None => Err(Memory),
    }
}

/// The program of a script; none where the script is not accepted.
pub(crate) fn translated(alloc: Global, text: &[u8]) -> Slot<Program> {
    match accepted(alloc, text) {
        Ok(script) => or_none(alloc, program_of(alloc, script.get())),
        Err(_) => Slot::empty(alloc),
    }
}

// The program that was read; none where the text is no program.
fn found(alloc: Global, read: Result<Program, ProgramFault>) -> Result<Slot<Program>, Memory> {
    match read {
        Ok(program) => Slot::new(alloc, program),
        Err(ProgramFault::Bad) => Ok(Slot::empty(alloc)),
        Err(ProgramFault::Memory) => Err(Memory),
    }
}

// What was found, or none for want of memory.
fn or_none(alloc: Global, found: Result<Slot<Program>, Memory>) -> Slot<Program> {
    match found {
        Ok(found) => found,
        Err(_) => Slot::empty(alloc),
    }
}

/// The program with this text.
pub(crate) fn program_in(alloc: Global, text: &[u8]) -> Slot<Program> {
    or_none(alloc, found(alloc, read_program(alloc, text)))
}

/// Whether there is no program with this text.
pub(crate) fn is_none_in(alloc: Global, text: &[u8]) -> bool {
    match found(alloc, read_program(alloc, text)) {
        Ok(found) => found.is_none(),
        Err(_) => false,
    }
}

// Whether a program is printed as this text.
fn is_printed(alloc: Global, program: &Program, wanted: &Page) -> bool {
    match print_program(alloc, program) {
        Ok(printed) => wanted.is(printed.as_slice()),
        Err(_) => false,
    }
}

/// Whether there is a program, and it is printed as this text.
pub(crate) fn prints(alloc: Global, program: Option<&Program>, wanted: &Page) -> bool {
    match program {
        Some(program) => is_printed(alloc, program, wanted),
        None => false,
    }
}
