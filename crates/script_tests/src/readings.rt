//! Scripts of texts, each behind a pointer, so that what holds one stays small.

use script_names::{Boxed, Bytes};
use shell_grammar::ParseFault;
use shell_lexer::{LexFault, Lexed, lex};
use shell_parser::parse;
use shell_syntax::{Script, print_script};
use std::alloc::Global;
use std::test::Fail;

/// Why a text is no script: it is not cut into tokens, its tokens are no script, or there is want of memory.
#[derive(Clone, Copy, Debug)]
pub(crate) enum ReadFault {
    Cut(LexFault),
    Tokens(ParseFault),
    Memory,
}

// The script that was read, behind a pointer.
fn kept(alloc: Global, read: Result<Script, ParseFault>) -> Result<Boxed<Script>, ReadFault> {
    match read {
        Ok(script) => match Boxed::new(alloc, script) {
            Ok(script) => Ok(script),
            Err(_) => Err(ReadFault::Memory),
        },
        Err(fault) => Err(ReadFault::Tokens(fault)),
    }
}

// The script of tokens.
fn parsed(alloc: Global, lexed: &Lexed) -> Result<Boxed<Script>, ReadFault> {
    let read = parse(alloc, lexed);
    kept(alloc, read)
}

/// The script of a text.
pub(crate) fn read(alloc: Global, text: &[u8]) -> Result<Boxed<Script>, ReadFault> {
    match lex(alloc, text) {
        Ok(lexed) => parsed(alloc, &lexed),
        Err(fault) => Err(ReadFault::Cut(fault)),
    }
}

/// What a text's script is printed as.
pub(crate) fn printed(alloc: Global, text: &[u8]) -> Result<Bytes, Fail> {
    let script = read(alloc, text)?;
    let printed = print_script(alloc, script.get())?;
    Ok(printed)
}
