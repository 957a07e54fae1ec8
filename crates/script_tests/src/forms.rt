//! Scripts of forms/rows.rt, read and accepted.

mod rows;

use rows::TABLES;
use script_names::{Boxed, Bytes, Memory};
use shell_forms::{Accepted, FormFault, accept};
use shell_lexer::lex;
use shell_parser::parse;
use shell_syntax::Form;
use std::alloc::Global;
use std::test::Fail;
use token_laws::theorems::limit_only_refuses;

// The name of a form that stands in the syntax.
fn name(form: Form) -> &'static str {
    match form {
        Form::AllArgs => "all-args",
        Form::Option => "option",
        Form::Ifs => "ifs",
        Form::Prefix => "prefix",
        Form::Export => "export",
        Form::LoopExit => "loop-exit",
        Form::Return => "return",
        Form::FunctionPlace => "function-place",
        Form::FunctionTwice => "function-twice",
        Form::FunctionName => "function-name",
        Form::CallOrder => "call-order",
        _ => "another form",
    }
}

// The script that was accepted, behind a pointer.
fn kept(alloc: Global, found: Result<Accepted, FormFault>) -> Result<Boxed<Accepted>, FormFault> {
    match found {
        Ok(script) => match Boxed::new(alloc, script) {
            Ok(script) => Ok(script),
            Err(_) => Err(FormFault::Memory),
        },
        Err(fault) => Err(fault),
    }
}

// The script of a text, where it is accepted.
fn accepted(alloc: Global, text: &[u8]) -> Result<Result<Boxed<Accepted>, FormFault>, Fail> {
    let lexed = lex(alloc, text)?;
    let script = parse(alloc, &lexed)?;
    limit_only_refuses();
    Ok(kept(alloc, accept(alloc, script)))
}

// The form of a text's script, and its offset.
fn fault_of(alloc: Global, text: &[u8]) -> Result<Option<(Form, u32)>, Fail> {
    match accepted(alloc, text)? {
        Ok(_) => Ok(None),
        Err(FormFault::Form { form, at }) => Ok(Some((form, at))),
        Err(FormFault::Memory) => Err(Memory)?,
    }
}

// A text as a row has it, behind the first line.
fn spelled(alloc: Global, text: &str) -> Result<Bytes, Memory> {
    let mut whole = Bytes::from_slice(alloc, b"#!/bin/sh\n")?;
    for byte in text.as_bytes() {
        whole.push(match *byte {
            b'N' => b'\n',
            b'B' => b'\\',
            other => other,
        })?;
    }
    Ok(whole)
}

// Whether an answer names a form and its offset.
fn is_form(alloc: Global, form: Form, at: u32, answer: &str) -> Result<bool, Fail> {
    let shown = format!(in alloc; "{} {at}", name(form))?;
    Ok(answer == shown.as_str())
}

// Whether a text is answered as a row says.
fn is_answered(alloc: Global, text: &[u8], answer: &str) -> Result<bool, Fail> {
    match fault_of(alloc, text)? {
        None => Ok(answer == "ok"),
        Some((form, at)) => is_form(alloc, form, at, answer),
    }
}

// Whether a row's text is answered as the row says.
fn holds(alloc: Global, row: &str) -> Result<bool, Fail> {
    match row.split_once(" -> ") {
        None => Ok(false),
        Some((text, answer)) => {
            let whole = spelled(alloc, text)?;
            is_answered(alloc, whole.as_slice(), answer)
        }
    }
}

#[test]
fn forms_are_found(rt: HostRuntime) -> Result<(), Fail> {
    for table in TABLES {
        for row in table.lines() {
            assert!(rt; holds(rt.alloc(), row)?, "{row}");
        }
    }
    Ok(())
}
