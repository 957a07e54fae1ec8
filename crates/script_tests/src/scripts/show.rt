//! A tree as text: a node is `(`, its name, its offset where offsets are shown, its members with a blank before
//! each, and `)`.

use script_names::{Boxed, Bytes, List};
use shell_syntax::{Assign, CaseArm, Command, IfArm, Key, Link, Part, Redirect, Word};
use std::alloc::Global;

// A text that grows, with the offsets of nodes or without; `whole` where nothing of it was lost for want of memory.
#[derive(Drop)]
pub(crate) struct Page {
    alloc: Global,
    pub text: Bytes,
    pub with_offsets: bool,
    pub whole: bool,
}

impl Page {
    // A page without a text, with the offsets of nodes.
    pub(crate) fn new(alloc: Global) -> Page {
        Page {
            alloc,
            text: Bytes::new(alloc),
            with_offsets: true,
            whole: true,
        }
    }

    // More bytes at the end.
    pub(crate) fn put(&mut self, more: &[u8]) {
        if self.text.extend(more).is_err() {
            self.whole = false;
        }
    }

    // One more byte at the end.
    pub(crate) fn byte(&mut self, byte: u8) {
        self.put(&[byte]);
    }

    // A number in decimal, behind a blank.
    pub(crate) fn number(&mut self, number: u32) {
        match format!(in self.alloc; " {number}") {
            Ok(digits) => self.put(digits.as_bytes()),
            Err(_) => self.whole = false,
        }
    }

    // The beginning of a node.
    fn head(&mut self, head: &str, at: u32) {
        self.put(head.as_bytes());
        if self.with_offsets {
            self.number(at);
        }
    }

    // The end of a node.
    fn close(&mut self) {
        self.put(b")");
    }

    // Bytes between two marks; those that are not printed, the marks and a backslash by their number.
    fn bytes(&mut self, mark: u8, bytes: &Bytes) {
        self.byte(mark);
        for byte in bytes.as_slice() {
            let byte = *byte;
            if byte < 32 || byte > 126 || byte == b'\\' || byte == b'"' || byte == b'\'' {
                self.put(b"\\x");
                self.byte(digit(byte / 16));
                self.byte(digit(byte % 16));
            } else {
                self.byte(byte);
            }
        }
        self.byte(mark);
    }

    fn key(&mut self, key: &Key) {
        match key {
            Key::Named(name) => self.put(name.as_slice()),
            Key::Arg(number) => self.byte(digit(*number)),
            Key::Count => self.put(b"#"),
        }
    }

    // A parameter; the default, if there is one, behind `:-`.
    fn param(&mut self, key: &Key, default: &Option<Bytes>, quoted: bool) {
        self.put(if quoted {
            b"q$".as_slice()
        } else {
            b"$".as_slice()
        });
        self.key(key);
        if let Some(bytes) = default {
            self.put(b":-");
            self.bytes(b'"', bytes);
        }
    }
}

// One of 16 digits.
fn digit(value: u8) -> u8 {
    match value {
        0..10 => b'0' + value,
        10..16 => b'a' + (value - 10),
        _ => b'?',
    }
}

#[cycle(showing)]
fn show_part(page: &mut Page, part: &Part) {
    page.put(b" ");
    match part {
        Part::Plain(bytes) => page.bytes(b'"', bytes),
        Part::Quoted(bytes) => page.bytes(b'\'', bytes),
        Part::Param {
            key,
            default,
            quoted,
        } => page.param(key, default, *quoted),
        Part::All => page.put(b"@"),
        Part::Run { at, body, quoted } => {
            page.head(if *quoted { "(qrun" } else { "(run" }, *at);
            show_command(page, body.get());
            page.close();
        }
    }
}

#[cycle(showing)]
fn show_word(page: &mut Page, word: &Word) {
    page.head(" (w", word.at);
    for part in word.parts.as_slice() {
        show_part(page, part);
    }
    page.close();
}

#[cycle(showing)]
fn show_assign(page: &mut Page, assign: &Assign) {
    page.put(b" (= ");
    page.put(assign.name.as_slice());
    show_word(page, &assign.value);
    page.close();
}

#[cycle(showing)]
fn show_commands(page: &mut Page, commands: &List<Command>) {
    for command in commands.as_slice() {
        show_command(page, command);
    }
    page.close();
}

fn redirect_name(redirect: Redirect) -> &'static str {
    match redirect {
        Redirect::OutNull => " out-null",
        Redirect::ErrNull => " err-null",
        Redirect::InNull => " in-null",
        Redirect::OutToErr => " out-to-err",
        Redirect::ErrToOut => " err-to-out",
    }
}

#[cycle(showing)]
fn show_link(page: &mut Page, link: &Link) {
    page.put(if link.and {
        b" (and".as_slice()
    } else {
        b" (or".as_slice()
    });
    show_command(page, &link.command);
    page.close();
}

#[cycle(showing)]
fn show_if_arm(page: &mut Page, arm: &IfArm) {
    page.put(b" (arm");
    show_command(page, &arm.cond);
    show_command(page, &arm.body);
    page.close();
}

#[cycle(showing)]
fn show_else(page: &mut Page, otherwise: &Option<Boxed<Command>>) {
    if let Some(body) = otherwise {
        page.put(b" (else");
        show_command(page, body.get());
        page.close();
    }
}

#[cycle(showing)]
fn show_in(page: &mut Page, words: &Option<List<Word>>) {
    if let Some(words) = words {
        page.put(b" (in");
        for word in words.as_slice() {
            show_word(page, word);
        }
        page.close();
    }
}

#[cycle(showing)]
fn show_case_arm(page: &mut Page, arm: &CaseArm) {
    page.put(b" (arm");
    for pattern in arm.patterns.as_slice() {
        show_word(page, pattern);
    }
    show_command(page, &arm.body);
    page.close();
}

// A node of an offset and one command.
#[cycle(showing)]
fn show_one(page: &mut Page, head: &str, at: u32, body: &Boxed<Command>) {
    page.head(head, at);
    show_command(page, body.get());
    page.close();
}

#[cycle(showing)]
fn show_compound(page: &mut Page, command: &Command) {
    match command {
        Command::If {
            at,
            arms,
            otherwise,
        } => {
            page.head(" (if", *at);
            for arm in arms.as_slice() {
                show_if_arm(page, arm);
            }
            show_else(page, otherwise);
        }
        Command::For {
            at,
            name,
            words,
            body,
        } => {
            page.head(" (for", *at);
            page.put(b" ");
            page.put(name.as_slice());
            show_in(page, words);
            show_command(page, body.get());
        }
        Command::Case { at, subject, arms } => {
            page.head(" (case", *at);
            show_word(page, subject);
            for arm in arms.as_slice() {
                show_case_arm(page, arm);
            }
        }
        _ => page.put(b" ?"),
    }
    page.close();
}

// A command that holds commands in a row, or a loop.
#[cycle(showing)]
fn show_row(page: &mut Page, command: &Command) {
    match command {
        Command::Chain { first, rest } => {
            page.put(b" (chain");
            show_command(page, first.get());
            for link in rest.as_slice() {
                show_link(page, link);
            }
            page.close();
        }
        Command::Pipe { at, parts } => {
            page.head(" (pipe", *at);
            show_commands(page, parts);
        }
        Command::Seq(commands) => {
            page.put(b" (seq");
            show_commands(page, commands);
        }
        Command::While {
            at,
            until,
            cond,
            body,
        } => {
            page.head(if *until { " (until" } else { " (while" }, *at);
            show_command(page, cond.get());
            show_command(page, body.get());
            page.close();
        }
        _ => show_compound(page, command),
    }
}

#[cycle(showing)]
fn show_redirected(page: &mut Page, at: u32, body: &Boxed<Command>, redirects: &List<Redirect>) {
    page.head(" (redir", at);
    show_command(page, body.get());
    for redirect in redirects.as_slice() {
        page.put(redirect_name(*redirect).as_bytes());
    }
    page.close();
}

// A command, by its form and its members.
#[cycle(showing)]
pub(crate) fn show_command(page: &mut Page, command: &Command) {
    match command {
        Command::Simple { at, assigns, words } => {
            page.head(" (simple", *at);
            for assign in assigns.as_slice() {
                show_assign(page, assign);
            }
            for word in words.as_slice() {
                show_word(page, word);
            }
            page.close();
        }
        Command::Redirected {
            at,
            body,
            redirects,
        } => show_redirected(page, *at, body, redirects),
        Command::Not { at, body } => show_one(page, " (not", *at, body),
        Command::Sub { at, body } => show_one(page, " (sub", *at, body),
        Command::Define { at, name, body } => {
            page.head(" (define", *at);
            page.put(b" ");
            page.put(name.as_slice());
            show_command(page, body.get());
            page.close();
        }
        _ => show_row(page, command),
    }
}
