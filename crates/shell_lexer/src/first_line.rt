//! NUL bytes, and the first line of a script.

ghost use Rattle.std.specs.Prelude.{◌≡◌, ◌<◌, ◌≤◌, length, drop, MatchOption};
ghost use Rattle.std.specs.Option.{option_copied};
ghost use Rattle.std.specs.List.{list_all};
ghost use Rattle.shell_lexer.specs.Text.{is_blank as blank};
ghost use Rattle.shell_lexer.specs.FirstLine as table;

use crate::bytes::is_blank;

// The place of the first NUL.
pub(crate) fn nul_of(text: &[u8]) -> Option<usize>
    ensures place { result ≡ table.nul_of text.now }
    ensures within { MatchOption result (Unit {0}) (λ at. at < length text.now) }
{
    for i in 0..text.len() {
        if text[i] == 0 {
            return Some(i);
        }
    }
    None
}

// The first line, and the place behind its newline.
pub(crate) fn split_line(text: &[u8]) -> (&[u8], usize)
    ensures line { result.0.now ≡ table.first_line text.now }
    ensures behind { drop result.1 text.now ≡ table.behind_line text.now }
    ensures within { result.1 ≤ length text.now }
{
    for i in 0..text.len() {
        if text[i] == b'\n' {
            return (&text[..i], i + 1);
        }
    }
    (text, text.len())
}

// Whether all bytes are blanks.
fn are_blanks(line: &[u8]) -> bool
    ensures { result ≡ list_all blank line.now }
{
    line.iter().all(|b| is_blank(*b))
}

// From the first byte that is no blank.
fn after_blanks(line: &[u8]) -> &[u8]
    ensures { result.now ≡ table.after_blanks line.now }
{
    for i in 0..line.len() {
        if !is_blank(line[i]) {
            return &line[i..];
        }
    }
    &[]
}

// What follows these bytes, where a line begins with them.
fn after<'a>(wanted: &[u8], line: &'a [u8]) -> Option<&'a [u8]>
    ensures { option_copied result ≡ table.after wanted.now line.now }
{
    match wanted {
        [] => Some(line),
        [byte, more @ ..] => match line {
            [] => None,
            [first, rest @ ..] => {
                if *first == *byte {
                    after(more, rest)
                } else {
                    None
                }
            }
        },
    }
}

// What follows the interpreter.
fn after_interpreter(line: &[u8]) -> Option<&[u8]>
    ensures { option_copied result ≡ table.after_interpreter line.now }
{
    match after(b"/bin/sh", line) {
        Some(rest) => Some(rest),
        None => match after(b"/bin/dash", line) {
            Some(rest) => Some(rest),
            None => after(b"/bin/bash", line),
        },
    }
}

// Whether what follows the interpreter asks for `-e`, where it is of the form.
fn option_of(rest: &[u8]) -> Option<bool>
    ensures { result ≡ table.option_of rest.now }
{
    if are_blanks(rest) {
        return Some(false);
    }
    if !begins_blank(rest) {
        return None;
    }
    match after(b"-e", after_blanks(rest)) {
        None => None,
        Some(end) => { if are_blanks(end) { Some(true) } else { None } }
    }
}

fn begins_blank(line: &[u8]) -> bool
    ensures { result ≡ table.begins_blank line.now }
{
    match line {
        [] => false,
        [b, ..] => is_blank(*b),
    }
}

// Whether the line asks for `-e`, where it is of the form.
pub(crate) fn interpreter(line: &[u8]) -> Option<bool>
    ensures { result ≡ table.interpreter line.now }
{
    match after(b"#!", line) {
        None => None,
        Some(rest) => match after_interpreter(after_blanks(rest)) {
            None => None,
            Some(more) => option_of(more),
        },
    }
}
