//! What is seen of a call's outputs.

use super::Ended;

// What standard output and standard error have to take, in turn.
#[derive(Clone, Copy)]
pub enum Seen {
    // These texts.
    Whole(&'static [u8], &'static [u8]),
    // What begins so, and this text.
    Begun(&'static [u8], &'static [u8]),
    // A brief report on an installation, this from the number of outcomes on, and nothing.
    Report(&'static [u8]),
    // What comes to these lines without the clauses, and without the trees, which are not promised; and nothing.
    Stated(&'static [u8]),
    // Nothing, and the refusal of the script of a package, this from what is said of it on.
    Refusal(&'static [u8]),
    // Anything, and this text.
    Line(&'static [u8]),
    // Anything, and a text at whose end no number is greater.
    AtMost(usize),
    // Anything, and anything.
    Any,
}

fn are_same(bytes: &[u8], others: &[u8]) -> bool {
    bytes == others
}

// Whether a text has these two parts.
fn is_joined(bytes: &[u8], first: &[u8], second: &[u8]) -> bool {
    bytes.strip_prefix(first) == Some(second)
}

// How the lines begin that are neither of a clause nor of a tree.
const STARTS: &[&[u8]] = &[
    b"colis ",
    b"scenario ",
    b"outcome ",
    b"trace",
    b"confirmed ",
    b"call ",
    b"place ",
    b"verdict ",
];

fn is_kept(line: &[u8]) -> bool {
    for start in STARTS {
        if line.starts_with(start) {
            return true;
        }
    }
    false
}

// What stands behind this first line.
fn behind<'a>(lines: &'a [u8], line: &[u8]) -> Option<&'a [u8]> {
    lines.strip_prefix(line)?.strip_prefix(b"\n")
}

// Whether the lines of a report that are kept are these.
fn is_stated(report: &[u8], lines: &[u8]) -> bool {
    let mut rest = lines;
    for line in report.split(|b| *b == b'\n') {
        if is_kept(line) {
            match behind(rest, line) {
                Some(more) => rest = more,
                None => return false,
            }
        }
    }
    rest.is_empty()
}

// The number at the end of a line; 0 where there is none.
fn last_number(line: &[u8]) -> usize {
    let mut number = 0usize;
    for byte in line {
        if byte.is_ascii_digit() {
            number = number
                .saturating_mul(10)
                .saturating_add(usize::from(byte.saturating_sub(b'0')));
        } else if *byte != b'\n' {
            number = 0;
        }
    }
    number
}

// Whether the texts are what was to be seen.
fn are_seen(out: &[u8], err: &[u8], seen: &Seen) -> bool {
    match seen {
        Seen::Whole(text, line) => are_same(out, text) && are_same(err, line),
        Seen::Begun(text, line) => out.starts_with(text) && are_same(err, line),
        Seen::Report(text) => {
            is_joined(out, b"colis brief 2\nscenario install outcomes ", text) && err.is_empty()
        }
        Seen::Stated(lines) => is_stated(out, lines) && err.is_empty(),
        Seen::Refusal(line) => out.is_empty() && is_joined(err, b"colis: p/postinst: ", line),
        Seen::Line(line) => are_same(err, line),
        Seen::AtMost(number) => last_number(err) <= *number,
        Seen::Any => true,
    }
}

// Whether what came of a call is what was to be seen.
pub fn is_seen(ended: &Ended, seen: &Seen) -> bool {
    are_seen(ended.out.bytes(), ended.err.bytes(), seen)
}
