//! Texts that grow, and note want of memory, so that no step of a test fails.

use script_names::{Bytes, Memory};
use std::alloc::Global;

/// A text that grows; `whole` where all that was put on it stands there.
#[derive(Drop)]
pub(crate) struct Page {
    pub text: Bytes,
    pub whole: bool,
}

impl Page {
    /// A page without a text.
    pub(crate) fn new(alloc: Global) -> Page {
        Page {
            text: Bytes::new(alloc),
            whole: true,
        }
    }

    /// A page on which nothing was put for want of memory.
    pub(crate) fn lost(alloc: Global) -> Page {
        Page {
            text: Bytes::new(alloc),
            whole: false,
        }
    }

    /// Notes whether a step was done.
    pub(crate) fn note(&mut self, done: Result<(), Memory>) {
        if done.is_err() {
            self.whole = false;
        }
    }

    /// More bytes at the end.
    pub(crate) fn put(&mut self, more: &[u8]) {
        let done = self.text.extend(more);
        self.note(done);
    }

    /// One more byte at the end.
    pub(crate) fn byte(&mut self, byte: u8) {
        self.put(&[byte]);
    }

    /// Whether this is the whole text.
    pub(crate) fn is(&self, text: &[u8]) -> bool {
        self.whole && self.text.as_slice() == text
    }
}

/// A text as a row has it, behind its first line, with the bytes that stand for a newline and for a backslash.
pub(crate) fn spelled(alloc: Global, first: &str, text: &str, newline: u8, backslash: u8) -> Page {
    let mut page = Page::new(alloc);
    page.put(first.as_bytes());
    for byte in text.as_bytes() {
        page.byte(if *byte == newline {
            b'\n'
        } else if *byte == backslash {
            b'\\'
        } else {
            *byte
        });
    }
    page
}

/// A line, with its newline.
pub(crate) fn line(alloc: Global, row: &str) -> Page {
    let mut text = Page::new(alloc);
    text.put(row.as_bytes());
    text.byte(b'\n');
    text
}

/// The text of a program, by its beginning and what stands between that and its last parenthesis.
pub(crate) fn program_text(alloc: Global, begin: &str, row: &str) -> Page {
    let mut text = Page::new(alloc);
    text.put(begin.as_bytes());
    text.put(row.as_bytes());
    text.put(b")\n");
    text
}
