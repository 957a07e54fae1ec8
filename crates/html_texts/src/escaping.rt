//! A text within a page.

ghost use Rattle.std.specs.Prelude.{◌≡◌, ◌++◌, OnOk};
ghost use Rattle.html_texts.specs.Escaped.{escaped_byte, escaped, html_text};

use crate::visible::visible;
use script_names::{Bytes, Memory};
use std::alloc::Global;

// Adds a byte.
fn push_escaped_byte(text: &mut Bytes, byte: u8) -> Result<(), Memory>
    ensures { OnOk result (text.new ≡ text.old ++ escaped_byte byte) }
{
    match byte {
        b'<' => text.extend(b"&lt;"),
        b'>' => text.extend(b"&gt;"),
        b'&' => text.extend(b"&amp;"),
        b'"' => text.extend(b"&quot;"),
        b'\'' => text.extend(b"&#39;"),
        _ => text.push(byte),
    }
}

// Adds each byte.
fn push_escaped(text: &mut Bytes, bytes: &[u8]) -> Result<(), Memory>
    ensures { OnOk result (text.new ≡ text.old ++ escaped bytes.now) }
{
    for byte in bytes {
        push_escaped_byte(text, *byte)?;
    }
    Ok(())
}

/// Adds bytes to a page, as a text in an element or in an attribute's quotes: the text that is shown for them, in which
/// `<`, `>`, `&`, `"` and `'` are written as character references (HTML Standard, 13.5). For want of memory some of it
/// may stand there.
#[tactic(auto, unfolding(crate::specs::Escaped::html_text))]
pub fn push_html(alloc: Global, text: &mut Bytes, bytes: &[u8]) -> Result<(), Memory>
    ensures { OnOk result (text.new ≡ text.old ++ html_text bytes.now) }
{
    let shown = visible(alloc, bytes)?;
    push_escaped(text, shown.as_slice())
}
