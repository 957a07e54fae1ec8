ghost use Rattle.std.specs.Prelude.{◌≡◌, ◌++◌, length, take, map, IfOk, OnOk, OnErr};
ghost use Rattle.std.specs.List.{flat_map};
ghost use Rattle.std.specs.Option.{option_map};
ghost use Rattle.shown_texts.specs.Lines.{line, lines_text, lines_of};

use crate::parts::cut;
use script_names::{Bytes, Memory};
use std::alloc::Global;

/// Adds a line to a text: what stands in it, and a newline. For want of memory the text is as before.
pub fn push_line(text: &mut Bytes, content: &[u8]) -> Result<(), Memory>
    ensures ok { OnOk result (text.new ≡ text.old ++ line content.now) }
    ensures kept { OnErr result (text.new ≡ text.old) }
{
    let len = text.len();
    text.extend(content)?;
    match text.extend(b"\n") {
        Ok(()) => Ok(()),
        Err(_) => {
            text.truncate(len);
            Err(Memory)
        }
    }
}

/// Adds lines to a text; for want of memory the text is as before.
pub fn push_lines(text: &mut Bytes, lines: &[Bytes]) -> Result<(), Memory>
    ensures ok { OnOk result (text.new ≡ text.old ++ lines_text lines.now) }
    ensures kept { OnErr result (text.new ≡ text.old) }
{
    let len = text.len();
    match push_each(text, lines) {
        Ok(()) => Ok(()),
        Err(_) => {
            text.truncate(len);
            Err(Memory)
        }
    }
}

// Adds each line.
fn push_each(text: &mut Bytes, lines: &[Bytes]) -> Result<(), Memory>
    ensures ok { OnOk result (text.new ≡ text.old ++ flat_map line lines.now) }
    ensures begins { OnErr result (take (length text.old) text.new ≡ text.old) }
{
    for content in lines {
        push_line(text, content.as_slice())?;
    }
    Ok(())
}

/// The lines of a text, without their newlines; None where the text has bytes and does not end in a newline.
pub fn read_lines(alloc: Global, text: &[u8]) -> Result<Option<Vec<&[u8]>>, Memory>
    ensures { let lines = lines_of text.now in
        IfOk result (λ found. option_map (λ lines. map (λ line. line.now) lines.items) found ≡ lines) }
{
    let mut lines = cut(alloc, text, b'\n')?;
    match lines.pop() {
        None => Ok(None),
        Some(last) => {
            if last.is_empty() {
                Ok(Some(lines))
            } else {
                Ok(None)
            }
        }
    }
}
