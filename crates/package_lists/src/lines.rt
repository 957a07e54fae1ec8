// The lines of a text.
ghost use Rattle.std.specs.Prelude.{◌≡◌, map, IfOk};
ghost use Rattle.feature_trees.specs.TreeLines.{text_lines};

use script_names::Memory;
use shown_texts::cut;
use std::alloc::Global;

/// The lines of a text, without their newlines; the last may lack its own.
pub fn text_lines(alloc: Global, text: &[u8]) -> Result<Vec<&[u8]>, Memory>
    ensures { IfOk result (λ lines. map (λ line. line.now) lines.items ≡ text_lines text.now) }
{
    let mut lines = cut(alloc, text, b'\n')?;
    match lines.pop() {
        None => Ok(lines),
        Some(last) => {
            if last.is_empty() {
                return Ok(lines);
            }
            lines.push(last)?;
            Ok(lines)
        }
    }
}
