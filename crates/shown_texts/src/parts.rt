ghost use Rattle.std.specs.Prelude.{◌≡◌, IfOk, map};
ghost use Rattle.shown_texts.specs.Parts.{parts};

use script_names::Memory;
use std::alloc::Global;

/// What stands between the bytes `at` of a text, before the first and after the last too; a part may be empty.
pub fn cut(alloc: Global, text: &[u8], at: u8) -> Result<Vec<&[u8]>, Memory>
    ensures { IfOk result (λ found. map (λ part. part.now) found.items ≡ parts at text.now) }
{
    let found = text.split(|b| *b == at).collect(alloc)?;
    Ok(found)
}
