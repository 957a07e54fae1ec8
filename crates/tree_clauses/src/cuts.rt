ghost use Rattle.std.specs.Prelude.{◌≡◌, IfOk, map};
ghost use Rattle.tree_clauses.specs.Cuts.{pieces, ends_line, ends_word, ends_member};

use script_names::Memory;
use std::alloc::Global;

/// The pieces between bytes that end a line.
pub(crate) fn line_pieces(alloc: Global, text: &[u8]) -> Result<Vec<&[u8]>, Memory>
    ensures { IfOk result (λ found. map (λ piece. piece.now) found.items ≡ pieces ends_line text.now) }
{
    let found = text
        .split(|b| *b == b'\n')
        .filter(|piece| !piece.is_empty())
        .collect(alloc)?;
    Ok(found)
}

/// The pieces between bytes that end a word.
pub(crate) fn word_pieces(alloc: Global, text: &[u8]) -> Result<Vec<&[u8]>, Memory>
    ensures { IfOk result (λ found. map (λ piece. piece.now) found.items ≡ pieces ends_word text.now) }
{
    let found = text
        .split(|b| *b == b' ')
        .filter(|piece| !piece.is_empty())
        .collect(alloc)?;
    Ok(found)
}

/// The pieces between bytes that end a member of a list.
pub(crate) fn member_pieces(alloc: Global, text: &[u8]) -> Result<Vec<&[u8]>, Memory>
    ensures { IfOk result (λ found. map (λ piece. piece.now) found.items ≡ pieces ends_member text.now) }
{
    let found = text
        .split(|b| ends_member(*b))
        .filter(|piece| !piece.is_empty())
        .collect(alloc)?;
    Ok(found)
}

// Whether the byte ends a member of a list.
fn ends_member(b: u8) -> bool
    ensures { result ≡ ends_member b }
{
    b == b',' || b == b'{' || b == b'}'
}
