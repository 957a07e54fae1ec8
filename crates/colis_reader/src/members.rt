ghost use Rattle.std.specs.Prelude.{◌≡◌, IfOk};
ghost use Rattle.colis_reader.specs.Readings.{read, reads, member, number_in, argument_in, bytes_in, reason_in};

use crate::nest::Nest;
use script_names::{Bytes, Memory, Reason};
use shown_texts::{read_number, read_reason, read_shown};
use std::alloc::Global;

/// The word of a part.
#[tactic(auto, unfolding(crate::specs::Readings::read, crate::specs::Readings::node_read))]
pub(crate) fn word_of(nest: &Nest) -> &[u8]
    ensures { result.now ≡ (read nest.now).word }
{
    match nest {
        Nest::Node(word, _) => word.as_slice(),
    }
}

/// The word of the member at a place; no bytes where there is none.
#[tactic(auto, using(crate::proofs::MemberReads::of_members), unfolding(crate::specs::Readings::nothing))]
pub(crate) fn word_at(nests: &[Nest], at: usize) -> &[u8]
    ensures { result.now ≡ (member (reads nests.now) at).word }
{
    if at < nests.len() {
        return word_of(&nests[at]);
    }
    b""
}

/// The number below 2 ^ 32 that the member at a place is, or 0.
#[tactic(auto, unfolding(crate::specs::Readings::number_in))]
pub(crate) fn number_at(nests: &[Nest], at: usize) -> u32
    ensures { result ≡ number_in (member (reads nests.now) at).word }
{
    read_number(word_at(nests, at), u32::MAX).unwrap_or(0)
}

/// The number of an argument that the member at a place is, or 0.
#[tactic(auto, unfolding(crate::specs::Readings::argument_in))]
pub(crate) fn argument_at(nests: &[Nest], at: usize) -> u8
    ensures { result ≡ argument_in (member (reads nests.now) at).word }
{
    read_number(word_at(nests, at), 255).unwrap_or(0) as u8
}

/// The reason that the member at a place names, or `call`.
#[tactic(auto, unfolding(crate::specs::Readings::reason_in))]
pub(crate) fn reason_at(nests: &[Nest], at: usize) -> Reason
    ensures { result ≡ reason_in (member (reads nests.now) at).word }
{
    read_reason(word_at(nests, at)).unwrap_or(Reason::Call)
}

/// The bytes that the member at a place spells, or none.
pub(crate) fn bytes_at(alloc: Global, nests: &[Nest], at: usize) -> Result<Bytes, Memory>
    ensures { IfOk result (λ bytes. bytes ≡ bytes_in (member (reads nests.now) at).word) }
{
    spelled(alloc, word_at(nests, at))
}

/// The bytes that a word spells, or none.
#[tactic(auto, unfolding(crate::specs::Readings::bytes_in))]
pub(crate) fn spelled(alloc: Global, word: &[u8]) -> Result<Bytes, Memory>
    ensures { IfOk result (λ bytes. bytes ≡ bytes_in word.now) }
{
    match read_shown(alloc, word)? {
        Some(bytes) => Ok(bytes),
        None => Ok(Bytes::new(alloc)),
    }
}
