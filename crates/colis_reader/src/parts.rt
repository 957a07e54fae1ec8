ghost use Rattle.std.specs.Prelude.{◌≡◌, IfOk, map};
ghost use Rattle.colis_reader.specs.Readings.{read, reads, member, behind, but_last};

use crate::decoding::stmt_at;
use crate::members::{bytes_at, word_at};
use crate::nest::Nest;
use colis_syntax::{Def, Stmt};
use script_names::{List, Memory};
use std::alloc::Global;

/// The strict flag of the program that the first of these is read as.
#[tactic(auto, using(crate::proofs::MemberReads::of_members), unfolding(crate::specs::Readings::nothing))]
pub(crate) fn strict_in(nests: &[Nest]) -> bool
    ensures { result ≡ (member (reads nests.now) 0).program.strict }
{
    if 0 < nests.len() {
        return strict_of(&nests[0]);
    }
    false
}

/// Its functions.
#[tactic(auto, using(crate::proofs::MemberReads::of_members), unfolding(crate::specs::Readings::nothing))]
pub(crate) fn defs_in(alloc: Global, nests: &[Nest]) -> Result<List<Def>, Memory>
    ensures { IfOk result (λ defs. defs ≡ (member (reads nests.now) 0).program.defs) }
{
    if 0 < nests.len() {
        return defs_of(alloc, &nests[0]);
    }
    Ok(List::new(alloc))
}

/// Its body.
#[tactic(auto, using(crate::proofs::MemberReads::of_members), unfolding(crate::specs::Readings::nothing))]
pub(crate) fn body_in(alloc: Global, nests: &[Nest]) -> Result<Stmt, Memory>
    ensures { IfOk result (λ body. body ≡ (member (reads nests.now) 0).program.body) }
{
    if 0 < nests.len() {
        return body_of(alloc, &nests[0]);
    }
    Ok(Stmt::Skip)
}

#[tactic(auto, unfolding(crate::specs::Readings::read, crate::specs::Readings::node_read))]
fn strict_of(nest: &Nest) -> bool
    ensures { result ≡ (read nest.now).program.strict }
{
    match nest {
        Nest::Node(_, members) => word_at(members.as_slice(), 1) == b"strict".as_slice(),
    }
}

#[tactic(auto, unfolding(crate::specs::Readings::read, crate::specs::Readings::node_read))]
fn defs_of(alloc: Global, nest: &Nest) -> Result<List<Def>, Memory>
    ensures { IfOk result (λ defs. defs ≡ (read nest.now).program.defs) }
{
    match nest {
        Nest::Node(_, members) => {
            read_defs(alloc, before_last(behind(behind(members.as_slice()))))
        }
    }
}

#[tactic(auto, unfolding(crate::specs::Readings::read, crate::specs::Readings::node_read))]
fn body_of(alloc: Global, nest: &Nest) -> Result<Stmt, Memory>
    ensures { IfOk result (λ body. body ≡ (read nest.now).program.body) }
{
    match nest {
        Nest::Node(_, members) => {
            let rest = behind(behind(members.as_slice()));
            stmt_at(alloc, rest, rest.len().saturating_sub(1))
        }
    }
}

// The parts behind the first.
fn behind(nests: &[Nest]) -> &[Nest]
    ensures { reads result.now ≡ behind (reads nests.now) }
{
    match nests {
        [] => nests,
        [_, rest @ ..] => rest,
    }
}

// The parts before the last.
#[tactic(auto, using(crate::proofs::MemberReads::but_last_reads))]
fn before_last(nests: &[Nest]) -> &[Nest]
    ensures { reads result.now ≡ but_last (reads nests.now) }
{
    &nests[..nests.len().saturating_sub(1)]
}

fn read_defs(alloc: Global, nests: &[Nest]) -> Result<List<Def>, Memory>
    ensures { IfOk result (λ defs. defs ≡ map (λ r. r.def) (reads nests.now)) }
{
    let mut defs = List::new(alloc);
    for nest in nests {
        let def = read_def(alloc, nest)?;
        defs.add(def)?;
    }
    Ok(defs)
}

#[tactic(auto, unfolding(crate::specs::Readings::read, crate::specs::Readings::node_read))]
fn read_def(alloc: Global, nest: &Nest) -> Result<Def, Memory>
    ensures { IfOk result (λ def. def ≡ (read nest.now).def) }
{
    match nest {
        Nest::Node(_, members) => {
            let name = bytes_at(alloc, members.as_slice(), 1)?;
            let body = stmt_at(alloc, members.as_slice(), 2)?;
            Ok(Def { name, body })
        }
    }
}
