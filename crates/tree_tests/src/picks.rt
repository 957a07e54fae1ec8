//! Which of several clauses each of several trees has.

use feature_trees::Value;
use script_names::{Bytes, List, Memory};
use shown_texts::push_number;
use std::alloc::Global;
use std::test::Fail;
use std::thread::Threads;
use tree_clauses::{Clause, read_clause};
use tree_predictions::{NamedTree, PredictFault, predict, read_trees};

// At `/srv/a` stands a link, nothing, a file.
const LINK: &[u8] =
    b"clause start v0 now v0\nkind v0 dir\nentry v0 srv v1\nkind v1 dir\nentry v1 a v2\nkind v2 link\n";

const NONE: &[u8] =
    b"clause start v0 now v0\nkind v0 dir\nentry v0 srv v1\nkind v1 dir\nentry v1 a v2\nkind v2 absent\n";

const FILE: &[u8] =
    b"clause start v0 now v0\nkind v0 dir\nentry v0 srv v1\nkind v1 dir\nentry v1 a v2\nkind v2 reg\n";
// The root has `srv` alone.
const ALONE: &[u8] = b"clause start v0 now v0\nkind v0 dir\nfence v0 {srv}\n";
// Any tree.
const ANY: &[u8] = b"clause start v0 now v0\n";
// Nothing makes known what the tree now is.
const UNSOLVED: &[u8] = b"clause start v0 now v1\nkind v0 dir\n";

const THREE: &[u8] = b"tree one\nd /srv\ntree two\nd /srv\nl /srv/a x\ntree three\nf /srv\n";

const TWO: &[u8] = b"tree a\nd /srv\ntree b\nd /srv\nd /usr\n";

// Clauses, trees, and for each tree the number of its first clause; or the first clause that is in no solved order.
const ROWS: &[(&[&[u8]], &[u8], &[u8])] = &[
    (&[], THREE, b" - - -"),
    (&[LINK, NONE], THREE, b" 2 1 -"),
    (&[NONE, LINK], THREE, b" 1 2 -"),
    (&[NONE, FILE, LINK, FILE], THREE, b" 1 3 -"),
    (&[FILE, FILE, FILE, LINK, LINK], THREE, b" - 4 -"),
    (&[ANY, LINK, NONE], THREE, b" 1 1 1"),
    (&[LINK, ANY, ANY], THREE, b" 2 1 2"),
    (&[ALONE, ANY], TWO, b" 1 2"),
    (&[NONE, ALONE, NONE], TWO, b" 1 1"),
    (&[FILE, ALONE, NONE], TWO, b" 2 3"),
    (&[LINK], b"", b""),
    (&[LINK, UNSOLVED, UNSOLVED], b"", b"unsolved 2"),
    (&[UNSOLVED, LINK], THREE, b"unsolved 1"),
];

// The clauses of texts.
fn clauses(alloc: Global, texts: &[&[u8]]) -> Result<List<Clause>, Memory> {
    let mut clauses = List::new(alloc);
    for text in texts {
        match read_clause(alloc, text) {
            Ok(clause) => clauses.add(clause)?,
            Err(_) => return Err(Memory),
        }
    }
    Ok(clauses)
}

// The trees of a text.
fn trees(alloc: Global, text: &[u8]) -> Result<List<NamedTree>, Memory> {
    match read_trees(alloc, text) {
        Ok(trees) => Ok(trees),
        Err(_) => Err(Memory),
    }
}

fn lent_clauses(alloc: Global, clauses: &[Clause]) -> Result<Vec<&Clause>, Memory> {
    let mut lent = Vec::new(alloc);
    for clause in clauses {
        lent.push(clause)?;
    }
    Ok(lent)
}

fn lent_trees(alloc: Global, trees: &[NamedTree]) -> Result<Vec<&Value>, Memory> {
    let mut lent = Vec::new(alloc);
    for named in trees {
        lent.push(&named.tree)?;
    }
    Ok(lent)
}

// Adds what a pick is told as.
fn tell_pick(text: &mut Bytes, pick: Option<u64>) -> Result<(), Memory> {
    text.extend(b" ")?;
    match pick {
        Some(number) => push_number(text, number),
        None => text.extend(b"-"),
    }
}

// What picks are told as.
fn tell_picks(alloc: Global, picks: &[Option<u64>]) -> Result<Bytes, Memory> {
    let mut text = Bytes::new(alloc);
    for pick in picks {
        tell_pick(&mut text, *pick)?;
    }
    Ok(text)
}

// What the first clause without a solved order is told as.
fn tell_unsolved(alloc: Global, number: u64) -> Result<Bytes, Memory> {
    let mut text = Bytes::from_slice(alloc, b"unsolved ")?;
    push_number(&mut text, number)?;
    Ok(text)
}

// What is answered of clauses and trees.
fn answer<R: Threads + Sync>(
    rt: &R,
    alloc: Global,
    clauses: &[Clause],
    trees: &[NamedTree],
) -> Result<Bytes, Memory> {
    let clauses = lent_clauses(alloc, clauses)?;
    let values = lent_trees(alloc, trees)?;
    match predict(rt, alloc, clauses.as_slice(), values.as_slice()) {
        Ok(picks) => tell_picks(alloc, picks.as_slice()),
        Err(PredictFault::Unsolved { number }) => tell_unsolved(alloc, number),
        Err(PredictFault::Memory) => Err(Memory),
    }
}

// Whether the clauses and trees of a row have its answer.
fn is_answered<R: Threads + Sync>(
    rt: &R,
    alloc: Global,
    texts: &[&[u8]],
    text: &[u8],
    wanted: &[u8],
) -> Result<bool, Memory> {
    let clauses = clauses(alloc, texts)?;
    let trees = trees(alloc, text)?;
    let found = answer(rt, alloc, clauses.as_slice(), trees.as_slice())?;
    Ok(found.as_slice() == wanted)
}

#[test]
fn trees_have_their_first_clause(rt: HostRuntime) -> Result<(), Fail> {
    let alloc = rt.alloc();
    for row in ROWS {
        assert!(rt; is_answered(&rt, alloc, row.0, row.1, row.2)?);
    }
    Ok(())
}
