//! A directory without an entry that was taken away from it: it is empty, or has another entry. And the entry that is
//! shown of a directory that is not empty.

ghost use Rattle.std.specs.Prelude.{◌<◌, ◌≤◌, IfOk, IfSome, IsTrue};
ghost use Rattle.clause_solver.specs.Stands.{Alive};

use crate::steps::Step::{Filled, LeavesNothing, ShowsAnother};
use crate::steps::{Step, is_done_alone};
use clause_solver::Store;
use feature_trees::{Kind, Kinds, Special, Value, print_tree};
use script_names::{Bytes, Memory, Name, NameFault};
use std::alloc::Global;
use tree_clauses::Var;

/// A store in which x is a directory, and the variable of x without an entry; none where x is no directory.
pub(crate) fn without(s: &mut Store, x: Var, f: &Name) -> Result<Option<Var>, Memory>
    requires { x.0 < s.old.count }
    ensures known { IfOk result (λ found. IfSome found (λ y. y.0 < s.new.count)) }
    ensures more { s.old.count ≤ s.new.count }
{
    let gone = s.made_absent()?;
    let left = s.limit(x, Kinds::of(Kind::Dir))?;
    if !left {
        return Ok(None);
    }
    let y = s.derive(x, f, gone)?;
    Ok(Some(y))
}

// Whether a variable can have an entry, where x without the entry f has none or is left open.
fn can_be_filled(s: &mut Store, x: Var, f: &Name, closed: bool) -> Result<bool, Memory>
    requires { x.0 < s.old.count }
    ensures { IfOk result (λ left. IsTrue left → Alive s.new) }
{
    match without(s, x, f)? {
        None => Ok(false),
        Some(y) => {
            if closed {
                s.empty(y)?;
            }
            let left = s.not_empty(x)?;
            Ok(left)
        }
    }
}

// Lets an entry of `/srv` be of one of these kinds; the variable of `/srv`.
fn opened(s: &mut Store, srv: &Name, a: &Name, kinds: Kinds) -> Result<Var, Memory>
    ensures { IfOk result (λ x. x.0 < s.new.count) }
{
    let now = s.now();
    let x = s.child(now, srv)?;
    let y = s.child(x, a)?;
    s.limit(y, kinds)?;
    Ok(x)
}

// Whether the value is a directory with another entry than this one.
fn has_another(value: Option<&Value>, a: &Name) -> bool {
    match value {
        Some(Value::Dir(entries)) => entries.len() > 0 && entries.get(a).is_none(),
        _ => false,
    }
}

// The two names of a path.
fn names(alloc: Global, second: &[u8]) -> Result<(Name, Name), NameFault> {
    let srv = Name::read(alloc, b"srv")?;
    let name = Name::read(alloc, second)?;
    Ok((srv, name))
}

// Whether the shown tree has another entry where `/srv` without an entry that is absent is to have one.
fn another_is_shown(alloc: Global, s: &mut Store, srv: &Name, a: &Name) -> Result<bool, Memory> {
    let x = opened(s, srv, a, Kinds::of(Kind::Absent))?;
    let left = can_be_filled(s, x, a, false)?;
    if !left {
        return Ok(false);
    }
    let tree = s.start_tree(alloc)?;
    Ok(has_another(tree.entry(srv), a))
}

/// Whether the shown tree has another entry than `/srv/a` where `/srv` without `/srv/a`, which is absent, is to have
/// one.
pub(crate) fn shows_another(alloc: Global, s: &mut Store) -> bool {
    match names(alloc, b"a") {
        Ok((srv, a)) => matches!(another_is_shown(alloc, s, &srv, &a), Ok(true)),
        Err(_) => false,
    }
}

// Whether something is left where `/srv` without an entry that is absent is empty, and is to have an entry.
fn is_anything_left(s: &mut Store, srv: &Name, a: &Name) -> Result<bool, Memory> {
    let x = opened(s, srv, a, Kinds::of(Kind::Absent))?;
    can_be_filled(s, x, a, true)
}

/// Whether nothing is left where `/srv` without `/srv/a`, which is absent, is empty, and is to have an entry.
pub(crate) fn leaves_nothing(alloc: Global, s: &mut Store) -> bool {
    match names(alloc, b"a") {
        Ok((srv, a)) => matches!(is_anything_left(s, &srv, &a), Ok(false)),
        Err(_) => false,
    }
}

// The shown tree where `/srv` is not empty and an entry of it is of one of these kinds; no text where no tree is so.
fn filled_tree(
    alloc: Global,
    s: &mut Store,
    srv: &Name,
    b: &Name,
    kinds: Kinds,
) -> Result<Bytes, Memory> {
    let x = opened(s, srv, b, kinds)?;
    let left = s.not_empty(x)?;
    if !left {
        return Ok(Bytes::new(alloc));
    }
    let tree = s.start_tree(alloc)?;
    let text = print_tree(alloc, &tree)?;
    Ok(text)
}

// The same of `/srv/b`.
fn filled_text(alloc: Global, s: &mut Store, kinds: Kinds) -> Result<Bytes, NameFault> {
    let (srv, b) = names(alloc, b"b")?;
    Ok(filled_tree(alloc, s, &srv, &b, kinds)?)
}

/// Whether the shown tree where `/srv` is not empty and `/srv/b` is of one of two kinds is this one.
pub(crate) fn is_filled(alloc: Global, s: &mut Store, one: Kind, other: Kind, text: &str) -> bool {
    let kinds = Kinds::either(Kinds::of(one), Kinds::of(other));
    match filled_text(alloc, s, kinds) {
        Ok(shown) => shown.as_slice() == text.as_bytes(),
        Err(_) => false,
    }
}

// In `Filled`, an entry is made up only where `/srv/b` cannot stand there.
const STEPS: &[Step] = &[
    ShowsAnother,
    LeavesNothing,
    Filled(Kind::Reg, Kind::Reg, "d /srv\nf /srv/b\n"),
    Filled(Kind::Link, Kind::Link, "d /srv\nl /srv/b x\n"),
    Filled(
        Kind::Special(Special::Fifo),
        Kind::Absent,
        "d /srv\np /srv/b\n",
    ),
    Filled(
        Kind::Absent,
        Kind::Special(Special::Socket),
        "d /srv\ns /srv/b\n",
    ),
    Filled(
        Kind::Special(Special::Block),
        Kind::Absent,
        "d /srv\nb /srv/b\n",
    ),
    Filled(
        Kind::Absent,
        Kind::Special(Special::Char),
        "d /srv\nc /srv/b\n",
    ),
    Filled(
        Kind::Special(Special::Char),
        Kind::Special(Special::Socket),
        "d /srv\ns /srv/b\n",
    ),
    Filled(Kind::Absent, Kind::Reg, "d /srv\nf /srv/b\n"),
    Filled(Kind::Reg, Kind::Dir, "d /srv\nd /srv/b\n"),
    Filled(
        Kind::Absent,
        Kind::Absent,
        "d /srv\nf /srv/aaaaaaaaaaaaaaaaaaaaaaaaaaaaaaaa\n",
    ),
];

#[test]
fn emptied_directories_are_filled(rt: HostRuntime) {
    for step in STEPS {
        assert!(rt; is_done_alone(rt.alloc(), step));
    }
}
