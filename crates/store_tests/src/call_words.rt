//! The words of a call, and the cases of what it comes to.

ghost use Rattle.std.specs.Prelude.{◌≡◌, All, IfOk};
ghost use Rattle.tree_clauses.specs.Plain.{IsPlain};
ghost use Rattle.utility_calls.specs.Backs.{names_of};

use act_cases::{back_cases, cases};
use script_names::{Boxed, Bytes, List, Memory, Path, PathFault, Reason};
use std::alloc::Global;
use tree_clauses::Case;
use utility_calls::acts::Act;
use utility_calls::backs::Back;
use utility_calls::calls::{Planned, plan};

// The parts of a text between its blanks.
fn words(alloc: Global, text: &str) -> Result<List<Bytes>, Memory> {
    let mut all = List::new(alloc);
    for part in text.split(' ') {
        let word = Bytes::from_slice(alloc, part.as_bytes())?;
        all.add(word)?;
    }
    Ok(all)
}

// The cases of an act; none where it is not performed on trees.
fn act_cases(alloc: Global, act: &Act) -> Result<List<Case>, Memory>
    ensures { IfOk result (All IsPlain) }
{
    if !act.is_performed() {
        return Ok(List::new(alloc));
    }
    let found = cases(alloc, act)?;
    Ok(found)
}

// The cases of the last act of the first operand.
fn change_cases(alloc: Global, all: &[List<Act>]) -> Result<List<Case>, Memory>
    ensures { IfOk result (All IsPlain) }
{
    for acts in all {
        if let Some(last) = acts.as_slice().last() {
            return act_cases(alloc, last);
        }
    }
    Ok(List::new(alloc))
}

// The cases of the act of a plan, or of the last act of its first operand; none where the plan has no act.
fn plan_cases(alloc: Global, planned: &Planned) -> Result<List<Case>, Memory>
    ensures { IfOk result (All IsPlain) }
{
    match planned {
        Planned::Ask { act, negate: _ } => act_cases(alloc, act),
        Planned::Change(all) => change_cases(alloc, all.as_slice()),
        _ => Ok(List::new(alloc)),
    }
}

// The plan of a call.
fn plan_of(alloc: Global, text: &str) -> Result<Boxed<Planned>, Memory> {
    let list = words(alloc, text)?;
    if list.len() == 0 {
        return Boxed::new(alloc, Planned::Unspecified(Reason::Empty));
    }
    let planned = plan(alloc, &list)?;
    Boxed::new(alloc, planned)
}

/// The cases of the last act of a call's first operand; none where the call has no act.
pub(crate) fn call_cases(alloc: Global, text: &str) -> Result<List<Case>, Memory>
    ensures { IfOk result (All IsPlain) }
{
    let planned = plan_of(alloc, text)?;
    plan_cases(alloc, planned.get())
}

// An act behind a pointer.
fn boxed(alloc: Global, act: Act) -> Result<Option<Boxed<Act>>, Memory> {
    let act = Boxed::new(alloc, act)?;
    Ok(Some(act))
}

// The link to `t` that a package manager places.
fn link(alloc: Global, p: Path) -> Result<Option<Boxed<Act>>, Memory> {
    let target = Bytes::from_slice(alloc, b"t")?;
    boxed(alloc, Act::PlaceLink { p, target })
}

// The act of a package manager that a word names.
fn placed(alloc: Global, name: &str, p: Path) -> Result<Option<Boxed<Act>>, Memory> {
    match name {
        "PlaceFile" => boxed(alloc, Act::PlaceFile(p)),
        "PlaceConf" => boxed(alloc, Act::PlaceConf(p)),
        "Discard" => boxed(alloc, Act::Discard(p)),
        "DiscardDir" => boxed(alloc, Act::DiscardDir(p)),
        "PlaceLink" => link(alloc, p),
        _ => Ok(None),
    }
}

/// The cases of the act of a package manager that a text names by a word and a path; none where it names none.
pub(crate) fn placed_cases(alloc: Global, text: &str) -> Result<List<Case>, PathFault>
    ensures { IfOk result (All IsPlain) }
{
    let (name, path) = text.split_once(' ').unwrap_or(("", "/"));
    let p = Path::read(alloc, path.as_bytes())?;
    match placed(alloc, name, p)? {
        Some(act) => Ok(act_cases(alloc, act.get())?),
        None => Ok(List::new(alloc)),
    }
}

// The back of a path that a word names.
fn returned(name: &[u8], p: Path) -> Back
    ensures { names_of result ≡ p.names }
{
    match name {
        b"Folder" => Back::Folder(p),
        _ => Back::File(p),
    }
}

/// The cases of the back that a text names by a word and a path; none where the path has no name.
pub(crate) fn returned_cases(alloc: Global, text: &str) -> Result<List<Case>, PathFault> {
    let (name, path) = text.split_once(' ').unwrap_or(("", "/"));
    let p = Path::read(alloc, path.as_bytes())?;
    if p.names().len() == 0 {
        return Ok(List::new(alloc));
    }
    let back = returned(name.as_bytes(), p);
    Ok(back_cases(alloc, &back)?)
}
