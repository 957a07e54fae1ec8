//! The rows that acts take on trees.

use crate::plans::plan_of;
use concrete_utils::steps::act;
use feature_trees::{Entries, Special, Value, read_tree};
use script_names::{Boxed, Bytes, Copied, Done, List, Memory, Path, PathFault, Reason};
use std::alloc::Global;
use utility_calls::acts::Act;
use utility_calls::calls::Planned;

// A value of the kind that a letter names; a link leads to `t`.
fn value(alloc: Global, letter: &[u8]) -> Result<Value, Memory> {
    match letter {
        b"d" => Ok(Value::Dir(Entries::new(alloc))),
        b"f" => Ok(Value::Reg),
        b"l" => Ok(Value::Link(Bytes::from_slice(alloc, b"t")?)),
        b"p" => Ok(Value::Special(Special::Fifo)),
        b"s" => Ok(Value::Special(Special::Socket)),
        b"b" => Ok(Value::Special(Special::Block)),
        b"c" => Ok(Value::Special(Special::Char)),
        _ => Ok(Value::Absent),
    }
}

// Puts a value on a tree, by a letter and a path.
fn put_one(alloc: Global, tree: &mut Value, letter: &str, path: &str) -> Result<(), PathFault> {
    let p = Path::read(alloc, path.as_bytes())?;
    if p.names().is_empty() {
        return Err(PathFault::Empty);
    }
    match tree.put(&p, value(alloc, letter.as_bytes())?) {
        Ok(()) => Ok(()),
        Err(_) => Err(PathFault::Empty),
    }
}

// Puts what a text names on a tree: a letter and a path, and further ones behind a comma.
fn put_all(alloc: Global, tree: &mut Value, text: &str) -> Result<(), PathFault> {
    for part in text.split(',') {
        if let Some((letter, path)) = part.split_once(' ') {
            put_one(alloc, tree, letter, path)?;
        }
    }
    Ok(())
}

// Puts what the lines of a text name on a tree.
fn fill(alloc: Global, tree: &mut Value, on: &str) -> Result<(), PathFault> {
    for line in on.lines() {
        put_all(alloc, tree, line)?;
    }
    Ok(())
}

/// The tree of what the lines of a text name: `d` a directory, `f` a file, `l` a link, `p` a pipe, `s` a socket, `b` a
/// block device, `c` a character device.
pub(crate) fn sample(alloc: Global, on: &str) -> Result<Value, PathFault> {
    let mut tree = Value::Dir(Entries::new(alloc));
    fill(alloc, &mut tree, on)?;
    Ok(tree)
}

/// Whether a tree is that of the lines with what a text names.
pub(crate) fn is_left(
    alloc: Global,
    tree: &Value,
    on: &str,
    text: &str,
) -> Result<bool, PathFault> {
    let mut left = sample(alloc, on)?;
    put_all(alloc, &mut left, text)?;
    Ok(tree.equal(&left))
}

/// The word for an answer.
pub(crate) fn answer_text(answer: Done) -> &'static str {
    match answer {
        Done::Ok => "ok",
        Done::Failed => "failed",
        Done::Stopped(Reason::Link) => "link",
        Done::Stopped(Reason::Slash) => "slash",
        Done::Stopped(Reason::Run) => "run",
        Done::Stopped(Reason::Same) => "same",
        Done::Stopped(Reason::Conffile) => "conffile",
        Done::Stopped(Reason::Call) => "call",
        Done::Stopped(_) => "another",
    }
}

/// An act, the row that it takes on a tree, the answer, and what is put there then.
pub(crate) type Taken = (&'static str, u8, &'static str, &'static str);

/// An act, the text of a tree, a path, and the rows that the act takes on the tree with a thing of each kind at the
/// path.
pub(crate) type AtEach = (&'static str, &'static str, &'static str, &'static [u8]);

/// What is tried with an act.
#[derive(Clone, Copy)]
pub(crate) enum Trial<'a> {
    /// On the tree of these lines it takes the row.
    Whole(&'a str, &'a Taken),
    /// On trees with a thing of each kind at a path it takes the rows.
    Each(&'a AtEach),
}

/// The row that an act takes on a tree, and its answer; none where it is not performed on trees.
pub(crate) fn perform(
    alloc: Global,
    a: &Act,
    tree: &mut Value,
) -> Result<Option<(u8, Done)>, Memory> {
    if !a.is_performed() {
        return Ok(None);
    }
    let taken = act(alloc, a, tree)?;
    Ok(Some(taken))
}

// Whether the act takes the row on the tree, and answers so.
fn answers(alloc: Global, a: &Act, tree: &mut Value, row: &Taken) -> Result<bool, Memory> {
    match perform(alloc, a, tree)? {
        Some((number, answer)) => Ok(number == row.1 && answer_text(answer) == row.2),
        None => Ok(false),
    }
}

// Whether the act takes the row on the tree of the lines, answers so, and leaves this tree.
fn takes(alloc: Global, a: &Act, on: &str, row: &Taken) -> Result<bool, PathFault> {
    let mut tree = sample(alloc, on)?;
    Ok(answers(alloc, a, &mut tree, row)? && is_left(alloc, &tree, on, row.3)?)
}

// The kinds, each by the letter of its line in the text of a tree; `-` is nothing.
const KINDS: &[u8] = b"-flpsbcd";

// Appends the line of a thing at a path, by its letter.
fn put_line(text: &mut Bytes, letter: u8, path: &str) -> Result<(), Memory> {
    if letter == b'-' {
        return Ok(());
    }
    text.push(letter)?;
    text.push(b' ')?;
    text.extend(path.as_bytes())?;
    if letter == b'l' {
        text.extend(b" t")?;
    }
    text.push(b'\n')
}

// The text of a row's tree, with a thing at the row's path.
fn text_with(alloc: Global, row: &AtEach, letter: u8) -> Result<Bytes, Memory> {
    let mut text = Bytes::from_slice(alloc, row.1.as_bytes())?;
    put_line(&mut text, letter, row.2)?;
    Ok(text)
}

// The tree of a row, with a thing at the row's path.
fn tree_with(alloc: Global, row: &AtEach, letter: u8) -> Result<Value, PathFault> {
    let text = text_with(alloc, row, letter)?;
    match read_tree(alloc, text.as_slice()) {
        Ok(tree) => Ok(tree),
        Err(_) => Err(PathFault::Empty),
    }
}

// The row that the act takes on a row's tree with a thing at the row's path; none where it is not performed on trees.
fn taken_with(alloc: Global, a: &Act, row: &AtEach, letter: u8) -> Result<Option<u8>, PathFault> {
    let mut tree = tree_with(alloc, row, letter)?;
    match perform(alloc, a, &mut tree)? {
        Some((number, _answer)) => Ok(Some(number)),
        None => Ok(None),
    }
}

// Whether the act takes the row of each kind.
fn takes_each(alloc: Global, a: &Act, row: &AtEach) -> Result<bool, PathFault> {
    if row.3.len() != KINDS.len() {
        return Ok(false);
    }
    for (letter, wanted) in KINDS.iter().zip(row.3.iter()) {
        if taken_with(alloc, a, row, *letter)? != Some(*wanted) {
            return Ok(false);
        }
    }
    Ok(true)
}

// Whether the act does what is tried.
fn does(alloc: Global, a: &Act, trial: &Trial) -> Result<bool, PathFault> {
    match trial {
        Trial::Whole(on, row) => takes(alloc, a, on, row),
        Trial::Each(row) => takes_each(alloc, a, row),
    }
}

// Whether the last act of each operand does what is tried.
fn all_do(alloc: Global, all: &[List<Act>], trial: &Trial) -> Result<bool, PathFault> {
    for acts in all {
        if let Some(last) = acts.as_slice().last() {
            if !does(alloc, last, trial)? {
                return Ok(false);
            }
        }
    }
    Ok(true)
}

/// Whether the act of a call, or the last act of each operand, does what is tried.
pub(crate) fn call_takes(alloc: Global, call: &str, trial: &Trial) -> Result<bool, PathFault> {
    let planned = plan_of(alloc, call)?;
    match planned.get() {
        Planned::Ask { act, negate: _ } => does(alloc, act, trial),
        Planned::Change(all) => all_do(alloc, all.as_slice(), trial),
        Planned::Known(_) | Planned::Print(_) | Planned::Unspecified(_) => Ok(false),
    }
}

// The link to `t` that a package manager places.
fn link(alloc: Global, p: Path) -> Result<Boxed<Act>, Memory> {
    let target = Bytes::from_slice(alloc, b"t")?;
    Boxed::new(alloc, Act::PlaceLink { p, target })
}

/// The act that a word names: one of a package manager, `test -x` where it is taken that a regular file may be run, or
/// the setting of a mode.
pub(crate) fn place(alloc: Global, name: &str, p: Path) -> Result<Boxed<Act>, Memory> {
    match name {
        "CanRunFile" => Boxed::new(alloc, Act::CanRun { p, runs: true }),
        "Attr" => Boxed::new(alloc, Act::Attr(p)),
        "EnsureDir" => Boxed::new(alloc, Act::EnsureDir(p)),
        "PlaceFile" => Boxed::new(alloc, Act::PlaceFile(p)),
        "PlaceConf" => Boxed::new(alloc, Act::PlaceConf(p)),
        "Discard" => Boxed::new(alloc, Act::Discard(p)),
        "DiscardDir" => Boxed::new(alloc, Act::DiscardDir(p)),
        _ => link(alloc, p),
    }
}

// The copying that a word and two paths name; `CopyDeep` is that of directories too.
fn copying(alloc: Global, name: &str, first: &str, second: &str) -> Result<Boxed<Act>, PathFault> {
    let a = Path::read(alloc, first.as_bytes())?;
    let b = Path::read(alloc, second.as_bytes())?;
    let deep = name == "CopyDeep";
    Ok(Boxed::new(alloc, Act::Copy { a, b, deep })?)
}

// The act that a word and a path name.
fn placing(alloc: Global, name: &str, path: &str) -> Result<Boxed<Act>, PathFault> {
    let p = Path::read(alloc, path.as_bytes())?;
    Ok(place(alloc, name, p)?)
}

/// The act that a text names, by a word and one path or two.
pub(crate) fn placed(alloc: Global, text: &str) -> Result<Boxed<Act>, PathFault> {
    let (name, paths) = text.split_once(' ').unwrap_or(("", "/"));
    match paths.split_once(' ') {
        Some((first, second)) => copying(alloc, name, first, second),
        None => placing(alloc, name, paths),
    }
}

/// Whether the act that a text names does what is tried.
pub(crate) fn placed_takes(alloc: Global, text: &str, trial: &Trial) -> Result<bool, PathFault> {
    let a = placed(alloc, text)?;
    does(alloc, a.get(), trial)
}

/// Whether the copy of the act that a text names does what is tried.
pub(crate) fn copy_takes(alloc: Global, text: &str, trial: &Trial) -> Result<bool, PathFault> {
    let a = placed(alloc, text)?;
    let twin = a.copy(alloc)?;
    does(alloc, twin.get(), trial)
}
