//! Steps on a store and its forks, and whether each comes to what is wanted. For want of memory the answer is no.

ghost use Rattle.std.specs.Prelude.{◌≡◌, ◌<◌, ◌≤◌, IfOk, IsTrue};
ghost use Rattle.clause_solver.specs.Stands.{Alive};

use crate::clause_texts::has_clause;
use crate::emptied::{is_filled, leaves_nothing, shows_another};
use crate::plainest::{fences, fills_at, fills_without, shows_plainest};
use clause_solver::Store;
use feature_trees::{Kind, Kinds, Special, Value, print_tree};
use script_names::{Bytes, Memory, Name, NameFault};
use std::alloc::Global;
use tree_clauses::Var;

/// The names of a path.
pub(crate) type Words = &'static [&'static [u8]];

/// A step, and what is wanted of it.
pub(crate) enum Step {
    /// The path has this variable.
    At(Words, Var),
    /// The path is limited to kinds, and a pair is left; the path has this variable where one is given.
    Limit(Words, &'static str, Option<Var>),
    /// The path is limited to kinds, and no pair is left; the path has this variable where one is given.
    Refuse(Words, &'static str, Option<Var>),
    /// The path is led to a target; whether a pair is left.
    Lead(Words, &'static [u8], bool),
    /// A made link to a target is led to another; whether a pair is left.
    LeadLink(&'static [u8], &'static [u8], bool),
    /// What is made of a kind is led to `t`, and no pair is left.
    LeadMade(Kind),
    /// What is made of a kind is put under a name of the tree now.
    Put(&'static [u8], Kind),
    /// A made directory is put into another under the name `b`, and that one at `/etc`.
    PutFilled,
    /// As many entries, named by their numbers, are taken away, one after the other.
    TakeAway(u32),
    /// As many entries, named by their numbers, are files, and a pair is left each time.
    Widen(u32),
    /// The tree now is not empty, and a pair is left.
    Fill,
    /// The clause has this text, and is read as it was printed.
    Clause(&'static str),
    /// A pair is left, and this tree is shown.
    Shows(&'static str),
    /// A pair is left, and the text of the shown tree has so many bytes.
    ShowsBytes(usize),
    /// A pair is left, and the shown tree has so many entries.
    ShowsEntries(usize),
    /// The clause has so many literals.
    Literals(usize),
    /// The shown tree has an entry of `/srv` beside `a`, where `/srv` without `/srv/a`, which is absent, has to have
    /// one.
    ShowsAnother,
    /// Nothing is left where `/srv` without `/srv/a`, which is absent, is empty and is to have an entry.
    LeavesNothing,
    /// `/srv` is not empty, `/srv/b` is of one of two kinds, and this tree is shown.
    Filled(Kind, Kind, &'static str),
    /// The path has entries under these names alone, and a pair is left.
    Fence(Words, Words),
    /// The path is not empty, and a pair is left.
    FillAt(Words),
    /// The path is a directory that is not empty without its entry of a name, and a pair is left.
    FillWithout(Words, &'static [u8]),
    /// A pair is left, and this is its plainest tree.
    ShowsPlainest(&'static str),
}

/// What is tried, steps on a store of all trees, then two forks of it, and steps on the store, on each of the forks,
/// and on the store again.
pub(crate) type Course = (
    &'static str,
    &'static [Step],
    &'static [Step],
    &'static [Step],
    &'static [Step],
    &'static [Step],
);

/// The variable of a path, from the tree now on.
pub(crate) fn walk(alloc: Global, s: &mut Store, words: &[&[u8]]) -> Result<Var, NameFault>
    ensures known { IfOk result (λ y. y.0 < s.new.count) }
{
    let mut here = s.now();
    for word in words {
        let name = Name::read(alloc, word)?;
        here = s.child(here, &name)?;
    }
    Ok(here)
}

/// Whether a limit leaves a pair; for want of memory the answer is no.
pub(crate) fn is_left(s: &mut Store, x: Var, k: Kinds) -> bool
    requires { x.0 < s.old.count }
    ensures kept { (s.new.count ≡ s.old.count) × (s.new.current ≡ s.old.current) }
    ensures alive { IsTrue result → Alive s.new }
{
    match s.limit(x, k) {
        Ok(left) => left,
        Err(_) => false,
    }
}

// Whether a limit leaves no pair; for want of memory the answer is no.
fn is_none_left(s: &mut Store, x: Var, k: Kinds) -> bool
    requires { x.0 < s.old.count }
{
    match s.limit(x, k) {
        Ok(left) => !left,
        Err(_) => false,
    }
}

// A special kind, or nothing.
fn or_absent(kind: Special) -> Kinds {
    Kinds::either(Kinds::of(Kind::Absent), Kinds::of(Kind::Special(kind)))
}

// The kinds that a word names.
fn kinds_of(word: &str) -> Kinds {
    match word {
        "dir" => Kinds::of(Kind::Dir),
        "file" => Kinds::of(Kind::Reg),
        "link" => Kinds::of(Kind::Link),
        "absent" => Kinds::of(Kind::Absent),
        "special" => Kinds::special(),
        "pipe or absent" => or_absent(Special::Fifo),
        "socket or absent" => or_absent(Special::Socket),
        "block or absent" => or_absent(Special::Block),
        "char or absent" => or_absent(Special::Char),
        "pipe, block or absent" => Kinds::either(
            or_absent(Special::Fifo),
            or_absent(Special::Block),
        ),
        _ => Kinds::all(),
    }
}

// Whether a variable is the one that is given, or none is given.
fn is(x: Var, wanted: Option<Var>) -> bool {
    match wanted {
        Some(y) => x == y,
        None => true,
    }
}

fn is_at(alloc: Global, s: &mut Store, words: &[&[u8]], wanted: Var) -> bool {
    match walk(alloc, s, words) {
        Ok(x) => x == wanted,
        Err(_) => false,
    }
}

fn limits(alloc: Global, s: &mut Store, words: &[&[u8]], k: Kinds, wanted: Option<Var>) -> bool {
    match walk(alloc, s, words) {
        Ok(x) => is_left(s, x, k) && is(x, wanted),
        Err(_) => false,
    }
}

fn refuses(alloc: Global, s: &mut Store, words: &[&[u8]], k: Kinds, wanted: Option<Var>) -> bool {
    match walk(alloc, s, words) {
        Ok(x) => is_none_left(s, x, k) && is(x, wanted),
        Err(_) => false,
    }
}

// Whether a pair is left where a variable is a link to a target, or none is, as it is wanted.
fn is_led(alloc: Global, s: &mut Store, x: Var, target: &[u8], wanted: bool) -> Result<bool, Memory>
    requires { x.0 < s.old.count }
{
    let target = Bytes::from_slice(alloc, target)?;
    let left = s.lead(x, &target)?;
    Ok(left == wanted)
}

fn leads(
    alloc: Global,
    s: &mut Store,
    words: &[&[u8]],
    target: &[u8],
    wanted: bool,
) -> Result<bool, NameFault> {
    let x = walk(alloc, s, words)?;
    let led = is_led(alloc, s, x, target, wanted)?;
    Ok(led)
}

fn leads_link(
    alloc: Global,
    s: &mut Store,
    made: &[u8],
    target: &[u8],
    wanted: bool,
) -> Result<bool, Memory> {
    let made = Bytes::from_slice(alloc, made)?;
    let x = s.made_link(&made)?;
    is_led(alloc, s, x, target, wanted)
}

// An empty directory, an empty file, or nothing.
fn make(s: &mut Store, kind: Kind) -> Result<Var, Memory>
    ensures known { IfOk result (λ y. y.0 < s.new.count) }
    ensures now { IfOk result (λ y. s.new.current ≡ s.old.current) }
    ensures more { IfOk result (λ y. s.old.count ≤ s.new.count) }
{
    if kind == Kind::Dir {
        return s.made_dir();
    }
    if kind == Kind::Reg {
        return s.made_reg();
    }
    s.made_absent()
}

fn leads_made(alloc: Global, s: &mut Store, kind: Kind) -> Result<bool, Memory> {
    let x = make(s, kind)?;
    is_led(alloc, s, x, b"t", false)
}

// Puts a value under a name of the tree now.
fn put_under(alloc: Global, s: &mut Store, word: &[u8], y: Var) -> Result<(), NameFault>
    requires { y.0 < s.old.count }
{
    let name = Name::read(alloc, word)?;
    let now = s.now();
    let z = s.derive(now, &name, y)?;
    s.set_now(z);
    Ok(())
}

fn put_made(alloc: Global, s: &mut Store, word: &[u8], kind: Kind) -> Result<(), NameFault> {
    let y = make(s, kind)?;
    put_under(alloc, s, word, y)
}

fn put_filled(alloc: Global, s: &mut Store) -> Result<(), NameFault> {
    let outer = s.made_dir()?;
    let inner = s.made_dir()?;
    let name = Name::read(alloc, b"b")?;
    let filled = s.derive(outer, &name, inner)?;
    put_under(alloc, s, b"etc", filled)
}

// The last four digits of a number.
fn digits(i: u32) -> [u8; 4] {
    [
        b'0' + (i / 1000 % 10) as u8,
        b'0' + (i / 100 % 10) as u8,
        b'0' + (i / 10 % 10) as u8,
        b'0' + (i % 10) as u8,
    ]
}

fn take_away(alloc: Global, s: &mut Store, count: u32) -> Result<(), NameFault> {
    for i in 0..count {
        put_made(alloc, s, &digits(i), Kind::Absent)?;
    }
    Ok(())
}

fn widens(alloc: Global, s: &mut Store, count: u32) -> bool {
    for i in 0..count {
        if !limits(alloc, s, &[&digits(i)], Kinds::of(Kind::Reg), None) {
            return false;
        }
    }
    true
}

// Whether a pair is left where the tree now is not empty.
fn fills(s: &mut Store) -> bool {
    let now = s.now();
    match s.not_empty(now) {
        Ok(left) => left,
        Err(_) => false,
    }
}

/// The text of a directory.
pub(crate) fn directory_text(alloc: Global, tree: &Value) -> Result<Bytes, Memory> {
    match tree {
        Value::Dir(_) => print_tree(alloc, tree),
        _ => Bytes::from_slice(alloc, b"no directory"),
    }
}

// The shown tree of a store, by a limit that leaves all pairs.
fn shown_tree(alloc: Global, s: &mut Store) -> Result<Bytes, Memory> {
    let now = s.now();
    if !is_left(s, now, Kinds::all()) {
        return Bytes::from_slice(alloc, b"no pair");
    }
    let tree = s.start_tree(alloc)?;
    directory_text(alloc, &tree)
}

/// Whether a store has a pair and shows this tree.
pub(crate) fn shows(alloc: Global, s: &mut Store, text: &[u8]) -> bool {
    match shown_tree(alloc, s) {
        Ok(shown) => shown.as_slice() == text,
        Err(_) => false,
    }
}

fn shows_bytes(alloc: Global, s: &mut Store, count: usize) -> bool {
    match shown_tree(alloc, s) {
        Ok(shown) => shown.len() == count,
        Err(_) => false,
    }
}

// How many entries the shown tree has.
fn shown_entries(alloc: Global, s: &mut Store) -> Result<Option<usize>, Memory> {
    let now = s.now();
    if !is_left(s, now, Kinds::all()) {
        return Ok(None);
    }
    match s.start_tree(alloc)? {
        Value::Dir(entries) => Ok(Some(entries.len())),
        _ => Ok(None),
    }
}

fn shows_entries(alloc: Global, s: &mut Store, count: usize) -> bool {
    match shown_entries(alloc, s) {
        Ok(Some(found)) => found == count,
        _ => false,
    }
}

fn has_literals(s: &Store, count: usize) -> bool {
    match s.clause() {
        Ok(clause) => clause.literals.len() == count,
        Err(_) => false,
    }
}

// Whether a step comes to what is wanted.
fn is_done(alloc: Global, s: &mut Store, step: &Step) -> bool {
    match step {
        Step::At(words, x) => is_at(alloc, s, words, *x),
        Step::Limit(words, kinds, x) => limits(alloc, s, words, kinds_of(kinds), *x),
        Step::Refuse(words, kinds, x) => refuses(alloc, s, words, kinds_of(kinds), *x),
        Step::Lead(words, target, left) => matches!(
            leads(alloc, s, words, target, *left),
            Ok(true)
        ),
        Step::LeadLink(made, target, left) => {
            matches!(leads_link(alloc, s, made, target, *left), Ok(true))
        }
        Step::LeadMade(kind) => matches!(leads_made(alloc, s, *kind), Ok(true)),
        Step::Put(word, kind) => put_made(alloc, s, word, *kind).is_ok(),
        Step::PutFilled => put_filled(alloc, s).is_ok(),
        Step::TakeAway(count) => take_away(alloc, s, *count).is_ok(),
        Step::Widen(count) => widens(alloc, s, *count),
        Step::Fill => fills(s),
        Step::Clause(text) => has_clause(alloc, s, text.as_bytes()),
        Step::Shows(text) => shows(alloc, s, text.as_bytes()),
        Step::ShowsBytes(count) => shows_bytes(alloc, s, *count),
        Step::ShowsEntries(count) => shows_entries(alloc, s, *count),
        Step::Literals(count) => has_literals(s, *count),
        Step::ShowsAnother => shows_another(alloc, s),
        Step::LeavesNothing => leaves_nothing(alloc, s),
        Step::Filled(one, other, text) => is_filled(alloc, s, *one, *other, text),
        Step::Fence(words, names) => matches!(fences(alloc, s, words, names), Ok(true)),
        Step::FillAt(words) => matches!(fills_at(alloc, s, words), Ok(true)),
        Step::FillWithout(words, name) => {
            matches!(fills_without(alloc, s, words, name), Ok(true))
        }
        Step::ShowsPlainest(text) => shows_plainest(alloc, s, text.as_bytes()),
    }
}

// Whether each step comes to what is wanted.
fn are_done(alloc: Global, s: &mut Store, steps: &[Step]) -> bool {
    for step in steps {
        if !is_done(alloc, s, step) {
            return false;
        }
    }
    true
}

// Whether the steps of a course on forks do, and those behind them.
fn forks_go(alloc: Global, s: &mut Store, two: &mut Store, course: &Course) -> bool {
    match s.fork() {
        Ok(mut one) => {
            are_done(alloc, s, course.2)
                && are_done(alloc, &mut one, course.3)
                && are_done(alloc, two, course.4)
                && are_done(alloc, s, course.5)
        }
        Err(_) => false,
    }
}

// Whether the steps of a course do, once its store is made.
fn goes_from(alloc: Global, s: &mut Store, course: &Course) -> bool {
    if !are_done(alloc, s, course.1) {
        return false;
    }
    match s.fork() {
        Ok(mut two) => forks_go(alloc, s, &mut two, course),
        Err(_) => false,
    }
}

/// Whether a step on a store of all trees comes to what is wanted.
pub(crate) fn is_done_alone(alloc: Global, step: &Step) -> bool {
    match Store::start(alloc) {
        Ok(mut s) => is_done(alloc, &mut s, step),
        Err(_) => false,
    }
}

/// Whether each step of a course comes to what is wanted.
pub(crate) fn goes(alloc: Global, course: &Course) -> bool {
    match Store::start(alloc) {
        Ok(mut s) => goes_from(alloc, &mut s, course),
        Err(_) => false,
    }
}
