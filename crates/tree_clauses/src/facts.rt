ghost use Rattle.std.specs.Prelude.{◌≡◌, ◌≢◌, ◌↔◌, ℕ, List, IsTrue, IfOk, Contains};
ghost use Rattle.feature_trees.specs.declared.kind.Kind.TheVariants as kind;
ghost use Rattle.feature_trees.specs.declared.value.Value.TheVariants as value;
ghost use Rattle.feature_trees.specs.Tree.{entry, entries_of, is_dir, kind_of};
ghost use Rattle.tree_clauses.specs.KnownValues.{known_in};
ghost use Rattle.tree_clauses.specs.declared.clause.Literal.TheVariants as Literal;
ghost use Rattle.feature_trees.specs.View.{IsThere};
ghost use Rattle.tree_clauses.specs.Agreeing.{AreIn, AreWithin, IsIn, IsWithin};
ghost use Rattle.tree_clauses.specs.Literals.{AgreesOutside};
ghost use Rattle.tree_clauses.specs.NameSets.{has};
ghost use Rattle.tree_clauses.specs.Steps.{FactIs};

use crate::clause::{Literal, Var};
use crate::known_values::Values;
use crate::name_set::NameSet;
use feature_trees::{Entries, Value};
use script_names::{Bytes, Copied, Memory, Name};
use std::alloc::Global;

/// Whether a literal holds; None where it has a variable that isn't known.
pub(crate) fn read_fact(
    alloc: Global,
    values: &Values,
    literal: &Literal,
) -> Result<Option<bool>, Memory>
    ensures { IfOk result (λ found. FactIs (known_in values.now) literal.now found) }
{
    match literal {
        Literal::Entry(x, f, y) => {
            let found = values.is_entry(alloc, *x, f, *y)?;
            Ok(found)
        }
        Literal::Kind(x, kinds) => match values.kind(*x) {
            Some(kind) => Ok(Some(kinds.has(kind))),
            None => Ok(None),
        },
        Literal::Fence(x, names) => match values.whole(alloc, *x)? {
            Some(x) => {
                let fenced = is_fenced(alloc, x.value(), names.as_slice())?;
                Ok(Some(fenced))
            }
            None => Ok(None),
        },
        Literal::NotEmpty(x) => match values.whole(alloc, *x)? {
            Some(x) => Ok(Some(has_entry(x.value()))),
            None => Ok(None),
        },
        Literal::Similar(y, names, x) => {
            let found = read_similar(alloc, values, *y, names.as_slice(), *x)?;
            Ok(found)
        }
        Literal::Target(x, target) => Ok(values.is_link_to(*x, target)),
    }
}

// Whether a known variable is a directory that has the entries of another under every name but these.
fn read_similar(
    alloc: Global,
    values: &Values,
    y: Var,
    names: &[Name],
    x: Var,
) -> Result<Option<bool>, Memory>
    ensures { IfOk result (λ found.
        (listed : List (List ℕ)) → listed ≡ names.now
        → FactIs (known_in values.now) (Literal.Similar y listed x) found) }
{
    let y = match values.whole(alloc, y)? {
        Some(y) => y,
        None => return Ok(None),
    };
    let x = match values.whole(alloc, x)? {
        Some(x) => x,
        None => return Ok(None),
    };
    let similar = is_similar(alloc, y.value(), names, x.value())?;
    Ok(Some(similar))
}

// Whether a value has entries under these names alone.
fn is_fenced(alloc: Global, x: &Value, names: &[Name]) -> Result<bool, Memory>
    ensures { IfOk result (λ is. IsTrue is
        ↔ ((f : List ℕ) → ¬ (Contains names.now f) → entry x.now f ≡ value.Absent)) }
{
    let listed = NameSet::of(alloc, names)?;
    let fenced = stands_within(x, &listed, &Value::Absent);
    Ok(fenced)
}

// Whether a value has an entry.
fn has_entry(x: &Value) -> bool
    ensures { IsTrue result ↔ ((f : List ℕ) × (entry x.now f ≢ value.Absent)) }
{
    match x {
        Value::Dir(entries) => entries.len() > 0,
        _ => false,
    }
}

// Whether a value is a directory that has the entries of another under every name but these.
fn is_similar(alloc: Global, y: &Value, names: &[Name], x: &Value) -> Result<bool, Memory>
    ensures { IfOk result (λ is. IsTrue is
        ↔ ((kind_of y.now ≡ kind.Dir) × AgreesOutside y.now names.now x.now)) }
{
    if is_directory(y) {
        let listed = NameSet::of(alloc, names)?;
        let similar = are_alike(y, &listed, x);
        return Ok(similar);
    }
    Ok(false)
}

// Whether two values have the same entries but those of these names.
fn are_alike(y: &Value, names: &NameSet, x: &Value) -> bool
    ensures { IsTrue result
        ↔ ((f : List ℕ) → ¬ (IsTrue (has names.now f)) → entry y.now f ≡ entry x.now f) }
{
    stands_within(x, names, y) && stands_in(y, names, x)
}

// Whether each entry of a value but those of these names has one of its name in another.
fn stands_within(x: &Value, names: &NameSet, other: &Value) -> bool
    ensures { IsTrue result ↔ IsWithin x.now (has names.now) other.now }
{
    match x {
        Value::Dir(entries) => entries_within(entries, names, other),
        _ => true,
    }
}

// Whether each of the entries but those of these names has one of its name in a value.
fn entries_within(entries: &Entries, names: &NameSet, other: &Value) -> bool
    ensures { IsTrue result ↔ AreWithin entries.now (has names.now) other.now }
{
    entries.is_sound();
    for at in 0usize..entries.len() {
        match entries.get_at(at) {
            Some((f, _)) => {
                if !is_within(f, names, other) {
                    return false;
                }
            }
            None => unreachable!(),
        }
    }
    true
}

// Whether each entry of a value but those of these names is an entry of another.
fn stands_in(x: &Value, names: &NameSet, other: &Value) -> bool
    ensures { IsTrue result ↔ IsIn x.now (has names.now) other.now }
{
    match x {
        Value::Dir(entries) => entries_in(entries, names, other),
        _ => true,
    }
}

// Whether each of the entries but those of these names is an entry of a value.
fn entries_in(entries: &Entries, names: &NameSet, other: &Value) -> bool
    ensures { IsTrue result ↔ AreIn entries.now (has names.now) other.now }
{
    entries.is_sound();
    for at in 0usize..entries.len() {
        match entries.get_at(at) {
            Some((f, v)) => {
                if !is_in(f, v, names, other) {
                    return false;
                }
            }
            None => unreachable!(),
        }
    }
    true
}

// Whether a name is one of these, or has an entry in a value.
fn is_within(f: &Name, names: &NameSet, other: &Value) -> bool
    ensures { IsTrue result ↔ (¬ (IsTrue (has names.now f.now)) → entry other.now f.now ≢ value.Absent) }
{
    if names.has(f.as_slice()) {
        return true;
    }
    match other.entry(f) {
        Some(_) => true,
        None => false,
    }
}

// Whether a name is one of these, or has a value, which is there, as its entry in another.
fn is_in(f: &Name, v: &Value, names: &NameSet, other: &Value) -> bool
    requires { IsThere v.now }
    ensures { IsTrue result ↔ (¬ (IsTrue (has names.now f.now)) → entry other.now f.now ≡ v.now) }
{
    if names.has(f.as_slice()) {
        return true;
    }
    match other.entry(f) {
        Some(there) => there.equal(v),
        None => false,
    }
}

/// Whether a value is a directory.
pub(crate) fn is_directory(value: &Value) -> bool
    ensures { result ≡ is_dir value.now }
{
    match value {
        Value::Dir(_) => true,
        _ => false,
    }
}

/// Whether a value is a link to a target.
pub(crate) fn is_link_to(x: &Value, target: &Bytes) -> bool
    ensures { IsTrue result ↔ (x.now ≡ value.Link target.now) }
{
    match x {
        Value::Link(to) => to.equal(target),
        _ => false,
    }
}

/// A copy of the entries of a value.
pub(crate) fn copied_entries(alloc: Global, x: &Value) -> Result<Entries, Memory>
    ensures { IfOk result (λ entries. entries ≡ entries_of x.now) }
{
    match x.copy(alloc)? {
        Value::Dir(entries) => Ok(entries),
        Value::Absent | Value::Reg | Value::Link(_) | Value::Special(_) => Ok(Entries::new(alloc)),
    }
}
