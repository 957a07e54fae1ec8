//! A place of the start tree whose entries are gathered first and put in by rising names at the end, each behind the
//! ones before it.

ghost use Rattle.std.specs.Prelude.{◌≡◌, [], IfOk, OnOk};
ghost use Rattle.feature_trees.specs.declared.value.Value.TheVariants as value;
ghost use Rattle.clause_solver.specs.Gathered.{gathered, pairs, with_pair, all_set, finished, AreOneEach};

use feature_trees::{Entries, Value};
use script_names::{Memory, Name};
use std::alloc::Global;

/// A value, and entries that are to be put into it where it is a directory.
#[derive(Drop)]
pub(crate) struct Growing<'a> {
    pub(crate) base: Value,
    pub(crate) children: Vec<NamedChild<'a>>,
}

// The value of an entry of the place, and its name.
#[derive(Drop)]
pub(crate) struct NamedChild<'a> {
    pub(crate) name: &'a Name,
    pub(crate) value: Value,
}

impl<'a> Growing<'a> {
    /// A value to which no entry is to come so far.
    pub(crate) fn new(alloc: Global, base: Value) -> Growing<'a>
        ensures { gathered result ≡ (base, []) }
    {
        Growing {
            base,
            children: Vec::new(alloc),
        }
    }

    /// Lays one more entry by.
    pub(crate) fn push(&mut self, name: &'a Name, value: Value) -> Result<(), Memory>
        ensures { OnOk result (gathered self.new ≡ with_pair (gathered self.old) name.now value) }
    {
        self.children.push(NamedChild { name, value })?;
        Ok(())
    }

    /// The value with its entries.
    pub(crate) fn finish(self) -> Result<Value, Memory>
        requires one_each { AreOneEach (gathered self).1 }
        ensures { IfOk result (λ v. v ≡ finished (gathered self.entry)) }
    {
        let Growing { base, children } = self;
        match base {
            Value::Dir(entries) => put_in_order(entries, children),
            other => Ok(other),
        }
    }
}

// The entries with these among them.
fn put_in_order(entries: Entries, children: Vec<NamedChild>) -> Result<Value, Memory>
    requires one_each { AreOneEach (pairs children.items) }
    ensures { IfOk result (λ v. v ≡ value.Dir (all_set entries (pairs children.entry.items))) }
{
    entries.is_sound();
    let mut children = children;
    children.sort_by_key(|child| child.name.as_slice())?;
    let entries = put_all(entries, children)?;
    Ok(Value::Dir(entries))
}

// The entries with each of these put among them, one after another.
fn put_all(entries: Entries, children: Vec<NamedChild>) -> Result<Entries, Memory>
    ensures { IfOk result (λ es. es ≡ all_set entries (pairs children.entry.items)) }
{
    let mut entries = entries;
    for child in children {
        entries.set(child.name, child.value)?;
    }
    Ok(entries)
}
