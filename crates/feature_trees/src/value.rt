ghost use Rattle.std.specs.Prelude.{◌≡◌, ◌≤◌, [], length, slice_get, IsTrue, MatchResult, OnOk, OnErr, IfNone, IfSome};
ghost use Rattle.std.specs.Option.{option_copied};
ghost use Rattle.feature_trees.specs.Place.{IsAt, IsGap};
ghost use Rattle.feature_trees.specs.View.{seen, node_of, AllThere, IsThere};
ghost use Rattle.feature_trees.specs.Sound.{sound, sound_all};
ghost use Rattle.feature_trees.specs.Tree.{find, entry, at, present, update};

use crate::kind::Special;
use script_names::{Bytes, Copied, Memory, Name, Path};
use std::alloc::Global;
use std::marker::Model;

/// What stands at a place.
#[cycle(value)]
#[derive(Drop)]
pub enum Value {
    Absent,
    Reg,
    Link(Bytes),
    Special(Special),
    Dir(Entries),
}

/// The entries of a directory, by rising names, none of them absent.
#[cycle(value)]
#[derive(Drop)]
pub struct Entries {
    pub(crate) items: Vec<NamedValue>,
}

// An entry of a directory: its name, and what stands under it.
#[cycle(value)]
#[derive(Drop)]
pub(crate) struct NamedValue {
    pub(crate) name: Name,
    pub(crate) value: Value,
}

impl Model for Entries {
    ghost use Rattle.std.specs.Prelude.{List};
    ghost use Rattle.feature_trees.specs.declared.shape.Entry.{Entry};
    ghost use Rattle.feature_trees.specs.contracts.shape.Entry as entry;
    ghost use Rattle.std.specs.Coded.{coded_list};

    ghost Value = { List Entry };

    ghost coded = { coded_list entry.the_row.coded };

    ghost use Rattle.feature_trees.specs.View.{seen};

    ghost view = { λ e. seen e.items.items };

    ghost use Rattle.std.specs.Prelude.{IsTrue};
    ghost use Rattle.feature_trees.specs.View.{AllThere};
    ghost use Rattle.feature_trees.specs.Sound.{sound_all};

    ghost invariant = { λ e. AllThere e.items.items × IsTrue (sound_all (seen e.items.items)) };

    ghost use Rattle.feature_trees.specs.Shape.{count_all};

    ghost size = { count_all };

    ghost use Rattle.feature_trees.specs.Falls.{most_le};

    ghost size_decreases = { λ a h. most_le a.items.items };
}

impl Entries {
    /// No entries.
    pub fn new(alloc: Global) -> Entries
        ensures { result ≡ [] }
    {
        Entries {
            items: Vec::new(alloc),
        }
    }

    /// How many entries there are.
    pub fn len(&self) -> usize
        ensures { result ≡ length self.now }
    {
        let items = self.items.as_slice();
        items.len()
    }

    /// The entry at a place, counted from 0, in the order of the names; None exactly where there are no more.
    pub fn get_at(&self, at: usize) -> Option<(&Name, &Value)>
        ensures none { IfNone result (length self.now ≤ at) }
        ensures some { IfSome result (λ one. IsThere one.1.now
            × (slice_get self.now at ≡ Some (record { name = one.0.now; node = node_of one.1.now }))) }
    {
        let items = self.items.as_slice();
        if at < items.len() {
            let item = &items[at];
            Some((&item.name, &item.value))
        } else {
            None
        }
    }

    /// The entries are sound.
    pub fn is_sound(&self)
        ensures { IsTrue (sound_all self.now) }
    {
        let _items = &self.items;
    }

    /// What stands under a name.
    pub fn get(&self, f: &Name) -> Option<&Value>
        ensures { option_copied result ≡ present (find self.now f.now) }
    {
        value_under(self.items.as_slice(), f)
    }

    /// Puts a value under a name, or takes the entry away where the value is Absent.
    pub fn set(&mut self, f: &Name, v: Value) -> Result<(), Memory>
        ensures ok { OnOk result (self.new ≡ update self.old f.now v) }
        ensures kept { OnErr result (self.new ≡ self.old) }
    {
        set_value(&mut self.items, f, v)
    }
}

// What stands under a name.
fn value_under<'a>(items: &'a [NamedValue], f: &Name) -> Option<&'a Value>
    requires all { AllThere items.now }
    requires sound { IsTrue (sound_all (seen items.now)) }
    ensures { option_copied result ≡ present (find (seen items.now) f.now) }
{
    match place(items, f) {
        Ok(at) => Some(&items[at].value),
        Err(_) => None,
    }
}

// Puts a value under a name, or takes the entry away where the value is Absent.
pub(crate) fn set_value(items: &mut Vec<NamedValue>, f: &Name, v: Value) -> Result<(), Memory>
    requires old_there { AllThere items.old.items }
    requires old_sound { IsTrue (sound_all (seen items.old.items)) }
    ensures there { AllThere items.new.items }
    ensures sound { IsTrue (sound_all (seen items.new.items)) }
    ensures ok { OnOk result (seen items.new.items ≡ update (seen items.old.items) f.now v) }
    ensures kept { OnErr result (items.new.items ≡ items.old.items) }
{
    v.is_sound();
    f.is_sound();
    match v {
        Value::Absent => {
            take_away(items, f);
            Ok(())
        }
        there => put_there(items, f, there),
    }
}

// Takes away what stands under a name.
fn take_away(items: &mut Vec<NamedValue>, f: &Name)
    requires all { AllThere items.old.items }
    requires sound { IsTrue (sound_all (seen items.old.items)) }
    ensures there { AllThere items.new.items }
    ensures gone { seen items.new.items ≡ update (seen items.old.items) f.now Value.Absent }
{
    match place(items.as_slice(), f) {
        Ok(at) => {
            let _gone = items.remove(at);
        }
        Err(_) => {}
    }
}

// Puts a value that is there under a name.
fn put_there(items: &mut Vec<NamedValue>, f: &Name, v: Value) -> Result<(), Memory>
    requires all { AllThere items.old.items }
    requires sound { IsTrue (sound_all (seen items.old.items)) }
    requires there { IsThere v }
    ensures there { AllThere items.new.items }
    ensures ok { OnOk result (seen items.new.items ≡ update (seen items.old.items) f.now v) }
    ensures kept { OnErr result (items.new.items ≡ items.old.items) }
{
    match place(items.as_slice(), f) {
        Ok(at) => {
            items[at].value = v;
            Ok(())
        }
        Err(at) => {
            let alloc = *items.allocator();
            let name = f.copy(alloc)?;
            items.insert(at, NamedValue { name, value: v })?;
            Ok(())
        }
    }
}

// Where the name is, or where it would go, by halving.
pub(crate) fn place(items: &[NamedValue], f: &Name) -> Result<usize, usize>
    requires { IsTrue (sound_all (seen items.now)) }
    ensures { MatchResult result (IsAt items.now f.now) (IsGap items.now f.now) }
{
    items.binary_search_by(|item| item.name.compare(f))
}

impl Value {
    /// The value is sound.
    pub fn is_sound(&self)
        ensures { IsTrue (sound self.now) }
    {
        match self {
            Value::Dir(entries) => entries.is_sound(),
            _ => {}
        }
    }

    /// What stands under a name of a directory.
    pub fn entry(&self, f: &Name) -> Option<&Value>
        ensures { option_copied result ≡ present (entry self.now f.now) }
    {
        match self {
            Value::Dir(entries) => entries.get(f),
            _ => None,
        }
    }

    /// What stands at a path.
    pub fn at(&self, p: &Path) -> Option<&Value>
        ensures { option_copied result ≡ present (at self.now p.now.names) }
    {
        value_at(self, p.names())
    }
}

// What stands at the path of these names, from a value on.
fn value_at<'a>(from: &'a Value, names: &[Name]) -> Option<&'a Value>
    ensures { option_copied result ≡ present (at from.now names.now) }
{
    let mut here = from;
    for f in names {
        match here.entry(f) {
            None => return None,
            Some(next) => here = next,
        }
    }
    match here {
        Value::Absent => None,
        _ => Some(here),
    }
}
