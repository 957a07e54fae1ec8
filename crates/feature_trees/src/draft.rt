ghost use Rattle.std.specs.Prelude.{◌≡◌, ◌↔◌, ◌∷◌, [], IsTrue, IfOk, OnOk, Err, false, option_map};
ghost use Rattle.std.specs.Option.{option_copied};
ghost use Rattle.script_names.specs.Names.{is_name};
ghost use Rattle.feature_trees.specs.Drafts.{draft_value, seen_drafts};
ghost use Rattle.feature_trees.specs.Sound.{sound, sound_all};
ghost use Rattle.feature_trees.specs.TextLaws.{without_entries};
ghost use Rattle.feature_trees.specs.Tree.{find, entry, at, present, put, update, has_parents};
ghost use Rattle.feature_trees.specs.TreeLines.{is_there};
ghost use Rattle.feature_trees.specs.View.{seen, AllThere, IsThere};
ghost use Rattle.feature_trees.specs.declared.put.PutFault.TheVariants.{NoParent};
ghost use Rattle.feature_trees.specs.declared.value.Value.TheVariants.{Dir};

use crate::kind::Special;
use crate::put::PutFault;
use crate::value::{Entries, NamedValue, Value};
use script_names::{Bytes, Copied, Memory, Name, NameFault};
use std::alloc::Global;
use std::collections::BTreeMap;
use std::marker::Model;

/// What stands at a place of a tree in the making.
#[cycle(draft)]
#[derive(Drop)]
pub(crate) enum Draft {
    Reg,
    Link(Bytes),
    Special(Special),
    Dir(Drafts),
}

/// The entries of a directory in the making, in a map: a new one takes its place without a move of all those behind it.
#[cycle(draft)]
#[derive(Drop)]
pub(crate) struct Drafts {
    items: BTreeMap<Vec<u8>, Draft>,
}

impl Model for Drafts {
    ghost use Rattle.std.specs.Prelude.{List};
    ghost use Rattle.feature_trees.specs.declared.shape.Entry.{Entry};
    ghost use Rattle.feature_trees.specs.contracts.shape.Entry as entry;
    ghost use Rattle.std.specs.Coded.{coded_list};

    ghost Value = { List Entry };

    ghost coded = { coded_list entry.the_row.coded };

    ghost use Rattle.feature_trees.specs.Drafts.{seen_drafts};

    ghost view = { λ d. seen_drafts d.items.entries };

    ghost use Rattle.std.specs.Prelude.{IsTrue};
    ghost use Rattle.feature_trees.specs.Sound.{sound_all};

    ghost invariant = { λ d. IsTrue (sound_all (seen_drafts d.items.entries)) };

    ghost use Rattle.feature_trees.specs.Shape.{count_all};

    ghost size = { count_all };

    ghost use Rattle.feature_trees.specs.DraftFalls.{most_le};

    ghost size_decreases = { λ a h. most_le a.items.entries };
}

impl Drafts {
    // No entries.
    fn new(alloc: Global) -> Drafts
        ensures { result ≡ [] }
    {
        Drafts {
            items: BTreeMap::new(alloc),
        }
    }

    // The entries are sound.
    fn is_sound(&self)
        ensures { IsTrue (sound_all self.now) }
    {
        let _items = &self.items;
    }

    // What stands under a name.
    fn get(&self, f: &Name) -> Option<&Draft>
        ensures { option_map draft_value (option_copied result) ≡ present (find self.now f.now) }
    {
        self.items.get(f.as_slice())
    }
}

impl Draft {
    /// A directory without entries.
    pub(crate) fn empty(alloc: Global) -> Draft
        ensures { draft_value result ≡ Dir [] }
    {
        Draft::Dir(Drafts::new(alloc))
    }

    /// What a line says, as a draft.
    pub(crate) fn of(alloc: Global, value: Value) -> Draft
        requires there { IsThere value }
        requires no_entries { without_entries value ≡ value }
        ensures { draft_value result ≡ value }
    {
        match value {
            Value::Absent => unreachable!(),
            Value::Reg => Draft::Reg,
            Value::Link(target) => Draft::Link(target),
            Value::Special(s) => Draft::Special(s),
            Value::Dir(_) => Draft::Dir(Drafts::new(alloc)),
        }
    }

    /// The draft is sound.
    pub(crate) fn is_sound(&self)
        ensures { IsTrue (sound (draft_value self.now)) }
    {
        match self {
            Draft::Dir(drafts) => drafts.is_sound(),
            _ => {}
        }
    }

    // What stands under a name of a directory.
    fn entry(&self, f: &Name) -> Option<&Draft>
        ensures { option_map draft_value (option_copied result) ≡ present (entry (draft_value self.now) f.now) }
    {
        match self {
            Draft::Dir(drafts) => drafts.get(f),
            _ => None,
        }
    }

    /// Whether something stands at the path of these names.
    pub(crate) fn has(&self, names: &[Name]) -> bool
        ensures { result ≡ is_there (at (draft_value self.now) names.now) }
    {
        let mut here = self;
        for f in names {
            match here.entry(f) {
                None => return false,
                Some(next) => here = next,
            }
        }
        true
    }
}

/// Puts a draft at the path of these names; where there are none, in place of the other.
#[cycle(drafting)]
pub(crate) fn put_draft(
    alloc: Global,
    here: &mut Draft,
    names: &[Name],
    v: Draft,
) -> Result<(), PutFault>
    ensures ok { OnOk result (draft_value here.new ≡ put (draft_value here.old) names.now (draft_value v)) }
    ensures no_parent { (result ≡ Err NoParent) ↔ (has_parents (draft_value here.old) names.now ≡ false) }
{
    match names {
        [] => {
            *here = v;
            Ok(())
        }
        [f, rest @ ..] => match here {
            Draft::Dir(drafts) => put_among(alloc, &mut drafts.items, f, rest, v),
            _ => Err(PutFault::NoParent),
        },
    }
}

// The same among the entries of a directory.
#[cycle(drafting)]
fn put_among(
    alloc: Global,
    items: &mut BTreeMap<Vec<u8>, Draft>,
    f: &Name,
    rest: &[Name],
    v: Draft,
) -> Result<(), PutFault>
    requires { IsTrue (sound_all (seen_drafts items.old.entries)) }
    ensures sound { IsTrue (sound_all (seen_drafts items.new.entries)) }
    ensures ok { OnOk result (Dir (seen_drafts items.new.entries)
        ≡ put (Dir (seen_drafts items.old.entries)) (f.now ∷ rest.now) (draft_value v)) }
    ensures no_parent { (result ≡ Err NoParent)
        ↔ (has_parents (Dir (seen_drafts items.old.entries)) (f.now ∷ rest.now) ≡ false) }
{
    match rest {
        [] => Ok(set_draft(alloc, items, f, v)?),
        [_, ..] => match items.get_mut(f.as_slice()) {
            Some(next) => {
                let answer = put_draft(alloc, next, rest, v);
                next.is_sound();
                answer
            }
            None => Err(PutFault::NoParent),
        },
    }
}

// Puts a draft under a name.
fn set_draft(
    alloc: Global,
    items: &mut BTreeMap<Vec<u8>, Draft>,
    f: &Name,
    v: Draft,
) -> Result<(), Memory>
    requires { IsTrue (sound_all (seen_drafts items.old.entries)) }
    ensures sound { IsTrue (sound_all (seen_drafts items.new.entries)) }
    ensures ok { OnOk result (seen_drafts items.new.entries
        ≡ update (seen_drafts items.old.entries) f.now (draft_value v)) }
{
    v.is_sound();
    let name = Vec::from_slice(alloc, f.as_slice())?;
    items.insert(name, v)?;
    Ok(())
}

/// The value that a draft stands for.
#[cycle(making)]
pub(crate) fn make_value(alloc: Global, draft: &Draft) -> Result<Value, Memory>
    ensures { IfOk result (λ value. value ≡ draft_value draft.now) }
{
    match draft {
        Draft::Reg => Ok(Value::Reg),
        Draft::Link(target) => Ok(Value::Link(target.copy(alloc)?)),
        Draft::Special(s) => Ok(Value::Special(*s)),
        Draft::Dir(drafts) => {
            let items = make_items(alloc, &drafts.items)?;
            Ok(Value::Dir(Entries { items }))
        }
    }
}

// The entries of a directory, from its map.
#[cycle(making)]
fn make_items(alloc: Global, drafts: &BTreeMap<Vec<u8>, Draft>) -> Result<Vec<NamedValue>, Memory>
    requires { IsTrue (sound_all (seen_drafts drafts.now.entries)) }
    ensures there { IfOk result (λ items. AllThere items.items) }
    ensures seen { IfOk result (λ items. seen items.items ≡ seen_drafts drafts.now.entries) }
{
    let mut items = Vec::new(alloc);
    for (bytes, draft) in drafts.iter() {
        let name = make_name(alloc, bytes.as_slice())?;
        let value = make_value(alloc, draft)?;
        items.push(NamedValue { name, value })?;
    }
    Ok(items)
}

// The name that the bytes are, which are known to be one.
fn make_name(alloc: Global, bytes: &[u8]) -> Result<Name, Memory>
    requires { IsTrue (is_name bytes.now) }
    ensures { IfOk result (λ name. name ≡ bytes.now) }
{
    match Name::read(alloc, bytes) {
        Ok(name) => Ok(name),
        Err(NameFault::Bad) => unreachable!(),
        Err(NameFault::Memory) => Err(Memory),
    }
}
