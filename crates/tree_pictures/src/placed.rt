//! The places of a tree, one after another.

ghost use Rattle.std.specs.Prelude.{◌≡◌, ◌++◌, IfOk, OnOk};
ghost use Rattle.tree_pictures.specs.Placed.{below, alone, entries_places, value_places, tree_places};

use feature_trees::{Entries, Special, Value};
use script_names::{Bytes, Copied, List, Memory, Name};
use std::alloc::Global;

/// What stands at a place; of a directory that alone, without its entries.
#[derive(Debug, Drop)]
pub enum Standing {
    Reg,
    Link(Bytes),
    Special(Special),
    Dir,
}

/// A place of a tree: its path, in which a slash stands before each name, and what stands there.
#[derive(Debug, Drop)]
pub struct Placed {
    pub path: Bytes,
    pub standing: Standing,
}

// Adds what stands at a path, alone.
fn add_alone(places: &mut List<Placed>, path: Bytes, standing: Standing) -> Result<(), Memory>
    ensures { OnOk result (places.new ≡ places.old ++ alone path standing) }
{
    places.add(Placed { path, standing })
}

// The path of a name below a path.
fn path_below(alloc: Global, path: &[u8], name: &Name) -> Result<Bytes, Memory>
    ensures { IfOk result (λ path_of. path_of ≡ below path.now name.now) }
{
    let mut path = Bytes::from_slice(alloc, path)?;
    path.push(b'/')?;
    path.extend(name.as_slice())?;
    Ok(path)
}

// Adds the places of entries below a path.
#[cycle(placing)]
fn add_entries(
    alloc: Global,
    places: &mut List<Placed>,
    path: &[u8],
    entries: &Entries,
) -> Result<(), Memory>
    ensures { OnOk result (places.new ≡ places.old ++ entries_places entries.now path.now) }
{
    for at in 0usize..entries.len() {
        match entries.get_at(at) {
            Some((name, value)) => {
                let path = path_below(alloc, path, name)?;
                add_value(alloc, places, path, value)?;
            }
            None => unreachable!(),
        }
    }
    Ok(())
}

// Adds the places of a value at a path.
#[cycle(placing)]
fn add_value(
    alloc: Global,
    places: &mut List<Placed>,
    path: Bytes,
    value: &Value,
) -> Result<(), Memory>
    ensures { OnOk result (places.new ≡ places.old ++ value_places value.now path) }
{
    match value {
        Value::Absent => Ok(()),
        Value::Reg => add_alone(places, path, Standing::Reg),
        Value::Link(target) => {
            let target = target.copy(alloc)?;
            add_alone(places, path, Standing::Link(target))
        }
        Value::Special(special) => add_alone(places, path, Standing::Special(*special)),
        Value::Dir(entries) => {
            let own = path.copy(alloc)?;
            add_alone(places, own, Standing::Dir)?;
            add_entries(alloc, places, path.as_slice(), entries)
        }
    }
}

/// The places of a tree below its root: names in byte order, a directory before its entries. A value that is no
/// directory has none.
pub fn tree_places(alloc: Global, tree: &Value) -> Result<List<Placed>, Memory>
    ensures { IfOk result (λ places. places ≡ tree_places tree.now) }
{
    let mut places = List::new(alloc);
    match tree {
        Value::Dir(entries) => {
            add_entries(alloc, &mut places, b"", entries)?;
            Ok(places)
        }
        Value::Absent | Value::Reg | Value::Link(_) | Value::Special(_) => Ok(places),
    }
}
