ghost use Rattle.std.specs.Prelude.{◌≡◌, ◌<◌, ◌+◌, length};
ghost use Rattle.feature_trees.specs.declared.value.Value.TheVariants.{Absent};
ghost use Rattle.feature_trees.specs.Tree.{entry, at, is_dir, kind_of};
ghost use Rattle.utility_calls.specs.Ways.{in_dir, link_on_way};
ghost use Rattle.utility_calls.specs.Sights.{has_entry};
ghost use Rattle.concrete_utils.specs.Ways.{is_link};

use feature_trees::{Kind, Value};
use script_names::Name;

// Where names lead on a tree.
#[derive(Drop)]
pub(crate) struct Seen<'a> {
    // The count of names that lead to the first link on the way, added to a start.
    pub(crate) link: Option<u8>,
    // Whether what holds the last name is a directory.
    pub(crate) in_dir: bool,
    // What stands at the end.
    pub(crate) here: &'a Value,
}

// What stands under a name of a value; `nothing` where nothing does.
pub(crate) fn entry_or<'a>(v: &'a Value, f: &Name, nothing: &'a Value) -> &'a Value
    requires { nothing.now ≡ Absent }
    ensures { result.now ≡ entry v.now f.now }
{
    match v.entry(f) {
        Some(next) => next,
        None => nothing,
    }
}

// Whether a value is a directory.
fn is_dir(v: &Value) -> bool
    ensures { result ≡ is_dir v.now }
{
    match v {
        Value::Dir(_) => true,
        Value::Absent => false,
        Value::Reg => false,
        Value::Link(_) => false,
        Value::Special(_) => false,
    }
}

// Whether a value is a directory with an entry.
pub(crate) fn has_entry(v: &Value) -> bool
    ensures { result ≡ has_entry v.now }
{
    match v {
        Value::Dir(entries) => entries.len() > 0,
        Value::Absent => false,
        Value::Reg => false,
        Value::Link(_) => false,
        Value::Special(_) => false,
    }
}

// Whether a value is a link.
fn is_link(v: &Value) -> bool
    ensures { result ≡ is_link (kind_of v.now) }
{
    match v.kind() {
        Kind::Link => true,
        Kind::Absent => false,
        Kind::Reg => false,
        Kind::Special(_) => false,
        Kind::Dir => false,
    }
}

// Goes down the names, to the first link on the way or to the end.
pub(crate) fn walk<'a>(start: u8, tree: &'a Value, names: &[Name], nothing: &'a Value) -> Seen<'a>
    requires nothing { nothing.now ≡ Absent }
    requires few { start + length names.now < 256 }
    ensures link { result.link ≡ link_on_way start tree.now names.now }
    ensures in_dir { result.in_dir ≡ in_dir tree.now names.now }
    ensures here { result.here.now ≡ at tree.now names.now }
{
    let mut here = tree;
    let mut left = names;
    let mut count = start;
    while let [f, rest @ ..] = left {
        let next = entry_or(here, f, nothing);
        if left.len() < 2 {
            return Seen {
                link: None,
                in_dir: is_dir(here),
                here: next,
            };
        }
        count += 1;
        if is_link(next) {
            return Seen {
                link: Some(count),
                in_dir: false,
                here: nothing,
            };
        }
        here = next;
        left = rest;
    }
    Seen {
        link: None,
        in_dir: false,
        here,
    }
}
