// That a tree's names rise, and that its names and targets are of bytes, said of values of its type. These calls change
// nothing.
ghost use Rattle.std.specs.Prelude.{IsTrue};
ghost use Rattle.feature_trees.specs.Readable.{of_bytes, entries_bytes};
ghost use Rattle.report_text.specs.Whole.{IsRepresentableTree};

use crate::representable_pieces::are_bytes;
use feature_trees::{Entries, Value};

// The names and targets of a tree are of bytes.
#[cycle(tree)]
fn is_of_bytes(tree: &Value)
    ensures { IsTrue (of_bytes tree.now) }
{
    match tree {
        Value::Absent | Value::Reg | Value::Special(_) => {}
        Value::Link(target) => are_bytes(target.as_slice()),
        Value::Dir(entries) => are_of_bytes(entries),
    }
}

// The names of entries, and the names and targets of their trees, are of bytes.
#[cycle(tree)]
fn are_of_bytes(entries: &Entries)
    ensures { IsTrue (entries_bytes entries.now) }
{
    for at in 0usize..entries.len() {
        match entries.get_at(at) {
            Some((name, value)) => {
                are_bytes(name.as_slice());
                is_of_bytes(value);
            }
            None => unreachable!(),
        }
    }
}

/// The tree is one that its type represents. The call changes nothing.
pub fn is_representable_tree(tree: &Value)
    ensures { IsRepresentableTree tree.now }
{
    tree.is_sound();
    is_of_bytes(tree);
}
