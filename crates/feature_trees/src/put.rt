ghost use Rattle.std.specs.Prelude.{◌≡◌, IsTrue, ◌≢◌, ◌∷◌, [], ◌↔◌, true, false, OnOk, OnErr, Err};
ghost use Rattle.feature_trees.specs.View.{seen, AllThere};
ghost use Rattle.feature_trees.specs.Sound.{sound_all};
ghost use Rattle.feature_trees.specs.Tree.{put, has_parents};
ghost use Rattle.feature_trees.specs.declared.put.PutFault.TheVariants.{NoParent};
ghost use Rattle.feature_trees.specs.declared.value.Value.TheVariants.{Dir};

use crate::value::{NamedValue, Value, place, set_value};
use script_names::{Copied, Memory, Name, Path};
use std::alloc::Global;

/// Why nothing was put: a name of the path but the last is no directory's, or want of memory.
#[derive(Clone, Copy, Debug, PartialEq, Eq)]
pub enum PutFault {
    NoParent,
    Memory,
}

impl Copied for PutFault {
    fn copy(&self, _alloc: Global) -> Result<PutFault, Memory> {
        Ok(*self)
    }
}

impl From<Memory> for PutFault {
    ghost use Rattle.std.specs.Prelude.{◌≡◌};
    ghost use Rattle.feature_trees.specs.declared.put.PutFault.TheVariants.{Memory as NoMemory};

    ghost from_gives = { λ _ fault. fault ≡ NoMemory };

    fn from(_refused: Memory) -> PutFault {
        PutFault::Memory
    }
}

impl Value {
    /// Puts a value at a path.
    pub fn put(&mut self, p: &Path, v: Value) -> Result<(), PutFault>
        requires { p.now.names ≢ [] }
        ensures ok { OnOk result (self.new ≡ put self.old p.now.names v) }
        ensures parents { OnOk result (IsTrue (has_parents self.old p.now.names)) }
        ensures no_parent { (result ≡ Err NoParent) ↔ (has_parents self.old p.now.names ≡ false) }
        ensures kept { OnErr result (self.new ≡ self.old) }
    {
        match p.names() {
            [] => unreachable!(),
            [f, rest @ ..] => put_below(self, f, rest, v),
        }
    }
}

// Puts a value at a path of at least one name.
#[cycle(putting)]
fn put_below(here: &mut Value, f: &Name, rest: &[Name], v: Value) -> Result<(), PutFault>
    ensures ok { OnOk result (here.new ≡ put here.old (f.now ∷ rest.now) v) }
    ensures no_parent { (result ≡ Err NoParent) ↔ (has_parents here.old (f.now ∷ rest.now) ≡ false) }
    ensures kept { OnErr result (here.new ≡ here.old) }
{
    match here {
        Value::Dir(entries) => put_among(&mut entries.items, f, rest, v),
        _ => Err(PutFault::NoParent),
    }
}

// The same among the entries of a directory.
#[cycle(putting)]
fn put_among(items: &mut Vec<NamedValue>, f: &Name, rest: &[Name], v: Value) -> Result<(), PutFault>
    requires old_there { AllThere items.old.items }
    requires old_sound { IsTrue (sound_all (seen items.old.items)) }
    ensures there { AllThere items.new.items }
    ensures sound { IsTrue (sound_all (seen items.new.items)) }
    ensures ok { OnOk result (Dir (seen items.new.items) ≡ put (Dir (seen items.old.items)) (f.now ∷ rest.now) v) }
    ensures no_parent { (result ≡ Err NoParent)
        ↔ (has_parents (Dir (seen items.old.items)) (f.now ∷ rest.now) ≡ false) }
    ensures kept { OnErr result (items.new.items ≡ items.old.items) }
{
    match rest {
        [] => Ok(set_value(items, f, v)?),
        [g, more @ ..] => match place(items.as_slice(), f) {
            Ok(at) => {
                let answer = put_below(&mut items[at].value, g, more, v);
                items[at].value.is_sound();
                f.is_sound();
                answer
            }
            Err(_) => Err(PutFault::NoParent),
        },
    }
}
