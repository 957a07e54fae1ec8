ghost use Rattle.std.specs.Prelude.{◌≡◌};
ghost use Rattle.feature_trees.specs.Readable.{is_pipe, only_pipes, entries_pipes};
ghost use Rattle.feature_trees.specs.View.{seen, AllThere};

use crate::kind::Special;
use crate::value::{NamedValue, Value};

impl Value {
    /// Whether the value has pipes alone of the special things.
    pub fn has_only_pipes(&self) -> bool
        ensures { result ≡ only_pipes self.now }
    {
        has_pipes(self)
    }
}

// Whether a value has pipes alone of the special things.
#[cycle(pipes)]
fn has_pipes(value: &Value) -> bool
    ensures { result ≡ only_pipes value.now }
{
    match value {
        Value::Absent => true,
        Value::Reg => true,
        Value::Link(_) => true,
        Value::Special(s) => is_pipe(*s),
        Value::Dir(entries) => have_pipes(entries.items.as_slice()),
    }
}

// Whether entries have pipes alone of the special things.
#[cycle(pipes)]
fn have_pipes(items: &[NamedValue]) -> bool
    requires { AllThere items.now }
    ensures { result ≡ entries_pipes (seen items.now) }
{
    for item in items {
        if !has_pipes(&item.value) {
            return false;
        }
    }
    true
}

// Whether a special thing is a pipe.
fn is_pipe(s: Special) -> bool
    ensures { result ≡ is_pipe s }
{
    match s {
        Special::Fifo => true,
        Special::Socket => false,
        Special::Block => false,
        Special::Char => false,
    }
}
