ghost use Rattle.std.specs.Prelude.{◌≡◌};
ghost use Rattle.tree_clauses.specs.Cells.{whole_value};

use crate::cell::Whole;
use feature_trees::Value;

impl<'a> Whole<'a> {
    /// The value.
    pub(crate) fn value(&self) -> &Value
        ensures { result.now ≡ whole_value self.now }
    {
        match self {
            Whole::Seen(value) => value,
            Whole::Built(value) => value,
        }
    }
}
