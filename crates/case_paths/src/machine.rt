ghost use Rattle.std.specs.Prelude.{[], IfOk};
ghost use Rattle.feature_trees.specs.Sound.{IsTree};
ghost use Rattle.utility_calls.specs.Walks.{Walk, fresh, walk, AllDone};
ghost use Rattle.case_paths.specs.Paths.{Gives};

use crate::state::Ran;
use feature_trees::Value;
use script_names::Memory;
use std::alloc::Global;

/// What runs for any start tree by one walk: the tree enters a run at its deeds alone.
pub trait Machine {
    /// What a run ends with.
    type End: Drop;

    // What each run does, for all trees at once.
    ghost decision: { Self → Walk Self.End };

    /// The run from a start tree, which is the kept tree at first: the walk, played from it. The one fault is want of
    /// memory.
    fn run(&self, alloc: Global, start: &Value) -> Result<Ran<Self::End>, Memory>
        requires { IsTree start.now }
        ensures { IfOk result (λ ran. Gives (walk (decision self.now) (fresh start.now) [] []) ran) };

    // Each act of it can be done on every tree, and each path that is put back has a name.
    ghost performed: { (m : Self) → AllDone (decision m) };
}
