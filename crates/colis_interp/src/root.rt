ghost use Rattle.std.specs.Prelude.{◌≡◌, IfOk, OnOk, OnErr};
ghost use Rattle.feature_trees.specs.declared.kind.Kind.TheVariants.{Dir};
ghost use Rattle.feature_trees.specs.Tree.{kind_of};
ghost use Rattle.utility_calls.specs.Acts.{row, tree_after, IsPerformed};

use concrete_utils::steps::act;
use feature_trees::Value;
use script_names::{Done, Memory};
use std::alloc::Global;
use utility_calls::acts::Act;
use utility_calls::theorems::acts_change_trees;

/// The tree that a run changes, which is a directory whatever is done.
#[derive(Drop)]
pub(crate) struct Root {
    pub tree: Value,
    ghost is_dir: { kind_of tree ≡ Dir },
}

impl Root {
    /// The tree of a run.
    pub(crate) fn new(tree: Value) -> Root
        requires { kind_of tree ≡ Dir }
        ensures { result.tree ≡ tree }
    {
        Root { tree }
    }

    /// The tree, moved out.
    pub(crate) fn into_tree(self) -> Value
        ensures tree { result ≡ self.tree }
        ensures dir { kind_of result ≡ Dir }
    {
        let Root { tree } = self;
        tree
    }

    /// Does an act: the row that it takes, and its answer; the tree becomes the one that the act leaves, and stays as
    /// it was where memory is missing.
    pub(crate) fn act(&mut self, alloc: Global, a: &Act) -> Result<(u8, Done), Memory>
        requires { IsPerformed a.now }
        ensures row { IfOk result (λ taken. taken.0 ≡ (row a.now self.old.tree).number) }
        ensures answer { IfOk result (λ taken. taken.1 ≡ (row a.now self.old.tree).answer) }
        ensures tree { OnOk result (self.new.tree ≡ tree_after a.now self.old.tree) }
        ensures kept { OnErr result (self.new.tree ≡ self.old.tree) }
    {
        acts_change_trees();
        act(alloc, a, &mut self.tree)
    }
}
