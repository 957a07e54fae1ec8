ghost use Rattle.std.specs.Prelude.{◌≡◌, ◌++◌, ◌∷◌, [], IfOk};
ghost use Rattle.tree_predictions.specs.NamedTrees.{is_named, is_tree_name};

use crate::name_set::NameSet;
use feature_trees::Value;
use script_names::{Bytes, Copied, List, Memory};
use std::alloc::Global;
use std::marker::Model;

/// How many bytes the name of a tree has at most.
pub const MOST_BYTES: usize = 255;

/// A tree of many, and its name: 1 to 255 bytes, such as a host's or a root's.
#[derive(Drop)]
pub struct NamedTree {
    pub name: Bytes,
    pub tree: Value,
}

impl Copied for NamedTree {
    fn copy(&self, alloc: Global) -> Result<NamedTree, Memory> {
        let name = self.name.copy(alloc)?;
        let tree = self.tree.copy(alloc)?;
        Ok(NamedTree { name, tree })
    }
}

/// Whether a tree may have this name.
pub(crate) fn is_tree_name(name: &[u8]) -> bool
    ensures { result ≡ is_tree_name name.now }
{
    !name.is_empty() && name.len() <= MOST_BYTES
}

/// Named trees in their order, and their names, which are looked up for each further one.
#[derive(Drop)]
pub(crate) struct TreeList {
    trees: List<NamedTree>,
    names: NameSet,
}

impl Model for TreeList {
    ghost use Rattle.std.specs.Prelude.{◌≡◌, ℕ, List};
    ghost use Rattle.tree_predictions.specs.declared.named_tree.NamedTree.{NamedTree};
    ghost use Rattle.tree_predictions.specs.contracts.named_tree.NamedTree as named_tree;
    ghost use Rattle.std.specs.Coded.{coded_list};
    ghost use Rattle.tree_predictions.specs.NameSets.{has};
    ghost use Rattle.tree_predictions.specs.NamedTrees.{is_named};

    ghost Value = { List NamedTree };

    ghost coded = { coded_list named_tree.the_row.coded };

    ghost view = { λ l. l.trees };

    ghost invariant = { λ l. (name : List ℕ) → has l.names name ≡ is_named l.trees name };
}

impl TreeList {
    /// No trees.
    pub(crate) fn new(alloc: Global) -> TreeList
        ensures { result ≡ [] }
    {
        TreeList {
            trees: List::new(alloc),
            names: NameSet::new(alloc),
        }
    }

    /// Whether a tree has this name.
    pub(crate) fn has(&self, name: &[u8]) -> bool
        ensures { result ≡ is_named self.now name.now }
    {
        self.names.has(name)
    }

    /// The trees with one more.
    pub(crate) fn with(self, alloc: Global, name: &[u8], tree: Value) -> Result<TreeList, Memory>
        ensures { IfOk result (λ more. more ≡ self ++ (record { name = name.now; tree = tree }) ∷ []) }
    {
        let TreeList { trees, names } = self;
        let mut trees = trees;
        let mut names = names;
        names.add(name)?;
        let name = Bytes::from_slice(alloc, name)?;
        trees.add(NamedTree { name, tree })?;
        Ok(TreeList { trees, names })
    }

    /// The trees.
    pub(crate) fn into_list(self) -> List<NamedTree>
        ensures { result ≡ self }
    {
        let TreeList { trees, names: _ } = self;
        trees
    }
}
