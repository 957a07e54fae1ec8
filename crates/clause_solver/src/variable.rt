ghost use Rattle.std.specs.Prelude.{◌≡◌};

use feature_trees::Kinds;
use script_names::{Bytes, Common, Copied, List, Memory, Name};
use std::alloc::Global;

/// So many variables of a store can be numbered.
pub(crate) const MOST_VARIABLES: usize = u32::MAX as usize;

/// A value that a program makes.
#[derive(Debug, Drop)]
pub(crate) enum MadeValue {
    Absent,
    Reg,
    Link(Bytes),
    /// The directory without entries.
    Dir,
}

/// How a variable is defined from earlier ones, which are given by their numbers.
#[derive(Debug, Drop)]
pub(crate) enum Definition {
    /// The start tree.
    Start,
    /// The entry of that name of a place of the start tree.
    Child(u32, Name),
    /// The directory with the entries of the first variable, but under that name the value of the second.
    Derived(u32, Name, u32),
    /// The directory with the entries of a variable.
    Ensured(u32),
    Made(MadeValue),
}

/// A variable of a store: its definition, which never changes and is shared by all copies of the variable, and what is
/// known of its value.
#[derive(Debug, Drop)]
pub(crate) struct Variable {
    pub(crate) definition: Common<Definition>,
    pub(crate) kinds: Kinds,
    /// The only names that its entries may have. Places of the start tree alone have a fence.
    pub(crate) fence: Option<List<Name>>,
    /// Whether it has an entry.
    pub(crate) not_empty: bool,
    /// Its target as a symbolic link. Places of the start tree alone have one, whose kinds allow nothing but a link.
    pub(crate) target: Option<Bytes>,
}

impl Copied for Variable {
    fn copy(&self, alloc: Global) -> Result<Variable, Memory> {
        let definition = self.definition.fork()?;
        let fence = self.fence.copy(alloc)?;
        let target = self.target.copy(alloc)?;
        Ok(Variable {
            definition,
            kinds: self.kinds,
            fence,
            not_empty: self.not_empty,
            target,
        })
    }
}
