ghost use Rattle.std.specs.Prelude.{◌≡◌, ◌++◌, ◌∷◌, [], length, IfOk, OnOk};

use script_names::{List, Mark, Memory};
use shared_table::{Shared, fork_alone, push_alone};
use std::alloc::Global;
use std::marker::Model;

/// The marks of a path, in order, which contracts see as the list of them. Paths that part own together what they
/// share, so that none of it is copied.
#[derive(Debug, Drop)]
pub struct Trace {
    marks: Shared<Mark>,
}

impl Model for Trace {
    ghost use Rattle.std.specs.Prelude.{List as Items};
    ghost use Rattle.script_names.specs.declared.mark.Mark.{Mark as Item};

    ghost Value = { Items Item };

    ghost view = { λ trace. trace.marks };
}

impl Trace {
    /// The trace without marks.
    pub fn new(alloc: Global) -> Trace
        ensures { result ≡ [] }
    {
        Trace {
            marks: Shared::new(alloc),
        }
    }

    /// How many marks there are.
    pub fn len(&self) -> usize
        ensures { result ≡ length self.now }
    {
        self.marks.len()
    }

    /// An equal trace, which owns the same marks; a later change of the one leaves the other.
    pub fn fork(&self) -> Result<Trace, Memory>
        ensures { IfOk result (λ fork. fork ≡ self.now) }
    {
        let marks = fork_alone(&self.marks)?;
        Ok(Trace { marks })
    }

    /// One mark more at the end.
    pub fn add(&mut self, mark: Mark) -> Result<(), Memory>
        ensures { OnOk result (self.new ≡ self.old ++ mark ∷ []) }
    {
        push_alone(&mut self.marks, mark)?;
        Ok(())
    }

    /// The marks as a list of their own.
    pub fn listed(&self, alloc: Global) -> Result<List<Mark>, Memory>
        ensures { IfOk result (λ marks. marks ≡ self.now) }
    {
        let mut marks = List::with_room(alloc, self.marks.len())?;
        for at in 0..self.marks.len() {
            match self.marks.get(at) {
                Some(mark) => marks.add(*mark)?,
                None => unreachable!(),
            }
        }
        Ok(marks)
    }
}
