ghost use Rattle.std.specs.Prelude.{◌≡◌, ℕ, ◌<◌, ◌≤◌, List, length, IfOk, OnErr, OnOk};
ghost use Rattle.clause_solver.specs.Variables.{Ordered, var_at};
ghost use Rattle.clause_solver.specs.Appends.{IsAppended, LeadsTo, Within};
ghost use Rattle.clause_solver.specs.Decided.{AreDecided};
ghost use Rattle.clause_solver.specs.Linked.{AreLinked, IsEnd, WithVariable};

use crate::children::{add_entry, behind, kin_at, links_of};
use crate::derivations::{add_derived, add_end, add_ensured, value_under};
use crate::greatest::greatest_by;
use crate::kin::Kin;
use crate::lists::Lists;
use crate::places::definition_at;
use crate::variable::{Definition, MOST_VARIABLES, Variable};
use feature_trees::{Kind, Kinds};
use script_names::{Common, Memory, Name};
use shared_table::{Shared, fork_alone, push_alone};
use std::alloc::Global;

/// What an entry is: an older variable's value, absent, or the entry of a place of the start tree.
#[derive(Clone, Copy)]
pub(crate) enum Found {
    Known(u32),
    Nothing,
    At(u32),
}

impl Lists {
    /// Follows an entry through the definitions.
    pub(crate) fn resolve(&self, x: u32, f: &Name) -> Found
        requires linked { AreLinked self.now.vars self.now.kin }
        requires order { Ordered self.now.vars }
        requires inside { x < length self.now.vars }
        ensures { LeadsTo self.now.vars x f.now result }
    {
        let end = kin_at(&self.kin, x as usize).end;
        let mut here = kin_at(&self.kin, x as usize).top;
        'directories: loop {
            match here {
                None => return found_at(&self.vars, end),
                Some(m) => {
                    let definition = definition_at(&self.vars, m as usize);
                    if let Some(y) = value_under(definition, f) {
                        return Found::Known(y);
                    }
                    here = behind(definition, &self.kin, m, f);
                }
            }
        }
    }

    /// Adds a variable; for want of memory, or of numbers for variables, all is as before.
    pub(crate) fn append(&mut self, alloc: Global, definition: Definition) -> Result<u32, Memory>
        requires decided { AreDecided self.old }
        requires within { Within self.old.vars definition }
        ensures ok { IfOk result (IsAppended self.old definition self.new) }
        ensures kept { OnErr result (self.new ≡ self.old) }
    {
        let best = fork_alone(&self.best)?;
        let kin = fork_alone(&self.kin)?;
        match self.append_in_place(alloc, definition) {
            Ok(y) => Ok(y),
            Err(Memory) => {
                self.best = best;
                self.kin = kin;
                Err(Memory)
            }
        }
    }

    /// Adds a variable in place. For want of memory, or of numbers for variables, all but the greatest kinds and the
    /// links is as before.
    pub(crate) fn append_in_place(
        &mut self,
        alloc: Global,
        definition: Definition,
    ) -> Result<u32, Memory>
        requires decided { AreDecided self.old }
        requires within { Within self.old.vars definition }
        ensures ok { IfOk result (IsAppended self.old definition self.new) }
        ensures kept { OnErr result (record self.new { best = self.old.best; kin = self.old.kin } ≡ self.old) }
    {
        let y = self.vars.len();
        if y >= MOST_VARIABLES {
            return Err(Memory);
        }
        let kind = greatest_by(&self.vars, &self.best, Kinds::all(), &definition);
        push_alone(&mut self.best, kind)?;
        add_kin(alloc, &self.vars, &mut self.kin, &definition)?;
        let definition = Common::new(alloc, definition)?;
        let variable = Variable {
            definition,
            kinds: Kinds::all(),
            fence: None,
            not_empty: false,
            target: None,
        };
        push_alone(&mut self.vars, variable)?;
        Ok(y as u32)
    }
}

// What an entry is where the way down through the definitions ends at a variable.
fn found_at(vars: &Shared<Variable>, end: u32) -> Found
    requires inside { end < length vars.now }
    requires end { IsEnd (var_at vars.now end).definition }
    ensures { (f : List ℕ) → LeadsTo vars.now end f result }
{
    match definition_at(vars, end as usize) {
        Definition::Start => Found::At(end),
        Definition::Child(_, _) => Found::At(end),
        Definition::Derived(_, _, _) => Found::Nothing,
        Definition::Ensured(_) => Found::Nothing,
        Definition::Made(_) => Found::Nothing,
    }
}

// Adds the links of one variable more.
fn add_kin(
    alloc: Global,
    vars: &Shared<Variable>,
    kin: &mut Shared<Kin>,
    definition: &Definition,
) -> Result<(), Memory>
    requires within { Within vars.now definition.now }
    requires linked { AreLinked vars.now kin.old }
    requires small { length vars.now ≤ MOST_VARIABLES }
    ensures { OnOk result (WithVariable vars.now kin.old definition.now kin.new) }
{
    match definition {
        Definition::Start => {
            add_end(alloc, kin)?;
            Ok(())
        }
        Definition::Child(p, f) => {
            let links = links_of(alloc, vars, kin, *p, f)?;
            add_entry(alloc, kin, *p as usize, links)?;
            Ok(())
        }
        Definition::Derived(x, f, _) => {
            add_derived(alloc, vars, kin, *x, f)?;
            Ok(())
        }
        Definition::Ensured(x) => {
            add_ensured(alloc, kin, *x as usize)?;
            Ok(())
        }
        Definition::Made(_) => {
            add_end(alloc, kin)?;
            Ok(())
        }
    }
}
