//! A variable that is to be a symbolic link to a target.

ghost use Rattle.std.specs.Prelude.{◌≡◌, ◌↔◌, ◌<◌, length, OnOk, IsTrue};
ghost use Rattle.feature_trees.specs.declared.value.Value.TheVariants as value;
ghost use Rattle.clause_solver.specs.Variables.{aimed, is_node, IsLinkPlace, made_value, var_at};
ghost use Rattle.clause_solver.specs.Decided.{AreDecided};
ghost use Rattle.clause_solver.specs.Aims.{IsAim, IsLed};

use crate::facts::aim;
use crate::lists::Lists;
use crate::places::var_at;
use crate::variable::{Definition, MadeValue, Variable};
use feature_trees::{Kind, Kinds};
use script_names::{Bytes, Memory};
use std::alloc::Global;

/// What is known of a variable that is to be a symbolic link to a target.
#[derive(Clone, Copy)]
pub(crate) enum Aim {
    /// It is one already.
    Met,
    /// It is none.
    Missed,
    /// It is a place of the start tree whose target is not known.
    Open,
}

impl Lists {
    /// Leaves the valuations in which a variable is a symbolic link to the target.
    pub(crate) fn lead(&mut self, alloc: Global, x: u32, target: &Bytes) -> Result<(), Memory>
        requires decided { AreDecided self.old }
        requires inside { x < length self.old.vars }
        ensures led { OnOk result (IsLed self.old.vars x target.now self.new.vars) }
        ensures decided { OnOk result (AreDecided self.new) }
    {
        match aim_at(var_at(&self.vars, x as usize), target) {
            Aim::Met => Ok(()),
            Aim::Missed => {
                self.narrow(alloc, x, Kinds::none())?;
                Ok(())
            }
            Aim::Open => {
                self.narrow(alloc, x, Kinds::of(Kind::Link))?;
                self.aim(alloc, x, target)?;
                Ok(())
            }
        }
    }

    // Gives a place of the start tree, which can be nothing but a link, its target.
    fn aim(&mut self, alloc: Global, x: u32, target: &Bytes) -> Result<(), Memory>
        requires decided { AreDecided self.old }
        requires inside { x < length self.old.vars }
        requires place { IsLinkPlace (var_at self.old.vars x) }
        ensures aimed { OnOk result (self.new.vars ≡ aimed self.old.vars x target.now) }
        ensures decided { OnOk result (AreDecided self.new) }
    {
        aim(alloc, &mut self.vars, x as usize, target)?;
        Ok(())
    }
}

// What is known of a variable that is to be a symbolic link to the target.
fn aim_at(v: &Variable, target: &Bytes) -> Aim
    ensures { IsAim v.now target.now result }
{
    match v.definition.get() {
        Definition::Start => aim_at_place(v, target),
        Definition::Child(_, _) => aim_at_place(v, target),
        Definition::Derived(_, _, _) => Aim::Missed,
        Definition::Ensured(_) => Aim::Missed,
        Definition::Made(made) => {
            if is_link_to(made, target) {
                return Aim::Met;
            }
            Aim::Missed
        }
    }
}

// What is known of a place of the start tree that is to be a symbolic link to the target.
fn aim_at_place(v: &Variable, target: &Bytes) -> Aim
    requires place { IsTrue (is_node v.now.definition) }
    ensures { IsAim v.now target.now result }
{
    match &v.target {
        None => Aim::Open,
        Some(known) => {
            if known.equal(target) {
                return Aim::Met;
            }
            Aim::Missed
        }
    }
}

// Whether a made value is a symbolic link to the target.
fn is_link_to(made: &MadeValue, target: &Bytes) -> bool
    ensures { IsTrue result ↔ (made_value made.now ≡ value.Link target.now) }
{
    match made {
        MadeValue::Absent => false,
        MadeValue::Reg => false,
        MadeValue::Link(own) => own.equal(target),
        MadeValue::Dir => false,
    }
}
