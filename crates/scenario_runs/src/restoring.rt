// Unpacking, and putting back what was unpacked.
ghost use Rattle.std.specs.Prelude.{◌≡◌, IfOk, OnOk};
ghost use Rattle.feature_trees.specs.declared.kind.Kind.TheVariants.{Dir};
ghost use Rattle.feature_trees.specs.Tree.{kind_of};
ghost use Rattle.scenario_runs.specs.Runs.{keeping_tree, done_by, unpack, restored, restore};

use crate::course::{Course, WorkEnd, Worked};
use crate::file_acts::FileActs;
use crate::file_backs::FileBacks;
use crate::files::{do_backs, do_files};
use script_names::{Copied, List, Memory};
use std::alloc::Global;
use utility_calls::backs::Back;
use utility_calls::deeds::Deed;

// Keeps the tree as it is.
fn keep(alloc: Global, course: &mut Course) -> Result<(), Memory>
    ensures { OnOk result (course.new ≡ keeping_tree course.old) }
{
    course.kept = course.tree.copy(alloc)?;
    course.deeds.add(Deed::Keeps)
}

// How many of so many acts were done with success by an unpacking that ended so.
fn done_by(all: u32, end: WorkEnd) -> u32
    ensures { result ≡ done_by all end }
{
    match end {
        WorkEnd::Succeeded => all,
        WorkEnd::Failed(at) => at,
        WorkEnd::Over(_) => 0,
    }
}

/// Unpacks by these acts in a step; the tree is kept as it was before them.
pub(crate) fn unpack(
    alloc: Global,
    step: u16,
    acts: &FileActs,
    course: Course,
) -> Result<Worked, Memory>
    requires { kind_of course.tree ≡ Dir }
    ensures work { IfOk result (λ worked. worked ≡ unpack step acts.now course) }
    ensures dir { IfOk result (λ worked. kind_of worked.course.tree ≡ Dir) }
{
    let mut course = course;
    keep(alloc, &mut course)?;
    let all = acts.as_slice().len() as u32;
    let Worked { end, mut course } = do_files(alloc, true, step, acts, course)?;
    course.unpacked = done_by(all, end);
    Ok(Worked { end, course })
}

/// What is put back where so many acts of an unpacking were done that these undo, from the last of them to the first.
pub fn restored(alloc: Global, backs: &[Back], unpacked: u32) -> Result<List<Back>, Memory>
    ensures { IfOk result (λ put. put ≡ restored backs.now unpacked) }
{
    let mut put = List::new(alloc);
    let count = (unpacked as usize).min(backs.len());
    let mut left = count;
    while left > 0 {
        left -= 1;
        put.add(backs[left].copy(alloc)?)?;
    }
    Ok(put)
}

/// Puts back in a step what was unpacked, by what undoes each act of the unpacking.
pub(crate) fn restore(
    alloc: Global,
    step: u16,
    backs: &FileBacks,
    course: Course,
) -> Result<Worked, Memory>
    requires { kind_of course.tree ≡ Dir }
    ensures work { IfOk result (λ worked. worked ≡ restore step backs.now course) }
    ensures dir { IfOk result (λ worked. kind_of worked.course.tree ≡ Dir) }
{
    let put = restored(alloc, backs.as_slice(), course.unpacked)?;
    do_backs(alloc, step, &put, course)
}
