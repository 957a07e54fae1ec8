ghost use Rattle.std.specs.Prelude.{◌≡◌, ◌≤◌, All, length, IfOk, OnOk};
ghost use Rattle.feature_trees.specs.declared.kind.Kind.TheVariants.{Dir};
ghost use Rattle.feature_trees.specs.Tree.{kind_of};
ghost use Rattle.utility_calls.specs.Acts.{row, IsPerformed};
ghost use Rattle.utility_calls.specs.Backs.{back_row, IsNamed};
ghost use Rattle.scenario_runs.specs.Runs.{acted, returned, ended_behind, do_files, do_backs};

use crate::course::{Course, WorkEnd, Worked};
use crate::file_acts::FileActs;
use concrete_utils::backs::put_back;
use concrete_utils::steps::act;
use dpkg_scenarios::Ending;
use script_names::{Copied, Done, List, Mark, Memory, Site};
use std::alloc::Global;
use utility_calls::acts::Act;
use utility_calls::backs::Back;
use utility_calls::deeds::Deed;
use utility_calls::theorems::{acts_change_trees, one_back_row};

// Does an act at a site: what it answers.
fn do_act(alloc: Global, site: Site, a: &Act, course: &mut Course) -> Result<Done, Memory>
    requires performed { IsPerformed a.now }
    requires dir { kind_of course.old.tree ≡ Dir }
    ensures answer { IfOk result (λ done. done ≡ (row a.now course.old.tree).answer) }
    ensures course { OnOk result (course.new ≡ acted site a.now course.old) }
    ensures dir { OnOk result (kind_of course.new.tree ≡ Dir) }
{
    acts_change_trees();
    let (row, done) = act(alloc, a, &mut course.tree)?;
    course.trace.add(Mark { site, row })?;
    course.deeds.add(Deed::Does(a.copy(alloc)?))?;
    Ok(done)
}

// Puts something back at a site, from the tree that was kept: what that answers.
fn do_back(alloc: Global, site: Site, b: &Back, course: &mut Course) -> Result<Done, Memory>
    requires named { IsNamed b.now }
    requires dir { kind_of course.old.tree ≡ Dir }
    ensures answer { IfOk result (λ done. done ≡ (back_row b.now course.old.kept course.old.tree).answer) }
    ensures course { OnOk result (course.new ≡ returned site b.now course.old) }
    ensures dir { OnOk result (kind_of course.new.tree ≡ Dir) }
{
    one_back_row();
    let (row, done) = put_back(alloc, b, &mut course.tree, &course.kept)?;
    course.trace.add(Mark { site, row })?;
    course.deeds.add(Deed::Returns(b.copy(alloc)?))?;
    Ok(done)
}

// The end of a step behind an act that answers so, if it ends there.
fn ended_behind(can_fail: bool, site: Site, done: Done) -> Option<WorkEnd>
    ensures { result ≡ ended_behind can_fail site done }
{
    match done {
        Done::Ok => None,
        Done::Failed => {
            if can_fail {
                Some(WorkEnd::Failed(site.at))
            } else {
                None
            }
        }
        Done::Stopped(reason) => Some(WorkEnd::Over(Ending::Incomplete(reason, site))),
    }
}

/// Does the acts of a step in order, the first one numbered 0. The first failure ends a step that can fail.
pub(crate) fn do_files(
    alloc: Global,
    can_fail: bool,
    step: u16,
    acts: &FileActs,
    course: Course,
) -> Result<Worked, Memory>
    requires { kind_of course.tree ≡ Dir }
    ensures files { IfOk result (λ worked. worked ≡ do_files can_fail step 0 acts.now course) }
    ensures dir { IfOk result (λ worked. kind_of worked.course.tree ≡ Dir) }
{
    let mut course = course;
    let mut at = 0u32;
    for a in acts.as_slice() {
        let site = Site { step, at };
        let done = do_act(alloc, site, a, &mut course)?;
        match ended_behind(can_fail, site, done) {
            Some(end) => return Ok(Worked { end, course }),
            None => {}
        }
        at += 1;
    }
    Ok(Worked {
        end: WorkEnd::Succeeded,
        course,
    })
}

/// Puts back in order, the first one numbered 0. None of them fails.
pub(crate) fn do_backs(
    alloc: Global,
    step: u16,
    backs: &List<Back>,
    course: Course,
) -> Result<Worked, Memory>
    requires named { All IsNamed backs.now }
    requires few { length backs.now ≤ 4294967295 }
    requires dir { kind_of course.tree ≡ Dir }
    ensures backs { IfOk result (λ worked. worked ≡ do_backs step 0 backs.now course) }
    ensures dir { IfOk result (λ worked. kind_of worked.course.tree ≡ Dir) }
{
    let mut course = course;
    let mut at = 0u32;
    for b in backs.as_slice() {
        let site = Site { step, at };
        let done = do_back(alloc, site, b, &mut course)?;
        match ended_behind(false, site, done) {
            Some(end) => return Ok(Worked { end, course }),
            None => {}
        }
        at += 1;
    }
    Ok(Worked {
        end: WorkEnd::Succeeded,
        course,
    })
}
