ghost use Rattle.std.specs.Prelude.{◌≡◌, ◌++◌, map, IfOk, OnOk, Some};
ghost use Rattle.feature_trees.specs.declared.kind.Kind.TheVariants.{Dir};
ghost use Rattle.feature_trees.specs.Tree.{kind_of};
ghost use Rattle.utility_calls.specs.declared.deeds.Deed.TheVariants.{Does};
ghost use Rattle.scenario_runs.specs.Runs.{begun_shell, script_end, call_script, program_meaning};

use crate::call::{ScriptCall, call_end};
use crate::course::{Course, WorkEnd, Worked};
use colis_interp::{Ran, run};
use colis_syntax::Program;
use dpkg_scenarios::{Ending, ScriptKind, Side, script_name};
use script_names::{Bytes, Common, Copied, List, Memory};
use shell_rules::{Conc, End, Premises};
use shell_words::Env;
use std::alloc::Global;
use utility_calls::acts::Act;
use utility_calls::deeds::Deed;

// The shell in which a script is called with these words, under these premises.
fn begun_shell(
    alloc: Global,
    premises: &Common<Premises>,
    script: ScriptKind,
    words: &List<Bytes>,
    strict: bool,
    turns: u32,
) -> Result<Conc, Memory>
    ensures { IfOk result (λ shell. shell ≡ begun_shell premises.now script words.now strict turns) }
{
    let mut vars = Env::new(alloc);
    let name = Bytes::from_slice(alloc, script_name(script).as_bytes())?;
    vars.set(b"DPKG_MAINTSCRIPT_NAME", name)?;
    let args = words.copy(alloc)?;
    let premises = premises.fork()?;
    Ok(Conc {
        vars,
        args,
        strict,
        status: true,
        captured: None,
        turns,
        premises,
    })
}

// How a step ends with its script.
fn script_end(end: End) -> WorkEnd
    ensures { result ≡ script_end end }
{
    match end {
        End::Status(true) => WorkEnd::Succeeded,
        End::Status(false) => WorkEnd::Failed(0),
        End::Stopped(reason, site) => WorkEnd::Over(Ending::Incomplete(reason, site)),
        End::Bound(site) => WorkEnd::Over(Ending::Bound(site)),
    }
}

// Adds acts to what was done.
fn append(deeds: &mut List<Deed>, acts: List<Act>) -> Result<(), Memory>
    ensures { OnOk result (deeds.new ≡ deeds.old ++ map Does acts) }
{
    for a in acts.into_vec() {
        deeds.add(Deed::Does(a))?;
    }
    Ok(())
}

/// Calls a script of the old or of the new package with these words, in a step, under these premises.
pub(crate) fn call_script(
    alloc: Global,
    premises: &Common<Premises>,
    step: u16,
    side: Side,
    script: ScriptKind,
    words: List<Bytes>,
    program: &Program,
    course: Course,
) -> Result<Worked, Memory>
    requires { kind_of course.tree ≡ Dir }
    ensures call { let meaning = program_meaning program.now in
        IfOk result (λ worked. worked ≡ call_script premises.now step side script words (Some meaning) course) }
    ensures dir { IfOk result (λ worked. kind_of worked.course.tree ≡ Dir) }
{
    let Course {
        mut tree,
        kept,
        mut trace,
        mut deeds,
        mut calls,
        turns,
        unpacked,
    } = course;
    let mut shell = begun_shell(alloc, premises, script, &words, program.strict(), turns)?;
    let Ran { end, acts } = run(alloc, program, step, &mut shell, &mut tree, &mut trace)?;
    append(&mut deeds, acts)?;
    calls.add(ScriptCall {
        side,
        script,
        words,
        how: call_end(end),
    })?;
    Ok(Worked {
        end: script_end(end),
        course: Course {
            tree,
            kept,
            trace,
            deeds,
            calls,
            turns: shell.turns,
            unpacked,
        },
    })
}
