ghost use Rattle.std.specs.Prelude.{◌≡◌, IfOk, OnErr};
ghost use Rattle.feature_trees.specs.declared.kind.Kind.TheVariants.{Dir};
ghost use Rattle.feature_trees.specs.Tree.{kind_of};
ghost use Rattle.shell_rules.specs.Whole.{ended_by};
ghost use Rattle.colis_meaning.specs.Meaning.{co_program};
ghost use Rattle.colis_interp.specs.Ends.{end_answer};

use crate::execution::run_stmt;
use crate::halt::Halt;
use crate::place::Place;
use crate::root::Root;
use crate::shell::Shell;
use colis_syntax::Program;
use feature_trees::Value;
use script_names::{Common, Copied, List, Memory};
use shell_rules::{Conc, End, Leave, Premises, Trace};
use shell_words::Env;
use std::alloc::Global;
use std::mem;
use utility_calls::acts::Act;

/// What a run came to: how it ended, and the acts that it did, in order.
#[derive(Drop)]
pub struct Ran {
    pub end: End,
    pub acts: List<Act>,
}

// The end that an answer of the body comes to.
fn end_answer(ran: Result<(), Halt>, status: bool) -> Result<End, Memory>
    ensures { result ≡ end_answer ran status }
{
    match ran {
        Ok(()) => Ok(End::Status(status)),
        Err(Halt::Left(Leave::Broke)) => Ok(End::Status(status)),
        Err(Halt::Left(Leave::Continued)) => Ok(End::Status(status)),
        Err(Halt::Left(Leave::Returned)) => Ok(End::Status(status)),
        Err(Halt::Left(Leave::Exited)) => Ok(End::Status(status)),
        Err(Halt::Left(Leave::Stopped(reason, site))) => Ok(End::Stopped(reason, site)),
        Err(Halt::Left(Leave::Bound(site))) => Ok(End::Bound(site)),
        Err(Halt::Memory) => Err(Memory),
    }
}

/// Runs a program in a step of a scenario, from a state of the shell, a tree and a trace: the end, the acts, the state,
/// the tree and the trace are those of the program's meaning. The strict flag is that of the state. After want of
/// memory the tree is some directory, and the trace is as it was; the trace of the meaning begins with it, since a run
/// only adds to a trace.
pub fn run(
    alloc: Global,
    p: &Program,
    step: u16,
    conc: &mut Conc,
    tree: &mut Value,
    trace: &mut Trace,
) -> Result<Ran, Memory>
    requires { kind_of tree.old ≡ Dir }
    ensures meaning { IfOk result (λ ran. co_program p.now step conc.old tree.old trace.old
        ≡ record { end = ran.end; conc = conc.new; tree = tree.new; trace = trace.new; acts = ran.acts }) }
    ensures dir { kind_of tree.new ≡ Dir }
    ensures kept { OnErr result (trace.new ≡ trace.old) }
{
    let kept = trace.copy(alloc)?;
    let none = no_state(alloc, conc.premises.fork()?);
    let place = Place {
        step,
        at: 0,
        functions: p.defs(),
        excepted: false,
        inner: false,
    };
    let mut shell = Shell {
        conc: mem::replace(conc, none),
        root: Root::new(mem::replace(tree, Value::Absent)),
        trace: mem::replace(trace, List::new(alloc)),
        acts: List::new(alloc),
        substituted: true,
    };
    let ran = run_stmt(alloc, p.body(), p.defs(), place, &mut shell);
    let ended = end_answer(ran, shell.conc.status);
    let Shell {
        conc: left,
        root,
        trace: marks,
        acts,
        substituted: _,
    } = shell;
    *conc = left;
    *tree = root.into_tree();
    let end = match ended {
        Ok(end) => end,
        Err(memory) => {
            *trace = kept;
            return Err(memory);
        }
    };
    *trace = marks;
    Ok(Ran { end, acts })
}

// A state that stands in for the one that a run has taken.
fn no_state(alloc: Global, premises: Common<Premises>) -> Conc {
    Conc {
        vars: Env::new(alloc),
        args: List::new(alloc),
        strict: false,
        status: true,
        captured: None,
        turns: 0,
        premises,
    }
}
