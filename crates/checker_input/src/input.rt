ghost use Rattle.std.specs.Prelude.{◌≡◌, IfOk};
ghost use Rattle.feature_trees.specs.Sound.{IsTree};
ghost use Rattle.checker_input.specs.Input.{ReadsInput, base_in, start_in, translated_in, input};
ghost use Rattle.checker_input.specs.declared.asked.Asked.TheVariants.{Prediction};
ghost use Rattle.checker_input.specs.Input.{OfTask, HasTree, IsInRange, IsSound};

use crate::asked::Asked;
use crate::faults::InputRefusal;
use crate::read_file::{of_file, read_named};
use crate::read_kept::{read_kept, read_packages};
use crate::read_pair::{read_pair, read_twice};
use crate::sources::Kept;
use crate::task::Task;
use crate::understand::{named_base, start_tree, translated_script};
use checker_io::{Shelf, Stop};
use command_words::Request;
use dpkg_scenarios::Scenario;
use feature_trees::Value;
use script_names::{Copied, Memory, Text};
use shell_forms::Accepted;
use std::alloc::Global;
use system_base::Base;

/// The base that is named, or else the usual one.
pub fn read_base<S: Shelf>(
    alloc: Global,
    named: &Option<Text>,
    shelf: &mut S,
) -> Result<Base, Stop<Text, InputRefusal>>
    ensures { ReadsInput (S.state shelf.old) (S.state shelf.new) (base_in named.now) result }
{
    match named {
        None => {
            let base = Base::usual(alloc)?;
            Ok(base)
        }
        Some(name) => {
            let found = match read_named(alloc, name, shelf) {
                Ok(found) => found,
                Err(stop) => return Err(stop),
            };
            let came = named_base(alloc, &found.content);
            of_file(found.name, came)
        }
    }
}

// The tree of a run, in the file of this name.
fn read_start<S: Shelf>(
    alloc: Global,
    tree: &Text,
    shelf: &mut S,
) -> Result<Value, Stop<Text, InputRefusal>>
    ensures reads { ReadsInput (S.state shelf.old) (S.state shelf.new) (start_in tree.now) result }
    ensures tree { IfOk result IsTree }
{
    let found = match read_named(alloc, tree, shelf) {
        Ok(found) => found,
        Err(stop) => return Err(stop),
    };
    let came = start_tree(alloc, &found.content);
    of_file(found.name, came)
}

// The script that is translated, in the file of this name.
fn read_translated<S: Shelf>(
    alloc: Global,
    file: &Text,
    shelf: &mut S,
) -> Result<Accepted, Stop<Text, InputRefusal>>
    ensures { ReadsInput (S.state shelf.old) (S.state shelf.new) (translated_in file.now) result }
{
    let found = match read_named(alloc, file, shelf) {
        Ok(found) => found,
        Err(stop) => return Err(stop),
    };
    let came = translated_script(alloc, &found.content);
    of_file(found.name, came)
}

// What a prediction by these files asks for.
fn prediction_asked(alloc: Global, report: &Text, trees: &Text) -> Result<Asked, Memory>
    ensures { IfOk result (λ asked. asked ≡ Prediction report.now trees.now) }
{
    let report = report.copy(alloc)?;
    let trees = trees.copy(alloc)?;
    Ok(Asked::Prediction { report, trees })
}

/// Reads what the request names: what it asks for, or the first refusal. The order of files is the base, the old
/// package, the new package, the tree, but of a pair the base, the new package, the other one; of a package it is
/// control, list, conffiles, preinst, postinst, prerm, postrm. Each is read and then understood before the next is read.
/// A load reads no file, and for a prediction none is read here.
pub fn read_task<S: Shelf>(
    alloc: Global,
    request: &Request,
    shelf: &mut S,
) -> Result<Asked, Stop<Text, InputRefusal>>
    ensures reads { ReadsInput (S.state shelf.old) (S.state shelf.new) (input request.now) result }
    ensures tree { IfOk result (OfTask HasTree) }
    ensures sound { IsInRange request.now → IfOk result (OfTask IsSound) }
{
    match request {
        Request::Check {
            folders,
            scenario,
            turns,
            limit,
            layout,
        } => match read_packages(alloc, folders, shelf) {
            Ok(packages) => Ok(Asked::Task(Task::Check {
                packages,
                scenario: *scenario,
                turns: *turns,
                limit: *limit,
                layout: *layout,
            })),
            Err(stop) => Err(stop),
        },
        Request::Run {
            folders,
            tree,
            scenario,
            turns,
        } => {
            let packages = match read_packages(alloc, folders, shelf) {
                Ok(packages) => packages,
                Err(stop) => return Err(stop),
            };
            match read_start(alloc, tree, shelf) {
                Ok(tree) => Ok(Asked::Task(Task::Run {
                    packages,
                    tree,
                    scenario: *scenario,
                    turns: *turns,
                })),
                Err(stop) => Err(stop),
            }
        }
        Request::Translate { file } => match read_translated(alloc, file, shelf) {
            Ok(script) => Ok(Asked::Task(Task::Translate { script })),
            Err(stop) => Err(stop),
        },
        Request::Load { number, limit } => Ok(Asked::Task(Task::Load {
            number: *number,
            limit: *limit,
        })),
        Request::Pair {
            dir,
            other,
            base,
            scenario,
            turns,
            limit,
        } => match read_pair(alloc, dir, other, base, shelf) {
            Ok(packages) => Ok(Asked::Task(Task::Pair {
                packages,
                scenario: *scenario,
                turns: *turns,
                limit: *limit,
            })),
            Err(stop) => Err(stop),
        },
        Request::Twice {
            dir,
            base,
            turns,
            limit,
        } => match read_twice(alloc, dir, base, shelf) {
            Ok(packages) => Ok(Asked::Task(Task::Pair {
                packages,
                scenario: Scenario::Twice,
                turns: *turns,
                limit: *limit,
            })),
            Err(stop) => Err(stop),
        },
        Request::Predict { report, trees } => {
            let prediction = prediction_asked(alloc, report, trees)?;
            Ok(prediction)
        }
        Request::Explain {
            folders,
            scenario,
            turns,
            limit,
            view,
        } => match read_kept(alloc, folders, shelf) {
            Ok(kept) => {
                let Kept { packages, sources } = kept;
                Ok(Asked::Task(Task::Explain {
                    packages,
                    sources,
                    scenario: *scenario,
                    turns: *turns,
                    limit: *limit,
                    view: *view,
                }))
            }
            Err(stop) => Err(stop),
        },
    }
}
