ghost use Rattle.std.specs.Prelude.{◌≡◌, ◌<◌, length, IfOk, option_map, if◌then◌else◌};
ghost use Rattle.std.specs.List.{find};
ghost use Rattle.std.specs.Option.{option_copied};
ghost use Rattle.script_names.specs.declared.reason.Reason.TheVariants as reason;
ghost use Rattle.utility_calls.specs.declared.planned.Planned.TheVariants.{Unspecified};
ghost use Rattle.utility_calls.specs.Calls.{call};
ghost use Rattle.utility_calls.specs.Performed.{HasPerformedActs};
ghost use Rattle.utility_calls.specs.StatedCalls.{has_name};
ghost use Rattle.colis_meaning.specs.Meaning.{names_of};
ghost use Rattle.shell_rules.specs.Planned.{asks_of_name, speaks_of, stated_end, end_plan, compared, act_in, runs_in};
ghost use Rattle.shell_rules.specs.Planned.{unless_function, by_end, named, is_functions, planned};

use crate::names::is_function;
use colis_syntax::Def;
use debian_versions::comparison;
use link_walks::follow;
use script_names::{Bytes, Copied, List, Memory, Reason};
use shell_rules::theorems::planned_acts_are_performed;
use shell_rules::{Premises, Spelled};
use std::alloc::Global;
use utility_calls::acts::Act;
use utility_calls::calls::{Planned, plan};
use utility_calls::{CallEnd, StatedCalls};

// Whether the first operand of `command` asks what a name is (POSIX.1-2017, XCU command).
fn asks_of_name(operands: &[Bytes]) -> bool
    ensures { result ≡ asks_of_name operands.now }
{
    match operands {
        [] => false,
        [operand, ..] => {
            operand.as_slice() == b"-v".as_slice() || operand.as_slice() == b"-V".as_slice()
        }
    }
}

// Whether what is stated of a command's name speaks of the command with these fields.
fn speaks_of(spelled: Spelled, fields: &[Bytes]) -> bool
    ensures { result ≡ speaks_of spelled fields.now }
{
    match fields {
        [] => false,
        [name, operands @ ..] => {
            !(name.as_slice() == b"command".as_slice())
                || (spelled.operand && asks_of_name(operands))
        }
    }
}

// How a command ends of which that is stated.
fn end_of<'a>(calls: &'a StatedCalls, name: &[u8]) -> Option<&'a CallEnd>
    ensures { option_copied result ≡ option_map (λ stated. stated.end) (find (has_name name.now) calls.now) }
{
    match calls.find(name) {
        None => None,
        Some(stated) => Some(&stated.end),
    }
}

// How a command with these fields ends, where that is stated.
fn stated_end<'a>(calls: &'a StatedCalls, spelled: Spelled, fields: &[Bytes]) -> Option<&'a CallEnd>
    ensures { option_copied result ≡ stated_end calls.now spelled fields.now }
{
    match fields {
        [] => None,
        [name, ..] => {
            if spelled.name && speaks_of(spelled, fields) {
                end_of(calls, name.as_slice())
            } else {
                None
            }
        }
    }
}

// What a call comes to that ends so.
fn end_plan(alloc: Global, end: &CallEnd) -> Result<Planned, Memory>
    ensures { IfOk result (λ planned. planned ≡ end_plan end.now) }
{
    match end {
        CallEnd::Succeeds => Ok(Planned::Known(true)),
        CallEnd::Fails => Ok(Planned::Known(false)),
        CallEnd::Asks(path) => {
            let path = path.copy(alloc)?;
            Ok(Planned::Ask {
                act: Act::Exists(path),
                negate: false,
            })
        }
    }
}

// What `dpkg --compare-versions` answers, where it is stated that it goes by the order of versions.
fn compared(
    alloc: Global,
    versions: bool,
    spelled: Spelled,
    fields: &[Bytes],
) -> Result<Option<bool>, Memory>
    ensures { IfOk result (λ answer. answer ≡ compared versions spelled fields.now) }
{
    if versions && spelled.name {
        return comparison(alloc, fields);
    }
    Ok(None)
}

// Whether the name of a command is that of a function.
fn is_functions(functions: &[Def], fields: &[Bytes]) -> bool
    ensures { result ≡ is_functions (names_of functions.now) fields.now }
{
    match fields {
        [] => false,
        [name, ..] => is_function(name.as_slice(), functions),
    }
}

// That answer, unless the name of the command is that of a function.
fn ordered(
    alloc: Global,
    functions: &[Def],
    versions: bool,
    spelled: Spelled,
    fields: &[Bytes],
) -> Result<Option<bool>, Memory>
    ensures { IfOk result (λ answer. answer
        ≡ unless_function (is_functions (names_of functions.now) fields.now) (compared versions spelled fields.now)) }
{
    match compared(alloc, versions, spelled, fields)? {
        None => Ok(None),
        Some(ok) => {
            if is_functions(functions, fields) {
                return Ok(None);
            }
            Ok(Some(ok))
        }
    }
}

// What a command comes to by what is stated of its name, else as a utility.
fn ended(
    alloc: Global,
    calls: &StatedCalls,
    spelled: Spelled,
    fields: &List<Bytes>,
) -> Result<Planned, Memory>
    requires { 0 < length fields.now }
    ensures { IfOk result (λ planned. planned ≡ by_end (stated_end calls.now spelled fields.now) (call fields.now)) }
{
    match stated_end(calls, spelled, fields.as_slice()) {
        Some(end) => end_plan(alloc, end),
        None => plan(alloc, fields),
    }
}

// What a command comes to whose name was computed: nothing is stated of it.
fn computed(alloc: Global, functions: &[Def], fields: &List<Bytes>) -> Result<Planned, Memory>
    requires { 0 < length fields.now }
    ensures { IfOk result (λ planned. planned ≡ (if is_functions (names_of functions.now) fields.now
        then Unspecified reason.Call else call fields.now)) }
{
    if is_functions(functions, fields.as_slice()) {
        return Ok(Planned::Unspecified(Reason::Call));
    }
    plan(alloc, fields)
}

// What a command comes to, by the names of the functions, before its paths are taken along the links.
fn named(
    alloc: Global,
    premises: &Premises,
    functions: &[Def],
    spelled: Spelled,
    fields: &List<Bytes>,
) -> Result<Planned, Memory>
    requires { 0 < length fields.now }
    ensures { IfOk result (λ planned. planned
        ≡ named (is_functions (names_of functions.now) fields.now) premises.now spelled fields.now) }
{
    if !spelled.name {
        return computed(alloc, functions, fields);
    }
    let words = fields.as_slice();
    match ordered(alloc, functions, premises.versions, spelled, words)? {
        Some(ok) => Ok(Planned::Known(ok)),
        None => {
            let plan = ended(alloc, &premises.calls, spelled, fields)?;
            Ok(plan)
        }
    }
}

// A question, where it is stated of regular files whether they may be executed; another act is as it is.
fn act_in(runs: bool, act: Act) -> Act
    ensures { result ≡ act_in runs act }
{
    match act {
        Act::CanRun { p, runs: _ } => Act::CanRun { p, runs },
        Act::Exists(p) => Act::Exists(p),
        Act::IsReg(p) => Act::IsReg(p),
        Act::IsDir(p) => Act::IsDir(p),
        Act::IsLink(p) => Act::IsLink(p),
        Act::IsSpecial { p, kind } => Act::IsSpecial { p, kind },
        Act::MakeDir(p) => Act::MakeDir(p),
        Act::EnsureDir(p) => Act::EnsureDir(p),
        Act::RemoveDir(p) => Act::RemoveDir(p),
        Act::Remove { p, force, deep } => Act::Remove { p, force, deep },
        Act::Touch(p) => Act::Touch(p),
        Act::Symlink {
            p,
            target,
            last,
            force,
        } => Act::Symlink {
            p,
            target,
            last,
            force,
        },
        Act::Move { a, b } => Act::Move { a, b },
        Act::Attr(p) => Act::Attr(p),
        Act::Copy { a, b, deep } => Act::Copy { a, b, deep },
        Act::PlaceFile(p) => Act::PlaceFile(p),
        Act::PlaceLink { p, target } => Act::PlaceLink { p, target },
        Act::PlaceConf(p) => Act::PlaceConf(p),
        Act::Discard(p) => Act::Discard(p),
        Act::DiscardDir(p) => Act::DiscardDir(p),
    }
}

// A plan with that question.
fn runs_in(runs: bool, planned: Planned) -> Planned
    ensures { result ≡ runs_in runs planned }
{
    match planned {
        Planned::Known(ok) => Planned::Known(ok),
        Planned::Ask { act, negate } => Planned::Ask {
            act: act_in(runs, act),
            negate,
        },
        Planned::Print(text) => Planned::Print(text),
        Planned::Change(lists) => Planned::Change(lists),
        Planned::Unspecified(reason) => Planned::Unspecified(reason),
    }
}

// What the fields of a command come to under the premises of the run, by the functions of the program.
fn followed(
    alloc: Global,
    premises: &Premises,
    functions: &[Def],
    spelled: Spelled,
    fields: &List<Bytes>,
) -> Result<Planned, Memory>
    requires { 0 < length fields.now }
    ensures { IfOk result (λ plan. plan ≡ planned premises.now (names_of functions.now) spelled fields.now) }
{
    let named = named(alloc, premises, functions, spelled, fields)?;
    let asked = runs_in(premises.runs, named);
    follow(alloc, premises.links.as_slice(), asked)
}

/// What the fields of a command come to under the premises of the run, by the functions of the program; its acts meet
/// their conditions.
pub(crate) fn planned(
    alloc: Global,
    premises: &Premises,
    functions: &[Def],
    spelled: Spelled,
    fields: &List<Bytes>,
) -> Result<Planned, Memory>
    requires { 0 < length fields.now }
    ensures planned { IfOk result (λ plan. plan ≡ planned premises.now (names_of functions.now) spelled fields.now) }
    ensures performed { IfOk result (λ plan. HasPerformedActs plan) }
{
    planned_acts_are_performed();
    followed(alloc, premises, functions, spelled, fields)
}
