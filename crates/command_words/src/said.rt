// What the words so far have said, and the request that they make.
ghost use Rattle.std.specs.Prelude.{◌≡◌, length, IfOk};
ghost use Rattle.std.specs.List.{find};
ghost use Rattle.std.specs.Option.{option_copied};
ghost use Rattle.command_words.specs.Fields.{is_field, texts, given, second, is_given, is_excluded};
ghost use Rattle.command_words.specs.Requests.{number_or, scenario_said, layout_said, folders_said, request_of, run_of};
ghost use Rattle.command_words.specs.Requests.{check_of, load_of, predict_of, view_named, view_said, explain_of, pair_said, pair_of};
ghost use Rattle.command_words.specs.Requests.{twice_of};

use crate::field::{Command, Field, is_field};
use crate::limits::{MOST_LIMIT, MOST_LOAD, MOST_TURNS, USUAL_LIMIT, USUAL_TURNS};
use crate::request::{Folders, Layout, Request, View};
use crate::setting::Setting;
use crate::value::read_number;
use dpkg_scenarios::{Scenario, pair_named, scenario_named};
use script_names::{Memory, Text};
use std::alloc::Global;

// The first setting of the field.
fn found(said: &[Setting], field: Field) -> Option<&Setting>
    ensures { option_copied result ≡ find (λ s. is_field field s.field) said.now }
{
    said.iter().find(|setting| is_field(field, setting.field))
}

// The text for the field.
fn given(said: &[Setting], field: Field) -> Option<&str>
    ensures { option_copied result ≡ given field said.now }
{
    match found(said, field) {
        None => None,
        Some(setting) => Some(setting.text.as_str()),
    }
}

/// How many of the settings are of the field.
pub fn count(said: &[Setting], field: Field) -> usize
    ensures { result ≡ length (texts field said.now) }
{
    said.iter()
        .filter(|setting| is_field(field, setting.field))
        .count()
}

// The second text for the field.
fn second(said: &[Setting], field: Field) -> Option<&str>
    ensures { option_copied result ≡ second field said.now }
{
    match said {
        [] => None,
        [setting, rest @ ..] => {
            if is_field(field, setting.field) {
                given(rest, field)
            } else {
                second(rest, field)
            }
        }
    }
}

/// Whether one of the settings is of the field.
pub fn is_given(said: &[Setting], field: Field) -> bool
    ensures { result ≡ is_given field said.now }
{
    given(said, field).is_some()
}

/// Whether one of the settings is of a field that this one excludes.
pub fn is_excluded(said: &[Setting], field: Field) -> bool
    ensures { result ≡ is_excluded said.now field }
{
    match field {
        Field::Layout => is_given(said, Field::Outcome),
        Field::Outcome => is_given(said, Field::Layout),
        Field::Named | Field::Old | Field::Base | Field::Scenario => false,
        Field::Tree | Field::Turns | Field::Limit | Field::With => false,
    }
}

// The text for the field, copied.
fn copied(alloc: Global, said: &[Setting], field: Field) -> Result<Option<Text>, Memory>
    ensures { IfOk result (λ text. text ≡ given field said.now) }
{
    match given(said, field) {
        None => Ok(None),
        Some(text) => {
            let text = Text::from_text(alloc, text)?;
            Ok(Some(text))
        }
    }
}

// The scenario that was said.
fn scenario_said(said: &[Setting]) -> Option<Scenario>
    ensures { result ≡ scenario_said said.now }
{
    match given(said, Field::Scenario) {
        None => None,
        Some(name) => scenario_named(name.as_bytes()),
    }
}

// The number for the field, from 1 to `most`, or the usual one.
fn number_or(said: &[Setting], field: Field, most: u32, usual: u32) -> u32
    ensures { result ≡ number_or most usual (given field said.now) }
{
    match given(said, field) {
        None => usual,
        Some(text) => match read_number(text, most) {
            None => usual,
            Some(number) => number,
        },
    }
}

// How the report is to be written.
fn layout_said(said: &[Setting]) -> Layout
    ensures { result ≡ layout_said said.now }
{
    match given(said, Field::Layout) {
        None => Layout::Plain,
        Some(word) => {
            if word == "--json" {
                Layout::Json
            } else {
                Layout::Brief
            }
        }
    }
}

// How an explanation is to be written, by the word for it.
fn view_named(word: &str) -> View
    ensures { result ≡ view_named word.now }
{
    if word == "--html" {
        View::Html
    } else {
        View::Places
    }
}

// How an explanation is to be written.
fn view_said(said: &[Setting]) -> View
    ensures { result ≡ view_said said.now }
{
    match given(said, Field::Layout) {
        Some(word) => view_named(word),
        None => match given(said, Field::Outcome) {
            None => View::Text,
            Some(_) => View::Outcome {
                number: number_or(said, Field::Outcome, MOST_LIMIT, 1),
            },
        },
    }
}

// The folders that were said, beside the package's own.
fn folders_said(alloc: Global, said: &[Setting], dir: Text) -> Result<Folders, Memory>
    ensures { IfOk result (λ folders. folders ≡ folders_said dir said.now) }
{
    let old = copied(alloc, said, Field::Old)?;
    let base = copied(alloc, said, Field::Base)?;
    Ok(Folders { dir, old, base })
}

/// The request that the settings of a command make; None where a field that the command needs has none.
pub fn request_of(
    alloc: Global,
    command: Command,
    said: &[Setting],
) -> Result<Option<Request>, Memory>
    ensures { IfOk result (λ request. request ≡ request_of command said.now) }
{
    let name = match copied(alloc, said, Field::Named)? {
        None => return Ok(None),
        Some(name) => name,
    };
    match command {
        Command::Check => {
            let check = check_request(alloc, said, name)?;
            Ok(Some(check))
        }
        Command::Run => run_request(alloc, said, name),
        Command::Translate => Ok(Some(Request::Translate { file: name })),
        Command::Load => Ok(load_request(said, name.as_str())),
        Command::Predict => predict_request(alloc, said, name),
        Command::Explain => {
            let explanation = explain_request(alloc, said, name)?;
            Ok(Some(explanation))
        }
        Command::Pair => pair_request(alloc, said, name),
        Command::Twice => {
            let twice = twice_request(alloc, said, name)?;
            Ok(Some(twice))
        }
    }
}

// The request of a check, of the package's folder.
fn check_request(alloc: Global, said: &[Setting], dir: Text) -> Result<Request, Memory>
    ensures { IfOk result (λ request. request ≡ check_of dir said.now) }
{
    let folders = folders_said(alloc, said, dir)?;
    Ok(Request::Check {
        folders,
        scenario: scenario_said(said),
        turns: number_or(said, Field::Turns, MOST_TURNS, USUAL_TURNS),
        limit: number_or(said, Field::Limit, MOST_LIMIT, USUAL_LIMIT),
        layout: layout_said(said),
    })
}

// The request of an explanation, of the package's folder.
fn explain_request(alloc: Global, said: &[Setting], dir: Text) -> Result<Request, Memory>
    ensures { IfOk result (λ request. request ≡ explain_of dir said.now) }
{
    let folders = folders_said(alloc, said, dir)?;
    Ok(Request::Explain {
        folders,
        scenario: scenario_said(said),
        turns: number_or(said, Field::Turns, MOST_TURNS, USUAL_TURNS),
        limit: number_or(said, Field::Limit, MOST_LIMIT, USUAL_LIMIT),
        view: view_said(said),
    })
}

// The request of a run, from the package's folder.
fn run_request(alloc: Global, said: &[Setting], dir: Text) -> Result<Option<Request>, Memory>
    ensures { IfOk result (λ request. request ≡ run_of dir said.now) }
{
    let scenario = match scenario_said(said) {
        None => return Ok(None),
        Some(scenario) => scenario,
    };
    let tree = match copied(alloc, said, Field::Tree)? {
        None => return Ok(None),
        Some(tree) => tree,
    };
    let folders = folders_said(alloc, said, dir)?;
    Ok(Some(Request::Run {
        folders,
        tree,
        scenario,
        turns: number_or(said, Field::Turns, MOST_TURNS, USUAL_TURNS),
    }))
}

// The scenario of a pair that was said.
fn pair_said(said: &[Setting]) -> Option<Scenario>
    ensures { result ≡ pair_said said.now }
{
    match given(said, Field::Scenario) {
        None => None,
        Some(name) => pair_named(name.as_bytes()),
    }
}

// The request of a pair, from the new package's folder.
fn pair_request(alloc: Global, said: &[Setting], dir: Text) -> Result<Option<Request>, Memory>
    ensures { IfOk result (λ request. request ≡ pair_of dir said.now) }
{
    let scenario = match pair_said(said) {
        None => return Ok(None),
        Some(scenario) => scenario,
    };
    let other = match copied(alloc, said, Field::With)? {
        None => return Ok(None),
        Some(other) => other,
    };
    let base = copied(alloc, said, Field::Base)?;
    Ok(Some(Request::Pair {
        dir,
        other,
        base,
        scenario,
        turns: number_or(said, Field::Turns, MOST_TURNS, USUAL_TURNS),
        limit: number_or(said, Field::Limit, MOST_LIMIT, USUAL_LIMIT),
    }))
}

// The request of a package that is configured twice, from its folder.
fn twice_request(alloc: Global, said: &[Setting], dir: Text) -> Result<Request, Memory>
    ensures { IfOk result (λ request. request ≡ twice_of dir said.now) }
{
    let base = copied(alloc, said, Field::Base)?;
    Ok(Request::Twice {
        dir,
        base,
        turns: number_or(said, Field::Turns, MOST_TURNS, USUAL_TURNS),
        limit: number_or(said, Field::Limit, MOST_LIMIT, USUAL_LIMIT),
    })
}

// The request of a load, of the number that is named.
fn load_request(said: &[Setting], name: &str) -> Option<Request>
    ensures { result ≡ load_of name.now said.now }
{
    match read_number(name, MOST_LOAD) {
        None => None,
        Some(number) => Some(Request::Load {
            number,
            limit: number_or(said, Field::Limit, MOST_LIMIT, USUAL_LIMIT),
        }),
    }
}

// The request of a prediction, by the report that is named first.
fn predict_request(alloc: Global, said: &[Setting], report: Text) -> Result<Option<Request>, Memory>
    ensures { IfOk result (λ request. request ≡ predict_of report said.now) }
{
    match second(said, Field::Named) {
        None => Ok(None),
        Some(trees) => {
            let trees = Text::from_text(alloc, trees)?;
            Ok(Some(Request::Predict { report, trees }))
        }
    }
}
