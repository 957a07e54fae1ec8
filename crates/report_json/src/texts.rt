// The pieces of a report that are texts, as JSON values: one string each.
ghost use Rattle.std.specs.Prelude.{◌≡◌, ◌++◌, map, IfOk, OnOk, IsUtf8};
ghost use Rattle.std.specs.List.{flat_map, join_with_byte};
ghost use Rattle.serde_json.specs.Data.{string};
ghost use Rattle.serde_json.specs.View.{view};
ghost use Rattle.shown_texts.specs.Marks.{mark_text};
ghost use Rattle.tree_clauses.specs.ClauseText.{literal_content};
ghost use Rattle.report_text.specs.ReportText.{result_text, trace_mark, call_content};
ghost use Rattle.report_json.specs.ReportJson.{trace_json};

use dpkg_scenarios::Ending;
use feature_trees::Version;
use report_text::{
    are_representable_marks, is_representable_call, is_representable_ending,
    is_representable_literal, print_call, put_result,
};
use scenario_runs::ScriptCall;
use script_names::{Bytes, Mark, Memory};
use serde_json::Value;
use shown_texts::push_mark;
use std::alloc::Global;
use tree_clauses::{Literal, print_literal};

// A text.
pub(crate) fn text_value(alloc: Global, text: &[u8]) -> Result<Value, Memory>
    requires { IsUtf8 text.now }
    ensures { IfOk result (λ value. view value ≡ string text.now) }
{
    match std::str::from_utf8(text) {
        Ok(text) => Ok(Value::try_from_str(alloc, text)?),
        Err(_) => unreachable!(),
    }
}

// How a scenario ended.
pub(crate) fn result_value(alloc: Global, ending: Ending) -> Result<Value, Memory>
    ensures { IfOk result (λ value. view value ≡ string (result_text ending)) }
{
    is_representable_ending(&ending);
    let mut text = Bytes::new(alloc);
    put_result(&mut text, ending)?;
    let value = text_value(alloc, text.as_slice())?;
    Ok(value)
}

// Adds marks, each behind a space.
fn put_marks(text: &mut Bytes, marks: &[Mark]) -> Result<(), Memory>
    ensures { OnOk result (text.new ≡ text.old ++ flat_map trace_mark marks.now) }
{
    for mark in marks {
        text.extend(b" ")?;
        push_mark(text, *mark)?;
    }
    Ok(())
}

// Marks, with a space between each two.
fn print_marks(alloc: Global, marks: &[Mark]) -> Result<Bytes, Memory>
    ensures { IfOk result (λ text. text ≡ join_with_byte 32 (map mark_text marks.now)) }
{
    let mut text = Bytes::new(alloc);
    match marks {
        [] => Ok(text),
        [first, rest @ ..] => {
            push_mark(&mut text, *first)?;
            put_marks(&mut text, rest)?;
            Ok(text)
        }
    }
}

// The marks of a trace.
pub(crate) fn trace_value(alloc: Global, trace: &[Mark]) -> Result<Value, Memory>
    ensures { IfOk result (λ value. view value ≡ trace_json trace.now) }
{
    are_representable_marks(trace);
    let text = print_marks(alloc, trace)?;
    let value = text_value(alloc, text.as_slice())?;
    Ok(value)
}

// A call of a script.
pub(crate) fn call_value(alloc: Global, call: &ScriptCall) -> Result<Value, Memory>
    ensures { IfOk result (λ value. view value ≡ string (call_content call.now)) }
{
    is_representable_call(call);
    let text = print_call(alloc, call)?;
    let value = text_value(alloc, text.as_slice())?;
    Ok(value)
}

// A literal of a clause.
pub(crate) fn literal_value(
    alloc: Global,
    version: Version,
    literal: &Literal,
) -> Result<Value, Memory>
    ensures { IfOk result (λ value. view value ≡ string (literal_content version literal.now)) }
{
    is_representable_literal(literal);
    let text = print_literal(alloc, version, literal)?;
    let value = text_value(alloc, text.as_slice())?;
    Ok(value)
}
