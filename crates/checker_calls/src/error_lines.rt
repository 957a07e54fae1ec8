ghost use Rattle.std.specs.Prelude.{◌≡◌, ◌++◌, IfOk, codes};
ghost use Rattle.checker_calls.specs.ErrorLines.{form_name, place_line, unsupported, form_line, script_line};
ghost use Rattle.checker_calls.specs.ErrorLines.{fault_line, length_line, input_line, scenario_line};
ghost use Rattle.checker_calls.specs.ErrorLines.{refusal_line as line_of_refusal};
ghost use Rattle.checker_calls.specs.ErrorLines.{read_failed_line as line_of_failure};
ghost use Rattle.checker_calls.specs.declared.faults.CallRefusal.TheVariants.{Usage};
ghost use Rattle.checker_calls.specs.declared.faults.Refusal.TheVariants.{NoStart, Limit, Kept};

use crate::faults::{CallRefusal, Refusal};
use checker_input::{FileFault, ScriptFault};
use dpkg_scenarios::{Scenario, scenario_name};
use script_names::{Bytes, Memory, Path};
use shell_syntax::Form;
use shown_texts::{push_number, push_path};
use std::alloc::Global;

// The name of an unsupported form.
fn form_name(form: Form) -> &'static [u8]
    ensures { result.now ≡ form_name form }
{
    match form {
        Form::Heredoc => b"heredoc",
        Form::Arith => b"arith",
        Form::Background => b"background",
        Form::Backquote => b"backquote",
        Form::Param => b"param",
        Form::AllArgs => b"all-args",
        Form::Redirect => b"redirect",
        Form::Tilde => b"tilde",
        Form::Brace => b"brace",
        Form::SubstCase => b"subst-case",
        Form::Option => b"option",
        Form::Ifs => b"ifs",
        Form::Prefix => b"prefix",
        Form::Export => b"export",
        Form::LoopExit => b"loop-exit",
        Form::Return => b"return",
        Form::FunctionPlace => b"function-place",
        Form::FunctionTwice => b"function-twice",
        Form::FunctionName => b"function-name",
        Form::CallOrder => b"call-order",
    }
}

// The beginning of a line on a file: the program, the file's name, and what is wrong with it.
fn file_line(alloc: Global, name: &str, fault: &[u8]) -> Result<Bytes, Memory>
    ensures { IfOk result (λ text. text ≡ codes "colis: " ++ name.now ++ fault.now) }
{
    let mut text = Bytes::new(alloc);
    text.extend(b"colis: ")?;
    text.extend(name.as_bytes())?;
    text.extend(fault)?;
    Ok(text)
}

// The line of a fault in a file, with the number of its place or line.
fn number_line(alloc: Global, name: &str, fault: &[u8], number: u64) -> Result<Bytes, Memory>
    ensures { IfOk result (λ text. text ≡ place_line name.now fault.now number) }
{
    let mut text = file_line(alloc, name, fault)?;
    push_number(&mut text, number)?;
    text.extend(b"\n")?;
    Ok(text)
}

// The line of a fault at a place in a file.
fn place_line(alloc: Global, name: &str, fault: &[u8], at: u32) -> Result<Bytes, Memory>
    ensures { IfOk result (λ text. text ≡ place_line name.now fault.now at) }
{
    let text = number_line(alloc, name, fault, u64::from(at))?;
    Ok(text)
}

// What is wrong with a file in which a form of this name stands, up to its place.
fn unsupported(alloc: Global, name: &[u8]) -> Result<Bytes, Memory>
    ensures { IfOk result (λ text. text ≡ unsupported name.now) }
{
    let mut text = Bytes::new(alloc);
    text.extend(b": unsupported ")?;
    text.extend(name)?;
    text.extend(b" at ")?;
    Ok(text)
}

// The line of a form, by its name, at a place in a file.
fn form_line(alloc: Global, name: &str, form: &[u8], at: u32) -> Result<Bytes, Memory>
    ensures { IfOk result (λ text. text ≡ form_line name.now form.now at) }
{
    let fault = unsupported(alloc, form)?;
    place_line(alloc, name, fault.as_slice(), at)
}

// The line of a file whose text is no accepted script.
fn script_line(alloc: Global, name: &str, fault: ScriptFault) -> Result<Bytes, Memory>
    ensures { IfOk result (λ text. text ≡ script_line name.now fault) }
{
    match fault {
        ScriptFault::Nul { at } => place_line(alloc, name, b": NUL byte at ", at),
        ScriptFault::Interpreter { .. } => {
            file_line(alloc, name, b": interpreter not accepted\n")
        }
        ScriptFault::OpenQuote { at } => place_line(alloc, name, b": open quote at ", at),
        ScriptFault::OpenSubstitution { at } => {
            place_line(alloc, name, b": open substitution at ", at)
        }
        ScriptFault::Unsupported { form, at } => { form_line(alloc, name, form_name(form), at) }
        ScriptFault::DeepSubstitution { at } => {
            place_line(alloc, name, b": nested too deep at ", at)
        }
        ScriptFault::Syntax { at } => place_line(alloc, name, b": syntax at ", at),
        ScriptFault::Deep { at } => { place_line(alloc, name, b": nested too deep at ", at) }
        ScriptFault::Form { form, at } => form_line(alloc, name, form_name(form), at),
    }
}

// The line of a file whose line of this number is at fault, for this reason.
fn fault_line(alloc: Global, name: &str, number: u64, why: u8) -> Result<Bytes, Memory>
    ensures { IfOk result (λ text. text ≡ fault_line name.now number why) }
{
    let mut text = file_line(alloc, name, b": line ")?;
    push_number(&mut text, number)?;
    text.extend(b": fault ")?;
    push_number(&mut text, u64::from(why))?;
    text.extend(b"\n")?;
    Ok(text)
}

// The line of a fault in a file, with a number of bytes.
fn length_line(alloc: Global, name: &str, fault: &[u8], most: usize) -> Result<Bytes, Memory>
    ensures { IfOk result (λ text. text ≡ length_line name.now fault.now most) }
{
    let mut text = file_line(alloc, name, fault)?;
    push_number(&mut text, most as u64)?;
    text.extend(b" bytes")?;
    text.extend(b"\n")?;
    Ok(text)
}

// The line of a fault in a file, with the number of a reason.
fn reason_line(alloc: Global, name: &str, fault: &[u8], why: u8) -> Result<Bytes, Memory>
    ensures { IfOk result (λ text. text ≡ place_line name.now fault.now why) }
{
    let text = number_line(alloc, name, fault, u64::from(why))?;
    Ok(text)
}

// The line of a file that is refused, by its name and what is wrong with it.
fn input_line(alloc: Global, name: &str, fault: FileFault) -> Result<Bytes, Memory>
    ensures { IfOk result (λ text. text ≡ input_line name.now fault) }
{
    match fault {
        FileFault::Missing => file_line(alloc, name, b": missing\n"),
        FileFault::TooLong { most } => length_line(alloc, name, b": longer than ", most),
        FileFault::Script(fault) => script_line(alloc, name, fault),
        FileFault::Version { line } => number_line(alloc, name, b": bad version in line ", line),
        FileFault::Line { line, why } => fault_line(alloc, name, line, why),
        FileFault::Report { why } => reason_line(alloc, name, b": report fault ", why),
    }
}

// The line of a scenario for which there is no tree to begin with.
fn no_start_line(alloc: Global, scenario: Scenario) -> Result<Bytes, Memory>
    ensures { IfOk result (λ text. text ≡ scenario_line (NoStart scenario)) }
{
    let mut text = Bytes::new(alloc);
    text.extend(b"colis: no start tree for ")?;
    text.extend(scenario_name(scenario).as_bytes())?;
    text.extend(b"\n")?;
    Ok(text)
}

// The line of a scenario whose runs have more different traces than the limit.
fn limit_line(alloc: Global, scenario: Scenario, limit: u32) -> Result<Bytes, Memory>
    ensures { IfOk result (λ text. text ≡ scenario_line (Limit scenario limit)) }
{
    let mut text = Bytes::new(alloc);
    text.extend(b"colis: more than ")?;
    push_number(&mut text, u64::from(limit))?;
    text.extend(b" outcomes in ")?;
    text.extend(scenario_name(scenario).as_bytes())?;
    text.extend(b"\n")?;
    Ok(text)
}

// The line of a pair of which a file of the other package is kept.
fn kept_line(alloc: Global, path: &Path) -> Result<Bytes, Memory>
    ensures { IfOk result (λ text. text ≡ scenario_line (Kept path.now)) }
{
    let mut text = Bytes::new(alloc);
    text.extend(b"colis: other package keeps ")?;
    push_path(&mut text, path.names())?;
    text.extend(b"\n")?;
    Ok(text)
}

/// The line of words that are no command line; `word` is the number of the word at which that shows, from 1.
pub fn usage_line(alloc: Global, word: u64) -> Result<Bytes, Memory>
    ensures { IfOk result (λ text. text ≡ line_of_refusal (Usage word)) }
{
    let mut text = Bytes::new(alloc);
    text.extend(b"colis: usage: word ")?;
    push_number(&mut text, word)?;
    text.extend(b"\n")?;
    Ok(text)
}

// The line of a scenario that is refused.
fn scenario_line(alloc: Global, refusal: &Refusal) -> Result<Bytes, Memory>
    ensures { IfOk result (λ text. text ≡ scenario_line refusal.now) }
{
    match refusal {
        Refusal::NoStart { scenario } => no_start_line(alloc, *scenario),
        Refusal::Limit { scenario, limit } => limit_line(alloc, *scenario, *limit),
        Refusal::Kept { path } => kept_line(alloc, path),
    }
}

/// The line of a refusal of a call.
pub fn refusal_line(alloc: Global, refusal: &CallRefusal) -> Result<Bytes, Memory>
    ensures { IfOk result (λ text. text ≡ line_of_refusal refusal.now) }
{
    match refusal {
        CallRefusal::Usage { word } => usage_line(alloc, *word),
        CallRefusal::Input(refused) => input_line(alloc, refused.file.as_str(), refused.fault),
        CallRefusal::Task(refused) => scenario_line(alloc, refused),
    }
}

/// The line of a read that failed, of the file of this name.
pub fn read_failed_line(alloc: Global, name: &str) -> Result<Bytes, Memory>
    ensures { IfOk result (λ text. text ≡ line_of_failure name.now) }
{
    file_line(alloc, name, b": read failed\n")
}
