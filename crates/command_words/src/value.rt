// The values of options.
ghost use Rattle.std.specs.Prelude.{◌≡◌};
ghost use Rattle.std.specs.List.{list_all};
ghost use Rattle.command_words.specs.Values.{is_name, number_in, is_report_flag, is_view_flag, is_flag, may_name, may_lay_out};
ghost use Rattle.command_words.specs.Values.{scenario_in, is_value};
ghost use Rattle.script_names.specs.ShellNames.{is_digit};

use crate::field::{Command, Field};
use crate::limits::{MOST_LIMIT, MOST_LOAD, MOST_TURNS};
use dpkg_scenarios::{Scenario, pair_named, scenario_named};

/// Whether the word does not begin with a dash, or is a dash alone.
pub fn is_name(word: &str) -> bool
    ensures { result ≡ is_name word.now }
{
    match word.as_bytes() {
        [] => true,
        [first] => true,
        [first, ..] => *first != b'-',
    }
}

/// The number of 1 to 6 decimal digits that the text spells, from 1 to `most`.
pub fn read_number(text: &str, most: u32) -> Option<u32>
    ensures { result ≡ number_in most text.now }
{
    if !are_digits(text.as_bytes()) {
        return None;
    }
    if text.is_empty() || text.len() > 6 {
        return None;
    }
    match text.parse::<u32>() {
        Ok(number) => {
            if number >= 1 && number <= most {
                Some(number)
            } else {
                None
            }
        }
        Err(_) => None,
    }
}

// Whether each byte is a decimal digit.
fn are_digits(text: &[u8]) -> bool
    ensures { result ≡ list_all is_digit text.now }
{
    text.iter().all(|byte| is_digit(*byte))
}

// Whether the byte is a decimal digit.
fn is_digit(byte: u8) -> bool
    ensures { result ≡ is_digit byte }
{
    byte >= b'0' && byte <= b'9'
}

// Whether the word says how a report is written.
fn is_report_flag(word: &str) -> bool
    ensures { result ≡ is_report_flag word.now }
{
    word == "--json" || word == "--brief"
}

// Whether the word says how an explanation is written.
fn is_view_flag(word: &str) -> bool
    ensures { result ≡ is_view_flag word.now }
{
    word == "--places" || word == "--html"
}

/// Whether the word says how a report or an explanation is written.
pub fn is_flag(word: &str) -> bool
    ensures { result ≡ is_flag word.now }
{
    is_report_flag(word) || is_view_flag(word)
}

// Whether a line of the command may say so how its text is written.
fn may_lay_out(command: Command, text: &str) -> bool
    ensures { result ≡ may_lay_out command text.now }
{
    match command {
        Command::Check | Command::Run | Command::Translate => is_report_flag(text),
        Command::Load | Command::Predict | Command::Pair | Command::Twice => is_report_flag(text),
        Command::Explain => is_view_flag(text),
    }
}

// Whether a line of the command may name it.
fn may_name(command: Command, text: &str) -> bool
    ensures { result ≡ may_name command text.now }
{
    match command {
        Command::Check | Command::Run | Command::Translate => true,
        Command::Predict | Command::Explain | Command::Pair | Command::Twice => true,
        Command::Load => read_number(text, MOST_LOAD).is_some(),
    }
}

// The scenario that a name means in a line of the command.
fn scenario_in(command: Command, name: &[u8]) -> Option<Scenario>
    ensures { result ≡ scenario_in command name.now }
{
    match command {
        Command::Check | Command::Run | Command::Translate | Command::Load => scenario_named(name),
        Command::Predict | Command::Explain | Command::Twice => scenario_named(name),
        Command::Pair => pair_named(name),
    }
}

/// Whether the text may stand for the field in a line of the command.
pub fn is_value(command: Command, field: Field, text: &str) -> bool
    ensures { result ≡ is_value command field text.now }
{
    match field {
        Field::Named => may_name(command, text),
        Field::Old | Field::Base | Field::Tree | Field::With => true,
        Field::Scenario => scenario_in(command, text.as_bytes()).is_some(),
        Field::Turns => read_number(text, MOST_TURNS).is_some(),
        Field::Limit | Field::Outcome => read_number(text, MOST_LIMIT).is_some(),
        Field::Layout => may_lay_out(command, text),
    }
}
