// What a part of a command line is about.
ghost use Rattle.std.specs.Prelude.{◌≡◌};
ghost use Rattle.command_words.specs.Fields.{rank, is_field, option_name, option_named, takes};
ghost use Rattle.command_words.specs.Fields.{command_named, fields_of, needs_of, most};

/// A command.
#[derive(Clone, Copy, Debug, PartialEq, Eq)]
pub enum Command {
    Check,
    Run,
    Translate,
    Load,
    Predict,
    Explain,
    Pair,
    Twice,
}

/// What a part of a line is about: the folder, file or number that is named, an option that has a value, or how a
/// report is written.
#[derive(Clone, Copy, Debug, PartialEq, Eq)]
pub enum Field {
    Named,
    Old,
    Base,
    Scenario,
    Tree,
    Turns,
    Limit,
    Layout,
    With,
    Outcome,
}

/// The command of this name.
pub fn command_named(name: &str) -> Option<Command>
    ensures { result ≡ command_named name.now }
{
    if name == "check" {
        return Some(Command::Check);
    }
    if name == "run" {
        return Some(Command::Run);
    }
    if name == "translate" {
        return Some(Command::Translate);
    }
    if name == "load" {
        return Some(Command::Load);
    }
    if name == "predict" {
        return Some(Command::Predict);
    }
    if name == "explain" {
        return Some(Command::Explain);
    }
    if name == "pair" {
        return Some(Command::Pair);
    }
    if name == "twice" {
        return Some(Command::Twice);
    }
    None
}

// The field's place among the fields.
fn rank(field: Field) -> u8
    ensures { result ≡ rank field }
{
    match field {
        Field::Named => 0,
        Field::Old => 1,
        Field::Base => 2,
        Field::Scenario => 3,
        Field::Tree => 4,
        Field::Turns => 5,
        Field::Limit => 6,
        Field::Layout => 7,
        Field::With => 8,
        Field::Outcome => 9,
    }
}

/// Whether the two are the same.
pub fn is_field(field: Field, other: Field) -> bool
    ensures { result ≡ is_field field other }
{
    rank(field) == rank(other)
}

/// The option, with a value, of this name.
pub fn option_named(name: &str) -> Option<Field>
    ensures { result ≡ option_named name.now }
{
    if name == "--old" {
        return Some(Field::Old);
    }
    if name == "--base" {
        return Some(Field::Base);
    }
    if name == "--scenario" {
        return Some(Field::Scenario);
    }
    if name == "--tree" {
        return Some(Field::Tree);
    }
    if name == "--turns" {
        return Some(Field::Turns);
    }
    if name == "--limit" {
        return Some(Field::Limit);
    }
    if name == "--with" {
        return Some(Field::With);
    }
    if name == "--outcome" {
        return Some(Field::Outcome);
    }
    None
}

// The fields for which a line of the command may have a text.
fn fields_of(command: Command) -> &'static [Field]
    ensures { result.now ≡ fields_of command }
{
    match command {
        Command::Check => &[
            Field::Named,
            Field::Old,
            Field::Base,
            Field::Scenario,
            Field::Turns,
            Field::Limit,
            Field::Layout,
        ],
        Command::Run => &[
            Field::Named,
            Field::Old,
            Field::Base,
            Field::Scenario,
            Field::Tree,
            Field::Turns,
        ],
        Command::Translate => &[Field::Named],
        Command::Load => &[Field::Named, Field::Limit],
        Command::Predict => &[Field::Named],
        Command::Explain => &[
            Field::Named,
            Field::Old,
            Field::Base,
            Field::Scenario,
            Field::Turns,
            Field::Limit,
            Field::Layout,
            Field::Outcome,
        ],
        Command::Pair => &[
            Field::Named,
            Field::With,
            Field::Base,
            Field::Scenario,
            Field::Turns,
            Field::Limit,
        ],
        Command::Twice => &[Field::Named, Field::Base, Field::Turns, Field::Limit],
    }
}

/// The options that a line of the command has to have.
pub fn needs_of(command: Command) -> &'static [Field]
    ensures { result.now ≡ needs_of command }
{
    match command {
        Command::Run => &[Field::Scenario, Field::Tree],
        Command::Pair => &[Field::With, Field::Scenario],
        Command::Check | Command::Translate | Command::Load => &[],
        Command::Predict | Command::Explain | Command::Twice => &[],
    }
}

/// Whether a line of the command may have a text for the field.
pub fn takes(command: Command, field: Field) -> bool
    ensures { result ≡ takes command field }
{
    fields_of(command)
        .iter()
        .any(|taken| is_field(*taken, field))
}

/// How many texts for the field a line of the command may have.
pub fn most(command: Command, field: Field) -> usize
    ensures { result ≡ most command field }
{
    match (command, field) {
        (Command::Predict, Field::Named) => 2,
        _ => 1,
    }
}
