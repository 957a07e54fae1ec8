// What is seen of a script before it runs. Each function adds the simple commands of its part, in their order.
ghost use Rattle.std.specs.Prelude.{◌≡◌, ◌++◌, ◌∷◌, [], map, IfOk, OnOk};
ghost use Rattle.std.specs.List.{flat_map};
ghost use Rattle.settled_commands.specs.Seen.{head, default_of, expansion, commands_in, part_seen, word_seen};
ghost use Rattle.settled_commands.specs.SeenParts.{words_parts, words_commands, assigns_commands, links_commands};
ghost use Rattle.settled_commands.specs.SeenParts.{arms_commands, case_arms_commands};
ghost use Rattle.settled_commands.specs.declared.seen.SeenPart.TheVariants.{Literal};

use crate::seen::{SeenCommand, SeenPart};
use script_names::{Bytes, Copied, List, Memory};
use shell_syntax::{Assign, CaseArm, Command, IfArm, Key, Link, Part, Word};
use std::alloc::Global;

/// The simple commands in a command, with those in its functions and substitutions.
pub fn commands_in(alloc: Global, command: &Command) -> Result<List<SeenCommand>, Memory>
    ensures { IfOk result (λ seen. seen ≡ commands_in command.now) }
{
    let mut seen = List::new(alloc);
    see_command(command, alloc, &mut seen)?;
    Ok(seen)
}

// The default of an expansion, which is empty where there is none.
fn default_of(alloc: Global, default: &Option<Bytes>) -> Result<Bytes, Memory>
    ensures { IfOk result (λ bytes. bytes ≡ default_of default.now) }
{
    match default {
        None => Ok(Bytes::new(alloc)),
        Some(bytes) => bytes.copy(alloc),
    }
}

// The expansion of a parameter.
fn expansion(
    alloc: Global,
    key: &Key,
    default: &Option<Bytes>,
    quoted: bool,
) -> Result<SeenPart, Memory>
    ensures { IfOk result (λ part. part ≡ expansion key.now default.now quoted) }
{
    match key {
        Key::Named(name) => {
            let name = name.copy(alloc)?;
            let default = default_of(alloc, default)?;
            Ok(SeenPart::Variable {
                name,
                default,
                quoted,
            })
        }
        Key::Arg(_) | Key::Count => Ok(SeenPart::Unknown),
    }
}

// Bytes that a part stands for.
fn literal(alloc: Global, bytes: &Bytes, quoted: bool) -> Result<SeenPart, Memory>
    ensures { IfOk result (λ part. part ≡ Literal bytes.now quoted) }
{
    let bytes = bytes.copy(alloc)?;
    Ok(SeenPart::Literal { bytes, quoted })
}

// Adds the head of a `for`.
fn see_head(alloc: Global, name: &Bytes, seen: &mut List<SeenCommand>) -> Result<(), Memory>
    ensures { OnOk result (seen.new ≡ seen.old ++ head name.now ∷ []) }
{
    let mut assigned = List::new(alloc);
    assigned.add(name.copy(alloc)?)?;
    let words = List::new(alloc);
    seen.add(SeenCommand { assigned, words })
}

#[cycle(seeing)]
fn see_command(command: &Command, alloc: Global, seen: &mut List<SeenCommand>) -> Result<(), Memory>
    ensures { OnOk result (seen.new ≡ seen.old ++ commands_in command.now) }
{
    match command {
        Command::Simple { assigns, words, .. } => {
            let assigned = see_assigns(assigns.as_slice(), alloc, seen)?;
            let words = see_words(words.as_slice(), alloc, seen)?;
            seen.add(SeenCommand { assigned, words })
        }
        Command::Redirected { body, .. } => see_command(body.get(), alloc, seen),
        Command::Pipe { parts, .. } => see_commands(parts.as_slice(), alloc, seen),
        Command::Not { body, .. } => see_command(body.get(), alloc, seen),
        Command::Chain { first, rest } => {
            see_command(first.get(), alloc, seen)?;
            see_links(rest.as_slice(), alloc, seen)
        }
        Command::Seq(parts) => see_commands(parts.as_slice(), alloc, seen),
        Command::If {
            arms,
            otherwise,
            ..
        } => {
            see_arms(arms.as_slice(), alloc, seen)?;
            match otherwise {
                None => Ok(()),
                Some(body) => see_command(body.get(), alloc, seen),
            }
        }
        Command::For {
            name,
            words,
            body,
            ..
        } => {
            see_head(alloc, name, seen)?;
            match words {
                None => see_command(body.get(), alloc, seen),
                Some(words) => {
                    let _words = see_words(words.as_slice(), alloc, seen)?;
                    see_command(body.get(), alloc, seen)
                }
            }
        }
        Command::While { cond, body, .. } => {
            see_command(cond.get(), alloc, seen)?;
            see_command(body.get(), alloc, seen)
        }
        Command::Case { subject, arms, .. } => {
            let _parts = see_word(subject, alloc, seen)?;
            see_case_arms(arms.as_slice(), alloc, seen)
        }
        Command::Sub { body, .. } => see_command(body.get(), alloc, seen),
        Command::Define { body, .. } => see_command(body.get(), alloc, seen),
    }
}

// What a part says.
#[cycle(seeing)]
fn see_part(part: &Part, alloc: Global, seen: &mut List<SeenCommand>) -> Result<SeenPart, Memory>
    ensures part { IfOk result (λ says. says ≡ (part_seen part.now).part) }
    ensures commands { OnOk result (seen.new ≡ seen.old ++ (part_seen part.now).commands) }
{
    match part {
        Part::Plain(bytes) => literal(alloc, bytes, false),
        Part::Quoted(bytes) => literal(alloc, bytes, true),
        Part::Param {
            key,
            default,
            quoted,
        } => expansion(alloc, key, default, *quoted),
        Part::All => Ok(SeenPart::Unknown),
        Part::Run { body, .. } => {
            see_command(body.get(), alloc, seen)?;
            Ok(SeenPart::Unknown)
        }
    }
}

// What the parts of a word say.
#[cycle(seeing)]
fn see_word(
    word: &Word,
    alloc: Global,
    seen: &mut List<SeenCommand>,
) -> Result<List<SeenPart>, Memory>
    ensures parts { IfOk result (λ parts. parts ≡ (word_seen word.now).parts) }
    ensures commands { OnOk result (seen.new ≡ seen.old ++ (word_seen word.now).commands) }
{
    let mut parts = List::new(alloc);
    for part in word.parts.as_slice() {
        let says = see_part(part, alloc, seen)?;
        parts.add(says)?;
    }
    Ok(parts)
}

// What the parts of each word say.
#[cycle(seeing)]
fn see_words(
    words: &[Word],
    alloc: Global,
    seen: &mut List<SeenCommand>,
) -> Result<List<List<SeenPart>>, Memory>
    ensures words { IfOk result (λ says. says ≡ words_parts words.now) }
    ensures commands { OnOk result (seen.new ≡ seen.old ++ words_commands words.now) }
{
    let mut says = List::new(alloc);
    for word in words {
        let parts = see_word(word, alloc, seen)?;
        says.add(parts)?;
    }
    Ok(says)
}

// The names that are assigned.
#[cycle(seeing)]
fn see_assigns(
    assigns: &[Assign],
    alloc: Global,
    seen: &mut List<SeenCommand>,
) -> Result<List<Bytes>, Memory>
    ensures names { IfOk result (λ names. names ≡ map (λ assign. assign.name) assigns.now) }
    ensures commands { OnOk result (seen.new ≡ seen.old ++ assigns_commands assigns.now) }
{
    let mut names = List::new(alloc);
    for assign in assigns {
        let _parts = see_word(&assign.value, alloc, seen)?;
        names.add(assign.name.copy(alloc)?)?;
    }
    Ok(names)
}

#[cycle(seeing)]
fn see_commands(
    commands: &[Command],
    alloc: Global,
    seen: &mut List<SeenCommand>,
) -> Result<(), Memory>
    ensures { OnOk result (seen.new ≡ seen.old ++ flat_map commands_in commands.now) }
{
    for command in commands {
        see_command(command, alloc, seen)?;
    }
    Ok(())
}

#[cycle(seeing)]
fn see_links(links: &[Link], alloc: Global, seen: &mut List<SeenCommand>) -> Result<(), Memory>
    ensures { OnOk result (seen.new ≡ seen.old ++ links_commands links.now) }
{
    for link in links {
        see_command(&link.command, alloc, seen)?;
    }
    Ok(())
}

#[cycle(seeing)]
fn see_arms(arms: &[IfArm], alloc: Global, seen: &mut List<SeenCommand>) -> Result<(), Memory>
    ensures { OnOk result (seen.new ≡ seen.old ++ arms_commands arms.now) }
{
    for arm in arms {
        see_command(&arm.cond, alloc, seen)?;
        see_command(&arm.body, alloc, seen)?;
    }
    Ok(())
}

#[cycle(seeing)]
fn see_case_arms(
    arms: &[CaseArm],
    alloc: Global,
    seen: &mut List<SeenCommand>,
) -> Result<(), Memory>
    ensures { OnOk result (seen.new ≡ seen.old ++ case_arms_commands arms.now) }
{
    for arm in arms {
        let _words = see_words(arm.patterns.as_slice(), alloc, seen)?;
        see_command(&arm.body, alloc, seen)?;
    }
    Ok(())
}
