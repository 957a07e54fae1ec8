ghost use Rattle.std.specs.Prelude.{◌≡◌, ◌++◌, codes, IfOk, OnOk};
ghost use Rattle.std.specs.List.{flat_map};
ghost use Rattle.shell_syntax.specs.PrintedParts.{run_text};
ghost use Rattle.shell_syntax.specs.declared.level.Level.TheVariants.{PipeSequence};
ghost use Rattle.shell_syntax.specs.Printed.{printed, placed, part_text, word_text, assign_text, arm_text};
ghost use Rattle.shell_syntax.specs.Printed.{condition_text, further_text, members_text, further_members_text};
ghost use Rattle.shell_syntax.specs.Printed.{conditions_text, patterns_text, redirects_text, spaced, redirect_text};
ghost use Rattle.shell_syntax.specs.Printed.{redirected_text, loop_word, if_head, else_text, for_head, in_words};
ghost use Rattle.shell_syntax.specs.Printed.{loop_head, do_text, case_head, arms_text, arm_head, arm_body, sub_text};
ghost use Rattle.shell_syntax.specs.Printed.{define_text, script_text};

use crate::level::Level;
use crate::printed_parts::{put_double_quote, put_param, put_quoted};
use crate::redirect::Redirect;
use crate::script::Script;
use crate::syntax::{Assign, CaseArm, Command, IfArm, Link, Part, Word};
use script_names::{Bytes, Memory};
use std::alloc::Global;

/// The text of a script, by which it is meant to be read again as it is, but for byte offsets. That is proved of
/// scripts that some text spells in which no token is too deep (shell_printing, `printed_scripts_read_back`).
pub fn print_script(alloc: Global, script: &Script) -> Result<Bytes, Memory>
    ensures { IfOk result (λ text. text ≡ script_text script.now) }
{
    let mut text = Bytes::new(alloc);
    if script.strict {
        text.extend(b"#!/bin/sh -e\n")?;
        put_command(&mut text, &script.body)?;
        return Ok(text);
    }
    text.extend(b"#!/bin/sh\n")?;
    put_command(&mut text, &script.body)?;
    Ok(text)
}

// The name of the grammar that a command's own text is.
#[tactic(auto, using(crate::proofs::Layers::levels))]
fn level(command: &Command) -> Level
    ensures { result ≡ (printed command.now).level }
{
    match command {
        Command::Simple { .. } => Level::Simple,
        Command::Redirected { .. } => Level::Command,
        Command::Pipe { .. } => Level::PipeSequence,
        Command::Not { .. } => Level::Pipeline,
        Command::Chain { .. } => Level::AndOr,
        Command::Seq(_) => Level::List,
        Command::If { .. } => Level::Compound,
        Command::For { .. } => Level::Compound,
        Command::While { .. } => Level::Compound,
        Command::Case { .. } => Level::Compound,
        Command::Sub { .. } => Level::Compound,
        Command::Define { .. } => Level::Command,
    }
}

fn put_redirects(text: &mut Bytes, redirects: &[Redirect]) -> Result<(), Memory>
    ensures { OnOk result (text.new ≡ text.old ++ redirects_text redirects.now) }
{
    for redirect in redirects {
        put_redirect(text, *redirect)?;
    }
    Ok(())
}

fn put_redirect(text: &mut Bytes, redirect: Redirect) -> Result<(), Memory>
    ensures { OnOk result (text.new ≡ text.old ++ redirect_text redirect) }
{
    match redirect {
        Redirect::OutNull => text.extend(b" >/dev/null"),
        Redirect::ErrNull => text.extend(b" 2>/dev/null"),
        Redirect::InNull => text.extend(b" </dev/null"),
        Redirect::OutToErr => text.extend(b" >&2"),
        Redirect::ErrToOut => text.extend(b" 2>&1"),
    }
}

// Adds a command's own text.
#[cycle(printing)]
#[tactic(auto, using(crate::proofs::Layers::commands))]
fn put_command(text: &mut Bytes, command: &Command) -> Result<(), Memory>
    ensures { OnOk result (text.new ≡ text.old ++ (printed command.now).text) }
{
    match command {
        Command::Simple { assigns, words, .. } => {
            put_assigns(text, assigns.as_slice())?;
            put_words(text, words.as_slice())
        }
        Command::Redirected {
            body,
            redirects,
            ..
        } => put_redirected(text, body.get(), redirects.as_slice()),
        Command::Pipe { parts, .. } => {
            put_members(text, b" |", Level::Command, parts.as_slice())
        }
        Command::Not { body, .. } => put_not(text, body.get()),
        Command::Chain { first, rest } => {
            put_placed(text, Level::Pipeline, first.get())?;
            put_links(text, rest.as_slice())
        }
        Command::Seq(parts) => put_members(text, b"\n", Level::AndOr, parts.as_slice()),
        Command::If {
            arms,
            otherwise,
            ..
        } => match otherwise {
            None => put_if(text, arms.as_slice()),
            Some(body) => {
                put_if_head(text, arms.as_slice())?;
                put_else(text, body.get())
            }
        },
        Command::For {
            name,
            words,
            body,
            ..
        } => match words {
            None => {
                put_for(text, name.as_slice())?;
                put_do(text, body.get())
            }
            Some(words) => {
                put_for(text, name.as_slice())?;
                put_in(text, words.as_slice())?;
                put_do(text, body.get())
            }
        },
        Command::While {
            until,
            cond,
            body,
            ..
        } => {
            put_loop_head(text, *until, cond.get())?;
            put_do(text, body.get())
        }
        Command::Case { subject, arms, .. } => {
            put_case_head(text, subject)?;
            put_arms(text, arms.as_slice())
        }
        Command::Sub { body, .. } => put_sub(text, body.get()),
        Command::Define { name, body, .. } => put_define(text, name.as_slice(), body.get()),
    }
}

#[cycle(printing)]
fn put_not(text: &mut Bytes, body: &Command) -> Result<(), Memory>
    ensures { OnOk result (text.new ≡ text.old ++ (codes " !" ++ placed PipeSequence (printed body.now))) }
{
    text.extend(b" !")?;
    put_placed(text, Level::PipeSequence, body)
}

// Adds a command, in braces where it may not stand without.
#[cycle(printing)]
#[tactic(auto, unfolding(crate::specs::Printed::braced))]
fn put_placed(text: &mut Bytes, place: Level, command: &Command) -> Result<(), Memory>
    ensures { OnOk result (text.new ≡ text.old ++ placed place (printed command.now)) }
{
    if level(command).fits(place) {
        return put_command(text, command);
    }
    text.extend(b" {")?;
    put_command(text, command)?;
    text.extend(b"\n }")
}

#[cycle(printing)]
#[tactic(auto, unfolding(crate::specs::Printed::redirected_text))]
fn put_redirected(text: &mut Bytes, body: &Command, redirects: &[Redirect]) -> Result<(), Memory>
    ensures { OnOk result (text.new ≡ text.old ++ redirected_text (printed body.now) (redirects_text redirects.now)) }
{
    if level(body).is_simple() {
        put_redirects(text, redirects)?;
        return put_command(text, body);
    }
    put_placed(text, Level::Compound, body)?;
    put_redirects(text, redirects)
}

// Adds commands with a separator between each two.
#[cycle(printing)]
fn put_members(
    text: &mut Bytes,
    separator: &[u8],
    place: Level,
    commands: &[Command],
) -> Result<(), Memory>
    ensures { OnOk result (text.new ≡ text.old ++ members_text separator.now place commands.now) }
{
    match commands {
        [] => Ok(()),
        [first, rest @ ..] => {
            put_placed(text, place, first)?;
            put_further(text, separator, place, rest)
        }
    }
}

// Adds commands with a separator before each.
#[cycle(printing)]
fn put_further(
    text: &mut Bytes,
    separator: &[u8],
    place: Level,
    commands: &[Command],
) -> Result<(), Memory>
    ensures { OnOk result (text.new ≡ text.old ++ further_members_text separator.now place commands.now) }
{
    for command in commands {
        text.extend(separator)?;
        put_placed(text, place, command)?;
    }
    Ok(())
}

#[cycle(printing)]
fn put_links(text: &mut Bytes, links: &[Link]) -> Result<(), Memory>
    ensures { OnOk result (text.new ≡ text.old ++ flat_map further_text links.now) }
{
    for link in links {
        put_link(text, link)?;
    }
    Ok(())
}

#[cycle(printing)]
#[tactic(auto, using(crate::proofs::Layers::text_further), unfolding(crate::specs::Printed::link_text))]
fn put_link(text: &mut Bytes, link: &Link) -> Result<(), Memory>
    ensures { OnOk result (text.new ≡ text.old ++ further_text link.now) }
{
    if link.and {
        text.extend(b" &&")?;
        return put_placed(text, Level::Pipeline, &link.command);
    }
    text.extend(b" ||")?;
    put_placed(text, Level::Pipeline, &link.command)
}

// Adds `if` without `else` (XCU 2.9.4.4 The if Conditional Construct).
#[cycle(printing)]
fn put_if(text: &mut Bytes, arms: &[IfArm]) -> Result<(), Memory>
    ensures { OnOk result (text.new ≡ text.old ++ (if_head (conditions_text arms.now) ++ codes "\n fi")) }
{
    put_if_head(text, arms)?;
    text.extend(b"\n fi")
}

// Adds the conditions of `if` and their bodies.
#[cycle(printing)]
#[tactic(auto, unfolding(crate::specs::Printed::if_head))]
fn put_if_head(text: &mut Bytes, arms: &[IfArm]) -> Result<(), Memory>
    ensures { OnOk result (text.new ≡ text.old ++ if_head (conditions_text arms.now)) }
{
    text.extend(b" if")?;
    put_conditions(text, arms)
}

// Adds the body of `else`, and the end.
#[cycle(printing)]
#[tactic(auto, unfolding(crate::specs::Printed::else_text))]
fn put_else(text: &mut Bytes, body: &Command) -> Result<(), Memory>
    ensures { OnOk result (text.new ≡ text.old ++ else_text (printed body.now).text) }
{
    text.extend(b"\n else")?;
    put_command(text, body)?;
    text.extend(b"\n fi")
}

#[cycle(printing)]
fn put_conditions(text: &mut Bytes, arms: &[IfArm]) -> Result<(), Memory>
    ensures { OnOk result (text.new ≡ text.old ++ conditions_text arms.now) }
{
    match arms {
        [] => Ok(()),
        [first, rest @ ..] => {
            put_condition(text, first)?;
            put_further_conditions(text, rest)
        }
    }
}

#[cycle(printing)]
fn put_further_conditions(text: &mut Bytes, arms: &[IfArm]) -> Result<(), Memory>
    ensures { OnOk result (text.new ≡ text.old ++ flat_map (λ arm. codes "\n elif" ++ condition_text arm) arms.now) }
{
    for arm in arms {
        put_elif(text, arm)?;
    }
    Ok(())
}

#[cycle(printing)]
fn put_elif(text: &mut Bytes, arm: &IfArm) -> Result<(), Memory>
    ensures { OnOk result (text.new ≡ text.old ++ (codes "\n elif" ++ condition_text arm.now)) }
{
    text.extend(b"\n elif")?;
    put_condition(text, arm)
}

#[cycle(printing)]
#[tactic(auto, using(crate::proofs::Layers::text_condition), unfolding(crate::specs::Printed::if_arm_text))]
fn put_condition(text: &mut Bytes, arm: &IfArm) -> Result<(), Memory>
    ensures { OnOk result (text.new ≡ text.old ++ condition_text arm.now) }
{
    put_command(text, &arm.cond)?;
    text.extend(b"\n then")?;
    put_command(text, &arm.body)
}

// Adds the name of a `for` (XCU 2.9.4.2 The for Loop).
#[tactic(auto, unfolding(crate::specs::Printed::for_head))]
fn put_for(text: &mut Bytes, name: &[u8]) -> Result<(), Memory>
    ensures { OnOk result (text.new ≡ text.old ++ for_head name.now) }
{
    text.extend(b" for ")?;
    text.extend(name)
}

// Adds its words.
#[cycle(printing)]
#[tactic(auto, unfolding(crate::specs::Printed::in_words))]
fn put_in(text: &mut Bytes, words: &[Word]) -> Result<(), Memory>
    ensures { OnOk result (text.new ≡ text.old ++ in_words (flat_map (λ word. spaced (word_text word)) words.now)) }
{
    text.extend(b" in")?;
    put_words(text, words)
}

// Adds the condition of a `while` or `until`.
#[cycle(printing)]
#[tactic(auto, unfolding(crate::specs::Printed::loop_head))]
fn put_loop_head(text: &mut Bytes, until: bool, cond: &Command) -> Result<(), Memory>
    ensures { OnOk result (text.new ≡ text.old ++ loop_head until (printed cond.now).text) }
{
    text.extend(loop_word(until))?;
    put_command(text, cond)
}

// Adds the body of a loop.
#[cycle(printing)]
#[tactic(auto, unfolding(crate::specs::Printed::do_text))]
fn put_do(text: &mut Bytes, body: &Command) -> Result<(), Memory>
    ensures { OnOk result (text.new ≡ text.old ++ do_text (printed body.now).text) }
{
    text.extend(b"\n do")?;
    put_command(text, body)?;
    text.extend(b"\n done")
}

// Adds the word of a `case` (XCU 2.9.4.3 Case Conditional Construct).
#[cycle(printing)]
#[tactic(auto, unfolding(crate::specs::Printed::case_head))]
fn put_case_head(text: &mut Bytes, subject: &Word) -> Result<(), Memory>
    ensures { OnOk result (text.new ≡ text.old ++ case_head (word_text subject.now)) }
{
    text.extend(b" case ")?;
    put_word(text, subject)
}

// Adds its arms, and the end.
#[cycle(printing)]
#[tactic(auto, unfolding(crate::specs::Printed::arms_text))]
fn put_arms(text: &mut Bytes, arms: &[CaseArm]) -> Result<(), Memory>
    ensures { OnOk result (text.new ≡ text.old ++ arms_text (flat_map arm_text arms.now)) }
{
    text.extend(b" in")?;
    put_case_arms(text, arms)?;
    text.extend(b"\n esac")
}

#[cycle(printing)]
fn put_case_arms(text: &mut Bytes, arms: &[CaseArm]) -> Result<(), Memory>
    ensures { OnOk result (text.new ≡ text.old ++ flat_map arm_text arms.now) }
{
    for arm in arms {
        put_case_arm(text, arm)?;
    }
    Ok(())
}

#[cycle(printing)]
fn put_case_arm(text: &mut Bytes, arm: &CaseArm) -> Result<(), Memory>
    ensures { OnOk result (text.new ≡ text.old ++ arm_text arm.now) }
{
    put_arm_head(text, arm.patterns.as_slice())?;
    put_arm_body(text, &arm.body)
}

#[cycle(printing)]
#[tactic(auto, unfolding(crate::specs::Printed::arm_head))]
fn put_arm_head(text: &mut Bytes, patterns: &[Word]) -> Result<(), Memory>
    ensures { OnOk result (text.new ≡ text.old ++ arm_head (patterns_text patterns.now)) }
{
    text.extend(b"\n (")?;
    put_patterns(text, patterns)
}

#[cycle(printing)]
#[tactic(auto, unfolding(crate::specs::Printed::arm_body))]
fn put_arm_body(text: &mut Bytes, body: &Command) -> Result<(), Memory>
    ensures { OnOk result (text.new ≡ text.old ++ arm_body (printed body.now).text) }
{
    text.extend(b" )")?;
    put_command(text, body)?;
    text.extend(b" ;;")
}

#[cycle(printing)]
fn put_patterns(text: &mut Bytes, words: &[Word]) -> Result<(), Memory>
    ensures { OnOk result (text.new ≡ text.old ++ patterns_text words.now) }
{
    match words {
        [] => Ok(()),
        [first, rest @ ..] => {
            put_spaced(text, first)?;
            put_further_patterns(text, rest)
        }
    }
}

#[cycle(printing)]
fn put_further_patterns(text: &mut Bytes, words: &[Word]) -> Result<(), Memory>
    ensures { OnOk result (text.new ≡ text.old ++ flat_map (λ word. codes " |" ++ spaced (word_text word)) words.now) }
{
    for word in words {
        put_further_pattern(text, word)?;
    }
    Ok(())
}

#[cycle(printing)]
fn put_further_pattern(text: &mut Bytes, word: &Word) -> Result<(), Memory>
    ensures { OnOk result (text.new ≡ text.old ++ (codes " |" ++ spaced (word_text word.now))) }
{
    text.extend(b" |")?;
    put_spaced(text, word)
}

#[cycle(printing)]
#[tactic(auto, unfolding(crate::specs::Printed::sub_text))]
fn put_sub(text: &mut Bytes, body: &Command) -> Result<(), Memory>
    ensures { OnOk result (text.new ≡ text.old ++ sub_text (printed body.now).text) }
{
    text.extend(b" (")?;
    put_command(text, body)?;
    text.extend(b" )")
}

#[cycle(printing)]
#[tactic(auto, unfolding(crate::specs::Printed::define_text))]
fn put_define(text: &mut Bytes, name: &[u8], body: &Command) -> Result<(), Memory>
    ensures { OnOk result (text.new ≡ text.old ++ define_text name.now (printed body.now).text) }
{
    text.extend(b" ")?;
    text.extend(name)?;
    text.extend(b" ( ) {")?;
    put_command(text, body)?;
    text.extend(b"\n }")
}

#[cycle(printing)]
fn put_words(text: &mut Bytes, words: &[Word]) -> Result<(), Memory>
    ensures { OnOk result (text.new ≡ text.old ++ flat_map (λ word. spaced (word_text word)) words.now) }
{
    for word in words {
        put_spaced(text, word)?;
    }
    Ok(())
}

// Adds a word behind a blank.
#[cycle(printing)]
fn put_spaced(text: &mut Bytes, word: &Word) -> Result<(), Memory>
    ensures { OnOk result (text.new ≡ text.old ++ spaced (word_text word.now)) }
{
    text.extend(b" ")?;
    put_word(text, word)
}

#[cycle(printing)]
fn put_assigns(text: &mut Bytes, assigns: &[Assign]) -> Result<(), Memory>
    ensures { OnOk result (text.new ≡ text.old ++ flat_map (λ assign. spaced (assign_text assign)) assigns.now) }
{
    for assign in assigns {
        text.extend(b" ")?;
        put_assign(text, assign)?;
    }
    Ok(())
}

#[cycle(printing)]
#[tactic(auto, using(crate::proofs::Layers::text_assign), unfolding(crate::specs::Printed::assign_text_of))]
fn put_assign(text: &mut Bytes, assign: &Assign) -> Result<(), Memory>
    ensures { OnOk result (text.new ≡ text.old ++ assign_text assign.now) }
{
    text.extend(assign.name.as_slice())?;
    text.extend(b"=")?;
    put_word(text, &assign.value)
}

#[cycle(printing)]
#[tactic(auto, using(crate::proofs::Layers::text_word))]
fn put_word(text: &mut Bytes, word: &Word) -> Result<(), Memory>
    ensures { OnOk result (text.new ≡ text.old ++ word_text word.now) }
{
    put_parts(text, word.parts.as_slice())
}

#[cycle(printing)]
fn put_parts(text: &mut Bytes, parts: &[Part]) -> Result<(), Memory>
    ensures { OnOk result (text.new ≡ text.old ++ flat_map part_text parts.now) }
{
    for part in parts {
        put_part(text, part)?;
    }
    Ok(())
}

#[cycle(printing)]
#[tactic(auto, using(crate::proofs::Layers::parts))]
fn put_part(text: &mut Bytes, part: &Part) -> Result<(), Memory>
    ensures { OnOk result (text.new ≡ text.old ++ part_text part.now) }
{
    match part {
        Part::Plain(bytes) => text.extend(bytes.as_slice()),
        Part::Quoted(bytes) => put_quoted(text, bytes.as_slice()),
        Part::Param {
            key,
            default,
            quoted,
        } => put_param(text, key, default, *quoted),
        Part::All => text.extend(b"\"$@\""),
        Part::Run { body, quoted, .. } => put_run(text, body.get(), *quoted),
    }
}

// Adds a command substitution (XCU 2.6.3 Command Substitution).
#[cycle(printing)]
#[tactic(auto, unfolding(crate::specs::PrintedParts::run_text))]
fn put_run(text: &mut Bytes, body: &Command, quoted: bool) -> Result<(), Memory>
    ensures { OnOk result (text.new ≡ text.old ++ run_text (printed body.now).text quoted) }
{
    put_double_quote(text, quoted)?;
    text.extend(b"$(")?;
    put_command(text, body)?;
    text.extend(b" )")?;
    put_double_quote(text, quoted)
}

// The reserved word of a loop.
fn loop_word(until: bool) -> &'static [u8]
    ensures { result.now ≡ loop_word until }
{
    if until { b" until" } else { b" while" }
}
