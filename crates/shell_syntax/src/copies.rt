ghost use Rattle.std.specs.Prelude.{◌≡◌, IfOk};
ghost use Rattle.shell_syntax.specs.declared.syntax.Command.TheVariants.{Simple, Redirected, Pipe, Not, Chain, Seq, If};
ghost use Rattle.shell_syntax.specs.declared.syntax.Command.TheVariants.{For};
ghost use Rattle.shell_syntax.specs.declared.syntax.Command.TheVariants.{While, Case, Sub, Define};

use crate::members::{
    case_arm_of, if_arm_of, link_of, with_case_arm, with_command, with_if_arm, with_link,
};
use crate::redirect::Redirect;
use crate::syntax::{Assign, CaseArm, Command, IfArm, Link, Part, Word};
use script_names::{Boxed as Box, Bytes, Copied, List, Memory};
use std::alloc::Global;

impl Copied for Command {
    fn copy(&self, alloc: Global) -> Result<Command, Memory> {
        let twin = copy_command(alloc, self)?;
        Ok(twin.into_inner())
    }
}

impl Copied for Word {
    fn copy(&self, alloc: Global) -> Result<Word, Memory> {
        copy_word(alloc, self)
    }
}

impl Copied for Part {
    fn copy(&self, alloc: Global) -> Result<Part, Memory> {
        copy_part(alloc, self)
    }
}

impl Copied for Assign {
    fn copy(&self, alloc: Global) -> Result<Assign, Memory> {
        let name = self.name.copy(alloc)?;
        let value = self.value.copy(alloc)?;
        Ok(Assign { name, value })
    }
}

impl Copied for Link {
    fn copy(&self, alloc: Global) -> Result<Link, Memory> {
        let command = copy_command(alloc, &self.command)?;
        Ok(link_of(self.and, command))
    }
}

impl Copied for IfArm {
    fn copy(&self, alloc: Global) -> Result<IfArm, Memory> {
        let cond = copy_command(alloc, &self.cond)?;
        let body = copy_command(alloc, &self.body)?;
        Ok(if_arm_of(cond, body))
    }
}

impl Copied for CaseArm {
    fn copy(&self, alloc: Global) -> Result<CaseArm, Memory> {
        let patterns = self.patterns.copy(alloc)?;
        let body = copy_command(alloc, &self.body)?;
        Ok(case_arm_of(patterns, body))
    }
}

#[cycle(copying)]
fn copy_command(alloc: Global, command: &Command) -> Result<Box<Command>, Memory>
    ensures { IfOk result (λ twin. twin ≡ command.now) }
{
    match command {
        Command::Simple { at, assigns, words } => copy_simple(alloc, *at, assigns, words),
        Command::Redirected {
            at,
            body,
            redirects,
        } => copy_redirected(alloc, *at, body, redirects),
        Command::Pipe { at, parts } => copy_pipe(alloc, *at, parts),
        Command::Not { at, body } => copy_not(alloc, *at, body),
        Command::Chain { first, rest } => copy_chain(alloc, first, rest),
        Command::Seq(parts) => copy_seq(alloc, parts),
        Command::If {
            at,
            arms,
            otherwise,
        } => copy_if(alloc, *at, arms, otherwise),
        Command::For {
            at,
            name,
            words,
            body,
        } => copy_for(alloc, *at, name, words, body),
        Command::While {
            at,
            until,
            cond,
            body,
        } => copy_while(alloc, *at, *until, cond, body),
        Command::Case { at, subject, arms } => copy_case(alloc, *at, subject, arms),
        Command::Sub { at, body } => copy_sub(alloc, *at, body),
        Command::Define { at, name, body } => copy_define(alloc, *at, name, body),
    }
}

#[cycle(copying)]
fn copy_simple(
    alloc: Global,
    at: u32,
    assigns: &List<Assign>,
    words: &List<Word>,
) -> Result<Box<Command>, Memory>
    ensures { IfOk result (λ twin. twin ≡ Simple at assigns.now words.now) }
{
    let assigns = copy_assigns(alloc, assigns.as_slice())?;
    let words = copy_words(alloc, words.as_slice())?;
    Box::new(alloc, Command::Simple { at, assigns, words })
}

#[cycle(copying)]
fn copy_redirected(
    alloc: Global,
    at: u32,
    body: &Box<Command>,
    redirects: &List<Redirect>,
) -> Result<Box<Command>, Memory>
    ensures { IfOk result (λ twin. twin ≡ Redirected at body.now redirects.now) }
{
    let body = copy_command(alloc, body.get())?;
    let redirects = redirects.copy(alloc)?;
    Box::new(
        alloc,
        Command::Redirected {
            at,
            body,
            redirects,
        },
    )
}

#[cycle(copying)]
fn copy_pipe(alloc: Global, at: u32, parts: &List<Command>) -> Result<Box<Command>, Memory>
    ensures { IfOk result (λ twin. twin ≡ Pipe at parts.now) }
{
    let parts = copy_commands(alloc, parts.as_slice())?;
    Box::new(alloc, Command::Pipe { at, parts })
}

#[cycle(copying)]
fn copy_seq(alloc: Global, parts: &List<Command>) -> Result<Box<Command>, Memory>
    ensures { IfOk result (λ twin. twin ≡ Seq parts.now) }
{
    let parts = copy_commands(alloc, parts.as_slice())?;
    Box::new(alloc, Command::Seq(parts))
}

#[cycle(copying)]
fn copy_not(alloc: Global, at: u32, body: &Box<Command>) -> Result<Box<Command>, Memory>
    ensures { IfOk result (λ twin. twin ≡ Not at body.now) }
{
    let body = copy_command(alloc, body.get())?;
    Box::new(alloc, Command::Not { at, body })
}

#[cycle(copying)]
fn copy_chain(
    alloc: Global,
    first: &Box<Command>,
    rest: &List<Link>,
) -> Result<Box<Command>, Memory>
    ensures { IfOk result (λ twin. twin ≡ Chain first.now rest.now) }
{
    let first = copy_command(alloc, first.get())?;
    let rest = copy_links(alloc, rest.as_slice())?;
    Box::new(alloc, Command::Chain { first, rest })
}

#[cycle(copying)]
fn copy_if(
    alloc: Global,
    at: u32,
    arms: &List<IfArm>,
    otherwise: &Option<Box<Command>>,
) -> Result<Box<Command>, Memory>
    ensures { IfOk result (λ twin. twin ≡ If at arms.now otherwise.now) }
{
    let arms = copy_arms(alloc, arms.as_slice())?;
    let otherwise = match otherwise {
        None => None,
        Some(last) => Some(copy_command(alloc, last.get())?),
    };
    Box::new(
        alloc,
        Command::If {
            at,
            arms,
            otherwise,
        },
    )
}

#[cycle(copying)]
fn copy_for(
    alloc: Global,
    at: u32,
    name: &Bytes,
    words: &Option<List<Word>>,
    body: &Box<Command>,
) -> Result<Box<Command>, Memory>
    ensures { IfOk result (λ twin. twin ≡ For at name.now words.now body.now) }
{
    let name = name.copy(alloc)?;
    let words = match words {
        None => None,
        Some(words) => Some(copy_words(alloc, words.as_slice())?),
    };
    let body = copy_command(alloc, body.get())?;
    Box::new(
        alloc,
        Command::For {
            at,
            name,
            words,
            body,
        },
    )
}

#[cycle(copying)]
fn copy_while(
    alloc: Global,
    at: u32,
    until: bool,
    cond: &Box<Command>,
    body: &Box<Command>,
) -> Result<Box<Command>, Memory>
    ensures { IfOk result (λ twin. twin ≡ While at until cond.now body.now) }
{
    let cond = copy_command(alloc, cond.get())?;
    let body = copy_command(alloc, body.get())?;
    Box::new(
        alloc,
        Command::While {
            at,
            until,
            cond,
            body,
        },
    )
}

#[cycle(copying)]
fn copy_case(
    alloc: Global,
    at: u32,
    subject: &Word,
    arms: &List<CaseArm>,
) -> Result<Box<Command>, Memory>
    ensures { IfOk result (λ twin. twin ≡ Case at subject.now arms.now) }
{
    let subject = copy_word(alloc, subject)?;
    let arms = copy_case_arms(alloc, arms.as_slice())?;
    Box::new(alloc, Command::Case { at, subject, arms })
}

#[cycle(copying)]
fn copy_sub(alloc: Global, at: u32, body: &Box<Command>) -> Result<Box<Command>, Memory>
    ensures { IfOk result (λ twin. twin ≡ Sub at body.now) }
{
    let body = copy_command(alloc, body.get())?;
    Box::new(alloc, Command::Sub { at, body })
}

#[cycle(copying)]
fn copy_define(
    alloc: Global,
    at: u32,
    name: &Bytes,
    body: &Box<Command>,
) -> Result<Box<Command>, Memory>
    ensures { IfOk result (λ twin. twin ≡ Define at name.now body.now) }
{
    let name = name.copy(alloc)?;
    let body = copy_command(alloc, body.get())?;
    Box::new(alloc, Command::Define { at, name, body })
}

#[cycle(copying)]
fn copy_part(alloc: Global, part: &Part) -> Result<Part, Memory>
    ensures { IfOk result (λ twin. twin ≡ part.now) }
{
    match part {
        Part::Plain(text) => Ok(Part::Plain(text.copy(alloc)?)),
        Part::Quoted(text) => Ok(Part::Quoted(text.copy(alloc)?)),
        Part::Param {
            key,
            default,
            quoted,
        } => {
            let key = key.copy(alloc)?;
            let default = default.copy(alloc)?;
            Ok(Part::Param {
                key,
                default,
                quoted: *quoted,
            })
        }
        Part::All => Ok(Part::All),
        Part::Run { at, body, quoted } => {
            let body = copy_command(alloc, body.get())?;
            Ok(Part::Run {
                at: *at,
                body,
                quoted: *quoted,
            })
        }
    }
}

#[cycle(copying)]
fn copy_word(alloc: Global, word: &Word) -> Result<Word, Memory>
    ensures { IfOk result (λ twin. twin ≡ word.now) }
{
    let mut parts = List::new(alloc);
    for part in word.parts.as_slice() {
        let twin = copy_part(alloc, part)?;
        parts.add(twin)?;
    }
    Ok(Word { at: word.at, parts })
}

#[cycle(copying)]
fn copy_words(alloc: Global, words: &[Word]) -> Result<List<Word>, Memory>
    ensures { IfOk result (λ twins. twins ≡ words.now) }
{
    let mut twins = List::new(alloc);
    for word in words {
        let twin = copy_word(alloc, word)?;
        twins.add(twin)?;
    }
    Ok(twins)
}

#[cycle(copying)]
fn copy_assigns(alloc: Global, assigns: &[Assign]) -> Result<List<Assign>, Memory>
    ensures { IfOk result (λ twins. twins ≡ assigns.now) }
{
    let mut twins = List::new(alloc);
    for assign in assigns {
        let name = assign.name.copy(alloc)?;
        let value = copy_word(alloc, &assign.value)?;
        twins.add(Assign { name, value })?;
    }
    Ok(twins)
}

#[cycle(copying)]
fn copy_commands(alloc: Global, commands: &[Command]) -> Result<List<Command>, Memory>
    ensures { IfOk result (λ twins. twins ≡ commands.now) }
{
    let mut twins = List::new(alloc);
    for command in commands {
        let twin = copy_command(alloc, command)?;
        twins = with_command(twins, twin)?;
    }
    Ok(twins)
}

#[cycle(copying)]
fn copy_links(alloc: Global, links: &[Link]) -> Result<List<Link>, Memory>
    ensures { IfOk result (λ twins. twins ≡ links.now) }
{
    let mut twins = List::new(alloc);
    for link in links {
        let command = copy_command(alloc, &link.command)?;
        twins = with_link(twins, link.and, command)?;
    }
    Ok(twins)
}

#[cycle(copying)]
fn copy_arms(alloc: Global, arms: &[IfArm]) -> Result<List<IfArm>, Memory>
    ensures { IfOk result (λ twins. twins ≡ arms.now) }
{
    let mut twins = List::new(alloc);
    for arm in arms {
        let cond = copy_command(alloc, &arm.cond)?;
        let body = copy_command(alloc, &arm.body)?;
        twins = with_if_arm(twins, cond, body)?;
    }
    Ok(twins)
}

#[cycle(copying)]
fn copy_case_arms(alloc: Global, arms: &[CaseArm]) -> Result<List<CaseArm>, Memory>
    ensures { IfOk result (λ twins. twins ≡ arms.now) }
{
    let mut twins = List::new(alloc);
    for arm in arms {
        let patterns = copy_words(alloc, arm.patterns.as_slice())?;
        let body = copy_command(alloc, &arm.body)?;
        twins = with_case_arm(twins, patterns, body)?;
    }
    Ok(twins)
}
