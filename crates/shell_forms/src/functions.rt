ghost use Rattle.std.specs.Prelude.{◌≡◌, ℕ, List, [], ◌∷◌, map, OnOk, IfOk};
ghost use Rattle.shell_forms.specs.Functions.{definitions, part_definitions, assign_definitions};
ghost use Rattle.shell_forms.specs.Functions.{case_arm_definitions, if_arm_definitions, link_definitions};
ghost use Rattle.shell_forms.specs.Functions.{word_definitions, of_all, first_of};
ghost use Rattle.shell_forms.specs.Known.{first_in, is_at_most, Adds};

use script_names::Memory;
use shell_syntax::{Assign, CaseArm, Command, IfArm, Link, Part, Word};
use std::alloc::Global;
use std::collections::BTreeMap;

/// The functions that a script defines, each with the byte offset of its first definition.
#[derive(Drop)]
pub(crate) struct Functions {
    alloc: Global,
    first: BTreeMap<Vec<u8>, u32>,
}

impl Functions {
    /// The functions that a command defines, wherever the definitions stand in it.
    pub(crate) fn of(alloc: Global, command: &Command) -> Result<Functions, Memory>
        ensures { let ds = definitions command.now in
            IfOk result (λ functions. (name : List ℕ) → first_in functions name ≡ first_of ds name) }
    {
        let mut functions = Functions {
            alloc,
            first: BTreeMap::new(alloc),
        };
        add_command(&mut functions, command)?;
        Ok(functions)
    }

    /// The offset of the first definition of a name.
    pub(crate) fn first(&self, name: &[u8]) -> Option<u32>
        ensures { result ≡ first_in self.now name.now }
    {
        match self.first.get(name) {
            Some(at) => Some(*at),
            None => None,
        }
    }

    // Whether a function of this name is defined at the offset or before it.
    fn has(&self, name: &[u8], at: u32) -> bool
        ensures { result ≡ is_at_most (first_in self.now name.now) at }
    {
        match self.first(name) {
            None => false,
            Some(first) => first <= at,
        }
    }

    // One more definition.
    fn add(&mut self, name: &[u8], at: u32) -> Result<(), Memory>
        ensures { OnOk result (Adds self.old self.new ((name.now, at) ∷ [])) }
    {
        if self.has(name, at) {
            return Ok(());
        }
        let key = Vec::from_slice(self.alloc, name)?;
        self.first.insert(key, at)?;
        Ok(())
    }
}

// Adds the definitions that stand in a command, and likewise in each part of one.
#[cycle(collecting)]
fn add_command(functions: &mut Functions, command: &Command) -> Result<(), Memory>
    ensures { OnOk result (Adds functions.old functions.new (definitions command.now)) }
{
    match command {
        Command::Simple { assigns, words, .. } => {
            add_assigns(functions, assigns.as_slice())?;
            add_words(functions, words.as_slice())
        }
        Command::Redirected { body, .. } => add_command(functions, body.get()),
        Command::Pipe { parts, .. } => add_commands(functions, parts.as_slice()),
        Command::Not { body, .. } => add_command(functions, body.get()),
        Command::Chain { first, rest } => {
            add_command(functions, first.get())?;
            add_links(functions, rest.as_slice())
        }
        Command::Seq(parts) => add_commands(functions, parts.as_slice()),
        Command::If {
            arms,
            otherwise,
            ..
        } => {
            add_arms(functions, arms.as_slice())?;
            match otherwise {
                None => Ok(()),
                Some(body) => add_command(functions, body.get()),
            }
        }
        Command::For { words, body, .. } => {
            match words {
                None => add_command(functions, body.get()),
                Some(words) => {
                    add_words(functions, words.as_slice())?;
                    add_command(functions, body.get())
                }
            }
        }
        Command::While { cond, body, .. } => {
            add_command(functions, cond.get())?;
            add_command(functions, body.get())
        }
        Command::Case { subject, arms, .. } => {
            add_word(functions, subject)?;
            add_case_arms(functions, arms.as_slice())
        }
        Command::Sub { body, .. } => add_command(functions, body.get()),
        Command::Define { at, name, body } => {
            functions.add(name.as_slice(), *at)?;
            add_command(functions, body.get())
        }
    }
}

#[cycle(collecting)]
fn add_part(functions: &mut Functions, part: &Part) -> Result<(), Memory>
    ensures { OnOk result (Adds functions.old functions.new (part_definitions part.now)) }
{
    match part {
        Part::Run { body, .. } => add_command(functions, body.get()),
        Part::Plain(_) | Part::Quoted(_) | Part::Param { .. } | Part::All => Ok(()),
    }
}

#[cycle(collecting)]
fn add_word(functions: &mut Functions, word: &Word) -> Result<(), Memory>
    ensures { OnOk result (Adds functions.old functions.new (word_definitions word.now)) }
{
    for part in word.parts.as_slice() {
        add_part(functions, part)?;
    }
    Ok(())
}

#[cycle(collecting)]
fn add_words(functions: &mut Functions, words: &[Word]) -> Result<(), Memory>
    ensures { OnOk result (Adds functions.old functions.new (of_all (map word_definitions words.now))) }
{
    for word in words {
        add_word(functions, word)?;
    }
    Ok(())
}

#[cycle(collecting)]
fn add_assigns(functions: &mut Functions, assigns: &[Assign]) -> Result<(), Memory>
    ensures { OnOk result (Adds functions.old functions.new (of_all (map assign_definitions assigns.now))) }
{
    for assign in assigns {
        add_word(functions, &assign.value)?;
    }
    Ok(())
}

#[cycle(collecting)]
fn add_commands(functions: &mut Functions, commands: &[Command]) -> Result<(), Memory>
    ensures { OnOk result (Adds functions.old functions.new (of_all (map definitions commands.now))) }
{
    for command in commands {
        add_command(functions, command)?;
    }
    Ok(())
}

#[cycle(collecting)]
fn add_links(functions: &mut Functions, links: &[Link]) -> Result<(), Memory>
    ensures { OnOk result (Adds functions.old functions.new (of_all (map link_definitions links.now))) }
{
    for link in links {
        add_command(functions, &link.command)?;
    }
    Ok(())
}

#[cycle(collecting)]
fn add_arms(functions: &mut Functions, arms: &[IfArm]) -> Result<(), Memory>
    ensures { OnOk result (Adds functions.old functions.new (of_all (map if_arm_definitions arms.now))) }
{
    for arm in arms {
        add_command(functions, &arm.cond)?;
        add_command(functions, &arm.body)?;
    }
    Ok(())
}

#[cycle(collecting)]
fn add_case_arms(functions: &mut Functions, arms: &[CaseArm]) -> Result<(), Memory>
    ensures { OnOk result (Adds functions.old functions.new (of_all (map case_arm_definitions arms.now))) }
{
    for arm in arms {
        add_words(functions, arm.patterns.as_slice())?;
        add_command(functions, &arm.body)?;
    }
    Ok(())
}
