ghost use Rattle.std.specs.Prelude.{◌≡◌, [], ◌∷◌, IfOk};
ghost use Rattle.shell_to_colis.specs.Laws.{DoesTheSame};
ghost use Rattle.shell_to_colis.specs.Members.{defined_by, members_of};
ghost use Rattle.shell_to_colis.specs.Translated.{def_to, defs_behind, defs_to, body_statements};
ghost use Rattle.shell_to_colis.specs.Translated.{program_of, of_option};

use crate::defs::Defs;
use crate::statements::{command, sequence};
use colis_syntax::{Def, Program, Stmt};
use script_names::{Copied, List, Memory};
use shell_forms::Accepted;
use shell_syntax::Command;
use std::alloc::Global;

// The function that a member of the script's list defines, behind those.
fn define(alloc: Global, member: &Command, defs: &Defs) -> Result<Option<Def>, Memory>
    ensures { IfOk result (λ def. of_option def ≡ def_to (defined_by member.now) defs.now) }
{
    match member {
        Command::Define { name, body, .. } => {
            if defs.has(name.as_slice()) {
                return Ok(None);
            }
            let body = command(alloc, body.get(), defs)?;
            let name = name.copy(alloc)?;
            Ok(Some(Def { name, body }))
        }
        Command::Simple { .. }
        | Command::Redirected { .. }
        | Command::Pipe { .. }
        | Command::Not { .. } => Ok(None),
        Command::Chain { .. } | Command::Seq(_) | Command::If { .. } | Command::For { .. } => Ok(
            None,
        ),
        Command::While { .. } | Command::Case { .. } | Command::Sub { .. } => Ok(None),
    }
}

// The functions, behind them the one that a member of the script's list defines.
fn with_member(alloc: Global, member: &Command, defs: Defs) -> Result<Defs, Memory>
    ensures { IfOk result (λ more. more ≡ defs_behind member.now defs) }
{
    match define(alloc, member, &defs)? {
        None => Ok(defs),
        Some(def) => defs.with(def),
    }
}

// The functions and the statements of a script's members.
fn whole(alloc: Global, members: &[Command]) -> Result<(List<Def>, List<Stmt>), Memory>
    ensures { IfOk result (λ parts. parts ≡ (defs_to members.now [], body_statements members.now [])) }
{
    let mut defs = Defs::new(alloc);
    let mut stmts = List::new(alloc);
    for member in members {
        let stmt = command(alloc, member, &defs)?;
        stmts.add(stmt)?;
        defs = with_member(alloc, member, defs)?;
    }
    Ok((defs.into_list(), stmts))
}

// The functions and the statements of a script's body.
fn parts(alloc: Global, body: &Command) -> Result<(List<Def>, List<Stmt>), Memory>
    ensures { let members = members_of body.now in
        IfOk result (λ parts. parts ≡ (defs_to members [], body_statements members [])) }
{
    match body {
        Command::Seq(members) => whole(alloc, members.as_slice()),
        Command::Simple { .. }
        | Command::Redirected { .. }
        | Command::Pipe { .. }
        | Command::Not { .. } => one(alloc, body),
        Command::Chain { .. } | Command::If { .. } | Command::For { .. } => one(alloc, body),
        Command::While { .. }
        | Command::Case { .. }
        | Command::Sub { .. }
        | Command::Define { .. } => one(alloc, body),
    }
}

// The definitions and statements of a script of one member.
fn one(alloc: Global, member: &Command) -> Result<(List<Def>, List<Stmt>), Memory>
    ensures { let members = member.now ∷ [] in
        IfOk result (λ parts. parts ≡ (defs_to members [], body_statements members [])) }
{
    let defs = Defs::new(alloc);
    let mut stmts = List::new(alloc);
    let stmt = command(alloc, member, &defs)?;
    stmts.add(stmt)?;
    let defs = with_member(alloc, member, defs)?;
    Ok((defs.into_list(), stmts))
}

/// The CoLiS program of an accepted script. It does what the script does, and begins with the strict flag exactly
/// where the script does.
pub fn translate(alloc: Global, script: &Accepted) -> Result<Program, Memory>
    ensures program { IfOk result (λ program. program ≡ program_of script.now) }
    ensures flag { IfOk result (λ program. program.strict ≡ script.now.strict) }
    ensures same { IfOk result (λ program. DoesTheSame script.now program) }
{
    let script = script.script();
    let (defs, stmts) = parts(alloc, &script.body)?;
    let body = sequence(stmts);
    Ok(Program::from_well_formed(script.strict, defs, body))
}
