//! Lists of what a command is made of, and one more behind them. The tree is handed over behind a pointer, whose drop is
//! one call.

ghost use Rattle.std.specs.Prelude.{◌≡◌, [], ◌∷◌, ◌++◌, IfOk};
ghost use Rattle.shell_syntax.specs.Members.{link, if_arm, case_arm};

use crate::syntax::{CaseArm, Command, IfArm, Link, Word};
use script_names::{Boxed, List, Memory};

/// A command behind `&&` or `||`.
pub(crate) fn link_of(and: bool, tree: Boxed<Command>) -> Link
    ensures { result ≡ link and tree }
{
    let command = tree.into_inner();
    Link { and, command }
}

/// A condition and its body.
pub(crate) fn if_arm_of(cond: Boxed<Command>, body: Boxed<Command>) -> IfArm
    ensures { result ≡ if_arm cond body }
{
    let cond = cond.into_inner();
    let body = body.into_inner();
    IfArm { cond, body }
}

/// Patterns and their body.
pub(crate) fn case_arm_of(patterns: List<Word>, body: Boxed<Command>) -> CaseArm
    ensures { result ≡ case_arm patterns body }
{
    let body = body.into_inner();
    CaseArm { patterns, body }
}

/// Commands, and one more.
pub fn with_command(trees: List<Command>, tree: Boxed<Command>) -> Result<List<Command>, Memory>
    ensures { IfOk result (λ all. all ≡ trees ++ tree ∷ []) }
{
    let mut all = trees;
    all.add(tree.into_inner())?;
    Ok(all)
}

/// Commands behind `&&` and `||`, and one more.
pub fn with_link(links: List<Link>, and: bool, tree: Boxed<Command>) -> Result<List<Link>, Memory>
    ensures { IfOk result (λ all. all ≡ links ++ link and tree ∷ []) }
{
    let mut all = links;
    all.add(link_of(and, tree))?;
    Ok(all)
}

/// Arms of an `if`, and one more.
pub fn with_if_arm(
    arms: List<IfArm>,
    cond: Boxed<Command>,
    body: Boxed<Command>,
) -> Result<List<IfArm>, Memory>
    ensures { IfOk result (λ all. all ≡ arms ++ if_arm cond body ∷ []) }
{
    let mut all = arms;
    all.add(if_arm_of(cond, body))?;
    Ok(all)
}

/// Arms of a `case`, and one more.
pub fn with_case_arm(
    arms: List<CaseArm>,
    patterns: List<Word>,
    body: Boxed<Command>,
) -> Result<List<CaseArm>, Memory>
    ensures { IfOk result (λ all. all ≡ arms ++ case_arm patterns body ∷ []) }
{
    let mut all = arms;
    all.add(case_arm_of(patterns, body))?;
    Ok(all)
}
