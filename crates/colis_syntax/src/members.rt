//! Lists of what a statement is made of, and one more behind them. The tree is handed over behind a pointer, whose drop
//! is one call.

ghost use Rattle.std.specs.Prelude.{◌≡◌, [], ◌∷◌, ◌++◌, IfOk};
ghost use Rattle.colis_syntax.specs.Members.{chain_part, stmt_arm, pat_arm};

use crate::syntax::{ChainPart, PatArm, Stmt, StmtArm, StrPiece};
use script_names::{Boxed, List, Memory};

/// A statement behind `&&` or `||`.
pub(crate) fn chain_part_of(and: bool, tree: Boxed<Stmt>) -> ChainPart
    ensures { result ≡ chain_part and tree }
{
    let stmt = tree.into_inner();
    ChainPart { and, stmt }
}

/// A condition and its body.
pub(crate) fn stmt_arm_of(cond: Boxed<Stmt>, body: Boxed<Stmt>) -> StmtArm
    ensures { result ≡ stmt_arm cond body }
{
    let cond = cond.into_inner();
    let body = body.into_inner();
    StmtArm { cond, body }
}

/// Patterns and their body.
pub(crate) fn pat_arm_of(patterns: List<List<StrPiece>>, body: Boxed<Stmt>) -> PatArm
    ensures { result ≡ pat_arm patterns body }
{
    let body = body.into_inner();
    PatArm { patterns, body }
}

/// Statements, and one more.
pub(crate) fn with_stmt(trees: List<Stmt>, tree: Boxed<Stmt>) -> Result<List<Stmt>, Memory>
    ensures { IfOk result (λ all. all ≡ trees ++ tree ∷ []) }
{
    let mut all = trees;
    all.add(tree.into_inner())?;
    Ok(all)
}

/// Statements behind `&&` and `||`, and one more.
pub(crate) fn with_chain_part(
    parts: List<ChainPart>,
    and: bool,
    tree: Boxed<Stmt>,
) -> Result<List<ChainPart>, Memory>
    ensures { IfOk result (λ all. all ≡ parts ++ chain_part and tree ∷ []) }
{
    let mut all = parts;
    all.add(chain_part_of(and, tree))?;
    Ok(all)
}

/// Arms of an `if`, and one more.
pub(crate) fn with_stmt_arm(
    arms: List<StmtArm>,
    cond: Boxed<Stmt>,
    body: Boxed<Stmt>,
) -> Result<List<StmtArm>, Memory>
    ensures { IfOk result (λ all. all ≡ arms ++ stmt_arm cond body ∷ []) }
{
    let mut all = arms;
    all.add(stmt_arm_of(cond, body))?;
    Ok(all)
}

/// Arms of a `case`, and one more.
pub(crate) fn with_pat_arm(
    arms: List<PatArm>,
    patterns: List<List<StrPiece>>,
    body: Boxed<Stmt>,
) -> Result<List<PatArm>, Memory>
    ensures { IfOk result (λ all. all ≡ arms ++ pat_arm patterns body ∷ []) }
{
    let mut all = arms;
    all.add(pat_arm_of(patterns, body))?;
    Ok(all)
}
