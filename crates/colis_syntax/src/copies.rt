ghost use Rattle.std.specs.Prelude.{◌≡◌, IfOk};
ghost use Rattle.colis_syntax.specs.declared.syntax.Stmt.TheVariants.{Set, Call, Fun, Seq, Chain, Not, If, For, While};
ghost use Rattle.colis_syntax.specs.declared.syntax.Stmt.TheVariants.{Case, Sub, Quiet, Err, Exit, Return, Export, Unset};

use crate::members::{
    chain_part_of, pat_arm_of, stmt_arm_of, with_chain_part, with_pat_arm, with_stmt, with_stmt_arm,
};
use crate::syntax::{ChainPart, Fields, PatArm, SetTo, Stmt, StmtArm, Str, StrPiece};
use script_names::{Boxed as Box, Bytes, Copied, List, Memory};
use std::alloc::Global;

impl Copied for Str {
    fn copy(&self, alloc: Global) -> Result<Str, Memory> {
        copy_str(alloc, self)
    }
}

impl Copied for StrPiece {
    fn copy(&self, alloc: Global) -> Result<StrPiece, Memory> {
        copy_piece(alloc, self)
    }
}

impl Copied for Fields {
    fn copy(&self, alloc: Global) -> Result<Fields, Memory> {
        copy_field(alloc, self)
    }
}

impl Copied for Stmt {
    fn copy(&self, alloc: Global) -> Result<Stmt, Memory> {
        let twin = copy_stmt(alloc, self)?;
        Ok(twin.into_inner())
    }
}

impl Copied for SetTo {
    fn copy(&self, alloc: Global) -> Result<SetTo, Memory> {
        let name = self.name.copy(alloc)?;
        let value = self.value.copy(alloc)?;
        Ok(SetTo { name, value })
    }
}

impl Copied for ChainPart {
    fn copy(&self, alloc: Global) -> Result<ChainPart, Memory> {
        let stmt = copy_stmt(alloc, &self.stmt)?;
        Ok(chain_part_of(self.and, stmt))
    }
}

impl Copied for StmtArm {
    fn copy(&self, alloc: Global) -> Result<StmtArm, Memory> {
        let cond = copy_stmt(alloc, &self.cond)?;
        let body = copy_stmt(alloc, &self.body)?;
        Ok(stmt_arm_of(cond, body))
    }
}

impl Copied for PatArm {
    fn copy(&self, alloc: Global) -> Result<PatArm, Memory> {
        let patterns = self.patterns.copy(alloc)?;
        let body = copy_stmt(alloc, &self.body)?;
        Ok(pat_arm_of(patterns, body))
    }
}

#[cycle(copying)]
fn copy_stmt(alloc: Global, stmt: &Stmt) -> Result<Box<Stmt>, Memory>
    ensures { IfOk result (λ twin. twin ≡ stmt.now) }
{
    match stmt {
        Stmt::Skip => Box::new(alloc, Stmt::Skip),
        Stmt::Set { at, sets } => copy_set(alloc, *at, sets),
        Stmt::Call { at, fields } => copy_call(alloc, *at, fields),
        Stmt::Fun { at, name, fields } => copy_fun(alloc, *at, name, fields),
        Stmt::Seq(parts) => copy_seq(alloc, parts),
        Stmt::Chain { first, rest } => copy_chain(alloc, first, rest),
        Stmt::Not(body) => copy_not(alloc, body),
        Stmt::If { arms, last } => copy_if(alloc, arms, last),
        Stmt::For {
            at,
            name,
            fields,
            body,
        } => copy_for(alloc, *at, name, fields, body),
        Stmt::While { at, cond, body } => copy_while(alloc, *at, cond, body),
        Stmt::Case { at, subject, arms } => copy_case(alloc, *at, subject, arms),
        Stmt::Sub { at, body } => copy_sub(alloc, *at, body),
        Stmt::Quiet(body) => copy_quiet(alloc, body),
        Stmt::Err { at, body } => copy_err(alloc, *at, body),
        Stmt::Strict => Box::new(alloc, Stmt::Strict),
        Stmt::Lax => Box::new(alloc, Stmt::Lax),
        Stmt::Exit { at, fields } => copy_exit(alloc, *at, fields),
        Stmt::Return { at, fields } => copy_return(alloc, *at, fields),
        Stmt::Break => Box::new(alloc, Stmt::Break),
        Stmt::Continue => Box::new(alloc, Stmt::Continue),
        Stmt::Export { at, fields } => copy_export(alloc, *at, fields),
        Stmt::Unset { at, fields } => copy_unset(alloc, *at, fields),
        Stmt::Stop { at, reason } => Box::new(
            alloc,
            Stmt::Stop {
                at: *at,
                reason: *reason,
            },
        ),
    }
}

#[cycle(copying)]
fn copy_set(alloc: Global, at: u32, sets: &List<SetTo>) -> Result<Box<Stmt>, Memory>
    ensures { IfOk result (λ twin. twin ≡ Set at sets.now) }
{
    let sets = copy_sets(alloc, sets.as_slice())?;
    Box::new(alloc, Stmt::Set { at, sets })
}

#[cycle(copying)]
fn copy_call(alloc: Global, at: u32, fields: &List<Fields>) -> Result<Box<Stmt>, Memory>
    ensures { IfOk result (λ twin. twin ≡ Call at fields.now) }
{
    let fields = copy_fields(alloc, fields.as_slice())?;
    Box::new(alloc, Stmt::Call { at, fields })
}

#[cycle(copying)]
fn copy_exit(alloc: Global, at: u32, fields: &List<Fields>) -> Result<Box<Stmt>, Memory>
    ensures { IfOk result (λ twin. twin ≡ Exit at fields.now) }
{
    let fields = copy_fields(alloc, fields.as_slice())?;
    Box::new(alloc, Stmt::Exit { at, fields })
}

#[cycle(copying)]
fn copy_return(alloc: Global, at: u32, fields: &List<Fields>) -> Result<Box<Stmt>, Memory>
    ensures { IfOk result (λ twin. twin ≡ Return at fields.now) }
{
    let fields = copy_fields(alloc, fields.as_slice())?;
    Box::new(alloc, Stmt::Return { at, fields })
}

#[cycle(copying)]
fn copy_export(alloc: Global, at: u32, fields: &List<Fields>) -> Result<Box<Stmt>, Memory>
    ensures { IfOk result (λ twin. twin ≡ Export at fields.now) }
{
    let fields = copy_fields(alloc, fields.as_slice())?;
    Box::new(alloc, Stmt::Export { at, fields })
}

#[cycle(copying)]
fn copy_unset(alloc: Global, at: u32, fields: &List<Fields>) -> Result<Box<Stmt>, Memory>
    ensures { IfOk result (λ twin. twin ≡ Unset at fields.now) }
{
    let fields = copy_fields(alloc, fields.as_slice())?;
    Box::new(alloc, Stmt::Unset { at, fields })
}

#[cycle(copying)]
fn copy_seq(alloc: Global, parts: &List<Stmt>) -> Result<Box<Stmt>, Memory>
    ensures { IfOk result (λ twin. twin ≡ Seq parts.now) }
{
    let parts = copy_stmts(alloc, parts.as_slice())?;
    Box::new(alloc, Stmt::Seq(parts))
}

#[cycle(copying)]
fn copy_not(alloc: Global, body: &Box<Stmt>) -> Result<Box<Stmt>, Memory>
    ensures { IfOk result (λ twin. twin ≡ Not body.now) }
{
    let body = copy_stmt(alloc, body.get())?;
    Box::new(alloc, Stmt::Not(body))
}

#[cycle(copying)]
fn copy_quiet(alloc: Global, body: &Box<Stmt>) -> Result<Box<Stmt>, Memory>
    ensures { IfOk result (λ twin. twin ≡ Quiet body.now) }
{
    let body = copy_stmt(alloc, body.get())?;
    Box::new(alloc, Stmt::Quiet(body))
}

#[cycle(copying)]
fn copy_sub(alloc: Global, at: u32, body: &Box<Stmt>) -> Result<Box<Stmt>, Memory>
    ensures { IfOk result (λ twin. twin ≡ Sub at body.now) }
{
    let body = copy_stmt(alloc, body.get())?;
    Box::new(alloc, Stmt::Sub { at, body })
}

#[cycle(copying)]
fn copy_err(alloc: Global, at: u32, body: &Box<Stmt>) -> Result<Box<Stmt>, Memory>
    ensures { IfOk result (λ twin. twin ≡ Err at body.now) }
{
    let body = copy_stmt(alloc, body.get())?;
    Box::new(alloc, Stmt::Err { at, body })
}

#[cycle(copying)]
fn copy_fun(
    alloc: Global,
    at: u32,
    name: &Bytes,
    fields: &List<Fields>,
) -> Result<Box<Stmt>, Memory>
    ensures { IfOk result (λ twin. twin ≡ Fun at name.now fields.now) }
{
    let name = name.copy(alloc)?;
    let fields = copy_fields(alloc, fields.as_slice())?;
    Box::new(alloc, Stmt::Fun { at, name, fields })
}

#[cycle(copying)]
fn copy_chain(alloc: Global, first: &Box<Stmt>, rest: &List<ChainPart>) -> Result<Box<Stmt>, Memory>
    ensures { IfOk result (λ twin. twin ≡ Chain first.now rest.now) }
{
    let first = copy_stmt(alloc, first.get())?;
    let rest = copy_chain_parts(alloc, rest.as_slice())?;
    Box::new(alloc, Stmt::Chain { first, rest })
}

#[cycle(copying)]
fn copy_if(alloc: Global, arms: &List<StmtArm>, last: &Box<Stmt>) -> Result<Box<Stmt>, Memory>
    ensures { IfOk result (λ twin. twin ≡ If arms.now last.now) }
{
    let arms = copy_arms(alloc, arms.as_slice())?;
    let last = copy_stmt(alloc, last.get())?;
    Box::new(alloc, Stmt::If { arms, last })
}

#[cycle(copying)]
fn copy_for(
    alloc: Global,
    at: u32,
    name: &Bytes,
    fields: &List<Fields>,
    body: &Box<Stmt>,
) -> Result<Box<Stmt>, Memory>
    ensures { IfOk result (λ twin. twin ≡ For at name.now fields.now body.now) }
{
    let name = name.copy(alloc)?;
    let fields = copy_fields(alloc, fields.as_slice())?;
    let body = copy_stmt(alloc, body.get())?;
    Box::new(
        alloc,
        Stmt::For {
            at,
            name,
            fields,
            body,
        },
    )
}

#[cycle(copying)]
fn copy_while(
    alloc: Global,
    at: u32,
    cond: &Box<Stmt>,
    body: &Box<Stmt>,
) -> Result<Box<Stmt>, Memory>
    ensures { IfOk result (λ twin. twin ≡ While at cond.now body.now) }
{
    let cond = copy_stmt(alloc, cond.get())?;
    let body = copy_stmt(alloc, body.get())?;
    Box::new(alloc, Stmt::While { at, cond, body })
}

#[cycle(copying)]
fn copy_case(
    alloc: Global,
    at: u32,
    subject: &Str,
    arms: &List<PatArm>,
) -> Result<Box<Stmt>, Memory>
    ensures { IfOk result (λ twin. twin ≡ Case at subject.now arms.now) }
{
    let subject = copy_str(alloc, subject)?;
    let arms = copy_pat_arms(alloc, arms.as_slice())?;
    Box::new(alloc, Stmt::Case { at, subject, arms })
}

#[cycle(copying)]
fn copy_str(alloc: Global, string: &Str) -> Result<Str, Memory>
    ensures { IfOk result (λ twin. twin ≡ string.now) }
{
    match string {
        Str::Lit(bytes) => Ok(Str::Lit(bytes.copy(alloc)?)),
        Str::Var(name) => Ok(Str::Var(name.copy(alloc)?)),
        Str::Arg(number) => Ok(Str::Arg(*number)),
        Str::Count => Ok(Str::Count),
        Str::Or(first, other) => {
            let twin = copy_str(alloc, first.get())?;
            let first = Box::new(alloc, twin)?;
            let other = other.copy(alloc)?;
            Ok(Str::Or(first, other))
        }
        Str::Output(body) => Ok(Str::Output(copy_stmt(alloc, body.get())?)),
        Str::Join(parts) => Ok(Str::Join(copy_strs(alloc, parts.as_slice())?)),
    }
}

#[cycle(copying)]
fn copy_strs(alloc: Global, strings: &[Str]) -> Result<List<Str>, Memory>
    ensures { IfOk result (λ twins. twins ≡ strings.now) }
{
    let mut twins = List::new(alloc);
    for string in strings {
        let twin = copy_str(alloc, string)?;
        twins.add(twin)?;
    }
    Ok(twins)
}

#[cycle(copying)]
fn copy_piece(alloc: Global, piece: &StrPiece) -> Result<StrPiece, Memory>
    ensures { IfOk result (λ twin. twin ≡ piece.now) }
{
    match piece {
        StrPiece::Plain(string) => Ok(StrPiece::Plain(copy_str(alloc, string)?)),
        StrPiece::Quoted(string) => Ok(StrPiece::Quoted(copy_str(alloc, string)?)),
        StrPiece::Split(string) => Ok(StrPiece::Split(copy_str(alloc, string)?)),
    }
}

#[cycle(copying)]
fn copy_pieces(alloc: Global, pieces: &[StrPiece]) -> Result<List<StrPiece>, Memory>
    ensures { IfOk result (λ twins. twins ≡ pieces.now) }
{
    let mut twins = List::new(alloc);
    for piece in pieces {
        let twin = copy_piece(alloc, piece)?;
        twins.add(twin)?;
    }
    Ok(twins)
}

#[cycle(copying)]
fn copy_field(alloc: Global, field: &Fields) -> Result<Fields, Memory>
    ensures { IfOk result (λ twin. twin ≡ field.now) }
{
    match field {
        Fields::Word(pieces) => Ok(Fields::Word(copy_pieces(alloc, pieces.as_slice())?)),
        Fields::Args => Ok(Fields::Args),
    }
}

#[cycle(copying)]
fn copy_fields(alloc: Global, fields: &[Fields]) -> Result<List<Fields>, Memory>
    ensures { IfOk result (λ twins. twins ≡ fields.now) }
{
    let mut twins = List::new(alloc);
    for field in fields {
        let twin = copy_field(alloc, field)?;
        twins.add(twin)?;
    }
    Ok(twins)
}

#[cycle(copying)]
fn copy_stmts(alloc: Global, stmts: &[Stmt]) -> Result<List<Stmt>, Memory>
    ensures { IfOk result (λ twins. twins ≡ stmts.now) }
{
    let mut twins = List::new(alloc);
    for stmt in stmts {
        let twin = copy_stmt(alloc, stmt)?;
        twins = with_stmt(twins, twin)?;
    }
    Ok(twins)
}

#[cycle(copying)]
fn copy_sets(alloc: Global, sets: &[SetTo]) -> Result<List<SetTo>, Memory>
    ensures { IfOk result (λ twins. twins ≡ sets.now) }
{
    let mut twins = List::new(alloc);
    for set in sets {
        let name = set.name.copy(alloc)?;
        let value = copy_str(alloc, &set.value)?;
        twins.add(SetTo { name, value })?;
    }
    Ok(twins)
}

#[cycle(copying)]
fn copy_chain_parts(alloc: Global, parts: &[ChainPart]) -> Result<List<ChainPart>, Memory>
    ensures { IfOk result (λ twins. twins ≡ parts.now) }
{
    let mut twins = List::new(alloc);
    for part in parts {
        let stmt = copy_stmt(alloc, &part.stmt)?;
        twins = with_chain_part(twins, part.and, stmt)?;
    }
    Ok(twins)
}

#[cycle(copying)]
fn copy_arms(alloc: Global, arms: &[StmtArm]) -> Result<List<StmtArm>, Memory>
    ensures { IfOk result (λ twins. twins ≡ arms.now) }
{
    let mut twins = List::new(alloc);
    for arm in arms {
        let cond = copy_stmt(alloc, &arm.cond)?;
        let body = copy_stmt(alloc, &arm.body)?;
        twins = with_stmt_arm(twins, cond, body)?;
    }
    Ok(twins)
}

#[cycle(copying)]
fn copy_patterns(alloc: Global, patterns: &[List<StrPiece>]) -> Result<List<List<StrPiece>>, Memory>
    ensures { IfOk result (λ twins. twins ≡ patterns.now) }
{
    let mut twins = List::new(alloc);
    for pattern in patterns {
        let twin = copy_pieces(alloc, pattern.as_slice())?;
        twins.add(twin)?;
    }
    Ok(twins)
}

#[cycle(copying)]
fn copy_pat_arms(alloc: Global, arms: &[PatArm]) -> Result<List<PatArm>, Memory>
    ensures { IfOk result (λ twins. twins ≡ arms.now) }
{
    let mut twins = List::new(alloc);
    for arm in arms {
        let patterns = copy_patterns(alloc, arm.patterns.as_slice())?;
        let body = copy_stmt(alloc, &arm.body)?;
        twins = with_pat_arm(twins, patterns, body)?;
    }
    Ok(twins)
}
