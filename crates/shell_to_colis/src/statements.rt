ghost use Rattle.std.specs.Prelude.{◌≡◌, ◌<◌, [], ◌∷◌, ◌++◌, length, map, IfOk, OnOk};
ghost use Rattle.std.specs.List.{flat_map};
ghost use Rattle.shell_syntax.specs.declared.syntax.Command.TheVariants.{Simple, Chain, If, For, While, Case};
ghost use Rattle.shell_syntax.specs.declared.syntax.CaseArm.{out-CaseArm};
ghost use Rattle.shell_to_colis.specs.Translated.{translated, each, part_to, piece_to, joined_to, pieces_to};
ghost use Rattle.shell_to_colis.specs.Translated.{word_to, field_to, fields_to, rest_of, list_to, assign_to, link_to};
ghost use Rattle.shell_to_colis.specs.Translated.{if_arm_to, case_arm_to, otherwise_to, condition_to, body_to};
ghost use Rattle.shell_to_colis.specs.Translated.{assigned_to, simple_to, seq_to, chain_to, if_to};

use crate::defs::Defs;
use crate::kinds::{Kind, kind_of};
use crate::redirections::redirected;
use crate::words::{expanded, is_all_alone, piece, quoting_of};
use colis_syntax::{ChainPart, Fields, PatArm, SetTo, Stmt, StmtArm, Str, StrPiece};
use script_names::{Boxed as Box, Bytes, Copied, List, Memory, Reason};
use shell_syntax::{Assign, CaseArm, Command, IfArm, Link, Part, Word};
use std::alloc::Global;

// ---- nodes of CoLiS, which are made only where they have members

/// Statements, one after another.
pub(crate) fn sequence(stmts: List<Stmt>) -> Stmt
    ensures { result ≡ seq_to stmts }
{
    if stmts.len() >= 2 {
        return Stmt::Seq(stmts);
    }
    let mut left = stmts.into_vec();
    match left.pop() {
        None => Stmt::Skip,
        Some(only) => only,
    }
}

// Assignments; none at all succeed.
fn assigned(at: u32, sets: List<SetTo>) -> Stmt
    ensures { result ≡ assigned_to at sets }
{
    if sets.len() == 0 {
        return Stmt::Skip;
    }
    Stmt::Set { at, sets }
}

// An and-or list.
fn chained(first: Box<Stmt>, rest: List<ChainPart>) -> Stmt
    ensures { result ≡ chain_to first rest }
{
    if rest.len() == 0 {
        return first.into_inner();
    }
    Stmt::Chain { first, rest }
}

// Arms of `if`.
fn branched(arms: List<StmtArm>, last: Box<Stmt>) -> Stmt
    ensures { result ≡ if_to arms last }
{
    if arms.len() == 0 {
        return last.into_inner();
    }
    Stmt::If { arms, last }
}

// The condition of `while`, or of `until`.
fn condition(alloc: Global, until: bool, cond: Box<Stmt>) -> Result<Box<Stmt>, Memory>
    ensures { IfOk result (λ stmt. stmt ≡ condition_to until cond) }
{
    if until {
        Box::new(alloc, Stmt::Not(cond))
    } else {
        Ok(cond)
    }
}

// The body of `while`, or of `until`.
fn turned(alloc: Global, until: bool, body: Box<Stmt>) -> Result<Box<Stmt>, Memory>
    ensures { IfOk result (λ stmt. stmt ≡ body_to until body) }
{
    if until {
        let skip = Box::new(alloc, Stmt::Skip)?;
        let mut stmts = List::new(alloc);
        stmts.add(Stmt::Not(skip))?;
        stmts.add(body.into_inner())?;
        Box::new(alloc, Stmt::Seq(stmts))
    } else {
        Ok(body)
    }
}

// ---- the syntax

/// The statement of a command, where these functions are defined before it.
#[cycle(translating)]
pub(crate) fn command(alloc: Global, node: &Command, defs: &Defs) -> Result<Stmt, Memory>
    ensures { IfOk result (λ stmt. stmt ≡ translated node.now defs.now) }
{
    match node {
        Command::Simple { at, assigns, words } => simple(alloc, *at, assigns, words, defs),
        Command::Redirected {
            at,
            body,
            redirects,
        } => {
            let body = command(alloc, body.get(), defs)?;
            redirected(alloc, *at, redirects.as_slice(), body)
        }
        Command::Pipe { at, .. } => Ok(Stmt::Stop {
            at: *at,
            reason: Reason::Pipe,
        }),
        Command::Not { body, .. } => Ok(Stmt::Not(boxed(alloc, body, defs)?)),
        Command::Chain { first, rest } => chain(alloc, first, rest, defs),
        Command::Seq(parts) => Ok(sequence(commands_of(alloc, parts.as_slice(), defs)?)),
        Command::If {
            at,
            arms,
            otherwise,
        } => branches(alloc, *at, arms, otherwise, defs),
        Command::For {
            at,
            name,
            words,
            body,
        } => each_field(alloc, *at, name, words, body, defs),
        Command::While {
            at,
            until,
            cond,
            body,
        } => repeated(alloc, *at, *until, cond, body, defs),
        Command::Case { at, subject, arms } => cases(alloc, *at, subject, arms, defs),
        Command::Sub { at, body } => Ok(Stmt::Sub {
            at: *at,
            body: boxed(alloc, body, defs)?,
        }),
        Command::Define { .. } => Ok(Stmt::Skip),
    }
}

#[cycle(translating)]
fn boxed(alloc: Global, body: &Box<Command>, defs: &Defs) -> Result<Box<Stmt>, Memory>
    ensures { IfOk result (λ stmt. stmt ≡ translated body.now defs.now) }
{
    Box::new(alloc, command(alloc, body.get(), defs)?)
}

#[cycle(translating)]
fn simple(
    alloc: Global,
    at: u32,
    assigns: &List<Assign>,
    words: &List<Word>,
    defs: &Defs,
) -> Result<Stmt, Memory>
    ensures { IfOk result (λ stmt. stmt ≡ translated (Simple at assigns.now words.now) defs.now) }
{
    let kind = kind_of(alloc, words.as_slice(), defs)?;
    of_kind(alloc, at, kind, assigns, words, defs)
}

#[cycle(translating)]
fn of_kind(
    alloc: Global,
    at: u32,
    kind: Kind,
    assigns: &List<Assign>,
    words: &List<Word>,
    defs: &Defs,
) -> Result<Stmt, Memory>
    ensures { let made = simple_to at kind (map assign_to assigns.now) (map word_to words.now) defs.now in
        IfOk result (λ stmt. stmt ≡ made) }
{
    match kind {
        Kind::Assignments => Ok(assigned(at, sets_of(alloc, assigns.as_slice(), defs)?)),
        Kind::Strict => Ok(Stmt::Strict),
        Kind::Lax => Ok(Stmt::Lax),
        Kind::Exit => Ok(Stmt::Exit {
            at,
            fields: operands_of(alloc, words.as_slice(), defs)?,
        }),
        Kind::Return => Ok(Stmt::Return {
            at,
            fields: operands_of(alloc, words.as_slice(), defs)?,
        }),
        Kind::Break => Ok(Stmt::Break),
        Kind::Continue => Ok(Stmt::Continue),
        Kind::Export => Ok(Stmt::Export {
            at,
            fields: operands_of(alloc, words.as_slice(), defs)?,
        }),
        Kind::Unset => Ok(Stmt::Unset {
            at,
            fields: operands_of(alloc, words.as_slice(), defs)?,
        }),
        Kind::Function(name) => Ok(Stmt::Fun {
            at,
            name,
            fields: operands_of(alloc, words.as_slice(), defs)?,
        }),
        Kind::Utility => Ok(Stmt::Call {
            at,
            fields: fields_of(alloc, words.as_slice(), defs)?,
        }),
    }
}

#[cycle(translating)]
fn chain(
    alloc: Global,
    first: &Box<Command>,
    rest: &List<Link>,
    defs: &Defs,
) -> Result<Stmt, Memory>
    ensures { IfOk result (λ stmt. stmt ≡ translated (Chain first.now rest.now) defs.now) }
{
    let first = boxed(alloc, first, defs)?;
    let rest = links_of(alloc, rest.as_slice(), defs)?;
    Ok(chained(first, rest))
}

#[cycle(translating)]
fn branches(
    alloc: Global,
    at: u32,
    arms: &List<IfArm>,
    otherwise: &Option<Box<Command>>,
    defs: &Defs,
) -> Result<Stmt, Memory>
    ensures { IfOk result (λ stmt. stmt ≡ translated (If at arms.now otherwise.now) defs.now) }
{
    let arms = if_arms(alloc, arms.as_slice(), defs)?;
    match otherwise {
        None => {
            let last = Box::new(alloc, Stmt::Skip)?;
            Ok(branched(arms, last))
        }
        Some(body) => {
            let last = boxed(alloc, body, defs)?;
            Ok(branched(arms, last))
        }
    }
}

#[cycle(translating)]
fn each_field(
    alloc: Global,
    at: u32,
    name: &Bytes,
    words: &Option<List<Word>>,
    body: &Box<Command>,
    defs: &Defs,
) -> Result<Stmt, Memory>
    ensures { IfOk result (λ stmt. stmt ≡ translated (For at name.now words.now body.now) defs.now) }
{
    let name = name.copy(alloc)?;
    let body = boxed(alloc, body, defs)?;
    match words {
        None => {
            let mut fields = List::new(alloc);
            fields.add(Fields::Args)?;
            Ok(Stmt::For {
                at,
                name,
                fields,
                body,
            })
        }
        Some(words) => {
            let fields = fields_of(alloc, words.as_slice(), defs)?;
            Ok(Stmt::For {
                at,
                name,
                fields,
                body,
            })
        }
    }
}

#[cycle(translating)]
fn repeated(
    alloc: Global,
    at: u32,
    until: bool,
    cond: &Box<Command>,
    body: &Box<Command>,
    defs: &Defs,
) -> Result<Stmt, Memory>
    ensures { IfOk result (λ stmt. stmt ≡ translated (While at until cond.now body.now) defs.now) }
{
    let cond = boxed(alloc, cond, defs)?;
    let body = boxed(alloc, body, defs)?;
    let cond = condition(alloc, until, cond)?;
    let body = turned(alloc, until, body)?;
    Ok(Stmt::While { at, cond, body })
}

#[cycle(translating)]
fn cases(
    alloc: Global,
    at: u32,
    subject: &Word,
    arms: &List<CaseArm>,
    defs: &Defs,
) -> Result<Stmt, Memory>
    ensures { IfOk result (λ stmt. stmt ≡ translated (Case at subject.now arms.now) defs.now) }
{
    let subject = joined(alloc, subject, defs)?;
    let arms = case_arms(alloc, arms.as_slice(), defs)?;
    Ok(Stmt::Case { at, subject, arms })
}

#[cycle(translating)]
fn commands_of(alloc: Global, commands: &[Command], defs: &Defs) -> Result<List<Stmt>, Memory>
    ensures { IfOk result (λ stmts. stmts ≡ each (map translated commands.now) defs.now) }
{
    let mut stmts = List::new(alloc);
    for part in commands {
        let stmt = command(alloc, part, defs)?;
        stmts.add(stmt)?;
    }
    Ok(stmts)
}

#[cycle(translating)]
fn links_of(alloc: Global, links: &[Link], defs: &Defs) -> Result<List<ChainPart>, Memory>
    ensures { IfOk result (λ parts. parts ≡ each (map link_to links.now) defs.now) }
{
    let mut parts = List::new(alloc);
    for link in links {
        let part = linked(alloc, link, defs)?;
        parts.add(part)?;
    }
    Ok(parts)
}

#[cycle(translating)]
fn linked(alloc: Global, link: &Link, defs: &Defs) -> Result<ChainPart, Memory>
    ensures { IfOk result (λ part. part ≡ link_to link.now defs.now) }
{
    let stmt = command(alloc, &link.command, defs)?;
    Ok(ChainPart {
        and: link.and,
        stmt,
    })
}

#[cycle(translating)]
fn if_arms(alloc: Global, arms: &[IfArm], defs: &Defs) -> Result<List<StmtArm>, Memory>
    ensures { IfOk result (λ parts. parts ≡ each (map if_arm_to arms.now) defs.now) }
{
    let mut parts = List::new(alloc);
    for arm in arms {
        let part = if_arm(alloc, arm, defs)?;
        parts.add(part)?;
    }
    Ok(parts)
}

#[cycle(translating)]
fn if_arm(alloc: Global, arm: &IfArm, defs: &Defs) -> Result<StmtArm, Memory>
    ensures { IfOk result (λ part. part ≡ if_arm_to arm.now defs.now) }
{
    let cond = command(alloc, &arm.cond, defs)?;
    let body = command(alloc, &arm.body, defs)?;
    Ok(StmtArm { cond, body })
}

#[cycle(translating)]
fn case_arms(alloc: Global, arms: &[CaseArm], defs: &Defs) -> Result<List<PatArm>, Memory>
    ensures { IfOk result (λ parts. parts ≡ flat_map (λ arm. arm defs.now) (map case_arm_to arms.now)) }
{
    let mut parts = List::new(alloc);
    for arm in arms {
        add_case_arm(alloc, arm, defs, &mut parts)?;
    }
    Ok(parts)
}

#[cycle(translating)]
fn add_case_arm(
    alloc: Global,
    arm: &CaseArm,
    defs: &Defs,
    parts: &mut List<PatArm>,
) -> Result<(), Memory>
    ensures { OnOk result (parts.new ≡ parts.old ++ case_arm_to arm.now defs.now) }
{
    if arm.patterns.len() == 0 {
        return Ok(());
    }
    let part = case_arm(alloc, arm, defs)?;
    parts.add(part)
}

#[cycle(translating)]
fn case_arm(alloc: Global, arm: &CaseArm, defs: &Defs) -> Result<PatArm, Memory>
    requires { 0 < length (out-CaseArm arm.now).patterns }
    ensures { IfOk result (λ part. part ∷ [] ≡ case_arm_to arm.now defs.now) }
{
    let patterns = patterns_of(alloc, arm.patterns.as_slice(), defs)?;
    let body = command(alloc, &arm.body, defs)?;
    Ok(PatArm { patterns, body })
}

#[cycle(translating)]
fn patterns_of(alloc: Global, words: &[Word], defs: &Defs) -> Result<List<List<StrPiece>>, Memory>
    ensures { IfOk result (λ patterns. patterns ≡ map (λ word. pieces_to word defs.now) (map word_to words.now)) }
{
    let mut patterns = List::new(alloc);
    for word in words {
        let pattern = pieces_of(alloc, word, defs)?;
        patterns.add(pattern)?;
    }
    Ok(patterns)
}

#[cycle(translating)]
fn sets_of(alloc: Global, assigns: &[Assign], defs: &Defs) -> Result<List<SetTo>, Memory>
    ensures { IfOk result (λ sets. sets ≡ each (map assign_to assigns.now) defs.now) }
{
    let mut sets = List::new(alloc);
    for assign in assigns {
        let set = assignment(alloc, assign, defs)?;
        sets.add(set)?;
    }
    Ok(sets)
}

#[cycle(translating)]
fn assignment(alloc: Global, assign: &Assign, defs: &Defs) -> Result<SetTo, Memory>
    ensures { IfOk result (λ set. set ≡ assign_to assign.now defs.now) }
{
    let name = assign.name.copy(alloc)?;
    let value = joined(alloc, &assign.value, defs)?;
    Ok(SetTo { name, value })
}

#[cycle(translating)]
fn operands_of(alloc: Global, words: &[Word], defs: &Defs) -> Result<List<Fields>, Memory>
    ensures { IfOk result (λ fields. fields ≡ rest_of (fields_to (map word_to words.now) defs.now)) }
{
    match words {
        [] => Ok(List::new(alloc)),
        [_, operands @ ..] => fields_of(alloc, operands, defs),
    }
}

#[cycle(translating)]
fn fields_of(alloc: Global, words: &[Word], defs: &Defs) -> Result<List<Fields>, Memory>
    ensures { IfOk result (λ fields. fields ≡ fields_to (map word_to words.now) defs.now) }
{
    let mut fields = List::new(alloc);
    for word in words {
        let one = field(alloc, word, defs)?;
        fields.add(one)?;
    }
    Ok(fields)
}

#[cycle(translating)]
fn field(alloc: Global, word: &Word, defs: &Defs) -> Result<Fields, Memory>
    ensures { IfOk result (λ field. field ≡ field_to (word_to word.now) defs.now) }
{
    if is_all_alone(word.parts.as_slice()) {
        return Ok(Fields::Args);
    }
    Ok(Fields::Word(pieces_of(alloc, word, defs)?))
}

#[cycle(translating)]
fn pieces_of(alloc: Global, word: &Word, defs: &Defs) -> Result<List<StrPiece>, Memory>
    ensures { IfOk result (λ pieces. pieces ≡ pieces_to (word_to word.now) defs.now) }
{
    let mut pieces = List::new(alloc);
    for part in word.parts.as_slice() {
        let string = value(alloc, part, defs)?;
        pieces.add(piece(quoting_of(part), string))?;
    }
    Ok(pieces)
}

#[cycle(translating)]
fn joined(alloc: Global, word: &Word, defs: &Defs) -> Result<Str, Memory>
    ensures { IfOk result (λ value. value ≡ joined_to (word_to word.now) defs.now) }
{
    let mut values = List::new(alloc);
    for part in word.parts.as_slice() {
        let string = value(alloc, part, defs)?;
        values.add(string)?;
    }
    Ok(Str::Join(values))
}

#[cycle(translating)]
fn value(alloc: Global, part: &Part, defs: &Defs) -> Result<Str, Memory>
    ensures { IfOk result (λ value. value ≡ (part_to part.now).value defs.now) }
{
    match part {
        Part::Plain(bytes) => Ok(Str::Lit(bytes.copy(alloc)?)),
        Part::Quoted(bytes) => Ok(Str::Lit(bytes.copy(alloc)?)),
        Part::Param { key, default, .. } => expanded(alloc, key, default),
        Part::All => Ok(Str::Join(List::new(alloc))),
        Part::Run { body, .. } => Ok(Str::Output(boxed(alloc, body, defs)?)),
    }
}
