ghost use Rattle.std.specs.Prelude.{◌≡◌, ◌++◌, codes, IfOk, OnOk};
ghost use Rattle.std.specs.List.{flat_map};
ghost use Rattle.std.specs.Fmt.{decimal};
ghost use Rattle.shown_texts.specs.Show.{show};
ghost use Rattle.colis_syntax.specs.ProgramText.{spaced, between, group, at_group, one_text, at_text};
ghost use Rattle.colis_syntax.specs.ProgramText.{lit_text, var_text, arg_text, or_text, fun_text};
ghost use Rattle.colis_syntax.specs.ProgramText.{chain_text, if_text, for_text, while_text};
ghost use Rattle.colis_syntax.specs.ProgramText.{case_text, stop_text, stmt_text, str_text, piece_text, field_text};
ghost use Rattle.colis_syntax.specs.ProgramText.{set_text, part_text, arm_text, pat_arm_text, pat_arm_text_of};
ghost use Rattle.colis_syntax.specs.ProgramText.{pattern_text, def_text, program_head, program_text};

use crate::def::Def;
use crate::program::Program;
use crate::syntax::{ChainPart, Fields, PatArm, SetTo, Stmt, StmtArm, Str, StrPiece};
use script_names::{Boxed as Box, Bytes, List, Memory, Reason};
use shown_texts::{push_number, push_reason, push_shown};
use std::alloc::Global;

/// The text of a program, with a newline at its end.
#[tactic(auto, unfolding(crate::specs::ProgramText::program_text_of))]
pub fn print_program(alloc: Global, program: &Program) -> Result<Bytes, Memory>
    ensures { IfOk result (λ text. text ≡ program_text program.now) }
{
    let mut text = Bytes::new(alloc);
    text.extend(program_head(program.strict()))?;
    put_defs(&mut text, program.defs())?;
    text.extend(b" ")?;
    put_stmt(&mut text, program.body())?;
    text.extend(b")\n")?;
    Ok(text)
}

// The head of a program.
fn program_head(strict: bool) -> &'static [u8]
    ensures { result.now ≡ program_head strict }
{
    if strict {
        b"(program strict"
    } else {
        b"(program lax"
    }
}

fn put_defs(text: &mut Bytes, defs: &[Def]) -> Result<(), Memory>
    ensures { OnOk result (text.new ≡ text.old ++ flat_map (λ def. spaced (def_text def)) defs.now) }
{
    for def in defs {
        text.extend(b" ")?;
        put_def(text, def)?;
    }
    Ok(())
}

#[tactic(auto, unfolding(crate::specs::ProgramText::def_text_of))]
fn put_def(text: &mut Bytes, def: &Def) -> Result<(), Memory>
    ensures { OnOk result (text.new ≡ text.old ++ def_text def.now) }
{
    text.extend(b"(def ")?;
    push_shown(text, def.name.as_slice())?;
    text.extend(b" ")?;
    put_stmt(text, &def.body)?;
    text.extend(b")")
}

#[cycle(printing)]
#[tactic(auto, using(crate::proofs::Layers::of_stmts))]
fn put_stmt(text: &mut Bytes, stmt: &Stmt) -> Result<(), Memory>
    ensures { OnOk result (text.new ≡ text.old ++ stmt_text stmt.now) }
{
    match stmt {
        Stmt::Skip => text.extend(b"(skip)"),
        Stmt::Set { at, sets } => put_set_all(text, *at, sets.as_slice()),
        Stmt::Call { at, fields } => put_at_fields(text, b"(call", *at, fields.as_slice()),
        Stmt::Fun { at, name, fields } => put_fun(text, *at, name.as_slice(), fields.as_slice()),
        Stmt::Seq(parts) => put_seq(text, parts.as_slice()),
        Stmt::Chain { first, rest } => put_chain(text, first, rest),
        Stmt::Not(body) => put_with_stmt(text, b"(not", body.get()),
        Stmt::If { arms, last } => put_if(text, arms, last),
        Stmt::For {
            at,
            name,
            fields,
            body,
        } => put_for(text, *at, name, fields, body),
        Stmt::While { at, cond, body } => put_while(text, *at, cond, body),
        Stmt::Case { at, subject, arms } => put_case(text, *at, subject, arms),
        Stmt::Sub { at, body } => put_at_stmt(text, b"(sub", *at, body.get()),
        Stmt::Quiet(body) => put_with_stmt(text, b"(quiet", body.get()),
        Stmt::Err { at, body } => put_at_stmt(text, b"(err", *at, body.get()),
        Stmt::Strict => text.extend(b"(strict)"),
        Stmt::Lax => text.extend(b"(lax)"),
        Stmt::Exit { at, fields } => put_at_fields(text, b"(exit", *at, fields.as_slice()),
        Stmt::Return { at, fields } => put_at_fields(text, b"(return", *at, fields.as_slice()),
        Stmt::Break => text.extend(b"(break)"),
        Stmt::Continue => text.extend(b"(continue)"),
        Stmt::Export { at, fields } => put_at_fields(text, b"(export", *at, fields.as_slice()),
        Stmt::Unset { at, fields } => put_at_fields(text, b"(unset", *at, fields.as_slice()),
        Stmt::Stop { at, reason } => put_stop(text, *at, *reason),
    }
}

// Adds what has one statement.
#[cycle(printing)]
#[tactic(auto, unfolding(crate::specs::ProgramText::one_text))]
fn put_with_stmt(text: &mut Bytes, head: &[u8], stmt: &Stmt) -> Result<(), Memory>
    ensures { OnOk result (text.new ≡ text.old ++ one_text head.now (stmt_text stmt.now)) }
{
    text.extend(head)?;
    text.extend(b" ")?;
    put_stmt(text, stmt)?;
    text.extend(b")")
}

// Adds what has an offset and one statement.
#[cycle(printing)]
#[tactic(auto, unfolding(crate::specs::ProgramText::at_text))]
fn put_at_stmt(text: &mut Bytes, head: &[u8], at: u32, stmt: &Stmt) -> Result<(), Memory>
    ensures { OnOk result (text.new ≡ text.old ++ at_text head.now at (stmt_text stmt.now)) }
{
    text.extend(head)?;
    text.extend(b" ")?;
    push_number(text, u64::from(at))?;
    text.extend(b" ")?;
    put_stmt(text, stmt)?;
    text.extend(b")")
}

// Adds what has an offset and fields.
#[cycle(printing)]
#[tactic(auto, unfolding(crate::specs::ProgramText::at_group))]
fn put_at_fields(text: &mut Bytes, head: &[u8], at: u32, fields: &[Fields]) -> Result<(), Memory>
    ensures { let members = flat_map (λ field. spaced (field_text field)) fields.now in
        OnOk result (text.new ≡ text.old ++ at_group head.now at members) }
{
    text.extend(head)?;
    text.extend(b" ")?;
    push_number(text, u64::from(at))?;
    put_fields(text, fields)?;
    text.extend(b")")
}

#[cycle(printing)]
#[tactic(auto, unfolding(crate::specs::ProgramText::at_group))]
fn put_set_all(text: &mut Bytes, at: u32, sets: &[SetTo]) -> Result<(), Memory>
    ensures { let members = flat_map (λ set. spaced (set_text set)) sets.now in
        OnOk result (text.new ≡ text.old ++ at_group (codes "(set") at members) }
{
    text.extend(b"(set")?;
    text.extend(b" ")?;
    push_number(text, u64::from(at))?;
    put_sets(text, sets)?;
    text.extend(b")")
}

#[cycle(printing)]
#[tactic(auto, unfolding(crate::specs::ProgramText::fun_text))]
fn put_fun(text: &mut Bytes, at: u32, name: &[u8], fields: &[Fields]) -> Result<(), Memory>
    ensures { let members = flat_map (λ field. spaced (field_text field)) fields.now in
        OnOk result (text.new ≡ text.old ++ fun_text at name.now members) }
{
    text.extend(b"(fun ")?;
    push_number(text, u64::from(at))?;
    text.extend(b" ")?;
    push_shown(text, name)?;
    put_fields(text, fields)?;
    text.extend(b")")
}

#[cycle(printing)]
#[tactic(auto, unfolding(crate::specs::ProgramText::group))]
fn put_seq(text: &mut Bytes, parts: &[Stmt]) -> Result<(), Memory>
    ensures { let members = flat_map (λ stmt. spaced (stmt_text stmt)) parts.now in
        OnOk result (text.new ≡ text.old ++ group (codes "(seq") members) }
{
    text.extend(b"(seq")?;
    put_stmts(text, parts)?;
    text.extend(b")")
}

#[cycle(printing)]
#[tactic(auto, unfolding(crate::specs::ProgramText::chain_text))]
fn put_chain(text: &mut Bytes, first: &Box<Stmt>, rest: &List<ChainPart>) -> Result<(), Memory>
    ensures { let members = flat_map (λ part. spaced (part_text part)) rest.now in
        OnOk result (text.new ≡ text.old ++ chain_text (stmt_text first.now) members) }
{
    text.extend(b"(chain ")?;
    put_stmt(text, first.get())?;
    put_parts(text, rest.as_slice())?;
    text.extend(b")")
}

#[cycle(printing)]
#[tactic(auto, unfolding(crate::specs::ProgramText::if_text))]
fn put_if(text: &mut Bytes, arms: &List<StmtArm>, last: &Box<Stmt>) -> Result<(), Memory>
    ensures { let members = flat_map (λ arm. spaced (arm_text arm)) arms.now in
        OnOk result (text.new ≡ text.old ++ if_text members (stmt_text last.now)) }
{
    text.extend(b"(if")?;
    put_arms(text, arms.as_slice())?;
    text.extend(b" ")?;
    put_stmt(text, last.get())?;
    text.extend(b")")
}

#[cycle(printing)]
#[tactic(auto, unfolding(crate::specs::ProgramText::for_text))]
fn put_for(
    text: &mut Bytes,
    at: u32,
    name: &Bytes,
    fields: &List<Fields>,
    body: &Box<Stmt>,
) -> Result<(), Memory>
    ensures { let words = between field_text fields.now in
        OnOk result (text.new ≡ text.old ++ for_text at name.now words (stmt_text body.now)) }
{
    text.extend(b"(for ")?;
    push_number(text, u64::from(at))?;
    text.extend(b" ")?;
    push_shown(text, name.as_slice())?;
    text.extend(b" (")?;
    put_between_fields(text, fields.as_slice())?;
    text.extend(b") ")?;
    put_stmt(text, body.get())?;
    text.extend(b")")
}

#[cycle(printing)]
#[tactic(auto, unfolding(crate::specs::ProgramText::while_text))]
fn put_while(text: &mut Bytes, at: u32, cond: &Box<Stmt>, body: &Box<Stmt>) -> Result<(), Memory>
    ensures { OnOk result (text.new ≡ text.old ++ while_text at (stmt_text cond.now) (stmt_text body.now)) }
{
    text.extend(b"(while ")?;
    push_number(text, u64::from(at))?;
    text.extend(b" ")?;
    put_stmt(text, cond.get())?;
    text.extend(b" ")?;
    put_stmt(text, body.get())?;
    text.extend(b")")
}

#[cycle(printing)]
#[tactic(auto, unfolding(crate::specs::ProgramText::case_text))]
fn put_case(text: &mut Bytes, at: u32, subject: &Str, arms: &List<PatArm>) -> Result<(), Memory>
    ensures { let members = flat_map (λ arm. spaced (pat_arm_text arm)) arms.now in
        OnOk result (text.new ≡ text.old ++ case_text at (str_text subject.now) members) }
{
    text.extend(b"(case ")?;
    push_number(text, u64::from(at))?;
    text.extend(b" ")?;
    put_str(text, subject)?;
    put_pat_arms(text, arms.as_slice())?;
    text.extend(b")")
}

#[tactic(auto, unfolding(crate::specs::ProgramText::stop_text))]
fn put_stop(text: &mut Bytes, at: u32, reason: Reason) -> Result<(), Memory>
    ensures { OnOk result (text.new ≡ text.old ++ stop_text at reason) }
{
    text.extend(b"(stop ")?;
    push_number(text, u64::from(at))?;
    text.extend(b" ")?;
    push_reason(text, reason)?;
    text.extend(b")")
}

#[cycle(printing)]
#[tactic(auto, using(crate::proofs::Layers::of_strs))]
fn put_str(text: &mut Bytes, string: &Str) -> Result<(), Memory>
    ensures { OnOk result (text.new ≡ text.old ++ str_text string.now) }
{
    match string {
        Str::Lit(bytes) => put_lit(text, bytes.as_slice()),
        Str::Var(name) => put_var(text, name.as_slice()),
        Str::Arg(number) => put_arg(text, *number),
        Str::Count => text.extend(b"(count)"),
        Str::Or(first, other) => put_or(text, first.get(), other.as_slice()),
        Str::Output(body) => put_with_stmt(text, b"(output", body.get()),
        Str::Join(parts) => put_join(text, parts.as_slice()),
    }
}

#[tactic(auto, unfolding(crate::specs::ProgramText::lit_text))]
fn put_lit(text: &mut Bytes, bytes: &[u8]) -> Result<(), Memory>
    ensures { OnOk result (text.new ≡ text.old ++ lit_text bytes.now) }
{
    text.extend(b"=")?;
    push_shown(text, bytes)
}

#[tactic(auto, unfolding(crate::specs::ProgramText::var_text))]
fn put_var(text: &mut Bytes, name: &[u8]) -> Result<(), Memory>
    ensures { OnOk result (text.new ≡ text.old ++ var_text name.now) }
{
    text.extend(b"(var ")?;
    push_shown(text, name)?;
    text.extend(b")")
}

#[tactic(auto, unfolding(crate::specs::ProgramText::arg_text))]
fn put_arg(text: &mut Bytes, number: u8) -> Result<(), Memory>
    ensures { OnOk result (text.new ≡ text.old ++ arg_text number) }
{
    text.extend(b"(arg ")?;
    push_number(text, u64::from(number))?;
    text.extend(b")")
}

#[cycle(printing)]
#[tactic(auto, unfolding(crate::specs::ProgramText::or_text))]
fn put_or(text: &mut Bytes, first: &Str, other: &[u8]) -> Result<(), Memory>
    ensures { OnOk result (text.new ≡ text.old ++ or_text (str_text first.now) other.now) }
{
    text.extend(b"(or ")?;
    put_str(text, first)?;
    text.extend(b" ")?;
    push_shown(text, other)?;
    text.extend(b")")
}

#[cycle(printing)]
#[tactic(auto, unfolding(crate::specs::ProgramText::group))]
fn put_join(text: &mut Bytes, parts: &[Str]) -> Result<(), Memory>
    ensures { let members = flat_map (λ string. spaced (str_text string)) parts.now in
        OnOk result (text.new ≡ text.old ++ group (codes "(join") members) }
{
    text.extend(b"(join")?;
    put_strs(text, parts)?;
    text.extend(b")")
}

#[cycle(printing)]
#[tactic(auto, using(crate::proofs::Layers::of_pieces))]
fn put_piece(text: &mut Bytes, piece: &StrPiece) -> Result<(), Memory>
    ensures { OnOk result (text.new ≡ text.old ++ piece_text piece.now) }
{
    match piece {
        StrPiece::Plain(string) => put_with_str(text, b"(p", string),
        StrPiece::Quoted(string) => put_with_str(text, b"(q", string),
        StrPiece::Split(string) => put_with_str(text, b"(s", string),
    }
}

// Adds what has one string.
#[cycle(printing)]
#[tactic(auto, unfolding(crate::specs::ProgramText::one_text))]
fn put_with_str(text: &mut Bytes, head: &[u8], string: &Str) -> Result<(), Memory>
    ensures { OnOk result (text.new ≡ text.old ++ one_text head.now (str_text string.now)) }
{
    text.extend(head)?;
    text.extend(b" ")?;
    put_str(text, string)?;
    text.extend(b")")
}

#[cycle(printing)]
#[tactic(auto, using(crate::proofs::Layers::of_fields))]
fn put_field(text: &mut Bytes, field: &Fields) -> Result<(), Memory>
    ensures { OnOk result (text.new ≡ text.old ++ field_text field.now) }
{
    match field {
        Fields::Word(pieces) => put_word(text, pieces.as_slice()),
        Fields::Args => text.extend(b"(args)"),
    }
}

#[cycle(printing)]
#[tactic(auto, unfolding(crate::specs::ProgramText::group))]
fn put_word(text: &mut Bytes, pieces: &[StrPiece]) -> Result<(), Memory>
    ensures { let members = flat_map (λ piece. spaced (piece_text piece)) pieces.now in
        OnOk result (text.new ≡ text.old ++ group (codes "(word") members) }
{
    text.extend(b"(word")?;
    put_pieces(text, pieces)?;
    text.extend(b")")
}

#[cycle(printing)]
#[tactic(auto, using(crate::proofs::Layers::text_pattern), unfolding(crate::specs::ProgramText::group))]
fn put_pattern(text: &mut Bytes, pieces: &[StrPiece]) -> Result<(), Memory>
    ensures { OnOk result (text.new ≡ text.old ++ pattern_text pieces.now) }
{
    text.extend(b"(pat")?;
    put_pieces(text, pieces)?;
    text.extend(b")")
}

#[cycle(printing)]
#[tactic(auto, using(crate::proofs::Layers::text_set), unfolding(crate::specs::ProgramText::set_text_of))]
fn put_set(text: &mut Bytes, set: &SetTo) -> Result<(), Memory>
    ensures { OnOk result (text.new ≡ text.old ++ set_text set.now) }
{
    text.extend(b"(")?;
    push_shown(text, set.name.as_slice())?;
    text.extend(b" ")?;
    put_str(text, &set.value)?;
    text.extend(b")")
}

#[cycle(printing)]
#[tactic(auto, using(crate::proofs::Layers::text_part))]
fn put_part(text: &mut Bytes, part: &ChainPart) -> Result<(), Memory>
    ensures { OnOk result (text.new ≡ text.old ++ part_text part.now) }
{
    if part.and {
        return put_with_stmt(text, b"(and", &part.stmt);
    }
    put_with_stmt(text, b"(or", &part.stmt)
}

#[cycle(printing)]
#[tactic(auto, using(crate::proofs::Layers::text_arm), unfolding(crate::specs::ProgramText::arm_text_of))]
fn put_arm(text: &mut Bytes, arm: &StmtArm) -> Result<(), Memory>
    ensures { OnOk result (text.new ≡ text.old ++ arm_text arm.now) }
{
    text.extend(b"(")?;
    put_stmt(text, &arm.cond)?;
    text.extend(b" ")?;
    put_stmt(text, &arm.body)?;
    text.extend(b")")
}

#[cycle(printing)]
#[tactic(auto, using(crate::proofs::Layers::text_pat_arm), unfolding(crate::specs::ProgramText::pat_arm_text_of))]
fn put_pat_arm(text: &mut Bytes, arm: &PatArm) -> Result<(), Memory>
    ensures { OnOk result (text.new ≡ text.old ++ pat_arm_text arm.now) }
{
    text.extend(b"((")?;
    put_patterns(text, arm.patterns.as_slice())?;
    text.extend(b") ")?;
    put_stmt(text, &arm.body)?;
    text.extend(b")")
}

// Adds patterns, with a space between each two.
#[cycle(printing)]
fn put_patterns(text: &mut Bytes, patterns: &[List<StrPiece>]) -> Result<(), Memory>
    ensures { OnOk result (text.new ≡ text.old ++ between pattern_text patterns.now) }
{
    match patterns {
        [] => Ok(()),
        [first, rest @ ..] => {
            put_pattern(text, first.as_slice())?;
            put_further_patterns(text, rest)
        }
    }
}

// Adds fields, with a space between each two.
#[cycle(printing)]
fn put_between_fields(text: &mut Bytes, fields: &[Fields]) -> Result<(), Memory>
    ensures { OnOk result (text.new ≡ text.old ++ between field_text fields.now) }
{
    match fields {
        [] => Ok(()),
        [first, rest @ ..] => {
            put_field(text, first)?;
            put_fields(text, rest)
        }
    }
}

#[cycle(printing)]
fn put_further_patterns(text: &mut Bytes, patterns: &[List<StrPiece>]) -> Result<(), Memory>
    ensures { let further = flat_map (λ pattern. spaced (pattern_text pattern)) patterns.now in
        OnOk result (text.new ≡ text.old ++ further) }
{
    for pattern in patterns {
        text.extend(b" ")?;
        put_pattern(text, pattern.as_slice())?;
    }
    Ok(())
}

// Each of the functions below adds a list, with a space before each member.

#[cycle(printing)]
fn put_stmts(text: &mut Bytes, stmts: &[Stmt]) -> Result<(), Memory>
    ensures { OnOk result (text.new ≡ text.old ++ flat_map (λ stmt. spaced (stmt_text stmt)) stmts.now) }
{
    for stmt in stmts {
        text.extend(b" ")?;
        put_stmt(text, stmt)?;
    }
    Ok(())
}

#[cycle(printing)]
fn put_fields(text: &mut Bytes, fields: &[Fields]) -> Result<(), Memory>
    ensures { OnOk result (text.new ≡ text.old ++ flat_map (λ field. spaced (field_text field)) fields.now) }
{
    for field in fields {
        text.extend(b" ")?;
        put_field(text, field)?;
    }
    Ok(())
}

#[cycle(printing)]
fn put_pieces(text: &mut Bytes, pieces: &[StrPiece]) -> Result<(), Memory>
    ensures { OnOk result (text.new ≡ text.old ++ flat_map (λ piece. spaced (piece_text piece)) pieces.now) }
{
    for piece in pieces {
        text.extend(b" ")?;
        put_piece(text, piece)?;
    }
    Ok(())
}

#[cycle(printing)]
fn put_strs(text: &mut Bytes, strings: &[Str]) -> Result<(), Memory>
    ensures { OnOk result (text.new ≡ text.old ++ flat_map (λ string. spaced (str_text string)) strings.now) }
{
    for string in strings {
        text.extend(b" ")?;
        put_str(text, string)?;
    }
    Ok(())
}

#[cycle(printing)]
fn put_sets(text: &mut Bytes, sets: &[SetTo]) -> Result<(), Memory>
    ensures { OnOk result (text.new ≡ text.old ++ flat_map (λ set. spaced (set_text set)) sets.now) }
{
    for set in sets {
        text.extend(b" ")?;
        put_set(text, set)?;
    }
    Ok(())
}

#[cycle(printing)]
fn put_parts(text: &mut Bytes, parts: &[ChainPart]) -> Result<(), Memory>
    ensures { OnOk result (text.new ≡ text.old ++ flat_map (λ part. spaced (part_text part)) parts.now) }
{
    for part in parts {
        text.extend(b" ")?;
        put_part(text, part)?;
    }
    Ok(())
}

#[cycle(printing)]
fn put_arms(text: &mut Bytes, arms: &[StmtArm]) -> Result<(), Memory>
    ensures { OnOk result (text.new ≡ text.old ++ flat_map (λ arm. spaced (arm_text arm)) arms.now) }
{
    for arm in arms {
        text.extend(b" ")?;
        put_arm(text, arm)?;
    }
    Ok(())
}

#[cycle(printing)]
fn put_pat_arms(text: &mut Bytes, arms: &[PatArm]) -> Result<(), Memory>
    ensures { OnOk result (text.new ≡ text.old ++ flat_map (λ arm. spaced (pat_arm_text arm)) arms.now) }
{
    for arm in arms {
        text.extend(b" ")?;
        put_pat_arm(text, arm)?;
    }
    Ok(())
}
