ghost use Rattle.std.specs.Prelude.{◌≡◌, [], map};
ghost use Rattle.std.specs.List.{list_all};
ghost use Rattle.colis_syntax.specs.WellFormed.{is_def, stmt_passes, str_passes, piece_passes, field_passes};
ghost use Rattle.colis_syntax.specs.WellFormed.{set_passes, part_passes, arm_passes, pat_arm_passes, all_pass};
ghost use Rattle.colis_syntax.specs.WellFormed.{def_passes, defs_pass, is_well_formed, is_argument, scope_of};

use crate::def::Def;
use crate::syntax::{ChainPart, Fields, PatArm, SetTo, Stmt, StmtArm, Str, StrPiece};
use script_names::List;

/// Whether functions and a body make a well formed program.
pub(crate) fn is_well_formed(defs: &[Def], body: &Stmt) -> bool
    ensures { result ≡ is_well_formed defs.now body.now }
{
    defs_pass(defs) && stmt_passes(body, defs, false, false)
}

// Whether no two functions have one name, and each calls only those before it.
fn defs_pass(defs: &[Def]) -> bool
    ensures { result ≡ defs_pass [] defs.now }
{
    for i in 0usize..defs.len() {
        if !def_passes(&defs[..i], &defs[i]) {
            return false;
        }
    }
    true
}

// Whether a function may stand behind those.
fn def_passes(earlier: &[Def], def: &Def) -> bool
    ensures { result ≡ def_passes earlier.now def.now }
{
    !is_def(def.name.as_slice(), earlier) && stmt_passes(&def.body, earlier, false, true)
}

// Whether one of the functions has this name.
fn is_def(name: &[u8], defs: &[Def]) -> bool
    ensures { result ≡ is_def name.now defs.now }
{
    defs.iter().any(|def| def.name.as_slice() == name)
}

#[cycle(passing)]
fn stmt_passes(stmt: &Stmt, defs: &[Def], in_loop: bool, in_def: bool) -> bool
    ensures { result ≡ stmt_passes stmt.now (scope_of defs.now in_loop in_def) }
{
    match stmt {
        Stmt::Skip => true,
        Stmt::Set { sets, .. } => sets_pass(sets.as_slice(), defs, in_loop, in_def),
        Stmt::Call { fields, .. } => fields_pass(fields.as_slice(), defs, in_loop, in_def),
        Stmt::Fun { name, fields, .. } => {
            is_def(name.as_slice(), defs) && fields_pass(fields.as_slice(), defs, in_loop, in_def)
        }
        Stmt::Seq(parts) => {
            parts.len() >= 2 && stmts_pass(parts.as_slice(), defs, in_loop, in_def)
        }
        Stmt::Chain { first, rest } => {
            rest.len() >= 1
                && stmt_passes(first.get(), defs, in_loop, in_def)
                && parts_pass(rest.as_slice(), defs, in_loop, in_def)
        }
        Stmt::Not(body) => stmt_passes(body.get(), defs, in_loop, in_def),
        Stmt::If { arms, last } => {
            arms.len() >= 1
                && arms_pass(arms.as_slice(), defs, in_loop, in_def)
                && stmt_passes(last.get(), defs, in_loop, in_def)
        }
        Stmt::For { fields, body, .. } => {
            fields_pass(fields.as_slice(), defs, in_loop, in_def)
                && stmt_passes(body.get(), defs, true, in_def)
        }
        Stmt::While { cond, body, .. } => {
            stmt_passes(cond.get(), defs, true, in_def)
                && stmt_passes(body.get(), defs, true, in_def)
        }
        Stmt::Case { subject, arms, .. } => {
            str_passes(subject, defs, in_loop, in_def)
                && pat_arms_pass(arms.as_slice(), defs, in_loop, in_def)
        }
        Stmt::Sub { body, .. } => stmt_passes(body.get(), defs, false, false),
        Stmt::Quiet(body) => stmt_passes(body.get(), defs, in_loop, in_def),
        Stmt::Err { body, .. } => stmt_passes(body.get(), defs, in_loop, in_def),
        Stmt::Strict => true,
        Stmt::Lax => true,
        Stmt::Exit { fields, .. } => fields_pass(fields.as_slice(), defs, in_loop, in_def),
        Stmt::Return { fields, .. } => {
            in_def && fields_pass(fields.as_slice(), defs, in_loop, in_def)
        }
        Stmt::Break => in_loop,
        Stmt::Continue => in_loop,
        Stmt::Export { fields, .. } => fields_pass(fields.as_slice(), defs, in_loop, in_def),
        Stmt::Unset { fields, .. } => fields_pass(fields.as_slice(), defs, in_loop, in_def),
        Stmt::Stop { .. } => true,
    }
}

#[cycle(passing)]
fn stmts_pass(stmts: &[Stmt], defs: &[Def], in_loop: bool, in_def: bool) -> bool
    ensures { result ≡ all_pass (scope_of defs.now in_loop in_def) (map stmt_passes stmts.now) }
{
    for stmt in stmts {
        if !stmt_passes(stmt, defs, in_loop, in_def) {
            return false;
        }
    }
    true
}

#[cycle(passing)]
fn parts_pass(parts: &[ChainPart], defs: &[Def], in_loop: bool, in_def: bool) -> bool
    ensures { result ≡ all_pass (scope_of defs.now in_loop in_def) (map part_passes parts.now) }
{
    for part in parts {
        if !part_passes(part, defs, in_loop, in_def) {
            return false;
        }
    }
    true
}

#[cycle(passing)]
fn part_passes(part: &ChainPart, defs: &[Def], in_loop: bool, in_def: bool) -> bool
    ensures { result ≡ part_passes part.now (scope_of defs.now in_loop in_def) }
{
    stmt_passes(&part.stmt, defs, in_loop, in_def)
}

#[cycle(passing)]
fn arms_pass(arms: &[StmtArm], defs: &[Def], in_loop: bool, in_def: bool) -> bool
    ensures { result ≡ all_pass (scope_of defs.now in_loop in_def) (map arm_passes arms.now) }
{
    for arm in arms {
        if !arm_passes(arm, defs, in_loop, in_def) {
            return false;
        }
    }
    true
}

#[cycle(passing)]
fn arm_passes(arm: &StmtArm, defs: &[Def], in_loop: bool, in_def: bool) -> bool
    ensures { result ≡ arm_passes arm.now (scope_of defs.now in_loop in_def) }
{
    stmt_passes(&arm.cond, defs, in_loop, in_def) && stmt_passes(&arm.body, defs, in_loop, in_def)
}

#[cycle(passing)]
fn pat_arms_pass(arms: &[PatArm], defs: &[Def], in_loop: bool, in_def: bool) -> bool
    ensures { result ≡ all_pass (scope_of defs.now in_loop in_def) (map pat_arm_passes arms.now) }
{
    for arm in arms {
        if !pat_arm_passes(arm, defs, in_loop, in_def) {
            return false;
        }
    }
    true
}

#[cycle(passing)]
fn pat_arm_passes(arm: &PatArm, defs: &[Def], in_loop: bool, in_def: bool) -> bool
    ensures { result ≡ pat_arm_passes arm.now (scope_of defs.now in_loop in_def) }
{
    arm.patterns.len() >= 1
        && patterns_pass(arm.patterns.as_slice(), defs, in_loop, in_def)
        && stmt_passes(&arm.body, defs, in_loop, in_def)
}

#[cycle(passing)]
fn patterns_pass(patterns: &[List<StrPiece>], defs: &[Def], in_loop: bool, in_def: bool) -> bool
    ensures { let s = scope_of defs.now in_loop in_def in
        result ≡ list_all (λ pieces. all_pass s pieces) (map (λ pieces. map piece_passes pieces) patterns.now) }
{
    for pattern in patterns {
        if !pieces_pass(pattern.as_slice(), defs, in_loop, in_def) {
            return false;
        }
    }
    true
}

#[cycle(passing)]
fn sets_pass(sets: &[SetTo], defs: &[Def], in_loop: bool, in_def: bool) -> bool
    ensures { result ≡ all_pass (scope_of defs.now in_loop in_def) (map set_passes sets.now) }
{
    for set in sets {
        if !set_passes(set, defs, in_loop, in_def) {
            return false;
        }
    }
    true
}

#[cycle(passing)]
fn set_passes(set: &SetTo, defs: &[Def], in_loop: bool, in_def: bool) -> bool
    ensures { result ≡ set_passes set.now (scope_of defs.now in_loop in_def) }
{
    str_passes(&set.value, defs, in_loop, in_def)
}

#[cycle(passing)]
fn fields_pass(fields: &[Fields], defs: &[Def], in_loop: bool, in_def: bool) -> bool
    ensures { result ≡ all_pass (scope_of defs.now in_loop in_def) (map field_passes fields.now) }
{
    for field in fields {
        if !field_passes(field, defs, in_loop, in_def) {
            return false;
        }
    }
    true
}

#[cycle(passing)]
fn field_passes(field: &Fields, defs: &[Def], in_loop: bool, in_def: bool) -> bool
    ensures { result ≡ field_passes field.now (scope_of defs.now in_loop in_def) }
{
    match field {
        Fields::Word(pieces) => pieces_pass(pieces.as_slice(), defs, in_loop, in_def),
        Fields::Args => true,
    }
}

#[cycle(passing)]
fn pieces_pass(pieces: &[StrPiece], defs: &[Def], in_loop: bool, in_def: bool) -> bool
    ensures { result ≡ all_pass (scope_of defs.now in_loop in_def) (map piece_passes pieces.now) }
{
    for piece in pieces {
        if !piece_passes(piece, defs, in_loop, in_def) {
            return false;
        }
    }
    true
}

#[cycle(passing)]
fn piece_passes(piece: &StrPiece, defs: &[Def], in_loop: bool, in_def: bool) -> bool
    ensures { result ≡ piece_passes piece.now (scope_of defs.now in_loop in_def) }
{
    match piece {
        StrPiece::Plain(string) => str_passes(string, defs, in_loop, in_def),
        StrPiece::Quoted(string) => str_passes(string, defs, in_loop, in_def),
        StrPiece::Split(string) => str_passes(string, defs, in_loop, in_def),
    }
}

#[cycle(passing)]
fn strs_pass(strings: &[Str], defs: &[Def], in_loop: bool, in_def: bool) -> bool
    ensures { result ≡ all_pass (scope_of defs.now in_loop in_def) (map str_passes strings.now) }
{
    for string in strings {
        if !str_passes(string, defs, in_loop, in_def) {
            return false;
        }
    }
    true
}

#[cycle(passing)]
fn str_passes(string: &Str, defs: &[Def], in_loop: bool, in_def: bool) -> bool
    ensures { result ≡ str_passes string.now (scope_of defs.now in_loop in_def) }
{
    match string {
        Str::Lit(_) => true,
        Str::Var(_) => true,
        Str::Arg(number) => is_argument(*number),
        Str::Count => true,
        Str::Or(first, _) => str_passes(first.get(), defs, in_loop, in_def),
        Str::Output(body) => stmt_passes(body.get(), defs, false, false),
        Str::Join(parts) => strs_pass(parts.as_slice(), defs, in_loop, in_def),
    }
}

// Whether an argument may have the number.
fn is_argument(number: u8) -> bool
    ensures { result ≡ is_argument number }
{
    1 <= number && number <= 9
}
