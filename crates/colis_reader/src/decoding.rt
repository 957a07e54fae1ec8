ghost use Rattle.std.specs.Prelude.{◌≡◌, IfOk, map};
ghost use Rattle.colis_reader.specs.Readings.{read, reads, member, behind, but_last, string_headed, literal_in};
ghost use Rattle.colis_reader.specs.Readings.{last, bytes_in, piece_headed, field_headed, stmt_headed, word_headed};
ghost use Rattle.colis_reader.specs.Readings.{sited_from, sited_headed, simple_headed, fields_headed};
ghost use Rattle.colis_syntax.specs.declared.syntax.Stmt.TheVariants.{Set, Call, Fun, Seq, Chain, Not, If, For, While};
ghost use Rattle.colis_syntax.specs.declared.syntax.Stmt.TheVariants.{Case, Sub, Quiet, Err as ErrJoined, Exit};
ghost use Rattle.colis_syntax.specs.declared.syntax.Stmt.TheVariants.{Return, Export, Unset};
ghost use Rattle.colis_syntax.specs.declared.syntax.Str.TheVariants.{Var, Or, Output, Join};

use crate::members::{argument_at, bytes_at, number_at, reason_at, spelled, word_at};
use crate::nest::Nest;
use colis_syntax::{ChainPart, Fields, PatArm, SetTo, Stmt, StmtArm, Str, StrPiece};
use script_names::{Boxed as Box, List, Memory};
use std::alloc::Global;

/// The statement that the member at a place is read as; `(skip)` where there is none.
#[cycle(decoding)]
#[tactic(auto, using(crate::proofs::MemberReads::of_members), unfolding(crate::specs::Readings::nothing))]
pub(crate) fn stmt_at(alloc: Global, nests: &[Nest], at: usize) -> Result<Stmt, Memory>
    ensures { IfOk result (λ stmt. stmt ≡ (member (reads nests.now) at).stmt) }
{
    if at < nests.len() {
        return read_stmt(alloc, &nests[at]);
    }
    Ok(Stmt::Skip)
}

#[cycle(decoding)]
#[tactic(auto, unfolding(crate::specs::Readings::read, crate::specs::Readings::node_read))]
fn read_stmt(alloc: Global, nest: &Nest) -> Result<Stmt, Memory>
    ensures { IfOk result (λ stmt. stmt ≡ (read nest.now).stmt) }
{
    match nest {
        Nest::Node(_, members) => stmt_from(alloc, members.as_slice()),
    }
}

#[cycle(decoding)]
fn stmt_from(alloc: Global, nests: &[Nest]) -> Result<Stmt, Memory>
    ensures { let rs = reads nests.now in
        IfOk result (λ stmt. stmt ≡ stmt_headed (member rs 0).word (behind rs)) }
{
    let head = word_at(nests, 0);
    match nests {
        [] => stmt_headed(alloc, head, nests),
        [_, rest @ ..] => stmt_headed(alloc, head, rest),
    }
}

// A statement, by the word that it begins with and what stands behind it.
#[cycle(decoding)]
#[tactic(auto, unfolding(crate::specs::Readings::stmt_headed))]
fn stmt_headed(alloc: Global, head: &[u8], rest: &[Nest]) -> Result<Stmt, Memory>
    ensures { IfOk result (λ stmt. stmt ≡ stmt_headed head.now (reads rest.now)) }
{
    match head {
        b"seq" => read_seq(alloc, rest),
        b"chain" => read_chain(alloc, rest),
        b"not" => read_not(alloc, rest),
        b"if" => read_if(alloc, rest),
        b"quiet" => read_quiet(alloc, rest),
        _ => word_headed(alloc, head, rest),
    }
}

// A statement of one word, or one that has an offset.
#[cycle(decoding)]
#[tactic(auto, unfolding(crate::specs::Readings::word_headed))]
fn word_headed(alloc: Global, head: &[u8], rest: &[Nest]) -> Result<Stmt, Memory>
    ensures { IfOk result (λ stmt. stmt ≡ word_headed head.now (reads rest.now)) }
{
    if head == b"strict".as_slice() {
        return Ok(Stmt::Strict);
    }
    if head == b"lax".as_slice() {
        return Ok(Stmt::Lax);
    }
    if head == b"break".as_slice() {
        return Ok(Stmt::Break);
    }
    if head == b"continue".as_slice() {
        return Ok(Stmt::Continue);
    }
    sited_from(alloc, head, rest)
}

#[cycle(decoding)]
fn read_seq(alloc: Global, rest: &[Nest]) -> Result<Stmt, Memory>
    ensures { IfOk result (λ stmt. stmt ≡ Seq (map (λ r. r.stmt) (reads rest.now))) }
{
    let parts = read_stmts(alloc, rest)?;
    Ok(Stmt::Seq(parts))
}

#[cycle(decoding)]
fn read_chain(alloc: Global, rest: &[Nest]) -> Result<Stmt, Memory>
    ensures { let rs = reads rest.now in
        IfOk result (λ stmt. stmt ≡ Chain (member rs 0).stmt (map (λ r. r.part) (behind rs))) }
{
    let first = stmt_at(alloc, rest, 0)?;
    let first = Box::new(alloc, first)?;
    let rest = parts_behind(alloc, rest)?;
    Ok(Stmt::Chain { first, rest })
}

#[cycle(decoding)]
fn read_not(alloc: Global, rest: &[Nest]) -> Result<Stmt, Memory>
    ensures { IfOk result (λ stmt. stmt ≡ Not (member (reads rest.now) 0).stmt) }
{
    let body = stmt_at(alloc, rest, 0)?;
    let body = Box::new(alloc, body)?;
    Ok(Stmt::Not(body))
}

#[cycle(decoding)]
fn read_if(alloc: Global, rest: &[Nest]) -> Result<Stmt, Memory>
    ensures { let rs = reads rest.now in
        IfOk result (λ stmt. stmt ≡ If (map (λ r. r.arm) (but_last rs)) (last rs).stmt) }
{
    let arms = arms_before(alloc, rest)?;
    let last = stmt_at(alloc, rest, rest.len().saturating_sub(1))?;
    let last = Box::new(alloc, last)?;
    Ok(Stmt::If { arms, last })
}

#[cycle(decoding)]
fn read_quiet(alloc: Global, rest: &[Nest]) -> Result<Stmt, Memory>
    ensures { IfOk result (λ stmt. stmt ≡ Quiet (member (reads rest.now) 0).stmt) }
{
    let body = stmt_at(alloc, rest, 0)?;
    let body = Box::new(alloc, body)?;
    Ok(Stmt::Quiet(body))
}

// A statement that has an offset, by the word that it begins with and what stands behind it.
#[cycle(decoding)]
fn sited_from(alloc: Global, head: &[u8], rest: &[Nest]) -> Result<Stmt, Memory>
    ensures { IfOk result (λ stmt. stmt ≡ sited_from head.now (reads rest.now)) }
{
    let at = number_at(rest, 0);
    match rest {
        [] => sited_headed(alloc, head, at, rest),
        [_, members @ ..] => sited_headed(alloc, head, at, members),
    }
}

#[cycle(decoding)]
#[tactic(auto, unfolding(crate::specs::Readings::sited_headed))]
fn sited_headed(alloc: Global, head: &[u8], at: u32, rest: &[Nest]) -> Result<Stmt, Memory>
    ensures { IfOk result (λ stmt. stmt ≡ sited_headed head.now at (reads rest.now)) }
{
    match head {
        b"set" => read_set_all(alloc, at, rest),
        b"fun" => read_fun(alloc, at, rest),
        b"for" => read_for(alloc, at, rest),
        b"case" => read_case(alloc, at, rest),
        _ => simple_headed(alloc, head, at, rest),
    }
}

#[cycle(decoding)]
#[tactic(auto, unfolding(crate::specs::Readings::simple_headed))]
fn simple_headed(alloc: Global, head: &[u8], at: u32, rest: &[Nest]) -> Result<Stmt, Memory>
    ensures { IfOk result (λ stmt. stmt ≡ simple_headed head.now at (reads rest.now)) }
{
    match head {
        b"while" => read_while(alloc, at, rest),
        b"sub" => read_sub(alloc, at, rest),
        b"err" => read_err(alloc, at, rest),
        b"stop" => Ok(Stmt::Stop {
            at,
            reason: reason_at(rest, 0),
        }),
        _ => fields_headed(alloc, head, at, rest),
    }
}

#[cycle(decoding)]
#[tactic(auto, unfolding(crate::specs::Readings::fields_headed))]
fn fields_headed(alloc: Global, head: &[u8], at: u32, rest: &[Nest]) -> Result<Stmt, Memory>
    ensures { IfOk result (λ stmt. stmt ≡ fields_headed head.now at (reads rest.now)) }
{
    if head == b"call".as_slice() {
        return read_call(alloc, at, rest);
    }
    if head == b"exit".as_slice() {
        return read_exit(alloc, at, rest);
    }
    if head == b"return".as_slice() {
        return read_return(alloc, at, rest);
    }
    if head == b"export".as_slice() {
        return read_export(alloc, at, rest);
    }
    if head == b"unset".as_slice() {
        return read_unset(alloc, at, rest);
    }
    Ok(Stmt::Skip)
}

#[cycle(decoding)]
fn read_set_all(alloc: Global, at: u32, rest: &[Nest]) -> Result<Stmt, Memory>
    ensures { IfOk result (λ stmt. stmt ≡ Set at (map (λ r. r.set) (reads rest.now))) }
{
    let sets = read_sets(alloc, rest)?;
    Ok(Stmt::Set { at, sets })
}

#[cycle(decoding)]
fn read_call(alloc: Global, at: u32, rest: &[Nest]) -> Result<Stmt, Memory>
    ensures { IfOk result (λ stmt. stmt ≡ Call at (map (λ r. r.field) (reads rest.now))) }
{
    let fields = read_fields(alloc, rest)?;
    Ok(Stmt::Call { at, fields })
}

#[cycle(decoding)]
fn read_fun(alloc: Global, at: u32, rest: &[Nest]) -> Result<Stmt, Memory>
    ensures { let rs = reads rest.now in
        IfOk result (λ stmt. stmt ≡ Fun at (bytes_in (member rs 0).word) (map (λ r. r.field) (behind rs))) }
{
    let name = bytes_at(alloc, rest, 0)?;
    let fields = fields_behind(alloc, rest)?;
    Ok(Stmt::Fun { at, name, fields })
}

#[cycle(decoding)]
fn read_for(alloc: Global, at: u32, rest: &[Nest]) -> Result<Stmt, Memory>
    ensures { let rs = reads rest.now in let name = bytes_in (member rs 0).word in
        IfOk result (λ stmt. stmt ≡ For at name (member rs 1).fields (member rs 2).stmt) }
{
    let name = bytes_at(alloc, rest, 0)?;
    let fields = fields_at(alloc, rest, 1)?;
    let body = stmt_at(alloc, rest, 2)?;
    let body = Box::new(alloc, body)?;
    Ok(Stmt::For {
        at,
        name,
        fields,
        body,
    })
}

#[cycle(decoding)]
fn read_while(alloc: Global, at: u32, rest: &[Nest]) -> Result<Stmt, Memory>
    ensures { let rs = reads rest.now in
        IfOk result (λ stmt. stmt ≡ While at (member rs 0).stmt (member rs 1).stmt) }
{
    let cond = stmt_at(alloc, rest, 0)?;
    let cond = Box::new(alloc, cond)?;
    let body = stmt_at(alloc, rest, 1)?;
    let body = Box::new(alloc, body)?;
    Ok(Stmt::While { at, cond, body })
}

#[cycle(decoding)]
fn read_case(alloc: Global, at: u32, rest: &[Nest]) -> Result<Stmt, Memory>
    ensures { let rs = reads rest.now in
        IfOk result (λ stmt. stmt ≡ Case at (member rs 0).string (map (λ r. r.pat_arm) (behind rs))) }
{
    let subject = string_at(alloc, rest, 0)?;
    let arms = pat_arms_behind(alloc, rest)?;
    Ok(Stmt::Case { at, subject, arms })
}

#[cycle(decoding)]
fn read_sub(alloc: Global, at: u32, rest: &[Nest]) -> Result<Stmt, Memory>
    ensures { IfOk result (λ stmt. stmt ≡ Sub at (member (reads rest.now) 0).stmt) }
{
    let body = stmt_at(alloc, rest, 0)?;
    let body = Box::new(alloc, body)?;
    Ok(Stmt::Sub { at, body })
}

#[cycle(decoding)]
fn read_err(alloc: Global, at: u32, rest: &[Nest]) -> Result<Stmt, Memory>
    ensures { IfOk result (λ stmt. stmt ≡ ErrJoined at (member (reads rest.now) 0).stmt) }
{
    let body = stmt_at(alloc, rest, 0)?;
    let body = Box::new(alloc, body)?;
    Ok(Stmt::Err { at, body })
}

#[cycle(decoding)]
fn read_exit(alloc: Global, at: u32, rest: &[Nest]) -> Result<Stmt, Memory>
    ensures { IfOk result (λ stmt. stmt ≡ Exit at (map (λ r. r.field) (reads rest.now))) }
{
    let fields = read_fields(alloc, rest)?;
    Ok(Stmt::Exit { at, fields })
}

#[cycle(decoding)]
fn read_return(alloc: Global, at: u32, rest: &[Nest]) -> Result<Stmt, Memory>
    ensures { IfOk result (λ stmt. stmt ≡ Return at (map (λ r. r.field) (reads rest.now))) }
{
    let fields = read_fields(alloc, rest)?;
    Ok(Stmt::Return { at, fields })
}

#[cycle(decoding)]
fn read_export(alloc: Global, at: u32, rest: &[Nest]) -> Result<Stmt, Memory>
    ensures { IfOk result (λ stmt. stmt ≡ Export at (map (λ r. r.field) (reads rest.now))) }
{
    let fields = read_fields(alloc, rest)?;
    Ok(Stmt::Export { at, fields })
}

#[cycle(decoding)]
fn read_unset(alloc: Global, at: u32, rest: &[Nest]) -> Result<Stmt, Memory>
    ensures { IfOk result (λ stmt. stmt ≡ Unset at (map (λ r. r.field) (reads rest.now))) }
{
    let fields = read_fields(alloc, rest)?;
    Ok(Stmt::Unset { at, fields })
}

// The string that the member at a place is read as.
#[cycle(decoding)]
#[tactic(auto, using(crate::proofs::MemberReads::of_members), unfolding(crate::specs::Readings::nothing))]
fn string_at(alloc: Global, nests: &[Nest], at: usize) -> Result<Str, Memory>
    ensures { IfOk result (λ string. string ≡ (member (reads nests.now) at).string) }
{
    if at < nests.len() {
        return read_string(alloc, &nests[at]);
    }
    Ok(Str::Count)
}

#[cycle(decoding)]
#[tactic(auto, unfolding(crate::specs::Readings::read, crate::specs::Readings::node_read))]
fn read_string(alloc: Global, nest: &Nest) -> Result<Str, Memory>
    ensures { IfOk result (λ string. string ≡ (read nest.now).string) }
{
    match nest {
        Nest::Node(word, members) => {
            if word.len() == 0 {
                return string_from(alloc, members.as_slice());
            }
            literal(alloc, word.as_slice())
        }
    }
}

#[tactic(auto, unfolding(crate::specs::Readings::literal_in))]
fn literal(alloc: Global, word: &[u8]) -> Result<Str, Memory>
    ensures { IfOk result (λ string. string ≡ literal_in word.now) }
{
    match word {
        [] => Ok(Str::Count),
        [_, rest @ ..] => {
            let bytes = spelled(alloc, rest)?;
            Ok(Str::Lit(bytes))
        }
    }
}

#[cycle(decoding)]
fn string_from(alloc: Global, nests: &[Nest]) -> Result<Str, Memory>
    ensures { let rs = reads nests.now in
        IfOk result (λ string. string ≡ string_headed (member rs 0).word (behind rs)) }
{
    let head = word_at(nests, 0);
    match nests {
        [] => string_headed(alloc, head, nests),
        [_, rest @ ..] => string_headed(alloc, head, rest),
    }
}

#[cycle(decoding)]
#[tactic(auto, unfolding(crate::specs::Readings::string_headed))]
fn string_headed(alloc: Global, head: &[u8], rest: &[Nest]) -> Result<Str, Memory>
    ensures { IfOk result (λ string. string ≡ string_headed head.now (reads rest.now)) }
{
    match head {
        b"var" => read_var(alloc, rest),
        b"arg" => Ok(Str::Arg(argument_at(rest, 0))),
        b"or" => read_or(alloc, rest),
        b"output" => read_output(alloc, rest),
        b"join" => read_join(alloc, rest),
        _ => Ok(Str::Count),
    }
}

fn read_var(alloc: Global, rest: &[Nest]) -> Result<Str, Memory>
    ensures { IfOk result (λ string. string ≡ Var (bytes_in (member (reads rest.now) 0).word)) }
{
    let name = bytes_at(alloc, rest, 0)?;
    Ok(Str::Var(name))
}

#[cycle(decoding)]
fn read_or(alloc: Global, rest: &[Nest]) -> Result<Str, Memory>
    ensures { let rs = reads rest.now in
        IfOk result (λ string. string ≡ Or (member rs 0).string (bytes_in (member rs 1).word)) }
{
    let first = string_at(alloc, rest, 0)?;
    let first = Box::new(alloc, first)?;
    let other = bytes_at(alloc, rest, 1)?;
    Ok(Str::Or(first, other))
}

#[cycle(decoding)]
fn read_output(alloc: Global, rest: &[Nest]) -> Result<Str, Memory>
    ensures { IfOk result (λ string. string ≡ Output (member (reads rest.now) 0).stmt) }
{
    let body = stmt_at(alloc, rest, 0)?;
    let body = Box::new(alloc, body)?;
    Ok(Str::Output(body))
}

#[cycle(decoding)]
fn read_join(alloc: Global, rest: &[Nest]) -> Result<Str, Memory>
    ensures { IfOk result (λ string. string ≡ Join (map (λ r. r.string) (reads rest.now))) }
{
    let parts = read_strings(alloc, rest)?;
    Ok(Str::Join(parts))
}

#[cycle(decoding)]
#[tactic(auto, unfolding(crate::specs::Readings::read, crate::specs::Readings::node_read))]
fn read_piece(alloc: Global, nest: &Nest) -> Result<StrPiece, Memory>
    ensures { IfOk result (λ piece. piece ≡ (read nest.now).piece) }
{
    match nest {
        Nest::Node(_, members) => piece_from(alloc, members.as_slice()),
    }
}

#[cycle(decoding)]
fn piece_from(alloc: Global, nests: &[Nest]) -> Result<StrPiece, Memory>
    ensures { let rs = reads nests.now in
        IfOk result (λ piece. piece ≡ piece_headed (member rs 0).word (behind rs)) }
{
    let head = word_at(nests, 0);
    match nests {
        [] => piece_headed(alloc, head, nests),
        [_, rest @ ..] => piece_headed(alloc, head, rest),
    }
}

#[cycle(decoding)]
#[tactic(auto, unfolding(crate::specs::Readings::piece_headed))]
fn piece_headed(alloc: Global, head: &[u8], rest: &[Nest]) -> Result<StrPiece, Memory>
    ensures { IfOk result (λ piece. piece ≡ piece_headed head.now (reads rest.now)) }
{
    let string = string_at(alloc, rest, 0)?;
    match head {
        b"p" => Ok(StrPiece::Plain(string)),
        b"q" => Ok(StrPiece::Quoted(string)),
        _ => Ok(StrPiece::Split(string)),
    }
}

// The pieces of a pattern.
#[cycle(decoding)]
#[tactic(auto, unfolding(crate::specs::Readings::read, crate::specs::Readings::node_read))]
fn read_pattern(alloc: Global, nest: &Nest) -> Result<List<StrPiece>, Memory>
    ensures { IfOk result (λ pieces. pieces ≡ (read nest.now).pieces) }
{
    match nest {
        Nest::Node(_, members) => pieces_behind(alloc, members.as_slice()),
    }
}

#[cycle(decoding)]
#[tactic(auto, unfolding(crate::specs::Readings::read, crate::specs::Readings::node_read))]
fn read_field(alloc: Global, nest: &Nest) -> Result<Fields, Memory>
    ensures { IfOk result (λ field. field ≡ (read nest.now).field) }
{
    match nest {
        Nest::Node(_, members) => field_from(alloc, members.as_slice()),
    }
}

#[cycle(decoding)]
fn field_from(alloc: Global, nests: &[Nest]) -> Result<Fields, Memory>
    ensures { let rs = reads nests.now in
        IfOk result (λ field. field ≡ field_headed (member rs 0).word (behind rs)) }
{
    let head = word_at(nests, 0);
    match nests {
        [] => field_headed(alloc, head, nests),
        [_, rest @ ..] => field_headed(alloc, head, rest),
    }
}

#[cycle(decoding)]
#[tactic(auto, unfolding(crate::specs::Readings::field_headed))]
fn field_headed(alloc: Global, head: &[u8], rest: &[Nest]) -> Result<Fields, Memory>
    ensures { IfOk result (λ field. field ≡ field_headed head.now (reads rest.now)) }
{
    match head {
        b"word" => {
            let pieces = read_pieces(alloc, rest)?;
            Ok(Fields::Word(pieces))
        }
        _ => Ok(Fields::Args),
    }
}

#[cycle(decoding)]
#[tactic(auto, unfolding(crate::specs::Readings::read, crate::specs::Readings::node_read))]
fn read_set(alloc: Global, nest: &Nest) -> Result<SetTo, Memory>
    ensures { IfOk result (λ set. set ≡ (read nest.now).set) }
{
    match nest {
        Nest::Node(_, members) => {
            let name = bytes_at(alloc, members.as_slice(), 0)?;
            let value = string_at(alloc, members.as_slice(), 1)?;
            Ok(SetTo { name, value })
        }
    }
}

#[cycle(decoding)]
#[tactic(auto, unfolding(crate::specs::Readings::read, crate::specs::Readings::node_read))]
fn read_part(alloc: Global, nest: &Nest) -> Result<ChainPart, Memory>
    ensures { IfOk result (λ part. part ≡ (read nest.now).part) }
{
    match nest {
        Nest::Node(_, members) => {
            let and = word_at(members.as_slice(), 0) == b"and".as_slice();
            let stmt = stmt_at(alloc, members.as_slice(), 1)?;
            Ok(ChainPart { and, stmt })
        }
    }
}

#[cycle(decoding)]
#[tactic(auto, unfolding(crate::specs::Readings::read, crate::specs::Readings::node_read))]
fn read_arm(alloc: Global, nest: &Nest) -> Result<StmtArm, Memory>
    ensures { IfOk result (λ arm. arm ≡ (read nest.now).arm) }
{
    match nest {
        Nest::Node(_, members) => {
            let cond = stmt_at(alloc, members.as_slice(), 0)?;
            let body = stmt_at(alloc, members.as_slice(), 1)?;
            Ok(StmtArm { cond, body })
        }
    }
}

#[cycle(decoding)]
#[tactic(auto, unfolding(crate::specs::Readings::read, crate::specs::Readings::node_read))]
fn read_pat_arm(alloc: Global, nest: &Nest) -> Result<PatArm, Memory>
    ensures { IfOk result (λ arm. arm ≡ (read nest.now).pat_arm) }
{
    match nest {
        Nest::Node(_, members) => {
            let patterns = patterns_at(alloc, members.as_slice(), 0)?;
            let body = stmt_at(alloc, members.as_slice(), 1)?;
            Ok(PatArm { patterns, body })
        }
    }
}

// The patterns that the member at a place is read as.
#[cycle(decoding)]
#[tactic(auto, using(crate::proofs::MemberReads::of_members), unfolding(crate::specs::Readings::nothing))]
fn patterns_at(alloc: Global, nests: &[Nest], at: usize) -> Result<List<List<StrPiece>>, Memory>
    ensures { IfOk result (λ patterns. patterns ≡ (member (reads nests.now) at).patterns) }
{
    if at < nests.len() {
        return patterns_of(alloc, &nests[at]);
    }
    Ok(List::new(alloc))
}

#[cycle(decoding)]
#[tactic(auto, unfolding(crate::specs::Readings::read, crate::specs::Readings::node_read))]
fn patterns_of(alloc: Global, nest: &Nest) -> Result<List<List<StrPiece>>, Memory>
    ensures { IfOk result (λ patterns. patterns ≡ (read nest.now).patterns) }
{
    match nest {
        Nest::Node(_, members) => read_patterns(alloc, members.as_slice()),
    }
}

// The list of fields that the member at a place is read as.
#[cycle(decoding)]
#[tactic(auto, using(crate::proofs::MemberReads::of_members), unfolding(crate::specs::Readings::nothing))]
fn fields_at(alloc: Global, nests: &[Nest], at: usize) -> Result<List<Fields>, Memory>
    ensures { IfOk result (λ fields. fields ≡ (member (reads nests.now) at).fields) }
{
    if at < nests.len() {
        return fields_of(alloc, &nests[at]);
    }
    Ok(List::new(alloc))
}

#[cycle(decoding)]
#[tactic(auto, unfolding(crate::specs::Readings::read, crate::specs::Readings::node_read))]
fn fields_of(alloc: Global, nest: &Nest) -> Result<List<Fields>, Memory>
    ensures { IfOk result (λ fields. fields ≡ (read nest.now).fields) }
{
    match nest {
        Nest::Node(_, members) => read_fields(alloc, members.as_slice()),
    }
}

// Lists of all members, of those behind the first, and of those before the last.

#[cycle(decoding)]
fn read_strings(alloc: Global, nests: &[Nest]) -> Result<List<Str>, Memory>
    ensures { IfOk result (λ found. found ≡ map (λ r. r.string) (reads nests.now)) }
{
    let mut found = List::new(alloc);
    for nest in nests {
        let string = read_string(alloc, nest)?;
        found.add(string)?;
    }
    Ok(found)
}

#[cycle(decoding)]
fn read_pieces(alloc: Global, nests: &[Nest]) -> Result<List<StrPiece>, Memory>
    ensures { IfOk result (λ found. found ≡ map (λ r. r.piece) (reads nests.now)) }
{
    let mut found = List::new(alloc);
    for nest in nests {
        let piece = read_piece(alloc, nest)?;
        found.add(piece)?;
    }
    Ok(found)
}

#[cycle(decoding)]
fn read_fields(alloc: Global, nests: &[Nest]) -> Result<List<Fields>, Memory>
    ensures { IfOk result (λ found. found ≡ map (λ r. r.field) (reads nests.now)) }
{
    let mut found = List::new(alloc);
    for nest in nests {
        let field = read_field(alloc, nest)?;
        found.add(field)?;
    }
    Ok(found)
}

#[cycle(decoding)]
fn read_stmts(alloc: Global, nests: &[Nest]) -> Result<List<Stmt>, Memory>
    ensures { IfOk result (λ found. found ≡ map (λ r. r.stmt) (reads nests.now)) }
{
    let mut found = List::new(alloc);
    for nest in nests {
        let stmt = read_stmt(alloc, nest)?;
        found.add(stmt)?;
    }
    Ok(found)
}

#[cycle(decoding)]
fn read_sets(alloc: Global, nests: &[Nest]) -> Result<List<SetTo>, Memory>
    ensures { IfOk result (λ found. found ≡ map (λ r. r.set) (reads nests.now)) }
{
    let mut found = List::new(alloc);
    for nest in nests {
        let set = read_set(alloc, nest)?;
        found.add(set)?;
    }
    Ok(found)
}

#[cycle(decoding)]
fn read_parts(alloc: Global, nests: &[Nest]) -> Result<List<ChainPart>, Memory>
    ensures { IfOk result (λ found. found ≡ map (λ r. r.part) (reads nests.now)) }
{
    let mut found = List::new(alloc);
    for nest in nests {
        let part = read_part(alloc, nest)?;
        found.add(part)?;
    }
    Ok(found)
}

#[cycle(decoding)]
fn read_pat_arms(alloc: Global, nests: &[Nest]) -> Result<List<PatArm>, Memory>
    ensures { IfOk result (λ found. found ≡ map (λ r. r.pat_arm) (reads nests.now)) }
{
    let mut found = List::new(alloc);
    for nest in nests {
        let pat_arm = read_pat_arm(alloc, nest)?;
        found.add(pat_arm)?;
    }
    Ok(found)
}

#[cycle(decoding)]
fn read_patterns(alloc: Global, nests: &[Nest]) -> Result<List<List<StrPiece>>, Memory>
    ensures { IfOk result (λ found. found ≡ map (λ r. r.pieces) (reads nests.now)) }
{
    let mut found = List::new(alloc);
    for nest in nests {
        let pattern = read_pattern(alloc, nest)?;
        found.add(pattern)?;
    }
    Ok(found)
}

#[cycle(decoding)]
fn pieces_behind(alloc: Global, nests: &[Nest]) -> Result<List<StrPiece>, Memory>
    ensures { IfOk result (λ found. found ≡ map (λ r. r.piece) (behind (reads nests.now))) }
{
    match nests {
        [] => Ok(List::new(alloc)),
        [_, rest @ ..] => read_pieces(alloc, rest),
    }
}

#[cycle(decoding)]
fn fields_behind(alloc: Global, nests: &[Nest]) -> Result<List<Fields>, Memory>
    ensures { IfOk result (λ found. found ≡ map (λ r. r.field) (behind (reads nests.now))) }
{
    match nests {
        [] => Ok(List::new(alloc)),
        [_, rest @ ..] => read_fields(alloc, rest),
    }
}

#[cycle(decoding)]
fn parts_behind(alloc: Global, nests: &[Nest]) -> Result<List<ChainPart>, Memory>
    ensures { IfOk result (λ found. found ≡ map (λ r. r.part) (behind (reads nests.now))) }
{
    match nests {
        [] => Ok(List::new(alloc)),
        [_, rest @ ..] => read_parts(alloc, rest),
    }
}

#[cycle(decoding)]
#[tactic(auto, using(crate::proofs::MemberReads::but_last_reads))]
fn arms_before(alloc: Global, nests: &[Nest]) -> Result<List<StmtArm>, Memory>
    ensures { IfOk result (λ found. found ≡ map (λ r. r.arm) (but_last (reads nests.now))) }
{
    let mut found = List::new(alloc);
    for i in 0usize..nests.len().saturating_sub(1) {
        let arm = read_arm(alloc, &nests[i])?;
        found.add(arm)?;
    }
    Ok(found)
}

#[cycle(decoding)]
fn pat_arms_behind(alloc: Global, nests: &[Nest]) -> Result<List<PatArm>, Memory>
    ensures { IfOk result (λ found. found ≡ map (λ r. r.pat_arm) (behind (reads nests.now))) }
{
    match nests {
        [] => Ok(List::new(alloc)),
        [_, rest @ ..] => read_pat_arms(alloc, rest),
    }
}
