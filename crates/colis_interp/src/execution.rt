ghost use Rattle.std.specs.Prelude.{◌≡◌, ◌≤◌, ◌<◌, [], map, length, take, get_or, IfSome, IfNone, Some, None};
ghost use Rattle.shell_rules.specs.State.{by_exit, closed_off, no_value, success_if_none, with};
ghost use Rattle.shell_rules.specs.Expansion as word;
ghost use Rattle.shell_rules.specs.Commands as rule;
ghost use Rattle.shell_rules.specs.Loops as loops;
ghost use Rattle.shell_rules.specs.Cases as cases;
ghost use Rattle.shell_rules.specs.Calls as calls;
ghost use Rattle.colis_syntax.specs.declared.def.Def.{Def as DefRecord};
ghost use Rattle.colis_meaning.specs.Meaning.{co_stmt, co_str, co_piece, co_fields, co_set, co_link, co_arm};
ghost use Rattle.colis_meaning.specs.Meaning.{co_case_arm, funs_of};
ghost use Rattle.colis_meaning.specs.Meaning.{values_with, pieces_with, fields_with, are_static};
ghost use Rattle.colis_interp.specs.Places.{place_of};
ghost use Rattle.colis_interp.specs.Runs.{Runs, state_of};

use crate::halt::{
    Behind, Halt, behind_body, behind_condition, ended_by_exit, ended_by_return, halt_of,
};
use crate::leaving::leave_with;
use crate::names::{export_each, unset_each};
use crate::place::Place;
use crate::shell::{Shell, assign, checked, take_turn};
use crate::spelling::spelled_by;
use crate::strings::{append, argument, count, pattern_answer, short, trimmed, variable};
use crate::utilities::call_utility;
use colis_syntax::{ChainPart, Def, Fields, PatArm, SetTo, Stmt, StmtArm, Str, StrPiece};
use script_names::{Bytes, Copied, List, Reason};
use shell_rules::Leave;
use shell_words::{Piece, fields as cut_fields};
use std::alloc::Global;
use std::mem;

/// Runs a statement, where these functions are defined before it.
#[cycle(executing)]
pub(crate) fn run_stmt(
    alloc: Global,
    stmt: &Stmt,
    defs: &[Def],
    place: Place,
    shell: &mut Shell,
) -> Result<(), Halt>
    ensures turns { shell.new.conc.turns ≤ shell.old.conc.turns }
    ensures runs { let does = co_stmt stmt.now (funs_of defs.now []) in
        Runs (does (place_of place.entry) (state_of shell.old)) result shell.new }
{
    match stmt {
        Stmt::Skip => {
            shell.conc.status = true;
            Ok(())
        }
        Stmt::Set { at, sets } => { run_set(alloc, sets.as_slice(), *at, defs, place, shell) }
        Stmt::Call { at, fields } => { run_call(alloc, fields.as_slice(), *at, defs, place, shell) }
        Stmt::Fun { at, name, fields } => {
            run_function(alloc, fields.as_slice(), name, *at, defs, place, shell)
        }
        Stmt::Seq(parts) => run_all(alloc, parts.as_slice(), defs, place, shell),
        Stmt::Chain { first, rest } => {
            if rest.len() == 0 {
                return run_stmt(alloc, first.get(), defs, place, shell);
            }
            run_stmt(
                alloc,
                first.get(),
                defs,
                Place {
                    excepted: true,
                    ..place
                },
                shell,
            )?;
            run_links(alloc, rest.as_slice(), defs, place, shell)
        }
        Stmt::Not(body) => {
            run_stmt(
                alloc,
                body.get(),
                defs,
                Place {
                    excepted: true,
                    ..place
                },
                shell,
            )?;
            shell.conc.status = !shell.conc.status;
            Ok(())
        }
        Stmt::If { arms, last } => {
            run_arms(alloc, arms.as_slice(), last.get(), defs, place, shell)
        }
        Stmt::For {
            at,
            name,
            fields,
            body,
        } => {
            let here = Place { at: *at, ..place };
            let fields = run_fields(alloc, fields.as_slice(), defs, here, shell)?;
            run_for(
                alloc,
                body.get(),
                name,
                fields.as_slice(),
                defs,
                here,
                shell,
            )
        }
        Stmt::While { at, cond, body } => {
            run_while(alloc, cond.get(), body.get(), *at, defs, place, shell)
        }
        Stmt::Case { at, subject, arms } => {
            let here = Place { at: *at, ..place };
            let text = run_short(alloc, subject, defs, here, shell)?;
            run_case(alloc, arms.as_slice(), text.as_slice(), defs, here, shell)
        }
        Stmt::Sub { at, body } => {
            run_sub(alloc, body.get(), defs, place, shell)?;
            checked(Place { at: *at, ..place }, shell)
        }
        Stmt::Quiet(body) => {
            let captured = mem::replace(&mut shell.conc.captured, None);
            let ran = run_stmt(alloc, body.get(), defs, place, shell);
            shell.conc.captured = captured;
            ran
        }
        Stmt::Err { at, body } => {
            let here = Place { at: *at, ..place };
            if shell.conc.captured.is_some() {
                return Err(here.stop(Reason::Message));
            }
            run_stmt(alloc, body.get(), defs, here, shell)
        }
        Stmt::Strict => {
            shell.conc.strict = true;
            shell.conc.status = true;
            Ok(())
        }
        Stmt::Lax => {
            shell.conc.strict = false;
            shell.conc.status = true;
            Ok(())
        }
        Stmt::Exit { at, fields } => {
            let here = Place { at: *at, ..place };
            run_leave(alloc, fields.as_slice(), Leave::Exited, defs, here, shell)
        }
        Stmt::Return { at, fields } => {
            let here = Place { at: *at, ..place };
            run_leave(alloc, fields.as_slice(), Leave::Returned, defs, here, shell)
        }
        Stmt::Break => {
            shell.conc.status = true;
            Err(Halt::Left(Leave::Broke))
        }
        Stmt::Continue => {
            shell.conc.status = true;
            Err(Halt::Left(Leave::Continued))
        }
        Stmt::Export { at, fields } => {
            run_export(alloc, fields.as_slice(), *at, defs, place, shell)
        }
        Stmt::Unset { at, fields } => {
            run_unset(alloc, fields.as_slice(), *at, defs, place, shell)
        }
        Stmt::Stop { at, reason } => {
            let here = Place { at: *at, ..place };
            Err(here.stop(*reason))
        }
    }
}

// Runs statements, one after another.
#[cycle(executing)]
fn run_all(
    alloc: Global,
    stmts: &[Stmt],
    defs: &[Def],
    place: Place,
    shell: &mut Shell,
) -> Result<(), Halt>
    ensures turns { shell.new.conc.turns ≤ shell.old.conc.turns }
    ensures runs { let f = funs_of defs.now [] in
        let all = rule.do_all (with f (map co_stmt stmts.now)) in
        Runs (all (place_of place.entry) (state_of shell.old)) result shell.new }
{
    if stmts.is_empty() {
        shell.conc.status = true;
        return Ok(());
    }
    for stmt in stmts {
        run_stmt(alloc, stmt, defs, place, shell)?;
    }
    Ok(())
}

// Runs the further members of an and-or list; a failure of any but the last is excepted.
#[cycle(executing)]
fn run_links(
    alloc: Global,
    links: &[ChainPart],
    defs: &[Def],
    place: Place,
    shell: &mut Shell,
) -> Result<(), Halt>
    ensures turns { shell.new.conc.turns ≤ shell.old.conc.turns }
    ensures runs { let f = funs_of defs.now [] in
        let further = rule.do_links (with f (map co_link links.now)) in
        Runs (further (place_of place.entry) (state_of shell.old)) result shell.new }
{
    let mut left = links.len();
    for link in links {
        left -= 1;
        if link.and == shell.conc.status {
            if left == 0 {
                return run_stmt(alloc, &link.stmt, defs, place, shell);
            }
            run_stmt(
                alloc,
                &link.stmt,
                defs,
                Place {
                    excepted: true,
                    ..place
                },
                shell,
            )?;
        }
    }
    Ok(())
}

// Runs the body behind the first condition that succeeds, or the last branch.
#[cycle(executing)]
fn run_arms(
    alloc: Global,
    arms: &[StmtArm],
    last: &Stmt,
    defs: &[Def],
    place: Place,
    shell: &mut Shell,
) -> Result<(), Halt>
    ensures turns { shell.new.conc.turns ≤ shell.old.conc.turns }
    ensures runs { let f = funs_of defs.now [] in
        let chosen = rule.do_if (with f (map co_arm arms.now)) (co_stmt last.now f) in
        Runs (chosen (place_of place.entry) (state_of shell.old)) result shell.new }
{
    for arm in arms {
        run_stmt(
            alloc,
            &arm.cond,
            defs,
            Place {
                excepted: true,
                ..place
            },
            shell,
        )?;
        if shell.conc.status {
            return run_stmt(alloc, &arm.body, defs, place, shell);
        }
    }
    run_stmt(alloc, last, defs, place, shell)
}

// Runs a body for each field.
#[cycle(executing)]
fn run_for(
    alloc: Global,
    body: &Stmt,
    name: &Bytes,
    fields: &[Bytes],
    defs: &[Def],
    place: Place,
    shell: &mut Shell,
) -> Result<(), Halt>
    ensures turns { shell.new.conc.turns ≤ shell.old.conc.turns }
    ensures runs { let b = co_stmt body.now (funs_of defs.now []) in
        let begun = success_if_none fields.now (state_of shell.old) in
        Runs (loops.for_each name.now b fields.now (place_of place.entry) begun) result shell.new }
{
    if fields.is_empty() {
        shell.conc.status = true;
        return Ok(());
    }
    for field in fields {
        take_turn(place, shell)?;
        let value = field.copy(alloc)?;
        assign(name.as_slice(), value, shell)?;
        let ran = run_stmt(alloc, body, defs, place, shell);
        if !behind_body(ran)? {
            return Ok(());
        }
    }
    Ok(())
}

// Runs a body while a condition holds.
#[cycle(executing)]
fn run_while(
    alloc: Global,
    cond: &Stmt,
    body: &Stmt,
    at: u32,
    defs: &[Def],
    place: Place,
    shell: &mut Shell,
) -> Result<(), Halt>
    ensures turns { shell.new.conc.turns ≤ shell.old.conc.turns }
    ensures runs { let f = funs_of defs.now [] in
        Runs (loops.do_while at (co_stmt cond.now f) (co_stmt body.now f) (place_of place.entry) (state_of shell.old))
        result shell.new }
{
    let here = Place { at, ..place };
    let mut last = true;
    'rounds: loop {
        let met = run_stmt(
            alloc,
            cond,
            defs,
            Place {
                excepted: true,
                ..here
            },
            shell,
        );
        match behind_condition(met, shell.conc.status)? {
            Behind::Ends => {
                shell.conc.status = last;
                return Ok(());
            }
            Behind::Again => take_turn(here, shell)?,
            Behind::Holds => {
                take_turn(here, shell)?;
                let ran = run_stmt(alloc, body, defs, here, shell);
                if !behind_body(ran)? {
                    return Ok(());
                }
                last = shell.conc.status;
            }
        }
    }
}

// Runs the body of the first arm with a pattern that matches.
#[cycle(executing)]
fn run_case(
    alloc: Global,
    arms: &[PatArm],
    subject: &[u8],
    defs: &[Def],
    place: Place,
    shell: &mut Shell,
) -> Result<(), Halt>
    ensures turns { shell.new.conc.turns ≤ shell.old.conc.turns }
    ensures runs { let arms = with (funs_of defs.now []) (map co_case_arm arms.now) in
        Runs (cases.first_arm subject.now arms (place_of place.entry) (state_of shell.old)) result shell.new }
{
    for arm in arms {
        if run_patterns(alloc, arm.patterns.as_slice(), subject, defs, place, shell)? {
            return run_stmt(alloc, &arm.body, defs, place, shell);
        }
    }
    shell.conc.status = true;
    Ok(())
}

// Whether one of the patterns matches.
#[cycle(executing)]
fn run_patterns(
    alloc: Global,
    patterns: &[List<StrPiece>],
    subject: &[u8],
    defs: &[Def],
    place: Place,
    shell: &mut Shell,
) -> Result<bool, Halt>
    ensures turns { shell.new.conc.turns ≤ shell.old.conc.turns }
    ensures runs { let all = map (pieces_with (funs_of defs.now [])) (map (λ pieces. map co_piece pieces) patterns.now) in
        Runs (cases.some_pattern subject.now all (place_of place.entry) (state_of shell.old)) result shell.new }
{
    for pattern in patterns {
        let pieces = run_pieces(alloc, pattern.as_slice(), defs, place, shell)?;
        if pattern_answer(alloc, &pieces, subject, place)? {
            return Ok(true);
        }
    }
    Ok(false)
}

// Runs a statement in a subshell.
#[cycle(executing)]
fn run_sub(
    alloc: Global,
    body: &Stmt,
    defs: &[Def],
    place: Place,
    shell: &mut Shell,
) -> Result<(), Halt>
    ensures turns { shell.new.conc.turns ≤ shell.old.conc.turns }
    ensures runs { let s = state_of shell.old in
        let ran = co_stmt body.now (funs_of defs.now []) (place_of place.entry) s in
        Runs (closed_off by_exit no_value (rule.after_subshell s) ran) result shell.new }
{
    let outer = shell.conc.vars.copy(alloc)?;
    let args = shell.conc.args.copy(alloc)?;
    let strict = shell.conc.strict;
    let ran = run_stmt(alloc, body, defs, place, shell);
    shell.conc.vars = outer;
    shell.conc.args = args;
    shell.conc.strict = strict;
    ended_by_exit(ran)
}

// Runs assignments.
#[cycle(executing)]
fn run_set(
    alloc: Global,
    sets: &[SetTo],
    at: u32,
    defs: &[Def],
    place: Place,
    shell: &mut Shell,
) -> Result<(), Halt>
    ensures turns { shell.new.conc.turns ≤ shell.old.conc.turns }
    ensures runs { let f = funs_of defs.now [] in
        let set = calls.do_set at (with f (map co_set sets.now)) in
        Runs (set (place_of place.entry) (state_of shell.old)) result shell.new }
{
    let here = Place { at, ..place };
    shell.substituted = true;
    for set in sets {
        let text = run_short(alloc, &set.value, defs, here, shell)?;
        assign(set.name.as_slice(), text, shell)?;
    }
    shell.conc.status = shell.substituted;
    checked(here, shell)
}

// Runs a command that is no call of a function.
#[cycle(executing)]
fn run_call(
    alloc: Global,
    words: &[Fields],
    at: u32,
    defs: &[Def],
    place: Place,
    shell: &mut Shell,
) -> Result<(), Halt>
    ensures turns { shell.new.conc.turns ≤ shell.old.conc.turns }
    ensures runs { let f = funs_of defs.now [] in
        let words = map co_fields words.now in
        let does = calls.do_call at (are_static words) (fields_with f words) in
        Runs (does (place_of place.entry) (state_of shell.old)) result shell.new }
{
    let here = Place { at, ..place };
    shell.substituted = true;
    let fields = run_fields(alloc, words, defs, here, shell)?;
    call_utility(alloc, spelled_by(words), &fields, here, shell)?;
    checked(here, shell)
}

// Runs a function.
#[cycle(executing)]
fn run_function(
    alloc: Global,
    words: &[Fields],
    name: &Bytes,
    at: u32,
    defs: &[Def],
    place: Place,
    shell: &mut Shell,
) -> Result<(), Halt>
    ensures turns { shell.new.conc.turns ≤ shell.old.conc.turns }
    ensures runs { let f = funs_of defs.now [] in
        let words = fields_with f (map co_fields words.now) in
        Runs (calls.do_function at (calls.found name.now f) words (place_of place.entry) (state_of shell.old))
        result shell.new }
{
    let here = Place { at, ..place };
    let fields = run_fields(alloc, words, defs, here, shell)?;
    run_body(alloc, name, fields, defs, here, shell)?;
    checked(here, shell)
}

// Runs the body of a function with these arguments; the arguments that it finds are put back.
#[cycle(executing)]
fn run_body(
    alloc: Global,
    name: &Bytes,
    fields: List<Bytes>,
    defs: &[Def],
    place: Place,
    shell: &mut Shell,
) -> Result<(), Halt>
    ensures turns { shell.new.conc.turns ≤ shell.old.conc.turns }
    ensures runs { let body = calls.found name.now (funs_of defs.now []) in
        Runs (calls.do_body body fields (place_of place.entry) (state_of shell.old)) result shell.new }
{
    match find(defs, name) {
        None => Err(place.stop(Reason::Call)),
        Some(i) => {
            let found = mem::replace(&mut shell.conc.args, fields);
            let ran = run_stmt(alloc, &defs[i].body, &defs[..i], place, shell);
            shell.conc.args = found;
            ended_by_return(ran)
        }
    }
}

// The last function of that name.
fn find(defs: &[Def], name: &Bytes) -> Option<usize>
    ensures within { IfSome result (λ i. i < length defs.now) }
    ensures some { IfSome result (λ i. (d : DefRecord) → calls.found name.now (funs_of defs.now [])
        ≡ Some (co_stmt (get_or defs.now i d).body (funs_of (take i defs.now) []))) }
    ensures none { IfNone result (calls.found name.now (funs_of defs.now []) ≡ None) }
{
    let mut end = defs.len();
    while end > 0 {
        end -= 1;
        if defs[end].name.equal(name) {
            return Some(end);
        }
    }
    None
}

// Leaves what stands round the command.
#[cycle(executing)]
fn run_leave(
    alloc: Global,
    words: &[Fields],
    how: Leave,
    defs: &[Def],
    place: Place,
    shell: &mut Shell,
) -> Result<(), Halt>
    ensures turns { shell.new.conc.turns ≤ shell.old.conc.turns }
    ensures runs { let words = fields_with (funs_of defs.now []) (map co_fields words.now) in
        Runs (calls.do_leave how words (place_of place.entry) (state_of shell.old)) result shell.new }
{
    let fields = run_fields(alloc, words, defs, place, shell)?;
    leave_with(how, fields.as_slice(), place, shell)
}

// Runs `export`.
#[cycle(executing)]
fn run_export(
    alloc: Global,
    words: &[Fields],
    at: u32,
    defs: &[Def],
    place: Place,
    shell: &mut Shell,
) -> Result<(), Halt>
    ensures turns { shell.new.conc.turns ≤ shell.old.conc.turns }
    ensures runs { let words = fields_with (funs_of defs.now []) (map co_fields words.now) in
        Runs (calls.do_export at words (place_of place.entry) (state_of shell.old)) result shell.new }
{
    let here = Place { at, ..place };
    let fields = run_fields(alloc, words, defs, here, shell)?;
    export_each(alloc, fields.as_slice(), here, shell)?;
    shell.conc.status = true;
    Ok(())
}

// Runs `unset`.
#[cycle(executing)]
fn run_unset(
    alloc: Global,
    words: &[Fields],
    at: u32,
    defs: &[Def],
    place: Place,
    shell: &mut Shell,
) -> Result<(), Halt>
    ensures turns { shell.new.conc.turns ≤ shell.old.conc.turns }
    ensures runs { let words = fields_with (funs_of defs.now []) (map co_fields words.now) in
        Runs (calls.do_unset at words (place_of place.entry) (state_of shell.old)) result shell.new }
{
    let here = Place { at, ..place };
    let fields = run_fields(alloc, words, defs, here, shell)?;
    unset_each(fields.as_slice(), here, shell)?;
    shell.conc.status = true;
    Ok(())
}

// The fields of some words.
#[cycle(executing)]
fn run_fields(
    alloc: Global,
    words: &[Fields],
    defs: &[Def],
    place: Place,
    shell: &mut Shell,
) -> Result<List<Bytes>, Halt>
    ensures turns { shell.new.conc.turns ≤ shell.old.conc.turns }
    ensures runs { let words = fields_with (funs_of defs.now []) (map co_fields words.now) in
        Runs (word.do_fields words (place_of place.entry) (state_of shell.old)) result shell.new }
{
    let mut fields = List::new(alloc);
    for one in words {
        let more = run_word(alloc, one, defs, place, shell)?;
        append(alloc, &mut fields, &more)?;
    }
    Ok(fields)
}

// The fields of one word, or all arguments.
#[cycle(executing)]
fn run_word(
    alloc: Global,
    word: &Fields,
    defs: &[Def],
    place: Place,
    shell: &mut Shell,
) -> Result<List<Bytes>, Halt>
    ensures turns { shell.new.conc.turns ≤ shell.old.conc.turns }
    ensures runs { let does = (co_fields word.now).fields (funs_of defs.now []) in
        Runs (does (place_of place.entry) (state_of shell.old)) result shell.new }
{
    match word {
        Fields::Word(pieces) => {
            let parts = run_pieces(alloc, pieces.as_slice(), defs, place, shell)?;
            match cut_fields(alloc, &parts) {
                Ok(fields) => Ok(fields),
                Err(fault) => Err(halt_of(fault, place)),
            }
        }
        Fields::Args => Ok(shell.conc.args.copy(alloc)?),
    }
}

// The pieces of a word.
#[cycle(executing)]
fn run_pieces(
    alloc: Global,
    pieces: &[StrPiece],
    defs: &[Def],
    place: Place,
    shell: &mut Shell,
) -> Result<List<Piece>, Halt>
    ensures turns { shell.new.conc.turns ≤ shell.old.conc.turns }
    ensures runs { let pieces = pieces_with (funs_of defs.now []) (map co_piece pieces.now) in
        Runs (word.do_pieces pieces (place_of place.entry) (state_of shell.old)) result shell.new }
{
    let mut parts = List::new(alloc);
    for piece in pieces {
        let part = run_piece(alloc, piece, defs, place, shell)?;
        parts.add(part)?;
    }
    Ok(parts)
}

// A piece of a word.
#[cycle(executing)]
fn run_piece(
    alloc: Global,
    piece: &StrPiece,
    defs: &[Def],
    place: Place,
    shell: &mut Shell,
) -> Result<Piece, Halt>
    ensures turns { shell.new.conc.turns ≤ shell.old.conc.turns }
    ensures runs { let does = (co_piece piece.now).piece (funs_of defs.now []) in
        Runs (does (place_of place.entry) (state_of shell.old)) result shell.new }
{
    match piece {
        StrPiece::Plain(string) => {
            let text = run_str(alloc, string, defs, place, shell)?;
            Ok(Piece::plain(text))
        }
        StrPiece::Quoted(string) => {
            let text = run_str(alloc, string, defs, place, shell)?;
            Ok(Piece::quoted(text))
        }
        StrPiece::Split(string) => {
            let text = run_str(alloc, string, defs, place, shell)?;
            Ok(Piece::split(text))
        }
    }
}

// A string of at most 65,536 bytes.
#[cycle(executing)]
fn run_short(
    alloc: Global,
    string: &Str,
    defs: &[Def],
    place: Place,
    shell: &mut Shell,
) -> Result<Bytes, Halt>
    ensures turns { shell.new.conc.turns ≤ shell.old.conc.turns }
    ensures runs { let string = (co_str string.now).value (funs_of defs.now []) in
        Runs (word.do_short string (place_of place.entry) (state_of shell.old)) result shell.new }
{
    let text = run_str(alloc, string, defs, place, shell)?;
    short(text, place)
}

// A string.
#[cycle(executing)]
fn run_str(
    alloc: Global,
    string: &Str,
    defs: &[Def],
    place: Place,
    shell: &mut Shell,
) -> Result<Bytes, Halt>
    ensures turns { shell.new.conc.turns ≤ shell.old.conc.turns }
    ensures runs { let does = (co_str string.now).value (funs_of defs.now []) in
        Runs (does (place_of place.entry) (state_of shell.old)) result shell.new }
{
    match string {
        Str::Lit(bytes) => Ok(bytes.copy(alloc)?),
        Str::Var(name) => variable(alloc, name.as_slice(), place, shell),
        Str::Arg(number) => argument(alloc, *number, place, shell),
        Str::Count => count(alloc, place, shell),
        Str::Or(first, other) => {
            let text = run_str(alloc, first.get(), defs, place, shell)?;
            if text.len() == 0 {
                return Ok(other.copy(alloc)?);
            }
            Ok(text)
        }
        Str::Output(body) => run_output(alloc, body.get(), defs, place, shell),
        Str::Join(parts) => run_join(alloc, parts.as_slice(), defs, place, shell),
    }
}

// Strings, one behind the other.
#[cycle(executing)]
fn run_join(
    alloc: Global,
    parts: &[Str],
    defs: &[Def],
    place: Place,
    shell: &mut Shell,
) -> Result<Bytes, Halt>
    ensures turns { shell.new.conc.turns ≤ shell.old.conc.turns }
    ensures runs { let parts = values_with (funs_of defs.now []) (map co_str parts.now) in
        Runs (word.do_join parts (place_of place.entry) (state_of shell.old)) result shell.new }
{
    let mut text = Bytes::new(alloc);
    for part in parts {
        let more = run_str(alloc, part, defs, place, shell)?;
        text.extend(more.as_slice())?;
    }
    Ok(text)
}

// What a statement writes, without the newlines at its end.
#[cycle(executing)]
fn run_output(
    alloc: Global,
    body: &Stmt,
    defs: &[Def],
    place: Place,
    shell: &mut Shell,
) -> Result<Bytes, Halt>
    ensures turns { shell.new.conc.turns ≤ shell.old.conc.turns }
    ensures runs { let body = co_stmt body.now (funs_of defs.now []) in
        Runs (word.do_output body (place_of place.entry) (state_of shell.old)) result shell.new }
{
    let vars = shell.conc.vars.copy(alloc)?;
    let args = shell.conc.args.copy(alloc)?;
    let premises = shell.conc.premises.fork()?;
    let strict = shell.conc.strict;
    let status = shell.conc.status;
    let captured = mem::replace(&mut shell.conc.captured, Some(Bytes::new(alloc)));
    let inside = Place {
        excepted: false,
        inner: true,
        ..place
    };
    let ran = run_stmt(alloc, body, defs, inside, shell);
    shell.substituted = shell.conc.status;
    let written = mem::replace(&mut shell.conc.captured, captured);
    shell.conc.vars = vars;
    shell.conc.args = args;
    shell.conc.premises = premises;
    shell.conc.strict = strict;
    shell.conc.status = status;
    ended_by_exit(ran)?;
    Ok(trimmed(alloc, written))
}
