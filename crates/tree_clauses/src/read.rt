ghost use Rattle.std.specs.Prelude.{◌≡◌, [], ◌∷◌, Some, IfOk, map};
ghost use Rattle.std.specs.Str.{bytes_eq};
ghost use Rattle.shown_texts.specs.Paths.{name_of};
ghost use Rattle.tree_clauses.specs.ClauseText.{head_content};
ghost use Rattle.tree_clauses.specs.Cuts.{pieces, ends_word};
ghost use Rattle.tree_clauses.specs.ClauseRead.{var_of, names_of, has_word, kinds_of_words, kinds_of, entry_of, similar_of};
ghost use Rattle.tree_clauses.specs.ClauseRead.{kind_of, fence_of, target_of, literal_of, literals_onto, headed};
ghost use Rattle.tree_clauses.specs.ClauseRead.{lines_clause, clause_of, ReadsClause};
ghost use Rattle.tree_clauses.specs.ClauseRead.{tells_literal, tell_literals, tell_clause, tells};

use crate::clause::{Clause, Literal, Var};
use crate::cuts::{line_pieces, member_pieces, word_pieces};
use crate::first::is_first_literal;
use crate::text::{print_head, print_literal};
use feature_trees::{Kinds, Version};
use script_names::{Copied, List, Memory, Name, NameFault};
use shown_texts::{read_lines as text_lines, read_number, read_shown};
use std::alloc::Global;

/// Why a text gave no clause.
#[derive(Clone, Copy, Debug, PartialEq, Eq)]
pub enum ClauseFault {
    /// The text tells no clause.
    Bad,
    Memory,
}

impl Copied for ClauseFault {
    fn copy(&self, _alloc: Global) -> Result<ClauseFault, Memory> {
        Ok(*self)
    }
}

impl From<Memory> for ClauseFault {
    ghost use Rattle.std.specs.Prelude.{◌≡◌};
    ghost use Rattle.tree_clauses.specs.declared.read.ClauseFault.TheVariants.{Memory as NoMemory};

    ghost from_gives = { λ _ fault. fault ≡ NoMemory };

    fn from(_refused: Memory) -> ClauseFault {
        ClauseFault::Memory
    }
}

fn read_var(word: &[u8]) -> Option<Var>
    ensures { result ≡ var_of word.now }
{
    match word {
        [] => None,
        [_, digits @ ..] => match read_number(digits, u32::MAX) {
            Some(n) => Some(Var(n)),
            None => None,
        },
    }
}

fn read_name(alloc: Global, piece: &[u8]) -> Result<Option<Name>, Memory>
    ensures { IfOk result (λ found. found ≡ name_of piece.now) }
{
    let bytes = match read_shown(alloc, piece)? {
        Some(bytes) => bytes,
        None => return Ok(None),
    };
    match Name::read(alloc, bytes.as_slice()) {
        Ok(name) => Ok(Some(name)),
        Err(NameFault::Bad) => Ok(None),
        Err(NameFault::Memory) => Err(Memory),
    }
}

fn read_names(alloc: Global, text: &[u8]) -> Result<Option<List<Name>>, Memory>
    ensures { IfOk result (λ found. found ≡ names_of text.now) }
{
    let pieces = member_pieces(alloc, text)?;
    let mut names = List::new(alloc);
    for piece in &pieces {
        match read_name(alloc, piece)? {
            Some(name) => names.add(name)?,
            None => return Ok(None),
        }
    }
    Ok(Some(names))
}

// Whether some member of a list is the word.
fn has_word(pieces: &[&[u8]], word: &[u8]) -> bool
    ensures { result ≡ has_word (map (λ piece. piece.now) pieces.now) word.now }
{
    for piece in pieces {
        if *piece == word {
            return true;
        }
    }
    false
}

// The set of kinds of these words.
fn kinds_of_words(pieces: &[&[u8]]) -> Kinds
    ensures { result ≡ kinds_of_words (map (λ piece. piece.now) pieces.now) }
{
    let other = has_word(pieces, b"other");
    Kinds {
        absent: has_word(pieces, b"absent"),
        reg: has_word(pieces, b"reg"),
        link: has_word(pieces, b"link"),
        fifo: other || has_word(pieces, b"fifo"),
        socket: other || has_word(pieces, b"socket"),
        block: other || has_word(pieces, b"block"),
        char: other || has_word(pieces, b"char"),
        dir: has_word(pieces, b"dir"),
    }
}

fn read_kinds(alloc: Global, text: &[u8]) -> Result<Kinds, Memory>
    ensures { IfOk result (λ found. found ≡ kinds_of text.now) }
{
    let pieces = member_pieces(alloc, text)?;
    Ok(kinds_of_words(&pieces))
}

fn read_entry(alloc: Global, x: &[u8], f: &[u8], y: &[u8]) -> Result<Option<Literal>, Memory>
    ensures { IfOk result (λ found. found ≡ entry_of x.now f.now y.now) }
{
    let x = match read_var(x) {
        Some(x) => x,
        None => return Ok(None),
    };
    let f = match read_name(alloc, f)? {
        Some(f) => f,
        None => return Ok(None),
    };
    match read_var(y) {
        Some(y) => Ok(Some(Literal::Entry(x, f, y))),
        None => Ok(None),
    }
}

fn read_similar(alloc: Global, y: &[u8], names: &[u8], x: &[u8]) -> Result<Option<Literal>, Memory>
    ensures { IfOk result (λ found. found ≡ similar_of y.now names.now x.now) }
{
    let y = match read_var(y) {
        Some(y) => y,
        None => return Ok(None),
    };
    let names = match read_names(alloc, names)? {
        Some(names) => names,
        None => return Ok(None),
    };
    match read_var(x) {
        Some(x) => Ok(Some(Literal::Similar(y, names, x))),
        None => Ok(None),
    }
}

fn read_kind(alloc: Global, x: &[u8], set: &[u8]) -> Result<Option<Literal>, Memory>
    ensures { IfOk result (λ found. found ≡ kind_of x.now set.now) }
{
    let x = match read_var(x) {
        Some(x) => x,
        None => return Ok(None),
    };
    let set = read_kinds(alloc, set)?;
    Ok(Some(Literal::Kind(x, set)))
}

fn read_fence(alloc: Global, x: &[u8], names: &[u8]) -> Result<Option<Literal>, Memory>
    ensures { IfOk result (λ found. found ≡ fence_of x.now names.now) }
{
    let x = match read_var(x) {
        Some(x) => x,
        None => return Ok(None),
    };
    match read_names(alloc, names)? {
        Some(names) => Ok(Some(Literal::Fence(x, names))),
        None => Ok(None),
    }
}

fn read_target(alloc: Global, x: &[u8], target: &[u8]) -> Result<Option<Literal>, Memory>
    ensures { IfOk result (λ found. found ≡ target_of x.now target.now) }
{
    let x = match read_var(x) {
        Some(x) => x,
        None => return Ok(None),
    };
    match read_shown(alloc, target)? {
        Some(target) => Ok(Some(Literal::Target(x, target))),
        None => Ok(None),
    }
}

// The literal of a line of three words.
fn read_three(alloc: Global, word: &[u8], x: &[u8], f: &[u8]) -> Result<Option<Literal>, Memory>
    ensures { IfOk result (λ found. found ≡ literal_of (word.now ∷ x.now ∷ f.now ∷ [])) }
{
    if word == b"kind".as_slice() {
        return read_kind(alloc, x, f);
    }
    if word == b"fence".as_slice() {
        return read_fence(alloc, x, f);
    }
    read_target(alloc, x, f)
}

// The literal of a line of four words.
fn read_four(
    alloc: Global,
    word: &[u8],
    x: &[u8],
    f: &[u8],
    y: &[u8],
) -> Result<Option<Literal>, Memory>
    ensures { IfOk result (λ found. found ≡ literal_of (word.now ∷ x.now ∷ f.now ∷ y.now ∷ [])) }
{
    if word == b"entry".as_slice() {
        return read_entry(alloc, x, f, y);
    }
    read_similar(alloc, x, f, y)
}

// The literal of a line with these words.
fn read_words(alloc: Global, words: &[&[u8]]) -> Result<Option<Literal>, Memory>
    ensures { IfOk result (λ found. found ≡ literal_of (map (λ word. word.now) words.now)) }
{
    match words {
        [_, x] => match read_var(x) {
            Some(x) => Ok(Some(Literal::NotEmpty(x))),
            None => Ok(None),
        },
        [word, x, f] => read_three(alloc, word, x, f),
        [word, x, f, y] => read_four(alloc, word, x, f, y),
        [] => Ok(None),
        [_] => Ok(None),
        [_, _, _, _, _, ..] => Ok(None),
    }
}

fn read_literal(alloc: Global, line: &[u8]) -> Result<Option<Literal>, Memory>
    ensures { IfOk result (λ found. found ≡ literal_of (pieces ends_word line.now)) }
{
    let words = word_pieces(alloc, line)?;
    read_words(alloc, &words)
}

fn read_literals(alloc: Global, lines: &[&[u8]]) -> Result<Option<List<Literal>>, Memory>
    ensures { IfOk result (λ found. found ≡ literals_onto [] (map (λ line. line.now) lines.now)) }
{
    let mut literals = List::new(alloc);
    for line in lines {
        match read_literal(alloc, line)? {
            Some(literal) => literals.add(literal)?,
            None => return Ok(None),
        }
    }
    Ok(Some(literals))
}

// The clause of a head line with these words.
fn read_head(words: &[&[u8]], literals: List<Literal>) -> Option<Clause>
    ensures { result ≡ headed (map (λ word. word.now) words.now) literals }
{
    let (x, y) = match words {
        [_, _, x, _, y] => (x, y),
        _ => return None,
    };
    let start = match read_var(x) {
        Some(start) => start,
        None => return None,
    };
    match read_var(y) {
        Some(now) => Some(Clause {
            literals,
            start,
            now,
        }),
        None => None,
    }
}

// The clause of lines.
fn read_lines(alloc: Global, lines: &[&[u8]]) -> Result<Option<Clause>, Memory>
    ensures { IfOk result (λ found. found ≡ lines_clause (map (λ line. line.now) lines.now)) }
{
    let (head, rest) = match lines {
        [] => return Ok(None),
        [head, rest @ ..] => (head, rest),
    };
    let literals = match read_literals(alloc, rest)? {
        Some(literals) => literals,
        None => return Ok(None),
    };
    let words = word_pieces(alloc, head)?;
    Ok(read_head(&words, literals))
}

// What is read as a clause.
fn read_loosely(alloc: Global, text: &[u8]) -> Result<Option<Clause>, Memory>
    ensures { IfOk result (λ found. found ≡ clause_of text.now) }
{
    let lines = line_pieces(alloc, text)?;
    read_lines(alloc, &lines)
}

// Whether the line is the literal's, in one of the versions.
fn tells_literal(alloc: Global, literal: &Literal, line: &[u8]) -> Result<bool, Memory>
    ensures { IfOk result (λ told. told ≡ tells_literal literal.now line.now) }
{
    let second = print_literal(alloc, Version::Second, literal)?;
    if second.as_slice() == line {
        return Ok(true);
    }
    if !is_first_literal(literal) {
        return Ok(false);
    }
    let first = print_literal(alloc, Version::First, literal)?;
    Ok(first.as_slice() == line)
}

// Whether the lines are those of the literals.
fn tell_literals(alloc: Global, literals: &[Literal], lines: &[&[u8]]) -> Result<bool, Memory>
    ensures { IfOk result (λ told. told ≡ tell_literals literals.now (map (λ line. line.now) lines.now)) }
{
    if literals.len() != lines.len() {
        return Ok(false);
    }
    for at in 0..literals.len() {
        if !tells_literal(alloc, &literals[at], lines[at])? {
            return Ok(false);
        }
    }
    Ok(true)
}

// Whether the line is that of the clause's two variables.
fn tells_head(alloc: Global, clause: &Clause, line: &[u8]) -> Result<bool, Memory>
    ensures { IfOk result (λ told. told ≡ bytes_eq (head_content clause.entry.now) line.now) }
{
    let head = print_head(alloc, clause)?;
    Ok(head.as_slice() == line)
}

// Whether the lines are those of the clause.
fn tell_clause(alloc: Global, clause: &Clause, lines: &[&[u8]]) -> Result<bool, Memory>
    ensures { IfOk result (λ told. told ≡ tell_clause clause.entry.now (Some (map (λ line. line.now) lines.now))) }
{
    match lines {
        [] => Ok(false),
        [head, rest @ ..] => {
            if !tells_head(alloc, clause, head)? {
                return Ok(false);
            }
            tell_literals(alloc, clause.literals.as_slice(), rest)
        }
    }
}

// Whether the text tells the clause.
fn tells(alloc: Global, clause: &Clause, text: &[u8]) -> Result<bool, Memory>
    ensures { IfOk result (λ told. told ≡ tells clause.entry.now text.now) }
{
    match text_lines(alloc, text)? {
        None => Ok(false),
        Some(lines) => tell_clause(alloc, clause, &lines),
    }
}

/// The clause that this text tells: it has the line of the clause's two variables, and a line of each literal, in the
/// present version or in the first.
pub fn read_clause(alloc: Global, text: &[u8]) -> Result<Clause, ClauseFault>
    ensures { ReadsClause text.now result }
{
    let clause = match read_loosely(alloc, text) {
        Ok(Some(clause)) => clause,
        Ok(None) => return Err(ClauseFault::Bad),
        Err(_) => return Err(ClauseFault::Memory),
    };
    match tells(alloc, &clause, text) {
        Ok(true) => Ok(clause),
        Ok(false) => Err(ClauseFault::Bad),
        Err(_) => Err(ClauseFault::Memory),
    }
}
