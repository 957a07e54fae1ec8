ghost use Rattle.std.specs.Prelude.{◌≡◌, ◌++◌, ◌||◌, ◌∷◌, [], codes, IfOk, OnOk, OnErr, map, if◌then◌else◌};
ghost use Rattle.std.specs.List.{flat_map};
ghost use Rattle.feature_trees.specs.declared.version.Version.TheVariants.{Second};
ghost use Rattle.shown_texts.specs.Show.{show};
ghost use Rattle.tree_clauses.specs.ClauseText.{after_comma, var_text, names_text, chosen};
ghost use Rattle.tree_clauses.specs.ClauseText.{words_text, kinds_text, head_content};
ghost use Rattle.tree_clauses.specs.ClauseText.{literal_content, literal_text, clause_text};

use crate::clause::{Clause, Literal, Var};
use crate::first::has_all_special;
use feature_trees::{Kinds, Version};
use script_names::{Bytes, Memory, Name};
use shown_texts::{push_number, push_shown};
use std::alloc::Global;

/// The text of a clause: the line of its two variables, then one line per literal, in their order.
pub fn print_clause(alloc: Global, clause: &Clause) -> Result<Bytes, Memory>
    ensures { IfOk result (λ text. text ≡ clause_text Second clause.entry.now) }
{
    let mut text = print_head(alloc, clause)?;
    text.extend(b"\n")?;
    put_literals(&mut text, clause.literals.as_slice())?;
    Ok(text)
}

/// Adds the text of a clause to a text; for want of memory the text is as before.
pub fn put_clause(alloc: Global, text: &mut Bytes, clause: &Clause) -> Result<(), Memory>
    ensures ok { OnOk result (text.new ≡ text.old ++ clause_text Second clause.entry.now) }
    ensures kept { OnErr result (text.new ≡ text.old) }
{
    let more = print_clause(alloc, clause)?;
    text.extend(more.as_slice())
}

/// The line of a clause's two variables, without its newline.
pub(crate) fn print_head(alloc: Global, clause: &Clause) -> Result<Bytes, Memory>
    ensures { IfOk result (λ text. text ≡ head_content clause.entry.now) }
{
    let mut text = Bytes::new(alloc);
    put_var(&mut text, b"clause start ", clause.start)?;
    put_var(&mut text, b" now ", clause.now)?;
    Ok(text)
}

/// The text of a literal in a version, without the newline of its line.
pub fn print_literal(alloc: Global, version: Version, literal: &Literal) -> Result<Bytes, Memory>
    ensures { IfOk result (λ text. text ≡ literal_content version literal.now) }
{
    let mut text = Bytes::new(alloc);
    put_literal(&mut text, version, literal)?;
    Ok(text)
}

// Adds the lines of literals.
fn put_literals(text: &mut Bytes, literals: &[Literal]) -> Result<(), Memory>
    ensures { OnOk result (text.new ≡ text.old ++ flat_map (literal_text Second) literals.now) }
{
    for literal in literals {
        put_literal(text, Version::Second, literal)?;
        text.extend(b"\n")?;
    }
    Ok(())
}

// Adds a literal, without the newline of its line.
fn put_literal(text: &mut Bytes, version: Version, literal: &Literal) -> Result<(), Memory>
    ensures { OnOk result (text.new ≡ text.old ++ literal_content version literal.now) }
{
    match literal {
        Literal::Entry(x, f, y) => {
            put_first(text, b"entry ", *x)?;
            push_shown(text, f.as_slice())?;
            put_var(text, b" ", *y)
        }
        Literal::Kind(x, kinds) => {
            put_first(text, b"kind ", *x)?;
            put_kinds(text, version, *kinds)
        }
        Literal::Fence(x, names) => {
            put_first(text, b"fence ", *x)?;
            put_names(text, names.as_slice())
        }
        Literal::NotEmpty(x) => put_var(text, b"notempty ", *x),
        Literal::Similar(y, names, x) => {
            put_first(text, b"similar ", *y)?;
            put_names(text, names.as_slice())?;
            put_var(text, b" ", *x)
        }
        Literal::Target(x, target) => {
            put_first(text, b"target ", *x)?;
            push_shown(text, target.as_slice())
        }
    }
}

// Adds a variable behind a word, and a blank behind it.
fn put_first(text: &mut Bytes, word: &[u8], x: Var) -> Result<(), Memory>
    ensures { OnOk result (text.new ≡ text.old ++ (word.now ++ var_text x ++ codes " ")) }
{
    put_var(text, word, x)?;
    text.extend(b" ")
}

// Adds a variable behind a word.
fn put_var(text: &mut Bytes, word: &[u8], x: Var) -> Result<(), Memory>
    ensures { OnOk result (text.new ≡ text.old ++ (word.now ++ var_text x)) }
{
    text.extend(word)?;
    text.extend(b"v")?;
    push_number(text, u64::from(x.0))
}

// Adds a set of names.
fn put_names(text: &mut Bytes, names: &[Name]) -> Result<(), Memory>
    ensures { OnOk result (text.new ≡ text.old ++ names_text names.now) }
{
    text.extend(b"{")?;
    match names {
        [] => {}
        [first, rest @ ..] => {
            push_shown(text, first.as_slice())?;
            put_others(text, rest)?;
        }
    }
    text.extend(b"}")
}

// Adds names, each after a comma.
fn put_others(text: &mut Bytes, names: &[Name]) -> Result<(), Memory>
    ensures { OnOk result (text.new ≡ text.old ++ flat_map after_comma (map show names.now)) }
{
    for name in names {
        text.extend(b",")?;
        push_shown(text, name.as_slice())?;
    }
    Ok(())
}

// Adds a set of kinds.
fn put_kinds(text: &mut Bytes, version: Version, kinds: Kinds) -> Result<(), Memory>
    ensures { OnOk result (text.new ≡ text.old ++ kinds_text version kinds) }
{
    match version {
        Version::First => put_words(
            text,
            &[
                (kinds.absent, b"absent".as_slice()),
                (kinds.reg, b"reg".as_slice()),
                (kinds.link, b"link".as_slice()),
                (has_all_special(kinds), b"other".as_slice()),
                (kinds.dir, b"dir".as_slice()),
            ],
        ),
        Version::Second => put_words(
            text,
            &[
                (kinds.absent, b"absent".as_slice()),
                (kinds.reg, b"reg".as_slice()),
                (kinds.link, b"link".as_slice()),
                (kinds.fifo, b"fifo".as_slice()),
                (kinds.socket, b"socket".as_slice()),
                (kinds.block, b"block".as_slice()),
                (kinds.char, b"char".as_slice()),
                (kinds.dir, b"dir".as_slice()),
            ],
        ),
    }
}

// Adds those of the words that are in the set, with a comma between each two, or `-` where none is.
fn put_words(text: &mut Bytes, words: &[(bool, &[u8])]) -> Result<(), Memory>
    ensures { OnOk result (text.new ≡ text.old ++ words_text (chosen (map (λ word. (word.0, word.1.now)) words.now))) }
{
    let mut some = false;
    for word in words {
        some = put_word(text, some, word.0, word.1)?;
    }
    if some {
        return Ok(());
    }
    text.extend(b"-")?;
    Ok(())
}

// Adds a word where it is in the set, after a comma where some word stands before it, and says whether one stands now.
fn put_word(text: &mut Bytes, some: bool, has: bool, word: &[u8]) -> Result<bool, Memory>
    ensures text { let said = if some then after_comma word.now else word.now in
        OnOk result (text.new ≡ text.old ++ (if has then said else [])) }
    ensures some { IfOk result (λ now. now ≡ some || has) }
{
    if !has {
        return Ok(some);
    }
    if some {
        text.extend(b",")?;
    }
    text.extend(word)?;
    Ok(true)
}
