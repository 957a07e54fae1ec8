//! A command's tree from those of its members.

ghost use Rattle.std.specs.Prelude.{◌≡◌, [], ◌∷◌, ◌++◌, length, IfOk};
ghost use Rattle.shell_grammar.specs.Trees.{seq_of as seq_tree, chain_of as chain_tree, pipe_of as pipe_tree};
ghost use Rattle.shell_grammar.specs.Trees.{if_arm};
ghost use Rattle.shell_syntax.specs.declared.syntax.Part.TheVariants.{Param};
ghost use Rattle.shell_syntax.specs.declared.syntax.Command.TheVariants.{Define};
ghost use Rattle.shell_grammar.specs.Trees.{redirected as redirected_tree, simple as simple_tree};
ghost use Rattle.shell_grammar.specs.Trees.{no_items as no_items_of, an_assign, a_word, a_redirect, joined};
ghost use Rattle.shell_grammar.specs.Trees.{word_text as word_text_of};

use script_names::{Boxed, Bytes, Copied, List, Memory};
use shell_grammar::Items;
use shell_syntax::{Assign, Command, IfArm, Key, Link, Part, Redirect, Word, with_if_arm};
use std::alloc::Global;

/// The one command of a list.
fn only(trees: List<Command>) -> Command
    requires { length trees ≡ 1 }
    ensures { trees ≡ result ∷ [] }
{
    match trees.into_vec().pop() {
        Some(tree) => tree,
        None => unreachable!(),
    }
}

/// A list of commands; one command is itself.
pub fn seq_of(alloc: Global, trees: List<Command>) -> Result<Boxed<Command>, Memory>
    ensures { IfOk result (λ tree. tree ≡ seq_tree trees) }
{
    if trees.len() == 1 {
        return Ok(Boxed::new(alloc, only(trees))?);
    }
    Ok(Boxed::new(alloc, Command::Seq(trees))?)
}

/// A pipeline; one command is itself.
pub fn pipe_of(alloc: Global, at: u32, trees: List<Command>) -> Result<Boxed<Command>, Memory>
    ensures { IfOk result (λ tree. tree ≡ pipe_tree at trees) }
{
    if trees.len() == 1 {
        return Ok(Boxed::new(alloc, only(trees))?);
    }
    Ok(Boxed::new(alloc, Command::Pipe { at, parts: trees })?)
}

/// A command with those behind `&&` and `||`.
pub fn chain_of(
    alloc: Global,
    first: Boxed<Command>,
    rest: List<Link>,
) -> Result<Boxed<Command>, Memory>
    ensures { IfOk result (λ tree. tree ≡ chain_tree first rest) }
{
    if rest.len() == 0 {
        return Ok(first);
    }
    Ok(Boxed::new(alloc, Command::Chain { first, rest })?)
}

/// A command under redirections.
pub fn redirected(
    alloc: Global,
    at: u32,
    body: Boxed<Command>,
    redirects: List<Redirect>,
) -> Result<Boxed<Command>, Memory>
    ensures { IfOk result (λ tree. tree ≡ redirected_tree at body redirects) }
{
    if redirects.len() == 0 {
        return Ok(body);
    }
    Ok(Boxed::new(
        alloc,
        Command::Redirected {
            at,
            body,
            redirects,
        },
    )?)
}

/// A simple command.
pub fn simple_of(alloc: Global, at: u32, items: Items) -> Result<Boxed<Command>, Memory>
    ensures { IfOk result (λ tree. tree ≡ simple_tree at items) }
{
    let Items {
        assigns,
        words,
        redirects,
    } = items;
    let body = Boxed::new(alloc, Command::Simple { at, assigns, words })?;
    Ok(redirected(alloc, at, body, redirects)?)
}

/// One command, in a list with room for so many.
pub fn one_command(
    alloc: Global,
    room: usize,
    tree: Boxed<Command>,
) -> Result<List<Command>, Memory>
    ensures { IfOk result (λ all. all ≡ tree ∷ []) }
{
    let mut all = List::with_room(alloc, room)?;
    all.add(tree.into_inner())?;
    Ok(all)
}

/// One arm of an `if`.
pub fn one_if_arm(
    alloc: Global,
    cond: Boxed<Command>,
    body: Boxed<Command>,
) -> Result<List<IfArm>, Memory>
    ensures { IfOk result (λ all. all ≡ if_arm cond body ∷ []) }
{
    let none = List::with_room(alloc, 1)?;
    Ok(with_if_arm(none, cond, body)?)
}

/// No items, with room for so many words.
pub fn no_items(alloc: Global, words: usize) -> Result<Items, Memory>
    ensures { IfOk result (λ none. none ≡ no_items_of) }
{
    let words = List::with_room(alloc, words)?;
    Ok(Items {
        assigns: List::new(alloc),
        words,
        redirects: List::new(alloc),
    })
}

/// A word, in a list with room for one.
pub fn one_word(alloc: Global, word: Word) -> Result<List<Word>, Memory>
    ensures { IfOk result (λ all. all ≡ word ∷ []) }
{
    let mut all = List::with_room(alloc, 1)?;
    all.add(word)?;
    Ok(all)
}

/// A word as the one item, with room for so many words.
pub fn first_item(alloc: Global, room: usize, word: Word) -> Result<Items, Memory>
    ensures { IfOk result (λ items. items ≡ joined no_items_of (a_word word)) }
{
    let none = no_items(alloc, room)?;
    Ok(with_word(none, word)?)
}

/// The items of a simple command, and an assignment behind them.
pub fn with_assign(items: Items, assign: Assign) -> Result<Items, Memory>
    ensures { IfOk result (λ all. all ≡ joined items (an_assign assign)) }
{
    let mut all = items;
    all.assigns.add(assign)?;
    Ok(all)
}

/// The items of a simple command, and a word behind them.
pub fn with_word(items: Items, word: Word) -> Result<Items, Memory>
    ensures { IfOk result (λ all. all ≡ joined items (a_word word)) }
{
    let mut all = items;
    all.words.add(word)?;
    Ok(all)
}

/// The items of a simple command, and a redirection behind them.
pub fn with_redirect(items: Items, redirect: Redirect) -> Result<Items, Memory>
    ensures { IfOk result (λ all. all ≡ joined items (a_redirect redirect)) }
{
    let mut all = items;
    all.redirects.add(redirect)?;
    Ok(all)
}

/// The part that a parameter expansion is.
pub fn param_of(
    alloc: Global,
    key: &Key,
    default: &Option<Bytes>,
    quoted: bool,
) -> Result<Part, Memory>
    ensures { IfOk result (λ part. part ≡ Param key.now default.now quoted) }
{
    let key = key.copy(alloc)?;
    let default = default.copy(alloc)?;
    Ok(Part::Param {
        key,
        default,
        quoted,
    })
}

/// The text of a word's first part, where that is plain; else no bytes.
pub fn word_text(word: &Word) -> &[u8]
    ensures { result.now ≡ word_text_of word.now }
{
    match word.parts.get(0) {
        Some(Part::Plain(text)) => text.as_slice(),
        _ => b"".as_slice(),
    }
}

/// A copy of the text of a word's first part, where that is plain; else no bytes.
pub fn name_of(alloc: Global, word: &Word) -> Result<Bytes, Memory>
    ensures { IfOk result (λ name. name ≡ word_text_of word.now) }
{
    Bytes::from_slice(alloc, word_text(word))
}

/// The definition of a function, by the word that names it.
pub fn defined(
    alloc: Global,
    at: u32,
    word: Word,
    body: Boxed<Command>,
) -> Result<Boxed<Command>, Memory>
    ensures { IfOk result (λ tree. tree ≡ Define at (word_text_of word) body) }
{
    let name = name_of(alloc, &word)?;
    Ok(Boxed::new(alloc, Command::Define { at, name, body })?)
}
