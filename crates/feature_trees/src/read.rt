ghost use Rattle.std.specs.Prelude.{◌≡◌, [], map, Some, IfOk};
ghost use Rattle.std.specs.Option.{option_and_then};
ghost use Rattle.feature_trees.specs.declared.value.Value.TheVariants.{Dir};
ghost use Rattle.feature_trees.specs.declared.read.TreeFault.TheVariants.{Line};
ghost use Rattle.feature_trees.specs.Drafts.{draft_value};
ghost use Rattle.feature_trees.specs.Sound.{IsTree};
ghost use Rattle.feature_trees.specs.TextLaws.{without_entries};
ghost use Rattle.feature_trees.specs.View.{IsThere};
ghost use Rattle.feature_trees.specs.TreeLines.{whole_lines, special_of, letter_value, link_value, line_of_names};
ghost use Rattle.feature_trees.specs.TreeLines.{line_at, line_of_words, line_says};
ghost use Rattle.feature_trees.specs.TreeLines.{with_line, with_lines, tree_of, IsAnswer, IsLeft};

use crate::draft::{Draft, make_value, put_draft};
use crate::kind::Special;
use crate::put::PutFault;
use crate::value::{Entries, Value};
use script_names::{Copied, List, Memory, Name};
use shown_texts::{cut, read_path, read_shown};
use std::alloc::Global;

/// How many names a path in the text of a tree has at most.
pub const MOST_NAMES: usize = 4096;

/// Why a text is no tree's.
#[derive(Clone, Copy, Debug, PartialEq, Eq)]
pub enum TreeFault {
    /// The first line at fault, counted from 1, and why: 1, it is not of the form, or its path has more than 4,096
    /// names; 2, an earlier line names its path; 3, its parent is neither the root nor an earlier line's directory.
    Line { line: u64, why: u8 },
    Memory,
}

impl Copied for TreeFault {
    fn copy(&self, _alloc: Global) -> Result<TreeFault, Memory> {
        Ok(*self)
    }
}

impl From<Memory> for TreeFault {
    ghost use Rattle.std.specs.Prelude.{◌≡◌};
    ghost use Rattle.feature_trees.specs.declared.read.TreeFault.TheVariants.{Memory as NoMemory};

    ghost from_gives = { λ _ fault. fault ≡ NoMemory };

    fn from(_refused: Memory) -> TreeFault {
        TreeFault::Memory
    }
}

// What a line says: a path's names, and what stands there before any line of its entries.
#[derive(Drop)]
struct TreeLine {
    names: List<Name>,
    value: Value,
}

/// The tree of a text: a line for each entry but the root, `d PATH`, `f PATH`, `p PATH`, `s PATH`, `b PATH`, `c PATH` or
/// `l PATH TARGET`, or `o PATH` for a pipe, in any order in which a directory's line comes before those of its entries; the last line may lack its newline.
pub fn read_tree(alloc: Global, text: &[u8]) -> Result<Value, TreeFault>
    ensures reads { IsAnswer (tree_of text.now) result }
    ensures tree { IfOk result IsTree }
{
    let texts = cut(alloc, text, b'\n')?;
    read_lines(alloc, whole_lines(texts.as_slice()))
}

// The parts between newlines without the one behind a last newline.
fn whole_lines<'a, 'b>(texts: &'b [&'a [u8]]) -> &'b [&'a [u8]]
    ensures { map (λ line. line.now) result.now ≡ whole_lines (map (λ line. line.now) texts.now) }
{
    match texts {
        [] => texts,
        [lines @ .., last] => { if last.is_empty() { lines } else { texts } }
    }
}

// The tree of lines.
fn read_lines(alloc: Global, lines: &[&[u8]]) -> Result<Value, TreeFault>
    ensures reads { IsAnswer (with_lines 1 (Dir []) (map (λ line. line.now) lines.now)) result }
    ensures tree { IfOk result IsTree }
{
    let mut tree = Draft::empty(alloc);
    let mut number = 0u64;
    for line in lines {
        number += 1;
        match add_line(alloc, &mut tree, number, line) {
            Ok(()) => {}
            Err(TreeFault::Line { line, why }) => return Err(TreeFault::Line { line, why }),
            Err(TreeFault::Memory) => return Err(TreeFault::Memory),
        }
    }
    tree.is_sound();
    let tree = make_value(alloc, &tree)?;
    Ok(tree)
}

// Adds what a line says to the tree of the lines before it.
fn add_line(alloc: Global, tree: &mut Draft, number: u64, text: &[u8]) -> Result<(), TreeFault>
    ensures { IsLeft (with_line number (draft_value tree.old) (line_says text.now)) (draft_value tree.new) result }
{
    match read_line(alloc, text)? {
        Some(line) => put_line(alloc, tree, number, line),
        None => Err(line_fault(number, 1)),
    }
}

// Puts what a line says.
fn put_line(alloc: Global, tree: &mut Draft, number: u64, line: TreeLine) -> Result<(), TreeFault>
    requires there { IsThere line.value }
    requires no_entries { without_entries line.value ≡ line.value }
    ensures { IsLeft (with_line number (draft_value tree.old) (Some line)) (draft_value tree.new) result }
{
    let TreeLine { names, value } = line;
    if tree.has(names.as_slice()) {
        return Err(line_fault(number, 2));
    }
    let value = Draft::of(alloc, value);
    match put_draft(alloc, tree, names.as_slice(), value) {
        Ok(()) => Ok(()),
        Err(PutFault::NoParent) => Err(line_fault(number, 3)),
        Err(PutFault::Memory) => Err(TreeFault::Memory),
    }
}

// A line at fault.
fn line_fault(line: u64, why: u8) -> TreeFault
    ensures { result ≡ Line line why }
{
    TreeFault::Line { line, why }
}

// What a line says; None where it is not of the form.
fn read_line(alloc: Global, text: &[u8]) -> Result<Option<TreeLine>, Memory>
    ensures { IfOk result (λ found. found ≡ line_says text.now) }
{
    let words = cut(alloc, text, b' ')?;
    read_words(alloc, words.as_slice())
}

// What a line of these words says.
fn read_words(alloc: Global, words: &[&[u8]]) -> Result<Option<TreeLine>, Memory>
    ensures { IfOk result (λ found. found ≡ line_of_words (map (λ word. word.now) words.now)) }
{
    match words {
        [] => Ok(None),
        [_] => Ok(None),
        [letter, path] => read_at(alloc, path, letter_value(alloc, letter)),
        [letter, path, target] => {
            let value = link_value(alloc, letter, target)?;
            read_at(alloc, path, value)
        }
        [_, _, _, _, ..] => Ok(None),
    }
}

// What a line says, from its path and what stands there.
fn read_at(alloc: Global, path: &[u8], value: Option<Value>) -> Result<Option<TreeLine>, Memory>
    ensures { IfOk result (λ found. found ≡ option_and_then (line_at path.now) value) }
{
    let value = match value {
        Some(value) => value,
        None => return Ok(None),
    };
    match read_path(alloc, path)? {
        Some(names) => Ok(line_of_names(value, names)),
        None => Ok(None),
    }
}

// What the names of an entry and what stands there say.
fn line_of_names(value: Value, names: List<Name>) -> Option<TreeLine>
    ensures { result ≡ line_of_names value names }
{
    if names.len() > 0 && names.len() <= MOST_NAMES {
        Some(TreeLine { names, value })
    } else {
        None
    }
}

// What stands at the path of a line without a target.
fn letter_value(alloc: Global, letter: &[u8]) -> Option<Value>
    ensures { result ≡ letter_value letter.now }
{
    if letter == b"d".as_slice() {
        return Some(Value::Dir(Entries::new(alloc)));
    }
    if letter == b"f".as_slice() {
        return Some(Value::Reg);
    }
    match read_special(letter) {
        Some(s) => Some(Value::Special(s)),
        None => None,
    }
}

// Which special thing a letter says.
fn read_special(letter: &[u8]) -> Option<Special>
    ensures { result ≡ special_of letter.now }
{
    if letter == b"p".as_slice() {
        return Some(Special::Fifo);
    }
    if letter == b"s".as_slice() {
        return Some(Special::Socket);
    }
    if letter == b"b".as_slice() {
        return Some(Special::Block);
    }
    if letter == b"c".as_slice() {
        return Some(Special::Char);
    }
    if letter == b"o".as_slice() {
        return Some(Special::Fifo);
    }
    None
}

// What stands at the path of a line with a target.
fn link_value(alloc: Global, letter: &[u8], target: &[u8]) -> Result<Option<Value>, Memory>
    ensures { IfOk result (λ found. found ≡ link_value letter.now target.now) }
{
    if letter != b"l".as_slice() {
        return Ok(None);
    }
    match read_shown(alloc, target)? {
        Some(bytes) => Ok(Some(Value::Link(bytes))),
        None => Ok(None),
    }
}
