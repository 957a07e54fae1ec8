ghost use Rattle.std.specs.Prelude.{◌≡◌, ◌++◌, ◌∷◌, [], ℕ, List, IfOk, OnOk, OnErr, codes};
ghost use Rattle.std.specs.List.{flat_map};
ghost use Rattle.feature_trees.specs.View.{seen, AllThere};
ghost use Rattle.shown_texts.specs.Show.{show};
ghost use Rattle.feature_trees.specs.TreeText.{path_below, special_mark, entries_lines, value_lines, tree_lines};
ghost use Rattle.feature_trees.specs.TreeText.{tree_text, first_version_line};

use crate::kind::Special;
use crate::value::{NamedValue, Value};
use script_names::{Bytes, List, Memory, Name};
use shown_texts::{push_lines, push_name, push_shown};
use std::alloc::Global;

/// The lines of a tree, without their newlines: one per entry but the root, by names in byte order, a directory before
/// its entries. A line is `d PATH`, `f PATH`, `p PATH`, `s PATH`, `b PATH`, `c PATH` or `l PATH TARGET`; a path is `/` and its
/// shown names joined by `/`. A value that is no directory has no entries, so it has no lines.
pub fn tree_lines(alloc: Global, tree: &Value) -> Result<List<Bytes>, Memory>
    ensures { IfOk result (λ lines. lines ≡ tree_lines tree.now) }
{
    let mut lines = List::new(alloc);
    match tree {
        Value::Dir(entries) => {
            add_entries(alloc, &mut lines, b"", entries.items.as_slice())?;
            Ok(lines)
        }
        _ => Ok(lines),
    }
}

/// The text of a tree: its lines, each with its newline.
pub fn print_tree(alloc: Global, tree: &Value) -> Result<Bytes, Memory>
    ensures { IfOk result (λ text. text ≡ tree_text tree.now) }
{
    let mut text = Bytes::new(alloc);
    put_tree(alloc, &mut text, tree)?;
    Ok(text)
}

/// Adds the text of a tree to a text; for want of memory the text is as before.
pub fn put_tree(alloc: Global, text: &mut Bytes, tree: &Value) -> Result<(), Memory>
    ensures ok { OnOk result (text.new ≡ text.old ++ tree_text tree.now) }
    ensures kept { OnErr result (text.new ≡ text.old) }
{
    let lines = tree_lines(alloc, tree)?;
    push_lines(text, lines.as_slice())
}

// Adds the lines of entries below a path.
#[cycle(printing)]
fn add_entries(
    alloc: Global,
    lines: &mut List<Bytes>,
    path: &[u8],
    items: &[NamedValue],
) -> Result<(), Memory>
    requires { AllThere items.now }
    ensures { OnOk result (lines.new ≡ lines.old ++ entries_lines (seen items.now) path.now) }
{
    for item in items {
        let below = make_path(alloc, path, &item.name)?;
        add_value(alloc, lines, below.as_slice(), &item.value)?;
    }
    Ok(())
}

// Adds the lines of a value at a path.
#[cycle(printing)]
fn add_value(
    alloc: Global,
    lines: &mut List<Bytes>,
    path: &[u8],
    value: &Value,
) -> Result<(), Memory>
    ensures { OnOk result (lines.new ≡ lines.old ++ value_lines value.now path.now) }
{
    match value {
        Value::Absent => Ok(()),
        Value::Reg => add_line(alloc, lines, b"f ", path),
        Value::Link(target) => add_link(alloc, lines, path, target.as_slice()),
        Value::Special(s) => add_line(alloc, lines, special_mark(*s), path),
        Value::Dir(entries) => {
            add_line(alloc, lines, b"d ", path)?;
            add_entries(alloc, lines, path, entries.items.as_slice())
        }
    }
}

// How the line of a special thing begins.
fn special_mark(s: Special) -> &'static [u8]
    ensures { result.now ≡ special_mark s }
{
    match s {
        Special::Fifo => b"p ",
        Special::Socket => b"s ",
        Special::Block => b"b ",
        Special::Char => b"c ",
    }
}

// The path of a name below a path.
fn make_path(alloc: Global, path: &[u8], name: &Name) -> Result<Bytes, Memory>
    ensures { IfOk result (λ below. below ≡ path_below path.now name.now) }
{
    let mut below = Bytes::from_slice(alloc, path)?;
    push_name(&mut below, name)?;
    Ok(below)
}

// Adds a line of a letter and a path.
fn add_line(
    alloc: Global,
    lines: &mut List<Bytes>,
    letter: &[u8],
    path: &[u8],
) -> Result<(), Memory>
    ensures { OnOk result (lines.new ≡ lines.old ++ (letter.now ++ path.now) ∷ []) }
{
    let mut line = Bytes::from_slice(alloc, letter)?;
    line.extend(path)?;
    lines.add(line)
}

// Adds the line of a link.
fn add_link(
    alloc: Global,
    lines: &mut List<Bytes>,
    path: &[u8],
    target: &[u8],
) -> Result<(), Memory>
    ensures { OnOk result (lines.new ≡ lines.old ++ (codes "l " ++ path.now ++ codes " " ++ show target.now) ∷ []) }
{
    let mut line = Bytes::from_slice(alloc, b"l ")?;
    line.extend(path)?;
    line.extend(b" ")?;
    push_shown(&mut line, target)?;
    lines.add(line)
}

/// A line of a tree's text as the first version of reports has it: `o PATH` in place of `p PATH`.
pub fn first_version_line(alloc: Global, line: &[u8]) -> Result<Bytes, Memory>
    ensures { IfOk result (λ text. text ≡ first_version_line line.now) }
{
    match line.strip_prefix(b"p ".as_slice()) {
        Some(path) => {
            let mut text = Bytes::from_slice(alloc, b"o ")?;
            text.extend(path)?;
            Ok(text)
        }
        None => Bytes::from_slice(alloc, line),
    }
}
