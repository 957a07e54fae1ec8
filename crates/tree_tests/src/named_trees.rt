//! Named trees of one text, and the line of a text that is at fault.

use feature_trees::put_tree;
use script_names::{Bytes, Memory};
use shown_texts::push_number;
use std::alloc::Global;
use std::test::Fail;
use tree_predictions::{NamedTree, TreesFault, read_trees};

// A text, and what it is read as: of each tree a line with its name, and its own text; or a line and why it is at
// fault.
const ROWS: &[(&[u8], &[u8])] = &[
    (b"", b""),
    (b"tree a", b"a\n"),
    (b"tree a\n", b"a\n"),
    (b"tree a\nd /srv", b"a\nd /srv\n"),
    (
        b"tree one\nd /srv\ntree two\nd /srv\nl /srv/a x\ntree three\nf /srv\n",
        b"one\nd /srv\ntwo\nd /srv\nl /srv/a x\nthree\nf /srv\n",
    ),
    (
        b"tree  a tree b \nf /b\nd /a\n",
        b" a tree b \nd /a\nf /b\n",
    ),
    (b"tree a\nf /tree\nf /b\n", b"a\nf /b\nf /tree\n"),
    (b"d /srv\n", b"line 1 fault 4"),
    (b"\n", b"line 1 fault 4"),
    (b"treetop\n", b"line 1 fault 4"),
    (b" tree a\n", b"line 1 fault 4"),
    (b"d /srv\ntree\n", b"line 1 fault 4"),
    (b"tree\nd /srv\n", b"line 1 fault 1"),
    (b"tree ", b"line 1 fault 1"),
    (b"tree a\ntree\n", b"line 2 fault 1"),
    (b"tree a\n\n", b"line 2 fault 1"),
    (b"tree a\ntreetop\n", b"line 2 fault 1"),
    (b"tree a\nd /srv\nd /srv\n", b"line 3 fault 2"),
    (b"tree a\nd /srv\ntree b\nf /srv/a\n", b"line 4 fault 3"),
    (b"tree a\nd /srv\ntree a\n", b"line 3 fault 5"),
    (b"tree a\nd srv\ntree a\n", b"line 2 fault 1"),
    (b"tree a\ntree a\nd srv\n", b"line 2 fault 5"),
];

// How many bytes a name has, and what a text of one tree with such a name is read as.
const NAMES: &[(usize, &[u8])] = &[(0, b"line 1 fault 1"), (255, b""), (256, b"line 1 fault 1")];

// Adds what a tree is told as.
fn tell_tree(alloc: Global, text: &mut Bytes, named: &NamedTree) -> Result<(), Memory> {
    text.extend(named.name.as_slice())?;
    text.extend(b"\n")?;
    put_tree(alloc, text, &named.tree)
}

// What trees are told as.
fn tell_trees(alloc: Global, trees: &[NamedTree]) -> Result<Bytes, Memory> {
    let mut text = Bytes::new(alloc);
    for named in trees {
        tell_tree(alloc, &mut text, named)?;
    }
    Ok(text)
}

// What a line at fault is told as.
fn tell_fault(alloc: Global, line: u64, why: u8) -> Result<Bytes, Memory> {
    let mut text = Bytes::from_slice(alloc, b"line ")?;
    push_number(&mut text, line)?;
    text.extend(b" fault ")?;
    push_number(&mut text, u64::from(why))?;
    Ok(text)
}

// What a text is read as.
fn told(alloc: Global, text: &[u8]) -> Result<Bytes, Memory> {
    match read_trees(alloc, text) {
        Ok(trees) => tell_trees(alloc, trees.as_slice()),
        Err(TreesFault::Line { line, why }) => tell_fault(alloc, line, why),
        Err(TreesFault::Memory) => Err(Memory),
    }
}

// Whether a text is read as this.
fn is_told(alloc: Global, text: &[u8], wanted: &[u8]) -> Result<bool, Memory> {
    let found = told(alloc, text)?;
    Ok(found.as_slice() == wanted)
}

// A text of one tree, whose name has so many bytes.
fn long_name(alloc: Global, bytes: usize) -> Result<Bytes, Memory> {
    let mut text = Bytes::from_slice(alloc, b"tree ")?;
    for _ in 0usize..bytes {
        text.push(b'n')?;
    }
    Ok(text)
}

// Whether a text of one tree with a name of so many bytes is read as this, or else as the tree.
fn is_named(alloc: Global, bytes: usize, wanted: &[u8]) -> Result<bool, Memory> {
    let text = long_name(alloc, bytes)?;
    let found = told(alloc, text.as_slice())?;
    Ok(
        found.as_slice() == wanted
            || (wanted.is_empty() && found.len().checked_sub(1) == Some(bytes)),
    )
}

#[test]
fn texts_are_read_as_named_trees(rt: HostRuntime) -> Result<(), Fail> {
    for row in ROWS {
        assert!(rt; is_told(rt.alloc(), row.0, row.1)?);
    }
    for row in NAMES {
        assert!(rt; is_named(rt.alloc(), row.0, row.1)?);
    }
    Ok(())
}
