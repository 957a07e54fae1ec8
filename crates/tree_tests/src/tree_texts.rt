//! Texts of trees, each by hand with the tree's own text, or with the line at fault and why.

use feature_trees::{Entries, TreeFault, Value, first_version_line, print_tree, read_tree};
use script_names::{Bytes, Memory, Name};
use std::alloc::Global;
use std::test::Fail;

// Texts in any order, and their trees' own texts.
const READ: &[(&str, &str)] = &[
    ("", ""),
    ("d /etc\n", "d /etc\n"),
    ("d /etc", "d /etc\n"),
    ("f /a\n", "f /a\n"),
    ("p /a", "p /a\n"),
    ("s /a\n", "s /a\n"),
    ("b /a", "b /a\n"),
    ("c /a", "c /a\n"),
    ("c /d\ns /b\nb /c\np /a\n", "p /a\ns /b\nb /c\nc /d\n"),
    // an older letter for what is no directory, file or link
    ("o /a", "p /a\n"),
    ("d /a\no /a/b\no /c\n", "d /a\np /a/b\np /c\n"),
    ("l /a b\n", "l /a b\n"),
    ("l /a /b/./c/\n", "l /a /b/./c/\n"),
    ("l /a \\e\n", "l /a \\e\n"),
    ("l /a a\\x20b", "l /a a\\x20b\n"),
    ("l /a \\x0a\\x5cx61\n", "l /a \\x0a\\x5cx61\n"),
    ("f /a\\x20b\n", "f /a\\x20b\n"),
    ("f /\\xc3\\xa9\n", "f /\\xc3\\xa9\n"),
    ("f /...\nf /.a\nf /-\n", "f /-\nf /...\nf /.a\n"),
    ("f /b\nf /a\n", "f /a\nf /b\n"),
    ("f /a\nf /Z\nf /B", "f /B\nf /Z\nf /a\n"),
    ("d /a\nf /a/b\n", "d /a\nf /a/b\n"),
    ("d /a\nd /a/a\nd /a/a/a\n", "d /a\nd /a/a\nd /a/a/a\n"),
    ("f /a.b\nd /a\nf /a/x\n", "d /a\nf /a/x\nf /a.b\n"),
    (
        "d /b\nd /a\nf /b/x\nc /a/y\n",
        "d /a\nc /a/y\nd /b\nf /b/x\n",
    ),
    (
        "d /a\nf /a/b\nf /c\nl /a/a /",
        "d /a\nl /a/a /\nf /a/b\nf /c\n",
    ),
    (
        "d /a\nd /a/b\nf /c\nf /a/b/c\nd /a/a\nf /a/a/b\n",
        "d /a\nd /a/a\nf /a/a/b\nd /a/b\nf /a/b/c\nf /c\n",
    ),
];

// Texts of no tree: the least line at fault, and why.
const REFUSED: &[(&str, u64, u8)] = &[
    // an empty line is not of the form
    ("\n", 1, 1),
    ("\nf /a\n", 1, 1),
    ("f /a\n\n", 2, 1),
    ("f /a\n\nf /b\n", 2, 1),
    // a letter, a path, and of a link a target, with one blank between them
    ("d", 1, 1),
    ("d ", 1, 1),
    ("/a", 1, 1),
    ("d/a", 1, 1),
    (" d /a", 1, 1),
    ("d  /a", 1, 1),
    ("d /a ", 1, 1),
    ("d /a b", 1, 1),
    ("f\t/a", 1, 1),
    ("f /a\r\n", 1, 1),
    ("x /a", 1, 1),
    ("t /a", 1, 1),
    ("S /a", 1, 1),
    ("- /a", 1, 1),
    ("p", 1, 1),
    ("p /", 1, 1),
    ("p /a b", 1, 1),
    ("ps /a", 1, 1),
    ("o /a b", 1, 1),
    ("D /a", 1, 1),
    ("df /a", 1, 1),
    ("l /a", 1, 1),
    ("l /a ", 1, 1),
    ("l /a b c", 1, 1),
    ("l /a  b", 1, 1),
    ("f /a\nf /b\nf /c\nx", 4, 1),
    // a path of one name at least
    ("d /", 1, 1),
    ("l / a", 1, 1),
    ("d a", 1, 1),
    ("d /a/", 1, 1),
    ("d //a", 1, 1),
    ("d /a\nf /a//b", 2, 1),
    ("d /.", 1, 1),
    ("d /a\nf /a/..", 2, 1),
    ("d /\\e", 1, 1),
    ("f /a\\x2fb", 1, 1),
    ("f /\\x00", 1, 1),
    // one spelling of each name and target
    ("f /\\x61", 1, 1),
    ("f /a\nf /\\x61", 2, 1),
    ("f /\\x61/b", 1, 1),
    ("f /\\xC3", 1, 1),
    ("f /a,b", 1, 1),
    ("f /a\\", 1, 1),
    ("l /a \\x61", 1, 1),
    ("l /a a\\e", 1, 1),
    ("l /a {", 1, 1),
    // a path that is named already
    ("f /a\nf /a\n", 2, 2),
    ("d /a\nd /a\n", 2, 2),
    ("d /a\nl /a b\n", 2, 2),
    ("f /a\nd /a\nf /a/b\n", 2, 2),
    ("d /a\nf /a/b\no /b\nf /a/b", 4, 2),
    ("o /a\np /a\n", 2, 2),
    ("c /a\nb /a\n", 2, 2),
    // a parent that is no earlier directory
    ("f /a/b", 1, 3),
    ("f /a/b\nd /a\n", 1, 3),
    ("d /b\nd /a/b\nd /a\n", 2, 3),
    ("f /a\nf /a/b\n", 2, 3),
    ("l /a b\nf /a/b\n", 2, 3),
    ("o /a\nf /a/b\n", 2, 3),
    ("p /a\nf /a/b\n", 2, 3),
    ("s /a\nf /a/b\n", 2, 3),
    ("b /a\nf /a/b\n", 2, 3),
    ("c /a\nf /a/b\n", 2, 3),
    ("d /a\nf /a/b/c\n", 2, 3),
    ("d /a\nd /a/b\nf /a/b/c\nf /a/c/d", 4, 3),
    // the least line
    ("x\nf /a/b\n", 1, 1),
    ("f /a/b\nx\n", 1, 3),
    ("f /a\nf /a\nx\n", 2, 2),
    ("f /a\nx\nf /a\n", 2, 1),
    ("f /a\nf /a/b\nf /a\n", 2, 3),
    ("f /a/b\nf /a/b\n", 1, 3),
];

// Whether the text is read as the tree of another.
fn reads_as(alloc: Global, text: &[u8], tree: &[u8]) -> Result<bool, Fail> {
    let read = read_tree(alloc, text)?;
    let printed = print_tree(alloc, &read)?;
    Ok(printed.as_slice() == tree)
}

#[test]
fn texts_are_read(rt: HostRuntime) -> Result<(), Fail> {
    for row in READ {
        assert!(rt;
            reads_as(rt.alloc(), row.0.as_bytes(), row.1.as_bytes())?,
            "{row:?}"
        );
    }
    Ok(())
}

// The line at which a text is refused, and why; zeros where it is not.
fn fault(alloc: Global, text: &[u8]) -> (u64, u8) {
    match read_tree(alloc, text) {
        Err(TreeFault::Line { line, why }) => (line, why),
        _ => (0, 0),
    }
}

#[test]
fn the_least_line_is_refused(rt: HostRuntime) {
    for row in REFUSED {
        assert!(rt;
            fault(rt.alloc(), row.0.as_bytes()) == (row.1, row.2),
            "{row:?}"
        );
    }
}

// Lines, and what each is in the first version.
const FIRST_LINES: &[(&str, &str)] = &[
    ("", ""),
    ("p", "p"),
    ("p ", "o "),
    ("p /a", "o /a"),
    ("p /p/p\\x20p", "o /p/p\\x20p"),
    ("d /p", "d /p"),
    ("f /a", "f /a"),
    ("s /a", "s /a"),
    ("b /a", "b /a"),
    ("c /a", "c /a"),
    ("o /a", "o /a"),
    ("l /p p", "l /p p"),
    (" p /a", " p /a"),
    ("P /a", "P /a"),
    ("pp /a", "pp /a"),
];

// Whether a line is this one in the first version.
fn was(alloc: Global, line: &str, older: &str) -> Result<bool, Memory> {
    let text = first_version_line(alloc, line.as_bytes())?;
    Ok(text.as_slice() == older.as_bytes())
}

#[test]
fn lines_of_the_first_version(rt: HostRuntime) {
    for row in FIRST_LINES {
        assert!(rt;
            matches!(was(rt.alloc(), row.0, row.1), Ok(true)),
            "{row:?}"
        );
    }
}

// Texts of trees that have, of the special kinds, pipes alone, and of others.
const PIPES: &[(&str, bool)] = &[
    ("", true),
    ("f /a\nl /b c\nd /d\n", true),
    ("p /a\n", true),
    ("d /a\np /a/b\np /c\n", true),
    ("o /a\n", true),
    ("s /a\n", false),
    ("b /a\n", false),
    ("c /a\n", false),
    ("p /a\nb /b\np /c\n", false),
    ("d /a\nd /a/b\ns /a/b/c\nf /d\n", false),
];

// Whether the tree of a text has, of the special kinds, pipes alone.
fn pipes_alone(alloc: Global, text: &str) -> Result<bool, Fail> {
    let tree = read_tree(alloc, text.as_bytes())?;
    Ok(tree.has_only_pipes())
}

#[test]
fn trees_of_pipes_alone(rt: HostRuntime) -> Result<(), Fail> {
    for row in PIPES {
        assert!(rt; pipes_alone(rt.alloc(), row.0)? == row.1, "{row:?}");
    }
    Ok(())
}

// A line for a directory whose path has that many names.
fn long_line(alloc: Global, names: usize) -> Result<Bytes, Memory> {
    let mut text = Bytes::from_slice(alloc, b"d ")?;
    for _ in 0..names {
        text.extend(b"/a")?;
    }
    Ok(text)
}

// Where a text is refused whose only line has that many names.
fn long_fault(alloc: Global, names: usize) -> Result<(u64, u8), Memory> {
    let text = long_line(alloc, names)?;
    Ok(fault(alloc, text.as_slice()))
}

#[test]
fn paths_have_at_most_4096_names(rt: HostRuntime) -> Result<(), Fail> {
    assert!(rt; long_fault(rt.alloc(), 4096)? == (1, 3));
    assert!(rt; long_fault(rt.alloc(), 4097)? == (1, 1));
    Ok(())
}

// A directory in another, and so on.
fn nested(alloc: Global, names: usize) -> Result<Value, Fail> {
    let name = Name::read(alloc, b"a")?;
    let mut tree = Value::Dir(Entries::new(alloc));
    for _ in 0..names {
        let mut entries = Entries::new(alloc);
        entries.set(&name, tree)?;
        tree = Value::Dir(entries);
    }
    Ok(tree)
}

// How many bytes the text of so many nested names has, and where it is refused.
fn nested_fault(alloc: Global, names: usize) -> Result<(usize, (u64, u8)), Fail> {
    let tree = nested(alloc, names)?;
    let printed = print_tree(alloc, &tree)?;
    Ok((printed.len(), fault(alloc, printed.as_slice())))
}

// Whether so many nested names have a text of so many bytes, and are read from it.
fn is_read_again(alloc: Global, names: usize, bytes: usize) -> Result<bool, Fail> {
    let tree = nested(alloc, names)?;
    let printed = print_tree(alloc, &tree)?;
    let read = read_tree(alloc, printed.as_slice())?;
    Ok(printed.len() == bytes && read.equal(&tree))
}

#[test]
fn a_tree_of_4096_names_is_read_again(rt: HostRuntime) -> Result<(), Fail> {
    assert!(rt; is_read_again(rt.alloc(), 4096, 16793600)?);
    Ok(())
}

#[test]
fn a_tree_of_4097_names_is_refused(rt: HostRuntime) -> Result<(), Fail> {
    assert!(rt; nested_fault(rt.alloc(), 4097)? == (16801797, (4097, 1)));
    Ok(())
}
