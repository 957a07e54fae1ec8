//! From a tree and a kept tree exactly one case of a back leads on: that of the row that the back takes there, and to
//! the tree that the back leaves. Each row stands here at least once.

use crate::call_words::returned_cases;
use feature_trees::{Value, read_tree};
use script_names::{Copied, List, Memory, Name, NameFault};
use std::alloc::Global;
use tree_clauses::{Case, Clause, Literal, Var, meets};

// A back by its kind and its path, the row that it takes, and one tree with three in it: the kept tree at `/k`, the tree
// now at `/n`, and the tree that is left at `/u`.
type Returned = (&'static str, u8, &'static str);

const BACKS: &[Returned] = &[
    // directories
    ("Folder /l/a", 1, "d /k\nd /n\nl /n/l t\nd /u\nl /u/l t"),
    (
        "Folder /d/l/a",
        2,
        "d /k\nd /n\nd /n/d\nl /n/d/l t\nd /u\nd /u/d\nl /u/d/l t",
    ),
    ("Folder /a", 66, "d /k\nd /k/a\nd /n\nd /n/a\nd /u\nd /u/a"),
    (
        "Folder /a",
        66,
        "d /k\nl /k/a t\nd /n\nf /n/a\nd /u\nf /u/a",
    ),
    ("Folder /a", 67, "d /k\nd /n\nf /n/a\nd /u\nf /u/a"),
    ("Folder /a/b", 67, "d /k\nf /k/a\nd /n\nd /u"),
    (
        "Folder /a",
        68,
        "d /k\nd /n\nd /n/a\nf /n/a/b\nd /u\nd /u/a\nf /u/a/b",
    ),
    ("Folder /a", 69, "d /k\nf /k/b\nd /n\nd /n/a\nd /u"),
    (
        "Folder /a/b",
        69,
        "d /k\nl /k/a t\nd /n\nd /n/a\nd /n/a/b\nd /u\nd /u/a",
    ),
    // files and links
    ("File /l/a", 1, "d /k\nd /n\nl /n/l t\nd /u\nl /u/l t"),
    ("File /a/b", 66, "d /k\nd /k/a\nl /k/a/b t\nd /n\nd /u"),
    ("File /a/b", 66, "d /k\nd /n\nf /n/a\nd /u\nf /u/a"),
    ("File /a", 67, "d /k\nf /k/a\nd /n\nd /n/a\nd /u\nd /u/a"),
    (
        "File /a",
        68,
        "d /k\nl /k/a t\nd /n\nf /n/a\nd /u\nl /u/a t",
    ),
    ("File /a", 68, "d /k\nd /n\nf /n/a\nf /n/b\nd /u\nf /u/b"),
    (
        "File /a/b",
        68,
        "d /k\nd /k/a\nc /k/a/b\nd /n\nd /n/a\nl /n/a/b t\nd /u\nd /u/a\nc /u/a/b",
    ),
    (
        "File /a/b",
        68,
        "d /k\nl /k/a t\nd /n\nd /n/a\nf /n/a/b\nd /u\nd /u/a",
    ),
    (
        "File /a",
        69,
        "d /k\nd /k/a\nf /k/a/b\nd /n\nl /n/a t\nd /u\nl /u/a t",
    ),
];

// The variable of the tree with the three in it; no case has one with this number.
const ALL: Var = Var(1000);

// Adds that one of the three trees has a variable.
fn add_tree(
    alloc: Global,
    literals: &mut List<Literal>,
    word: &[u8],
    x: Var,
) -> Result<(), NameFault> {
    let name = Name::read(alloc, word)?;
    literals.add(Literal::Entry(ALL, name, x))?;
    Ok(())
}

// Adds the literals of a case.
fn add_literals(
    alloc: Global,
    literals: &mut List<Literal>,
    made: &[Literal],
) -> Result<(), Memory> {
    for literal in made {
        let own = literal.copy(alloc)?;
        literals.add(own)?;
    }
    Ok(())
}

// That the case leads from the tree now and the kept tree to the tree that is left.
fn clause_of(alloc: Global, made: &Case) -> Result<Clause, NameFault> {
    let mut literals = List::new(alloc);
    add_tree(alloc, &mut literals, b"k", Var(1))?;
    add_tree(alloc, &mut literals, b"n", Var(0))?;
    add_literals(alloc, &mut literals, made.literals.as_slice())?;
    add_tree(alloc, &mut literals, b"u", made.root)?;
    Ok(Clause {
        literals,
        start: ALL,
        now: made.root,
    })
}

// Whether the case leads on there.
fn leads(alloc: Global, made: &Case, tree: &Value) -> Result<bool, NameFault> {
    let clause = clause_of(alloc, made)?;
    Ok(meets(alloc, &clause, tree)? == Some(true))
}

// Whether of these cases one leads on, that of the row.
fn one_leads(alloc: Global, list: &[Case], tree: &Value, row: u8) -> Result<bool, NameFault> {
    let mut found = false;
    for made in list {
        let here = leads(alloc, made, tree)?;
        if here != (made.row == row) || (here && found) {
            return Ok(false);
        }
        found = found || here;
    }
    Ok(found)
}

// Whether of the cases of a back one leads on from a tree, that of the row.
fn back_leads(alloc: Global, row: &Returned, tree: &Value) -> bool {
    match returned_cases(alloc, row.0) {
        Ok(list) => matches!(one_leads(alloc, list.as_slice(), tree, row.1), Ok(true)),
        Err(_) => false,
    }
}

// Whether a back takes its row, and leaves its tree.
fn is_returned(alloc: Global, row: &Returned) -> bool {
    match read_tree(alloc, row.2.as_bytes()) {
        Ok(tree) => back_leads(alloc, row, &tree),
        Err(_) => false,
    }
}

#[test]
fn one_case_of_a_back_leads_on(rt: HostRuntime) {
    for row in BACKS {
        assert!(rt; is_returned(rt.alloc(), row), "{} {}", row.0, row.1);
    }
}
