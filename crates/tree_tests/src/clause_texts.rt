//! Clauses that are made by hand, and the text that each has.

use feature_trees::{Kind, Kinds, Special, Version};
use script_names::{Bytes, Copied, List, Memory, Name, NameFault};
use std::alloc::Global;
use tree_clauses::{Clause, Literal, Var, print_clause, print_literal, put_clause};

fn names(alloc: Global, words: &[&[u8]]) -> Result<List<Name>, NameFault> {
    let mut names = List::new(alloc);
    for word in words {
        names.add(Name::read(alloc, word)?)?;
    }
    Ok(names)
}

fn entry(alloc: Global) -> Result<Literal, NameFault> {
    let name = Name::read(alloc, b"a b")?;
    Ok(Literal::Entry(Var(0), name, Var(12)))
}

// The set of the two kinds of devices.
fn devices() -> Kinds {
    let char = Kinds::of(Kind::Special(Special::Char));
    Kinds::either(char, Kinds::of(Kind::Special(Special::Block)))
}

// The literal at a place of a clause that has one of each form, and those of kinds in each order of their making, of a
// set of none, and of a fence of none.
fn literal(alloc: Global, place: u32) -> Result<Literal, NameFault> {
    let files = Kinds::either(Kinds::of(Kind::Reg), Kinds::of(Kind::Dir));
    let none = Kinds::none();
    let some = Kinds::either(Kinds::special(), Kinds::of(Kind::Absent));
    match place {
        0 => entry(alloc),
        1 => Ok(Literal::Kind(Var(12), files)),
        2 => Ok(Literal::Fence(Var(1), names(alloc, &[b"bin", b"{,}"])?)),
        3 => Ok(Literal::NotEmpty(Var(3))),
        4 => Ok(Literal::Similar(Var(2), names(alloc, &[b"etc"])?, Var(0))),
        5 => Ok(Literal::Target(Var(4), Bytes::from_slice(alloc, b"")?)),
        6 => Ok(Literal::Kind(Var(4294967295), none)),
        7 => Ok(Literal::Kind(Var(1), some)),
        8 => Ok(Literal::Kind(Var(1), Kinds::all())),
        9 => Ok(Literal::Kind(Var(1), devices())),
        _ => Ok(Literal::Fence(Var(1), names(alloc, &[])?)),
    }
}

// The clause of the literals at these places.
fn clause(alloc: Global, first: u32, end: u32) -> Result<Clause, NameFault> {
    let mut literals = List::new(alloc);
    for place in first..end {
        literals.add(literal(alloc, place)?)?;
    }
    Ok(Clause {
        literals,
        start: Var(0),
        now: Var(2),
    })
}

// Whether a copy of the clause prints so, and once more behind that.
fn is_printed(alloc: Global, original: &Clause, text: &str) -> Result<bool, Memory> {
    let clause = original.copy(alloc)?;
    let mut printed = print_clause(alloc, &clause)?;
    let is_once = printed.as_slice() == text.as_bytes();
    put_clause(alloc, &mut printed, &clause)?;
    Ok(is_once && printed.len() == text.len() + text.len())
}

// Whether the clause of the literals at these places prints so.
fn prints(alloc: Global, row: &(u32, u32, &str)) -> Result<bool, NameFault> {
    let original = clause(alloc, row.0, row.1)?;
    Ok(is_printed(alloc, &original, row.2)?)
}

// The places of the literals of a clause, from the first up to before the last, and its text.
const PRINTED: &[(u32, u32, &str)] = &[
    (0, 0, "clause start v0 now v2\n"),
    (
        0,
        6,
        "clause start v0 now v2\nentry v0 a\\x20b v12\nkind v12 reg,dir\nfence v1 {bin,\\x7b\\x2c\\x7d}\nnotempty v3\nsimilar v2 {etc} v0\ntarget v4 \\e\n",
    ),
    (
        6,
        11,
        "clause start v0 now v2\nkind v4294967295 -\nkind v1 absent,fifo,socket,block,char\nkind v1 absent,reg,link,fifo,socket,block,char,dir\nkind v1 block,char\nfence v1 {}\n",
    ),
];

#[test]
fn prints_clauses(rt: HostRuntime) {
    for row in PRINTED {
        assert!(rt; matches!(prints(rt.alloc(), row), Ok(true)), "{}", row.2);
    }
}

// Whether the literal at a place has this line in a version.
fn has_line(alloc: Global, version: Version, place: u32, line: &str) -> Result<bool, NameFault> {
    let made = literal(alloc, place)?;
    let printed = print_literal(alloc, version, &made)?;
    Ok(printed.as_slice() == line.as_bytes())
}

// The place of a literal, and its line in the first version and in the second.
const VERSIONS: &[(u32, &str, &str)] = &[
    (0, "entry v0 a\\x20b v12", "entry v0 a\\x20b v12"),
    (1, "kind v12 reg,dir", "kind v12 reg,dir"),
    (
        2,
        "fence v1 {bin,\\x7b\\x2c\\x7d}",
        "fence v1 {bin,\\x7b\\x2c\\x7d}",
    ),
    (3, "notempty v3", "notempty v3"),
    (4, "similar v2 {etc} v0", "similar v2 {etc} v0"),
    (5, "target v4 \\e", "target v4 \\e"),
    (6, "kind v4294967295 -", "kind v4294967295 -"),
    (
        7,
        "kind v1 absent,other",
        "kind v1 absent,fifo,socket,block,char",
    ),
    (
        8,
        "kind v1 absent,reg,link,other,dir",
        "kind v1 absent,reg,link,fifo,socket,block,char,dir",
    ),
];

#[test]
fn prints_literals_of_each_version(rt: HostRuntime) {
    for row in VERSIONS {
        assert!(rt;
            matches!(has_line(rt.alloc(), Version::First, row.0, row.1), Ok(true)),
            "{}",
            row.1
        );
        assert!(rt;
            matches!(
                has_line(rt.alloc(), Version::Second, row.0, row.2),
                Ok(true)
            ),
            "{}",
            row.2
        );
    }
    assert!(rt;
        matches!(
            has_line(rt.alloc(), Version::Second, 9, "kind v1 block,char"),
            Ok(true)
        )
    );
}

// The clause of a literal for a set of these kinds, behind one for all kinds.
fn clause_of_kinds(alloc: Global, kinds: Kinds) -> Result<Clause, Memory> {
    let mut literals = List::new(alloc);
    literals.add(Literal::Kind(Var(0), Kinds::all()))?;
    literals.add(Literal::Kind(Var(0), kinds))?;
    Ok(Clause {
        literals,
        start: Var(0),
        now: Var(0),
    })
}

// Whether the clause of such a set has a text of the first version.
fn is_first(alloc: Global, kinds: Kinds) -> Result<bool, Memory> {
    let clause = clause_of_kinds(alloc, kinds)?;
    Ok(clause.has_first_kinds())
}

const FIRST: &[Kinds] = &[
    Kinds::NONE,
    Kinds::ALL,
    Kinds::SPECIAL,
    Kinds {
        dir: true,
        ..Kinds::NONE
    },
    Kinds {
        reg: false,
        ..Kinds::ALL
    },
];

const NOT_FIRST: &[Kinds] = &[
    Kinds {
        fifo: true,
        ..Kinds::NONE
    },
    Kinds {
        socket: true,
        ..Kinds::NONE
    },
    Kinds {
        block: true,
        ..Kinds::NONE
    },
    Kinds {
        char: true,
        ..Kinds::NONE
    },
    Kinds {
        block: true,
        char: true,
        ..Kinds::NONE
    },
    Kinds {
        fifo: false,
        ..Kinds::ALL
    },
    Kinds {
        char: false,
        ..Kinds::SPECIAL
    },
];

#[test]
fn the_first_version_has_all_four_or_none(rt: HostRuntime) {
    for kinds in FIRST {
        assert!(rt;
            matches!(is_first(rt.alloc(), *kinds), Ok(true)),
            "{kinds:?}"
        );
    }
    for kinds in NOT_FIRST {
        assert!(rt;
            matches!(is_first(rt.alloc(), *kinds), Ok(false)),
            "{kinds:?}"
        );
    }
}
