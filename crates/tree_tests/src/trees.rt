use feature_trees::{Entries, Kind, Kinds, PutFault, Special, Value, print_tree, put_tree};
use script_names::{Bytes, Copied, List, Memory, Name, NameFault, Path};
use std::alloc::Global;
use std::test::Fail;

fn path(alloc: Global, words: &[&[u8]]) -> Result<Path, NameFault> {
    let mut names = List::new(alloc);
    for word in words {
        names.add(Name::read(alloc, word)?)?;
    }
    if names.len() > 64 {
        return Err(NameFault::Bad);
    }
    Ok(Path::new(names, false))
}

// A value of that kind, a directory empty and a link to `to x`.
fn value(alloc: Global, kind: Kind) -> Result<Value, Memory> {
    match kind {
        Kind::Absent => Ok(Value::Absent),
        Kind::Reg => Ok(Value::Reg),
        Kind::Link => Ok(Value::Link(Bytes::from_slice(alloc, b"to x")?)),
        Kind::Special(special) => Ok(Value::Special(special)),
        Kind::Dir => Ok(Value::Dir(Entries::new(alloc))),
    }
}

// What it comes to that a value is put at a path.
fn put(
    alloc: Global,
    tree: &mut Value,
    words: &[&[u8]],
    kind: Kind,
) -> Result<Result<(), PutFault>, Fail> {
    let p = path(alloc, words)?;
    if p.names().is_empty() {
        return Err(Fail::from("the root"));
    }
    Ok(tree.put(&p, value(alloc, kind)?))
}

// What stands on the tree of the tests.
const SAMPLE: &[(&[&[u8]], Kind)] = &[
    (&[b"etc"], Kind::Dir),
    (&[b"dev"], Kind::Dir),
    (&[b"dev", b"null"], Kind::Special(Special::Char)),
    (&[b"dev", b"log"], Kind::Special(Special::Socket)),
    (&[b"dev", b"initctl"], Kind::Special(Special::Fifo)),
    (&[b"dev", b"sda"], Kind::Special(Special::Block)),
    (&[b"dev", b"fd"], Kind::Link),
    (&[b"dev file"], Kind::Reg),
    (&[b"Z"], Kind::Reg),
    (&[b"\xc3\xa9"], Kind::Link),
];

fn fill(alloc: Global, tree: &mut Value) -> Result<(), Fail> {
    for row in SAMPLE {
        put(alloc, tree, row.0, row.1)??;
    }
    Ok(())
}

fn sample(alloc: Global) -> Result<Value, Fail> {
    let mut tree = Value::Dir(Entries::new(alloc));
    fill(alloc, &mut tree)?;
    Ok(tree)
}

// Whether a tree prints so, and once more behind that.
fn is_printed(alloc: Global, tree: &Value, text: &str) -> Result<bool, Memory> {
    let mut printed = print_tree(alloc, tree)?;
    let is_once = printed.as_slice() == text.as_bytes();
    put_tree(alloc, &mut printed, tree)?;
    Ok(is_once && printed.len() == text.len() + text.len())
}

// Whether a value of this kind stands at a path.
fn stands(alloc: Global, tree: &Value, words: &[&[u8]], kind: Kind) -> Result<bool, NameFault> {
    let p = path(alloc, words)?;
    match tree.at(&p) {
        None => Ok(kind == Kind::Absent),
        Some(value) => Ok(kind == value.kind() && kind != Kind::Absent),
    }
}

// Whether a value of this kind prints nothing.
fn prints_nothing(alloc: Global, kind: Kind) -> Result<bool, Memory> {
    let empty = value(alloc, kind)?;
    is_printed(alloc, &empty, "")
}

// What has no text but at a path.
const EMPTY: &[Kind] = &[
    Kind::Dir,
    Kind::Reg,
    Kind::Link,
    Kind::Absent,
    Kind::Special(Special::Block),
];

const PRINTED: &str = "f /Z
d /dev
l /dev/fd to\\x20x
p /dev/initctl
s /dev/log
c /dev/null
b /dev/sda
f /dev\\x20file
d /etc
l /\\xc3\\xa9 to\\x20x
";

// Whether the tree of the tests prints so.
fn sample_is_printed(alloc: Global) -> Result<bool, Fail> {
    let tree = sample(alloc)?;
    Ok(is_printed(alloc, &tree, PRINTED)?)
}

#[test]
fn prints(rt: HostRuntime) -> Result<(), Fail> {
    for kind in EMPTY {
        assert!(rt; prints_nothing(rt.alloc(), *kind)?);
    }
    assert!(rt; sample_is_printed(rt.alloc())?);
    Ok(())
}

// A path, the kind of what is put there, the answer, and the kind of what stands there then.
type Put = (&'static [&'static [u8]], Kind, Result<(), PutFault>, Kind);

const PUT: &[Put] = &[
    (
        &[b"usr", b"bin"],
        Kind::Reg,
        Err(PutFault::NoParent),
        Kind::Absent,
    ),
    (
        &[b"Z", b"a"],
        Kind::Absent,
        Err(PutFault::NoParent),
        Kind::Absent,
    ),
    (
        &[b"dev", b"fd", b"0"],
        Kind::Dir,
        Err(PutFault::NoParent),
        Kind::Absent,
    ),
    (&[b"usr"], Kind::Dir, Ok(()), Kind::Dir),
    (&[b"dev", b"null"], Kind::Absent, Ok(()), Kind::Absent),
    (&[b"dev", b"none"], Kind::Absent, Ok(()), Kind::Absent),
    (&[b"dev", b"fd"], Kind::Reg, Ok(()), Kind::Reg),
    (
        &[b"dev"],
        Kind::Special(Special::Fifo),
        Ok(()),
        Kind::Special(Special::Fifo),
    ),
    (
        &[b"dev", b"sda", b"a"],
        Kind::Reg,
        Err(PutFault::NoParent),
        Kind::Absent,
    ),
];

// Whether it is put so, and what stands elsewhere stays.
fn is_put(alloc: Global, row: &Put) -> Result<bool, Fail> {
    let mut tree = sample(alloc)?;
    if put(alloc, &mut tree, row.0, row.1)? != row.2 {
        return Ok(false);
    }
    Ok(stands(alloc, &tree, row.0, row.3)? && stands(alloc, &tree, &[b"Z"], Kind::Reg)?)
}

#[test]
fn puts(rt: HostRuntime) -> Result<(), Fail> {
    for row in PUT {
        assert!(rt; is_put(rt.alloc(), row)?, "{row:?}");
    }
    Ok(())
}

// Whether the tree with a value of this kind at `/dev/null` equals the other.
fn equals_with(alloc: Global, tree: &mut Value, other: &Value, kind: Kind) -> Result<bool, Fail> {
    put(alloc, tree, &[b"dev", b"null"], kind)??;
    Ok(tree.equal(other))
}

// Whether the tree differs from the other with a regular file, and with each special file but a character device, at
// `/dev/null`, and equals it with that one.
fn are_compared(alloc: Global, tree: &mut Value, other: &Value) -> Result<bool, Fail> {
    for row in COMPARED {
        if equals_with(alloc, tree, other, row.0)? != row.1 {
            return Ok(false);
        }
    }
    Ok(true)
}

// What is put at `/dev/null`, and whether the tree is the same then.
const COMPARED: &[(Kind, bool)] = &[
    (Kind::Reg, false),
    (Kind::Special(Special::Fifo), false),
    (Kind::Special(Special::Socket), false),
    (Kind::Special(Special::Block), false),
    (Kind::Special(Special::Char), true),
];

// Whether a tree equals its copy, and is compared with it so.
fn twin_is_compared(alloc: Global, tree: &mut Value) -> Result<bool, Fail> {
    let twin = tree.copy(alloc)?;
    Ok(tree.equal(&twin) && are_compared(alloc, tree, &twin)?)
}

#[test]
fn compares(rt: HostRuntime) -> Result<(), Fail> {
    let mut tree = sample(rt.alloc())?;
    let is_compared = twin_is_compared(rt.alloc(), &mut tree)?;
    assert!(rt; is_compared);
    Ok(())
}

// Two entries: `a`, a link, and `b`, a file.
fn two_entries(alloc: Global, a: &Name, b: &Name) -> Result<Entries, Memory> {
    let mut entries = Entries::new(alloc);
    entries.set(b, Value::Reg)?;
    entries.set(a, value(alloc, Kind::Link)?)?;
    Ok(entries)
}

// Whether there are two entries, of which the first is a link under this name.
fn begins_with(entries: &Entries, a: &Name) -> bool {
    match entries.get_at(0) {
        None => false,
        Some((name, value)) => {
            entries.len() == 2
                && entries.get_at(2).is_none()
                && name.equal(a)
                && value.kind() == Kind::Link
        }
    }
}

// Whether the first entry is there, and then is taken away, and the second is left.
fn are_read(alloc: Global, a: &Name, b: &Name) -> Result<bool, Memory> {
    let mut entries = two_entries(alloc, a, b)?;
    let is_first = begins_with(&entries, a);
    entries.set(a, Value::Absent)?;
    let is_gone = entries.get(a).is_none();
    let tree = Value::Dir(entries);
    Ok(is_first && is_gone && tree.entry(b).is_some())
}

// Whether the entries `a` and `b` are read so, and a file has none.
fn names_are_read(alloc: Global) -> Result<bool, NameFault> {
    let a = Name::read(alloc, b"a")?;
    let b = Name::read(alloc, b"b")?;
    Ok(are_read(alloc, &a, &b)? && Value::Reg.entry(&b).is_none())
}

#[test]
fn reads_entries(rt: HostRuntime) {
    assert!(rt; matches!(names_are_read(rt.alloc()), Ok(true)));
}

#[test]
fn sets_of_kinds(rt: HostRuntime) {
    let files = Kinds::either(Kinds::of(Kind::Reg), Kinds::of(Kind::Link));
    assert!(rt; files.has(Kind::Reg) && files.has(Kind::Link) && !files.has(Kind::Dir));
    assert!(rt; Kinds::both(files, Kinds::of(Kind::Dir)).is_none());
    assert!(rt; Kinds::both(files, Kinds::all()) == files);
    assert!(rt; !files.has(Kind::Special(Special::Fifo)));
}

#[test]
fn special_kinds(rt: HostRuntime) {
    for special in &[
        Special::Fifo,
        Special::Socket,
        Special::Block,
        Special::Char,
    ] {
        let kind = Kind::Special(*special);
        assert!(rt;
            Kinds::special().has(kind) && Kinds::of(kind).has(kind) && !Kinds::but(kind).has(kind)
        );
        assert!(rt; Kinds::both(Kinds::special(), Kinds::of(kind)) == Kinds::of(kind));
        assert!(rt; Kinds::special() != Kinds::of(kind));
    }
    let others = Kinds::both(Kinds::but(Kind::Absent), Kinds::but(Kind::Dir));
    let things = Kinds::either(Kinds::of(Kind::Reg), Kinds::of(Kind::Link));
    assert!(rt; Kinds::either(things, Kinds::special()) == others);
}
