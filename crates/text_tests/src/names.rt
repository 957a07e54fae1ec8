use script_names::{
    Boxed, Bytes, Copied, Done, List, MAX_NAMES, Mark, Memory, Name, NameFault, Path, PathFault,
    Reason, Site, Slot, Text,
};
use std::alloc::Global;
use std::cmp::Ordering;
use std::process::Abort;
use std::test::Fail;

// Bytes, and whether they are a name.
const NAMES: &[(&[u8], bool)] = &[
    (b"", false),
    (b"a", true),
    (b".", false),
    (b"..", false),
    (b"...", true),
    (b".a", true),
    (b"a.", true),
    (b"a/b", false),
    (b"/", false),
    (b"a\0", false),
    (b" ", true),
    (b"\xff\n", true),
];

// Whether the bytes are read as the name of these bytes where they are one, and as none elsewhere.
fn is_read(alloc: Global, bytes: &[u8], is_name: bool) -> Result<bool, Memory> {
    match Name::read(alloc, bytes) {
        Ok(name) => Ok(is_name && name.as_slice() == bytes),
        Err(NameFault::Bad) => Ok(!is_name),
        Err(NameFault::Memory) => Err(Memory),
    }
}

#[test]
fn names_are_read(rt: HostRuntime) {
    for row in NAMES {
        assert!(rt;
            matches!(is_read(rt.alloc(), row.0, row.1), Ok(true)),
            "{row:?}"
        );
    }
}

#[test]
fn names_have_at_most_255_bytes(rt: HostRuntime) {
    assert!(rt; matches!(is_read(rt.alloc(), &[b'n'; 255], true), Ok(true)));
    assert!(rt; matches!(is_read(rt.alloc(), &[b'n'; 256], false), Ok(true)));
}

fn list_grows(alloc: Global) -> Result<bool, Memory> {
    let mut list = List::new(alloc);
    if list.push(3u32).is_err() {
        return Ok(false);
    }
    list.add(4)?;
    let read = list.len() == 2 && list.get(1) == Some(&4) && list.get(2).is_none();
    let items = list.into_vec();
    Ok(read && items.as_slice() == [3, 4].as_slice())
}

fn bytes_grow(alloc: Global) -> Result<bool, Memory> {
    let mut bytes = Bytes::from_slice(alloc, b"ab")?;
    bytes.push(b'c')?;
    bytes.extend(b"de")?;
    let grown = bytes.as_slice() == b"abcde".as_slice();
    bytes.truncate(3);
    Ok(grown && bytes.as_slice() == b"abc".as_slice())
}

#[test]
fn lists_and_bytes_grow(rt: HostRuntime) {
    assert!(rt; matches!(list_grows(rt.alloc()), Ok(true)));
    assert!(rt; matches!(bytes_grow(rt.alloc()), Ok(true)));
}

// A copy, made with ample memory, is there and equals its source.
fn copies<R: Abort + AllocGlobal, T: Copied + PartialEq>(rt: &R, value: T) {
    match value.copy(rt.alloc()) {
        Ok(copy) => assert!(rt; copy == value),
        Err(_) => assert!(rt; false, "memory"),
    }
}

#[test]
fn plain_values_are_copied(rt: HostRuntime) {
    let site = Site { step: 3, at: 17 };
    copies(&rt, true);
    copies(&rt, 200u8);
    copies(&rt, 60_000u16);
    copies(&rt, 4_000_000_000u32);
    copies(&rt, 1u64 << 63);
    copies(&rt, 1u128 << 127);
    copies(&rt, 9usize);
    copies(&rt, -5i8);
    copies(&rt, -500i16);
    copies(&rt, -70_000i32);
    copies(&rt, -5_000_000_000i64);
    copies(&rt, -1i128);
    copies(&rt, -2isize);
    copies(&rt, Some(7u8));
    copies(&rt, None::<u8>);
    copies(&rt, site);
    copies(&rt, Mark { site, row: 71 });
    copies(&rt, Reason::Glob);
    copies(&rt, Done::Stopped(Reason::Link));
}

fn list_is_copied(alloc: Global) -> Result<bool, Memory> {
    let mut list = List::new(alloc);
    list.add(3u32)?;
    let copy = list.copy(alloc)?;
    Ok(copy.as_slice() == [3].as_slice())
}

fn bytes_are_copied(alloc: Global) -> Result<bool, Memory> {
    let copy = Bytes::from_slice(alloc, b"ab")?.copy(alloc)?;
    Ok(copy.as_slice() == b"ab".as_slice())
}

fn text_is_copied(alloc: Global) -> Result<bool, Memory> {
    let copy = Text::from_text(alloc, "colis")?.copy(alloc)?;
    Ok(copy.as_str() == "colis")
}

fn box_is_copied(alloc: Global) -> Result<bool, Memory> {
    let copy = Boxed::new(alloc, 7u8)?.copy(alloc)?;
    Ok(*copy.get() == 7 && copy.into_inner() == 7)
}

fn name_is_copied(alloc: Global) -> Result<bool, NameFault> {
    let copy = Name::read(alloc, b"srv")?.copy(alloc)?;
    Ok(copy.as_slice() == b"srv".as_slice())
}

fn path_is_copied(alloc: Global) -> Result<bool, PathFault> {
    let path = Path::read(alloc, b"srv/www/")?;
    let copy = path.copy(alloc)?;
    Ok(copy.same_names(&path) && copy.slash())
}

#[test]
fn owned_values_are_copied(rt: HostRuntime) {
    let alloc = rt.alloc();
    assert!(rt; list_is_copied(alloc) == Ok(true));
    assert!(rt; bytes_are_copied(alloc) == Ok(true));
    assert!(rt; text_is_copied(alloc) == Ok(true));
    assert!(rt; box_is_copied(alloc) == Ok(true));
    assert!(rt; name_is_copied(alloc) == Ok(true));
    assert!(rt; path_is_copied(alloc) == Ok(true));
}

fn slots_have_what_was_put(alloc: Global) -> Result<bool, Memory> {
    let none: Slot<u8> = Slot::empty(alloc);
    let one = Slot::new(alloc, 7u8)?;
    Ok(none.is_none() && none.get().is_none() && !one.is_none() && one.get() == Some(&7))
}

#[test]
fn a_slot_has_one_value_or_none(rt: HostRuntime) {
    assert_eq!(rt; slots_have_what_was_put(rt.alloc()), Ok(true));
}

// How many names a path has, whether a slash is given, and whether it stands.
const SLASHES: &[(usize, bool, bool)] = &[
    (0, false, false),
    (0, true, false),
    (1, false, false),
    (1, true, true),
];

// Whether the path of so many names has a slash, where one is given or none.
fn slash_of(alloc: Global, count: usize, slash: bool) -> Result<bool, NameFault> {
    let mut names = List::new(alloc);
    for _ in 0..count {
        names.add(Name::read(alloc, b"srv")?)?;
    }
    if names.len() > MAX_NAMES {
        return Err(NameFault::Bad);
    }
    Ok(Path::new(names, slash).slash())
}

#[test]
fn a_slash_stands_behind_a_name(rt: HostRuntime) -> Result<(), Fail> {
    for row in SLASHES {
        assert!(rt; slash_of(rt.alloc(), row.0, row.1)? == row.2, "{row:?}");
    }
    Ok(())
}

// The step, the offset and the row of marks, each behind the one before it.
const RISING: &[(u16, u32, u8)] = &[
    (0, 9, 9),
    (1, 0, 9),
    (1, 1, 0),
    (1, 1, 1),
    (1, 2, 0),
    (2, 0, 0),
];

fn mark(row: &(u16, u32, u8)) -> Mark {
    Mark {
        site: Site {
            step: row.0,
            at: row.1,
        },
        row: row.2,
    }
}

// Whether a mark is less than another, and its site not greater.
fn is_below(first: Mark, second: Mark) -> bool {
    first.cmp(&second) == Ordering::Less && first.site.cmp(&second.site) != Ordering::Greater
}

#[test]
fn marks_are_ordered_by_their_fields(rt: HostRuntime) {
    for i in 1..RISING.len() {
        assert!(rt; is_below(mark(&RISING[i - 1]), mark(&RISING[i])), "{i}");
    }
    assert!(rt; Done::Stopped(Reason::Link) != Done::Stopped(Reason::Slash));
}
