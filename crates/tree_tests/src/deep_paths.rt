use concrete_utils::steps::act;
use feature_trees::{Entries, Value};
use script_names::{Boxed, Bytes, Done, List, Name, NameFault, Path, Reason};
use std::alloc::Global;
use std::test::Fail;
use utility_calls::acts::Act;

// The path `/n/n/..`, of so many names, at most 64.
fn deep(alloc: Global, count: usize) -> Result<Path, NameFault> {
    let mut names = List::new(alloc);
    for _ in 0..count {
        names.add(Name::read(alloc, b"n")?)?;
    }
    if names.len() > 64 {
        return Err(NameFault::Bad);
    }
    Ok(Path::new(names, false))
}

// Puts a directory, empty, or a link to `x` at the path of so many names.
fn put(alloc: Global, tree: &mut Value, count: usize, is_dir: bool) -> Result<(), Fail> {
    let value = if is_dir {
        Value::Dir(Entries::new(alloc))
    } else {
        Value::Link(Bytes::from_slice(alloc, b"x")?)
    };
    let p = deep(alloc, count)?;
    if p.names().is_empty() {
        return Err(Fail::from("the root"));
    }
    tree.put(&p, value)?;
    Ok(())
}

// The row that the test for something at the path of 64 names takes on the tree, and its answer.
fn taken(alloc: Global, tree: &mut Value) -> Result<(u8, Done), NameFault> {
    let exists = Boxed::new(alloc, Act::Exists(deep(alloc, 64)?))?;
    Ok(act(alloc, exists.get(), tree)?)
}

// Puts directories at the paths of up to 64 names.
fn fill(alloc: Global, tree: &mut Value) -> Result<(), Fail> {
    for count in 1..65 {
        put(alloc, tree, count, true)?;
    }
    Ok(())
}

// How many names have the path of the link that is put, and the row that is taken then.
const LINKS: &[(usize, u8)] = &[(64, 65), (63, 63), (32, 32), (1, 1)];

// Whether the row is taken where a link stands at the path of so many names.
fn takes_link(alloc: Global, tree: &mut Value, row: &(usize, u8)) -> Result<bool, Fail> {
    put(alloc, tree, row.0, false)?;
    Ok(taken(alloc, tree)? == (row.1, Done::Stopped(Reason::Link)))
}

// Whether each row is taken where its link stands on the tree.
fn links_are_met(alloc: Global, tree: &mut Value) -> Result<bool, Fail> {
    for row in LINKS {
        if !takes_link(alloc, tree, row)? {
            return Ok(false);
        }
    }
    Ok(true)
}

// Whether nothing stands at the path before directories are put there, the last one then, and links stop it.
fn are_taken(alloc: Global, tree: &mut Value) -> Result<bool, Fail> {
    if taken(alloc, tree)? != (66, Done::Failed) {
        return Ok(false);
    }
    fill(alloc, tree)?;
    Ok(taken(alloc, tree)? == (67, Done::Ok) && links_are_met(alloc, tree)?)
}

#[test]
fn takes_rows_of_the_longest_path(rt: HostRuntime) -> Result<(), Fail> {
    let mut tree = Value::Dir(Entries::new(rt.alloc()));
    let are_taken = are_taken(rt.alloc(), &mut tree)?;
    assert!(rt; are_taken);
    Ok(())
}
