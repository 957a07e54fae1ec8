ghost use Rattle.std.specs.Prelude.{◌≡◌, map, IfOk};
ghost use Rattle.tree_clauses.specs.MadeValues.{is_first, once};
ghost use Rattle.tree_clauses.specs.Solved.{IsInOrder};

use script_names::{Memory, Name};
use std::alloc::Global;

/// Each of the names once, in the order of their bytes.
pub(crate) fn in_order(alloc: Global, names: &[Name]) -> Result<Vec<&[u8]>, Memory>
    ensures { IfOk result (λ rising. IsInOrder names.now (map (λ f. f.now) rising.items)) }
{
    let mut all = listed(alloc, names)?;
    all.sort()?;
    Ok(each_once(alloc, &all)?)
}

// The bytes of each name.
fn listed(alloc: Global, names: &[Name]) -> Result<Vec<&[u8]>, Memory>
    ensures { IfOk result (λ all. map (λ f. f.now) all.items ≡ names.now) }
{
    let mut all = Vec::new(alloc);
    for name in names {
        all.push(name.as_slice())?;
    }
    Ok(all)
}

// Each of them but those that the same one follows.
fn each_once<'a>(alloc: Global, names: &[&'a [u8]]) -> Result<Vec<&'a [u8]>, Memory>
    ensures { IfOk result (λ kept. map (λ f. f.now) kept.items ≡ once (map (λ f. f.now) names.now)) }
{
    let mut kept = Vec::new(alloc);
    let mut left = names;
    while let [f, rest @ ..] = left {
        if !is_first(f, rest) {
            kept.push(*f)?;
        }
        left = rest;
    }
    Ok(kept)
}

// Whether the first of the names is this one.
fn is_first(f: &[u8], names: &[&[u8]]) -> bool
    ensures { result ≡ is_first f.now (map (λ g. g.now) names.now) }
{
    match names {
        [] => false,
        [g, ..] => f == *g,
    }
}
