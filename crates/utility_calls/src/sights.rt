ghost use Rattle.std.specs.Prelude.{◌≡◌};
ghost use Rattle.feature_trees.specs.declared.kind.Kind.TheVariants.{Dir};
ghost use Rattle.feature_trees.specs.Kinds.{has, of};
ghost use Rattle.utility_calls.specs.Sights.{holds};
ghost use Rattle.utility_calls.specs.Table.{is_source, rule_holds, row_of, stop};
ghost use Rattle.utility_calls.specs.Acts.{link_row, slash_row};

use feature_trees::{Kind, Kinds};
use script_names::{Copied, Done, Memory, Reason};
use std::alloc::Global;

/// What a row looks at on a tree: what stands at a path, and what stands below it under one name.
#[derive(Clone, Copy, Debug, PartialEq, Eq)]
pub struct Sight {
    /// Whether what holds the path's last name is a directory.
    pub in_dir: bool,
    /// The kind of what stands at the path.
    pub kind: Kind,
    /// Whether that is a directory with an entry.
    pub filled: bool,
    /// The kind of what stands below it.
    pub inner: Kind,
    /// Whether that is a directory with an entry.
    pub inner_filled: bool,
}

impl Copied for Sight {
    fn copy(&self, _alloc: Global) -> Result<Sight, Memory> {
        Ok(*self)
    }
}

/// The condition of a row, in which V is what stands at the path, P what holds the path's last name, and W what stands
/// below the path.
#[derive(Clone, Copy, Debug, PartialEq, Eq)]
pub enum Where {
    /// Whatever is seen.
    Anything,
    /// V is of one of these kinds.
    Is(Kinds),
    /// P is a directory.
    Within,
    /// P is a directory, and V is of one of these kinds.
    Inside(Kinds),
    /// P is no directory.
    Outside,
    /// V is a directory without an entry.
    Empty,
    /// V is a directory with an entry.
    Full,
    /// V is a directory, and W is of one of these kinds.
    Into(Kinds),
    /// V and W are directories, W without an entry.
    IntoEmpty,
    /// V and W are directories, W with an entry.
    IntoFull,
}

impl Copied for Where {
    fn copy(&self, _alloc: Global) -> Result<Where, Memory> {
        Ok(*self)
    }
}

/// What a row does to the tree.
#[derive(Clone, Copy, Debug, PartialEq, Eq)]
pub enum Effect {
    Nothing,
    /// An empty directory is put at the path.
    MakesDir,
    /// A directory is put at the path, with the entries that one there has.
    KeepsDir,
    /// A regular file is put at the path.
    MakesFile,
    /// A link with the act's target is put at the path.
    MakesLink,
    /// A link with the act's target is put under its last name below the path.
    LinksInside,
    /// What stands at the path is taken away.
    TakesAway,
    /// What stands at the path is moved to the other one. For a back: what stood at the path in the kept tree is put
    /// there.
    Moves,
    /// What stands at the path is moved below the other one, under its last name.
    MovesInside,
    /// What stands at the path is put at the other one too.
    Copies,
    /// What stands at the path is put below the other one too, under its last name.
    CopiesInside,
}

impl Copied for Effect {
    fn copy(&self, _alloc: Global) -> Result<Effect, Memory> {
        Ok(*self)
    }
}

/// A row of the table of the acts or of the backs: its number, its condition, and what it comes to. `source` are the
/// kinds of what is moved or copied, or of what stood at the path in the kept tree, where they matter.
#[derive(Clone, Copy, Debug, PartialEq, Eq)]
pub struct Rule {
    pub number: u8,
    pub source: Option<Kinds>,
    pub place: Where,
    pub answer: Done,
    pub effect: Effect,
}

impl Copied for Rule {
    fn copy(&self, _alloc: Global) -> Result<Rule, Memory> {
        Ok(*self)
    }
}

/// What a row of an act or of a back comes to.
#[derive(Clone, Copy, Debug, PartialEq, Eq)]
pub struct Row {
    pub number: u8,
    pub answer: Done,
    pub effect: Effect,
}

impl Copied for Row {
    fn copy(&self, _alloc: Global) -> Result<Row, Memory> {
        Ok(*self)
    }
}

// Whether a kind is that of a directory.
fn is_dir(kind: Kind) -> bool
    ensures { result ≡ has (of Dir) kind }
{
    Kinds::of(Kind::Dir).has(kind)
}

// Whether the condition of a row holds of what is seen.
fn holds(place: Where, seen: &Sight) -> bool
    ensures { result ≡ holds place seen.now }
{
    match place {
        Where::Anything => true,
        Where::Is(kinds) => kinds.has(seen.kind),
        Where::Within => seen.in_dir,
        Where::Inside(kinds) => seen.in_dir && kinds.has(seen.kind),
        Where::Outside => !seen.in_dir,
        Where::Empty => is_dir(seen.kind) && !seen.filled,
        Where::Full => is_dir(seen.kind) && seen.filled,
        Where::Into(kinds) => is_dir(seen.kind) && kinds.has(seen.inner),
        Where::IntoEmpty => is_dir(seen.kind) && is_dir(seen.inner) && !seen.inner_filled,
        Where::IntoFull => is_dir(seen.kind) && is_dir(seen.inner) && seen.inner_filled,
    }
}

// Whether what is moved or copied is of one of these kinds, where they matter.
fn is_source(kinds: Option<Kinds>, source: Kind) -> bool
    ensures { result ≡ is_source kinds source }
{
    match kinds {
        None => true,
        Some(kinds) => kinds.has(source),
    }
}

impl Rule {
    /// Whether the row applies to what is moved or copied, by its kind, and to what is seen.
    pub fn holds(&self, source: Kind, seen: &Sight) -> bool
        ensures { result ≡ rule_holds source seen.now self.now }
    {
        is_source(self.source, source) && holds(self.place, seen)
    }

    /// What the row comes to.
    pub fn row(&self) -> Row
        ensures { result ≡ row_of self.now }
    {
        Row {
            number: self.number,
            answer: self.answer,
            effect: self.effect,
        }
    }
}

impl Row {
    /// The row of a link on the way, at the first so many names of a path; 128 more for those of a second path.
    pub fn of_link(number: u8) -> Row
        ensures { result ≡ link_row number }
    {
        Row {
            number,
            answer: Done::Stopped(Reason::Link),
            effect: Effect::Nothing,
        }
    }

    /// The row of a slash behind a file, a link or a special file.
    pub fn of_slash() -> Row
        ensures { result ≡ slash_row }
    {
        Row {
            number: 64,
            answer: Done::Stopped(Reason::Slash),
            effect: Effect::Nothing,
        }
    }
}
