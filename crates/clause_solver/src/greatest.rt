ghost use Rattle.std.specs.Prelude.{◌≡◌, ℕ, ◌<◌, ◌↔◌, List, [], ◌∷◌, length, IsTrue, ◌≢◌};
ghost use Rattle.std.specs.Prelude.{◌⊎◌, IfSome, OnOk};
ghost use Rattle.clause_solver.specs.Variables.{Ordered, Listed, member, allowed, var_at, is_node, made_value};
ghost use Rattle.clause_solver.specs.Greatest.{HasEntryOutside, IsOpen, IsPresentChild, kind_at, best_by, best_of};
ghost use Rattle.clause_solver.specs.Greatest.{choose, choose_special, unfenced_if};
ghost use Rattle.clause_solver.specs.Appends.{Within};
ghost use Rattle.clause_solver.specs.Linked.{AreLinked};
ghost use Rattle.clause_solver.specs.NameSets.{has, lets_in};
ghost use Rattle.clause_solver.specs.ReplacedNames.{HasReplaced, names};
ghost use Rattle.clause_solver.specs.Settled.{WasGreatest};
ghost use Rattle.feature_trees.specs.Tree.{kind_of};
ghost use Rattle.feature_trees.specs.declared.kind.Kind.TheVariants.{Absent};

use crate::children::kin_at;
use crate::kin::Kin;
use crate::name_set::{NameSet, lets_in};
use crate::places::{definition_at, kind_at, var_at};
use crate::variable::{Definition, MadeValue, Variable};
use feature_trees::{Kind, Kinds, Special};
use script_names::{List, Memory, Name};
use shared_table::Shared;
use std::alloc::Global;
use std::cmp::Ordering;

// The greatest kind of a set: a directory where it may be one, then a file, a link or a special kind, and absent last.
pub(crate) fn choose(kinds: Kinds) -> Kind
    ensures { result ≡ choose kinds }
{
    if kinds.has(Kind::Dir) {
        Kind::Dir
    } else if kinds.has(Kind::Reg) {
        Kind::Reg
    } else if kinds.has(Kind::Link) {
        Kind::Link
    } else {
        choose_special(kinds)
    }
}

// The first of the special kinds in a set, or absent.
fn choose_special(kinds: Kinds) -> Kind
    ensures { result ≡ choose_special kinds }
{
    if kinds.fifo {
        Kind::Special(Special::Fifo)
    } else if kinds.socket {
        Kind::Special(Special::Socket)
    } else if kinds.block {
        Kind::Special(Special::Block)
    } else if kinds.char {
        Kind::Special(Special::Char)
    } else {
        Kind::Absent
    }
}

/// Whether the name is one of these.
pub(crate) fn is_member(names: &[Name], f: &Name) -> bool
    ensures { result ≡ member f.now names.now }
{
    names.iter().any(|g| f.compare(g) == Ordering::Equal)
}

/// Whether a fence lets the name in.
pub(crate) fn allows(fence: &Option<List<Name>>, f: &Name) -> bool
    ensures { result ≡ allowed fence.now f.now }
{
    match fence {
        None => true,
        Some(names) => is_member(names.as_slice(), f),
    }
}

// The kind of a made value.
pub(crate) fn kind_made(value: &MadeValue) -> Kind
    ensures { result ≡ kind_of (made_value value.now) }
{
    match value {
        MadeValue::Absent => Kind::Absent,
        MadeValue::Reg => Kind::Reg,
        MadeValue::Link(_) => Kind::Link,
        MadeValue::Dir => Kind::Dir,
    }
}

// The greatest kind by a definition, given those of the earlier variables.
pub(crate) fn greatest_by(
    vars: &Shared<Variable>,
    best: &Shared<Kind>,
    kinds: Kinds,
    definition: &Definition,
) -> Kind
    requires same { length best.now ≡ length vars.now }
    requires within { Within vars.now definition.now }
    ensures { result ≡ best_by vars.now best.now kinds definition.now }
{
    match definition {
        Definition::Start => choose(kinds),
        Definition::Child(of, f) => {
            let of = *of as usize;
            if kind_at(best, of) == Kind::Dir && allows(&var_at(vars, of).fence, f) {
                choose(kinds)
            } else {
                Kind::Absent
            }
        }
        Definition::Derived(_, _, _) => Kind::Dir,
        Definition::Ensured(_) => Kind::Dir,
        Definition::Made(value) => kind_made(value),
    }
}

/// The greatest kind of a variable, given those of the earlier ones.
pub(crate) fn greatest(vars: &Shared<Variable>, best: &Shared<Kind>, i: usize) -> Kind
    requires same { length best.now ≡ length vars.now }
    requires order { Ordered vars.now }
    requires inside { i < length vars.now }
    ensures { result ≡ best_of vars.now best.now i }
{
    greatest_by(vars, best, var_at(vars, i).kinds, definition_at(vars, i))
}

/// The greatest kind of a variable, given those of the earlier ones, where the place p has a fence with these names.
pub(crate) fn greatest_of_entry(
    vars: &Shared<Variable>,
    best: &Shared<Kind>,
    p: usize,
    fence: &Option<NameSet>,
    m: usize,
) -> Kind
    requires same { length best.now ≡ length vars.now }
    requires order { Ordered vars.now }
    requires place { p < length vars.now }
    requires inside { m < length vars.now }
    requires fence { (f : List ℕ) → lets_in fence.now f ≡ allowed (var_at vars.now p).fence f }
    ensures { result ≡ best_of vars.now best.now m }
{
    match definition_at(vars, m) {
        Definition::Child(of, f) => {
            if *of as usize != p {
                return greatest(vars, best, m);
            }
            if kind_at(best, p) == Kind::Dir && lets_in(fence, f) {
                choose(var_at(vars, m).kinds)
            } else {
                Kind::Absent
            }
        }
        _ => greatest(vars, best, m),
    }
}

/// The greatest kind of a variable that was narrowed, given those of the earlier ones and its own from before. Whether
/// the fence of its place lets it in, that one says.
pub(crate) fn greatest_narrowed(vars: &Shared<Variable>, best: &Shared<Kind>, x: usize) -> Kind
    requires same { length best.now ≡ length vars.now }
    requires order { Ordered vars.now }
    requires inside { x < length vars.now }
    requires was { WasGreatest vars.now best.now x }
    ensures { result ≡ best_of vars.now best.now x }
{
    match definition_at(vars, x) {
        Definition::Child(_, _) => {
            if is_same(kind_at(best, x), Kind::Absent) {
                return Kind::Absent;
            }
            choose(var_at(vars, x).kinds)
        }
        _ => greatest(vars, best, x),
    }
}

/// Whether two kinds are the same.
pub(crate) fn is_same(a: Kind, b: Kind) -> bool
    ensures { IsTrue result ↔ (a ≡ b) }
{
    a == b
}

/// The names whose entries were replaced on the way down to a variable, the last one first.
#[derive(Drop)]
pub(crate) enum ReplacedNames<'a> {
    Nothing,
    Also(&'a Name, &'a ReplacedNames<'a>),
}

// Whether the name is one of the replaced names.
fn listed(replaced: &ReplacedNames, f: &Name) -> bool
    ensures { IsTrue result ↔ Listed f.now (names replaced.now) }
{
    match replaced {
        ReplacedNames::Nothing => false,
        ReplacedNames::Also(g, below) => f.equal(g) || listed(below, f),
    }
}

// Adds the replaced names to a set.
fn add_replaced(set: &mut NameSet, replaced: &ReplacedNames) -> Result<(), Memory>
    ensures { OnOk result ((f : List ℕ)
        → (IsTrue (has set.new f) ↔ (Listed f (names replaced.now) ⊎ IsTrue (has set.old f)))) }
{
    match replaced {
        ReplacedNames::Nothing => Ok(()),
        ReplacedNames::Also(g, below) => {
            set.add(g)?;
            add_replaced(set, below)?;
            Ok(())
        }
    }
}

// The replaced names as a set; there is none for want of memory.
fn replaced_set(alloc: Global, replaced: &ReplacedNames) -> Option<NameSet>
    ensures { IfSome result (HasReplaced (names replaced.now)) }
{
    let mut set = NameSet::new(alloc);
    match add_replaced(&mut set, &*replaced) {
        Ok(()) => Some(set),
        Err(_) => None,
    }
}

// Whether the name is one of the replaced names, which the set has where there is one.
fn is_replaced(known: &Option<NameSet>, replaced: &ReplacedNames, f: &Name) -> bool
    requires { IfSome known.now (HasReplaced (names replaced.now)) }
    ensures { IsTrue result ↔ Listed f.now (names replaced.now) }
{
    match known {
        None => listed(&*replaced, f),
        Some(set) => set.has(f),
    }
}

// Whether a place may have any entry, where places without a fence are counted.
fn is_open(vars: &Shared<Variable>, best: &Shared<Kind>, counted: bool, x: usize) -> bool
    requires same { length best.now ≡ length vars.now }
    requires inside { x < length vars.now }
    ensures { IsTrue result ↔ IsOpen best.now (unfenced_if vars.now counted) x }
{
    counted && kind_at(best, x) == Kind::Dir && var_at(vars, x).fence.is_none()
}

// Whether the variable m is an entry of x outside the replaced names, and is there.
fn is_present_child(
    vars: &Shared<Variable>,
    best: &Shared<Kind>,
    x: usize,
    known: &Option<NameSet>,
    replaced: &ReplacedNames,
    m: usize,
) -> bool
    requires same { length best.now ≡ length vars.now }
    requires inside { m < length vars.now }
    requires known { IfSome known.now (HasReplaced (names replaced.now)) }
    ensures { IsTrue result ↔ IsPresentChild vars.now best.now x (names replaced.now) m }
{
    match definition_at(vars, m) {
        Definition::Child(of, f) => *of as usize == x
            && kind_at(best, m) != Kind::Absent
            && !is_replaced(known, &*replaced, f),
        _ => false,
    }
}

/// Whether some entry of x outside the replaced names is there.
pub(crate) fn some_present_child(
    vars: &Shared<Variable>,
    best: &Shared<Kind>,
    kin: &Shared<Kin>,
    x: usize,
    known: &Option<NameSet>,
    replaced: &ReplacedNames,
) -> bool
    requires same { length best.now ≡ length vars.now }
    requires linked { AreLinked vars.now kin.now }
    requires inside { x < length vars.now }
    requires known { IfSome known.now (HasReplaced (names replaced.now)) }
    ensures { IsTrue result
        ↔ ((m : ℕ) × (m < length vars.now) × IsPresentChild vars.now best.now x (names replaced.now) m) }
{
    let mut here = kin_at(kin, x).youngest;
    'entries: loop {
        match here {
            None => return false,
            Some(m) => {
                if is_present_child(vars, best, x, known, &*replaced, m as usize) {
                    return true;
                }
                here = kin_at(kin, m as usize).older;
            }
        }
    }
}

// Whether a place has an entry outside the replaced names, among the greatest kinds.
fn node_has_entry(
    alloc: Global,
    vars: &Shared<Variable>,
    best: &Shared<Kind>,
    kin: &Shared<Kin>,
    counted: bool,
    x: usize,
    replaced: &ReplacedNames,
) -> bool
    requires same { length best.now ≡ length vars.now }
    requires order { Ordered vars.now }
    requires linked { AreLinked vars.now kin.now }
    requires inside { x < length vars.now }
    requires node { IsTrue (is_node (var_at vars.now x).definition) }
    ensures { IsTrue result ↔ HasEntryOutside vars.now best.now (unfenced_if vars.now counted) x (names replaced.now) }
{
    if is_open(vars, best, counted, x) {
        return true;
    }
    let none = ReplacedNames::Nothing;
    let any = some_present_child(vars, best, kin, x, &None, &none);
    if !any {
        return false;
    }
    let known = replaced_set(alloc, &*replaced);
    some_present_child(vars, best, kin, x, &known, &*replaced)
}

// Whether the entry f, which is y's value, is outside the replaced names and is there.
fn is_shown(best: &Shared<Kind>, y: usize, replaced: &ReplacedNames, f: &Name) -> bool
    requires { y < length best.now }
    ensures { IsTrue result ↔ ((kind_at best.now y ≢ Absent) × (¬ (Listed f.now (names replaced.now)))) }
{
    kind_at(best, y) != Kind::Absent && !listed(&*replaced, f)
}

/// Whether a variable has an entry outside the replaced names, among the greatest kinds;
/// places without a fence may be counted as having one more, or not.
pub(crate) fn has_entry_outside(
    alloc: Global,
    vars: &Shared<Variable>,
    best: &Shared<Kind>,
    kin: &Shared<Kin>,
    counted: bool,
    x: usize,
    replaced: &ReplacedNames,
) -> bool
    requires same { length best.now ≡ length vars.now }
    requires order { Ordered vars.now }
    requires linked { AreLinked vars.now kin.now }
    requires inside { x < length vars.now }
    ensures { IsTrue result ↔ HasEntryOutside vars.now best.now (unfenced_if vars.now counted) x (names replaced.now) }
{
    match definition_at(vars, x) {
        Definition::Start => node_has_entry(alloc, vars, best, kin, counted, x, &*replaced),
        Definition::Child(_, _) => node_has_entry(alloc, vars, best, kin, counted, x, &*replaced),
        Definition::Derived(of, f, y) => {
            let of = *of as usize;
            if is_shown(best, *y as usize, &*replaced, f) {
                return true;
            }
            let deeper = ReplacedNames::Also(f, &*replaced);
            has_entry_outside(alloc, vars, best, kin, counted, of, &deeper)
        }
        Definition::Ensured(of) => has_entry_outside(
            alloc,
            vars,
            best,
            kin,
            counted,
            *of as usize,
            &*replaced,
        ),
        Definition::Made(_) => false,
    }
}
