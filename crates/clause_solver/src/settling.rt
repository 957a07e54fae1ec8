//! The greatest kinds after that of a place fell, or its fence let in fewer names: its entries are gone over by their
//! links, and nothing else.

ghost use Rattle.std.specs.Prelude.{◌≡◌, ◌↔◌, ◌<◌, ◌≢◌, ℕ, List, length, IfOk, IsTrue};
ghost use Rattle.feature_trees.specs.declared.kind.Kind.TheVariants.{Absent};
ghost use Rattle.clause_solver.specs.NameSets.{lets_in};
ghost use Rattle.clause_solver.specs.Variables.{Ordered, allowed, var_at};
ghost use Rattle.clause_solver.specs.Greatest.{kind_at};
ghost use Rattle.clause_solver.specs.Linked.{AreLinked};
ghost use Rattle.clause_solver.specs.Settled.{AreSettled, IsSettledAt, IsShut};

use crate::children::kin_at;
use crate::greatest::greatest_of_entry;
use crate::kin::Kin;
use crate::name_set::{NameSet, fence_set};
use crate::places::{kind_at, var_at};
use crate::variable::Variable;
use feature_trees::Kind;
use script_names::Memory;
use shared_table::{Shared, set_alone};
use std::alloc::Global;

/// Greatest kinds, and whether each variable whose kind changed may have its new one.
#[derive(Drop)]
pub(crate) struct Settled {
    pub(crate) best: Shared<Kind>,
    pub(crate) fits: bool,
}

// Whether a variable can be absent alone, and has another kind.
fn is_to_fall(
    vars: &Shared<Variable>,
    best: &Shared<Kind>,
    p: usize,
    fence: &Option<NameSet>,
    m: usize,
) -> bool
    requires same { length best.now ≡ length vars.now }
    requires order { Ordered vars.now }
    requires place { p < length vars.now }
    requires inside { m < length vars.now }
    requires fence { (f : List ℕ) → lets_in fence.now f ≡ allowed (var_at vars.now p).fence f }
    ensures { IsTrue result ↔ (IsShut vars.now best.now m × (kind_at best.now m ≢ Absent)) }
{
    kind_at(best, m) != Kind::Absent && greatest_of_entry(vars, best, p, fence, m) == Kind::Absent
}

/// The greatest kinds of the entries of a place, and of what stands below them, where an entry may have to be absent.
#[cycle(settle)]
pub(crate) fn settle_entries(
    alloc: Global,
    vars: &Shared<Variable>,
    kin: &Shared<Kin>,
    best: Shared<Kind>,
    p: usize,
) -> Result<Settled, Memory>
    requires same { length best ≡ length vars.now }
    requires order { Ordered vars.now }
    requires linked { AreLinked vars.now kin.now }
    requires inside { p < length vars.now }
    ensures { IfOk result (λ new. AreSettled vars.now p best new.best new.fits) }
{
    let fence = fence_set(alloc, &var_at(vars, p).fence)?;
    let mut new = best;
    let mut fits = true;
    let mut here = kin_at(kin, p).youngest;
    'entries: loop {
        match here {
            None => return Ok(Settled { best: new, fits }),
            Some(m) => {
                let entry = settle_entry(alloc, vars, kin, new, p, &fence, m as usize)?;
                fits = fits & entry.fits;
                new = entry.best;
                here = kin_at(kin, m as usize).older;
            }
        }
    }
}

// The greatest kind of an entry, and of what stands below it.
#[cycle(settle)]
fn settle_entry(
    alloc: Global,
    vars: &Shared<Variable>,
    kin: &Shared<Kin>,
    best: Shared<Kind>,
    p: usize,
    fence: &Option<NameSet>,
    m: usize,
) -> Result<Settled, Memory>
    requires same { length best ≡ length vars.now }
    requires order { Ordered vars.now }
    requires linked { AreLinked vars.now kin.now }
    requires place { p < length vars.now }
    requires inside { m < length vars.now }
    requires fence { (f : List ℕ) → lets_in fence.now f ≡ allowed (var_at vars.now p).fence f }
    ensures { IfOk result (λ new. IsSettledAt vars.now m best new.best new.fits) }
{
    if !is_to_fall(vars, &best, p, fence, m) {
        return Ok(Settled { best, fits: true });
    }
    let mut new = best;
    set_alone(&mut new, m, Kind::Absent)?;
    let below = settle_entries(alloc, vars, kin, new, m)?;
    let may = var_at(vars, m).kinds.has(Kind::Absent);
    Ok(Settled {
        best: below.best,
        fits: may & below.fits,
    })
}
