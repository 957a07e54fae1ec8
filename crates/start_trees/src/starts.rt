ghost use Rattle.std.specs.Prelude.{◌≡◌, ◌↔◌, ◌<◌, IfOk, OnOk, IsTrue};
ghost use Rattle.feature_trees.specs.declared.value.Value.{Value as ValueOf};
ghost use Rattle.clause_solver.specs.Pairs.{HasPair};
ghost use Rattle.clause_solver.specs.Stands.{Alive};
ghost use Rattle.start_trees.specs.Needs.{MeetsNeed, Leaves, AreStarts};

use crate::need::{Need, Wanted};
use clause_solver::Store;
use script_names::{List, Memory};
use std::alloc::Global;
use tree_clauses::Var;

// Leaves the pairs in which a variable is as wanted, and says whether one is left; there may be further variables.
fn want(store: &mut Store, x: Var, wanted: &Wanted) -> Result<bool, Memory>
    requires { x.0 < store.old.count }
    ensures leaves { OnOk result (Leaves store.old store.new x.0 wanted.now) }
    ensures alive { IfOk result (λ left. IsTrue left ↔ Alive store.new) }
{
    match wanted {
        Wanted::Kinds(kinds) => {
            let left = store.limit(x, *kinds)?;
            Ok(left)
        }
        Wanted::Names(names) => {
            let left = store.fence(x, names)?;
            Ok(left)
        }
        Wanted::Target(target) => {
            let left = store.lead(x, target)?;
            Ok(left)
        }
    }
}

// Leaves the pairs whose tree now has what is needed, and says whether one is left.
fn require(store: &mut Store, need: &Need) -> Result<bool, Memory>
    ensures pairs { OnOk result ((t u : ValueOf) → HasPair store.new t u
        ↔ (HasPair store.old t u × MeetsNeed u need.now)) }
    ensures alive { IfOk result (λ left. IsTrue left ↔ Alive store.new) }
{
    let mut x = store.now();
    for f in need.path.names() {
        x = store.child(x, f)?;
    }
    let left = want(store, x, &need.wanted)?;
    Ok(left)
}

/// The store of the trees of files that have what is needed, each with itself as the tree now; None exactly where there
/// is no such tree.
pub fn start_store(alloc: Global, needs: &List<Need>) -> Result<Option<Store>, Memory>
    ensures { IfOk result (λ found. AreStarts found needs.now) }
{
    let mut store = Store::start(alloc)?;
    for need in needs.as_slice() {
        let left = require(&mut store, need)?;
        if !left {
            return Ok(None);
        }
    }
    Ok(Some(store))
}
