ghost use Rattle.std.specs.Prelude.{◌≡◌, IfOk, OnOk};
ghost use Rattle.std.specs.BTreeSet.{contains};
ghost use Rattle.std.specs.Ordering.{nat_cmp};
ghost use Rattle.start_facts.specs.Asked.{asked_by, asked_of};

use script_names::Memory;
use std::alloc::Global;
use std::collections::BTreeSet;
use tree_clauses::Literal;

// Adds what a literal asks for to what is asked for later.
fn ask(asked: &mut BTreeSet<u32>, literal: &Literal) -> Result<(), Memory>
    ensures { OnOk result
        (contains nat_cmp asked.new ≡ asked_by literal.now (contains nat_cmp asked.old)) }
{
    match literal {
        Literal::Entry(_, _, _) => Ok(()),
        Literal::Kind(_, _) => Ok(()),
        Literal::Fence(x, _) => {
            asked.insert(x.0)?;
            Ok(())
        }
        Literal::NotEmpty(x) => {
            asked.insert(x.0)?;
            Ok(())
        }
        Literal::Similar(y, _, x) => {
            if !asked.contains(&y.0) {
                return Ok(());
            }
            asked.insert(x.0)?;
            Ok(())
        }
        Literal::Target(_, _) => Ok(()),
    }
}

/// The variables whose names literals ask for.
pub(crate) fn asked_of(alloc: Global, literals: &[Literal]) -> Result<BTreeSet<u32>, Memory>
    ensures { IfOk result (λ asked. contains nat_cmp asked ≡ asked_of literals.now) }
{
    let mut asked = BTreeSet::new(alloc);
    let mut k = literals.len();
    while k > 0 {
        k -= 1;
        ask(&mut asked, &literals[k])?;
    }
    Ok(asked)
}
