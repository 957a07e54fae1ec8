ghost use Rattle.std.specs.Prelude.{◌≡◌, ◌+◌, ◌≤◌, ◌++◌, ◌∷◌, [], length, OnOk};
ghost use Rattle.tree_clauses.specs.declared.clause.Literal.TheVariants as literal;
ghost use Rattle.act_cases.specs.Looks.{var};
ghost use Rattle.act_cases.specs.Puts.{variable_at, put_literals};

use script_names::{Copied, List, Memory, Name};
use std::alloc::Global;
use tree_clauses::{Literal, Var};

// The variable of what the first `i` names lead to, where x is that of the value that they go from, and those of the
// entries begin with y.
fn variable_at(x: u32, y: u32, i: usize) -> u32
    requires { y + i ≤ u32.MAX }
    ensures { result ≡ variable_at x y i }
{
    if i == 0 { x } else { y + ((i - 1) as u32) }
}

// Adds the literals of a value with another one under a name.
fn add_replaced(
    alloc: Global,
    literals: &mut List<Literal>,
    y: u32,
    f: &Name,
    x: u32,
    inner: u32,
) -> Result<(), Memory>
    ensures { OnOk result (literals.new ≡ literals.old
        ++ (literal.Similar (var y) (f.now ∷ []) (var x) ∷ literal.Entry (var y) f.now (var inner) ∷ [])) }
{
    let mut names = List::new(alloc);
    let name = f.copy(alloc)?;
    names.add(name)?;
    literals.add(Literal::Similar(Var(y), names, Var(x)))?;
    let name = f.copy(alloc)?;
    literals.add(Literal::Entry(Var(y), name, Var(inner)))
}

/// Adds the literals of a value with the value of `z` put at names: `x` is the variable of the value, those of the
/// entries along the names begin with `y`, and those of the values with the other one put in them begin with `r`.
pub(crate) fn add_put(
    alloc: Global,
    literals: &mut List<Literal>,
    x: u32,
    y: u32,
    names: &[Name],
    z: u32,
    r: u32,
) -> Result<(), Memory>
    requires entries { y + length names.now ≤ u32.MAX }
    requires made { r + length names.now ≤ u32.MAX }
    ensures { OnOk result (literals.new ≡ literals.old ++ put_literals x y names.now z r) }
{
    let mut inner = z;
    let mut next = r;
    let mut i = names.len();
    while i > 0 {
        i -= 1;
        let at = variable_at(x, y, i);
        add_replaced(alloc, literals, next, &names[i], at, inner)?;
        inner = next;
        next += 1;
    }
    Ok(())
}
