ghost use Rattle.std.specs.Prelude.{◌≡◌, ◌+◌, ◌<◌, ◌≤◌, ◌*◌, [], ◌∷◌, ◌++◌, length, IfOk, IsTrue};
ghost use Rattle.clause_solver.specs.NewNames.{beginning, begins, name_used, is_letter, IsNew};

use crate::places::definition_at;
use crate::variable::{Definition, MOST_VARIABLES, Variable};
use script_names::{Memory, Name, NameFault};
use shared_table::Shared;
use std::alloc::Global;

// Whether the bytes begin with p and then x.
fn goes_on(p: &[u8], x: u8, bytes: &[u8]) -> bool
    ensures { result ≡ begins (p.now ++ x ∷ []) bytes.now }
{
    match bytes {
        [] => false,
        [b, rest @ ..] => match p {
            [] => x == *b,
            [a, more @ ..] => *a == *b && goes_on(more, x, rest),
        },
    }
}

// Whether the name in a definition begins with p and then x.
fn uses(p: &[u8], x: u8, definition: &Definition) -> bool
    ensures { result ≡ begins (p.now ++ x ∷ []) (name_used definition.now) }
{
    match definition {
        Definition::Child(_, f) => goes_on(p, x, f.as_slice()),
        Definition::Derived(_, f, _) => goes_on(p, x, f.as_slice()),
        _ => goes_on(p, x, &[]),
    }
}

// How many names in definitions begin with p and then x.
fn count_going_on(vars: &Shared<Variable>, p: &[u8], x: u8) -> usize
    ensures { result ≡ beginning (p.now ++ x ∷ []) vars.now }
{
    let mut count = 0;
    for i in 0..vars.len() {
        if uses(p, x, definition_at(vars, i)) {
            count += 1;
        }
    }
    count
}

// A letter that fewer than `room` of the names go on with behind p, and a bound on how many do. Where at most `left`
// names begin with p, and these are few already, no name is looked at.
fn next_letter(vars: &Shared<Variable>, p: &[u8], room: usize, left: usize) -> (u8, usize)
    requires most { beginning p.now vars.now ≤ left }
    requires left { left < 2 * room }
    ensures letter { IsTrue (is_letter result.0) }
    ensures most { beginning (p.now ++ result.0 ∷ []) vars.now ≤ result.1 }
    ensures few { result.1 < room }
{
    if left < room {
        return (b'a', left);
    }
    let count = count_going_on(vars, p, b'a');
    if count < room {
        (b'a', count)
    } else {
        (b'b', left - count)
    }
}

// So many names have 32 letters, of which each is one of two.
const ALL_NAMES: usize = 4_294_967_296;

/// A name that no definition uses: 32 letters, each chosen so that fewer of the names go on with it.
pub(crate) fn new_name(alloc: Global, vars: &Shared<Variable>) -> Result<Name, Memory>
    requires { length vars.now ≤ MOST_VARIABLES }
    ensures { IfOk result (IsNew vars.now) }
{
    let mut bytes = Vec::new(alloc);
    let mut room = ALL_NAMES;
    let mut left = vars.len();
    for i in 0usize..32 {
        room /= 2;
        let (letter, most) = next_letter(vars, &bytes, room, left);
        bytes.push(letter)?;
        left = most;
    }
    match Name::read(alloc, &bytes) {
        Ok(name) => Ok(name),
        Err(NameFault::Memory) => Err(Memory),
        Err(NameFault::Bad) => unreachable!(),
    }
}
