//! Where two names differ first: each byte has nine places, one for whether there is a byte, and one for each bit.

ghost use Rattle.std.specs.Prelude.{◌≡◌, ◌*◌, ◌≤◌, length};
ghost use Rattle.script_names.specs.declared.name.TheConstants.{NAME_MAX};
ghost use Rattle.clause_solver.specs.Differences.{same_bits, difference};

use script_names::Name;

/// The place where two names differ first.
pub(crate) fn difference(f: &Name, g: &Name) -> u32
    ensures is { result ≡ difference f.now g.now }
    ensures small { result ≤ 2295 }
{
    f.is_sound();
    byte_difference(f.as_slice(), g.as_slice())
}

// The place where two lists of bytes differ first.
fn byte_difference(f: &[u8], g: &[u8]) -> u32
    requires { length f.now ≤ NAME_MAX }
    ensures is { result ≡ difference f.now g.now }
    ensures small { result ≤ 9 * length f.now }
{
    match f {
        [a, f @ ..] => match g {
            [b, g @ ..] => {
                if *a == *b {
                    return byte_difference(f, g) + 9;
                }
                same_bits(8, *a, *b) + 1
            }
            [] => 0,
        },
        [] => 0,
    }
}

// How many of the lowest bits of two bytes are the same, of so many.
fn same_bits(n: u32, a: u8, b: u8) -> u32
    ensures is { result ≡ same_bits n a b }
    ensures small { result ≤ n }
{
    if n == 0 {
        return 0;
    }
    if a % 2 == b % 2 {
        return same_bits(n - 1, a / 2, b / 2) + 1;
    }
    0
}
