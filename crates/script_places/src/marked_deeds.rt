ghost use Rattle.std.specs.Prelude.{◌≡◌};
ghost use Rattle.std.specs.Option.{option_copied};
ghost use Rattle.script_places.specs.MarkedDeeds.{deed_of_mark, leaves_mark};

use utility_calls::deeds::Deed;

/// Which deed of a run the mark tells of before which so many marks stand in the run's trace; None where the run has no
/// such one. (An act has its paths; its row is the mark's.)
pub fn deed_of_mark(deeds: &[Deed], marks_before: usize) -> Option<&Deed>
    ensures { option_copied result ≡ deed_of_mark deeds.now marks_before }
{
    let mut before = marks_before;
    let mut left = deeds;
    while let [deed, rest @ ..] = left {
        if leaves_mark(deed) {
            if before == 0 {
                return Some(deed);
            }
            before -= 1;
        }
        left = rest;
    }
    None
}

// Whether a deed leaves a mark.
fn leaves_mark(deed: &Deed) -> bool
    ensures { result ≡ leaves_mark deed.now }
{
    match deed {
        Deed::Does(_) => true,
        Deed::Returns(_) => true,
        Deed::Keeps => false,
    }
}
