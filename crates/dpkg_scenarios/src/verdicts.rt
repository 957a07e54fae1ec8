ghost use Rattle.std.specs.Prelude.{◌≡◌, Bool};
ghost use Rattle.std.specs.List.{list_any};
ghost use Rattle.dpkg_scenarios.specs.Verdicts.{ending_verdict, joint_verdict, verdict_on};

use crate::scenario::Ending;

/// The verdict on an ending alone: 1 where the scenario failed, 2 where it ended without a state, else 0.
pub fn ending_verdict(ending: Ending) -> u8
    ensures { result ≡ ending_verdict ending }
{
    match ending {
        Ending::Done(_) => 0,
        Ending::Failed(_) => 1,
        Ending::Incomplete(_, _) | Ending::Bound(_) => 2,
    }
}

/// The verdict on endings together: 1 where some failed, else 2 where some are incomplete or bound, else 0.
pub fn joint_verdict(failed: bool, unfinished: bool) -> u8
    ensures { result ≡ joint_verdict failed unfinished }
{
    if failed {
        1
    } else if unfinished {
        2
    } else {
        0
    }
}

/// What has endings, of which it says what the verdict needs.
pub trait Judged {
    // Whether some ending of it failed.
    ghost failed: { Self → Bool };

    // Whether some ending of it is incomplete or bound.
    ghost unfinished: { Self → Bool };

    /// Whether some ending of it failed.
    fn has_failed(&self) -> bool
        ensures { result ≡ failed self.now };

    /// Whether some ending of it is incomplete or bound.
    fn is_unfinished(&self) -> bool
        ensures { result ≡ unfinished self.now };
}

// Whether some ending of one of them failed.
fn some_failed<J: Judged>(all: &[J]) -> bool
    ensures { result ≡ list_any J.failed all.now }
{
    all.iter().any(|one| one.has_failed())
}

// Whether some ending of one of them is incomplete or bound.
fn some_unfinished<J: Judged>(all: &[J]) -> bool
    ensures { result ≡ list_any J.unfinished all.now }
{
    all.iter().any(|one| one.is_unfinished())
}

/// The verdict on the endings of all of them together.
pub fn verdict_on<J: Judged>(all: &[J]) -> u8
    ensures { result ≡ verdict_on J.failed J.unfinished all.now }
{
    joint_verdict(some_failed(all), some_unfinished(all))
}
