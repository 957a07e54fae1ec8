// The names of states and answers, as a report has them.
ghost use Rattle.std.specs.Prelude.{◌≡◌};
ghost use Rattle.report_text.specs.ReportNames.{state_name, side_name, call_end_name, confirmed_name};

use dpkg_scenarios::{Side, State};
use scenario_runs::CallEnd;

// The name of a package's state, as dpkg spells it.
pub(crate) fn state_name(state: State) -> &'static [u8]
    ensures { result.now ≡ state_name state }
{
    match state {
        State::Installed => b"Installed",
        State::Unpacked => b"Unpacked",
        State::HalfConfigured => b"Half-Configured",
        State::HalfInstalled => b"Half-Installed",
        State::ConfigFiles => b"Config-Files",
        State::NotInstalled => b"Not-Installed",
    }
}

// Which package's script was called.
pub(crate) fn side_name(side: Side) -> &'static [u8]
    ensures { result.now ≡ side_name side }
{
    match side {
        Side::Old => b"old",
        Side::New => b"new",
    }
}

// How a call ended.
pub(crate) fn call_end_name(how: CallEnd) -> &'static [u8]
    ensures { result.now ≡ call_end_name how }
{
    match how {
        CallEnd::Ok => b"ok",
        CallEnd::Failed => b"failed",
        CallEnd::Ended => b"ended",
    }
}

// Whether the replay agrees, in a word.
pub(crate) fn confirmed_name(confirmed: bool) -> &'static [u8]
    ensures { result.now ≡ confirmed_name confirmed }
{
    if confirmed { b"yes" } else { b"no" }
}
