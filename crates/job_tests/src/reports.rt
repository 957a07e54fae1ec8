//! Reports by hand, and their texts.

use crate::made::{PartRow, ShortRow, report, short_part};
use dpkg_scenarios::{Ending, Scenario, ScriptKind, Side, State};
use outcome_report::{Report, verdict};
use report_text::{render_brief, render_text};
use scenario_runs::CallEnd;
use script_names::{Copied, List, Memory, Reason, Site};
use std::alloc::Global;
use std::test::Fail;

const INSTALLED: Ending = Ending::Done(State::Installed);

const PURGED: Ending = Ending::Done(State::NotInstalled);

const BROKEN: Ending = Ending::Failed(State::HalfConfigured);

const LINK: Ending = Ending::Incomplete(Reason::Link, Site { step: 3, at: 17 });

const SLASH: Ending = Ending::Incomplete(Reason::Slash, Site { step: 3, at: 17 });

const LOOP: Ending = Ending::Incomplete(Reason::Link, Site { step: 3, at: 16 });

const BOUND: Ending = Ending::Bound(Site { step: 3, at: 10 });

// A scenario and its outcomes; the brief text behind its first line; and the places behind the outcomes, with the line
// of the verdict.
const PARTS: &[(Scenario, &[ShortRow<'static>], &str, &str)] = &[
    (
        Scenario::Install,
        &[
            (1, LINK, &[(3, 17, 65)]),
            (2, INSTALLED, &[(3, 17, 66), (3, 34, 68)]),
            (3, INSTALLED, &[(3, 17, 67)]),
        ],
        "\
scenario install outcomes 3
outcome 1 incomplete link 3:17
trace 3:17:65
outcome 2 done Installed
trace 3:17:66 3:34:68
outcome 3 done Installed
trace 3:17:67
verdict 2
",
        "after\nplace incomplete 3:17 1\nverdict 2\n",
    ),
    (
        Scenario::Install,
        &[
            (1, LINK, &[(3, 17, 65)]),
            (2, BROKEN, &[(3, 17, 67), (3, 30, 67)]),
            (3, BROKEN, &[(3, 17, 68), (3, 30, 67)]),
        ],
        "\
scenario install outcomes 3
outcome 1 incomplete link 3:17
trace 3:17:65
outcome 2 failed Half-Configured
trace 3:17:67 3:30:67
outcome 3 failed Half-Configured
trace 3:17:68 3:30:67
verdict 1
",
        "after\nplace incomplete 3:17 1\nplace failed 3:30 2\nverdict 1\n",
    ),
    (
        Scenario::Install,
        &[(1, BROKEN, &[])],
        "\
scenario install outcomes 1
outcome 1 failed Half-Configured
trace
verdict 1
",
        "after\nplace failed - 1\nverdict 1\n",
    ),
    (
        Scenario::Install,
        &[
            (1, LOOP, &[(3, 16, 65)]),
            (2, INSTALLED, &[(3, 16, 66)]),
            (3, BOUND, &[(3, 16, 67), (3, 16, 67)]),
        ],
        "\
scenario install outcomes 3
outcome 1 incomplete link 3:16
trace 3:16:65
outcome 2 done Installed
trace 3:16:66
outcome 3 bound 3:10
trace 3:16:67 3:16:67
verdict 2
",
        "after\nplace incomplete 3:16 1\nplace bound 3:10 1\nverdict 2\n",
    ),
    (
        Scenario::Purge,
        &[
            (1, PURGED, &[(2, 0, 67), (4, 0, 68), (4, 1, 67)]),
            (2, PURGED, &[(2, 0, 67), (4, 0, 68), (4, 1, 68)]),
            (3, PURGED, &[(2, 0, 68), (4, 0, 66), (4, 1, 66)]),
        ],
        "\
scenario purge outcomes 3
outcome 1 done Not-Installed
trace 2:0:67 4:0:68 4:1:67
outcome 2 done Not-Installed
trace 2:0:67 4:0:68 4:1:68
outcome 3 done Not-Installed
trace 2:0:68 4:0:66 4:1:66
verdict 0
",
        "after\nverdict 0\n",
    ),
    (
        Scenario::Install,
        &[(1, SLASH, &[(3, 17, 64)]), (2, INSTALLED, &[(3, 17, 72)])],
        "\
scenario install outcomes 2
outcome 1 incomplete slash 3:17
trace 3:17:64
outcome 2 done Installed
trace 3:17:72
verdict 2
",
        "after\nplace incomplete 3:17 1\nverdict 2\n",
    ),
    (
        Scenario::Install,
        &[
            (1, BROKEN, &[(3, 30, 66)]),
            (2, LINK, &[(3, 30, 67)]),
            (3, BROKEN, &[(3, 17, 66)]),
            (4, BROKEN, &[(3, 17, 67), (3, 30, 66)]),
        ],
        "\
scenario install outcomes 4
outcome 1 failed Half-Configured
trace 3:30:66
outcome 2 incomplete link 3:17
trace 3:30:67
outcome 3 failed Half-Configured
trace 3:17:66
outcome 4 failed Half-Configured
trace 3:17:67 3:30:66
verdict 1
",
        "after\nplace failed 3:30 2\nplace incomplete 3:17 1\nplace failed 3:17 1\nverdict 1\n",
    ),
];

// The report of one scenario.
fn report_of(alloc: Global, scenario: Scenario, rows: &[ShortRow<'_>]) -> Result<Report, Memory> {
    let part = short_part(alloc, scenario, rows)?;
    let mut parts = List::new(alloc);
    parts.add(part)?;
    Ok(Report { parts })
}

// Whether the report's brief text is this one behind its first line.
fn has_brief(alloc: Global, report: &Report, rest: &str) -> Result<bool, Memory> {
    let text = render_brief(alloc, report)?;
    match text.as_slice().strip_prefix(b"colis brief 2\n") {
        Some(lines) => Ok(lines == rest.as_bytes()),
        None => Ok(false),
    }
}

// Whether the report's text ends so.
fn has_places(alloc: Global, report: &Report, end: &str) -> Result<bool, Memory> {
    let text = render_text(alloc, report)?;
    Ok(text.as_slice().ends_with(end.as_bytes()))
}

#[test]
fn outcomes_are_printed(rt: HostRuntime) -> Result<(), Fail> {
    for row in PARTS {
        let report = report_of(rt.alloc(), row.0, row.1)?;
        let briefly = has_brief(rt.alloc(), &report, row.2)?;
        assert!(rt; briefly, "{}", row.2);
        let wholly = has_places(rt.alloc(), &report, row.3)?;
        assert!(rt; wholly, "{}", row.3);
    }
    Ok(())
}

// Each scenario, and the state in which it is done where nothing is there.
const SCENARIOS: &[(Scenario, &[ShortRow<'static>])] = &[
    (Scenario::Install, &[(1, INSTALLED, &[])]),
    (Scenario::InstallAgain, &[(1, INSTALLED, &[])]),
    (Scenario::Upgrade, &[(1, INSTALLED, &[])]),
    (Scenario::Remove, &[(1, PURGED, &[])]),
    (Scenario::Purge, &[(1, PURGED, &[])]),
    (Scenario::PurgeLater, &[(1, PURGED, &[])]),
];

const NOTHING: &str = r"scenario install outcomes 1
outcome 1 done Installed
trace
scenario install-again outcomes 1
outcome 1 done Installed
trace
scenario upgrade outcomes 1
outcome 1 done Installed
trace
scenario remove outcomes 1
outcome 1 done Not-Installed
trace
scenario purge outcomes 1
outcome 1 done Not-Installed
trace
scenario purge-later outcomes 1
outcome 1 done Not-Installed
trace
verdict 0
";

fn nothing(alloc: Global) -> Result<Report, Memory> {
    let mut parts = List::new(alloc);
    for row in SCENARIOS {
        let part = short_part(alloc, row.0, row.1)?;
        parts.add(part)?;
    }
    Ok(Report { parts })
}

#[test]
fn scenarios_are_printed_in_turn(rt: HostRuntime) -> Result<(), Fail> {
    let report = nothing(rt.alloc())?;
    let same = has_brief(rt.alloc(), &report, NOTHING)?;
    assert!(rt; same);
    assert!(rt; verdict(&report) == 0);
    Ok(())
}

// An outcome whose replay agrees, where a link stands where the script looks, and one whose replay takes another row.
const BOTH: &[PartRow<'static>] = &[(
    Scenario::PurgeLater,
    &[
        (
            1,
            LINK,
            &[(3, 17, 65)],
            "clause start v0 now v1\nnotempty v0\n",
            "l /srv a\\x20b\n",
            (
                LINK,
                &[(3, 17, 65)],
                &[(
                    Side::New,
                    ScriptKind::Postinst,
                    &["configure", ""],
                    CallEnd::Ended,
                )],
                "c /srv\n",
            ),
        ),
        (
            2,
            BROKEN,
            &[(3, 17, 67), (3, 34, 66)],
            "clause start v0 now v1\nkind v1 dir\n",
            "d /srv\n",
            (BROKEN, &[(3, 17, 66)], &[], "f /srv\n"),
        ),
    ],
)];

const TEXT: &str = r"colis report 2
scenario purge-later outcomes 2
outcome 1 incomplete link 3:17
trace 3:17:65
confirmed yes
call new postinst configure \e ended
clause start v0 now v1
notempty v0
shown
l /srv a\x20b
after
c /srv
outcome 2 failed Half-Configured
trace 3:17:67 3:34:66
confirmed no
clause start v0 now v1
kind v1 dir
shown
d /srv
after
f /srv
place incomplete 3:17 1
place failed 3:34 1
verdict 1
";

#[test]
fn reports_are_printed(rt: HostRuntime) -> Result<(), Fail> {
    let report = report(rt.alloc(), BOTH)?;
    let text = render_text(rt.alloc(), &report)?;
    assert!(rt; text.as_slice() == TEXT.as_bytes());
    assert!(rt; verdict(&report) == 1);
    Ok(())
}

#[test]
fn a_copy_of_a_report_has_its_text(rt: HostRuntime) -> Result<(), Fail> {
    let report = report(rt.alloc(), BOTH)?;
    let copy = report.copy(rt.alloc())?;
    let text = render_text(rt.alloc(), &copy)?;
    assert!(rt; text.as_slice() == TEXT.as_bytes());
    Ok(())
}
