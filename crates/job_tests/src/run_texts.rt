//! Runs by hand, and their texts.

use crate::made::{RunRow, replayed};
use dpkg_scenarios::{Ending, ScriptKind, Side, State};
use outcome_report::run_status;
use report_text::render_run;
use scenario_runs::CallEnd;
use script_names::{Reason, Site};
use std::test::Fail;

const INSTALLED: Ending = Ending::Done(State::Installed);

const BROKEN: Ending = Ending::Failed(State::HalfConfigured);

const CALL: Ending = Ending::Incomplete(Reason::Call, Site { step: 3, at: 17 });

const BOUND: Ending = Ending::Bound(Site { step: 3, at: 10 });

// A run, its text, and its status.
const RUNS: &[(RunRow<'static>, &str, u8)] = &[
    (
        (
            INSTALLED,
            &[(3, 54, 67), (3, 54, 67), (3, 54, 67)],
            &[(
                Side::New,
                ScriptKind::Postinst,
                &["configure", ""],
                CallEnd::Ok,
            )],
            "d /srv\nf /srv/a\nf /srv/a\\x20b\nf /srv/b\n",
        ),
        "\
result done Installed
trace 3:54:67 3:54:67 3:54:67
call new postinst configure \\e ok
after
d /srv
f /srv/a
f /srv/a\\x20b
f /srv/b
",
        0,
    ),
    (
        (
            INSTALLED,
            &[],
            &[
                (
                    Side::Old,
                    ScriptKind::Prerm,
                    &["upgrade", "2"],
                    CallEnd::Failed,
                ),
                (
                    Side::New,
                    ScriptKind::Prerm,
                    &["failed-upgrade", "1", "2"],
                    CallEnd::Ok,
                ),
            ],
            "",
        ),
        "\
result done Installed
trace
call old prerm upgrade 2 failed
call new prerm failed-upgrade 1 2 ok
after
",
        0,
    ),
    (
        (
            BROKEN,
            &[],
            &[
                (
                    Side::Old,
                    ScriptKind::Prerm,
                    &["upgrade", "2"],
                    CallEnd::Failed,
                ),
                (
                    Side::New,
                    ScriptKind::Prerm,
                    &["failed-upgrade", "1", "2"],
                    CallEnd::Failed,
                ),
                (
                    Side::Old,
                    ScriptKind::Postinst,
                    &["abort-upgrade", "2"],
                    CallEnd::Failed,
                ),
            ],
            "",
        ),
        "\
result failed Half-Configured
trace
call old prerm upgrade 2 failed
call new prerm failed-upgrade 1 2 failed
call old postinst abort-upgrade 2 failed
after
",
        1,
    ),
    (
        (
            CALL,
            &[],
            &[(
                Side::New,
                ScriptKind::Postinst,
                &["configure", ""],
                CallEnd::Ended,
            )],
            "",
        ),
        "\
result incomplete call 3:17
trace
call new postinst configure \\e ended
after
",
        2,
    ),
    (
        (
            BOUND,
            &[(3, 16, 67), (3, 16, 67)],
            &[],
            "d /srv\nf /srv/a\n",
        ),
        "\
result bound 3:10
trace 3:16:67 3:16:67
after
d /srv
f /srv/a
",
        2,
    ),
];

#[test]
fn runs_are_printed(rt: HostRuntime) -> Result<(), Fail> {
    for row in RUNS {
        let run = replayed(rt.alloc(), row.0)?;
        let text = render_run(rt.alloc(), &run)?;
        assert!(rt; text.as_slice() == row.1.as_bytes(), "{}", row.1);
        assert!(rt; run_status(&run) == row.2, "{}", row.1);
    }
    Ok(())
}
