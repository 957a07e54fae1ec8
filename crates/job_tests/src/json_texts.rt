//! A report by hand, and its JSON text.

use crate::made::{PartRow, report};
use dpkg_scenarios::{Ending, Scenario, ScriptKind, Side, State};
use report_json::render_json;
use scenario_runs::CallEnd;
use script_names::{Reason, Site};
use std::test::Fail;

const INSTALLED: Ending = Ending::Done(State::Installed);

const BROKEN: Ending = Ending::Failed(State::HalfConfigured);

const LINK: Ending = Ending::Incomplete(Reason::Link, Site { step: 3, at: 17 });

// Of the first scenario an outcome that is done, with a clause of no literals, and a tree of two lines after it; and
// one that is failed, with a call, two acts and two literals. Of the second one that is incomplete and not confirmed,
// without acts, shown on the empty tree.
const BOTH: &[PartRow<'static>] = &[
    (
        Scenario::Install,
        &[
            (
                1,
                INSTALLED,
                &[(3, 17, 67)],
                "clause start v4 now v4\n",
                "d /srv\n",
                (INSTALLED, &[(3, 17, 67)], &[], "d /srv\nf /srv/a\n"),
            ),
            (
                2,
                BROKEN,
                &[(3, 17, 67), (3, 34, 66)],
                "clause start v0 now v1\nkind v1 dir\nnotempty v0\n",
                "l /srv a\\x20b\n",
                (
                    BROKEN,
                    &[(3, 17, 67), (3, 34, 66)],
                    &[(
                        Side::New,
                        ScriptKind::Postinst,
                        &["configure", ""],
                        CallEnd::Failed,
                    )],
                    "d /srv\n",
                ),
            ),
        ],
    ),
    (
        Scenario::PurgeLater,
        &[(
            1,
            LINK,
            &[],
            "clause start v0 now v0\n",
            "",
            (BROKEN, &[], &[], "p /srv\n"),
        )],
    ),
];

const TEXT: &str = "{\"colis\":2,\"scenarios\":[\
     {\"name\":\"install\",\"outcomes\":[\
     {\"after\":[\"d /srv\",\"f /srv/a\"],\"calls\":[],\"clause\":{\"literals\":[],\"now\":4,\"start\":4},\
     \"confirmed\":true,\"number\":1,\"result\":\"done Installed\",\"shown\":[\"d /srv\"],\"trace\":\"3:17:67\"},\
     {\"after\":[\"d /srv\"],\"calls\":[\"call new postinst configure \\\\e failed\"],\"clause\":{\"literals\":[\"kind v1 dir\",\"notempty v0\"],\"now\":1,\"start\":0},\
     \"confirmed\":true,\"number\":2,\"result\":\"failed Half-Configured\",\"shown\":[\"l /srv a\\\\x20b\"],\"trace\":\"3:17:67 3:34:66\"}]},\
     {\"name\":\"purge-later\",\"outcomes\":[\
     {\"after\":[\"p /srv\"],\"calls\":[],\"clause\":{\"literals\":[],\"now\":0,\"start\":0},\
     \"confirmed\":false,\"number\":1,\"result\":\"incomplete link 3:17\",\"shown\":[],\"trace\":\"\"}]}],\
     \"verdict\":1}\n";

const NOTHING: &str = "{\"colis\":2,\"scenarios\":[],\"verdict\":0}\n";

// Reports, and their texts.
const REPORTS: &[(&[PartRow<'static>], &str)] = &[(BOTH, TEXT), (&[], NOTHING)];

#[test]
fn reports_are_printed_as_json(rt: HostRuntime) -> Result<(), Fail> {
    for row in REPORTS {
        let report = report(rt.alloc(), row.0)?;
        let text = render_json(rt.alloc(), &report)?;
        assert!(rt; text.as_slice() == row.1.as_bytes(), "{}", row.1);
    }
    Ok(())
}
