//! As many outcomes as may be told where no limit is given, and one more.

use super::scripts_made::Script;
use super::seen::Seen;
use super::{Case, INSTALL, Row, installation, see_all};
use std::test::Fail;

// What stands before the questions, the status, how the report begins, and what is said on standard error.
struct Most(&'static [u8], u8, &'static [u8], &'static [u8]);

impl Row for Most {
    fn case(&self) -> Case {
        installation(
            INSTALL,
            Script::Many(self.0),
            self.1,
            Seen::Begun(self.2, self.3),
        )
    }
}

const ROWS: &[Most] = &[
    Most(
        b"",
        1,
        b"colis brief 2\nscenario install outcomes 10000\n",
        b"",
    ),
    // `mkdir` fails where something is there.
    Most(
        b"mkdir /srv/r\n",
        3,
        b"",
        b"colis: more than 10000 outcomes in install\n",
    ),
];

#[test]
fn ten_thousand_outcomes(rt: HostRuntime) -> Result<(), Fail> {
    see_all(&rt, ROWS)
}
