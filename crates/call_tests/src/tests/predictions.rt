//! Outcomes of many trees by a report: the one on a script that makes `/srv/a` where nothing stands there, on systems
//! that have `/srv`.

use super::scripts_made::Script;
use super::seen::Seen;
use super::{Case, File, QUIET, Row, Wanted, see_all};
use std::test::Fail;

// The report.
const WAYS: &[u8] = b"{\"colis\":2,\"scenarios\":[{\"name\":\"install\",\"outcomes\":[\
    {\"after\":[\"d /srv\",\"l /srv/a x\"],\"calls\":[\"call new postinst configure \\\\e ended\"],\
    \"clause\":{\"literals\":[\"kind v0 dir\",\"entry v0 srv v1\",\"kind v1 dir\",\"entry v1 a v2\",\"kind v2 link\"],\
    \"now\":0,\"start\":0},\
    \"confirmed\":true,\"number\":1,\"result\":\"incomplete link 3:17\",\"shown\":[\"d /srv\",\"l /srv/a x\"],\
    \"trace\":\"3:17:65\"},\
    {\"after\":[\"d /srv\",\"d /srv/a\"],\"calls\":[\"call new postinst configure \\\\e ok\"],\
    \"clause\":{\"literals\":[\"kind v0 dir\",\"entry v0 srv v1\",\"kind v1 dir\",\"entry v1 a v2\",\"kind v2 absent\",\
    \"kind v3 dir\",\"fence v3 {}\",\"similar v4 {a} v1\",\"entry v4 a v3\",\"similar v5 {srv} v0\",\"entry v5 srv v4\"],\
    \"now\":5,\"start\":0},\
    \"confirmed\":true,\"number\":2,\"result\":\"done Installed\",\"shown\":[\"d /srv\"],\
    \"trace\":\"3:17:66 3:34:68\"},\
    {\"after\":[\"d /srv\",\"f /srv/a\"],\"calls\":[\"call new postinst configure \\\\e ok\"],\
    \"clause\":{\"literals\":[\"kind v0 dir\",\"entry v0 srv v1\",\"kind v1 dir\",\"entry v1 a v2\",\
    \"kind v2 reg,fifo,socket,block,char,dir\"],\"now\":0,\"start\":0},\
    \"confirmed\":true,\"number\":3,\"result\":\"done Installed\",\"shown\":[\"d /srv\",\"f /srv/a\"],\
    \"trace\":\"3:17:67\"}]}],\"verdict\":2}";

// Two scenarios in the first version, in which one word and one letter stood for the four special kinds.
const FIRST: &[u8] = b"{ \"colis\": 1, \"verdict\": 1, \"scenarios\": [\
    {\"name\":\"install\",\"outcomes\":[\
    {\"after\":[],\"calls\":[],\"clause\":{\"literals\":[\"kind v0 dir\",\"entry v0 a v1\",\"kind v1 other\"],\"now\":0,\"start\":0},\
    \"confirmed\":true,\"number\":1,\"result\":\"failed Half-Configured\",\"shown\":[\"o /a\"],\"trace\":\"3:10:66\"},\
    {\"after\":[],\"calls\":[],\"clause\":{\"literals\":[\"kind v0 dir\"],\"now\":0,\"start\":0},\
    \"confirmed\":true,\"number\":2,\"result\":\"done Installed\",\"shown\":[],\"trace\":\"\"}]},\
    {\"name\":\"purge\",\"outcomes\":[\
    {\"after\":[],\"calls\":[],\"clause\":{\"literals\":[\"kind v0 dir\",\"entry v0 b v1\",\"kind v1 absent,reg,link,other\"],\"now\":0,\"start\":0},\
    \"confirmed\":true,\"number\":1,\"result\":\"bound 4:7\",\"shown\":[],\"trace\":\"\"}]}]}";

// A clause that speaks of a variable before it is known; every tree is covered by the other.
const UNSOLVED: &[u8] = b"{\"colis\":2,\"scenarios\":[{\"name\":\"install\",\"outcomes\":[\
    {\"after\":[],\"calls\":[],\"clause\":{\"literals\":[\"kind v0 dir\"],\"now\":0,\"start\":0},\
    \"confirmed\":true,\"number\":1,\"result\":\"done Installed\",\"shown\":[],\"trace\":\"\"},\
    {\"after\":[],\"calls\":[],\"clause\":{\"literals\":[\"kind v1 dir\"],\"now\":0,\"start\":0},\
    \"confirmed\":true,\"number\":2,\"result\":\"done Installed\",\"shown\":[],\"trace\":\"\"}]}],\"verdict\":0}";

// The report that a row is about.
#[derive(Clone, Copy)]
enum Report {
    Ways,
    First,
    Unsolved,
    // Of no scenario.
    Empty,
    // This text.
    Text(&'static [u8]),
    Missing,
}

// The files with the report.
fn files(report: Report) -> &'static [File] {
    match report {
        Report::Ways => &[("r", WAYS)],
        Report::First => &[("r", FIRST)],
        Report::Unsolved => &[("r", UNSOLVED)],
        Report::Empty => &[("r", b"{\"colis\":2,\"scenarios\":[],\"verdict\":0}\n")],
        Report::Text(_) | Report::Missing => &[],
    }
}

// A report, the file of trees, if it is there, and what has to come of the call.
struct Predicted(Report, Option<&'static [u8]>, Wanted);

impl Row for Predicted {
    fn case(&self) -> Case {
        let (name, text) = match self.0 {
            Report::Text(text) => ("r", Some(text)),
            _ => ("t", self.1),
        };
        Case {
            words: &["predict", "r", "t"],
            files: files(self.0),
            script: match text {
                Some(text) => Some((name, Script::Joined(text, b""))),
                None => None,
            },
            failing: QUIET,
            status: self.2.0,
            seen: Seen::Whole(self.2.1, self.2.2),
        }
    }
}

// What is said of the trees of a file by the report on three ways.
macro_rules! told {
    ($trees:expr, $text:expr) => {
        Predicted(Report::Ways, Some($trees), (0, $text, b""))
    };
}

// The line with which a text is refused as a report; no trees are there.
macro_rules! no_report {
    ($report:expr, $line:expr) => {
        Predicted($report, None, (3, b"", $line))
    };
}

// The line with which a file of trees is refused.
macro_rules! no_trees {
    ($trees:expr, $line:expr) => {
        Predicted(Report::Ways, Some($trees), (3, b"", $line))
    };
}

const PREDICTED: &[Predicted] = &[
    told!(
        b"tree one\nd /srv\ntree two\nd /srv\nl /srv/a x\ntree three\nf /srv\n",
        b"colis predict 1
scenario install
one outcome 2 done Installed
two outcome 1 incomplete link 3:17
three none
"
    ),
    told!(b"", b"colis predict 1\nscenario install\n"),
    // What each outcome shows has that outcome; further entries change nothing.
    told!(
        b"tree 1\nd /srv\nl /srv/a x\ntree 2\nd /srv\ntree 3\nd /srv\nf /srv/a\ntree 4\nf /b\nd /srv\nd /srv/a\ns /srv/a/s",
        b"colis predict 1
scenario install
1 outcome 1 incomplete link 3:17
2 outcome 2 done Installed
3 outcome 3 done Installed
4 outcome 3 done Installed
"
    ),
    // Names are shown; a tree may have no line.
    told!(
        b"tree a b\ntree  \ntree tree\ntree \\e,",
        b"colis predict 1
scenario install
a\\x20b none
\\x20 none
tree none
\\x5ce\\x2c none
"
    ),
    Predicted(
        Report::First,
        Some(b"tree p\np /a\ntree c\nc /a\nd /b\ntree e\n"),
        (
            0,
            b"colis predict 1
scenario install
p outcome 1 failed Half-Configured
c outcome 1 failed Half-Configured
e outcome 2 done Installed
scenario purge
p outcome 1 bound 4:7
c none
e outcome 1 bound 4:7
",
            b"",
        ),
    ),
    Predicted(
        Report::Empty,
        Some(b"tree a"),
        (0, b"colis predict 1\n", b""),
    ),
    no_report!(Report::Text(b""), b"colis: r: report fault 1\n"),
    no_report!(Report::Text(b"{"), b"colis: r: report fault 1\n"),
    no_report!(
        Report::Text(b"colis report 2\nverdict 0\n"),
        b"colis: r: report fault 1\n"
    ),
    no_report!(Report::Text(b"{}"), b"colis: r: report fault 2\n"),
    no_report!(
        Report::Text(b"{\"colis\":3,\"scenarios\":[],\"verdict\":0}"),
        b"colis: r: report fault 2\n"
    ),
    no_report!(Report::Unsolved, b"colis: r: report fault 3\n"),
    no_report!(Report::Ways, b"colis: t: missing\n"),
    Predicted(Report::Missing, Some(b""), (3, b"", b"colis: r: missing\n")),
    no_trees!(b"d /srv\n", b"colis: t: line 1: fault 4\n"),
    no_trees!(b"\ntree a\n", b"colis: t: line 1: fault 4\n"),
    no_trees!(b"tree\n", b"colis: t: line 1: fault 1\n"),
    no_trees!(b"tree a\ntree ", b"colis: t: line 2: fault 1\n"),
    no_trees!(b"tree a\nd /a\nd /a/\n", b"colis: t: line 3: fault 1\n"),
    no_trees!(
        b"tree a\nd /a\ntree b\nd /a\nd /a\n",
        b"colis: t: line 5: fault 2\n"
    ),
    no_trees!(
        b"tree a\nd /a\ntree b\nf /a/b\n",
        b"colis: t: line 4: fault 3\n"
    ),
    no_trees!(
        b"tree a\nd /a\ntree b\ntree a\nx",
        b"colis: t: line 4: fault 5\n"
    ),
];

#[test]
fn outcomes_of_trees(rt: HostRuntime) -> Result<(), Fail> {
    see_all(&rt, PREDICTED)
}
