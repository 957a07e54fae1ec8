//! Files that are cut short, behind each of their bytes.

use super::scripts::TEMPLATE;
use super::scripts_made::{STRICT, Script};
use super::seen::Seen;
use super::{Case, File, INSTALL, QUIET, Row, installation, see};
use std::test::Fail;

// The status of the template's report, or its refusal, where so many bytes are left, by hand: the first line is cut off
// up to 8; then `s`, `se` and, behind `set -e`, `c`, `ca`, `cas` are commands without a specification; `set` has
// another operand than `-e` from 13 to 15; the `case` is open from 21 to 210; and behind it `exit 0` is cut off.
fn wanted_status(count: usize) -> u8 {
    match count {
        9..=10 | 16..=17 => 0,
        211..=219 => 1,
        11..=12 | 18..=20 => 2,
        _ => 3,
    }
}

// How many bytes of the template are left. A refusal names no byte behind them.
#[derive(Clone, Copy)]
struct Template(usize);

impl Row for Template {
    fn case(&self) -> Case {
        installation(
            INSTALL,
            Script::Cut(STRICT, TEMPLATE, self.0),
            wanted_status(self.0),
            Seen::AtMost(self.0),
        )
    }
}

// The template has 219 bytes.
#[test]
fn templates(rt: HostRuntime) -> Result<(), Fail> {
    assert_eq!(rt; (STRICT.len(), TEMPLATE.len()), (17, 202));
    for count in 0..220usize {
        see(&rt, &Template(count), count)?;
    }
    Ok(())
}

const LIST: &[u8] = b"/.\n/etc\n/etc/foo\n/etc/foo/a.conf\n";

// What is said of the list where so many bytes are left, by hand: `/` is no path; `/etc` and `/etc/` are named before,
// and `/etc/foo` and `/etc/foo/`; and as long as the name of the configuration file is cut off, it is not listed.
fn wanted_line(count: usize) -> &'static [u8] {
    match count {
        1 => b"colis: p/list: line 1: fault 1\n",
        4 => b"colis: p/list: line 2: fault 1\n",
        9 => b"colis: p/list: line 3: fault 1\n",
        12..=13 => b"colis: p/list: line 3: fault 2\n",
        18 => b"colis: p/list: line 4: fault 1\n",
        21..=22 | 25..=26 => b"colis: p/list: line 4: fault 2\n",
        32..=33 => b"",
        _ => b"colis: p/conffiles: line 1: fault 3\n",
    }
}

const CONFIGURED: &[File] = &[("p/conffiles", b"/etc/foo/a.conf\n")];

// How many bytes of the list are left.
#[derive(Clone, Copy)]
struct Listed(usize);

impl Row for Listed {
    fn case(&self) -> Case {
        let line = wanted_line(self.0);
        Case {
            words: &["check", "p", "--scenario", "purge", "--brief"],
            files: CONFIGURED,
            script: Some(("p/list", Script::Cut(LIST, b"", self.0))),
            failing: QUIET,
            status: if line.is_empty() { 0 } else { 3 },
            seen: Seen::Line(line),
        }
    }
}

#[test]
fn lists(rt: HostRuntime) -> Result<(), Fail> {
    assert_eq!(rt; LIST.len(), 33);
    for count in 0..34usize {
        see(&rt, &Listed(count), count)?;
    }
    Ok(())
}
