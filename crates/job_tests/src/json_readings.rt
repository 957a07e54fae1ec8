//! Reports that are read from JSON texts, and texts that tell none.

use outcome_report::Report;
use report_json::render_json;
use report_reader::{JsonFault, read_json};
use script_names::{Bytes, Memory};
use std::alloc::Global;
use std::test::Fail;

/// What a text tells.
#[derive(Clone, Copy, Debug, PartialEq, Eq)]
pub(crate) enum Told {
    /// A report, which is printed as the text.
    Same,
    /// A report, which is printed otherwise.
    Other,
    /// A JSON text, and no report's.
    Shape,
    /// No JSON text.
    Json,
    /// Nothing, for want of memory.
    Nothing,
}

/// Two scenarios: of the first an outcome that is done, with a clause of no literals, and one that is failed, with a
/// call and two literals; of the second one that is incomplete.
pub(crate) const WHOLE: &str =
    "{\"colis\":2,\"scenarios\":[{\"name\":\"install\",\"outcomes\":[{\"after\":[\"d /srv\",\"f /srv/a\"],\"calls\":[],\"clause\":{\"literals\":[],\"now\":4,\"start\":4},\"confirmed\":true,\"number\":1,\"result\":\"done Installed\",\"shown\":[\"d /srv\"],\"trace\":\"3:17:67\"},{\"after\":[\"d /srv\"],\"calls\":[\"call new postinst configure \\\\e failed\"],\"clause\":{\"literals\":[\"kind v1 dir\",\"notempty v0\"],\"now\":1,\"start\":0},\"confirmed\":true,\"number\":2,\"result\":\"failed Half-Configured\",\"shown\":[\"l /srv a\\\\x20b\"],\"trace\":\"3:17:67 3:34:66\"}]},{\"name\":\"purge-later\",\"outcomes\":[{\"after\":[\"p /srv\"],\"calls\":[],\"clause\":{\"literals\":[],\"now\":0,\"start\":0},\"confirmed\":true,\"number\":1,\"result\":\"incomplete link 3:17\",\"shown\":[],\"trace\":\"\"}]}],\"verdict\":1}\n";

/// A purge that finds a foreign entry beside the configuration file, that one alone, or neither.
pub(crate) const PURGE: &str =
    "{\"colis\":2,\"scenarios\":[{\"name\":\"purge\",\"outcomes\":[{\"after\":[\"d /etc\",\"d /etc/foo\",\"f /etc/foo/a\"],\"calls\":[],\"clause\":{\"literals\":[\"kind v0 dir\",\"entry v0 etc v1\",\"kind v1 dir\",\"entry v1 foo v2\",\"kind v2 dir\",\"entry v2 a.conf v3\",\"kind v3 reg,link,fifo,socket,block,char\",\"kind v4 absent\",\"similar v5 {a.conf} v2\",\"entry v5 a.conf v4\",\"notempty v5\",\"similar v6 {foo} v1\",\"entry v6 foo v5\",\"similar v7 {etc} v0\",\"entry v7 etc v6\"],\"now\":7,\"start\":0},\"confirmed\":true,\"number\":1,\"result\":\"done Not-Installed\",\"shown\":[\"d /etc\",\"d /etc/foo\",\"f /etc/foo/a\",\"f /etc/foo/a.conf\"],\"trace\":\"2:0:67 4:0:68 4:1:67\"},{\"after\":[\"d /etc\"],\"calls\":[],\"clause\":{\"literals\":[\"kind v0 dir\",\"entry v0 etc v1\",\"kind v1 dir\",\"entry v1 foo v2\",\"kind v2 dir\",\"fence v2 {a.conf}\",\"entry v2 a.conf v3\",\"kind v3 reg,link,fifo,socket,block,char\",\"kind v4 absent\",\"similar v5 {foo} v1\",\"entry v5 foo v4\",\"similar v6 {etc} v0\",\"entry v6 etc v5\"],\"now\":6,\"start\":0},\"confirmed\":true,\"number\":2,\"result\":\"done Not-Installed\",\"shown\":[\"d /etc\",\"d /etc/foo\",\"f /etc/foo/a.conf\"],\"trace\":\"2:0:67 4:0:68 4:1:68\"},{\"after\":[\"d /etc\"],\"calls\":[],\"clause\":{\"literals\":[\"kind v0 dir\",\"entry v0 etc v1\",\"kind v1 dir\",\"entry v1 foo v2\",\"kind v2 dir\",\"fence v2 {}\",\"kind v3 absent\",\"similar v4 {foo} v1\",\"entry v4 foo v3\",\"similar v5 {etc} v0\",\"entry v5 etc v4\"],\"now\":5,\"start\":0},\"confirmed\":true,\"number\":3,\"result\":\"done Not-Installed\",\"shown\":[\"d /etc\",\"d /etc/foo\"],\"trace\":\"2:0:68 4:0:66 4:1:66\"}]}],\"verdict\":0}\n";

// Texts that stand alone.
const TEXTS: &[(&str, Told)] = &[
    (WHOLE, Told::Same),
    (PURGE, Told::Same),
    ("{\"colis\":2,\"scenarios\":[],\"verdict\":0}\n", Told::Same),
    ("{\"colis\":2,\"scenarios\":[],\"verdict\":0}", Told::Other),
    (
        "{\"colis\":2,\"scenarios\":[{\"name\":\"purge\",\"outcomes\":[]}],\"verdict\":0}\n",
        Told::Same,
    ),
    (
        "{ \"verdict\" : 0,\n\t\"scenarios\" : [ ], \"colis\" : 2 }\r\n",
        Told::Other,
    ),
    (
        "{\"colis\":2,\"scenarios\":[],\"verdict\":1}\n",
        Told::Shape,
    ),
    ("{}", Told::Shape),
    ("[]", Told::Shape),
    ("null", Told::Shape),
    ("true", Told::Shape),
    ("18446744073709551616", Told::Shape),
    ("\"install\"", Told::Shape),
    ("", Told::Json),
    ("\n", Told::Json),
    ("nul", Told::Json),
    ("colis report 2\nverdict 0\n", Told::Json),
    ("{\"colis\":2,\"scenarios\":[],\"verdict\":0}{}", Told::Json),
    ("{\"colis\":02,\"scenarios\":[],\"verdict\":0}", Told::Json),
    ("{\"colis\":2,\"scenarios\":[],\"verdict\":0", Told::Json),
    (
        "{\"colis\":2,\"scenarios\":[],\"verdict\":1e400}",
        Told::Json,
    ),
    ("\"\\ud800\"", Told::Json),
];

// Texts that come of the whole one: what stands in it first, what stands there instead, and what is read.
const CHANGES: &[(&str, &str, Told)] = &[
    // Other reports.
    ("done Installed", "done Unpacked", Told::Same),
    ("done Installed", "failed Installed", Told::Same),
    ("3:17:67", "", Told::Same),
    ("f /srv/a", "d /srv/a\",\"f /srv/a/b", Told::Same),
    (
        "\"now\":4,\"start\":4",
        "\"now\":4294967295,\"start\":4",
        Told::Same,
    ),
    // The same report, written otherwise.
    ("install", "inst\\u0061ll", Told::Other),
    ("\"verdict\":1", "\"verdict\":2,\"verdict\":1", Told::Other),
    ("\"scenarios\":[", "\"scenarios\": [ ", Told::Other),
    // Numbers of outcomes.
    ("\"number\":1", "\"number\":2", Told::Shape),
    ("\"number\":2", "\"number\":3", Told::Shape),
    ("\"number\":2", "\"number\":1", Told::Shape),
    ("\"number\":1", "\"number\":0", Told::Shape),
    ("\"number\":1", "\"number\":\"1\"", Told::Shape),
    ("\"number\":1", "\"number\":1.0", Told::Shape),
    ("\"number\":1", "\"number\":-1", Told::Shape),
    ("\"number\":1", "\"number\":4294967297", Told::Shape),
    // Scenarios.
    ("purge-later", "install", Told::Shape),
    (
        "\"name\":\"install\"",
        "\"name\":\"upgrade\",\"outcomes\":[]},{\"name\":\"install\"",
        Told::Shape,
    ),
    ("purge-later", "purge_later", Told::Shape),
    // Truth values.
    ("\"confirmed\":true", "\"confirmed\":false", Told::Shape),
    ("\"confirmed\":true", "\"confirmed\":\"yes\"", Told::Shape),
    // Trees.
    (
        "\"d /srv\",\"f /srv/a\"",
        "\"f /srv/a\",\"d /srv\"",
        Told::Shape,
    ),
    (
        "\"d /srv\",\"f /srv/a\"",
        "\"d /srv\",\"d /srv\"",
        Told::Shape,
    ),
    (
        "\"d /srv\",\"f /srv/a\"",
        "\"d /srv\",\"d /opt\"",
        Told::Shape,
    ),
    (
        "\"d /srv\",\"f /srv/a\"",
        "\"d /srv\\nf /srv/a\"",
        Told::Shape,
    ),
    ("d /srv", "d /\\\\x73rv", Told::Shape),
    ("d /srv", "x /srv", Told::Shape),
    ("l /srv a\\\\x20b", "l /srv", Told::Shape),
    (
        "\"shown\":[\"d /srv\"]",
        "\"shown\":\"d /srv\"",
        Told::Shape,
    ),
    ("\"shown\":[\"d /srv\"]", "\"shown\":[1]", Told::Shape),
    // Members.
    ("\"shown\":[\"d /srv\"],", "", Told::Shape),
    ("\"colis\":2,", "", Told::Shape),
    ("\"colis\":2", "\"colis\":1", Told::Shape),
    ("\"colis\":2", "\"colis\":3", Told::Shape),
    ("\"colis\":2", "\"colis\":\"2\"", Told::Shape),
    ("\"colis\":2", "\"colis\":2.0", Told::Shape),
    ("\"calls\":[]", "\"calls\":[],\"more\":[]", Told::Shape),
    ("\"calls\":[]", "\"calls\":null", Told::Shape),
    ("\"verdict\":1", "\"verdict\":2", Told::Shape),
    ("\"verdict\":1", "\"verdict\":1,\"verdict\":2", Told::Shape),
    // Calls.
    ("call new", "call young", Told::Shape),
    ("call new", "calls new", Told::Shape),
    ("postinst", "configure", Told::Shape),
    ("configure", "c\\\\x6fnfigure", Told::Shape),
    (" failed\"]", " broken\"]", Told::Shape),
    // Clauses.
    ("kind v1 dir", "kind v1 dir,reg", Told::Shape),
    ("kind v1 dir", "kind v1 file", Told::Shape),
    ("notempty v0", "notempty 0", Told::Shape),
    ("\"now\":1", "\"now\":4294967296", Told::Shape),
    ("\"now\":1", "\"now\":\"v1\"", Told::Shape),
    // Endings and traces.
    ("done Installed", "done installed", Told::Shape),
    ("incomplete link", "incomplete loop", Told::Shape),
    ("3:17:67", "3:17:067", Told::Shape),
    ("3:17:67", "3:17:256", Told::Shape),
    ("3:17:67", "3:17:67 ", Told::Shape),
    // No JSON.
    ("\"calls\":[]", "\"calls\":[,]", Told::Json),
    ("true", "True", Told::Json),
    ("\"name\"", "name", Told::Json),
    ("\"verdict\":1}", "\"verdict\":1}}", Told::Json),
];

// How a report that was read is printed.
fn printed(alloc: Global, report: &Report, text: &[u8]) -> Told {
    match render_json(alloc, report) {
        Ok(again) => {
            if again.as_slice() == text {
                Told::Same
            } else {
                Told::Other
            }
        }
        Err(_) => Told::Nothing,
    }
}

/// What the text tells.
pub(crate) fn read_again(alloc: Global, text: &[u8]) -> Told {
    match read_json(alloc, text) {
        Ok(report) => printed(alloc, &report, text),
        Err(JsonFault::Json) => Told::Json,
        Err(JsonFault::Shape) => Told::Shape,
        Err(JsonFault::Memory) => Told::Nothing,
    }
}

/// A text with something else in the first place where this stands.
pub(crate) fn changed(alloc: Global, whole: &str, from: &str, to: &str) -> Result<Bytes, Memory> {
    let mut text = Bytes::new(alloc);
    match whole.split_once(from) {
        Some((before, after)) => {
            text.extend(before.as_bytes())?;
            text.extend(to.as_bytes())?;
            text.extend(after.as_bytes())?;
        }
        None => {}
    }
    Ok(text)
}

#[test]
fn texts_are_read_or_refused(rt: HostRuntime) {
    for row in TEXTS {
        assert!(rt;
            read_again(rt.alloc(), row.0.as_bytes()) == row.1,
            "{}",
            row.0
        );
    }
    assert!(rt; read_again(rt.alloc(), b"\"\xff\"") == Told::Json);
    assert!(rt; read_again(rt.alloc(), b"\xef\xbb\xbf{}") == Told::Json);
}

#[test]
fn changes_are_read_or_refused(rt: HostRuntime) -> Result<(), Fail> {
    for row in CHANGES {
        let text = changed(rt.alloc(), WHOLE, row.0, row.1)?;
        assert!(rt;
            read_again(rt.alloc(), text.as_slice()) == row.2,
            "{} {}",
            row.0,
            row.1
        );
    }
    Ok(())
}
