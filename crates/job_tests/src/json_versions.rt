//! Texts of the first version, in which one kind stood for the four special ones: they are read, and printed in the
//! second.

use crate::json_readings::{PURGE, Told, WHOLE, changed, read_again};
use report_json::render_json;
use report_reader::read_json;
use script_names::Memory;
use std::alloc::Global;
use std::test::Fail;

// Three ways: a link is not followed, a directory is made, or something is there.
const THREE_WAYS_FIRST: &str = "{\"colis\":1,\"scenarios\":[\
    {\"name\":\"install\",\"outcomes\":[\
    {\"after\":[\"d /srv\",\"l /srv/a x\"],\"calls\":[\"call new postinst configure \\\\e ended\"]\
    ,\"clause\":{\"literals\":[\"kind v0 dir\",\"entry v0 srv v1\",\"kind v1 dir\",\"entry v1 a v2\",\"kind v2 link\"],\"now\":0,\"start\":0}\
    ,\"confirmed\":true,\"number\":1,\"result\":\"incomplete link 3:17\",\"shown\":[\"d /srv\",\"l /srv/a x\"],\"trace\":\"3:17:65\"},\
    {\"after\":[\"d /srv\",\"d /srv/a\"],\"calls\":[\"call new postinst configure \\\\e ok\"]\
    ,\"clause\":{\"literals\":[\"kind v0 dir\",\"entry v0 srv v1\",\"kind v1 dir\",\"entry v1 a v2\",\"kind v2 absent\",\"kind v3 dir\",\"fence v3 {}\",\"similar v4 {a} v1\",\"entry v4 a v3\",\"similar v5 {srv} v0\",\"entry v5 srv v4\"],\"now\":5,\"start\":0}\
    ,\"confirmed\":true,\"number\":2,\"result\":\"done Installed\",\"shown\":[\"d /srv\"],\"trace\":\"3:17:66 3:34:68\"},\
    {\"after\":[\"d /srv\",\"d /srv/a\"],\"calls\":[\"call new postinst configure \\\\e ok\"]\
    ,\"clause\":{\"literals\":[\"kind v0 dir\",\"entry v0 srv v1\",\"kind v1 dir\",\"entry v1 a v2\",\"kind v2 reg,other,dir\"],\"now\":0,\"start\":0}\
    ,\"confirmed\":true,\"number\":3,\"result\":\"done Installed\",\"shown\":[\"d /srv\",\"d /srv/a\"],\"trace\":\"3:17:67\"}]}],\"verdict\":2}\n";

const THREE_WAYS: &str = "{\"colis\":2,\"scenarios\":[\
    {\"name\":\"install\",\"outcomes\":[\
    {\"after\":[\"d /srv\",\"l /srv/a x\"],\"calls\":[\"call new postinst configure \\\\e ended\"]\
    ,\"clause\":{\"literals\":[\"kind v0 dir\",\"entry v0 srv v1\",\"kind v1 dir\",\"entry v1 a v2\",\"kind v2 link\"],\"now\":0,\"start\":0}\
    ,\"confirmed\":true,\"number\":1,\"result\":\"incomplete link 3:17\",\"shown\":[\"d /srv\",\"l /srv/a x\"],\"trace\":\"3:17:65\"},\
    {\"after\":[\"d /srv\",\"d /srv/a\"],\"calls\":[\"call new postinst configure \\\\e ok\"]\
    ,\"clause\":{\"literals\":[\"kind v0 dir\",\"entry v0 srv v1\",\"kind v1 dir\",\"entry v1 a v2\",\"kind v2 absent\",\"kind v3 dir\",\"fence v3 {}\",\"similar v4 {a} v1\",\"entry v4 a v3\",\"similar v5 {srv} v0\",\"entry v5 srv v4\"],\"now\":5,\"start\":0}\
    ,\"confirmed\":true,\"number\":2,\"result\":\"done Installed\",\"shown\":[\"d /srv\"],\"trace\":\"3:17:66 3:34:68\"},\
    {\"after\":[\"d /srv\",\"d /srv/a\"],\"calls\":[\"call new postinst configure \\\\e ok\"]\
    ,\"clause\":{\"literals\":[\"kind v0 dir\",\"entry v0 srv v1\",\"kind v1 dir\",\"entry v1 a v2\",\"kind v2 reg,fifo,socket,block,char,dir\"],\"now\":0,\"start\":0}\
    ,\"confirmed\":true,\"number\":3,\"result\":\"done Installed\",\"shown\":[\"d /srv\",\"d /srv/a\"],\"trace\":\"3:17:67\"}]}],\"verdict\":2}\n";

// A question: a link is not followed, nothing and a file are no directory, and a directory is one.
const QUESTION_FIRST: &str = "{\"colis\":1,\"scenarios\":[\
    {\"name\":\"install\",\"outcomes\":[\
    {\"after\":[\"l /a x\"],\"calls\":[\"call new postinst configure \\\\e ended\"]\
    ,\"clause\":{\"literals\":[\"kind v0 dir\",\"entry v0 a v1\",\"kind v1 link\"],\"now\":0,\"start\":0}\
    ,\"confirmed\":true,\"number\":1,\"result\":\"incomplete link 3:17\",\"shown\":[\"l /a x\"],\"trace\":\"3:17:65\"},\
    {\"after\":[\"f /a\"],\"calls\":[\"call new postinst configure \\\\e failed\"]\
    ,\"clause\":{\"literals\":[\"kind v0 dir\",\"entry v0 a v1\",\"kind v1 absent,reg,other\"],\"now\":0,\"start\":0}\
    ,\"confirmed\":true,\"number\":2,\"result\":\"failed Half-Configured\",\"shown\":[\"f /a\"],\"trace\":\"3:17:66\"},\
    {\"after\":[\"d /a\"],\"calls\":[\"call new postinst configure \\\\e ok\"]\
    ,\"clause\":{\"literals\":[\"kind v0 dir\",\"entry v0 a v1\",\"kind v1 dir\"],\"now\":0,\"start\":0}\
    ,\"confirmed\":true,\"number\":3,\"result\":\"done Installed\",\"shown\":[\"d /a\"],\"trace\":\"3:17:67\"}]}],\"verdict\":1}\n";

const QUESTION: &str = "{\"colis\":2,\"scenarios\":[\
    {\"name\":\"install\",\"outcomes\":[\
    {\"after\":[\"l /a x\"],\"calls\":[\"call new postinst configure \\\\e ended\"]\
    ,\"clause\":{\"literals\":[\"kind v0 dir\",\"entry v0 a v1\",\"kind v1 link\"],\"now\":0,\"start\":0}\
    ,\"confirmed\":true,\"number\":1,\"result\":\"incomplete link 3:17\",\"shown\":[\"l /a x\"],\"trace\":\"3:17:65\"},\
    {\"after\":[\"f /a\"],\"calls\":[\"call new postinst configure \\\\e failed\"]\
    ,\"clause\":{\"literals\":[\"kind v0 dir\",\"entry v0 a v1\",\"kind v1 absent,reg,fifo,socket,block,char\"],\"now\":0,\"start\":0}\
    ,\"confirmed\":true,\"number\":2,\"result\":\"failed Half-Configured\",\"shown\":[\"f /a\"],\"trace\":\"3:17:66\"},\
    {\"after\":[\"d /a\"],\"calls\":[\"call new postinst configure \\\\e ok\"]\
    ,\"clause\":{\"literals\":[\"kind v0 dir\",\"entry v0 a v1\",\"kind v1 dir\"],\"now\":0,\"start\":0}\
    ,\"confirmed\":true,\"number\":3,\"result\":\"done Installed\",\"shown\":[\"d /a\"],\"trace\":\"3:17:67\"}]}],\"verdict\":1}\n";

// Sets of kinds with the four special ones and without, and special things in both trees.
const KINDS_FIRST: &str = "{\"colis\":1,\"scenarios\":[\
    {\"name\":\"purge-later\",\"outcomes\":[\
    {\"after\":[\"o /srv\"],\"calls\":[]\
    ,\"clause\":{\"literals\":[\"kind v0 absent,link,other,dir\",\"kind v1 other\",\"kind v2 -\"],\"now\":1,\"start\":0}\
    ,\"confirmed\":true,\"number\":1,\"result\":\"incomplete link 3:17\",\"shown\":[\"d /srv\",\"o /srv/a\",\"f /srv/b\"],\"trace\":\"\"}]}],\"verdict\":2}\n";

const KINDS: &str = "{\"colis\":2,\"scenarios\":[\
    {\"name\":\"purge-later\",\"outcomes\":[\
    {\"after\":[\"p /srv\"],\"calls\":[]\
    ,\"clause\":{\"literals\":[\"kind v0 absent,link,fifo,socket,block,char,dir\",\"kind v1 fifo,socket,block,char\",\"kind v2 -\"],\"now\":1,\"start\":0}\
    ,\"confirmed\":true,\"number\":1,\"result\":\"incomplete link 3:17\",\"shown\":[\"d /srv\",\"p /srv/a\",\"f /srv/b\"],\"trace\":\"\"}]}],\"verdict\":2}\n";

// Two scenarios, with each ending but one.
const WHOLE_FIRST: &str = "{\"colis\":1,\"scenarios\":[\
    {\"name\":\"install\",\"outcomes\":[\
    {\"after\":[\"d /srv\",\"f /srv/a\"],\"calls\":[]\
    ,\"clause\":{\"literals\":[],\"now\":4,\"start\":4}\
    ,\"confirmed\":true,\"number\":1,\"result\":\"done Installed\",\"shown\":[\"d /srv\"],\"trace\":\"3:17:67\"},\
    {\"after\":[\"d /srv\"],\"calls\":[\"call new postinst configure \\\\e failed\"]\
    ,\"clause\":{\"literals\":[\"kind v1 dir\",\"notempty v0\"],\"now\":1,\"start\":0}\
    ,\"confirmed\":true,\"number\":2,\"result\":\"failed Half-Configured\",\"shown\":[\"l /srv a\\\\x20b\"],\"trace\":\"3:17:67 3:34:66\"}]},\
    {\"name\":\"purge-later\",\"outcomes\":[\
    {\"after\":[\"o /srv\"],\"calls\":[]\
    ,\"clause\":{\"literals\":[],\"now\":0,\"start\":0}\
    ,\"confirmed\":true,\"number\":1,\"result\":\"incomplete link 3:17\",\"shown\":[],\"trace\":\"\"}]}],\"verdict\":1}\n";

// A purge.
const PURGE_FIRST: &str = "{\"colis\":1,\"scenarios\":[\
    {\"name\":\"purge\",\"outcomes\":[\
    {\"after\":[\"d /etc\",\"d /etc/foo\",\"f /etc/foo/a\"],\"calls\":[]\
    ,\"clause\":{\"literals\":[\"kind v0 dir\",\"entry v0 etc v1\",\"kind v1 dir\",\"entry v1 foo v2\",\"kind v2 dir\",\"entry v2 a.conf v3\",\"kind v3 reg,link,other\",\"kind v4 absent\",\"similar v5 {a.conf} v2\",\"entry v5 a.conf v4\",\"notempty v5\",\"similar v6 {foo} v1\",\"entry v6 foo v5\",\"similar v7 {etc} v0\",\"entry v7 etc v6\"],\"now\":7,\"start\":0}\
    ,\"confirmed\":true,\"number\":1,\"result\":\"done Not-Installed\",\"shown\":[\"d /etc\",\"d /etc/foo\",\"f /etc/foo/a\",\"f /etc/foo/a.conf\"],\"trace\":\"2:0:67 4:0:68 4:1:67\"},\
    {\"after\":[\"d /etc\"],\"calls\":[]\
    ,\"clause\":{\"literals\":[\"kind v0 dir\",\"entry v0 etc v1\",\"kind v1 dir\",\"entry v1 foo v2\",\"kind v2 dir\",\"fence v2 {a.conf}\",\"entry v2 a.conf v3\",\"kind v3 reg,link,other\",\"kind v4 absent\",\"similar v5 {foo} v1\",\"entry v5 foo v4\",\"similar v6 {etc} v0\",\"entry v6 etc v5\"],\"now\":6,\"start\":0}\
    ,\"confirmed\":true,\"number\":2,\"result\":\"done Not-Installed\",\"shown\":[\"d /etc\",\"d /etc/foo\",\"f /etc/foo/a.conf\"],\"trace\":\"2:0:67 4:0:68 4:1:68\"},\
    {\"after\":[\"d /etc\"],\"calls\":[]\
    ,\"clause\":{\"literals\":[\"kind v0 dir\",\"entry v0 etc v1\",\"kind v1 dir\",\"entry v1 foo v2\",\"kind v2 dir\",\"fence v2 {}\",\"kind v3 absent\",\"similar v4 {foo} v1\",\"entry v4 foo v3\",\"similar v5 {etc} v0\",\"entry v5 etc v4\"],\"now\":5,\"start\":0}\
    ,\"confirmed\":true,\"number\":3,\"result\":\"done Not-Installed\",\"shown\":[\"d /etc\",\"d /etc/foo\"],\"trace\":\"2:0:68 4:0:66 4:1:66\"}]}],\"verdict\":0}\n";

// Texts of the first version, and those of the second of the same reports.
const VERSIONS: &[(&str, &str)] = &[
    (THREE_WAYS_FIRST, THREE_WAYS),
    (QUESTION_FIRST, QUESTION),
    (KINDS_FIRST, KINDS),
    (WHOLE_FIRST, WHOLE),
    (PURGE_FIRST, PURGE),
    (
        "{\"colis\":1,\"scenarios\":[],\"verdict\":0}\n",
        "{\"colis\":2,\"scenarios\":[],\"verdict\":0}\n",
    ),
    (
        "{\"colis\":1,\"scenarios\":[{\"name\":\"purge\",\"outcomes\":[]}],\"verdict\":0}\n",
        "{\"colis\":2,\"scenarios\":[{\"name\":\"purge\",\"outcomes\":[]}],\"verdict\":0}\n",
    ),
    (
        "{ \"verdict\" : 0,\n\t\"scenarios\" : [ ], \"colis\" : 1 }\r\n",
        "{\"colis\":2,\"scenarios\":[],\"verdict\":0}\n",
    ),
];

// A text, what stands in it first, what stands there instead, and what is read.
const MISSES: &[(&str, &str, &str, Told)] = &[
    // The second version has sets of some of the four, and things of each of them.
    (
        KINDS,
        "kind v1 fifo,socket,block,char",
        "kind v1 fifo",
        Told::Same,
    ),
    (
        KINDS,
        "kind v1 fifo,socket,block,char",
        "kind v1 socket,char,dir",
        Told::Same,
    ),
    (KINDS, "p /srv/a", "s /srv/a", Told::Same),
    (KINDS, "p /srv/a", "b /srv/a", Told::Same),
    (KINDS, "p /srv/a", "c /srv/a", Told::Same),
    // Its lists are in order, and it has no word for the four.
    (
        KINDS,
        "link,fifo,socket,block,char,dir",
        "link,socket,fifo,block,char,dir",
        Told::Shape,
    ),
    (
        KINDS,
        "link,fifo,socket,block,char,dir",
        "fifo,link,socket,block,char,dir",
        Told::Shape,
    ),
    (
        KINDS,
        "link,fifo,socket,block,char,dir",
        "link,fifo,fifo,dir",
        Told::Shape,
    ),
    (
        KINDS,
        "link,fifo,socket,block,char,dir",
        "link,other,dir",
        Told::Shape,
    ),
    (
        KINDS,
        "link,fifo,socket,block,char,dir\",\"kind v1 fifo,socket,block,char",
        "link,other,dir\",\"kind v1 other",
        Told::Shape,
    ),
    (KINDS, "p /srv/a", "o /srv/a", Told::Shape),
    (KINDS, "\"colis\":2", "\"colis\":1", Told::Shape),
    (KINDS, "\"colis\":2", "\"colis\":3", Told::Shape),
    // In the first version one word and one letter stood for the four.
    (KINDS_FIRST, "link,other,dir", "link,dir", Told::Other),
    (KINDS_FIRST, "link,other,dir", "link,fifo,dir", Told::Shape),
    (
        KINDS_FIRST,
        "link,other,dir",
        "link,fifo,socket,dir",
        Told::Shape,
    ),
    (
        KINDS_FIRST,
        "link,other,dir",
        "link,fifo,socket,block,char,dir",
        Told::Shape,
    ),
    (
        KINDS_FIRST,
        "link,other,dir",
        "link,other,fifo,dir",
        Told::Shape,
    ),
    (KINDS_FIRST, "link,other,dir", "other,link,dir", Told::Shape),
    (
        KINDS_FIRST,
        "link,other,dir",
        "link,other,other,dir",
        Told::Shape,
    ),
    (KINDS_FIRST, "o /srv/a", "p /srv/a", Told::Shape),
    (KINDS_FIRST, "o /srv/a", "s /srv/a", Told::Shape),
    (KINDS_FIRST, "o /srv/a", "b /srv/a", Told::Shape),
    (KINDS_FIRST, "o /srv/a", "c /srv/a", Told::Shape),
    (KINDS_FIRST, "\"o /srv\"", "\"p /srv\"", Told::Shape),
    (KINDS_FIRST, "\"colis\":1", "\"colis\":2", Told::Shape),
    (KINDS_FIRST, "\"colis\":1", "\"colis\":0", Told::Shape),
    (KINDS_FIRST, "\"colis\":1", "\"colis\":\"1\"", Told::Shape),
    (KINDS_FIRST, "\"colis\":1", "\"colis\":1.0", Told::Shape),
];

// Whether the text is read, and printed as the other.
fn is_printed_as(alloc: Global, first: &str, second: &str) -> Result<bool, Memory> {
    match read_json(alloc, first.as_bytes()) {
        Ok(report) => {
            let text = render_json(alloc, &report)?;
            Ok(text.as_slice() == second.as_bytes())
        }
        Err(_) => Ok(false),
    }
}

#[test]
fn texts_of_the_first_version_are_printed_in_the_second(rt: HostRuntime) -> Result<(), Fail> {
    for row in VERSIONS {
        let same = is_printed_as(rt.alloc(), row.0, row.1)?;
        assert!(rt; same, "{}", row.0);
    }
    Ok(())
}

#[test]
fn each_version_has_its_own_kinds(rt: HostRuntime) -> Result<(), Fail> {
    for row in MISSES {
        let text = changed(rt.alloc(), row.0, row.1, row.2)?;
        assert!(rt;
            read_again(rt.alloc(), text.as_slice()) == row.3,
            "{} {}",
            row.1,
            row.2
        );
    }
    Ok(())
}
