//! What start trees need along known links, and by `own` and `removed`. Behind a path stand the kinds that it may have:
//! A nothing, R a regular file, L a link, F, S, B and C a special file, D a directory; or, behind `=`, the names that its
//! entries may have; or, behind `>`, the target of the link there.

use crate::answers::{File, Sought, is_said};
use dpkg_scenarios::Scenario;
use std::alloc::Global;

const LINE: &str = "check p --base b";

// A package whose paths lead along the link at /bin.
const BIN: &[u8] = b"/.\n/bin\n/bin/d\n/bin/d/x\n/bin/y\n/usr/bin/d/z\n";

// A package with a folder that is not listed.
const UNLISTED: &[u8] = b"/srv/foo\n/srv/foo/a/b\n";

// Folders at /usr and beside it.
const BESIDE: &[u8] = b"/usr\n/usr/a/\n/usrlocal\n/usrlocal/b/\n";

// Nine links, one behind another.
const NINE: &[u8] =
    b"link /1 2\nlink /2 3\nlink /3 4\nlink /4 5\nlink /5 6\nlink /6 7\nlink /7 8\nlink /8 9\nlink /9 d\n";

// A scenario, the list of the package, its configuration files, the base, and what is needed.
type Row = (
    Scenario,
    &'static [u8],
    &'static [u8],
    &'static [u8],
    &'static str,
);

const ROWS: &[Row] = &[
    // known links
    // A link stands at its path, with its target, and leads to a directory.
    (
        Scenario::Install,
        b"",
        b"",
        b"link /bin usr/bin\nlink /a/b /c\n",
        "/bin>usr/bin /usr/bin:D /a/b>/c /c:D ",
    ),
    (
        Scenario::Install,
        b"",
        b"",
        b"link /a b/c\nlink /d/e f\n",
        "/a>b/c /b/c:D /d/e>f /d/f:D ",
    ),
    // Links lead along links; the line of a directory does not.
    (
        Scenario::Install,
        b"",
        b"",
        b"dir /a/c\nlink /a b\nlink /b c\nlink /l /a/x\n",
        "/a/c:D /a>b /c:D /b>c /c:D /l>/a/x /c/x:D ",
    ),
    // Eight links are followed, and no ninth.
    (
        Scenario::Install,
        b"",
        b"",
        NINE,
        "/1>2 /9: /2>3 /d:D /3>4 /d:D /4>5 /d:D /5>6 /d:D /6>7 /d:D /7>8 /d:D /8>9 /d:D /9>d /d:D ",
    ),
    // A folder's path leads along a link at its last name too.
    (
        Scenario::Remove,
        BIN,
        b"",
        b"link /bin usr/bin\n",
        "/bin>usr/bin /usr/bin:D /usr/bin:D /usr/bin/d:D /usr/bin/d/x:ARLFSBC /usr/bin/y:ARLFSBC /usr/bin/d/z:ARLFSBC ",
    ),
    // Any other path does not.
    (
        Scenario::Remove,
        b"/lib -> usr/lib\n/bin/l -> y\n/sbin\n",
        b"",
        b"link /bin usr/bin\nlink /sbin usr/sbin\nlink /usr/bin/l m\nlink /lib usr/lib\n",
        "/bin>usr/bin /usr/bin:D /sbin>usr/sbin /usr/sbin:D /usr/bin/l>m /usr/bin/m:D /lib>usr/lib /usr/lib:D \
        /lib:ARLFSBC /usr/bin/l:ARLFSBC /sbin:ARLFSBC ",
    ),
    (
        Scenario::InstallAgain,
        BIN,
        b"/bin/y\n",
        b"link /bin usr/bin\n",
        "/bin>usr/bin /usr/bin:D /usr/bin/y:ARLFSBC ",
    ),
    (
        Scenario::Install,
        BIN,
        b"/bin/y\n",
        b"fits\nlink /bin usr/bin\n",
        "/bin>usr/bin /usr/bin:D /usr/bin:AD /usr/bin/d:AD /usr/bin/d/x:ARLFSBC /usr/bin/y:AR /usr/bin/d/z:ARLFSBC ",
    ),
    // A path that is blocked is met by no tree.
    (
        Scenario::Remove,
        b"/a/x\n",
        b"",
        b"link /a b\nlink /b a\n",
        "/a>b /a: /b>a /b: /a: ",
    ),
    // Nothing is asked of a folder where configuration files alone stayed.
    (
        Scenario::InstallAgain,
        b"/a/x/\n",
        b"",
        b"link /a b\nlink /b a\n",
        "/a>b /a: /b>a /b: ",
    ),
    // folders that hold no foreign entry
    // The names are those of all entries below, whether the folders between are listed or not.
    (
        Scenario::Remove,
        UNLISTED,
        b"",
        b"own\n",
        "/srv/foo:D /srv/foo/a/b:ARLFSBC /srv/foo=,a ",
    ),
    (
        Scenario::Remove,
        b"/srv/foo\n/srv/foo/a\n/srv/foo/a/b\n",
        b"",
        b"own\n",
        "/srv/foo:D /srv/foo/a:D /srv/foo/a/b:ARLFSBC /srv/foo=,a /srv/foo/a=,b ",
    ),
    (
        Scenario::Remove,
        b"/f\n/f/b/c\n/f/a\n/f/b/d\n/f/b\n",
        b"",
        b"own\n",
        "/f:D /f/b/c:ARLFSBC /f/a:ARLFSBC /f/b/d:ARLFSBC /f/b:D /f=,b,a /f/b=,c,d ",
    ),
    // They are those of the paths to which the entries lead; a directory at a link's end may hold anything.
    (
        Scenario::Remove,
        BIN,
        b"",
        b"link /bin usr/bin\nown\n",
        "/bin>usr/bin /usr/bin:D /usr/bin:D /usr/bin/d:D /usr/bin/d/x:ARLFSBC /usr/bin/y:ARLFSBC /usr/bin/d/z:ARLFSBC \
        /usr/bin/d=,x,z ",
    ),
    (
        Scenario::Remove,
        b"/bin/d\n/bin/d/x\n/usr/bin/d\n/usr/bin/d/y\n",
        b"",
        b"link /bin usr/bin\nown\n",
        "/bin>usr/bin /usr/bin:D /usr/bin/d:D /usr/bin/d/x:ARLFSBC /usr/bin/d:D /usr/bin/d/y:ARLFSBC \
        /usr/bin/d=,x,y /usr/bin/d=,x,y ",
    ),
    // A link on the way to an entry stands in its folder, whether it is listed or not.
    (
        Scenario::Remove,
        b"/opt\n/opt/l/x\n",
        b"",
        b"link /opt/l /var/l\nown\n",
        "/opt/l>/var/l /var/l:D /opt:D /var/l/x:ARLFSBC /opt=,l ",
    ),
    // `own P` speaks of the folders at the path and below it alone, name by name.
    (
        Scenario::Remove,
        BESIDE,
        b"",
        b"own /usr\n",
        "/usr:D /usr/a:D /usrlocal:D /usrlocal/b:D /usr=,a /usr/a= ",
    ),
    (
        Scenario::Remove,
        BESIDE,
        b"",
        b"own /usr/a\nown /usrlocal/b\nown /x\n",
        "/usr:D /usr/a:D /usrlocal:D /usrlocal/b:D /usr/a= /usrlocal/b= ",
    ),
    (
        Scenario::Remove,
        BESIDE,
        b"",
        b"own /usr/a\nown\n",
        "/usr:D /usr/a:D /usrlocal:D /usrlocal/b:D /usr=,a /usr/a= /usrlocal=,b /usrlocal/b= ",
    ),
    // It goes by the path that is listed.
    (
        Scenario::PurgeLater,
        b"/bin/d\n/bin/d/x\n/usr/bin/e/\n",
        b"",
        b"link /bin usr/bin\nown /usr\n",
        "/bin>usr/bin /usr/bin:D /usr/bin/e:AD /usr/bin/e= ",
    ),
    (
        Scenario::PurgeLater,
        b"/bin/d\n/bin/d/x\n/usr/bin/e/\n",
        b"",
        b"link /bin usr/bin\nown /bin\n",
        "/bin>usr/bin /usr/bin:D /usr/bin/d:AD /usr/bin/d=,x ",
    ),
    // Of a folder whose path is blocked it says nothing.
    (
        Scenario::PurgeLater,
        b"/a/x/\n",
        b"",
        b"link /a b\nlink /b a\nown\n",
        "/a>b /a: /b>a /b: ",
    ),
    // a removal that took the package away
    // Nothing is left of the package but its configuration files, the folders on the way to one, and what is a directory
    // of the base.
    (
        Scenario::PurgeLater,
        b"/.\n/etc\n/etc/foo\n/etc/foo/a.conf\n/usr\n/usr/x\n/usr/e/\n/l -> x\n/srv/d/\n",
        b"/etc/foo/a.conf\n",
        b"removed\ndir /srv/d/e\n",
        "/srv/d/e:D /etc/foo/a.conf:ARLFSBC /usr:A /usr/x:A /usr/e:A /l:A ",
    ),
    // So it is along the links, and of what leads to a directory of the base.
    (
        Scenario::PurgeLater,
        BIN,
        b"/bin/d/x\n",
        b"link /bin usr/bin\nremoved\n",
        "/bin>usr/bin /usr/bin:D /usr/bin/d/x:ARLFSBC /usr/bin/y:A /usr/bin/d/z:A ",
    ),
    (
        Scenario::PurgeLater,
        b"/sbin -> usr/sbin\n/run\n/bin/l -> y\n/lib/\n",
        b"",
        b"link /bin usr/bin\nlink /sbin usr/sbin\nlink /lib usr/lib\nlink /run var/run\nremoved\n",
        "/bin>usr/bin /usr/bin:D /sbin>usr/sbin /usr/sbin:D /lib>usr/lib /usr/lib:D /run>var/run /var/run:D \
        /usr/bin/l:A ",
    ),
    // A configuration file below is one by the list.
    (
        Scenario::PurgeLater,
        b"/usr/bin/d\n/usr/bin/d/y\n/bin/d/c\n",
        b"/bin/d/c\n",
        b"link /bin usr/bin\nremoved\n",
        "/bin>usr/bin /usr/bin:D /usr/bin/d/c:ARLFSBC /usr/bin/d:A /usr/bin/d/y:A ",
    ),
    // Beside `own`; and a path that is blocked is met by no tree.
    (
        Scenario::PurgeLater,
        b"/f\n/f/c\n/f/x\n",
        b"/f/c\n",
        b"removed\nown\n",
        "/f/c:ARLFSBC /f:AD /f=,c,x /f/x:A ",
    ),
    (
        Scenario::PurgeLater,
        b"/a/x\n",
        b"",
        b"link /a b\nlink /b a\nremoved\n",
        "/a>b /a: /b>a /b: /a: ",
    ),
    // In the other scenarios it says nothing.
    (Scenario::InstallAgain, b"/f\n/f/x\n", b"", b"removed\n", ""),
    (
        Scenario::Remove,
        b"/f\n/f/x\n",
        b"",
        b"removed\n",
        "/f:D /f/x:ARLFSBC ",
    ),
    (
        Scenario::Purge,
        b"/f\n/f/x\n",
        b"",
        b"removed\n",
        "/f:D /f/x:ARLFSBC ",
    ),
];

// Whether the start trees of a row need what the row says.
fn is_needed(alloc: Global, row: &Row) -> bool {
    let files: [File; 3] = [("p/list", row.1), ("p/conffiles", row.2), ("b", row.3)];
    is_said(alloc, Sought::Answer, row.0, LINE, &files, &[], row.4)
}

#[test]
fn start_trees_need_along_links(rt: HostRuntime) {
    for row in ROWS {
        assert!(rt; is_needed(rt.alloc(), row), "{:?}", row.3);
    }
}
