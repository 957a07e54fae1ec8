//! The row that each act takes on a tree, its answer, and what it leaves there.

use crate::trials::{Taken, Trial, call_takes, copy_takes, placed_takes};

// What stands on the tree of the tests: `d` a directory, `f` a file, `l` a link, `p` a pipe, `s` a socket, `b` a block
// device, `c` a character device.
const SAMPLE: &str = "d /d
d /d/e
f /d/f
l /d/l
c /d/o
d /d/g
d /d/g/g
d /e
f /f
f /h
l /l
s /o
p /p
b /b
c /c
d /g
d /x
d /x/f
d /x/l
d /x/g
f /x/g/a
l /y
l /x/o";

const CALLS: &[Taken] = &[
    // questions
    ("test -e /l", 65, "link", ""),
    ("test -e /n", 66, "failed", ""),
    ("test -e /f", 67, "ok", ""),
    ("test -f /l", 65, "link", ""),
    ("test -f /d", 66, "failed", ""),
    ("test -f /f", 67, "ok", ""),
    ("test -d /l", 65, "link", ""),
    ("test -d /f", 66, "failed", ""),
    ("test -d /d", 67, "ok", ""),
    ("test -d /", 67, "ok", ""),
    ("test -h /f", 66, "failed", ""),
    ("test -h /l", 67, "ok", ""),
    ("test -x /l", 65, "link", ""),
    ("test -x /n", 66, "failed", ""),
    ("test -x /d", 67, "ok", ""),
    ("test -x /f", 68, "run", ""),
    ("test -x /c", 68, "run", ""),
    ("test -p /l", 65, "link", ""),
    ("test -p /o", 66, "failed", ""),
    ("test -p /p", 67, "ok", ""),
    ("test -S /l", 65, "link", ""),
    ("test -S /b", 66, "failed", ""),
    ("test -S /n", 66, "failed", ""),
    ("test -S /o", 67, "ok", ""),
    ("test -b /l", 65, "link", ""),
    ("test -b /c", 66, "failed", ""),
    ("test -b /b", 67, "ok", ""),
    ("test -c /l", 65, "link", ""),
    ("test -c /f", 66, "failed", ""),
    ("test -c /c", 67, "ok", ""),
    ("test -c /d/o", 67, "ok", ""),
    ("test -c /", 66, "failed", ""),
    ("test -S /l/a", 1, "link", ""),
    ("test -S /o/", 64, "slash", ""),
    ("test -S /n/", 66, "failed", ""),
    ("test -S /d/", 66, "failed", ""),
    ("test -e /l/a", 1, "link", ""),
    ("test -e /d/l/a", 2, "link", ""),
    ("test -e /f/", 64, "slash", ""),
    ("test -h /l/", 64, "slash", ""),
    ("test -e /n/", 66, "failed", ""),
    // changes
    ("mkdir /l/a", 1, "link", ""),
    ("mkdir /f/", 64, "slash", ""),
    ("mkdir /f/a", 66, "failed", ""),
    ("mkdir /l", 67, "failed", ""),
    ("mkdir /n/", 68, "ok", "d /n"),
    ("mkdir -p /l", 65, "link", ""),
    ("mkdir -p /f/a", 66, "failed", ""),
    ("mkdir -p /f", 67, "failed", ""),
    ("mkdir -p /n", 68, "ok", "d /n"),
    ("mkdir -p /d", 68, "ok", ""),
    ("rmdir /f", 66, "failed", ""),
    ("rmdir /d", 67, "failed", ""),
    ("rmdir /e", 68, "ok", "- /e"),
    ("rm /n", 66, "failed", ""),
    ("rm /d", 67, "failed", ""),
    ("rm /l", 68, "ok", "- /l"),
    ("rm /o", 68, "ok", "- /o"),
    ("rm -r /n", 66, "failed", ""),
    ("rm -r /d", 69, "ok", "- /d"),
    ("rm -f /d", 67, "failed", ""),
    ("rm -f /f/a", 70, "ok", ""),
    ("rm -f /f", 71, "ok", "- /f"),
    ("rm -f /n", 71, "ok", ""),
    ("rm -rf /f/a", 70, "ok", ""),
    ("rm -rf /d", 72, "ok", "- /d"),
    ("rm -rf /n", 72, "ok", ""),
    ("touch /l", 65, "link", ""),
    ("touch /f/a", 66, "failed", ""),
    ("touch /n", 67, "ok", "f /n"),
    ("touch /f", 67, "ok", ""),
    ("touch /d", 68, "ok", ""),
    ("touch /b", 68, "ok", ""),
    ("ln -s t /l", 65, "link", ""),
    ("ln -s t /f/a", 66, "failed", ""),
    ("ln -s t /f", 67, "failed", ""),
    ("ln -s t /n", 68, "ok", "l /n"),
    ("ln -s f /d", 70, "failed", ""),
    ("ln -s t /e", 71, "ok", "l /e/t"),
    ("ln -sf t /l", 65, "link", ""),
    ("ln -sf t /f/a", 66, "failed", ""),
    ("ln -sf t /f", 69, "ok", "l /f"),
    ("ln -sf t /c", 69, "ok", "l /c"),
    ("ln -sf t /n", 69, "ok", "l /n"),
    ("ln -sf e /d", 72, "failed", ""),
    ("ln -sf t /e", 73, "ok", "l /e/t"),
    // moves
    ("mv /l/a /n", 1, "link", ""),
    ("mv /f /l/a", 129, "link", ""),
    ("mv /f /d/l/a", 130, "link", ""),
    ("mv /d /d/l/a", 130, "link", ""),
    ("mv /n /l/a", 66, "failed", ""),
    ("mv /d /d/l", 65, "link", ""),
    ("mv /d /d/n", 66, "failed", ""),
    ("mv /n /m", 66, "failed", ""),
    ("mv /f /l", 65, "link", ""),
    ("mv /f /h/a", 67, "failed", ""),
    ("mv /f /n", 68, "ok", "- /f,f /n"),
    ("mv /l /n", 68, "ok", "- /l,l /n"),
    ("mv /b /n", 68, "ok", "- /b,b /n"),
    ("mv /e /n", 69, "ok", "- /e,d /n"),
    ("mv /e /f", 70, "failed", ""),
    ("mv /f /e", 71, "ok", "- /f,f /e/f"),
    ("mv /f /x", 72, "failed", ""),
    ("mv /g /e", 73, "ok", "- /g,d /e/g"),
    ("mv /x/f /d", 74, "failed", ""),
    ("mv /g /d", 75, "failed", ""),
    ("mv /x/g /d/g", 76, "ok", "- /x/g,d /d/g/g,f /d/g/g/a"),
    ("mv /f /h", 77, "ok", "- /f,f /h"),
    ("mv /f /o", 77, "ok", "- /f,f /o"),
    ("mv /p /c", 77, "ok", "- /p,p /c"),
    ("mv /l /f", 78, "same", ""),
    ("mv /f /d", 79, "ok", "- /f,f /d/f"),
    ("mv /l /d", 80, "same", ""),
    ("mv /o /x", 81, "same", ""),
];

const PLACES: &[Taken] = &[
    // what a package manager does
    ("PlaceFile /l/a", 1, "link", ""),
    ("PlaceFile /f/a", 66, "failed", ""),
    ("PlaceFile /d", 67, "failed", ""),
    ("PlaceFile /n", 68, "ok", "f /n"),
    ("PlaceFile /l", 68, "ok", "f /l"),
    ("PlaceFile /b", 68, "ok", "f /b"),
    ("PlaceLink /f/a", 66, "failed", ""),
    ("PlaceLink /d", 67, "link", ""),
    ("PlaceLink /f", 68, "ok", "l /f"),
    ("PlaceConf /f/a", 66, "failed", ""),
    ("PlaceConf /d", 67, "failed", ""),
    ("PlaceConf /n", 68, "ok", "f /n"),
    ("PlaceConf /l", 69, "conffile", ""),
    ("PlaceConf /p", 69, "conffile", ""),
    ("Discard /f/a", 66, "ok", ""),
    ("Discard /d", 67, "ok", ""),
    ("Discard /f", 68, "ok", "- /f"),
    ("Discard /c", 68, "ok", "- /c"),
    ("DiscardDir /f", 66, "ok", ""),
    ("DiscardDir /d", 67, "ok", ""),
    ("DiscardDir /e", 68, "ok", "- /e"),
    // the setting of a mode
    ("Attr /l", 65, "link", ""),
    ("Attr /n", 66, "failed", ""),
    ("Attr /f/a", 66, "failed", ""),
    ("Attr /f", 67, "ok", ""),
    ("Attr /d", 67, "ok", ""),
    ("Attr /p", 67, "ok", ""),
    ("Attr /c", 67, "ok", ""),
    ("Attr /d/f", 67, "ok", ""),
    ("Attr /", 67, "ok", ""),
    ("Attr /l/a", 1, "link", ""),
    ("Attr /d/l/a", 2, "link", ""),
    ("Attr /f/", 64, "slash", ""),
    ("Attr /l/", 64, "slash", ""),
    ("Attr /n/", 66, "failed", ""),
    ("Attr /d/", 67, "ok", ""),
    // `test -x` where it is taken that a regular file may be run
    ("CanRunFile /l", 65, "link", ""),
    ("CanRunFile /n", 66, "failed", ""),
    ("CanRunFile /f/a", 66, "failed", ""),
    ("CanRunFile /d", 67, "ok", ""),
    ("CanRunFile /f", 67, "ok", ""),
    ("CanRunFile /d/f", 67, "ok", ""),
    ("CanRunFile /", 67, "ok", ""),
    ("CanRunFile /p", 68, "run", ""),
    ("CanRunFile /o", 68, "run", ""),
    ("CanRunFile /b", 68, "run", ""),
    ("CanRunFile /c", 68, "run", ""),
    ("CanRunFile /l/a", 1, "link", ""),
    ("CanRunFile /d/l/a", 2, "link", ""),
    ("CanRunFile /f/", 64, "slash", ""),
    ("CanRunFile /d/", 67, "ok", ""),
];

#[test]
fn calls_take_each_row(rt: HostRuntime) {
    for row in CALLS {
        assert!(rt;
            matches!(
                call_takes(rt.alloc(), row.0, &Trial::Whole(SAMPLE, row)),
                Ok(true)
            ),
            "{}",
            row.0
        );
    }
}

#[test]
fn places_take_each_row(rt: HostRuntime) {
    for row in PLACES {
        let trial = Trial::Whole(SAMPLE, row);
        assert!(rt;
            matches!(placed_takes(rt.alloc(), row.0, &trial), Ok(true)),
            "{}",
            row.0
        );
        assert!(rt;
            matches!(copy_takes(rt.alloc(), row.0, &trial), Ok(true)),
            "{}",
            row.0
        );
    }
}
