use crate::plans::{plan_of, put_act, put_path, put_plan};
use crate::trials::placed;
use link_walks::{KnownLink, Reached, follow, follow_act, reach};
use script_names::{Boxed, Bytes, List, Memory, Path, PathFault};
use std::alloc::Global;
use utility_calls::acts::Act;
use utility_calls::calls::Planned;

// Known links as a text has them: a path, a space and a target, and further ones behind a comma.
fn links(alloc: Global, text: &str) -> Result<List<KnownLink>, PathFault> {
    let mut all = List::new(alloc);
    for part in text.split(',') {
        if let Some((at, target)) = part.split_once(' ') {
            let at = Path::read(alloc, at.as_bytes())?;
            if let Some(link) = KnownLink::new(alloc, at, target.as_bytes())? {
                all.add(link)?;
            }
        }
    }
    Ok(all)
}

// Known links, what is done, and what it comes to along them.
type Row = (&'static str, &'static str, &'static str);

// What the plan of a call is along known links.
fn followed_plan(alloc: Global, links: &[KnownLink], call: &str) -> Result<Boxed<Planned>, Memory> {
    let planned = plan_of(alloc, call)?;
    let there = follow(alloc, links, planned.into_inner())?;
    Boxed::new(alloc, there)
}

// Whether the plan of a call comes to what the row says.
fn call_comes(alloc: Global, row: &Row) -> Result<bool, PathFault> {
    let links = links(alloc, row.0)?;
    let there = followed_plan(alloc, links.as_slice(), row.1)?;
    let mut text = Bytes::new(alloc);
    put_plan(&mut text, there.get())?;
    Ok(text.as_slice() == row.2.as_bytes())
}

// What the act of a package manager is along known links.
fn followed_act(alloc: Global, links: &[KnownLink], text: &str) -> Result<Boxed<Act>, PathFault> {
    let act = placed(alloc, text)?;
    let there = follow_act(alloc, links, act.into_inner())?;
    Ok(Boxed::new(alloc, there)?)
}

// Whether the act of a package manager comes to what the row says.
fn place_comes(alloc: Global, row: &Row) -> Result<bool, PathFault> {
    let links = links(alloc, row.0)?;
    let there = followed_act(alloc, links.as_slice(), row.1)?;
    let mut text = Bytes::new(alloc);
    put_act(&mut text, there.get())?;
    Ok(text.as_slice() == row.2.as_bytes())
}

// Where a path leads; a blocked one behind `!`.
fn put_reached(text: &mut Bytes, reached: &Reached) -> Result<(), Memory> {
    match reached {
        Reached::At(end) => put_path(text, end),
        Reached::Blocked(at) => {
            text.push(b'!')?;
            put_path(text, at)
        }
    }
}

// Where a path leads along known links, its last name taken too, as a text.
fn reached_text(alloc: Global, links: &[KnownLink], at: &str) -> Result<Bytes, PathFault> {
    let path = Path::read(alloc, at.as_bytes())?;
    let reached = reach(alloc, links, &path, true)?;
    let mut text = Bytes::new(alloc);
    put_reached(&mut text, &reached)?;
    Ok(text)
}

// Whether a path leads where the row says.
fn path_leads(alloc: Global, row: &Row) -> Result<bool, PathFault> {
    let links = links(alloc, row.0)?;
    let text = reached_text(alloc, links.as_slice(), row.1)?;
    Ok(text.as_slice() == row.2.as_bytes())
}

// The place of the known link at a path with a target, as a text; `none` where there is no such link.
fn place_text(alloc: Global, at: &str, target: &str) -> Result<Bytes, PathFault> {
    let at = Path::read(alloc, at.as_bytes())?;
    let mut text = Bytes::new(alloc);
    match KnownLink::new(alloc, at, target.as_bytes())? {
        Some(link) => put_path(&mut text, link.place())?,
        None => text.extend(b"none")?,
    }
    Ok(text)
}

// Whether the known link at a path with a target leads where the row says.
fn link_leads(alloc: Global, row: &Row) -> bool {
    match place_text(alloc, row.0, row.1) {
        Ok(text) => text.as_slice() == row.2.as_bytes(),
        Err(_) => false,
    }
}

// The links of a system with a merged /usr.
const USR: &str = "/bin usr/bin,/sbin usr/sbin,/lib usr/lib";

// A path, a target, and the link's place.
const LINKS: &[Row] = &[
    ("/bin", "usr/bin", "/usr/bin"),
    ("/a/b", "c", "/a/c"),
    ("/a/b", "/c", "/c"),
    ("/a/b/", "c/d", "/a/c/d"),
    ("/a/b", "b", "/a/b"),
    ("/", "a", "none"),
    ("/a", "", "none"),
    ("/a", "/", "none"),
    ("/a", "b/", "none"),
    ("/a", "//b", "none"),
    ("/a", "b//c", "none"),
    ("/a", "./b", "none"),
    ("/a/b", "../c", "none"),
    ("/a", "b\0", "none"),
];

const PATHS: &[Row] = &[
    ("", "/bin", "/bin"),
    (USR, "/", "/"),
    (USR, "/bin", "/usr/bin"),
    (USR, "/bin/", "/usr/bin/"),
    (USR, "/bins/a", "/bins/a"),
    (USR, "/usr/bin/a", "/usr/bin/a"),
    ("/a/b c", "/a/b/d", "/a/c/d"),
    ("/a/b /c", "/a/b/d", "/c/d"),
    ("/a b,/a c", "/a", "/b"),
    ("/a/b d,/a c", "/a/b", "/c/b"),
    ("/a b,/b c,/c d", "/a/x", "/d/x"),
    ("/bin usr/bin,/usr u", "/bin/x", "/u/bin/x"),
    ("/a b,/b c,/c d,/d e,/e f,/f g,/g h,/h i", "/a", "/i"),
    ("/a b,/b c,/c d,/d e,/e f,/f g,/g h,/h i,/i j", "/a", "!/i"),
    ("/a b,/b c,/c d,/d e,/e f,/f g,/g h,/h i,/i j", "/b", "/j"),
    ("/a b,/b a", "/a/x", "!/a"),
    ("/a b,/b a", "/b", "!/b"),
    ("/a a/b", "/a", "!/a"),
];

const CALLS: &[Row] = &[
    ("", "mv /bin/a /b", ";,Move /bin/a /b"),
    (USR, "true", "yes"),
    (USR, "echo a", "a|"),
    (USR, "mkdir", "call"),
    (USR, "test -e /bin", "ask Exists /usr/bin"),
    (USR, "test -f /bin/a", "ask IsReg /usr/bin/a"),
    (USR, "[ ! -d /lib ]", "not IsDir /usr/lib"),
    (USR, "test -x /sbin/a", "ask CanRun /usr/sbin/a"),
    (USR, "test -S /bin/", "ask IsSocket /usr/bin/"),
    (USR, "test -h /bin", "ask IsLink /bin"),
    (USR, "test -h /bin/a", "ask IsLink /usr/bin/a"),
    (USR, "mkdir /bin", ";,MakeDir /bin"),
    (USR, "mkdir /bin/a /a", ";,MakeDir /usr/bin/a;,MakeDir /a"),
    (
        USR,
        "mkdir -p /bin/a/",
        ";,EnsureDir /usr/bin,EnsureDir /usr/bin/a/",
    ),
    (USR, "rmdir /bin", ";,RemoveDir /bin"),
    (USR, "rmdir /usr", ";,RemoveDir /usr"),
    (
        USR,
        "rmdir /usr/lib /lib/a",
        ";,Exists /lib;,RemoveDir /usr/lib/a",
    ),
    (USR, "rm /bin", ";,Exists /bin"),
    (USR, "rm -r /bin/", ";,Exists /bin"),
    (USR, "rm -f /bin/a", ";,Remove-f /usr/bin/a"),
    (USR, "rm -f /usr/bin", ";,Remove-f /usr/bin"),
    (USR, "rm -rf /usr/sbin", ";,Exists /sbin"),
    (USR, "rm -rf /usr", ";,Exists /bin"),
    ("/a/b c", "rm -r /a", ";,Exists /a/b"),
    ("/a/b c", "rm /a", ";,Remove /a"),
    ("/a a", "rm -r /b", ";,Remove-r /b"),
    (USR, "touch /bin", ";,Touch /usr/bin"),
    (USR, "touch /bin/a", ";,Touch /usr/bin/a"),
    (USR, "ln -s t /bin", ";,Symlink /usr/bin t t"),
    (
        USR,
        "ln -s /bin/a /usr/bin/a",
        ";,Symlink /usr/bin/a /bin/a a",
    ),
    (USR, "ln -sf /bin /usr/bin", ";,Symlink-f /usr/bin /bin bin"),
    (USR, "ln -sf /usr/bin/a /bin/a", "same"),
    (USR, "ln -sf /bin/a /usr/bin/a", "same"),
    (USR, "ln -sf /bin/a /usr/bin", "same"),
    ("/a/b c", "ln -sf b /a", ";,Exists /a/b"),
    ("/a/b c", "ln -s b /a", ";,Symlink /a b b"),
    (USR, "mv /bin/a /lib/b", ";,Move /usr/bin/a /usr/lib/b"),
    (USR, "mv /a /bin", ";,Move /a /usr/bin"),
    (USR, "mv /bin/a /usr/bin/a", "same"),
    (USR, "mv /usr/bin/a /bin", "same"),
    (USR, "mv /bin /a", ";,Exists /bin"),
    (USR, "mv /usr/lib /a", ";,Exists /lib"),
    (USR, "mv /usr /a", ";,Exists /bin"),
    ("/a/b c", "mv /a /d", ";,Exists /a/b"),
    (USR, "chmod 755 /bin", ";,Attr /usr/bin"),
    (
        USR,
        "chown root /bin/a /lib",
        ";,Attr /usr/bin/a;,Attr /usr/lib",
    ),
    (USR, "chgrp 0 /sbin/", ";,Attr /usr/sbin/"),
    (USR, "cp /bin/a /lib/b", ";,Copy /usr/bin/a /usr/lib/b"),
    (USR, "cp /a /bin", ";,Copy /a /usr/bin"),
    (USR, "cp /bin /a", ";,Copy /bin /a"),
    (USR, "cp -r /bin /a", ";,CopyDeep /bin /a"),
    (USR, "cp -r /usr /a", ";,CopyDeep /usr /a"),
    (USR, "cp -r /usr/lib /bin", ";,CopyDeep /usr/lib /usr/bin"),
    (USR, "cp /bin/a /usr/bin/a", "same"),
    (USR, "cp /usr/bin/a /bin", "same"),
    (USR, "cp -r /usr/lib /lib", "same"),
    (USR, "cp -r /usr/lib /lib/a", "same"),
    (USR, "cp /usr/lib /lib/a", ";,Copy /usr/lib /usr/lib/a"),
    (USR, "cp -r /lib /lib/a", "same"),
    ("/a /c,/b d", "cp /a/x /b/y", ";,Copy /c/x /d/y"),
    ("/a/b c", "cp -r /a/b /d", ";,CopyDeep /a/b /d"),
    ("/a/b c", "cp /d /a/b", ";,Copy /d /a/c"),
    ("/a b,/b a,/c c", "chmod 644 /b", ";,Exists /b"),
    ("/a b,/b a,/c c", "cp /a/x /c/y", ";,Exists /a"),
    ("/a b,/b a,/c c", "cp /d /c", ";,Exists /c"),
    ("/a b,/b a,/c c", "cp -r /c /d", ";,CopyDeep /c /d"),
    ("/a b,/b a,/c c", "mv /a/x /c/y", ";,Exists /a"),
    ("/a b,/b a,/c c", "mv /d /c", ";,Exists /c"),
    ("/a b,/b a,/c c", "touch /b", ";,Exists /b"),
    ("/n m", "test -e @64", "ask Exists many"),
    ("/n a/b", "test -e @63", "ask Exists many"),
    ("/n a/b", "test -e @64", "ask Exists /n"),
];

const PLACES: &[Row] = &[
    (USR, "PlaceFile /bin/a", "PlaceFile /usr/bin/a"),
    (USR, "PlaceFile /bin", "Exists /bin"),
    (USR, "PlaceConf /lib/a", "PlaceConf /usr/lib/a"),
    (USR, "PlaceConf /bin", "Exists /bin"),
    (USR, "PlaceLink /bin", "Exists /bin"),
    ("/bin t", "PlaceLink /bin", "PlaceLink /bin"),
    (USR, "Discard /bin", "Exists /bin"),
    (USR, "Discard /bin/a", "Discard /usr/bin/a"),
    (USR, "Discard /usr/bin", "Discard /usr/bin"),
    (USR, "DiscardDir /bin", "DiscardDir /bin"),
    (USR, "DiscardDir /lib/a", "DiscardDir /usr/lib/a"),
    (USR, "DiscardDir /usr/lib", "Exists /lib"),
];

#[test]
fn links_are_known(rt: HostRuntime) {
    for row in LINKS {
        assert!(rt; link_leads(rt.alloc(), row), "{} {}", row.0, row.1);
    }
}

#[test]
fn paths_lead_along_links(rt: HostRuntime) {
    for row in PATHS {
        assert!(rt;
            matches!(path_leads(rt.alloc(), row), Ok(true)),
            "{} {}",
            row.0,
            row.1
        );
    }
}

#[test]
fn calls_go_along_links(rt: HostRuntime) {
    for row in CALLS {
        assert!(rt;
            matches!(call_comes(rt.alloc(), row), Ok(true)),
            "{} {}",
            row.0,
            row.1
        );
    }
}

#[test]
fn a_package_manager_goes_along_links(rt: HostRuntime) {
    for row in PLACES {
        assert!(rt;
            matches!(place_comes(rt.alloc(), row), Ok(true)),
            "{} {}",
            row.0,
            row.1
        );
    }
}
