//! The acts of steps by hand. In a row E ensures a directory, F, C and L place a file, a configuration file and a link,
//! D takes something away and X an empty directory. The package lists `PACKAGE`, of which `/etc/foo/a.conf` is a
//! configuration file, and the base is the usual one.

use dpkg_scenarios::{Scenario, ScriptKind, Side, StepWork};
use package_jobs::file_acts;
use package_lists::{Entry, LineFault, read_conffiles, read_list};
use script_names::{Bytes, List, Memory, Path};
use std::alloc::Global;
use std::test::Fail;
use system_base::{Base, base_paths, read_base};
use utility_calls::acts::Act;

const PACKAGE: &[u8] = b"/.\n/etc\n/etc/foo\n/etc/foo/a.conf\n/etc/foo/b\n/l -> x\n/srv/e/\n";

const CONFFILES: &[u8] = b"/etc/foo/a.conf\n";

// A scenario and a step's work, the list and the configuration files of the old package, and the acts.
const ACTS: &[(Scenario, StepWork, &[u8], &[u8], &[u8])] = &[
    (
        Scenario::Install,
        StepWork::Unpack,
        b"",
        b"",
        b"E/etc E/etc/foo C/etc/foo/a.conf F/etc/foo/b L/l E/srv/e ",
    ),
    (
        Scenario::InstallAgain,
        StepWork::Unpack,
        b"",
        b"",
        b"E/etc E/etc/foo F/etc/foo/b L/l E/srv/e ",
    ),
    (
        Scenario::Upgrade,
        StepWork::Unpack,
        b"/etc/foo/a.conf",
        b"/etc/foo/a.conf",
        b"E/etc E/etc/foo F/etc/foo/b L/l E/srv/e ",
    ),
    (
        Scenario::Upgrade,
        StepWork::Unpack,
        b"/etc/foo/a.conf",
        b"",
        b"E/etc E/etc/foo C/etc/foo/a.conf F/etc/foo/b L/l E/srv/e ",
    ),
    (
        Scenario::Upgrade,
        StepWork::RemoveOld,
        b"/.\n/etc\n/etc/foo\n/etc/foo/old\n/opt\n/opt/x\n/etc/foo/o.conf\n",
        b"/etc/foo/o.conf",
        b"D/opt/x X/opt D/etc/foo/old ",
    ),
    (
        Scenario::Remove,
        StepWork::RemoveFiles,
        b"",
        b"",
        b"X/srv/e D/l D/etc/foo/b X/etc/foo ",
    ),
    (
        Scenario::Purge,
        StepWork::RemoveConf,
        b"",
        b"",
        b"D/etc/foo/a.conf X/srv/e X/etc/foo ",
    ),
    (Scenario::Install, StepWork::Restore, b"", b"", b""),
    (
        Scenario::Purge,
        StepWork::Script {
            side: Side::New,
            script: ScriptKind::Prerm,
        },
        b"",
        b"",
        b"",
    ),
];

// A package's entries.
fn entries(alloc: Global, list: &[u8], conffiles: &[u8]) -> Result<List<Entry>, LineFault> {
    let mut entries = read_list(alloc, list)?;
    read_conffiles(alloc, conffiles, &mut entries)?;
    Ok(entries)
}

// A letter for what an act does.
fn letter(act: &Act) -> &'static [u8] {
    match act {
        Act::EnsureDir(_) => b"E",
        Act::PlaceFile(_) => b"F",
        Act::PlaceConf(_) => b"C",
        Act::PlaceLink { .. } => b"L",
        Act::Discard(_) => b"D",
        Act::DiscardDir(_) => b"X",
        _ => b"?",
    }
}

// The path of an act that places something or takes it away.
fn path_of(act: &Act) -> Option<&Path> {
    match act {
        Act::EnsureDir(p) => Some(p),
        Act::PlaceFile(p) => Some(p),
        Act::PlaceConf(p) => Some(p),
        Act::PlaceLink { p, .. } => Some(p),
        Act::Discard(p) => Some(p),
        Act::DiscardDir(p) => Some(p),
        _ => None,
    }
}

// An act as a text.
fn put_act(text: &mut Bytes, act: &Act) -> Result<(), Memory> {
    text.extend(letter(act))?;
    if let Some(path) = path_of(act) {
        for name in path.names() {
            text.extend(b"/")?;
            text.extend(name.as_slice())?;
        }
    }
    text.extend(b" ")
}

// The acts of a step.
fn acts_of(
    alloc: Global,
    scenario: Scenario,
    work: StepWork,
    old: &List<Entry>,
    base: &Base,
) -> Result<List<Act>, LineFault> {
    let new = entries(alloc, PACKAGE, CONFFILES)?;
    let kept = base_paths(alloc, base)?;
    Ok(file_acts(alloc, scenario, work, &new, old, base, &kept)?)
}

fn put_acts(text: &mut Bytes, acts: &[Act]) -> Result<(), Memory> {
    for act in acts {
        put_act(text, act)?;
    }
    Ok(())
}

// The acts of a step as a text.
fn acts_text(
    alloc: Global,
    scenario: Scenario,
    work: StepWork,
    old: &List<Entry>,
    base: &Base,
) -> Result<Bytes, LineFault> {
    let acts = acts_of(alloc, scenario, work, old, base)?;
    let mut text = Bytes::new(alloc);
    put_acts(&mut text, acts.as_slice())?;
    Ok(text)
}

// The acts of a step of a row.
fn row_text(
    alloc: Global,
    scenario: Scenario,
    work: StepWork,
    list: &[u8],
    conffiles: &[u8],
) -> Result<Bytes, LineFault> {
    let old = entries(alloc, list, conffiles)?;
    let base = Base::usual(alloc)?;
    acts_text(alloc, scenario, work, &old, &base)
}

// The acts of a removal under a base that states one directory.
fn based_text(alloc: Global, base: &[u8]) -> Result<Bytes, LineFault> {
    let old = List::new(alloc);
    let base = read_base(alloc, base)?;
    acts_text(alloc, Scenario::Remove, StepWork::RemoveFiles, &old, &base)
}

fn is(answer: Result<Bytes, LineFault>, text: &[u8]) -> bool {
    match answer {
        Ok(found) => found.as_slice() == text,
        Err(_) => false,
    }
}

#[test]
fn steps_have_acts(rt: HostRuntime) -> Result<(), Fail> {
    for row in ACTS {
        let answer = row_text(rt.alloc(), row.0, row.1, row.2, row.3);
        assert!(rt; is(answer, row.4), "{:?}", row.4);
    }
    Ok(())
}

#[test]
fn folders_on_the_way_are_base_directories(rt: HostRuntime) -> Result<(), Fail> {
    let answer = based_text(rt.alloc(), b"dir /srv/e/f\n");
    assert!(rt; is(answer, b"D/l D/etc/foo/b X/etc/foo X/etc "));
    Ok(())
}
