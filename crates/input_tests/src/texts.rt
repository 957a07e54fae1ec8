//! What was read, as a text: a line for each package and one for the base, then the lines of the tree. The line of a
//! package has its version, a letter for each script and its entries. A script is `-` where there is none, `s` where it
//! begins strict, and else `x`. In front of the path of an entry stands d for a directory, f for a file, c for a
//! configuration file and l for a link; in front of a path that the base knows d for a directory, f for a file, a for
//! nothing and n for no directory. Behind its paths stand the links with their targets, the words that it says, with the
//! paths of `own`, and the stated calls.

use checker_input::{Asked, Package, Packages, Task};
use dpkg_scenarios::{Scripts, scenario_name};
use feature_trees::{Kind, Kinds, put_tree};
use link_walks::KnownLink;
use package_lists::{Entry, EntryKind};
use script_names::{Bytes, Memory, Path, Slot};
use shell_forms::Accepted;
use std::alloc::Global;
use system_base::{Base, KnownPath};
use utility_calls::{CallEnd, StatedCall};

fn put_path(text: &mut Bytes, letter: &[u8], path: &Path) -> Result<(), Memory> {
    text.extend(letter)?;
    for name in path.names() {
        text.push(b'/')?;
        text.extend(name.as_slice())?;
    }
    Ok(())
}

fn entry_letter(kind: &EntryKind) -> &'static [u8] {
    match kind {
        EntryKind::Folder => b" d",
        EntryKind::File => b" f",
        EntryKind::Conf => b" c",
        EntryKind::LinkTo(_) => b" l",
    }
}

fn put_entries(text: &mut Bytes, entries: &[Entry]) -> Result<(), Memory> {
    for entry in entries {
        put_path(text, entry_letter(entry.kind()), entry.path())?;
    }
    Ok(())
}

fn script_letter(script: &Slot<Accepted>) -> u8 {
    match script.get() {
        None => b'-',
        Some(script) => { if script.script().strict { b's' } else { b'x' } }
    }
}

fn put_scripts(text: &mut Bytes, scripts: &Scripts<Accepted>) -> Result<(), Memory> {
    text.extend(&[
        script_letter(&scripts.preinst),
        script_letter(&scripts.postinst),
        script_letter(&scripts.prerm),
        script_letter(&scripts.postrm),
    ])
}

fn put_package(text: &mut Bytes, whose: &[u8], package: &Package) -> Result<(), Memory> {
    text.extend(whose)?;
    text.extend(package.version.as_slice())?;
    text.extend(b" ")?;
    put_scripts(text, &package.scripts)?;
    put_entries(text, package.entries.as_slice())?;
    text.extend(b"\n")
}

fn kinds_letter(kinds: Kinds) -> &'static [u8] {
    if kinds == Kinds::of(Kind::Dir) {
        return b" d";
    }
    if kinds == Kinds::of(Kind::Reg) {
        return b" f";
    }
    if kinds == Kinds::of(Kind::Absent) {
        return b" a";
    }
    if kinds == Kinds::but(Kind::Dir) {
        return b" n";
    }
    b" ?"
}

fn put_known(text: &mut Bytes, known: &[KnownPath]) -> Result<(), Memory> {
    for one in known {
        put_path(text, kinds_letter(one.kinds), &one.path)?;
    }
    Ok(())
}

fn put_said(text: &mut Bytes, said: bool, word: &[u8]) -> Result<(), Memory> {
    if !said {
        return Ok(());
    }
    text.extend(word)
}

fn put_links(text: &mut Bytes, links: &[KnownLink]) -> Result<(), Memory> {
    for link in links {
        put_path(text, b" l", link.at())?;
        text.push(b'>')?;
        text.extend(link.target())?;
    }
    Ok(())
}

fn put_own(text: &mut Bytes, own: &[Path]) -> Result<(), Memory> {
    for path in own {
        put_path(text, b" own", path)?;
    }
    Ok(())
}

fn put_call(text: &mut Bytes, call: &StatedCall) -> Result<(), Memory> {
    match &call.end {
        CallEnd::Succeeds => text.extend(b" ok/")?,
        CallEnd::Fails => text.extend(b" fails/")?,
        CallEnd::Asks(path) => {
            put_path(text, b" asks", path)?;
            text.push(b'/')?;
        }
    }
    text.extend(call.name.as_slice())
}

fn put_calls(text: &mut Bytes, calls: &[StatedCall]) -> Result<(), Memory> {
    for call in calls {
        put_call(text, call)?;
    }
    Ok(())
}

fn put_base(text: &mut Bytes, base: &Base) -> Result<(), Memory> {
    text.extend(b"base")?;
    put_known(text, base.known.as_slice())?;
    put_links(text, base.links.as_slice())?;
    put_said(text, base.fits, b" fits")?;
    put_own(text, base.own.as_slice())?;
    put_said(text, base.runs, b" runs")?;
    put_said(text, base.removed, b" removed")?;
    put_said(text, base.versions, b" versions")?;
    put_said(text, base.plain, b" plain")?;
    put_calls(text, base.calls.as_slice())?;
    text.extend(b"\n")
}

fn put_packages(text: &mut Bytes, packages: &Packages) -> Result<(), Memory> {
    put_package(text, b"new ", &packages.new_package)?;
    match &packages.old_package {
        Some(package) => put_package(text, b"old ", package)?,
        None => {}
    }
    put_base(text, &packages.base)
}

fn put_task(alloc: Global, text: &mut Bytes, task: &Task) -> Result<(), Memory> {
    match task {
        Task::Check { packages, .. } => put_packages(text, packages),
        Task::Run { packages, tree, .. } => {
            put_packages(text, packages)?;
            put_tree(alloc, text, tree)
        }
        Task::Translate { script } => {
            if script.script().strict {
                text.extend(b"strict\n")
            } else {
                text.extend(b"lax\n")
            }
        }
        Task::Load { .. } => text.extend(b"load\n"),
        Task::Explain { packages, .. } => put_packages(text, packages),
        Task::Pair {
            packages,
            scenario,
            ..
        } => {
            text.extend(scenario_name(*scenario).as_bytes())?;
            text.extend(b" ")?;
            text.extend(packages.name.as_slice())?;
            text.extend(b"\n")?;
            put_packages(text, packages)
        }
    }
}

fn task_text(alloc: Global, task: &Task) -> Result<Bytes, Memory> {
    let mut text = Bytes::new(alloc);
    put_task(alloc, &mut text, task)?;
    Ok(text)
}

// What was read for what is asked, or the names of the files of a prediction.
fn asked_text(alloc: Global, asked: &Asked) -> Result<Bytes, Memory> {
    match asked {
        Asked::Task(task) => task_text(alloc, task),
        Asked::Prediction { report, trees } => {
            let mut text = Bytes::from_slice(alloc, b"prediction ")?;
            text.extend(report.as_str().as_bytes())?;
            text.extend(b" ")?;
            text.extend(trees.as_str().as_bytes())?;
            Ok(text)
        }
    }
}

/// What was read, which is let go here, in one place.
pub(crate) fn told(alloc: Global, asked: Asked) -> Result<Bytes, Memory> {
    asked_text(alloc, &asked)
}
