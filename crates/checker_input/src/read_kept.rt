//! Packages with the texts of their scripts.

ghost use Rattle.checker_input.specs.Input.{ReadsInput, kept_script_in, kept_scripts_in, kept_package_in, kept_old_in};
ghost use Rattle.checker_input.specs.Input.{kept_in, kept_with, packages_in};

use crate::faults::InputRefusal;
use crate::input::read_base;
use crate::names::PackageFile;
use crate::package::{Package, Packages};
use crate::read_file::{Found, of_file, read_own};
use crate::read_package::{mark_conffiles, read_entries, read_version};
use crate::sources::{Kept, KeptOld, KeptPackage, KeptScript, KeptScripts, Sources};
use crate::understand::kept_script;
use checker_io::{Shelf, Stop};
use command_words::Folders;
use dpkg_scenarios::{ScriptKind, Scripts};
use script_names::{Bytes, Copied, Text};
use std::alloc::Global;

// A script of a package, if it has it, with its text.
fn read_kept_script<S: Shelf>(
    alloc: Global,
    folder: &Text,
    kind: ScriptKind,
    shelf: &mut S,
) -> Result<KeptScript, Stop<Text, InputRefusal>>
    ensures { ReadsInput (S.state shelf.old) (S.state shelf.new) (kept_script_in folder.now kind) result }
{
    let found = match read_own(alloc, folder, PackageFile::Script(kind), shelf) {
        Ok(found) => found,
        Err(stop) => return Err(stop),
    };
    let Found { name, content } = found;
    let came = kept_script(alloc, content);
    of_file(name, came)
}

// The scripts of a package, with their texts.
fn read_kept_scripts<S: Shelf>(
    alloc: Global,
    folder: &Text,
    shelf: &mut S,
) -> Result<KeptScripts, Stop<Text, InputRefusal>>
    ensures { ReadsInput (S.state shelf.old) (S.state shelf.new) (kept_scripts_in folder.now) result }
{
    let preinst = match read_kept_script(alloc, folder, ScriptKind::Preinst, shelf) {
        Ok(preinst) => preinst,
        Err(stop) => return Err(stop),
    };
    let postinst = match read_kept_script(alloc, folder, ScriptKind::Postinst, shelf) {
        Ok(postinst) => postinst,
        Err(stop) => return Err(stop),
    };
    let prerm = match read_kept_script(alloc, folder, ScriptKind::Prerm, shelf) {
        Ok(prerm) => prerm,
        Err(stop) => return Err(stop),
    };
    let postrm = match read_kept_script(alloc, folder, ScriptKind::Postrm, shelf) {
        Ok(postrm) => postrm,
        Err(stop) => return Err(stop),
    };
    Ok(KeptScripts {
        scripts: Scripts {
            preinst: preinst.script,
            postinst: postinst.script,
            prerm: prerm.script,
            postrm: postrm.script,
        },
        texts: Scripts {
            preinst: preinst.text,
            postinst: postinst.text,
            prerm: prerm.text,
            postrm: postrm.text,
        },
    })
}

/// The package in a folder, with the texts of its scripts.
pub(crate) fn read_kept_package<S: Shelf>(
    alloc: Global,
    folder: &Text,
    shelf: &mut S,
) -> Result<KeptPackage, Stop<Text, InputRefusal>>
    ensures { ReadsInput (S.state shelf.old) (S.state shelf.new) (kept_package_in folder.now) result }
{
    let version = match read_version(alloc, folder, shelf) {
        Ok(version) => version,
        Err(stop) => return Err(stop),
    };
    match read_kept_with(alloc, folder, version, shelf) {
        Ok(own) => Ok(own),
        Err(stop) => Err(stop),
    }
}

/// The package in a folder that has this version, with the texts of its scripts.
pub(crate) fn read_kept_with<S: Shelf>(
    alloc: Global,
    folder: &Text,
    version: Bytes,
    shelf: &mut S,
) -> Result<KeptPackage, Stop<Text, InputRefusal>>
    ensures { ReadsInput (S.state shelf.old) (S.state shelf.new) (kept_with folder.now version) result }
{
    let listed = match read_entries(alloc, folder, shelf) {
        Ok(listed) => listed,
        Err(stop) => return Err(stop),
    };
    let entries = match mark_conffiles(alloc, folder, listed, shelf) {
        Ok(entries) => entries,
        Err(stop) => return Err(stop),
    };
    let kept = match read_kept_scripts(alloc, folder, shelf) {
        Ok(kept) => kept,
        Err(stop) => return Err(stop),
    };
    Ok(KeptPackage {
        own: Package {
            version,
            entries,
            scripts: kept.scripts,
        },
        texts: kept.texts,
    })
}

// The old package, where one is named, with the texts of its scripts.
fn read_kept_old<S: Shelf>(
    alloc: Global,
    named: &Option<Text>,
    shelf: &mut S,
) -> Result<KeptOld, Stop<Text, InputRefusal>>
    ensures { ReadsInput (S.state shelf.old) (S.state shelf.new) (kept_old_in named.now) result }
{
    match named {
        None => Ok(KeptOld {
            own: None,
            texts: None,
        }),
        Some(folder) => match read_kept_package(alloc, folder, shelf) {
            Ok(own) => Ok(KeptOld {
                own: Some(own.own),
                texts: Some(own.texts),
            }),
            Err(stop) => Err(stop),
        },
    }
}

/// The packages of folders, and the base, and where they come from.
pub fn read_kept<S: Shelf>(
    alloc: Global,
    folders: &Folders,
    shelf: &mut S,
) -> Result<Kept, Stop<Text, InputRefusal>>
    ensures { ReadsInput (S.state shelf.old) (S.state shelf.new) (kept_in folders.now) result }
{
    let Ok(names) = folders.copy(alloc) else {
        return Err(Stop::NoMemory);
    };
    let base = match read_base(alloc, &folders.base, shelf) {
        Ok(base) => base,
        Err(stop) => return Err(stop),
    };
    let before = match read_kept_old(alloc, &folders.old, shelf) {
        Ok(before) => before,
        Err(stop) => return Err(stop),
    };
    let own = match read_kept_package(alloc, &folders.dir, shelf) {
        Ok(own) => own,
        Err(stop) => return Err(stop),
    };
    Ok(Kept {
        packages: Packages {
            new_package: own.own,
            old_package: before.own,
            base,
            name: Bytes::new(alloc),
        },
        sources: Sources {
            folders: names,
            new_texts: own.texts,
            old_texts: before.texts,
        },
    })
}

/// The packages of folders, and the base.
pub fn read_packages<S: Shelf>(
    alloc: Global,
    folders: &Folders,
    shelf: &mut S,
) -> Result<Packages, Stop<Text, InputRefusal>>
    ensures { ReadsInput (S.state shelf.old) (S.state shelf.new) (packages_in folders.now) result }
{
    match read_kept(alloc, folders, shelf) {
        Ok(kept) => Ok(kept.packages),
        Err(stop) => Err(stop),
    }
}
