//! What is kept of the files of packages: beside what is read of them, the texts of the scripts, for explanations.

use crate::package::{Package, Packages};
use command_words::Folders;
use dpkg_scenarios::Scripts;
use script_names::{Bytes, Slot};
use shell_forms::Accepted;

/// A script of a package, if it has it, and its text.
#[derive(Drop)]
pub struct KeptScript {
    pub script: Slot<Accepted>,
    pub text: Slot<Bytes>,
}

/// The scripts of a package, and their texts.
#[derive(Drop)]
pub struct KeptScripts {
    pub scripts: Scripts<Accepted>,
    pub texts: Scripts<Bytes>,
}

/// A package, and the texts of its scripts.
#[derive(Drop)]
pub struct KeptPackage {
    pub own: Package,
    pub texts: Scripts<Bytes>,
}

/// The old package, where one is named, and the texts of its scripts.
#[derive(Drop)]
pub struct KeptOld {
    pub own: Option<Package>,
    pub texts: Option<Scripts<Bytes>>,
}

/// Where packages come from: the names that a command line gave, and the texts of the scripts; of the old package,
/// where one is named.
#[derive(Drop)]
pub struct Sources {
    pub folders: Folders,
    pub new_texts: Scripts<Bytes>,
    pub old_texts: Option<Scripts<Bytes>>,
}

/// What was read of a command line's folders, and where it comes from.
#[derive(Drop)]
pub struct Kept {
    pub packages: Packages,
    pub sources: Sources,
}
