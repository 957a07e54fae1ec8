//! What each file comes to, by its content: a value, or what is wrong with it.

ghost use Rattle.std.specs.Prelude.{IfOk};
ghost use Rattle.feature_trees.specs.Sound.{IsTree};
ghost use Rattle.checker_input.specs.Input.{ControlComes, ListComes, ConffilesCome, BaseComes};
ghost use Rattle.checker_input.specs.Input.{NamedControlComes, KeptComes};
ghost use Rattle.checker_input.specs.Input.{StartComes, TranslatedComes};
ghost use Rattle.checker_input.specs.Lines.{AreFew};

use crate::control::Control;
use crate::faults::FileFault;
use crate::script::read_script;
use crate::sources::KeptScript;
use feature_trees::{TreeFault, Value, read_tree};
use package_lists::{
    Entry, FileList, LineFault, read_conffiles, read_control, read_list, read_name,
};
use script_names::{Bytes, List, Memory, Slot};
use shell_forms::Accepted;
use std::alloc::Global;
use system_base::{Base, read_base};

/// The version of a control file; `0` where there is none.
pub fn control_version(
    alloc: Global,
    control: &Option<Bytes>,
) -> Result<Result<Bytes, FileFault>, Memory>
    ensures { IfOk result (ControlComes control.now) }
{
    match control {
        None => {
            let version = Bytes::from_slice(alloc, b"0")?;
            Ok(Ok(version))
        }
        Some(text) => match read_control(alloc, text.as_slice()) {
            Ok(version) => Ok(Ok(version)),
            Err(LineFault::Line { line, why: _ }) => { Ok(Err(FileFault::Version { line })) }
            Err(LineFault::Memory) => Err(Memory),
        },
    }
}

/// The version and the name of a control file; `0` and `unnamed` where there is none.
pub fn named_control(
    alloc: Global,
    control: &Option<Bytes>,
) -> Result<Result<Control, FileFault>, Memory>
    ensures { IfOk result (NamedControlComes control.now) }
{
    match control {
        None => {
            let version = Bytes::from_slice(alloc, b"0")?;
            let name = Bytes::from_slice(alloc, b"unnamed")?;
            Ok(Ok(Control { version, name }))
        }
        Some(text) => {
            let version = match read_control(alloc, text.as_slice()) {
                Ok(version) => version,
                Err(LineFault::Line { line, why: _ }) => return Ok(Err(FileFault::Version {
                    line,
                })),
                Err(LineFault::Memory) => return Err(Memory),
            };
            match read_name(alloc, text.as_slice()) {
                Ok(name) => Ok(Ok(Control { version, name })),
                Err(LineFault::Line { line, why: _ }) => Ok(Err(FileFault::Version { line })),
                Err(LineFault::Memory) => Err(Memory),
            }
        }
    }
}

/// The entries of a list of files, which has to be there; no more than it has bytes.
pub fn list_entries(
    alloc: Global,
    list: &Option<Bytes>,
) -> Result<Result<List<Entry>, FileFault>, Memory>
    ensures comes { IfOk result (ListComes list.now) }
    ensures few { IfOk result (λ came. IfOk came (AreFew list.now)) }
{
    match list {
        None => Ok(Err(FileFault::Missing)),
        Some(text) => match read_list(alloc, text.as_slice()) {
            Ok(entries) => Ok(Ok(entries)),
            Err(LineFault::Line { line, why }) => { Ok(Err(FileFault::Line { line, why })) }
            Err(LineFault::Memory) => Err(Memory),
        },
    }
}

/// The entries with the configuration files of a list of these; as they are, where there is none.
pub fn marked_entries(
    alloc: Global,
    conffiles: &Option<Bytes>,
    entries: FileList,
) -> Result<Result<FileList, FileFault>, Memory>
    ensures { IfOk result (ConffilesCome entries conffiles.now) }
{
    match conffiles {
        None => Ok(Ok(entries)),
        Some(text) => {
            let mut marked = entries.into_list();
            match read_conffiles(alloc, text.as_slice(), &mut marked) {
                Ok(()) => Ok(Ok(FileList::new(marked))),
                Err(LineFault::Line { line, why }) => { Ok(Err(FileFault::Line { line, why })) }
                Err(LineFault::Memory) => Err(Memory),
            }
        }
    }
}

/// The script of a package, with its text; none, where there is no such file.
pub fn kept_script(
    alloc: Global,
    script: Option<Bytes>,
) -> Result<Result<KeptScript, FileFault>, Memory>
    ensures { IfOk result (KeptComes script) }
{
    match script {
        None => Ok(Ok(KeptScript {
            script: Slot::empty(alloc),
            text: Slot::empty(alloc),
        })),
        Some(text) => {
            let came = read_script(alloc, text.as_slice())?;
            match came {
                Ok(script) => {
                    let script = Slot::new(alloc, script)?;
                    let text = Slot::new(alloc, text)?;
                    Ok(Ok(KeptScript { script, text }))
                }
                Err(fault) => Ok(Err(FileFault::Script(fault))),
            }
        }
    }
}

/// A base, which has to be there.
pub fn named_base(alloc: Global, base: &Option<Bytes>) -> Result<Result<Base, FileFault>, Memory>
    ensures { IfOk result (BaseComes base.now) }
{
    match base {
        None => Ok(Err(FileFault::Missing)),
        Some(text) => match read_base(alloc, text.as_slice()) {
            Ok(base) => Ok(Ok(base)),
            Err(LineFault::Line { line, why }) => { Ok(Err(FileFault::Line { line, why })) }
            Err(LineFault::Memory) => Err(Memory),
        },
    }
}

/// The tree of a run, which has to be there.
pub fn start_tree(alloc: Global, tree: &Option<Bytes>) -> Result<Result<Value, FileFault>, Memory>
    ensures comes { IfOk result (StartComes tree.now) }
    ensures tree { IfOk result (λ came. IfOk came IsTree) }
{
    match tree {
        None => Ok(Err(FileFault::Missing)),
        Some(text) => match read_tree(alloc, text.as_slice()) {
            Ok(tree) => Ok(Ok(tree)),
            Err(TreeFault::Line { line, why }) => { Ok(Err(FileFault::Line { line, why })) }
            Err(TreeFault::Memory) => Err(Memory),
        },
    }
}

/// The script that is translated, which has to be there.
pub fn translated_script(
    alloc: Global,
    script: &Option<Bytes>,
) -> Result<Result<Accepted, FileFault>, Memory>
    ensures { IfOk result (TranslatedComes script.now) }
{
    match script {
        None => Ok(Err(FileFault::Missing)),
        Some(text) => {
            let came = read_script(alloc, text.as_slice())?;
            match came {
                Ok(script) => Ok(Ok(script)),
                Err(fault) => Ok(Err(FileFault::Script(fault))),
            }
        }
    }
}
