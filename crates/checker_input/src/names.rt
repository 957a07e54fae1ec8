ghost use Rattle.std.specs.Prelude.{◌≡◌, IfOk};
ghost use Rattle.checker_input.specs.Input.{file_in, own_name};

use dpkg_scenarios::{ScriptKind, script_name};
use script_names::{Memory, Text};
use std::alloc::Global;

/// A file of a package's folder.
#[derive(Clone, Copy, Debug, PartialEq, Eq)]
pub enum PackageFile {
    Control,
    List,
    Conffiles,
    Script(ScriptKind),
}

// The name of a file in a package's folder.
fn own_name(file: PackageFile) -> &'static str
    ensures { result.now ≡ own_name file }
{
    match file {
        PackageFile::Control => "control",
        PackageFile::List => "list",
        PackageFile::Conffiles => "conffiles",
        PackageFile::Script(kind) => script_name(kind),
    }
}

/// The name of a file of a package: the package's folder, `/` and the file's own name.
pub fn file_in(alloc: Global, folder: &str, file: PackageFile) -> Result<Text, Memory>
    ensures { IfOk result (λ name. name ≡ file_in folder.now file) }
{
    let mut name = String::from_str(alloc, folder)?;
    name.push_str("/")?;
    name.push_str(own_name(file))?;
    Ok(Text::from_string(name))
}
