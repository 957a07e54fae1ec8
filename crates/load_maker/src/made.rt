ghost use Rattle.std.specs.Prelude.{◌≤◌, IfOk};
ghost use Rattle.command_words.specs.declared.limits.TheConstants.{MOST_LOAD};
ghost use Rattle.load_maker.specs.Loaded.{IsLoaded};

use crate::reading::accepted;
use crate::script_text::load_text;
use checker_input::Package;
use dpkg_scenarios::Scripts;
use package_lists::FileList;
use script_names::{Bytes, Memory, Slot};
use std::alloc::Global;

/// The package of this number, from 1 to `MOST_LOAD`. Its version is `0`, it lists nothing, and its only script is a
/// postinst, which makes one directory after another: `/srv/k001`, `/srv/k002` and so on, that many.
pub fn load(alloc: Global, n: u16) -> Result<Package, Memory>
    requires { 1 ≤ n × n ≤ MOST_LOAD }
    ensures { IfOk result (IsLoaded n) }
{
    let version = Bytes::from_slice(alloc, b"0")?;
    let text = load_text(alloc, n)?;
    let script = accepted(alloc, text.as_slice())?;
    let postinst = Slot::new(alloc, script)?;
    Ok(Package {
        version,
        entries: FileList::empty(alloc),
        scripts: Scripts {
            preinst: Slot::empty(alloc),
            postinst,
            prerm: Slot::empty(alloc),
            postrm: Slot::empty(alloc),
        },
    })
}
