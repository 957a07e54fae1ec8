// The scripts of the two packages: the names of their files, and their texts.
ghost use Rattle.std.specs.Prelude.{◌≡◌, ◌++◌, OnOk};
ghost use Rattle.explanation.specs.Scripts.{folder_of, texts_of, script_file, script_text};

use checker_input::Sources;
use dpkg_scenarios::{ScriptKind, Scripts, Side, script_name};
use script_names::{Bytes, Memory};
use shown_texts::push_shown;

/// The folder of one of the packages, as it was named; without an old one it is the new one's.
pub fn folder_of(sources: &Sources, side: Side) -> &str
    ensures { result.now ≡ folder_of sources.now side }
{
    match side {
        Side::New => sources.folders.dir.as_str(),
        Side::Old => match &sources.folders.old {
            Some(folder) => folder.as_str(),
            None => sources.folders.dir.as_str(),
        },
    }
}

// The texts of the scripts of one of the packages.
fn texts_of(sources: &Sources, side: Side) -> &Scripts<Bytes>
    ensures { result.now ≡ texts_of sources.now side }
{
    match side {
        Side::New => &sources.new_texts,
        Side::Old => match &sources.old_texts {
            Some(texts) => texts,
            None => &sources.new_texts,
        },
    }
}

/// The text of a script; no bytes, where the package has none.
pub fn script_text(sources: &Sources, side: Side, script: ScriptKind) -> &[u8]
    ensures { result.now ≡ script_text sources.now side script }
{
    match texts_of(sources, side).get(script) {
        Some(text) => text.as_slice(),
        None => b"",
    }
}

/// Adds the name of a script's file.
pub fn put_script_file(
    text: &mut Bytes,
    sources: &Sources,
    side: Side,
    script: ScriptKind,
) -> Result<(), Memory>
    ensures { OnOk result (text.new ≡ text.old ++ script_file sources.now side script) }
{
    push_shown(text, folder_of(sources, side).as_bytes())?;
    text.extend(b"/")?;
    text.extend(script_name(script).as_bytes())
}
