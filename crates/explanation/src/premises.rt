// Under which premises all is said.
ghost use Rattle.std.specs.Prelude.{◌≡◌, ◌++◌, OnOk, length};
ghost use Rattle.explanation.specs.Premises.{base_name, number_of, if_said, counts_text, said_text, premises_text};
ghost use Rattle.explanation.specs.Premises.{known_places, known_links, own_folders, stated_commands};
ghost use Rattle.explanation.specs.Premises.{fits_line, runs_line, removed_line, versions_line, plain_line};

use crate::stated_text::put_stated_line;
use checker_input::Sources;
use script_names::{Bytes, Memory};
use shown_texts::{push_number, push_shown};
use std::alloc::Global;
use system_base::Base;

// Adds the name of the base.
fn put_base_name(text: &mut Bytes, sources: &Sources) -> Result<(), Memory>
    ensures { OnOk result (text.new ≡ text.old ++ base_name sources.now) }
{
    match &sources.folders.base {
        Some(name) => push_shown(text, name.as_str().as_bytes()),
        None => text.extend(b"the usual base"),
    }
}

// Adds how many lines of a sort there are.
#[tactic(auto, unfolding(crate::specs::Premises::number_of))]
fn put_number(text: &mut Bytes, count: usize, sort: &[u8]) -> Result<(), Memory>
    ensures { OnOk result (text.new ≡ text.old ++ number_of count sort.now) }
{
    text.extend(b", ")?;
    push_number(text, count as u64)?;
    text.extend(b" ")?;
    text.extend(sort)
}

// Adds words, where this is said.
#[tactic(auto, unfolding(crate::specs::Premises::if_said))]
fn put_if(text: &mut Bytes, said: bool, words: &[u8]) -> Result<(), Memory>
    ensures { OnOk result (text.new ≡ text.old ++ if_said said words.now) }
{
    if said {
        return text.extend(words);
    }
    Ok(())
}

// Adds how many places that are known.
#[tactic(auto, unfolding(crate::specs::Premises::known_places))]
fn put_known_places(text: &mut Bytes, count: usize) -> Result<(), Memory>
    ensures { OnOk result (text.new ≡ text.old ++ known_places count) }
{
    put_number(text, count, b"known places")
}

// Adds how many links that are known.
#[tactic(auto, unfolding(crate::specs::Premises::known_links))]
fn put_known_links(text: &mut Bytes, count: usize) -> Result<(), Memory>
    ensures { OnOk result (text.new ≡ text.old ++ known_links count) }
{
    put_number(text, count, b"known links")
}

// Adds how many folders of its own.
#[tactic(auto, unfolding(crate::specs::Premises::own_folders))]
fn put_own_folders(text: &mut Bytes, count: usize) -> Result<(), Memory>
    ensures { OnOk result (text.new ≡ text.old ++ own_folders count) }
{
    put_number(text, count, b"own folders")
}

// Adds how many commands that are stated.
#[tactic(auto, unfolding(crate::specs::Premises::stated_commands))]
fn put_stated_commands(text: &mut Bytes, count: usize) -> Result<(), Memory>
    ensures { OnOk result (text.new ≡ text.old ++ stated_commands count) }
{
    put_number(text, count, b"stated commands")
}

// Adds how many lines of each sort the base has.
#[tactic(auto, unfolding(crate::specs::Premises::counts_text))]
fn put_counts(text: &mut Bytes, base: &Base) -> Result<(), Memory>
    ensures { OnOk result (text.new ≡ text.old ++ counts_text base.now) }
{
    put_known_places(text, base.known.len())?;
    put_known_links(text, base.links.len())?;
    put_own_folders(text, base.own.len())?;
    put_stated_commands(text, base.calls.as_slice().len())
}

// Adds the line of `fits`.
#[tactic(auto, unfolding(crate::specs::Premises::fits_line))]
fn put_fits(text: &mut Bytes, said: bool) -> Result<(), Memory>
    ensures { OnOk result (text.new ≡ text.old ++ fits_line said) }
{
    put_if(
        text,
        said,
        b"  fits: what stands where the package's files go fits them\n",
    )
}

// Adds the line of `runs`.
#[tactic(auto, unfolding(crate::specs::Premises::runs_line))]
fn put_runs(text: &mut Bytes, said: bool) -> Result<(), Memory>
    ensures { OnOk result (text.new ≡ text.old ++ runs_line said) }
{
    put_if(text, said, b"  runs: a regular file may be executed\n")
}

// Adds the line of `removed`.
#[tactic(auto, unfolding(crate::specs::Premises::removed_line))]
fn put_removed(text: &mut Bytes, said: bool) -> Result<(), Memory>
    ensures { OnOk result (text.new ≡ text.old ++ removed_line said) }
{
    put_if(
        text,
        said,
        b"  removed: before a later purge only configuration files are left\n",
    )
}

// Adds the line of `versions`.
#[tactic(auto, unfolding(crate::specs::Premises::versions_line))]
fn put_versions(text: &mut Bytes, said: bool) -> Result<(), Memory>
    ensures { OnOk result (text.new ≡ text.old ++ versions_line said) }
{
    put_if(
        text,
        said,
        b"  versions: versions are compared as Debian does\n",
    )
}

// Adds the line of `plain`.
#[tactic(auto, unfolding(crate::specs::Premises::plain_line))]
fn put_plain(text: &mut Bytes, said: bool) -> Result<(), Memory>
    ensures { OnOk result (text.new ≡ text.old ++ plain_line said) }
{
    put_if(
        text,
        said,
        b"  plain: what stands where scripts name files and folders is such a thing\n",
    )
}

// Adds what else the base says.
#[tactic(auto, unfolding(crate::specs::Premises::said_text))]
fn put_said(text: &mut Bytes, base: &Base) -> Result<(), Memory>
    ensures { OnOk result (text.new ≡ text.old ++ said_text base.now) }
{
    put_fits(text, base.fits)?;
    put_runs(text, base.runs)?;
    put_removed(text, base.removed)?;
    put_versions(text, base.versions)?;
    put_plain(text, base.plain)
}

/// Adds the premises.
#[tactic(auto, unfolding(crate::specs::Premises::premises_text))]
pub fn put_premises(
    alloc: Global,
    text: &mut Bytes,
    sources: &Sources,
    base: &Base,
) -> Result<(), Memory>
    ensures { OnOk result (text.new ≡ text.old ++ premises_text sources.now base.now) }
{
    text.extend(b"Premises: ")?;
    put_base_name(text, sources)?;
    put_counts(text, base)?;
    text.extend(b"\n")?;
    put_said(text, base)?;
    put_stated_line(alloc, text, sources, base.calls.as_slice())?;
    text.extend(b"Not looked at: contents, modes and owners of files.\n")
}
