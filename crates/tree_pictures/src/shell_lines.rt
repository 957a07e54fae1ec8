//! Shell lines that make a tree.

ghost use Rattle.std.specs.Prelude.{◌≡◌, ◌++◌, ◌&&◌, OnOk};
ghost use Rattle.std.specs.List.{flat_map, list_any};
ghost use Rattle.tree_pictures.specs.Pictures.{is_below};
ghost use Rattle.tree_pictures.specs.ShellLines.{is_plain, are_plain, quoted, is_printed, spelled_byte, spelled};
ghost use Rattle.tree_pictures.specs.ShellLines.{rooted, plain_line, piped, spelled_between, spelled_line, path_line};
ghost use Rattle.tree_pictures.specs.ShellLines.{quoted_behind, plain_link, spelled_target, spelled_link};
ghost use Rattle.tree_pictures.specs.ShellLines.{link_line, remark_line, is_dir, has_dir_below, is_last_dir, dir_line};
ghost use Rattle.tree_pictures.specs.ShellLines.{special_line, standing_line, entry_line, making_lines, shell_lines};

use crate::pictures::{is_below, special_words};
use crate::placed::{Placed, Standing, tree_places};
use feature_trees::{Special, Value};
use script_names::{Bytes, Memory};
use shown_texts::push_shown;
use std::alloc::Global;

// Whether a byte may stand between single quotes.
fn is_plain(byte: u8) -> bool
    ensures { result ≡ is_plain byte }
{
    byte >= 32 && byte <= 126 && byte != 39
}

// Whether all bytes of a word are such.
fn are_plain(word: &[u8]) -> bool
    ensures { result ≡ are_plain word.now }
{
    word.iter().all(|byte| is_plain(*byte))
}

// Adds the word between single quotes.
#[tactic(auto, unfolding(crate::specs::ShellLines::quoted))]
fn put_quoted(text: &mut Bytes, word: &[u8]) -> Result<(), Memory>
    ensures { OnOk result (text.new ≡ text.old ++ quoted word.now) }
{
    text.extend(b"'")?;
    text.extend(word)?;
    text.extend(b"'")
}

// Whether printf takes a byte as it is.
fn is_printed(byte: u8) -> bool
    ensures { result ≡ is_printed byte }
{
    is_plain(byte) && byte != 37 && byte != 92
}

// Adds a byte for printf.
fn put_spelled_byte(text: &mut Bytes, byte: u8) -> Result<(), Memory>
    ensures { OnOk result (text.new ≡ text.old ++ spelled_byte byte) }
{
    if is_printed(byte) {
        return text.push(byte);
    }
    text.push(92)?;
    text.push(48 + byte / 64)?;
    text.push(48 + byte / 8 % 8)?;
    text.push(48 + byte % 8)
}

// Adds a word for printf.
fn put_spelled(text: &mut Bytes, word: &[u8]) -> Result<(), Memory>
    ensures { OnOk result (text.new ≡ text.old ++ spelled word.now) }
{
    for byte in word {
        put_spelled_byte(text, *byte)?;
    }
    Ok(())
}

// Adds a plain path below the folder, and ends the line.
#[tactic(auto, unfolding(crate::specs::ShellLines::rooted))]
fn put_rooted(text: &mut Bytes, path: &[u8]) -> Result<(), Memory>
    ensures { OnOk result (text.new ≡ text.old ++ rooted path.now) }
{
    text.extend(b" \"$root\"")?;
    put_quoted(text, path)?;
    text.extend(b"\n")
}

// Adds a line that gives a plain path to a command.
#[tactic(auto, unfolding(crate::specs::ShellLines::plain_line))]
fn put_plain_line(text: &mut Bytes, command: &[u8], path: &[u8]) -> Result<(), Memory>
    ensures { OnOk result (text.new ≡ text.old ++ plain_line command.now path.now) }
{
    text.extend(b"      ")?;
    text.extend(command)?;
    put_rooted(text, path)
}

// Adds the end of what printf is given, with the folder, and the command to which it goes.
#[tactic(auto, unfolding(crate::specs::ShellLines::piped))]
fn put_piped(text: &mut Bytes, command: &[u8]) -> Result<(), Memory>
    ensures { OnOk result (text.new ≡ text.old ++ piped command.now) }
{
    text.extend(b"\\000' \"$root\" | xargs -0 ")?;
    text.extend(command)?;
    text.extend(b"\n")
}

// Adds a text, a word for printf and another text.
#[tactic(auto, unfolding(crate::specs::ShellLines::spelled_between))]
fn put_spelled_between(
    text: &mut Bytes,
    before: &[u8],
    word: &[u8],
    behind: &[u8],
) -> Result<(), Memory>
    ensures { OnOk result (text.new ≡ text.old ++ spelled_between before.now word.now behind.now) }
{
    text.extend(before)?;
    put_spelled(text, word)?;
    text.extend(behind)
}

// Adds a line that gives any path to a command.
fn put_spelled_line(text: &mut Bytes, command: &[u8], path: &[u8]) -> Result<(), Memory>
    ensures { OnOk result (text.new ≡ text.old ++ spelled_line command.now path.now) }
{
    put_spelled_between(text, b"      printf '%s", path, b"")?;
    put_piped(text, command)
}

// Adds a line that gives a path to a command.
fn put_path_line(text: &mut Bytes, command: &[u8], path: &[u8]) -> Result<(), Memory>
    ensures { OnOk result (text.new ≡ text.old ++ path_line command.now path.now) }
{
    if are_plain(path) {
        return put_plain_line(text, command, path);
    }
    put_spelled_line(text, command, path)
}

// Adds a word between single quotes, behind a text.
#[tactic(auto, unfolding(crate::specs::ShellLines::quoted_behind))]
fn put_quoted_behind(text: &mut Bytes, before: &[u8], word: &[u8]) -> Result<(), Memory>
    ensures { OnOk result (text.new ≡ text.old ++ quoted_behind before.now word.now) }
{
    text.extend(before)?;
    put_quoted(text, word)
}

// Adds a line that makes a link of plain words.
fn put_plain_link(text: &mut Bytes, target: &[u8], path: &[u8]) -> Result<(), Memory>
    ensures { OnOk result (text.new ≡ text.old ++ plain_link target.now path.now) }
{
    put_quoted_behind(text, b"      ln -s -- ", target)?;
    put_rooted(text, path)
}

// Adds the target of a link, as the first that printf is given.
fn put_spelled_target(text: &mut Bytes, target: &[u8]) -> Result<(), Memory>
    ensures { OnOk result (text.new ≡ text.old ++ spelled_target target.now) }
{
    put_spelled_between(text, b"      printf -- '", target, b"\\000%s")
}

// Adds a line that makes a link of any words.
fn put_spelled_link(text: &mut Bytes, target: &[u8], path: &[u8]) -> Result<(), Memory>
    ensures { OnOk result (text.new ≡ text.old ++ spelled_link target.now path.now) }
{
    put_spelled_target(text, target)?;
    put_spelled(text, path)?;
    put_piped(text, b"ln -s --")
}

// Adds a line that makes a link.
fn put_link_line(text: &mut Bytes, target: &[u8], path: &[u8]) -> Result<(), Memory>
    ensures { OnOk result (text.new ≡ text.old ++ link_line target.now path.now) }
{
    if are_plain(target) && are_plain(path) {
        return put_plain_link(text, target, path);
    }
    put_spelled_link(text, target, path)
}

// Adds a remark on what no standard command makes.
#[tactic(auto, unfolding(crate::specs::ShellLines::remark_line))]
fn put_remark(text: &mut Bytes, special: Special, path: &[u8]) -> Result<(), Memory>
    ensures { OnOk result (text.new ≡ text.old ++ remark_line special path.now) }
{
    text.extend(b"      # ")?;
    text.extend(special_words(special))?;
    text.extend(b" stands at ")?;
    push_shown(text, path)?;
    text.extend(b"\n")
}

// Whether a directory stands there.
fn is_dir(place: &Placed) -> bool
    ensures { result ≡ is_dir place.now }
{
    match place.standing {
        Standing::Dir => true,
        Standing::Reg | Standing::Link(_) | Standing::Special(_) => false,
    }
}

// Whether a directory stands at a place below a path.
fn is_dir_below(path: &[u8], place: &Placed) -> bool
    ensures { result ≡ (is_dir place.now && is_below path.now place.now) }
{
    is_dir(place) && is_below(path, place)
}

// Whether a directory is below a path.
fn has_dir_below(places: &[Placed], path: &[u8]) -> bool
    ensures { result ≡ has_dir_below places.now path.now }
{
    places.iter().any(|place| is_dir_below(path, place))
}

// Whether a directory is there in which there is none.
fn is_last_dir(places: &[Placed], place: &Placed) -> bool
    ensures { result ≡ is_last_dir places.now place.now }
{
    is_dir(place) && !has_dir_below(places, place.path.as_slice())
}

// Adds the line of such a directory.
fn put_dir_line(text: &mut Bytes, places: &[Placed], place: &Placed) -> Result<(), Memory>
    ensures { OnOk result (text.new ≡ text.old ++ dir_line places.now place.now) }
{
    if is_last_dir(places, place) {
        return put_path_line(text, b"mkdir -p", place.path.as_slice());
    }
    Ok(())
}

// Adds the line of a special thing.
fn put_special_line(text: &mut Bytes, special: Special, path: &[u8]) -> Result<(), Memory>
    ensures { OnOk result (text.new ≡ text.old ++ special_line special path.now) }
{
    match special {
        Special::Fifo => put_path_line(text, b"mkfifo", path),
        Special::Socket | Special::Block | Special::Char => put_remark(text, special, path),
    }
}

// Adds the line of what is no directory.
fn put_entry_line(text: &mut Bytes, place: &Placed) -> Result<(), Memory>
    ensures { OnOk result (text.new ≡ text.old ++ entry_line place.now) }
{
    match &place.standing {
        Standing::Reg => put_path_line(text, b"touch", place.path.as_slice()),
        Standing::Link(target) => { put_link_line(text, target.as_slice(), place.path.as_slice()) }
        Standing::Special(special) => put_special_line(text, *special, place.path.as_slice()),
        Standing::Dir => Ok(()),
    }
}

// Adds the lines of the directories in which there is none.
fn put_dir_lines(text: &mut Bytes, places: &[Placed]) -> Result<(), Memory>
    ensures { OnOk result (text.new ≡ text.old ++ flat_map (dir_line places.now) places.now) }
{
    for place in places {
        put_dir_line(text, places, place)?;
    }
    Ok(())
}

// Adds the lines of what is no directory.
fn put_entry_lines(text: &mut Bytes, places: &[Placed]) -> Result<(), Memory>
    ensures { OnOk result (text.new ≡ text.old ++ flat_map entry_line places.now) }
{
    for place in places {
        put_entry_line(text, place)?;
    }
    Ok(())
}

// Adds the lines of places.
#[tactic(auto, unfolding(crate::specs::ShellLines::making_lines))]
fn put_making_lines(text: &mut Bytes, places: &[Placed]) -> Result<(), Memory>
    ensures { OnOk result (text.new ≡ text.old ++ making_lines places.now) }
{
    put_dir_lines(text, places)?;
    put_entry_lines(text, places)
}

/// Adds the shell lines (POSIX, and `xargs -0` for words that are not printable ASCII) that make a tree below an empty
/// folder, whose path is in `root`: directories first, then what stands in them. A socket or device has a remark.
pub fn put_shell_lines(alloc: Global, text: &mut Bytes, tree: &Value) -> Result<(), Memory>
    ensures { OnOk result (text.new ≡ text.old ++ shell_lines tree.now) }
{
    let places = tree_places(alloc, tree)?;
    put_making_lines(text, places.as_slice())
}
