ghost use Rattle.std.specs.Prelude.{◌≡◌};
ghost use Rattle.script_places.specs.ActWords.{act_name, copy_name, either_move_words, remove_name, special_name};
ghost use Rattle.script_places.specs.ActWords.{symlink_name};
ghost use Rattle.script_places.specs.ActWords.{attr_words, both_copy_words, can_run_words, copy_dir_words};
ghost use Rattle.script_places.specs.ActWords.{copy_words, discard_dir_words, discard_words};
ghost use Rattle.script_places.specs.ActWords.{ensure_dir_words, exists_words, is_dir_words, is_link_words};
ghost use Rattle.script_places.specs.ActWords.{is_reg_words, is_special_words, make_dir_words};
ghost use Rattle.script_places.specs.ActWords.{move_below_words, move_words, or_link, own_words};
ghost use Rattle.script_places.specs.ActWords.{place_conf_words, place_file_words, place_link_words};
ghost use Rattle.script_places.specs.ActWords.{remove_dir_words, remove_words, row_words, symlink_words};
ghost use Rattle.script_places.specs.ActWords.{touch_words};

use feature_trees::Special;
use utility_calls::acts::Act;

/// The name of an act: the utility, with the options that matter, or what a package manager does.
pub fn act_name(act: &Act) -> &'static [u8]
    ensures { result.now ≡ act_name act.now }
{
    match act {
        Act::Exists(_) => b"test -e",
        Act::IsReg(_) => b"test -f",
        Act::IsDir(_) => b"test -d",
        Act::IsLink(_) => b"test -h",
        Act::CanRun { .. } => b"test -x",
        Act::IsSpecial { kind, .. } => special_name(*kind),
        Act::MakeDir(_) => b"mkdir",
        Act::EnsureDir(_) => b"mkdir -p",
        Act::RemoveDir(_) => b"rmdir",
        Act::Remove { force, deep, .. } => remove_name(*force, *deep),
        Act::Touch(_) => b"touch",
        Act::Symlink { force, .. } => symlink_name(*force),
        Act::Move { .. } => b"mv",
        Act::Attr(_) => b"chmod, chown or chgrp",
        Act::Copy { deep, .. } => copy_name(*deep),
        Act::PlaceFile(_) => b"placing a file",
        Act::PlaceLink { .. } => b"placing a link",
        Act::PlaceConf(_) => b"placing a conffile",
        Act::Discard(_) => b"removing a file",
        Act::DiscardDir(_) => b"removing a folder",
    }
}

// The name of a question for one special kind.
fn special_name(kind: Special) -> &'static [u8]
    ensures { result.now ≡ special_name kind }
{
    match kind {
        Special::Fifo => b"test -p",
        Special::Socket => b"test -S",
        Special::Block => b"test -b",
        Special::Char => b"test -c",
    }
}

// The name of a removal.
fn remove_name(force: bool, deep: bool) -> &'static [u8]
    ensures { result.now ≡ remove_name force deep }
{
    match (force, deep) {
        (false, false) => b"rm",
        (false, true) => b"rm -r",
        (true, false) => b"rm -f",
        (true, true) => b"rm -rf",
    }
}

// The name of the making of a link.
fn symlink_name(force: bool) -> &'static [u8]
    ensures { result.now ≡ symlink_name force }
{
    if force { b"ln -sf" } else { b"ln -s" }
}

// The name of a copying.
fn copy_name(deep: bool) -> &'static [u8]
    ensures { result.now ≡ copy_name deep }
{
    if deep { b"cp -r" } else { b"cp" }
}

/// What a row of an act says, in a clause for people, in which "there" is the path of the act; no bytes for a row that
/// the act does not have.
pub fn row_words(act: &Act, row: u8) -> &'static [u8]
    ensures { result.now ≡ row_words act.now row }
{
    if row >= 1 && row <= 63 {
        return b"a link stands on the way";
    }
    if row == 64 {
        return b"a slash stands behind what is no directory";
    }
    if row >= 129 && row <= 192 {
        return b"a link stands on the way to the second path";
    }
    if row == 65 {
        return or_link(own_words(act, row));
    }
    own_words(act, row)
}

// The words, or those for a link.
fn or_link(words: &'static [u8]) -> &'static [u8]
    ensures { result.now ≡ or_link words.now }
{
    match words {
        [] => b"a link stands there",
        [_, ..] => words,
    }
}

// A row of an act's own table.
fn own_words(act: &Act, row: u8) -> &'static [u8]
    ensures { result.now ≡ own_words act.now row }
{
    match act {
        Act::Exists(_) => exists_words(row),
        Act::IsReg(_) => is_reg_words(row),
        Act::IsDir(_) => is_dir_words(row),
        Act::IsLink(_) => is_link_words(row),
        Act::CanRun { .. } => can_run_words(row),
        Act::IsSpecial { .. } => is_special_words(row),
        Act::MakeDir(_) => make_dir_words(row),
        Act::EnsureDir(_) => ensure_dir_words(row),
        Act::RemoveDir(_) => remove_dir_words(row),
        Act::Remove { .. } => remove_words(row),
        Act::Touch(_) => touch_words(row),
        Act::Symlink { .. } => symlink_words(row),
        Act::Move { .. } => either_move_words(act.is_below(), row),
        Act::Attr(_) => attr_words(row),
        Act::Copy { .. } => both_copy_words(row),
        Act::PlaceFile(_) => place_file_words(row),
        Act::PlaceLink { .. } => place_link_words(row),
        Act::PlaceConf(_) => place_conf_words(row),
        Act::Discard(_) => discard_words(row),
        Act::DiscardDir(_) => discard_dir_words(row),
    }
}

// A row of a move.
fn either_move_words(below: bool, row: u8) -> &'static [u8]
    ensures { result.now ≡ either_move_words below row }
{
    if below {
        move_below_words(row)
    } else {
        move_words(row)
    }
}

// A row of a copy.
fn both_copy_words(row: u8) -> &'static [u8]
    ensures { result.now ≡ both_copy_words row }
{
    if row > 75 && row < 82 {
        return copy_dir_words(row);
    }
    if row > 82 {
        return copy_dir_words(row);
    }
    copy_words(row)
}

// `test -e`
fn exists_words(row: u8) -> &'static [u8]
    ensures { result.now ≡ exists_words row }
{
    match row {
        66 => b"nothing there",
        67 => b"something there",
        _ => b"",
    }
}

// `test -f`
fn is_reg_words(row: u8) -> &'static [u8]
    ensures { result.now ≡ is_reg_words row }
{
    match row {
        66 => b"no file there",
        67 => b"a file there",
        _ => b"",
    }
}

// `test -d`
fn is_dir_words(row: u8) -> &'static [u8]
    ensures { result.now ≡ is_dir_words row }
{
    match row {
        66 => b"no directory there",
        67 => b"a directory there",
        _ => b"",
    }
}

// `test -h`
fn is_link_words(row: u8) -> &'static [u8]
    ensures { result.now ≡ is_link_words row }
{
    match row {
        66 => b"no link there",
        67 => b"a link there",
        _ => b"",
    }
}

// `test -x`
fn can_run_words(row: u8) -> &'static [u8]
    ensures { result.now ≡ can_run_words row }
{
    match row {
        66 => b"nothing there",
        67 => b"it may be run, or is a directory",
        68 => b"whether it may be run is not known",
        _ => b"",
    }
}

// `test -p`, `-S`, `-b` and `-c`
fn is_special_words(row: u8) -> &'static [u8]
    ensures { result.now ≡ is_special_words row }
{
    match row {
        66 => b"nothing of this kind there",
        67 => b"one there",
        _ => b"",
    }
}

// `mkdir`
fn make_dir_words(row: u8) -> &'static [u8]
    ensures { result.now ≡ make_dir_words row }
{
    match row {
        66 => b"fails: the directory above is missing or is none",
        67 => b"fails: something stands there",
        68 => b"made",
        _ => b"",
    }
}

// one directory of `mkdir -p`
fn ensure_dir_words(row: u8) -> &'static [u8]
    ensures { result.now ≡ ensure_dir_words row }
{
    match row {
        66 => b"fails: the directory above is missing or is none",
        67 => b"fails: a file, pipe, socket or device stands there",
        68 => b"made, or there already",
        _ => b"",
    }
}

// `rmdir`
fn remove_dir_words(row: u8) -> &'static [u8]
    ensures { result.now ≡ remove_dir_words row }
{
    match row {
        66 => b"fails: no directory stands there",
        67 => b"fails: the directory has an entry",
        68 => b"taken away",
        _ => b"",
    }
}

// `rm`, with its options
fn remove_words(row: u8) -> &'static [u8]
    ensures { result.now ≡ remove_words row }
{
    match row {
        66 => b"fails: nothing stands there",
        67 => b"fails: a directory stands there",
        68 => b"taken away",
        69 => b"taken away, with all below it",
        70 => b"nothing to do: the directory above is missing or is none",
        71 => b"taken away, or not there",
        72 => b"taken away with all below it, or not there",
        _ => b"",
    }
}

// `touch`
fn touch_words(row: u8) -> &'static [u8]
    ensures { result.now ≡ touch_words row }
{
    match row {
        66 => b"fails: the directory above is missing or is none",
        67 => b"made, or a file already",
        68 => b"there already",
        _ => b"",
    }
}

// `ln -s`, with `-f` or without
fn symlink_words(row: u8) -> &'static [u8]
    ensures { result.now ≡ symlink_words row }
{
    match row {
        66 => b"fails: the directory above is missing or is none",
        67 => b"fails: a file, pipe, socket or device stands there",
        68 => b"made",
        69 => b"made, perhaps in place of what stood there",
        70 => b"fails: the directory there has an entry of this name",
        71 => b"made in the directory there",
        72 => b"fails: the directory there has a directory of this name",
        73 => b"made in the directory there, perhaps in place of an entry",
        _ => b"",
    }
}

// `mv` to a path below the first one
fn move_below_words(row: u8) -> &'static [u8]
    ensures { result.now ≡ move_below_words row }
{
    match row {
        65 => b"a link stands at the second path",
        66 => b"fails: the second path is below the first",
        _ => b"",
    }
}

// `mv`
fn move_words(row: u8) -> &'static [u8]
    ensures { result.now ≡ move_words row }
{
    match row {
        65 => b"a link stands at the second path",
        66 => b"fails: nothing stands at the first path",
        67 => b"fails: the directory above the second path is missing or is none",
        68 => b"moved",
        69 => b"moved, with all below it",
        70 => b"fails: a directory cannot take the place of what stands at the second path",
        71 => b"moved into the directory at the second path",
        72 => b"fails: in the directory at the second path a directory has this name",
        73 => b"moved, with all below it, into the directory at the second path",
        74 =>
            b"fails: the directory at the second path has an entry of this name, which is no directory",
        75 =>
            b"fails: the directory at the second path has a directory of this name, which has an entry",
        76 => b"moved into the directory at the second path, in place of an empty one",
        77 => b"moved, in place of what stood there",
        78 => b"a link would take the place of what it may lead to",
        79 => b"moved into the directory at the second path, in place of an entry",
        80 => b"a link would take the place of an entry that it may lead to",
        81 => b"it would take the place of a link that may lead to it",
        _ => b"",
    }
}

// `chmod`, `chown`, `chgrp`
fn attr_words(row: u8) -> &'static [u8]
    ensures { result.now ≡ attr_words row }
{
    match row {
        66 => b"fails: nothing stands there",
        67 => b"set",
        _ => b"",
    }
}

// `cp` of what is no directory, and of any with a fault at the first path
fn copy_words(row: u8) -> &'static [u8]
    ensures { result.now ≡ copy_words row }
{
    match row {
        65 => b"a link stands at the first path",
        66 => b"fails: nothing stands at the first path",
        67 => b"fails: a directory stands at the first path",
        68 => b"fails: the directory above the second path is missing or is none",
        69 => b"copied",
        70 => b"a link stands at the second path",
        71 => b"a pipe, socket or device stands at the second path",
        72 => b"copied into the directory at the second path",
        73 => b"a link has this name in the directory at the second path",
        74 => b"a pipe, socket or device has this name in the directory at the second path",
        75 => b"fails: in the directory at the second path a directory has this name",
        82 => b"a pipe, socket or device stands at the first path",
        _ => b"",
    }
}

// `cp -r` of a directory
fn copy_dir_words(row: u8) -> &'static [u8]
    ensures { result.now ≡ copy_dir_words row }
{
    match row {
        76 => b"fails: the directory above the second path is missing or is none",
        77 => b"copied, with all below it",
        78 => b"fails: a directory cannot take the place of what stands at the second path",
        79 => b"a link stands at the second path",
        80 => b"copied, with all below it, into the directory at the second path",
        81 => b"the directory at the second path has a directory of this name already",
        83 =>
            b"fails: the directory at the second path has an entry of this name, which is no directory",
        84 => b"a link has this name in the directory at the second path",
        _ => b"",
    }
}

// a file of a package is placed
fn place_file_words(row: u8) -> &'static [u8]
    ensures { result.now ≡ place_file_words row }
{
    match row {
        66 => b"fails: the directory above is missing or is none",
        67 => b"fails: a directory stands there",
        68 => b"put in place",
        _ => b"",
    }
}

// a link of a package is placed
fn place_link_words(row: u8) -> &'static [u8]
    ensures { result.now ≡ place_link_words row }
{
    match row {
        66 => b"fails: the directory above is missing or is none",
        67 => b"a directory stands there",
        68 => b"put in place",
        _ => b"",
    }
}

// a configuration file of a package is placed
fn place_conf_words(row: u8) -> &'static [u8]
    ensures { result.now ≡ place_conf_words row }
{
    match row {
        66 => b"fails: the directory above is missing or is none",
        67 => b"fails: a directory stands there",
        68 => b"put in place",
        69 => b"a link, pipe, socket or device stands there",
        _ => b"",
    }
}

// what is no directory is discarded
fn discard_words(row: u8) -> &'static [u8]
    ensures { result.now ≡ discard_words row }
{
    match row {
        66 => b"nothing to do: the directory above is missing or is none",
        67 => b"a directory stands there, and stays",
        68 => b"taken away, or not there",
        _ => b"",
    }
}

// an empty directory is discarded
fn discard_dir_words(row: u8) -> &'static [u8]
    ensures { result.now ≡ discard_dir_words row }
{
    match row {
        66 => b"no directory stands there",
        67 => b"it has an entry, and stays",
        68 => b"taken away",
        _ => b"",
    }
}
