//! What a run makes of the tree that it begins from, place by place.

ghost use Rattle.std.specs.Prelude.{◌≡◌, ◌++◌, ◌&&◌, not, length, filter, OnOk};
ghost use Rattle.std.specs.List.{flat_map};
ghost use Rattle.std.specs.Option.{option_copied};
ghost use Rattle.tree_pictures.specs.declared.placed.Standing.TheVariants.{Reg, Link, Special as SpecialThing, Dir};
ghost use Rattle.tree_pictures.specs.Pictures.{begins_name, is_below, standing_at, is_there, has_below, is_inner};
ghost use Rattle.tree_pictures.specs.Pictures.{special_number, same_standing, special_words, standing_words};
ghost use Rattle.tree_pictures.specs.Pictures.{whole_words, is_among, mark_of, place_head, place_tail, stays_line};
ghost use Rattle.tree_pictures.specs.Pictures.{changed_line, taken_line, made_line, kept_line, gone_line, old_line};
ghost use Rattle.tree_pictures.specs.Pictures.{new_line, absent_line, missing_line, stays_by, is_left_out};
ghost use Rattle.tree_pictures.specs.Pictures.{counted, rest_text, placed_picture, picture, whole_line, whole_tree};

use crate::placed::{Placed, Standing, tree_places};
use feature_trees::{Special, Value};
use script_names::{Bytes, Memory};
use shown_texts::{push_number, push_shown};
use std::alloc::Global;

// Whether the first byte is a slash.
fn begins_name(bytes: &[u8]) -> bool
    ensures { result ≡ begins_name bytes.now }
{
    match bytes {
        [] => false,
        [first, ..] => *first == b'/',
    }
}

/// Whether a place is below a path.
pub fn is_below(path: &[u8], place: &Placed) -> bool
    ensures { result ≡ is_below path.now place.now }
{
    match place.path.as_slice().strip_prefix(path) {
        Some(rest) => begins_name(rest),
        None => false,
    }
}

/// What stands at a path among these places.
pub fn standing_at<'a>(path: &[u8], places: &'a [Placed]) -> Option<&'a Standing>
    ensures { option_copied result ≡ standing_at path.now places.now }
{
    let mut left = places;
    while let [place, rest @ ..] = left {
        if place.path.as_slice() == path {
            return Some(&place.standing);
        }
        left = rest;
    }
    None
}

// Whether something stands there.
fn is_there(path: &[u8], places: &[Placed]) -> bool
    ensures { result ≡ is_there path.now places.now }
{
    standing_at(path, places).is_some()
}

// Whether something is below a path.
fn has_below(places: &[Placed], path: &[u8]) -> bool
    ensures { result ≡ has_below places.now path.now }
{
    places.iter().any(|place| is_below(path, place))
}

// Whether a place is below another one, at which nothing stands in another tree.
fn is_lost(other: &[Placed], above: &Placed, place: &Placed) -> bool
    ensures { result ≡ (is_below above.now.path place.now && not (is_there above.now.path other.now)) }
{
    is_below(above.path.as_slice(), place) && !is_there(above.path.as_slice(), other)
}

// Whether a place is below one at which nothing stands in another tree.
fn is_inner(other: &[Placed], places: &[Placed], place: &Placed) -> bool
    ensures { result ≡ is_inner other.now places.now place.now }
{
    places.iter().any(|above| is_lost(other, above, place))
}

// The special things, numbered.
fn special_number(special: Special) -> u8
    ensures { result ≡ special_number special }
{
    match special {
        Special::Fifo => 0,
        Special::Socket => 1,
        Special::Block => 2,
        Special::Char => 3,
    }
}

// Whether a link has this target.
fn is_link_to(target: &[u8], standing: &Standing) -> bool
    ensures { result ≡ same_standing (Link target.now) standing.now }
{
    match standing {
        Standing::Link(other) => target == other.as_slice(),
        Standing::Reg | Standing::Special(_) | Standing::Dir => false,
    }
}

// Whether this special thing stands there.
fn is_special(special: Special, standing: &Standing) -> bool
    ensures { result ≡ same_standing (SpecialThing special) standing.now }
{
    match standing {
        Standing::Special(other) => special_number(special) == special_number(*other),
        Standing::Reg | Standing::Link(_) | Standing::Dir => false,
    }
}

// Whether a file stands there.
fn is_file(standing: &Standing) -> bool
    ensures { result ≡ same_standing Reg standing.now }
{
    match standing {
        Standing::Reg => true,
        Standing::Link(_) | Standing::Special(_) | Standing::Dir => false,
    }
}

// Whether a directory stands there.
fn is_directory(standing: &Standing) -> bool
    ensures { result ≡ same_standing Dir standing.now }
{
    match standing {
        Standing::Dir => true,
        Standing::Reg | Standing::Link(_) | Standing::Special(_) => false,
    }
}

// Whether the same stands there, of directories but for their entries.
fn same_standing(one: &Standing, other: &Standing) -> bool
    ensures { result ≡ same_standing one.now other.now }
{
    match one {
        Standing::Reg => is_file(other),
        Standing::Link(target) => is_link_to(target.as_slice(), other),
        Standing::Special(special) => is_special(*special, other),
        Standing::Dir => is_directory(other),
    }
}

/// A special thing in words.
pub fn special_words(special: Special) -> &'static [u8]
    ensures { result.now ≡ special_words special }
{
    match special {
        Special::Fifo => b"a pipe",
        Special::Socket => b"a socket",
        Special::Block => b"a block device",
        Special::Char => b"a character device",
    }
}

// Adds what stands there, in words.
#[tactic(auto, unfolding(crate::specs::Pictures::standing_words))]
fn put_standing(text: &mut Bytes, standing: &Standing) -> Result<(), Memory>
    ensures { OnOk result (text.new ≡ text.old ++ standing_words standing.now) }
{
    match standing {
        Standing::Reg => text.extend(b"a file"),
        Standing::Link(target) => {
            text.extend(b"a link to ")?;
            push_shown(text, target.as_slice())
        }
        Standing::Special(special) => text.extend(special_words(*special)),
        Standing::Dir => text.extend(b"a directory"),
    }
}

// Adds the same, and whether something is below.
#[tactic(auto, unfolding(crate::specs::Pictures::whole_words))]
fn put_whole_words(text: &mut Bytes, places: &[Placed], place: &Placed) -> Result<(), Memory>
    ensures { OnOk result (text.new ≡ text.old ++ whole_words places.now place.now) }
{
    put_standing(text, &place.standing)?;
    if has_below(places, place.path.as_slice()) {
        return text.extend(b" and all that is below");
    }
    Ok(())
}

/// Whether a path is one of these (by its bytes).
pub fn is_among(paths: &[Bytes], path: &[u8]) -> bool
    ensures { result ≡ is_among paths.now path.now }
{
    paths.iter().any(|one| one.as_slice() == path)
}

// The mark behind a line.
fn mark_of(marked: bool) -> &'static [u8]
    ensures { result.now ≡ mark_of marked }
{
    if marked { b"   <-- told above" } else { b"" }
}

// Adds how the line of a place begins: its sign and its path.
#[tactic(auto, unfolding(crate::specs::Pictures::place_head))]
fn put_head(text: &mut Bytes, sign: &[u8], path: &[u8]) -> Result<(), Memory>
    ensures { OnOk result (text.new ≡ text.old ++ place_head sign.now path.now) }
{
    text.extend(sign)?;
    push_shown(text, path)?;
    text.extend(b": ")
}

// Adds how it ends: what becomes of the place, and whether it is marked.
#[tactic(auto, unfolding(crate::specs::Pictures::place_tail))]
fn put_tail(text: &mut Bytes, words: &[u8], marked: bool) -> Result<(), Memory>
    ensures { OnOk result (text.new ≡ text.old ++ place_tail words.now marked) }
{
    text.extend(words)?;
    text.extend(mark_of(marked))?;
    text.extend(b"\n")
}

// Adds the line of a place that stays.
#[tactic(auto, unfolding(crate::specs::Pictures::stays_line))]
fn put_stays(text: &mut Bytes, marked: bool, place: &Placed) -> Result<(), Memory>
    ensures { OnOk result (text.new ≡ text.old ++ stays_line marked place.now) }
{
    put_head(text, b"      ", place.path.as_slice())?;
    put_standing(text, &place.standing)?;
    put_tail(text, b", which stays", marked)
}

// Adds the line of a place at which something else stands behind.
#[tactic(auto, unfolding(crate::specs::Pictures::changed_line))]
fn put_changed(text: &mut Bytes, marked: bool, place: &Placed, new: &Standing) -> Result<(), Memory>
    ensures { OnOk result (text.new ≡ text.old ++ changed_line marked place.now new.now) }
{
    put_head(text, b"    ~ ", place.path.as_slice())?;
    put_standing(text, &place.standing)?;
    text.extend(b", becomes ")?;
    put_standing(text, new)?;
    put_tail(text, b"", marked)
}

// Adds the line of what is taken away.
#[tactic(auto, unfolding(crate::specs::Pictures::taken_line))]
fn put_taken(text: &mut Bytes, marked: bool, old: &[Placed], place: &Placed) -> Result<(), Memory>
    ensures { OnOk result (text.new ≡ text.old ++ taken_line marked old.now place.now) }
{
    put_head(text, b"    - ", place.path.as_slice())?;
    put_whole_words(text, old, place)?;
    put_tail(text, b", taken away", marked)
}

// Adds the line of what is made.
#[tactic(auto, unfolding(crate::specs::Pictures::made_line))]
fn put_made(text: &mut Bytes, marked: bool, new: &[Placed], place: &Placed) -> Result<(), Memory>
    ensures { OnOk result (text.new ≡ text.old ++ made_line marked new.now place.now) }
{
    put_head(text, b"    + ", place.path.as_slice())?;
    put_whole_words(text, new, place)?;
    put_tail(text, b", made", marked)
}

// Adds the line of a place that is there before and behind, unless it stays and is not marked.
fn put_kept(text: &mut Bytes, marked: bool, place: &Placed, new: &Standing) -> Result<(), Memory>
    ensures { OnOk result (text.new ≡ text.old ++ kept_line marked place.now new.now) }
{
    if same_standing(&place.standing, new) {
        if marked {
            return put_stays(text, marked, place);
        }
        return Ok(());
    }
    put_changed(text, marked, place, new)
}

// Adds the line of a place that is gone, unless one above it is gone too.
fn put_gone(
    text: &mut Bytes,
    marked: bool,
    old: &[Placed],
    new: &[Placed],
    place: &Placed,
) -> Result<(), Memory>
    ensures { OnOk result (text.new ≡ text.old ++ gone_line marked old.now new.now place.now) }
{
    if is_inner(new, old, place) {
        return Ok(());
    }
    put_taken(text, marked, old, place)
}

// Adds a place of the tree before.
#[tactic(auto, unfolding(crate::specs::Pictures::old_line))]
fn put_old(
    text: &mut Bytes,
    marked: &[Bytes],
    old: &[Placed],
    new: &[Placed],
    place: &Placed,
) -> Result<(), Memory>
    ensures { OnOk result (text.new ≡ text.old ++ old_line marked.now old.now new.now place.now) }
{
    let is_marked = is_among(marked, place.path.as_slice());
    match standing_at(place.path.as_slice(), new) {
        Some(standing) => put_kept(text, is_marked, place, standing),
        None => put_gone(text, is_marked, old, new, place),
    }
}

// Adds a place of the tree after, where nothing stood before.
#[tactic(auto, unfolding(crate::specs::Pictures::new_line))]
fn put_new(
    text: &mut Bytes,
    marked: &[Bytes],
    old: &[Placed],
    new: &[Placed],
    place: &Placed,
) -> Result<(), Memory>
    ensures { OnOk result (text.new ≡ text.old ++ new_line marked.now old.now new.now place.now) }
{
    if is_there(place.path.as_slice(), old) {
        return Ok(());
    }
    if is_inner(old, new, place) {
        return Ok(());
    }
    put_made(text, is_among(marked, place.path.as_slice()), new, place)
}

// Adds the line of a marked path at which nothing stands.
#[tactic(auto, unfolding(crate::specs::Pictures::absent_line))]
fn put_absent(text: &mut Bytes, path: &[u8]) -> Result<(), Memory>
    ensures { OnOk result (text.new ≡ text.old ++ absent_line path.now) }
{
    put_head(text, b"      ", path)?;
    put_tail(text, b"missing, and stays so", true)
}

// Adds the same, unless something stands there before or behind.
#[tactic(auto, unfolding(crate::specs::Pictures::missing_line))]
fn put_missing(text: &mut Bytes, old: &[Placed], new: &[Placed], path: &Bytes) -> Result<(), Memory>
    ensures { OnOk result (text.new ≡ text.old ++ missing_line old.now new.now path.now) }
{
    if is_there(path.as_slice(), old) {
        return Ok(());
    }
    if is_there(path.as_slice(), new) {
        return Ok(());
    }
    put_absent(text, path.as_slice())
}

// Adds the marked paths at which nothing stands.
fn put_all_missing(
    text: &mut Bytes,
    marked: &[Bytes],
    old: &[Placed],
    new: &[Placed],
) -> Result<(), Memory>
    ensures { OnOk result (text.new ≡ text.old ++ flat_map (missing_line old.now new.now) marked.now) }
{
    for path in marked {
        put_missing(text, old, new, path)?;
    }
    Ok(())
}

// Adds the places of the tree before.
fn put_all_old(
    text: &mut Bytes,
    marked: &[Bytes],
    old: &[Placed],
    new: &[Placed],
) -> Result<(), Memory>
    ensures { OnOk result (text.new ≡ text.old ++ flat_map (old_line marked.now old.now new.now) old.now) }
{
    for place in old {
        put_old(text, marked, old, new, place)?;
    }
    Ok(())
}

// Adds the places of the tree after, where nothing stood before.
fn put_all_new(
    text: &mut Bytes,
    marked: &[Bytes],
    old: &[Placed],
    new: &[Placed],
) -> Result<(), Memory>
    ensures { OnOk result (text.new ≡ text.old ++ flat_map (new_line marked.now old.now new.now) new.now) }
{
    for place in new {
        put_new(text, marked, old, new, place)?;
    }
    Ok(())
}

// Whether what stands at a place is the same behind.
fn stays_by(standing: &Standing, new: Option<&Standing>) -> bool
    ensures { result ≡ stays_by standing.now (option_copied new.entry) }
{
    match new {
        Some(new) => same_standing(standing, new),
        None => false,
    }
}

// Whether a place is not drawn.
fn is_left_out(marked: &[Bytes], new: &[Placed], place: &Placed) -> bool
    ensures { result ≡ is_left_out marked.now new.now place.now }
{
    stays_by(&place.standing, standing_at(place.path.as_slice(), new))
        && !is_among(marked, place.path.as_slice())
}

// How many are not drawn.
fn count_left_out(marked: &[Bytes], old: &[Placed], new: &[Placed]) -> usize
    ensures { result ≡ length (filter (is_left_out marked.now new.now) old.now) }
{
    old.iter()
        .filter(|place| is_left_out(marked, new, place))
        .count()
}

// Adds a number between texts.
#[tactic(auto, unfolding(crate::specs::Pictures::counted))]
fn put_counted(text: &mut Bytes, before: &[u8], count: u64, behind: &[u8]) -> Result<(), Memory>
    ensures { OnOk result (text.new ≡ text.old ++ counted before.now count behind.now) }
{
    text.extend(before)?;
    push_number(text, count)?;
    text.extend(behind)
}

// Adds how many are not drawn, if any.
fn put_rest(text: &mut Bytes, count: u64) -> Result<(), Memory>
    ensures { OnOk result (text.new ≡ text.old ++ rest_text count) }
{
    if count == 0 {
        return Ok(());
    }
    put_counted(
        text,
        b"      ",
        count,
        b" more of its places: nothing changes there\n",
    )
}

// Adds what becomes of the places of a tree.
#[tactic(auto, unfolding(crate::specs::Pictures::placed_picture))]
fn put_placed(
    text: &mut Bytes,
    marked: &[Bytes],
    old: &[Placed],
    new: &[Placed],
) -> Result<(), Memory>
    ensures { OnOk result (text.new ≡ text.old ++ placed_picture marked.now old.now new.now) }
{
    put_all_missing(text, marked, old, new)?;
    put_all_old(text, marked, old, new)?;
    put_all_new(text, marked, old, new)?;
    put_rest(text, count_left_out(marked, old, new) as u64)
}

/// Adds what a run makes of the tree that it begins from: a line for each place that is taken away (`-`), at which
/// something else stands behind (`~`) or which is made (`+`), and for each marked one; and how many others there are.
/// What is below a place that is taken away or made has no line of its own.
pub fn put_picture(
    alloc: Global,
    text: &mut Bytes,
    marked: &[Bytes],
    before: &Value,
    after: &Value,
) -> Result<(), Memory>
    ensures { OnOk result (text.new ≡ text.old ++ picture marked.now before.now after.now) }
{
    let old = tree_places(alloc, before)?;
    let new = tree_places(alloc, after)?;
    put_placed(text, marked, old.as_slice(), new.as_slice())
}

// Adds the line of a place of a tree.
#[tactic(auto, unfolding(crate::specs::Pictures::whole_line))]
fn put_whole_line(text: &mut Bytes, place: &Placed) -> Result<(), Memory>
    ensures { OnOk result (text.new ≡ text.old ++ whole_line place.now) }
{
    put_head(text, b"      ", place.path.as_slice())?;
    put_standing(text, &place.standing)?;
    put_tail(text, b"", false)
}

// Adds the lines of places.
fn put_whole_lines(text: &mut Bytes, places: &[Placed]) -> Result<(), Memory>
    ensures { OnOk result (text.new ≡ text.old ++ flat_map whole_line places.now) }
{
    for place in places {
        put_whole_line(text, place)?;
    }
    Ok(())
}

/// Adds all places of a tree, a line each.
pub fn put_whole_tree(alloc: Global, text: &mut Bytes, tree: &Value) -> Result<(), Memory>
    ensures { OnOk result (text.new ≡ text.old ++ whole_tree tree.now) }
{
    let places = tree_places(alloc, tree)?;
    put_whole_lines(text, places.as_slice())
}
