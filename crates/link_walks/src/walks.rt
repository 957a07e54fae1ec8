ghost use Rattle.std.specs.Prelude.{◌≡◌, ◌<◌, ◌≤◌, ◌+◌, ◌||◌, [], length, nat_lt, IfOk, IfSome};
ghost use Rattle.std.specs.Option.{option_copied, option_map};
ghost use Rattle.link_walks.specs.Meeting.{met_in, led_by};
ghost use Rattle.link_walks.specs.Reaching.{link_at, met, reach};

use crate::known_link::KnownLink;
use crate::names::joined;
use script_names::{Copied, MAX_NAMES, Memory, Name, Path};
use std::alloc::Global;
use utility_calls::same_names;

/// So many known links are followed at most, one after another (POSIX.1-2017, `<limits.h>`, {_POSIX_SYMLOOP_MAX}).
pub const MOST_LINKS: u32 = 8;

/// Where a path leads along known links.
#[derive(Debug, Drop)]
pub enum Reached {
    /// To this path.
    At(Path),
    /// Nowhere: at the link of this path a ninth would be followed, or the path would have more than 64 names.
    Blocked(Path),
}

// A link that a path meets, and how many names lead to it.
#[derive(Clone, Copy)]
pub struct Meeting<'a> {
    link: &'a KnownLink,
    count: usize,
}

// The first link with this path.
fn link_at<'a>(links: &'a [KnownLink], names: &[Name]) -> Option<&'a KnownLink>
    ensures { option_copied result ≡ link_at links.now names.now }
{
    links
        .iter()
        .find(|link| same_names(link.at().names(), names))
}

// Whether a link at the name behind so many is followed: others follow, or the last one is followed too.
fn is_followed(names: &[Name], last: bool, k: usize) -> bool
    requires { k < length names.now }
    ensures { result ≡ (last || nat_lt (k + 1) (length names.now)) }
{
    last || k + 1 < names.len()
}

// The first link that names meet.
fn met<'a>(links: &'a [KnownLink], last: bool, names: &[Name]) -> Option<Meeting<'a>>
    ensures met { option_map (met_in names.now) result ≡ met links.now last [] names.now }
    ensures within { IfSome result (λ m. m.count ≤ length names.now) }
{
    for k in 0..names.len() {
        let followed = is_followed(names, last, k);
        if !followed {
            return None;
        }
        match link_at(links, &names[..k + 1]) {
            Some(link) => return Some(Meeting { link, count: k + 1 }),
            None => {}
        }
    }
    None
}

// The path with the place of a link that it meets in place of that link's path; None where it has too many names.
fn led(alloc: Global, m: Meeting, p: &Path) -> Result<Option<Path>, Memory>
    requires { m.count ≤ length p.now.names }
    ensures { IfOk result (λ path. path ≡ led_by (met_in p.now.names m.entry) p.now.slash) }
{
    let link = m.link;
    link.is_sound();
    let place = link.place().names();
    let behind = &p.names()[m.count..];
    if place.len() + behind.len() > MAX_NAMES {
        return Ok(None);
    }
    let names = joined(alloc, place, behind)?;
    Ok(Some(Path::new(names, p.slash())))
}

/// Where a path leads along known links: the shortest of its beginnings that is the path of a link is replaced by the
/// place of the first such link, and so on. A link at the path's last name is followed only where `last` is set, and a
/// slash at the end stays.
pub fn reach(alloc: Global, links: &[KnownLink], p: &Path, last: bool) -> Result<Reached, Memory>
    ensures { IfOk result (λ reached. reached ≡ reach links.now last p.now) }
{
    let mut here = p.copy(alloc)?;
    let mut left = MOST_LINKS;
    'links: loop {
        match met(links, last, here.names()) {
            None => return Ok(Reached::At(here)),
            Some(m) => {
                if left == 0 {
                    let at = m.link.at().copy(alloc)?;
                    return Ok(Reached::Blocked(at));
                }
                match led(alloc, m, &here)? {
                    None => {
                        let at = m.link.at().copy(alloc)?;
                        return Ok(Reached::Blocked(at));
                    }
                    Some(path) => here = path,
                }
                left -= 1;
            }
        }
    }
}
