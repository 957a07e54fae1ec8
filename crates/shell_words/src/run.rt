ghost use Rattle.std.specs.Prelude.{◌≡◌, ◌↔◌, IsTrue};
ghost use Rattle.shell_words.specs.Patterns.{Matches};
ghost use Rattle.shell_words.specs.Runs.{Reaches, is_star};

use crate::pattern::{Item, allows};

// How far the items up to the next `*` go along a string: to that `*`, behind so many of them; to the end of both; or
// there is no match.
#[derive(Clone, Copy)]
pub enum Reach {
    UpToStar(usize),
    Whole,
    Nowhere,
}

// Whether the items match the string. Where the items behind a `*` are reached, what stands before that `*` is
// settled: the next items are tried from one place after another, and never for two choices of an earlier `*`.
pub fn run(items: &[Item], subject: &[u8]) -> bool
    ensures { IsTrue result ↔ Matches items.now subject.now }
{
    let mut from = 0;
    let mut at = 0;
    let mut behind_star = false;
    'tries: loop {
        match reached(&items[from..], &subject[at..]) {
            Reach::Whole => return true,
            Reach::UpToStar(n) => {
                from = from + n + 1;
                at += n;
                behind_star = true;
            }
            Reach::Nowhere => {
                if !behind_star || at == subject.len() {
                    return false;
                }
                at += 1;
            }
        }
    }
}

// How far the items go along the string, byte by byte, up to the next `*`.
fn reached(items: &[Item], text: &[u8]) -> Reach
    ensures { Reaches result items.now text.now }
{
    for (n, item) in items.iter().enumerate() {
        if is_star(item) {
            return Reach::UpToStar(n);
        }
        if n == text.len() || !allows(item, text[n]) {
            return Reach::Nowhere;
        }
    }
    if items.len() == text.len() {
        Reach::Whole
    } else {
        Reach::Nowhere
    }
}

// Whether an item is `*`.
fn is_star(item: &Item) -> bool
    ensures { result ≡ is_star item.now }
{
    match item {
        Item::Byte(_) | Item::Any | Item::Set(_, _) => false,
        Item::Star => true,
    }
}
