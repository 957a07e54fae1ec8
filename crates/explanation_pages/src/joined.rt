//! Pieces of a text, one behind the other.

ghost use Rattle.std.specs.Prelude.{◌≡◌, ◌++◌, OnOk};
ghost use Rattle.explanation_pages.specs.Joined.{two, three, four, five, seven, nine};

use script_names::{Bytes, Memory};

/// Adds two pieces.
#[tactic(auto, unfolding(crate::specs::Joined::two))]
pub fn put_two(text: &mut Bytes, a: &[u8], b: &[u8]) -> Result<(), Memory>
    ensures { OnOk result (text.new ≡ text.old ++ two a.now b.now) }
{
    text.extend(a)?;
    text.extend(b)
}

/// Adds three pieces.
#[tactic(auto, unfolding(crate::specs::Joined::three))]
pub fn put_three(text: &mut Bytes, a: &[u8], b: &[u8], c: &[u8]) -> Result<(), Memory>
    ensures { OnOk result (text.new ≡ text.old ++ three a.now b.now c.now) }
{
    text.extend(a)?;
    put_two(text, b, c)
}

/// Adds four pieces.
#[tactic(auto, unfolding(crate::specs::Joined::four))]
pub fn put_four(text: &mut Bytes, a: &[u8], b: &[u8], c: &[u8], d: &[u8]) -> Result<(), Memory>
    ensures { OnOk result (text.new ≡ text.old ++ four a.now b.now c.now d.now) }
{
    put_two(text, a, b)?;
    put_two(text, c, d)
}

/// Adds five pieces.
#[tactic(auto, unfolding(crate::specs::Joined::five))]
pub fn put_five(
    text: &mut Bytes,
    a: &[u8],
    b: &[u8],
    c: &[u8],
    d: &[u8],
    e: &[u8],
) -> Result<(), Memory>
    ensures { OnOk result (text.new ≡ text.old ++ five a.now b.now c.now d.now e.now) }
{
    put_two(text, a, b)?;
    put_three(text, c, d, e)
}

/// Adds seven pieces.
#[tactic(auto, unfolding(crate::specs::Joined::seven))]
pub fn put_seven(
    text: &mut Bytes,
    a: &[u8],
    b: &[u8],
    c: &[u8],
    d: &[u8],
    e: &[u8],
    f: &[u8],
    g: &[u8],
) -> Result<(), Memory>
    ensures { OnOk result (text.new ≡ text.old ++ seven a.now b.now c.now d.now e.now f.now g.now) }
{
    put_three(text, a, b, c)?;
    put_four(text, d, e, f, g)
}

/// Adds nine pieces.
#[tactic(auto, unfolding(crate::specs::Joined::nine))]
pub fn put_nine(
    text: &mut Bytes,
    a: &[u8],
    b: &[u8],
    c: &[u8],
    d: &[u8],
    e: &[u8],
    f: &[u8],
    g: &[u8],
    h: &[u8],
    i: &[u8],
) -> Result<(), Memory>
    ensures { OnOk result (text.new ≡ text.old ++ nine a.now b.now c.now d.now e.now f.now g.now h.now i.now) }
{
    put_four(text, a, b, c, d)?;
    put_five(text, e, f, g, h, i)
}
