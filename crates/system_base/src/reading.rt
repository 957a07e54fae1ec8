// The lines of a base, one by one.
ghost use Rattle.std.specs.Prelude.{◌≡◌, ◌<◌, false, nat_eq, codes, length, IfOk, OnOk, IfSome};
ghost use Rattle.std.specs.List.{starts_with};
ghost use Rattle.package_lists.specs.declared.fault.LineFault.TheVariants.{Line};
ghost use Rattle.package_lists.specs.Faults.{IsAnswer, IsLeft};
ghost use Rattle.package_lists.specs.Paths.{path_of};
ghost use Rattle.system_base.specs.Bases.{is_passed, with_path, with_path_line, first_space, halves, with_own};
ghost use Rattle.system_base.specs.Bases.{with_link_to, with_link, call_end, with_call_end, with_call, with_word};
ghost use Rattle.system_base.specs.Bases.{with_words, with_line, base_of};
ghost use Rattle.system_base.specs.Read.{WordLeft, AreNames};

use crate::base::{Base, KnownPath};
use feature_trees::{Kind, Kinds};
use link_walks::KnownLink;
use package_lists::{LineFault, PathSet, read_path, text_lines};
use script_names::{List, Memory, Path};
use std::alloc::Global;
use utility_calls::{CallEnd, can_be_stated};

/// What a text says of the system, a line each: `dir PATH`, `file PATH`, `absent PATH` and `nodir PATH`, for a
/// directory, a regular file, nothing, and no directory at the path; `link PATH TARGET`, for a symbolic link that leads
/// to a directory, whose target is names joined by single `/`, perhaps with one first; `fits`; `own`, and `own PATH`;
/// `call NAME ok`, `call NAME fails` and `call NAME asks PATH`; `runs`; `removed`; `versions`; `plain`; empty
/// lines and those that begin with `#` are passed over. The last line may lack its newline. The whys: 1, any other line; 2, an
/// earlier line states how the calls of that name end, or the target of a link is not of that form, or leads to a path
/// of more than 64 names.
pub fn read_base(alloc: Global, text: &[u8]) -> Result<Base, LineFault>
    ensures { IsAnswer (base_of text.now) result }
{
    let texts = text_lines(alloc, text)?;
    let mut base = Base::nothing_known(alloc);
    let mut names = PathSet::new(alloc);
    let mut number = 0u64;
    for text in &texts {
        number += 1;
        match add_line(alloc, &mut base, &mut names, number, text) {
            Ok(()) => {}
            Err(LineFault::Line { line, why }) => return Err(LineFault::Line { line, why }),
            Err(LineFault::Memory) => return Err(LineFault::Memory),
        }
    }
    Ok(base)
}

// Adds what a line says. The names are those of the stated calls.
fn add_line(
    alloc: Global,
    base: &mut Base,
    names: &mut PathSet,
    number: u64,
    line: &[u8],
) -> Result<(), LineFault>
    requires { AreNames names.old base.old.calls }
    ensures left { IsLeft (with_line number base.old line.now) base.new result }
    ensures names { OnOk result (AreNames names.new base.new.calls) }
{
    if line.starts_with(b"call ") {
        return add_call(alloc, base, names, number, &line[5..]);
    }
    add_other(alloc, base, number, line)
}

// Adds what a line says that states no call.
fn add_other(alloc: Global, base: &mut Base, number: u64, line: &[u8]) -> Result<(), LineFault>
    requires { starts_with nat_eq line.now (codes "call ") ≡ false }
    ensures left { IsLeft (with_line number base.old line.now) base.new result }
    ensures calls { OnOk result (base.new.calls ≡ base.old.calls) }
{
    if is_passed(line) {
        return Ok(());
    }
    let added = add_word(alloc, base, line)?;
    if added {
        return Ok(());
    }
    add_words(alloc, base, number, line)
}

// Whether a line is passed over.
fn is_passed(line: &[u8]) -> bool
    ensures { result ≡ is_passed line.now }
{
    match line {
        [] => true,
        [byte, ..] => *byte == b'#',
    }
}

// Adds what a line of one word says; false where it is none.
fn add_word(alloc: Global, base: &mut Base, line: &[u8]) -> Result<bool, Memory>
    ensures { IfOk result (λ added. WordLeft (with_word base.old line.now) base.old base.new added) }
{
    if line == b"fits".as_slice() {
        base.fits = true;
        return Ok(true);
    }
    if line == b"own".as_slice() {
        let root = Path::new(List::new(alloc), false);
        base.own.add(root)?;
        return Ok(true);
    }
    if line == b"runs".as_slice() {
        base.runs = true;
        return Ok(true);
    }
    if line == b"removed".as_slice() {
        base.removed = true;
        return Ok(true);
    }
    if line == b"versions".as_slice() {
        base.versions = true;
        return Ok(true);
    }
    if line == b"plain".as_slice() {
        base.plain = true;
        return Ok(true);
    }
    Ok(false)
}

// Adds what a line says whose first word stands before a space, and that states no call.
fn add_words(alloc: Global, base: &mut Base, number: u64, line: &[u8]) -> Result<(), LineFault>
    requires { starts_with nat_eq line.now (codes "call ") ≡ false }
    ensures { IsLeft (with_words number base.old line.now) base.new result }
{
    if line.starts_with(b"link ") {
        return add_link(alloc, base, number, &line[5..]);
    }
    if line.starts_with(b"own ") {
        return add_own(alloc, base, number, &line[4..]);
    }
    add_path_line(alloc, base, number, line)
}

// Where the first space of a text stands.
fn first_space(text: &[u8]) -> Option<usize>
    ensures at { result ≡ first_space text.now }
    ensures within { IfSome result (λ at. at < length text.now) }
{
    text.iter().position(|byte| *byte == b' ')
}

// A fault of a line.
fn fault(number: u64, why: u8) -> LineFault
    ensures { result ≡ Line number why }
{
    LineFault::Line { line: number, why }
}

// Adds the path at which, and below which, the folders of the package hold nothing foreign.
fn add_own(alloc: Global, base: &mut Base, number: u64, text: &[u8]) -> Result<(), LineFault>
    ensures { IsLeft (with_own number base.old (path_of text.now)) base.new result }
{
    match read_path(alloc, text)? {
        None => Err(fault(number, 1)),
        Some(path) => {
            base.own.add(path)?;
            Ok(())
        }
    }
}

// Adds what stands behind `link`.
fn add_link(alloc: Global, base: &mut Base, number: u64, text: &[u8]) -> Result<(), LineFault>
    ensures { IsLeft (with_link number base.old (halves text.now)) base.new result }
{
    match first_space(text) {
        None => Err(fault(number, 1)),
        Some(at) => add_link_to(alloc, base, number, &text[..at], &text[at + 1..]),
    }
}

// Adds the link that stands at the path that is written so.
fn add_link_to(
    alloc: Global,
    base: &mut Base,
    number: u64,
    path: &[u8],
    target: &[u8],
) -> Result<(), LineFault>
    ensures { IsLeft (with_link_to number base.old (path_of path.now) target.now) base.new result }
{
    let path = match read_path(alloc, path)? {
        None => return Err(fault(number, 1)),
        Some(path) => path,
    };
    match KnownLink::new(alloc, path, target)? {
        None => Err(fault(number, 2)),
        Some(link) => {
            base.links.add(link)?;
            Ok(())
        }
    }
}

// Adds what stands behind `call`.
fn add_call(
    alloc: Global,
    base: &mut Base,
    names: &mut PathSet,
    number: u64,
    text: &[u8],
) -> Result<(), LineFault>
    requires { AreNames names.old base.old.calls }
    ensures left { IsLeft (with_call number base.old (halves text.now)) base.new result }
    ensures names { OnOk result (AreNames names.new base.new.calls) }
{
    match first_space(text) {
        None => Err(fault(number, 1)),
        Some(at) => {
            let end = call_end(alloc, &text[at + 1..])?;
            add_call_end(alloc, base, names, number, &text[..at], end)
        }
    }
}

// How a call ends, as the words for it say.
fn call_end(alloc: Global, words: &[u8]) -> Result<Option<CallEnd>, Memory>
    ensures { IfOk result (λ end. end ≡ call_end words.now) }
{
    if words == b"ok".as_slice() {
        return Ok(Some(CallEnd::Succeeds));
    }
    if words == b"fails".as_slice() {
        return Ok(Some(CallEnd::Fails));
    }
    if !words.starts_with(b"asks ") {
        return Ok(None);
    }
    match read_path(alloc, &words[5..])? {
        Some(path) => Ok(Some(CallEnd::Asks(path))),
        None => Ok(None),
    }
}

// Adds how the calls of a name end. (Among 50,000 lines the name is looked up in the set.)
fn add_call_end(
    alloc: Global,
    base: &mut Base,
    names: &mut PathSet,
    number: u64,
    name: &[u8],
    end: Option<CallEnd>,
) -> Result<(), LineFault>
    requires { AreNames names.old base.old.calls }
    ensures left { IsLeft (with_call_end number base.old name.now end) base.new result }
    ensures names { OnOk result (AreNames names.new base.new.calls) }
{
    let end = match end {
        Some(end) => end,
        None => return Err(fault(number, 1)),
    };
    if !can_be_stated(name) {
        return Err(fault(number, 1));
    }
    if names.has(name) {
        return Err(fault(number, 2));
    }
    names.add(name)?;
    base.calls.append(alloc, name, end)?;
    Ok(())
}

// Adds what a line says of a path.
fn add_path_line(alloc: Global, base: &mut Base, number: u64, line: &[u8]) -> Result<(), LineFault>
    ensures { IsLeft (with_path_line number base.old line.now) base.new result }
{
    if line.starts_with(b"dir ") {
        return add_path(alloc, base, number, Kinds::of(Kind::Dir), &line[4..]);
    }
    if line.starts_with(b"file ") {
        return add_path(alloc, base, number, Kinds::of(Kind::Reg), &line[5..]);
    }
    if line.starts_with(b"absent ") {
        return add_path(alloc, base, number, Kinds::of(Kind::Absent), &line[7..]);
    }
    if line.starts_with(b"nodir ") {
        return add_path(alloc, base, number, Kinds::but(Kind::Dir), &line[6..]);
    }
    Err(LineFault::Line {
        line: number,
        why: 1,
    })
}

// Adds which kinds may stand at the path that is written so.
fn add_path(
    alloc: Global,
    base: &mut Base,
    number: u64,
    kinds: Kinds,
    text: &[u8],
) -> Result<(), LineFault>
    ensures { IsLeft (with_path number base.old kinds (path_of text.now)) base.new result }
{
    match read_path(alloc, text)? {
        None => Err(LineFault::Line {
            line: number,
            why: 1,
        }),
        Some(path) => {
            base.known.add(KnownPath { path, kinds })?;
            Ok(())
        }
    }
}
