use feature_trees::Special;
use script_names::{Boxed, Bytes, List, Memory, Path, Reason};
use std::alloc::Global;
use utility_calls::acts::Act;
use utility_calls::calls::{Planned, plan};

// `/` and so many bytes, so many times.
fn long_path(alloc: Global, names: usize, bytes: usize) -> Result<Bytes, Memory> {
    let mut text = Bytes::new(alloc);
    for _ in 0..names {
        text.push(b'/')?;
        for _ in 0..bytes {
            text.push(b'n')?;
        }
    }
    Ok(text)
}

// A word as a row writes it: `''` is empty, and `@` begins what is too long to write.
fn word(alloc: Global, text: &[u8]) -> Result<Bytes, Memory> {
    if text == b"''".as_slice() {
        return Ok(Bytes::new(alloc));
    }
    if text == b"@63".as_slice() {
        return long_path(alloc, 63, 1);
    }
    if text == b"@64".as_slice() {
        return long_path(alloc, 64, 1);
    }
    if text == b"@65".as_slice() {
        return long_path(alloc, 65, 1);
    }
    if text == b"@long".as_slice() {
        return long_path(alloc, 1, 256);
    }
    if text == b"@nul".as_slice() {
        return Bytes::from_slice(alloc, b"/a\0b");
    }
    Bytes::from_slice(alloc, text)
}

// The words of a row.
fn words(alloc: Global, text: &str) -> Result<List<Bytes>, Memory> {
    let mut all = List::new(alloc);
    for part in text.split(' ') {
        let one = word(alloc, part.as_bytes())?;
        all.add(one)?;
    }
    Ok(all)
}

pub(crate) fn put_path(out: &mut Bytes, p: &Path) -> Result<(), Memory> {
    if p.names().is_empty() {
        return out.push(b'/');
    }
    if p.names().len() > 60 {
        return out.extend(b"many");
    }
    for name in p.names() {
        out.push(b'/')?;
        out.extend(name.as_slice())?;
    }
    if p.slash() { out.push(b'/') } else { Ok(()) }
}

// The act's name and path.
fn put_named(out: &mut Bytes, name: &[u8], p: &Path) -> Result<(), Memory> {
    out.extend(name)?;
    out.push(b' ')?;
    put_path(out, p)
}

// The letters of `rm`.
fn remove_name(force: bool, deep: bool) -> &'static [u8] {
    match (force, deep) {
        (false, false) => b"Remove",
        (true, false) => b"Remove-f",
        (false, true) => b"Remove-r",
        (true, true) => b"Remove-fr",
    }
}

fn put_symlink(
    out: &mut Bytes,
    p: &Path,
    target: &[u8],
    last: &[u8],
    force: bool,
) -> Result<(), Memory> {
    put_named(out, if force { b"Symlink-f" } else { b"Symlink" }, p)?;
    out.push(b' ')?;
    out.extend(target)?;
    out.push(b' ')?;
    out.extend(last)
}

fn put_move(out: &mut Bytes, a: &Path, b: &Path) -> Result<(), Memory> {
    put_named(out, b"Move", a)?;
    out.push(b' ')?;
    put_path(out, b)
}

fn put_copy(out: &mut Bytes, a: &Path, b: &Path, deep: bool) -> Result<(), Memory> {
    put_named(out, if deep { b"CopyDeep" } else { b"Copy" }, a)?;
    out.push(b' ')?;
    put_path(out, b)
}

// The question whether something is of a special kind.
fn special_name(kind: Special) -> &'static [u8] {
    match kind {
        Special::Fifo => b"IsFifo",
        Special::Socket => b"IsSocket",
        Special::Block => b"IsBlock",
        Special::Char => b"IsChar",
    }
}

pub(crate) fn put_act(out: &mut Bytes, act: &Act) -> Result<(), Memory> {
    match act {
        Act::Exists(p) => put_named(out, b"Exists", p),
        Act::IsReg(p) => put_named(out, b"IsReg", p),
        Act::IsDir(p) => put_named(out, b"IsDir", p),
        Act::IsLink(p) => put_named(out, b"IsLink", p),
        Act::CanRun { p, runs: false } => put_named(out, b"CanRun", p),
        Act::CanRun { p, runs: true } => put_named(out, b"CanRunFile", p),
        Act::IsSpecial { p, kind } => put_named(out, special_name(*kind), p),
        Act::MakeDir(p) => put_named(out, b"MakeDir", p),
        Act::EnsureDir(p) => put_named(out, b"EnsureDir", p),
        Act::RemoveDir(p) => put_named(out, b"RemoveDir", p),
        Act::Remove { p, force, deep } => put_named(out, remove_name(*force, *deep), p),
        Act::Touch(p) => put_named(out, b"Touch", p),
        Act::Symlink {
            p,
            target,
            last,
            force,
        } => put_symlink(out, p, target.as_slice(), last.as_slice(), *force),
        Act::Move { a, b } => put_move(out, a, b),
        Act::Attr(p) => put_named(out, b"Attr", p),
        Act::Copy { a, b, deep } => put_copy(out, a, b, *deep),
        Act::PlaceFile(p) => put_named(out, b"PlaceFile", p),
        Act::PlaceLink { p, target: _ } => put_named(out, b"PlaceLink", p),
        Act::PlaceConf(p) => put_named(out, b"PlaceConf", p),
        Act::Discard(p) => put_named(out, b"Discard", p),
        Act::DiscardDir(p) => put_named(out, b"DiscardDir", p),
    }
}

// The acts of one operand, each behind a comma.
fn put_acts(out: &mut Bytes, acts: &[Act]) -> Result<(), Memory> {
    for act in acts {
        out.push(b',')?;
        put_act(out, act)?;
    }
    Ok(())
}

// The acts of each operand, each list behind a semicolon.
fn put_all(out: &mut Bytes, all: &[List<Act>]) -> Result<(), Memory> {
    for acts in all {
        out.push(b';')?;
        put_acts(out, acts.as_slice())?;
    }
    Ok(())
}

fn reason_text(why: Reason) -> &'static [u8] {
    match why {
        Reason::Call => b"call",
        Reason::Echo => b"echo",
        Reason::Slash => b"slash",
        Reason::Root => b"root",
        Reason::Empty => b"empty",
        Reason::DotDot => b"dotdot",
        Reason::Dot => b"dot",
        Reason::Long => b"long",
        Reason::Same => b"same",
        _ => b"another",
    }
}

// What is printed, with `|` for each newline.
fn put_printed(out: &mut Bytes, text: &[u8]) -> Result<(), Memory> {
    for byte in text {
        out.push(if *byte == b'\n' { b'|' } else { *byte })?;
    }
    Ok(())
}

pub(crate) fn put_plan(out: &mut Bytes, planned: &Planned) -> Result<(), Memory> {
    match planned {
        Planned::Known(status) => out.extend(if *status { b"yes" } else { b"no" }),
        Planned::Ask { act, negate } => {
            out.extend(if *negate { b"not " } else { b"ask " })?;
            put_act(out, act)
        }
        Planned::Print(text) => put_printed(out, text.as_slice()),
        Planned::Change(all) => put_all(out, all.as_slice()),
        Planned::Unspecified(why) => out.extend(reason_text(*why)),
    }
}

// A call, and what it comes to; `|` stands for a newline that it prints.
const ROWS: &str = "true -> yes
true a -b '' -> yes
: -> yes
: a -> yes
false -> no
false a \\ -> no
'' -> call
-- -> call
cpio a b -> call
/bin/mkdir /srv/a -> call
mkdirs /srv/a -> call
MKDIR /srv/a -> call
] -> call
! true -> call
mkdir -> call
mkdir -p -> call
mkdir -- -> call
mkdir /srv/a -> ;,MakeDir /srv/a
mkdir srv/a -> ;,MakeDir /srv/a
mkdir //srv/./a -> ;,MakeDir /srv/a
mkdir /srv/a/ -> ;,MakeDir /srv/a/
mkdir /srv/a/b /srv/c -> ;,MakeDir /srv/a/b;,MakeDir /srv/c
mkdir /srv/a /srv/a -> ;,MakeDir /srv/a;,MakeDir /srv/a
mkdir -p /srv -> ;,EnsureDir /srv
mkdir -p /srv/a/b -> ;,EnsureDir /srv,EnsureDir /srv/a,EnsureDir /srv/a/b
mkdir -p /srv/a/ -> ;,EnsureDir /srv,EnsureDir /srv/a/
mkdir -p /a /b/c -> ;,EnsureDir /a;,EnsureDir /b,EnsureDir /b/c
mkdir -p -p /a -> ;,EnsureDir /a
mkdir -pp /a -> call
mkdir -m /a -> call
mkdir -pm /a -> call
mkdir --parents /a -> call
mkdir -p -- /a -> ;,EnsureDir /a
mkdir -- /a -> ;,MakeDir /a
mkdir -- -p /a -> ;,MakeDir /-p;,MakeDir /a
mkdir -- -- -> ;,MakeDir /--
mkdir -- -- /a -> ;,MakeDir /--;,MakeDir /a
mkdir -p -- -- -> ;,EnsureDir /--
mkdir - -> ;,MakeDir /-
mkdir /a -p -> call
mkdir /a -- -> call
mkdir /a -- /b -> call
mkdir -- /a -p -> ;,MakeDir /a;,MakeDir /-p
mkdir '' -> empty
mkdir / -> root
mkdir // -> root
mkdir . -> dot
mkdir ./ -> dot
mkdir .. -> dotdot
mkdir /a/.. -> dotdot
mkdir /../a -> dotdot
mkdir /a/. -> dot
mkdir /./a -> ;,MakeDir /a
mkdir @nul -> call
mkdir @long -> long
mkdir @64 -> ;,MakeDir many
mkdir @65 -> long
mkdir /a '' -> empty
mkdir /a /b / -> root
mkdir '' -p -> empty
mkdir -x '' -> call
mkdir / '' -> root
mkdir '' / -> empty
rmdir /a -> ;,RemoveDir /a
rmdir /a/ /b -> ;,RemoveDir /a/;,RemoveDir /b
rmdir -> call
rmdir -p /a -> call
rmdir -- /a -> ;,RemoveDir /a
rmdir -- -p -> ;,RemoveDir /-p
rmdir / -> root
rmdir /a -- -> call
rm -> call
rm -f -> call
rm -rf -> call
rm /a -> ;,Remove /a
rm /a/ -> ;,Remove /a/
rm -f /a /b -> ;,Remove-f /a;,Remove-f /b
rm -r /a -> ;,Remove-r /a
rm -R /a -> ;,Remove-r /a
rm -rf /a -> ;,Remove-fr /a
rm -fR /a -> ;,Remove-fr /a
rm -rrRf /a -> ;,Remove-fr /a
rm -f -r /a -> ;,Remove-fr /a
rm -r -R /a -> ;,Remove-r /a
rm -f -f /a -> ;,Remove-f /a
rm -i /a -> call
rm -rfv /a -> call
rm --force /a -> call
rm -f -- -r -> ;,Remove-f /-r
rm /a -f -> call
rm - -> ;,Remove /-
rm -f / -> root
rm -rf /a/.. -> dotdot
rm -rf '' -> empty
touch -> call
touch /a -> ;,Touch /a
touch /a /b -> ;,Touch /a;,Touch /b
touch /a/ -> slash
touch /a /b/ -> slash
touch /b/ '' -> slash
touch '' /b/ -> empty
touch / -> root
touch - -> ;,Touch /-
touch -a /a -> call
touch -- -a -> ;,Touch /-a
touch /a/. -> dot
ln -> call
ln -s -> call
ln /a /b -> call
ln -f /a /b -> call
ln -f '' -> call
ln -- -s /a /b -> call
ln -s /a -> call
ln -s '' -> empty
ln -s '' /b -> empty
ln -s /a /b -> ;,Symlink /b /a a
ln -s a /b/c -> ;,Symlink /b/c a a
ln -s ../x/a// /b -> ;,Symlink /b ../x/a// a
ln -s -s /a /b -> ;,Symlink /b /a a
ln -sf /a /b -> ;,Symlink-f /b /a a
ln -fs /a /b -> ;,Symlink-f /b /a a
ln -s -f /a /b -> ;,Symlink-f /b /a a
ln -f -s /a /b -> ;,Symlink-f /b /a a
ln -ssff /a /b -> ;,Symlink-f /b /a a
ln -sn /a /b -> call
ln -s -- -a /b -> ;,Symlink /b -a -a
ln -s - /b -> ;,Symlink /b - -
ln -s / /b -> call
ln -s . /b -> call
ln -s /a/.. /b -> call
ln -s /a/. /b -> call
ln -s @long /b -> call
ln -s /a / -> root
ln -s /a /b/ -> slash
ln -s /a '' -> empty
ln -s /a -f -> call
ln -s /a @63 -> ;,Symlink many /a a
ln -s /a @64 -> long
ln -s /a /b /c -> call
ln -s /a /b/ /c -> slash
ln -s /a /a -> ;,Symlink /a /a a
ln -sf /a /a -> same
ln -sf srv/a /srv/a -> same
ln -sf /srv/a/ /srv/a -> same
ln -sf /srv/a /srv -> same
ln -sf /srv/./a /srv -> same
ln -sf /srv/x/../a /srv/a -> ;,Symlink-f /srv/a /srv/x/../a a
ln -sf /srv/a/b /srv -> ;,Symlink-f /srv /srv/a/b b
ln -sf /srv /srv/a -> ;,Symlink-f /srv/a /srv srv
ln -sf /a /a/ -> slash
ln -sf /a /a /b -> same
mv -> call
mv /a -> call
mv /a/ -> slash
mv '' -> empty
mv /a /b -> ;,Move /a /b
mv -f /a /b -> ;,Move /a /b
mv -f -f /a /b -> ;,Move /a /b
mv -ff /a /b -> call
mv -i /a /b -> call
mv -- /a /b -> ;,Move /a /b
mv -- -f /b -> ;,Move /-f /b
mv /a -f -> call
mv /a/ /b -> slash
mv /a /b/ -> slash
mv / /b -> root
mv /a / -> root
mv /a '' -> empty
mv /a/b /a -> same
mv /a /a -> same
mv /a/b/c /a -> ;,Move /a/b/c /a
mv /a /a/b -> ;,Move /a /a/b
mv /srv/a srv/a -> same
mv /srv/a /srv/a /srv/c -> same
mv /srv/a /srv/b /srv/c -> call
mv /srv/a /srv/b/ /srv/c -> slash
mv @64 /b -> ;,Move many /b
mv /a @64 -> long
mv @64 @63 -> same
mv /a @63 -> ;,Move /a many
test -> no
test a -> yes
test '' -> no
test ! -> yes
test -e -> yes
test -- -> yes
test ! a -> no
test ! '' -> yes
test ! ! -> no
test -n a -> yes
test -n '' -> no
test -z a -> no
test -z '' -> yes
test -n = -> yes
test -e /a -> ask Exists /a
test -r /a -> ask Exists /a
test -w /a -> ask Exists /a
test -f /a/b/ -> ask IsReg /a/b/
test -d / -> ask IsDir /
test -h /a -> ask IsLink /a
test -L /a -> ask IsLink /a
test -x /a -> ask CanRun /a
test -p /a -> ask IsFifo /a
test -S /a/b/ -> ask IsSocket /a/b/
test -b / -> ask IsBlock /
test -c a -> ask IsChar /a
test -p '' -> no
test -S '' -> no
test -b '' -> no
test -c '' -> no
test -P /a -> call
test -s /a -> call
test -B /a -> call
test -C /a -> call
test -p /a/. -> dot
test -b .. -> dotdot
test -c @nul -> call
test -p -> yes
test ! -S /a -> not IsSocket /a
test ! -b '' -> yes
test ! ! -c /a -> ask IsChar /a
test a -p b -> call
test -e '' -> no
test -x '' -> no
test -e /a/. -> dot
test -e .. -> dotdot
test -d @65 -> long
test -d @64 -> ask IsDir many
test -e @nul -> call
test -s /a -> call
test -q '' -> call
test a b -> call
test = = -> call
test a = a -> yes
test a = b -> no
test a != b -> yes
test a != a -> no
test '' = '' -> yes
test ! = ! -> yes
test ! = x -> no
test -e = -e -> yes
test 1 -eq 1 -> call
test ! -a x -> call
test a -o b -> call
test a == a -> call
test ! -nt /a -> call
test ( a ) -> call
test a b c -> call
test ! -e /a -> not Exists /a
test ! -n '' -> yes
test ! -z '' -> no
test ! -e '' -> yes
test ! ! x -> yes
test ! ! '' -> no
test ! a b -> call
test ! -e .. -> dotdot
test ! a = a -> no
test ! a != a -> yes
test ! ! -e /a -> ask Exists /a
test ! ! ! x -> no
test ! 1 -eq 1 -> call
test a = b c -> call
test -e /a -a b -> call
test ! ! ! ! x -> call
test a b c d e -> call
[ -> call
[ a -> call
[ ] -> no
[ ] ] -> yes
[ a ] -> yes
[ '' ] -> no
[ ! a ] -> no
[ -d /a ] -> ask IsDir /a
[ ! -d /a ] -> not IsDir /a
[ -S /a ] -> ask IsSocket /a
[ ! -p /a ] -> not IsFifo /a
[ a = b ] -> no
[ ! a = b ] -> yes
[ -e /a ] b -> call
[ a b c d e ] -> call
echo -> |
echo '' -> |
echo a -> a|
echo a b -> a b|
echo a '' b -> a  b|
echo a -b -> a -b|
echo - -> echo
echo -n -> echo
echo -n a -> echo
echo -- a -> echo
echo \\ -> echo
echo a\\b -> echo
echo a b\\n -> echo
echo a - -> a -|";

/// The plan of a call.
pub(crate) fn plan_of(alloc: Global, call: &str) -> Result<Boxed<Planned>, Memory> {
    let list = words(alloc, call)?;
    if list.len() == 0 {
        return Boxed::new(alloc, Planned::Unspecified(Reason::Empty));
    }
    let planned = plan(alloc, &list)?;
    Boxed::new(alloc, planned)
}

// The text of the plan of a call.
fn plan_text(alloc: Global, call: &str) -> Result<Bytes, Memory> {
    let planned = plan_of(alloc, call)?;
    let mut text = Bytes::new(alloc);
    put_plan(&mut text, planned.get())?;
    Ok(text)
}

// Whether a row's call comes to what the row says.
pub(crate) fn is_planned(alloc: Global, row: &str) -> Result<bool, Memory> {
    let (call, wanted) = row.split_once(" -> ").unwrap_or((row, "no plan"));
    let text = plan_text(alloc, call)?;
    Ok(text.as_slice() == wanted.as_bytes())
}

#[test]
fn plans_each_row(rt: HostRuntime) {
    for row in ROWS.lines() {
        assert!(rt; matches!(is_planned(rt.alloc(), row), Ok(true)), "{row}");
    }
}
