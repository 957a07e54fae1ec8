use script_names::Memory;
use script_places::command_length;
use std::alloc::Global;
use std::test::Fail;

// A text that begins with a command, and the command.
const COMMANDS: &[(&[u8], &[u8])] = &[
    (b"rm -f a; b", b"rm -f a"),
    (b"rm -f a   # why\n", b"rm -f a"),
    (b"a && b", b"a"),
    (b"a || b", b"a"),
    (b"a|b", b"a"),
    (b"a\tb\t\nc", b"a\tb"),
    (b"a >/dev/null 2>&1; b", b"a >/dev/null 2>&1"),
    (b"echo a >&2\n", b"echo a >&2"),
    (b"2>&1 a\n", b"2>&1 a"),
    (b"echo 'a; b' \"c # d\"\n", b"echo 'a; b' \"c # d\""),
    (b"echo \"a\\\"; b\"; c", b"echo \"a\\\"; b\""),
    (
        b"echo \"$(basename \"$x\"; echo \")\")\" ; b",
        b"echo \"$(basename \"$x\"; echo \")\")\"",
    ),
    (b"x=$(a; b) c; d", b"x=$(a; b) c"),
    (b"x=$(a # )\n b) c; d", b"x=$(a # )\n b) c"),
    (b"a \\\n  b; c", b"a \\\n  b"),
    (b"a b \\\n\nc", b"a b"),
    (b"(a; (b)); c", b"(a; (b))"),
    (b"[ -e /a ] && b", b"[ -e /a ]"),
    (b"a#b c #d", b"a#b c"),
    (b"a ${x:-b;c} d; e", b"a ${x:-b;c} d"),
    (b"a \"${x:-b\"; c", b"a \"${x:-b\"; c"),
    (b"a '$(' b; c", b"a '$(' b"),
    (b"case $x in a) b;; esac", b"case $x in a"),
    (b"a) b", b"a"),
    (b"a \\; b; c", b"a \\; b"),
    (b"a\\ ; b", b"a\\ "),
    (b"; a", b""),
    (b"", b""),
];

// Whether the text begins with this command.
fn is_command(alloc: Global, row: &(&[u8], &[u8])) -> Result<bool, Memory> {
    let size = command_length(alloc, row.0)?;
    Ok(row.0.starts_with(row.1) && size == row.1.len())
}

#[test]
fn a_command_ends_at_its_operator(rt: HostRuntime) -> Result<(), Fail> {
    for row in COMMANDS {
        assert!(rt; is_command(rt.alloc(), row)?, "{row:?}");
    }
    Ok(())
}
