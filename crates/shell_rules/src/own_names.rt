ghost use Rattle.std.specs.Prelude.{◌≡◌};
ghost use Rattle.std.specs.List.{list_any};
ghost use Rattle.std.specs.Str.{bytes_eq};
ghost use Rattle.shell_rules.specs.OwnNames.{is_shells_own};

// The names, but for those that begin with BASH.
const OWN_NAMES: [&[u8]; 42] = [
    b"IFS",
    b"PATH",
    b"HOME",
    b"PWD",
    b"OLDPWD",
    b"PPID",
    b"OPTIND",
    b"OPTARG",
    b"OPTERR",
    b"PS1",
    b"PS2",
    b"PS3",
    b"PS4",
    b"LINENO",
    b"RANDOM",
    b"SRANDOM",
    b"SECONDS",
    b"EPOCHSECONDS",
    b"EPOCHREALTIME",
    b"UID",
    b"EUID",
    b"GROUPS",
    b"HOSTNAME",
    b"HOSTTYPE",
    b"MACHTYPE",
    b"OSTYPE",
    b"SHELL",
    b"SHELLOPTS",
    b"SHLVL",
    b"TERM",
    b"DIRSTACK",
    b"FUNCNAME",
    b"PIPESTATUS",
    b"COMP_WORDBREAKS",
    b"COLUMNS",
    b"LINES",
    b"HISTCMD",
    b"HISTFILE",
    b"HISTSIZE",
    b"HISTFILESIZE",
    b"MAILCHECK",
    b"_",
];

/// Whether a variable is the shell's own: one that a shell sets or gives a meaning of its own, on which shells are
/// known to differ, by this program's list (POSIX.1-2017, XCU 2.5.3 Shell Variables, and what shells have beside).
pub fn is_shells_own(name: &[u8]) -> bool
    ensures { result ≡ is_shells_own name.now }
{
    name.starts_with(b"BASH") || is_among(name, &OWN_NAMES)
}

// Whether one of the names is this.
fn is_among(name: &[u8], names: &[&[u8]]) -> bool
    ensures { result ≡ list_any (λ own. bytes_eq own.now name.now) names.now }
{
    names.iter().any(|own| *own == name)
}
