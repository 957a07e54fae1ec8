ghost use Rattle.std.specs.Prelude.{◌≡◌, ◌++◌, OnOk, OnErr};
ghost use Rattle.shown_texts.specs.Marks.{reason_name, reason_among, reason_of};

use script_names::{Bytes, Memory, Reason};

/// Adds the name of a reason to a text; for want of memory the text is as before.
pub fn push_reason(text: &mut Bytes, reason: Reason) -> Result<(), Memory>
    ensures ok { OnOk result (text.new ≡ text.old ++ reason_name reason) }
    ensures kept { OnErr result (text.new ≡ text.old) }
{
    text.extend(reason_name(reason))
}

// All reasons.
const REASONS: [Reason; 19] = [
    Reason::Call,
    Reason::Echo,
    Reason::Link,
    Reason::Slash,
    Reason::Root,
    Reason::Empty,
    Reason::DotDot,
    Reason::Dot,
    Reason::Long,
    Reason::Glob,
    Reason::Pattern,
    Reason::Pipe,
    Reason::Message,
    Reason::Strict,
    Reason::Status,
    Reason::Run,
    Reason::Same,
    Reason::Conffile,
    Reason::Restore,
];

// The name of a reason.
fn reason_name(reason: Reason) -> &'static [u8]
    ensures { result.now ≡ reason_name reason }
{
    match reason {
        Reason::Call => b"call",
        Reason::Echo => b"echo",
        Reason::Link => b"link",
        Reason::Slash => b"slash",
        Reason::Root => b"root",
        Reason::Empty => b"empty",
        Reason::DotDot => b"dotdot",
        Reason::Dot => b"dot",
        Reason::Long => b"long",
        Reason::Glob => b"glob",
        Reason::Pattern => b"pattern",
        Reason::Pipe => b"pipe",
        Reason::Message => b"message",
        Reason::Strict => b"strict",
        Reason::Status => b"status",
        Reason::Run => b"run",
        Reason::Same => b"same",
        Reason::Conffile => b"conffile",
        Reason::Restore => b"restore",
    }
}

/// The reason with this name; None where no reason has it.
pub fn read_reason(name: &[u8]) -> Option<Reason>
    ensures { result ≡ reason_of name.now }
{
    reason_among(&REASONS, name)
}

// The first of these reasons with this name.
fn reason_among(reasons: &[Reason], name: &[u8]) -> Option<Reason>
    ensures { result ≡ reason_among reasons.now name.now }
{
    for reason in reasons {
        if reason_name(*reason) == name {
            return Some(*reason);
        }
    }
    None
}
