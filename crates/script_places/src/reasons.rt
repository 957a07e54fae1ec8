ghost use Rattle.std.specs.Prelude.{◌≡◌};
ghost use Rattle.script_places.specs.ReasonWords.{reason_words, settling_words};

use script_names::Reason;

/// Why a run is not known from a place on, in a sentence for people.
pub fn reason_words(reason: Reason) -> &'static [u8]
    ensures { result.now ≡ reason_words reason }
{
    match reason {
        Reason::Call => b"this command, or this use of it, has no meaning here",
        Reason::Echo => b"what echo prints of these words differs from shell to shell",
        Reason::Link => b"a link stands there or on the way, and it is not followed here",
        Reason::Slash => b"a slash stands behind what is no directory",
        Reason::Root => b"a path is the root directory",
        Reason::Empty => b"a path is empty",
        Reason::DotDot => b"a path has the component ..",
        Reason::Dot => b"the last component of a path is .",
        Reason::Long => b"a text or a path is longer than is looked at here",
        Reason::Glob => b"a pattern of file names: what it matches is not looked at here",
        Reason::Pattern => b"shells read this pattern differently",
        Reason::Pipe => b"a pipeline: what it does is not looked at here",
        Reason::Message => b"error messages would become part of a text",
        Reason::Strict => b"under set -e a command fails in a substitution, where shells differ",
        Reason::Status => b"the operand of exit or return is no number from 0 to 255",
        Reason::Run =>
            b"modes of files, and what pipes, sockets and devices hold, are not looked at here",
        Reason::Same => b"both paths lead to the same place, or may",
        Reason::Conffile => b"a conffile would go where a link, pipe, socket or device stands",
        Reason::Restore => b"what was put in place is not told from what was there before",
    }
}

/// What would decide such a place: a line of the base, or another spelling of the script.
pub fn settling_words(reason: Reason) -> &'static [u8]
    ensures { result.now ≡ settling_words reason }
{
    match reason {
        Reason::Call =>
            b"where the name of the command is written out and its calls can be stated, a base line `call NAME ok` or `call NAME fails` that is true, if the command changes no file that matters",
        Reason::Echo => b"words without a dash at the begin and without a backslash",
        Reason::Link =>
            b"a base line that says what stands there; of a link that leads to a directory, `link PATH TARGET`",
        Reason::Slash =>
            b"a base line that says that a directory stands there, or nothing; or the path without its last slash",
        Reason::Root => b"another path",
        Reason::Empty => b"a path that is not empty",
        Reason::DotDot => b"the path without ..",
        Reason::Dot => b"the path without the last component",
        Reason::Long => b"a shorter text or path",
        Reason::Glob => b"the names of the files, or quotes",
        Reason::Pattern => b"a pattern that all shells read alike",
        Reason::Pipe => b"the commands without the pipe",
        Reason::Message => b"2>&1 outside the substitution",
        Reason::Strict => b"`|| true` in the substitution, or its command outside",
        Reason::Status => b"a number from 0 to 255",
        Reason::Run =>
            b"a base line that says what stands there; that files may be executed, `runs`",
        Reason::Same => b"other paths",
        Reason::Conffile => b"a base line that says what stands there",
        Reason::Restore => b"a report of this version",
    }
}
