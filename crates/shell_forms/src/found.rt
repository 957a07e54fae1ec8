ghost use Rattle.std.specs.Prelude.{◌≡◌};
ghost use Rattle.shell_forms.specs.Forms.{when};
ghost use Rattle.shell_forms.specs.First.{rank};
ghost use Rattle.shell_forms.specs.Soonest.{is_sooner, sooner, soonest};

use shell_syntax::Form;

/// A form, and the byte offset at which it stands.
pub(crate) type Found = (Form, u32);

// The place of a form in the order in which forms are named.
fn rank(form: Form) -> u8
    ensures { result ≡ rank form }
{
    match form {
        Form::Heredoc => 0,
        Form::Arith => 1,
        Form::Background => 2,
        Form::Backquote => 3,
        Form::Param => 4,
        Form::AllArgs => 5,
        Form::Redirect => 6,
        Form::Tilde => 7,
        Form::Brace => 8,
        Form::SubstCase => 9,
        Form::Option => 10,
        Form::Ifs => 11,
        Form::Prefix => 12,
        Form::Export => 13,
        Form::LoopExit => 14,
        Form::Return => 15,
        Form::FunctionPlace => 16,
        Form::FunctionTwice => 17,
        Form::FunctionName => 18,
        Form::CallOrder => 19,
    }
}

// Whether one form stands before another, or at the same offset and is named before it.
fn is_sooner(one: Found, other: Found) -> bool
    ensures { result ≡ is_sooner one other }
{
    one.1 < other.1 || (one.1 == other.1 && rank(one.0) < rank(other.0))
}

// The first of those so far and one more.
fn sooner(first: Option<Found>, one: Found) -> Option<Found>
    ensures { result ≡ sooner first one }
{
    match first {
        None => Some(one),
        Some(first) => {
            if is_sooner(one, first) {
                Some(one)
            } else {
                Some(first)
            }
        }
    }
}

/// The first of those so far and this form, where the test holds.
pub(crate) fn found_if(first: Option<Found>, test: bool, form: Form, at: u32) -> Option<Found>
    ensures { result ≡ soonest first (when test form at) }
{
    if test {
        sooner(first, (form, at))
    } else {
        first
    }
}
