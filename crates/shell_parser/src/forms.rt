//! What the first token makes of a command.

ghost use Rattle.std.specs.Prelude.{◌≡◌, ◌↔◌, IsTrue};
ghost use Rattle.shell_grammar.specs.Forms.{command_form as command_form_of, compound_form as compound_form_of};
ghost use Rattle.shell_grammar.specs.Forms.{item as item_of, has_word as has_word_of, starts as starts_of};
ghost use Rattle.shell_grammar.specs.Forms.{loop_word as loop_word_of, is_name_word as is_name_word_of};
ghost use Rattle.shell_grammar.specs.Forms.{is_word as is_word_of, is_separator as is_separator_of};
ghost use Rattle.shell_grammar.specs.Forms.{link_and as link_and_of, redirection as redirection_of};
ghost use Rattle.shell_grammar.specs.Forms.{ends_arm as ends_arm_of, is_token};

use shell_grammar::{CommandForm, CompoundForm, Item, Look, Reserved};
use shell_syntax::Redirect;

/// What a command is whose first token looks so; None where no command begins with such a token.
pub fn command_form(what: Look) -> Option<CommandForm>
    ensures { result ≡ command_form_of what }
{
    match what {
        Look::LeftParen => Some(CommandForm::Compound),
        Look::Keyword(Reserved::Open) => Some(CommandForm::Compound),
        Look::Keyword(Reserved::If) => Some(CommandForm::Compound),
        Look::Keyword(Reserved::While) => Some(CommandForm::Compound),
        Look::Keyword(Reserved::Until) => Some(CommandForm::Compound),
        Look::Keyword(Reserved::For) => Some(CommandForm::Compound),
        Look::Keyword(Reserved::Case) => Some(CommandForm::Compound),
        Look::Name => Some(CommandForm::Named),
        Look::Redirection(_) => Some(CommandForm::Simple),
        Look::Assignment => Some(CommandForm::Simple),
        Look::Other => Some(CommandForm::Simple),
        _ => None,
    }
}

/// What a compound command is whose first token looks so.
pub fn compound_form(what: Look) -> CompoundForm
    ensures { result ≡ compound_form_of what }
{
    match what {
        Look::LeftParen => CompoundForm::Subshell,
        Look::Keyword(Reserved::If) => CompoundForm::If,
        Look::Keyword(Reserved::For) => CompoundForm::For,
        Look::Keyword(Reserved::Case) => CompoundForm::Case,
        Look::Keyword(Reserved::While) => CompoundForm::Loop { until: false },
        Look::Keyword(Reserved::Until) => CompoundForm::Loop { until: true },
        _ => CompoundForm::Braces,
    }
}

/// What a token that looks so is to a simple command, behind its first word or before it; None where it is no part of
/// one.
pub fn item(behind_word: bool, what: Look) -> Option<Item>
    ensures { result ≡ item_of behind_word what }
{
    match what {
        Look::Assignment => {
            if behind_word {
                return Some(Item::Word);
            }
            Some(Item::Assignment)
        }
        Look::Redirection(which) => Some(Item::Redirection(which)),
        Look::Keyword(_) => Some(Item::Word),
        Look::Name => Some(Item::Word),
        Look::Other => Some(Item::Word),
        _ => None,
    }
}

/// Whether a simple command has a word with this item, where `behind_word` says whether it had one before.
pub fn has_word(behind_word: bool, item: Item) -> bool
    ensures { result ≡ has_word_of behind_word item }
{
    match item {
        Item::Word => true,
        Item::Assignment => behind_word,
        Item::Redirection(_) => behind_word,
    }
}

/// Whether a pipeline may begin with a token that looks so.
pub fn starts(what: Look) -> bool
    ensures { result ≡ starts_of what }
{
    match what {
        Look::Keyword(Reserved::Bang) => true,
        _ => command_form(what).is_some(),
    }
}

/// How the first token of a loop looks: the reserved word `until`, or `while`.
pub fn loop_word(until: bool) -> Look
    ensures looks { result ≡ loop_word_of until }
    ensures token { IsTrue (is_token result) }
{
    if until {
        return Look::Keyword(Reserved::Until);
    }
    Look::Keyword(Reserved::While)
}

/// Whether a token that looks so may be the name of a `for`.
pub fn is_name_word(what: Look) -> bool
    ensures { result ≡ is_name_word_of what }
{
    match what {
        Look::Name => true,
        Look::Keyword(Reserved::Open) => false,
        Look::Keyword(Reserved::Close) => false,
        Look::Keyword(Reserved::Bang) => false,
        Look::Keyword(_) => true,
        _ => false,
    }
}

/// Whether a token that looks so is a word, reserved or not.
pub fn is_word(what: Look) -> bool
    ensures { result ≡ is_word_of what }
{
    match what {
        Look::Keyword(_) => true,
        Look::Name => true,
        Look::Assignment => true,
        Look::Other => true,
        _ => false,
    }
}

/// Whether a token that looks so separates commands.
pub fn is_separator(what: Look) -> bool
    ensures { result ≡ is_separator_of what }
{
    match what {
        Look::Semi => true,
        Look::Newline => true,
        _ => false,
    }
}

/// True for `&&`, false for `||`, None for any other token.
pub fn link_and(what: Look) -> Option<bool>
    ensures { result ≡ link_and_of what }
{
    match what {
        Look::AndAnd => Some(true),
        Look::OrOr => Some(false),
        _ => None,
    }
}

/// The redirection that a token is which looks so, if it is one.
pub fn redirection(what: Look) -> Option<Redirect>
    ensures { result ≡ redirection_of what }
{
    match what {
        Look::Redirection(which) => Some(which),
        _ => None,
    }
}

/// Whether an arm of `case` has no command where a token that looks so stands in its place: `;;`, `esac` or the end.
pub fn ends_arm(what: Look) -> bool
    ensures { result ≡ ends_arm_of what }
{
    match what {
        Look::AtEnd => true,
        Look::DoubleSemi => true,
        Look::Keyword(Reserved::Esac) => true,
        _ => false,
    }
}

/// Whether two looks are the same.
pub fn same_look(what: Look, want: Look) -> bool
    ensures { IsTrue result ↔ (what ≡ want) }
{
    what == want
}
