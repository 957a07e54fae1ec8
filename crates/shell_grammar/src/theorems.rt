//! What holds of the grammar, for the layers above.

ghost use Rattle.std.specs.Prelude.{◌≡◌, List as Items, ℕ};
ghost use Rattle.shell_syntax.specs.declared.syntax.Command.{Command as Tree};
ghost use Rattle.shell_lexer.specs.declared.token.Token.{Token as TokenValue};
ghost use Rattle.shell_grammar.specs.declared.fault.ParseFault.{ParseFault as Fault};
ghost use Rattle.shell_grammar.specs.declared.fault.ParseFault.TheVariants.{Syntax};
ghost use Rattle.shell_grammar.specs.Laws.{FewerBegin, OneFirstFault, OneGrammar, OneLevel};
ghost use Rattle.shell_grammar.specs.Laws.{ScriptsBegin, ScriptsPass, StopsAtTheFirst};
ghost use Rattle.shell_grammar.specs.Spelling.{Spells, SpellsWithin, Stopped};

/// The table, by which the parser reads, and the plain grammar say the same of all tokens.
pub fn the_table_is_the_grammar()
    ensures { OneGrammar }
{}

/// Tokens spell at most one script.
pub fn one_script()
    ensures { (end : ℕ) (ts : Items TokenValue) (a b : Tree) → Spells end ts a → Spells end ts b → a ≡ b }
{}

/// What is spelled within 64 levels is spelled.
pub fn within_the_limit()
    ensures { (end : ℕ) (ts : Items TokenValue) (a : Tree) → SpellsWithin end ts a → Spells end ts a }
{}

/// A reading within 64 levels stops with one fault, and with none where a script is spelled within them; and where it
/// stops with a fault of syntax, no script is spelled.
pub fn one_fault()
    ensures one { (end : ℕ) (ts : Items TokenValue) (f g : Fault) → Stopped end ts f → Stopped end ts g → f ≡ g }
    ensures no_script { (end : ℕ) (ts : Items TokenValue) (a : Tree) (f : Fault) → SpellsWithin end ts a
        → Stopped end ts f → ⊥ }
    ensures not_spelled { (end : ℕ) (ts : Items TokenValue) (at : ℕ) (a : Tree) → Stopped end ts (Syntax at)
        → Spells end ts a → ⊥ }
{}

/// The fault with which a reading within 64 levels stops is the first fault of the tokens. They have at most one, and
/// none where they spell a script within these levels.
pub fn faults_have_their_places()
    ensures first { StopsAtTheFirst }
    ensures one { OneFirstFault }
    ensures none { ScriptsPass }
{}

/// What a script's tokens begin with, whatever their substitutions hold, begins one; so do the first tokens of what
/// begins one; and so many levels are open behind them, no other number.
pub fn beginnings_are_closed()
    ensures scripts { ScriptsBegin }
    ensures closed { FewerBegin }
    ensures level { OneLevel }
{}
