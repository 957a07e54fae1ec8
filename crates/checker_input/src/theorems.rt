//! What holds of what a request reads.

ghost use Rattle.checker_input.specs.Laws.{OneAnswer};

/// Over files of the same contents a request comes to one task or prediction, or to one refusal.
pub fn one_answer()
    ensures { OneAnswer }
{}
