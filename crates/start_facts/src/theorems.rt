//! What holds of the facts of clauses.

ghost use Rattle.start_facts.specs.ClauseFacts.{FactsHold};

/// The facts of a clause hold of every tree that it covers.
pub fn facts_hold()
    ensures { FactsHold }
{}
