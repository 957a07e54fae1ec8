//! What holds of the texts of clauses, and of plain cases.

ghost use Rattle.tree_clauses.specs.ClauseRead.{ClausesReadBack, OneClauseIsTold};
ghost use Rattle.tree_clauses.specs.Plain.{PlainCasesAreSolved};

/// The text of a clause is read as the clause, in either version, and no text tells two clauses.
pub fn clauses_read_back()
    ensures back { ClausesReadBack }
    ensures one { OneClauseIsTold }
{}

/// A plain case is in solved order.
pub fn plain_cases_are_solved()
    ensures { PlainCasesAreSolved }
{}
