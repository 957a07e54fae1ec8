//! What holds of rows and boxes.

ghost use Rattle.fact_boxes.specs.Laws.{BoxesAreApart, BoxesAreMet, FactsAreRows, FactsLie, ToldIsFit};

/// Rows are so of each tree of which their facts hold, each box is met by its members, and what is told of a box is met
/// by no outsider where the box tells these apart.
pub fn boxes_tell()
    ensures rows { FactsAreRows }
    ensures lie { FactsLie }
    ensures met { BoxesAreMet }
    ensures apart { BoxesAreApart }
    ensures told { ToldIsFit }
{}
