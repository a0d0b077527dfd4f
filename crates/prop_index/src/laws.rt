//! What is always so. Each function does nothing; its contract is the fact.

ghost use Rattle.prop_index.specs.Laws.{CandidatesSuffice, ValuesByTheirItems};

/// A listing that starts from the candidates is the listing of all that a query asks for.
pub fn candidates_suffice()
    ensures { CandidatesSuffice }
{}

/// The values that a query leaves are those of which it asks for an item.
pub fn values_by_their_items()
    ensures { ValuesByTheirItems }
{}
