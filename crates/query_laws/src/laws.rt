//! Theorems about all texts. Each function has an empty body; its contract is the theorem.

ghost use Rattle.std.specs.Prelude.{ℕ, List, Ok, IsUtf8};
ghost use Rattle.item_model.specs.QuerySeen.{tree_of};
ghost use Rattle.item_model.specs.declared.query.Query.{Query};
ghost use Rattle.song_query.specs.Answers.{Answers};
ghost use Rattle.song_query.specs.Printing.{printed};

/// If a text in UTF-8 reads as a query, then the query is printed in UTF-8.
pub fn printed_queries_are_utf8()
    ensures { (text : List ℕ) (query : Query) → IsUtf8 text → Answers text (Ok query)
        → IsUtf8 (printed (tree_of query)) }
{}
