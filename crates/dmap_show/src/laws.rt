//! Theorems about all tags. Each function has an empty body; its contract is the theorem.

ghost use Rattle.std.specs.Prelude.{◌≡◌, ◌≤◌, ◌*◌, ℕ, List, [], length, true};
ghost use Rattle.code_table.specs.declared.row.CodeRow.{CodeRow};
ghost use Rattle.dmap_stream.specs.Events.{events_of_all};
ghost use Rattle.dmap_tags.specs.Tree.{Tree, Trees, trees_of};
ghost use Rattle.dmap_tags.specs.Spelling.{spelling, spellings, are_spellable};
ghost use Rattle.dmap_show.specs.Events.{shown_events};
ghost use Rattle.dmap_show.specs.Readable.{Shows};
ghost use Rattle.dmap_show.specs.Shown.{shown_tag, shown_tags};
ghost use Rattle.dmap_show.specs.TextLines.{StopsBehind};

/// The lines of the events of tags are the lines of the tags.
pub fn events_show_their_tags()
    ensures { (at : ℕ) (ts : List Tree)
        → shown_events 0 (events_of_all at (trees_of ts) []) ≡ shown_tags 0 (trees_of ts) }
{}

/// A text shows at most one list of tags.
pub fn a_text_shows_one_list_of_tags()
    ensures { (rows : List CodeRow) (text : List ℕ) (ts us : List Tree) → Shows rows text ts
        → Shows rows text us → ts ≡ us }
{}

/// A text that shows tags is refused at no line.
pub fn shown_texts_are_not_refused()
    ensures { (rows : List CodeRow) (text : List ℕ) (n : ℕ) (ts : List Tree)
        → StopsBehind rows text n → Shows rows text ts → ⊥ }
{}

/// A tag's encoding is at most twice as long as its lines, at any level.
#[tactic(auto, using(crate::proofs::TextLengths::spelling_by_text, crate::proofs::TextLengths::spellings_by_text))]
pub fn a_spelling_is_at_most_twice_its_text()
    ensures tag { (level : ℕ) (t : Tree) → length (spelling t) ≤ 2 * length (shown_tag level t) }
    ensures tags { (level : ℕ) (ts : Trees)
        → length (spellings ts) ≤ 2 * length (shown_tags level ts) }
{}

/// Tags whose lines have at most 64 MiB have encodings: no payload is too long.
#[tactic(auto, using(crate::proofs::TextLengths::spellable_by_text))]
pub fn short_text_has_short_tags()
    ensures { (ts : List Tree) → length (shown_tags 0 (trees_of ts)) ≤ 67108864
        → are_spellable (trees_of ts) ≡ true }
{}
