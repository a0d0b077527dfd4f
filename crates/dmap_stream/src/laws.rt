//! Theorems about all bytes and tags. Each function has an empty body; its contract is the theorem.

ghost use Rattle.std.specs.Prelude.{◌≡◌, ◌<◌, ◌^◌, ◌++◌, ℕ, List, [], length, true};
ghost use Rattle.std.specs.List.{AllByRecursion};
ghost use Rattle.dmap_tags.specs.Tree.{Tree, trees_of};
ghost use Rattle.dmap_tags.specs.Spelling.{spelling, spellings};
ghost use Rattle.dmap_tags.specs.Proper.{IsProperTag};
ghost use Rattle.code_table.specs.declared.row.CodeRow.{CodeRow};
ghost use Rattle.dmap_stream.specs.Walk.{between, behind, walk_from, walk_of};
ghost use Rattle.dmap_stream.specs.WholeTag.{is_accepted, AreAccepted};
ghost use Rattle.dmap_stream.specs.Events.{events_of, events_of_all};

/// The events of bytes that begin with an accepted tag are the tag's events, and then those of the bytes after it.
pub fn a_tag_in_front_is_read()
    ensures { (rows : List CodeRow) (limit : ℕ) (t : Tree) (rest : List ℕ) → limit < 2 ^ 32
        → is_accepted rows limit t ≡ true → IsProperTag t
        → walk_of rows limit (spelling t ++ rest)
        ≡ behind (events_of 0 t []) (walk_from rows limit (length (spelling t)) [] rest) }
{}

/// The events of bytes that are accepted tags are those of the tags, and the bytes end between two tags.
pub fn tags_are_read()
    ensures { (rows : List CodeRow) (limit : ℕ) (ts : List Tree) → limit < 2 ^ 32
        → AreAccepted rows limit ts
        → walk_of rows limit (spellings (trees_of ts))
        ≡ record { events = events_of_all 0 (trees_of ts) []; ending = between } }
{}

/// Bytes that end between two top tags are accepted tags, one after another.
pub fn sound_bytes_are_tags()
    ensures { (rows : List CodeRow) (limit : ℕ) (bytes : List ℕ)
        → AllByRecursion (λ b. b < 256) bytes
        → (walk_of rows limit bytes).ending ≡ between
        → (ts : List Tree) × (bytes ≡ spellings (trees_of ts)) × AreAccepted rows limit ts }
{}

/// Two accepted tags that begin the same bytes are one, and so is what follows them.
#[tactic(auto, using(crate::proofs::OneTag::one_tag))]
pub fn bytes_begin_with_one_tag()
    ensures { (rows : List CodeRow) (limit : ℕ) (t u : Tree) (more rest : List ℕ) → limit < 2 ^ 32
        → is_accepted rows limit t ≡ true → IsProperTag t → is_accepted rows limit u ≡ true → IsProperTag u
        → spelling t ++ more ≡ spelling u ++ rest → (t ≡ u) × (more ≡ rest) }
{}
