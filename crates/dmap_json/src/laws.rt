//! What holds of all tags and texts. Each function has an empty body; its contract is a theorem.

ghost use Rattle.std.specs.Prelude.{◌≡◌, ◌≢◌, ℕ, List};
ghost use Rattle.serde_json.specs.Written.{compact_text};
ghost use Rattle.dmap_tags.specs.Tree.{Tree};
ghost use Rattle.code_table.specs.declared.row.CodeRow.{CodeRow};
ghost use Rattle.dmap_show.specs.Readable.{IsReadable};
ghost use Rattle.dmap_json.specs.TagObject.{json_of};
ghost use Rattle.dmap_json.specs.Reads.{Reads};
ghost use Rattle.dmap_json.specs.Faults.{Explains};
ghost use Rattle.dmap_json.specs.declared.error.JsonError.{JsonError};
ghost use Rattle.dmap_json.specs.declared.error.JsonError.TheVariants.{Memory};

/// The text of a tag is read as the tag.
pub fn a_tag_is_read_from_its_text()
    ensures { (rows : List CodeRow) (t : Tree) → IsReadable rows t
        → Reads rows (compact_text (json_of t)) t }
{}

/// A text is read as one tag at most.
pub fn a_text_is_one_tag()
    ensures { (rows : List CodeRow) (text : List ℕ) (t u : Tree) → Reads rows text t
        → Reads rows text u → t ≡ u }
{}

/// A text that reads as a tag is refused only if an allocation fails.
pub fn a_tag_has_no_fault()
    ensures { (rows : List CodeRow) (text : List ℕ) (t : Tree) (e : JsonError) → Reads rows text t
        → Explains rows text e → e ≡ Memory }
{}

/// A text is refused for at most one cause, apart from a failed allocation.
pub fn a_text_has_one_fault()
    ensures { (rows : List CodeRow) (text : List ℕ) (e f : JsonError) → Explains rows text e
        → Explains rows text f → e ≢ Memory → f ≢ Memory → e ≡ f }
{}
