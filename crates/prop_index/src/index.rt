//! The index of a library.

ghost use Rattle.std.specs.Prelude.{◌≡◌, ℕ, List, [], OnOk, OnErr, IfOk, IfSome, Some, None, true, false, not, ◌||◌, ◌&&◌, filter, option_map, option_copied};
ghost use Rattle.std.specs.Map.{keys_of};
ghost use Rattle.item_model.specs.QuerySeen.{tree_of};
ghost use Rattle.item_model.specs.declared.changes.Edit.{Edit};
ghost use Rattle.item_model.specs.declared.request.Target.TheVariants.{Items};
ghost use Rattle.share_history.specs.Keyed.{IsAscending, AreAscending};
ghost use Rattle.share_history.specs.Rows.{library, row_at};
ghost use Rattle.std.specs.List.{list_any};
ghost use Rattle.item_model.specs.declared.item.Row.{Row};
ghost use Rattle.prop_index.specs.IdSets.{has};
ghost use Rattle.item_model.specs.declared.request.Browse.{Browse};
ghost use Rattle.prop_index.specs.Keys.{key_or_none, HasTextsIfAny, HaveTexts, brings, leaves, gives_back};
ghost use Rattle.prop_index.specs.Turns.{TurnTo};
ghost use Rattle.prop_index.specs.Forms.{Form, spelled, finds};
ghost use Rattle.prop_index.specs.Ids.{ids_under, Puts, PutsAtMost, Settles};

use crate::candidates::needed_text;
use crate::changes::{Change, Turn, add, turns_of};
use crate::forms::FormIds;
use crate::keys::folded;
use item_model::{Browse, Query, Row, Texts};
use std::alloc::{AllocError, Global};
use std::collections::BTreeMap;

/// The ids of a library's items by their artist, album, genre and composer.
pub struct PropIndex {
    alloc: Global,
    artists: FormIds,
    albums: FormIds,
    genres: FormIds,
    composers: FormIds,
}

impl Drop for PropIndex {
    fn drop(self) {
        let PropIndex {
            alloc: _,
            artists: _,
            albums: _,
            genres: _,
            composers: _,
        } = self;
    }
}

impl PropIndex {
    ghost use Rattle.prop_index.specs.Values.{values_in};
    ghost use Rattle.prop_index.specs.Candidates.{candidates_in};
    ghost use Rattle.prop_index.specs.FormIds.{texts_of};
    ghost use Rattle.prop_index.specs.Index.{texts_in, found, StandsFor};
    ghost use Rattle.prop_index.specs.Library.{after, Fits, after_all, FitInTurn};

    /// An index of a library without items, without memory.
    pub fn new(alloc: Global) -> PropIndex
        ensures { StandsFor [] result }
    {
        PropIndex {
            alloc,
            artists: FormIds::new(alloc),
            albums: FormIds::new(alloc),
            genres: FormIds::new(alloc),
            composers: FormIds::new(alloc),
        }
    }

    /// Takes in what became of an item. The old row is the one that the library has under the id, if it has one.
    pub fn apply(&mut self, old: Option<&Row>, new: Option<&Row>) -> Result<(), AllocError>
        ensures ok { OnOk result ((rows : List (ℕ × Row)) → IsAscending rows
            → Fits rows (option_copied old.entry) (option_copied new.entry)
            → StandsFor rows self.old → StandsFor (after rows (option_copied old.entry) (option_copied new.entry)) self.new) }
        ensures err { OnErr result ((rows : List (ℕ × Row)) → IsAscending rows
            → Fits rows (option_copied old.entry) (option_copied new.entry)
            → StandsFor rows self.old → StandsFor rows self.new) }
    {
        let mut turns = BTreeMap::new(self.alloc);
        add(&mut turns, old, new)?;
        self.take_in(&turns)
    }

    /// Takes in changes in order, all of them or none. Each has the old row that the library has after those before it.
    pub fn apply_all(&mut self, changes: &[Change]) -> Result<(), AllocError>
        ensures ok { OnOk result ((rows : List (ℕ × Row)) → IsAscending rows
            → FitInTurn rows changes.now
            → StandsFor rows self.old → StandsFor (after_all rows changes.now) self.new) }
        ensures err { OnErr result ((rows : List (ℕ × Row)) → IsAscending rows
            → FitInTurn rows changes.now
            → StandsFor rows self.old → StandsFor rows self.new) }
    {
        let turns = turns_of(self.alloc, changes)?;
        self.take_in(&turns)
    }

    /// The values by which the library is browsed, as they are spelled, each once, in the order of their bytes.
    pub fn values(&self, browse: Browse) -> Result<Texts, AllocError>
        ensures { IfOk result (λ texts. (rows : List (ℕ × Row)) → IsAscending rows
            → StandsFor rows self.now → texts ≡ values_in browse rows) }
    {
        self.ids_by(browse).spelled.texts(self.alloc)
    }

    /// The ids of the items with that value, as it is spelled, ascending.
    pub fn ids_of(&self, browse: Browse, value: &str) -> Result<Vec<u32>, AllocError>
        ensures { IfOk result (λ ids. (rows : List (ℕ × Row)) → IsAscending rows
            → StandsFor rows self.now
            → ids.items ≡ keys_of (filter (λ row. finds spelled browse value.now row.1) rows)) }
    {
        self.ids_by(browse).spelled.ids(self.alloc, value)
    }

    /// The ids of the items that may meet the query, ascending, where it asks for a text without a wildcard. Without such
    /// a text any item may.
    pub fn candidates(&self, query: &Query) -> Result<Option<Vec<u32>>, AllocError>
        ensures found { IfOk result (λ found. (rows : List (ℕ × Row)) → IsAscending rows
            → StandsFor rows self.now
            → option_map (λ ids. ids.items) found ≡ candidates_in (tree_of query.now) rows) }
        ensures ascending { IfOk result (λ found. IfSome found (λ ids. AreAscending ids.items)) }
        // No other item is asked for.
        ensures others { IfOk result
            (λ found. IfSome found (λ ids. (es : List Edit) → StandsFor (library es) self.now
            → (id : ℕ) → has id ids.items ≡ false → row_at es Items (Some query.now) id ≡ None)) }
    {
        let Some((browse, text)) = needed_text(query) else {
            return Ok(None);
        };
        let folded = folded(self.alloc, text)?;
        Ok(Some(
            self.ids_by(browse)
                .any_case
                .ids(self.alloc, folded.as_str())?,
        ))
    }

    fn ids_by(&self, browse: Browse) -> &FormIds
        ensures { (form : Form) → texts_of result.now form ≡ texts_in self.now browse form }
    {
        match browse {
            Browse::Artists => &self.artists,
            Browse::Albums => &self.albums,
            Browse::Genres => &self.genres,
            Browse::Composers => &self.composers,
        }
    }

    // Puts the id under all texts of the row. After an `Err` it may stand under some of them.
    fn put(&mut self, row: Option<&Row>, id: u32) -> Result<(), AllocError>
        ensures ok { OnOk result ((browse : Browse) (form : Form) →
            Puts (key_or_none form browse (option_copied row.entry)) id (texts_in self.old browse form) (texts_in self.new browse form)) }
        ensures part { (browse : Browse) (form : Form) →
            PutsAtMost (key_or_none form browse (option_copied row.entry)) id (texts_in self.old browse form) (texts_in self.new browse form) }
        ensures texts { OnOk result (HasTextsIfAny (option_copied row.entry)) }
    {
        self.artists.put(self.alloc, row, Browse::Artists, id)?;
        self.albums.put(self.alloc, row, Browse::Albums, id)?;
        self.genres.put(self.alloc, row, Browse::Genres, id)?;
        self.composers.put(self.alloc, row, Browse::Composers, id)
    }

    // Takes the id away from under the texts that it is no longer found by. It does not allocate.
    fn settle(&mut self, kept: Option<&Row>, gone: Option<&Row>, id: u32)
        ensures { (browse : Browse) (form : Form) →
            Settles (key_or_none form browse (option_copied kept.entry)) (key_or_none form browse (option_copied gone.entry)) id
            (texts_in self.old browse form) (texts_in self.new browse form) }
    {
        self.artists.settle(kept, gone, Browse::Artists, id);
        self.albums.settle(kept, gone, Browse::Albums, id);
        self.genres.settle(kept, gone, Browse::Genres, id);
        self.composers.settle(kept, gone, Browse::Composers, id);
    }

    // Puts the ids under the texts of their new rows. After an `Err` some of the ids may be there.
    fn put_all(&mut self, turns: &BTreeMap<u32, Turn>) -> Result<(), AllocError>
        ensures ok { OnOk result ((browse : Browse) (form : Form) (text : List ℕ) (id : ℕ) →
            has id (found self.new browse form text) ≡ (has id (found self.old browse form text) || list_any (brings browse form text id) turns.now.entries)) }
        ensures kept { (browse : Browse) (form : Form) (text : List ℕ) (id : ℕ) →
            has id (found self.old browse form text) ≡ true → has id (found self.new browse form text) ≡ true }
        ensures only { (browse : Browse) (form : Form) (text : List ℕ) (id : ℕ) →
            has id (found self.new browse form text) ≡ true → (has id (found self.old browse form text) || list_any (brings browse form text id) turns.now.entries) ≡ true }
        ensures texts { OnOk result (HaveTexts turns.now.entries) }
    {
        for (id, turn) in turns {
            self.put(turn.new, *id)?;
        }
        Ok(())
    }

    // Takes each id away from under the texts of its old row that its new one does not have. It does not allocate.
    fn settle_all(&mut self, turns: &BTreeMap<u32, Turn>)
        ensures { (browse : Browse) (form : Form) (text : List ℕ) (id : ℕ) →
            has id (found self.new browse form text) ≡ (has id (found self.old browse form text) && not (list_any (leaves browse form text id) turns.now.entries)) }
    {
        for (id, turn) in turns {
            self.settle(turn.new, turn.old, *id);
        }
    }

    // Takes each id back from under the texts of its new row that its old one does not have. It does not allocate.
    fn take_back(&mut self, turns: &BTreeMap<u32, Turn>)
        ensures { (browse : Browse) (form : Form) (text : List ℕ) (id : ℕ) →
            has id (found self.new browse form text) ≡ (has id (found self.old browse form text) && not (list_any (gives_back browse form text id) turns.now.entries)) }
    {
        for (id, turn) in turns {
            self.settle(turn.old, turn.new, *id);
        }
    }

    // Takes in the changes, one for each id. All that allocates comes first, and is taken back if it fails.
    fn take_in(&mut self, turns: &BTreeMap<u32, Turn>) -> Result<(), AllocError>
        ensures ok { OnOk result ((rows later : List (ℕ × Row))
            → TurnTo rows later turns.now.entries → StandsFor rows self.old
            → StandsFor later self.new) }
        ensures err { OnErr result ((rows later : List (ℕ × Row))
            → TurnTo rows later turns.now.entries → StandsFor rows self.old
            → StandsFor rows self.new) }
    {
        match self.put_all(turns) {
            Ok(()) => {
                self.settle_all(turns);
                Ok(())
            }
            Err(error) => {
                self.take_back(turns);
                Err(error)
            }
        }
    }
}
