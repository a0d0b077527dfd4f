//! Ids by the text of one property, in both of its forms.

ghost use Rattle.std.specs.Prelude.{◌≡◌, ℕ, List, [], OnOk, option_copied};
ghost use Rattle.prop_index.specs.Keys.{key_or_none, IsTextAt};
ghost use Rattle.prop_index.specs.Forms.{Form};
ghost use Rattle.prop_index.specs.Ids.{ids_under, Puts, PutsAtMost, Settles};

use crate::keys::Forms;
use crate::texts::TextIds;
use item_model::{Browse, Row};
use std::alloc::{AllocError, Global};

/// The ids under each text as it is spelled, and under each folded text.
#[derive(Drop)]
pub(crate) struct FormIds {
    pub spelled: TextIds,
    pub any_case: TextIds,
}

impl FormIds {
    ghost use Rattle.prop_index.specs.FormIds.{texts_of};

    pub(crate) fn new(alloc: Global) -> FormIds
        ensures { (form : Form) (text : List ℕ) → ids_under (texts_of result form) text ≡ [] }
    {
        FormIds {
            spelled: TextIds::new(alloc),
            any_case: TextIds::new(alloc),
        }
    }

    /// Puts the id under both forms of the row's text. After an `Err` the id may be under one of them.
    pub(crate) fn put(
        &mut self,
        alloc: Global,
        row: Option<&Row>,
        browse: Browse,
        id: u32,
    ) -> Result<(), AllocError>
        ensures ok { OnOk result ((form : Form)
            → Puts (key_or_none form browse (option_copied row.entry)) id (texts_of self.old form)
            (texts_of self.new form)) }
        ensures part { (form : Form)
            → PutsAtMost (key_or_none form browse (option_copied row.entry)) id
            (texts_of self.old form) (texts_of self.new form) }
        ensures text { IsTextAt browse (option_copied row.entry) }
    {
        let forms = Forms::of(row, browse);
        self.spelled.put(alloc, forms.spelled, id)?;
        self.any_case.put(alloc, forms.any_case.as_str(), id)
    }

    /// Takes the id away from under the forms that it is no longer found by. It does not allocate.
    pub(crate) fn settle(&mut self, kept: Option<&Row>, gone: Option<&Row>, browse: Browse, id: u32)
        ensures { (form : Form) → Settles (key_or_none form browse (option_copied kept.entry))
            (key_or_none form browse (option_copied gone.entry)) id
            (texts_of self.old form) (texts_of self.new form) }
    {
        let stays = Forms::of(kept, browse);
        let goes = Forms::of(gone, browse);
        self.spelled.settle(stays.spelled, goes.spelled, id);
        self.any_case
            .settle(stays.any_case.as_str(), goes.any_case.as_str(), id);
    }
}
