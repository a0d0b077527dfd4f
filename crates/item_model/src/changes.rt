//! Edits of a share, batches of them, and the entries of its history.

ghost use Rattle.std.specs.Prelude.{◌≡◌, ◌++◌, ◌∷◌, [], OnOk, OnErr, IfOk};

use crate::query::Query;
use crate::shared::SharedRow;
use dmap_tags::Text;
use std::alloc::{AllocError, Global};
use std::marker::Model;

/// One change of the library or of its lists. Ids of items and members are at least 1, ids of lists at least 2.
#[derive(Debug, Drop)]
pub enum Edit {
    PutItem { row: SharedRow },
    DropItem { id: u32 },
    PutList { list: u32, name: Text },
    PutRule { list: u32, name: Text, rule: Query },
    /// Drops a playlist or a smart playlist.
    DropList { list: u32 },
    PutMember { list: u32, member: u32, item: u32 },
    DropMember { list: u32, member: u32 },
}

impl Edit {
    /// Returns a copy, which shares the row with this edit.
    pub fn copy(&self) -> Result<Edit, AllocError>
        ensures { IfOk result (λ c. c ≡ self.now) }
    {
        Ok(match self {
            Edit::PutItem { row } => Edit::PutItem { row: row.share()? },
            Edit::DropItem { id } => Edit::DropItem { id: *id },
            Edit::PutList { list, name } => Edit::PutList {
                list: *list,
                name: name.copy()?,
            },
            Edit::PutRule { list, name, rule } => Edit::PutRule {
                list: *list,
                name: name.copy()?,
                rule: rule.copy()?,
            },
            Edit::DropList { list } => Edit::DropList { list: *list },
            Edit::PutMember { list, member, item } => Edit::PutMember {
                list: *list,
                member: *member,
                item: *item,
            },
            Edit::DropMember { list, member } => Edit::DropMember {
                list: *list,
                member: *member,
            },
        })
    }
}

/// A list of edits.
#[derive(Debug)]
pub struct Edits {
    items: Vec<Edit>,
}

impl Drop for Edits {
    fn drop(self) {
        let Edits { items: _ } = self;
    }
}

impl Model for Edits {
    ghost use Rattle.std.specs.Prelude.{List};
    ghost use Rattle.std.specs.Coded.{codes};
    ghost use Rattle.item_model.specs.QueryCells.{query_coded};
    ghost use Rattle.item_model.specs.declared.changes.Edit.{Edit};

    ghost Value = { List Edit };

    ghost coded = { Prim.hlevel (codes, query_coded) };

    ghost view = { λ a. a.items.items };
}

impl Edits {
    /// Returns an empty list. Does not allocate.
    pub fn new(alloc: Global) -> Edits
        ensures { result ≡ [] }
    {
        Edits {
            items: Vec::new(alloc),
        }
    }

    /// Returns the edits of the vector, without copying them.
    pub fn of(items: Vec<Edit>) -> Edits
        ensures { result ≡ items.items }
    {
        Edits { items }
    }

    pub fn as_slice(&self) -> &[Edit]
        ensures { result.now ≡ self.now }
    {
        self.items.as_slice()
    }

    /// Returns the edits as a vector. Does not allocate.
    pub fn into_vec(self) -> Vec<Edit>
        ensures { result.items ≡ self }
    {
        let Edits { items } = self;
        items
    }

    /// Appends an edit. If it fails, the edits are unchanged.
    pub fn push(&mut self, edit: Edit) -> Result<(), AllocError>
        ensures ok { OnOk result (self.new ≡ self.old ++ edit ∷ []) }
        ensures err { OnErr result (self.new ≡ self.old) }
    {
        self.items.push(edit)?;
        Ok(())
    }

    /// Returns copies of the edits, which share their rows.
    pub fn copy(&self) -> Result<Edits, AllocError>
        ensures { IfOk result (λ c. c ≡ self.now) }
    {
        let items = copies(*self.items.allocator(), self.items.as_slice())?;
        Ok(Edits { items })
    }
}

fn copies(alloc: Global, edits: &[Edit]) -> Result<Vec<Edit>, AllocError>
    ensures { IfOk result (λ v. v.items ≡ edits.now) }
{
    let mut copies = Vec::with_capacity(alloc, edits.len())?;
    for edit in edits {
        copies.push(edit.copy()?)?;
    }
    Ok(copies)
}

/// Edits that are made together or not at all.
#[derive(Debug, Drop)]
pub struct Batch {
    pub edits: Edits,
}

impl Model for Batch {
    ghost use Rattle.std.specs.Prelude.{List};
    ghost use Rattle.std.specs.Coded.{codes};
    ghost use Rattle.item_model.specs.QueryCells.{query_coded};
    ghost use Rattle.item_model.specs.declared.changes.Edit.{Edit};

    ghost Value = { List Edit };

    ghost coded = { Prim.hlevel (codes, query_coded) };

    ghost view = { λ a. a.edits };
}

impl Batch {
    /// Returns a copy of the batch.
    pub fn copy(&self) -> Result<Batch, AllocError>
        ensures { IfOk result (λ c. c ≡ self.now) }
    {
        Ok(Batch {
            edits: self.edits.copy()?,
        })
    }
}

/// An entry of a share's history, added by the handle or connection with number `by`.
#[derive(Drop)]
pub enum Entry {
    Edits { by: u32, batch: Batch },
    Login { by: u32, id: u32 },
    Logout { by: u32, id: u32 },
    Stop { by: u32 },
}

/// A list of entries, oldest first.
pub struct Entries {
    items: Vec<Entry>,
}

impl Drop for Entries {
    fn drop(self) {
        let Entries { items: _ } = self;
    }
}

impl Model for Entries {
    ghost use Rattle.std.specs.Prelude.{List};
    ghost use Rattle.std.specs.Coded.{codes};
    ghost use Rattle.item_model.specs.QueryCells.{query_coded};
    ghost use Rattle.item_model.specs.declared.changes.Entry.{Entry};

    ghost Value = { List Entry };

    ghost coded = { Prim.hlevel (codes, query_coded) };

    ghost view = { λ a. a.items.items };
}

impl Entries {
    /// Returns an empty list. Does not allocate.
    pub fn new(alloc: Global) -> Entries
        ensures { result ≡ [] }
    {
        Entries {
            items: Vec::new(alloc),
        }
    }

    /// Returns the entries of the vector, without copying them.
    pub fn of(items: Vec<Entry>) -> Entries
        ensures { result ≡ items.items }
    {
        Entries { items }
    }

    pub fn as_slice(&self) -> &[Entry]
        ensures { result.now ≡ self.now }
    {
        self.items.as_slice()
    }

    /// Returns the entries as a vector. Does not allocate.
    pub fn into_vec(self) -> Vec<Entry>
        ensures { result.items ≡ self }
    {
        let Entries { items } = self;
        items
    }

    /// Appends an entry. If it fails, the entries are unchanged.
    pub fn push(&mut self, entry: Entry) -> Result<(), AllocError>
        ensures ok { OnOk result (self.new ≡ self.old ++ entry ∷ []) }
        ensures err { OnErr result (self.new ≡ self.old) }
    {
        self.items.push(entry)?;
        Ok(())
    }
}
