//! The table, and its look-ups.

ghost use Rattle.std.specs.Prelude.{◌≡◌, ◌∷◌, [], ◌++◌, true, false, IfOk, IfSome, OnOk, OnErr};
ghost use Rattle.dmap_tags.specs.Codes.{Four, is_code};
ghost use Rattle.code_table.specs.Rows.{kind_in, row_kind, first_named, is_browse_item, is_browse_list, is_coded, codes_differ};
ghost use Rattle.code_table.specs.Standard.{standard_rows};

use crate::code_number::{is_code, number_of};
use crate::row::CodeRow;
use crate::standard;
use dmap_tags::{Code, Kind};
use std::alloc::{AllocError, Global};
use std::collections::BTreeMap;
use std::marker::Model;

/// Content codes with their kinds and names. No code has two rows.
pub struct CodeTable {
    rows: Vec<CodeRow>,
    /// The kinds by code.
    kinds: BTreeMap<Code, Kind>,
    /// The index at which the row of a code may be, by the code's slot. A reader needs a kind at each tag, and tries
    /// this row first.
    hints: Vec<usize>,
}

impl Drop for CodeTable {
    fn drop(self) {
        let CodeTable {
            rows: _,
            kinds: _,
            hints: _,
        } = self;
    }
}

impl Model for CodeTable {
    ghost use Rattle.std.specs.Prelude.{List};
    ghost use Rattle.code_table.specs.declared.row.CodeRow.{CodeRow};
    ghost use Rattle.code_table.specs.Rows.{AreIndexed};

    ghost Value = { List CodeRow };

    ghost view = { λ a. a.rows.items };

    ghost invariant = { λ a. AreIndexed a.rows.items a.kinds.entries };
}

impl CodeTable {
    /// Returns the 73 codes that DAAP servers publish, with the kinds that this project assigns.
    pub fn standard(alloc: Global) -> Result<CodeTable, AllocError>
        ensures { IfOk result (λ table. table ≡ standard_rows) }
    {
        standard::table_of(alloc, &standard::STANDARD)
    }

    /// Returns a table without rows. Does not allocate.
    pub(crate) fn new(alloc: Global) -> CodeTable
        ensures { result ≡ [] }
    {
        CodeTable {
            rows: Vec::new(alloc),
            kinds: BTreeMap::new(alloc),
            hints: Vec::new(alloc),
        }
    }

    /// Returns whether a row has the code.
    pub(crate) fn has(&self, code: Code) -> bool
        ensures { result ≡ is_coded code self.now }
    {
        self.kinds.contains_key(&code)
    }

    /// Appends a row. If it fails, the table is unchanged.
    pub(crate) fn push(&mut self, row: CodeRow) -> Result<(), AllocError>
        requires { is_coded row.code self.old ≡ false }
        ensures ok { OnOk result (self.new ≡ self.old ++ row ∷ []) }
        ensures err { OnErr result (self.new ≡ self.old) }
    {
        self.rows.reserve(1)?;
        note(&mut self.hints, row.code, self.rows.len())?;
        self.kinds.insert(row.code, row.kind)?;
        self.rows.push_reserved(row);
        Ok(())
    }

    pub(crate) fn allocator(&self) -> Global {
        *self.rows.allocator()
    }

    /// Returns the rows, in their order in `/content-codes`.
    pub fn rows(&self) -> &[CodeRow]
        ensures value { result.now ≡ self.now }
        ensures differ { codes_differ result.now ≡ true }
    {
        self.rows.as_slice()
    }

    /// Returns the kind of a tag's value. `parent` is the code of the list around the tag, `None` at the top.
    #[inline(always)]
    pub fn kind_of(&self, parent: Option<Code>, code: Code) -> Kind
        ensures { result ≡ kind_in self.now parent code }
    {
        if is_browse_item(parent, code) {
            Kind::Text
        } else {
            self.row_kind(code)
        }
    }

    /// Returns the kind in the row of the code, or opaque if there is no row.
    #[inline(always)]
    fn row_kind(&self, code: Code) -> Kind
        ensures { result ≡ row_kind self.now code }
    {
        match self.hinted(code) {
            Some(row) if is_code(row.code, code) => row.kind,
            _ => self.searched(code),
        }
    }

    /// Returns the row that is tried first for a code. It may be another code's.
    #[inline(always)]
    fn hinted(&self, code: Code) -> Option<&CodeRow>
        ensures { IfSome result
            (λ row. (c : Four) → is_code row.now.code c ≡ true → row_kind self.now c ≡ row.now.kind) }
    {
        self.rows.get(*self.hints.get(slot(code))?)
    }

    #[cold]
    #[inline(never)]
    fn searched(&self, code: Code) -> Kind
        ensures { result ≡ row_kind self.now code }
    {
        self.kinds.get(&code).copied().unwrap_or(Kind::Opaque)
    }

    /// Returns the code of the first row with the name.
    pub fn by_name(&self, name: &str) -> Option<Code>
        ensures { result ≡ first_named name.now self.now }
    {
        for row in self.rows.as_slice() {
            if row.name.as_str() == name {
                return Some(row.code);
            }
        }
        None
    }

    /// Returns a copy of the table.
    pub fn copy(&self) -> Result<CodeTable, AllocError>
        ensures { IfOk result (λ table. table ≡ self.now) }
    {
        let rows = self.rows();
        let mut table = CodeTable::new(self.allocator());
        for row in rows {
            table.push(row.copy()?)?;
        }
        Ok(table)
    }
}

/// The number of slots for hints.
const SLOTS: usize = 256;

/// Returns the slot of a code. Each of the 73 standard codes has its own.
#[inline(always)]
fn slot(code: Code) -> usize {
    (number_of(code).wrapping_mul(0xcbc5_21df) >> 24) as usize
}

/// Stores `place`, the index of the code's row, in the code's slot.
fn note(hints: &mut Vec<usize>, code: Code, place: usize) -> Result<(), AllocError> {
    hints.resize(SLOTS, 0)?;
    if let Some(hint) = hints.get_mut(slot(code)) {
        *hint = place;
    }
    Ok(())
}

/// Returns whether `code` is an `mlit` in a browse listing, whose value is a text.
#[inline(always)]
fn is_browse_item(parent: Option<Code>, code: Code) -> bool
    ensures { result ≡ is_browse_item parent code }
{
    match parent {
        Some(list) => is_code(code, Code(*b"mlit")) && is_browse_list(list),
        None => false,
    }
}

fn is_browse_list(list: Code) -> bool
    ensures { result ≡ is_browse_list list }
{
    list == Code(*b"abar")
        || list == Code(*b"abal")
        || list == Code(*b"abgn")
        || list == Code(*b"abcp")
}
