//! Makes plans and writes them.

ghost use Rattle.std.specs.Prelude.{◌≡◌, ◌≤◌, ◌*◌, ◌++◌, [], length, true, OnOk, OnErr, if◌then◌else◌};
ghost use Rattle.std.specs.Io.KnownBytes.{Appends};
ghost use Rattle.outside_net.specs.Counts.{Rose};
ghost use Rattle.outside_net.specs.Told.{AppendsPrefix};
ghost use Rattle.dmap_tags.specs.Spelling.{payload, spelling, is_spellable};
ghost use Rattle.share_history.specs.Bodies.{body_tree};
ghost use Rattle.listing_plan.specs.Plans.{AreRowsOf, AreGone, full_keyed, full_plan, delta_plan, plan_bytes, IsWritable};
ghost use Rattle.listing_plan.specs.Held.{is_delta_of, total_of, listed_length, rest_of};
ghost use Rattle.listing_plan.specs.Limits.{row_limit, rows_limit};
ghost use Rattle.listing_plan.specs.Pages.{Pushes};
ghost use Rattle.listing_plan.specs.declared.plan.Plan.TheVariants.{Rows};

use crate::body::{payload_len, push_gone, put_start};
use crate::lengths::HEAD_LEN;
use crate::listed::{Listed, own_ids};
use crate::page::{PAGE_BYTES, Page, SHORT_PAGE_BYTES};
use crate::row::PlanRow;
use crate::tags::{push_measured, tag_len, value_len};
use dmap_tags::{Bytes, Code, Tag};
use item_model::{Meta, ShownProperties, Target};
use outside_net::{Failed, Sink, put_all};
use row_sheets::RowSheets;
use share_history::body_code;
use std::marker::Model;

/// The most rows, and the most deleted keys, that a listing has.
pub const MAX_ROWS: usize = 262_144;

/// What a reply writes.
#[derive(Drop)]
pub enum Plan {
    Empty,
    Plain(Bytes),
    Tagged(Tag),
    Rows(RowPlan),
}

/// Whether a listing has all rows or only what changed.
#[derive(Drop)]
pub(crate) enum Scope {
    /// All rows in the range; `total` is how many there are before it.
    Full { total: u32 },
    /// The rows that changed, and the deleted keys `gone`.
    Delta { gone: Vec<u32> },
}

/// A listing's rows, to be written later. Only `Plan::full`, `Plan::sheets` and `Plan::delta` make one.
pub struct RowPlan {
    target: Target,
    revision: u32,
    scope: Scope,
    rows: Listed,
    shown: ShownProperties,
}

impl Drop for RowPlan {
    fn drop(self) {
        let RowPlan {
            target: _,
            revision: _,
            scope: _,
            rows: _,
            shown: _,
        } = self;
    }
}

impl Model for RowPlan {
    ghost use Rattle.std.specs.Coded.{codes};
    ghost use Rattle.dmap_tags.specs.Cells.{tree_coded};
    ghost use Rattle.listing_plan.specs.Planned.{Planned};

    ghost Value = { Planned };

    ghost coded = { Prim.hlevel (codes, tree_coded) };

    ghost use Rattle.listing_plan.specs.Held.{planned_of, Stands};

    ghost view = { planned_of };

    ghost invariant = { Stands };
}

impl Scope {
    // The value of `muty`.
    pub(crate) fn mark(&self) -> u8
        ensures { result ≡ (if is_delta_of self.now then 1 else 0) }
    {
        match self {
            Scope::Full { .. } => 0,
            Scope::Delta { .. } => 1,
        }
    }

    pub(crate) fn total(&self, listed: u32) -> u32
        ensures { result ≡ total_of self.now listed }
    {
        match self {
            Scope::Full { total } => *total,
            Scope::Delta { .. } => listed,
        }
    }
}

impl Plan {
    /// Plans the full listing with these rows. `total` is how many there are before the range.
    #[tactic(auto, using(crate::proofs::Writing::none_gone, crate::proofs::Bodies::same_rows))]
    pub fn full(target: Target, revision: u32, total: u32, rows: Vec<PlanRow>, meta: Meta) -> Plan
        requires rows { AreRowsOf target rows.items }
        ensures { result ≡ Rows (record {
          target = target;
          listing = full_plan target revision total
              rows.items meta;
        }) }
    {
        let shown = ShownProperties::of(&meta);
        Plan::Rows(RowPlan {
            target,
            revision,
            scope: Scope::Full { total },
            rows: Listed::each(rows, &shown),
            shown,
        })
    }

    /// Plans the full listing of all rows on these sheets. It reads no sheet and does not allocate, so it costs the same
    /// for any number of rows. `body_len` measures their tags, and `write` measures them again.
    #[tactic(auto, using(crate::proofs::Writing::none_gone))]
    pub fn sheets(target: Target, revision: u32, rows: RowSheets, meta: Meta) -> Plan
        requires { length rows ≤ rows_limit }
        ensures { result ≡ Rows (record {
          target = target;
          listing = full_keyed target revision
              (length rows) rows meta;
        }) }
    {
        own_ids(&rows);
        Plan::Rows(RowPlan {
            target,
            revision,
            scope: Scope::Full { total: rows.len() },
            rows: Listed::Sheets(rows),
            shown: ShownProperties::of(&meta),
        })
    }

    /// Plans the delta with these rows and deleted keys.
    #[tactic(auto, using(crate::proofs::Bodies::same_rows))]
    pub fn delta(
        target: Target,
        revision: u32,
        rows: Vec<PlanRow>,
        gone: Vec<u32>,
        meta: Meta,
    ) -> Plan
        requires rows { AreRowsOf target rows.items }
        requires gone { AreGone gone.items }
        ensures { result ≡ Rows (record {
          target = target;
          listing = delta_plan target revision
              rows.items gone.items meta;
        }) }
    {
        let shown = ShownProperties::of(&meta);
        Plan::Rows(RowPlan {
            target,
            revision,
            scope: Scope::Delta { gone },
            rows: Listed::each(rows, &shown),
            shown,
        })
    }

    /// Returns how many bytes the plan writes. Does not allocate.
    pub fn body_len(&self) -> u64
        requires { IsWritable self.now }
        ensures { result ≡ length (plan_bytes self.now) }
    {
        match self {
            Plan::Empty => 0,
            Plan::Plain(bytes) => bytes.as_slice().len() as u64,
            Plan::Tagged(tag) => tag_len(tag),
            Plan::Rows(rows) => rows.body_len(),
        }
    }

    /// Writes the plan. Does not allocate, and has its page, of up to 65,536 bytes, on the stack.
    ///
    /// # Errors
    ///
    /// Returns `Failed` if the sink fails. It may then have taken some of the first bytes.
    #[tactic(auto, using(crate::proofs::Writing::nothing_appended))]
    pub fn write<W: Sink>(&self, sink: &mut W) -> Result<(), Failed>
        requires { IsWritable self.now }
        ensures written { OnOk result
            (Appends (W.taken sink.old) (W.taken sink.new) (plan_bytes self.now)) }
        ensures part { OnErr result (AppendsPrefix (W.taken sink.old) (W.taken sink.new)
            (plan_bytes self.now)) }
        ensures count { OnOk result (W.faults sink.new ≡ W.faults sink.old) }
        ensures failed { OnErr result (Rose (W.faults sink.old) (W.faults sink.new)) }
        ensures beside { W.beside_taken sink.new ≡ W.beside_taken sink.old }
    {
        match self {
            Plan::Empty => Ok(()),
            Plan::Plain(bytes) => put_all(sink, bytes.as_slice()),
            Plan::Tagged(tag) => write_tag(sink, tag),
            Plan::Rows(rows) => rows.write(sink),
        }
    }
}

impl RowPlan {
    fn body_len(&self) -> u64
        ensures { result ≡ length (spelling (body_tree self.now.target self.now.listing)) }
    {
        HEAD_LEN + payload_len(self.rows_len(), &self.scope)
    }

    // The length of the tags of the rows. If the rows are on sheets, it reads each sheet.
    fn rows_len(&self) -> u64
        ensures counted { result ≡ listed_length self.now }
        ensures short { result ≤ row_limit * rows_limit }
    {
        self.rows.bytes_len(self.target, &self.shown)
    }

    fn write<W: Sink>(&self, sink: &mut W) -> Result<(), Failed>
        ensures written { OnOk result
            (Appends (W.taken sink.old) (W.taken sink.new)
            (spelling (body_tree self.now.target self.now.listing))) }
        ensures part { OnErr result (AppendsPrefix (W.taken sink.old) (W.taken sink.new)
            (spelling (body_tree self.now.target self.now.listing))) }
        ensures count { OnOk result (W.faults sink.new ≡ W.faults sink.old) }
        ensures failed { OnErr result (Rose (W.faults sink.old) (W.faults sink.new)) }
        ensures beside { W.beside_taken sink.new ≡ W.beside_taken sink.old }
    {
        let rows_len = self.rows_len();
        if HEAD_LEN + payload_len(rows_len, &self.scope) <= SHORT_PAGE_BYTES as u64 {
            let mut page = Page::<SHORT_PAGE_BYTES>::new();
            return self.write_by(&mut page, sink, rows_len);
        }
        let mut page = Page::<PAGE_BYTES>::new();
        self.write_by(&mut page, sink, rows_len)
    }

    // Writes the body through an empty page. The tags of the rows have `rows_len` bytes.
    fn write_by<W: Sink, const N: usize>(
        &self,
        page: &mut Page<N>,
        sink: &mut W,
        rows_len: u64,
    ) -> Result<(), Failed>
        requires wide { row_limit ≤ N }
        requires empty { page.old ≡ [] }
        requires counted { rows_len ≡ listed_length self.now }
        requires short { rows_len ≤ row_limit * rows_limit }
        ensures written { OnOk result
            (Appends (W.taken sink.old) (W.taken sink.new)
            (spelling (body_tree self.now.target self.now.listing))) }
        ensures part { OnErr result (AppendsPrefix (W.taken sink.old) (W.taken sink.new)
            (spelling (body_tree self.now.target self.now.listing))) }
        ensures count { OnOk result (W.faults sink.new ≡ W.faults sink.old) }
        ensures failed { OnErr result (Rose (W.faults sink.old) (W.faults sink.new)) }
        ensures beside { W.beside_taken sink.new ≡ W.beside_taken sink.old }
    {
        self.put_front(page, rows_len);
        self.push_rest(page, sink)?;
        page.flush(sink)
    }

    // Puts what comes before the rows: the body's head, the tags with which every listing begins, and the head of the rows.
    fn put_front<const N: usize>(&self, page: &mut Page<N>, rows_len: u64)
        requires wide { row_limit ≤ N }
        requires counted { rows_len ≡ listed_length self.now }
        requires short { rows_len ≤ row_limit * rows_limit }
        requires empty { page.old ≡ [] }
        ensures { page.new ++ rest_of self.now
            ≡ spelling (body_tree self.now.target self.now.listing) }
    {
        let len = payload_len(rows_len, &self.scope);
        page.put_head(body_code(self.target), len as u32);
        put_start(page, &self.scope, self.revision, self.rows.count());
        page.put_head(Code(*b"mlcl"), rows_len as u32);
    }

    // Pushes the rows and the keys that a delta deletes.
    fn push_rest<W: Sink, const N: usize>(
        &self,
        page: &mut Page<N>,
        sink: &mut W,
    ) -> Result<(), Failed>
        requires { row_limit ≤ N }
        ensures pushes { Pushes (rest_of self.now) result (W.taken sink.old)
            (W.taken sink.new) page.old page.new (W.faults sink.old) (W.faults sink.new) }
        ensures beside { W.beside_taken sink.new ≡ W.beside_taken sink.old }
    {
        self.rows.push(page, sink, self.target, &self.shown)?;
        push_gone(page, sink, self.target, &self.scope)
    }
}

fn write_tag<W: Sink>(sink: &mut W, tag: &Tag) -> Result<(), Failed>
    requires { is_spellable tag.now ≡ true }
    ensures written { OnOk result
        (Appends (W.taken sink.old) (W.taken sink.new) (spelling tag.now)) }
    ensures part { OnErr result (AppendsPrefix (W.taken sink.old) (W.taken sink.new)
        (spelling tag.now)) }
    ensures count { OnOk result (W.faults sink.new ≡ W.faults sink.old) }
    ensures failed { OnErr result (Rose (W.faults sink.old) (W.faults sink.new)) }
    ensures beside { W.beside_taken sink.new ≡ W.beside_taken sink.old }
{
    let len = value_len(tag);
    if 8 + len as usize <= SHORT_PAGE_BYTES {
        let mut page = Page::<SHORT_PAGE_BYTES>::new();
        return write_tag_by(&mut page, sink, tag, len);
    }
    let mut page = Page::<PAGE_BYTES>::new();
    write_tag_by(&mut page, sink, tag, len)
}

// Writes a tag through an empty page. Its value has `len` bytes.
fn write_tag_by<W: Sink, const N: usize>(
    page: &mut Page<N>,
    sink: &mut W,
    tag: &Tag,
    len: u32,
) -> Result<(), Failed>
    requires wide { row_limit ≤ N }
    requires empty { page.old ≡ [] }
    requires spellable { is_spellable tag.now ≡ true }
    requires counted { len ≡ length (payload tag.now) }
    ensures written { OnOk result
        (Appends (W.taken sink.old) (W.taken sink.new) (spelling tag.now)) }
    ensures part { OnErr result (AppendsPrefix (W.taken sink.old) (W.taken sink.new)
        (spelling tag.now)) }
    ensures count { OnOk result (W.faults sink.new ≡ W.faults sink.old) }
    ensures failed { OnErr result (Rose (W.faults sink.old) (W.faults sink.new)) }
    ensures beside { W.beside_taken sink.new ≡ W.beside_taken sink.old }
{
    push_measured(page, sink, tag, len)?;
    page.flush(sink)
}
