//! A row on a sheet. Its tags are copied as the sheet has them.

ghost use Rattle.std.specs.Prelude.{◌≡◌, ◌≤◌, ◌+◌, ◌*◌, ◌++◌, ℕ, length, take};
ghost use Rattle.item_model.specs.declared.request.Target.TheVariants.{Items, Container};
ghost use Rattle.listing_plan.specs.Limits.{row_limit, rows_limit, shown_limit};
ghost use Rattle.listing_plan.specs.Pages.{Pushes};
ghost use Rattle.listing_plan.specs.Runs.{IsSheetRow, IsWithin, front_bytes, front_length, row_bytes, run_bytes, sheet_row_tag};

use crate::lengths::{HEAD_LEN, NUMBER_LEN};
use crate::page::Page;
use crate::runs::Run;
use item_model::{SharedRow, Target};
use outside_net::{Failed, Sink};
use row_sheets::{RowTags, Sheet};

/// The length of the head and the key of an item.
const ITEM_FRONT_LEN: u64 = HEAD_LEN + NUMBER_LEN;

/// The length of the head and the keys of a member of a container.
const MEMBER_FRONT_LEN: u64 = HEAD_LEN + 2 * NUMBER_LEN;

/// A row, its index on its sheet, its id, and the runs of those of its tags that a listing shows. The id is a value and
/// nothing reads the row itself, which lies elsewhere in memory than its tags.
#[derive(Clone, Copy)]
pub(crate) struct SheetRow<'a> {
    pub(crate) sheet: &'a Sheet,
    pub(crate) index: usize,
    pub(crate) id: u32,
    pub(crate) shared: &'a SharedRow,
    pub(crate) runs: &'a [Run],
}

impl<'a> SheetRow<'a> {
    /// Returns the length of the row's tag in a listing of `target`.
    #[tactic(auto, using(crate::proofs::SheetFacts::tag_length))]
    pub(crate) fn tag_len(&self, target: Target) -> u64
        requires { IsSheetRow self.now }
        ensures counted { result ≡ length (sheet_row_tag target self.now) }
        ensures short { result ≤ row_limit }
    {
        fronts_len(target, 1) + self.shown_len()
    }

    /// Pushes the row's tag.
    pub(crate) fn push<W: Sink, const N: usize>(
        &self,
        page: &mut Page<N>,
        sink: &mut W,
        target: Target,
    ) -> Result<(), Failed>
        requires wide { row_limit ≤ N }
        requires row { IsSheetRow self.now }
        ensures pushes { Pushes (sheet_row_tag target self.now) result (W.taken sink.old)
            (W.taken sink.new) page.old page.new (W.faults sink.old) (W.faults sink.new) }
        ensures beside { W.beside_taken sink.new ≡ W.beside_taken sink.old }
    {
        let len = self.tag_len(target);
        page.make_room(sink, len as usize)?;
        self.put(page, target, len);
        Ok(())
    }

    // Puts the row's tag, which has `len` bytes.
    fn put<const N: usize>(&self, page: &mut Page<N>, target: Target, len: u64)
        requires row { IsSheetRow self.now }
        requires counted { len ≡ length (sheet_row_tag target self.now) }
        requires short { len ≤ row_limit }
        requires room { length page.old + len ≤ N }
        ensures { page.new ≡ page.old ++ sheet_row_tag target self.now }
    {
        put_front(page, target, (len - HEAD_LEN) as u32, self.id);
        self.put_shown(page);
    }

    // Puts the tags that the listing shows: a copy for each run.
    fn put_shown<const N: usize>(&self, page: &mut Page<N>)
        requires row { IsSheetRow self.now }
        requires room { length page.old + length (row_bytes self.now) ≤ N }
        ensures { page.new ≡ page.old ++ row_bytes self.now }
    {
        for run in self.runs {
            let tags = self.tags(*run);
            page.put_first(tags.bytes, tags.len);
        }
    }

    fn shown_len(&self) -> u64
        requires { IsSheetRow self.now }
        ensures counted { result ≡ length (row_bytes self.now) }
        ensures short { result ≤ shown_limit }
    {
        let mut len = 0;
        for run in self.runs {
            len += self.tags(*run).len as u64;
        }
        len
    }

    // The tags of a run.
    fn tags(&self, run: Run) -> RowTags<'a>
        requires row { IsSheetRow self.now }
        requires within { IsWithin self.now.sheet.now.properties run }
        ensures within { result.len ≤ length result.bytes.now }
        ensures tags { take result.len result.bytes.now
            ≡ run_bytes self.now.sheet.now.properties self.now.shared.now run }
        ensures len { result.len ≡ length
            (run_bytes self.now.sheet.now.properties self.now.shared.now run) }
    {
        self.sheet.row_tags(self.index, run.from, run.to)
    }
}

// Puts what comes before the properties of a row: its head and its keys. The payload of its tag has `len` bytes.
fn put_front<const N: usize>(page: &mut Page<N>, target: Target, len: u32, id: u32)
    requires { length page.old + front_length target ≤ N }
    ensures put { page.new ≡ page.old ++ front_bytes target len id }
    ensures longer { length page.new ≡ length page.old + front_length target }
{
    match target {
        Target::Items => page.put(&item_front(len, id)),
        Target::Container(_) => page.put(&member_front(len, id)),
    }
}

fn item_front(len: u32, id: u32) -> [u8; 20]
    ensures { result ≡ front_bytes Items len id }
{
    let [a, b, c, d] = len.to_be_bytes();
    let [e, f, g, h] = id.to_be_bytes();
    [
        b'm', b'l', b'i', b't', a, b, c, d, b'm', b'i', b'i', b'd', 0, 0, 0, 4, e, f, g, h,
    ]
}

fn member_front(len: u32, id: u32) -> [u8; 32]
    ensures { (container : ℕ) → result ≡ front_bytes (Container container) len id }
{
    let [a, b, c, d] = len.to_be_bytes();
    let [e, f, g, h] = id.to_be_bytes();
    [
        b'm', b'l', b'i', b't', a, b, c, d, b'm', b'c', b't', b'i', 0, 0, 0, 4, e, f, g, h, b'm',
        b'i', b'i', b'd', 0, 0, 0, 4, e, f, g, h,
    ]
}

/// Returns the length of the heads and the keys of `rows` rows.
pub(crate) fn fronts_len(target: Target, rows: u64) -> u64
    requires { rows ≤ rows_limit }
    ensures counted { result ≡ front_length target * rows }
    ensures short { result ≤ 32 * rows }
{
    match target {
        Target::Items => ITEM_FRONT_LEN * rows,
        Target::Container(_) => MEMBER_FRONT_LEN * rows,
    }
}
