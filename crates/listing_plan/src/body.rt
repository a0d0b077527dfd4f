//! The parts of a listing's body, in their order.

ghost use Rattle.std.specs.Prelude.{◌≡◌, ◌≤◌, ◌+◌, ◌*◌, ◌++◌, ℕ, [], true, length, map};
ghost use Rattle.std.specs.Int.{w32, to_be_bytes};
ghost use Rattle.dmap_tags.specs.Codes.{code, code_bytes};
ghost use Rattle.dmap_tags.specs.Spelling.{spelling, spellings, longest};
ghost use Rattle.dmap_tags.specs.Tree.{leaf, trees_of, U8, U32};
ghost use Rattle.item_model.specs.declared.request.Target.{Target};
ghost use Rattle.share_history.specs.Bodies.{start_tags, key_code, gone_tags};
ghost use Rattle.listing_plan.specs.Held.{is_delta_of, total_of, gone_of};
ghost use Rattle.listing_plan.specs.Limits.{rows_limit, row_limit};
ghost use Rattle.listing_plan.specs.Pages.{Pushes};

use crate::lengths::{HEAD_LEN, NUMBER_LEN};
use crate::page::Page;
use crate::plan::Scope;
use crate::tags::push_head;
use dmap_tags::Code;
use item_model::Target;
use outside_net::{Failed, Sink};
use share_history::key_code;

/// How many bytes a body has before its rows, not counting its own head.
const START_LEN: u64 = 65;

// The length of the body's payload if the tags of its rows have `rows_len` bytes.
pub(crate) fn payload_len(rows_len: u64, scope: &Scope) -> u64
    requires rows { rows_len ≤ row_limit * rows_limit }
    requires gone { length (gone_of scope.now) ≤ rows_limit }
    ensures counted { (target : Target)
        → result ≡ 65 + rows_len + length
        (spellings (trees_of (gone_tags target (is_delta_of scope.now) (gone_of scope.now)))) }
    ensures short { result ≤ longest }
{
    START_LEN + rows_len + gone_len(scope)
}

#[tactic(auto, using(crate::proofs::Bodies::keys_length))]
fn gone_len(scope: &Scope) -> u64
    requires { length (gone_of scope.now) ≤ rows_limit }
    ensures counted { (target : Target)
        → result ≡ length (spellings
        (trees_of (gone_tags target (is_delta_of scope.now) (gone_of scope.now)))) }
    ensures short { result ≤ 8 + 12 * rows_limit }
{
    match scope {
        Scope::Full { .. } => 0,
        Scope::Delta { gone } => HEAD_LEN + NUMBER_LEN * gone.len() as u64,
    }
}

// Puts the tags with which every listing begins.
pub(crate) fn put_start<const N: usize>(
    page: &mut Page<N>,
    scope: &Scope,
    revision: u32,
    listed: u32,
)
    requires { length page.old + 57 ≤ N }
    ensures put { page.new ≡ page.old ++ spellings
        (trees_of (start_tags (is_delta_of scope.now) revision
        (total_of scope.now listed) listed)) }
    ensures longer { length page.new ≡ length page.old + 57 }
{
    page.put_number(Code(*b"mstt"), 200);
    put_mark(page, scope.mark());
    page.put_number(Code(*b"musr"), revision);
    page.put_number(Code(*b"mtco"), scope.total(listed));
    page.put_number(Code(*b"mrco"), listed);
}

// Puts the tag that says whether the listing is a delta.
fn put_mark<const N: usize>(page: &mut Page<N>, mark: u8)
    requires { length page.old + 9 ≤ N }
    ensures put { page.new ≡ page.old ++ spelling (leaf (code "muty") (U8 mark)) }
    ensures longer { length page.new ≡ length page.old + 9 }
{
    page.put_head(Code(*b"muty"), 1);
    page.put(&mark.to_be_bytes());
}

// Pushes the keys that a delta deletes, which come after its rows.
pub(crate) fn push_gone<W: Sink, const N: usize>(
    page: &mut Page<N>,
    sink: &mut W,
    target: Target,
    scope: &Scope,
) -> Result<(), Failed>
    requires wide { row_limit ≤ N }
    requires few { length (gone_of scope.now) ≤ rows_limit }
    ensures pushes { Pushes (spellings
        (trees_of (gone_tags target (is_delta_of scope.now) (gone_of scope.now)))) result
        (W.taken sink.old) (W.taken sink.new) page.old page.new (W.faults sink.old)
        (W.faults sink.new) }
    ensures beside { W.beside_taken sink.new ≡ W.beside_taken sink.old }
{
    match scope {
        Scope::Full { .. } => Ok(()),
        Scope::Delta { gone } => push_deleted(page, sink, target, gone.as_slice()),
    }
}

fn push_deleted<W: Sink, const N: usize>(
    page: &mut Page<N>,
    sink: &mut W,
    target: Target,
    keys: &[u32],
) -> Result<(), Failed>
    requires wide { row_limit ≤ N }
    requires few { length keys.now ≤ rows_limit }
    ensures pushes { Pushes (spellings (trees_of (gone_tags target true keys.now))) result
        (W.taken sink.old) (W.taken sink.new) page.old page.new (W.faults sink.old)
        (W.faults sink.new) }
    ensures beside { W.beside_taken sink.new ≡ W.beside_taken sink.old }
{
    let len = NUMBER_LEN * keys.len() as u64;
    push_head(page, sink, Code(*b"mudl"), len as u32)?;
    push_keys(page, sink, key_code(target), keys)
}

fn push_keys<W: Sink, const N: usize>(
    page: &mut Page<N>,
    sink: &mut W,
    of: Code,
    keys: &[u32],
) -> Result<(), Failed>
    requires { row_limit ≤ N }
    ensures pushes { Pushes (spellings (trees_of (map (λ key. leaf of (U32 key)) keys.now))) result
        (W.taken sink.old) (W.taken sink.new) page.old page.new (W.faults sink.old)
        (W.faults sink.new) }
    ensures beside { W.beside_taken sink.new ≡ W.beside_taken sink.old }
{
    for key in keys {
        push_key(page, sink, of, *key)?;
    }
    Ok(())
}

fn push_key<W: Sink, const N: usize>(
    page: &mut Page<N>,
    sink: &mut W,
    of: Code,
    key: u32,
) -> Result<(), Failed>
    requires { row_limit ≤ N }
    ensures pushes { Pushes (spelling (leaf of (U32 key))) result (W.taken sink.old)
        (W.taken sink.new) page.old page.new (W.faults sink.old) (W.faults sink.new) }
    ensures beside { W.beside_taken sink.new ≡ W.beside_taken sink.old }
{
    page.make_room(sink, 12)?;
    page.put_number(of, key);
    Ok(())
}
