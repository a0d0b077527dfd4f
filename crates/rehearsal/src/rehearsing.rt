//! The rehearsal.

ghost use Rattle.std.specs.Prelude.{◌≡◌, IfOk, IfErr};
ghost use Rattle.code_table.specs.Standard.{standard_rows};
ghost use Rattle.rehearsal.specs.Edits.{rehearsed};
ghost use Rattle.rehearsal.specs.Histories.{HasFirst, history_of};
ghost use Rattle.rehearsal.specs.Plan.{AreInRange};
ghost use Rattle.rehearsal.specs.Running.{Stands, Mirrors};
ghost use Rattle.rehearsal.specs.Summary.{summary_text};

use crate::plan::Rehearsal;
use crate::run::Run;
use code_table::CodeTable;
use item_model::Entries;
use std::alloc::{AllocError, Global};

/// The result of a rehearsal: the history of the share, and the summary.
#[derive(Drop)]
pub struct Rehearsed {
    pub history: Entries,
    pub summary: Vec<u8>,
}

/// An allocation failed in a rehearsal. The history has the batches made before.
#[derive(Drop)]
pub struct BrokenOff {
    pub history: Entries,
}

/// Edits a share with generated batches while three mirrors follow it, and writes a summary.
///
/// The plan's number starts a generator. Three numbers make an edit: the first selects one of 4,096 items; if the
/// second is a multiple of 4 it drops the item, otherwise it is in the item's name; the third selects one of 16
/// artists and one of 80 years. Each batch makes a revision.
///
/// The mirrors request items: the first all of them after each batch, the second artists that begin with `a1` after
/// each third, the third the year 1983 after each three-hundredth, and each after the last. The base is the mirror's
/// revision; the response is a delta if it is in the window, else a full listing. Every response goes to its mirror
/// as bytes.
///
/// The summary states the revision, the number of items, and for each mirror its rows and how many full listings and
/// deltas it got.
///
/// # Errors
///
/// Returns `BrokenOff` if an allocation fails, with the history of the share so far: the first batches.
pub fn rehearse(alloc: Global, plan: &Rehearsal) -> Result<Rehearsed, BrokenOff>
    requires { AreInRange plan.now }
    ensures history { IfOk result
        (λ done. done.history ≡ history_of
        (rehearsed plan.now.number plan.now.batches plan.now.size)) }
    ensures summary { IfOk result
        (λ done. done.summary.items
        ≡ summary_text plan.now.keep
        (rehearsed plan.now.number plan.now.batches plan.now.size)) }
    ensures part { IfErr result (λ broken. HasFirst
        (rehearsed plan.now.number plan.now.batches plan.now.size) broken.history) }
{
    let (table, mut run) = match begun(alloc, plan) {
        Ok(begun) => begun,
        Err(AllocError) => {
            return Err(BrokenOff {
                history: Entries::new(alloc),
            });
        }
    };
    let played = run.play(alloc, &table, plan);
    let history = run.into_history();
    match played {
        Ok(summary) => Ok(Rehearsed { history, summary }),
        Err(AllocError) => Err(BrokenOff { history }),
    }
}

// Returns the code table for reading, and a share without batches with its mirrors.
fn begun(alloc: Global, plan: &Rehearsal) -> Result<(CodeTable, Run), AllocError>
    requires { AreInRange plan.now }
    ensures table { IfOk result (λ begun. begun.0 ≡ standard_rows) }
    ensures stands { IfOk result (λ begun. Stands plan.now 0 begun.1) }
    ensures mirrors { IfOk result (λ begun. Mirrors plan.now 0 begun.1) }
{
    let table = CodeTable::standard(alloc)?;
    let run = Run::new(alloc, plan)?;
    Ok((table, run))
}
