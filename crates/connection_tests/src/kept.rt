//! An editor whose edits are kept in memory, and at the same time a player whose long poll is pending.
ghost use Rattle.std.specs.Prelude.{⊤, None};

use crate::held::{HEARS_BOTH, Outcome, TWO_EDITS, editor, has_ended, player};
use crate::hiring::{Written, posts_of, run_kept};
use edit_keeping::{Keeps, Lost};
use item_model::Batch;
use share_server::LinkEnd;
use share_workers::{Worker, WorkerEnd};
use std::alloc::{AllocError, Global};
use std::sync::Wait;
use std::test::Fail;
use std::thread::Threads;
use std::time::Clock;

/// Keeps one batch, and loses the next one.
#[derive(Drop)]
struct OneKept {
    has_kept: bool,
    lost: bool,
    faults: u64,
}

impl Keeps for OneKept {
    type Ready = ();

    ghost keeps = { λ _ _. ⊤ };

    ghost is_lost = { λ k. k.lost };

    ghost faults = { λ k. k.faults };

    ghost place = { λ _. None };

    ghost is_for = { λ _ _. ⊤ };

    fn ready(&self, _alloc: Global, _batch: &Batch) -> Result<(), AllocError> {
        Ok(())
    }

    fn keep(&mut self, _ready: ()) -> Result<(), Lost> {
        if !self.has_kept {
            self.has_kept = true;
            return Ok(());
        }
        self.faults = self.faults.saturating_add(1);
        self.lost = true;
        Err(Lost)
    }
}

/// The first edit is answered. The second is lost, and gets no reply.
const LOSES_SECOND: Outcome = Outcome {
    statuses: &[200],
    link: LinkEnd::FileFault,
    worker: WorkerEnd::FileFault,
};

fn have_ended<D>(players: &[Worker<D>], editor: &Worker<D>) -> bool {
    match players {
        [player] => has_ended(player, &HEARS_BOTH) && has_ended(editor, &LOSES_SECOND),
        _ => false,
    }
}

/// Runs a player, and at the same time an editor with a keeper. Returns whether both ended as expected.
fn kept<R: Threads + Wait + Clock + Sync>(rt: &R, alloc: Global) -> Result<bool, AllocError> {
    let written = Written::new();
    let plans = (player(&[]), editor(TWO_EDITS));
    let mut posts = posts_of(alloc, &plans, &written)?;
    let Some(post) = posts.pop() else {
        return Err(AllocError);
    };
    let mut keeper = OneKept {
        has_kept: false,
        lost: false,
        faults: 0,
    };
    let (players, editor) = run_kept(rt, alloc, posts, post, &mut keeper)?;
    Ok(keeper.lost && have_ended(players.as_slice(), &editor))
}

// The first edit wakes the player, and the loss of the second does.
#[test]
fn edits_are_kept_or_end_the_share(rt: HostRuntime) -> Result<(), Fail> {
    assert!(rt; kept(&rt, rt.alloc())?);
    Ok(())
}
