//! `share_server`: a connection with a keeper of its edits, and another of the same share.

ghost use Rattle.std.specs.Prelude.{◌≡◌, false};

use crate::connections::{LOGIN, coming, edits, has_statuses, opened};
use edit_keeping::{Keeps, Lost};
use item_model::Batch;
use share_asks::Role;
use share_lock::Bell;
use share_server::{LinkEnd, LinkReport, keep_link, serve_link};
use std::alloc::{AllocError, Global};
use std::process::Abort;
use std::sync::Wait;
use std::test::Fail;
use std::time::Clock;

/// A keeper in memory, which counts the batches. It keeps `most` batches and loses the next one. Its allocation fails
/// for a batch of more than `room` edits.
#[derive(Drop)]
struct Counting {
    most: usize,
    room: usize,
    batches: usize,
    lost: bool,
    faults: u64,
}

impl Keeps for Counting {
    ghost use Rattle.std.specs.Prelude.{⊤, None};

    type Ready = ();

    ghost keeps = { λ _ _. ⊤ };

    ghost is_lost = { λ a. a.lost };

    ghost faults = { λ a. a.faults };

    ghost place = { λ _. None };

    ghost is_for = { λ _ _. ⊤ };

    fn ready(&self, _alloc: Global, batch: &Batch) -> Result<(), AllocError> {
        if batch.edits.as_slice().len() > self.room {
            return Err(AllocError);
        }
        Ok(())
    }

    fn keep(&mut self, _ready: ()) -> Result<(), Lost> {
        if self.batches == self.most {
            self.lost = true;
            self.faults = self.faults.saturating_add(1);
            return Err(Lost);
        }
        self.batches = self.batches.saturating_add(1);
        Ok(())
    }
}

fn keeper_for(most: usize) -> Counting
    ensures { result.lost ≡ false }
{
    Counting {
        most,
        room: 2,
        batches: 0,
        lost: false,
        faults: 0,
    }
}

/// Edits of one record, of two, of three, and of none.
const EDITS: &str =
    "POST /edit HTTP/1.1\r\nContent-Length: 38\r\n\r\nop,kind,id,dmap.itemname\nput,item,7,A\nPOST /edit HTTP/1.1\r\nContent-Length: 51\r\n\r\nop,kind,id,dmap.itemname\nput,item,7,B\nput,item,8,C\nPOST /edit HTTP/1.1\r\nContent-Length: 64\r\n\r\nop,kind,id,dmap.itemname\nput,item,7,B\nput,item,8,C\nput,item,9,D\nPOST /edit HTTP/1.1\r\nContent-Length: 0\r\n\r\n";

/// The reply to an edit that was kept has this many bytes.
const REPLY: usize = 112;

/// How many batches the keeper keeps; of the editor's connection its end and the status of each request; of the player's
/// connection, which comes after it, its end and the status of its login.
type Row = (usize, LinkEnd, &'static [u16], LinkEnd, &'static [u16]);

const ROWS: [Row; 2] = [
    // A batch for which the keeper's allocation fails gets 500, and adds no entry.
    (
        2,
        LinkEnd::Closed,
        &[200, 200, 500, 204],
        LinkEnd::Closed,
        &[200],
    ),
    // A batch that is lost gets no reply, and the share is stopped after it.
    (1, LinkEnd::FileFault, &[200], LinkEnd::Stopped, &[503]),
];

/// Serves both connections. Returns the reports of the editor's and of the player's, and how many bytes the editor's
/// took.
fn reported<R: Wait + Clock>(
    rt: &R,
    alloc: Global,
    keeper: &mut Counting,
) -> Result<(LinkReport, LinkReport, usize), AllocError>
    requires { keeper.old.lost ≡ false }
{
    let (lock, mut first) = opened(alloc)?;
    let mut second = lock.split(rt, &mut first)?;
    let bell = Bell::new();
    let mut link = coming(alloc, &edits(EDITS))?;
    let editors = keep_link(
        rt,
        alloc,
        &lock,
        &bell,
        &mut second,
        &mut link,
        keeper,
        Role::Edit,
        100,
    );
    let taken = link.taken().len();
    let mut link = coming(alloc, &edits(LOGIN))?;
    let players = serve_link(
        rt,
        alloc,
        &lock,
        &bell,
        &mut first,
        &mut link,
        Role::Listen,
        100,
    );
    Ok((editors, players, taken))
}

fn keeps<R: Wait + Clock + Abort>(rt: &R, alloc: Global, row: &Row) -> Result<(), AllocError> {
    let (most, end, statuses, players_end, players_statuses) = *row;
    let mut keeper = keeper_for(most);
    let (editors, players, taken) = reported(rt, alloc, &mut keeper)?;
    assert!(rt; editors.end == end && has_statuses(&editors, statuses));
    assert!(rt; keeper.batches == most);
    assert!(rt; players.end == players_end && has_statuses(&players, players_statuses));
    if keeper.lost {
        assert!(rt; keeper.faults == 1 && taken == REPLY.saturating_mul(statuses.len()));
    }
    Ok(())
}

#[test]
fn edits_are_kept_or_stop_the_share(rt: HostRuntime) -> Result<(), Fail> {
    for row in &ROWS {
        keeps(&rt, rt.alloc(), row)?;
    }
    Ok(())
}
