//! Eight players of one share, each with its own worker: each waits for all others, and those whose long polls are
//! pending sleep until a stop wakes them all.

use crate::gated::{Counts, GatedListener};
use crate::held::{MAKES_STOP, Outcome, STOP, TWO_REPLIES, Unclocked, has_ended};
use crate::hiring::{Plan, Post, plain, post_of, run};
use share_asks::Role;
use share_server::LinkEnd;
use share_workers::{Worker, WorkerEnd};
use std::alloc::{AllocError, Global};
use std::sync::Wait;
use std::sync::atomic::{AtomicU64, Ordering};
use std::test::Fail;
use std::thread::Threads;
use std::time::Clock;

const PLAYERS: u32 = 8;

const TWO_LOGINS: &str = "GET /login HTTP/1.1\r\n\r\nGET /login HTTP/1.1\r\n\r\n";

const LOGIN_AND_UPDATE: &str =
    "GET /login HTTP/1.1\r\n\r\nGET /update?session-id=1&revision-number=2 HTTP/1.1\r\n\r\n";

// The length in bytes of the replies to the first login of each player, 112 bytes each.
const ALL_LOGGED_IN: u64 = 896;

// One wait of the long poll of each player.
const ALL_WAITED: u64 = 8;

/// The second request of a player comes when each was logged in.
const SECOND_WAITS: &[u64] = &[0, ALL_LOGGED_IN];

const HEARS_STOP: Outcome = Outcome {
    statuses: &[200, 503],
    link: LinkEnd::Stopped,
    worker: WorkerEnd::Stopped,
};

/// What is counted of all connections together.
#[derive(Drop)]
struct Crowd {
    /// The bytes that were written on them.
    written: AtomicU64,
    /// How often they were probed.
    probes: AtomicU64,
    /// How often their workers waited.
    waits: AtomicU64,
}

impl Crowd {
    fn new() -> Crowd {
        Crowd {
            written: AtomicU64::new(0),
            probes: AtomicU64::new(0),
            waits: AtomicU64::new(0),
        }
    }
}

/// Appends eight players whose connections are those of `plan`. Their reads wait for the bytes on all of them.
fn add_players<'a>(
    alloc: Global,
    plan: &Plan,
    crowd: &'a Crowd,
    posts: &mut Vec<Post<GatedListener<'a>>>,
) -> Result<(), AllocError> {
    let counts = Counts {
        own: &crowd.written,
        other: &crowd.written,
        probes: &crowd.probes,
    };
    for _ in 0..PLAYERS {
        posts.push(post_of(alloc, plan, counts)?)?;
    }
    Ok(())
}

/// Returns eight players whose connections are those of `plan`.
fn players_of<'a>(
    alloc: Global,
    plan: &Plan,
    crowd: &'a Crowd,
) -> Result<Vec<Post<GatedListener<'a>>>, AllocError> {
    let mut posts = Vec::new(alloc);
    add_players(alloc, plan, crowd, &mut posts)?;
    Ok(posts)
}

/// Returns an editor that stops the share when each player's long poll waits, and the players.
fn with_stopper<'a>(
    alloc: Global,
    plans: &(Plan, Plan),
    crowd: &'a Crowd,
) -> Result<Vec<Post<GatedListener<'a>>>, AllocError> {
    let counts = Counts {
        own: &crowd.written,
        other: &crowd.waits,
        probes: &crowd.probes,
    };
    let mut posts = Vec::new(alloc);
    posts.push(post_of(alloc, &plans.0, counts)?)?;
    add_players(alloc, &plans.1, crowd, &mut posts)?;
    Ok(posts)
}

/// Returns a player that sends its second request when each player was logged in.
fn player(input: &'static str) -> Plan {
    Plan {
        reads_wait: SECOND_WAITS,
        ..plain(Role::Listen, input)
    }
}

/// Returns the editor that stops the share, and a player.
fn stopper_and_player() -> (Plan, Plan) {
    let stopper = Plan {
        reads_wait: &[ALL_WAITED],
        ..plain(Role::Edit, STOP)
    };
    (stopper, player(LOGIN_AND_UPDATE))
}

fn all_have_ended<D>(players: &[Worker<D>], outcome: &Outcome) -> bool {
    players.len() == 8 && players.iter().all(|player| has_ended(player, outcome))
}

fn have_met<D>(players: &[Worker<D>]) -> bool {
    all_have_ended(players, &TWO_REPLIES)
}

/// Runs eight players that log in twice. Returns whether all got both replies.
fn meet<R: Threads + Wait + Clock + Sync>(
    rt: &R,
    alloc: Global,
    plan: &Plan,
    crowd: &Crowd,
) -> Result<bool, AllocError> {
    let posts = players_of(alloc, plan, crowd)?;
    let players = run(rt, alloc, posts)?;
    Ok(have_met(players.as_slice()))
}

#[test]
fn eight_links_meet(rt: HostRuntime) -> Result<(), Fail> {
    let crowd = Crowd::new();
    assert!(rt; meet(&rt, rt.alloc(), &player(TWO_LOGINS), &crowd)?);
    Ok(())
}

fn are_stopped<D>(workers: &[Worker<D>]) -> bool {
    match workers {
        [editor, players @ ..] => {
            has_ended(editor, &MAKES_STOP) && all_have_ended(players, &HEARS_STOP)
        }
        [] => false,
    }
}

/// Runs an editor that stops the share when the long polls of eight players are pending. Returns whether all ended as
/// expected.
fn held_until_stop<R: Threads + Wait + Clock + Sync>(
    rt: &R,
    alloc: Global,
    plans: &(Plan, Plan),
    crowd: &Crowd,
) -> Result<bool, AllocError> {
    let posts = with_stopper(alloc, plans, crowd)?;
    let workers = run(rt, alloc, posts)?;
    Ok(are_stopped(workers.as_slice()))
}

// A pending long poll waits after each turn but the last, and then probes its connection. So each takes one turn before
// the stop, and one after it. Under a clock that cannot be read, only the bell wakes it.
#[test]
fn eight_held_updates_take_two_turns_each(rt: HostRuntime) -> Result<(), Fail> {
    let crowd = Crowd::new();
    let unclocked = Unclocked {
        rt: &rt,
        waits: &crowd.waits,
    };
    let is_held = held_until_stop(&unclocked, rt.alloc(), &stopper_and_player(), &crowd)?;
    assert!(rt; is_held);
    assert_eq!(rt; crowd.probes.load(Ordering::SeqCst), ALL_WAITED);
    assert_eq!(rt; crowd.waits.load(Ordering::SeqCst), ALL_WAITED);
    Ok(())
}
