//! Players whose long polls are pending, and what wakes them on another connection, each in its own thread.

use crate::gated::Counts;
use crate::hiring::{INFO, Plan, TWO_INFOS, Written, plain, post_of, posts_of, run};
use share_asks::Role;
use share_server::{LinkEnd, LinkReport};
use share_workers::{Worker, WorkerEnd};
use std::alloc::{AllocError, Global};
use std::io;
use std::sync::Wait;
use std::sync::atomic::{AtomicU64, Ordering};
use std::test::Fail;
use std::thread::Threads;
use std::time::{Clock, Duration};

// A login, and long polls for the revisions 1, 2 and 3: the share answers the first at once, the second when the edit
// comes, and the third when the stop does.
const PLAYERS_REQUESTS: &str =
    "GET /login HTTP/1.1\r\n\r\nGET /update?session-id=1&revision-number=1 HTTP/1.1\r\n\r\nGET /update?session-id=1&revision-number=2 HTTP/1.1\r\n\r\nGET /update?session-id=1&revision-number=3 HTTP/1.1\r\n\r\n";

// An edit, whose last byte is in the third chunk, and a stop, whose last byte is in the fourth.
const EDITORS_REQUESTS: &str =
    "POST /edit HTTP/1.1\r\nContent-Length: 38\r\n\r\nop,kind,id,dmap.itemname\nput,item,7,A\nPOST /stop HTTP/1.1\r\n\r\n";

// The same edit twice.
pub const TWO_EDITS: &str =
    "POST /edit HTTP/1.1\r\nContent-Length: 38\r\n\r\nop,kind,id,dmap.itemname\nput,item,7,A\nPOST /edit HTTP/1.1\r\nContent-Length: 38\r\n\r\nop,kind,id,dmap.itemname\nput,item,7,A\n";

pub const STOP: &str = "POST /stop HTTP/1.1\r\n\r\n";

const LOGOUT: &str = "GET /logout?session-id=1 HTTP/1.1\r\n\r\n";

// The length of the player's replies in bytes: of those before the edit, and with the one after it.
const BEFORE_EDIT: u64 = 224;

const AFTER_EDIT: u64 = 336;

/// The statuses on the connection of a worker, how the connection ended, and how the worker ended.
#[derive(Clone, Copy)]
pub struct Outcome {
    pub statuses: &'static [u16],
    pub link: LinkEnd,
    pub worker: WorkerEnd,
}

/// The player's long polls are answered at an edit, and refused at a stop after it.
pub const HEARS_BOTH: Outcome = Outcome {
    statuses: &[200, 200, 200, 503],
    link: LinkEnd::Stopped,
    worker: WorkerEnd::Stopped,
};

const MAKES_BOTH: Outcome = Outcome {
    statuses: &[200, 204],
    link: LinkEnd::Stopped,
    worker: WorkerEnd::Stopped,
};

const HEARS_STOP: Outcome = Outcome {
    statuses: &[200, 200, 503],
    link: LinkEnd::Stopped,
    worker: WorkerEnd::Stopped,
};

pub const MAKES_STOP: Outcome = Outcome {
    statuses: &[204],
    link: LinkEnd::Stopped,
    worker: WorkerEnd::Stopped,
};

const HEARS_LOGOUT: Outcome = Outcome {
    statuses: &[200, 200, 403, 403],
    link: LinkEnd::Closed,
    worker: WorkerEnd::NoMoreLinks,
};

const MAKES_LOGOUT: Outcome = Outcome {
    statuses: &[204],
    link: LinkEnd::Closed,
    worker: WorkerEnd::NoMoreLinks,
};

const ONE_REPLY: Outcome = Outcome {
    statuses: &[200],
    link: LinkEnd::Closed,
    worker: WorkerEnd::NoMoreLinks,
};

pub const TWO_REPLIES: Outcome = Outcome {
    statuses: &[200, 200],
    link: LinkEnd::Closed,
    worker: WorkerEnd::NoMoreLinks,
};

/// A runtime whose clock can't be read: a long poll that is pending there waits only for the bell, however long. It
/// tries to read the clock before each of its waits, and these are counted.
#[derive(Drop)]
pub struct Unclocked<'a, R> {
    pub rt: &'a R,
    pub waits: &'a AtomicU64,
}

impl<R: Wait> Wait for Unclocked<'_, R> {}

impl<R: Threads> Threads for Unclocked<'_, R> {}

impl<R> Clock for Unclocked<'_, R> {
    fn monotonic(&self) -> io::Result<Duration> {
        self.waits.fetch_add(1, Ordering::SeqCst);
        Err(io::Error::from(io::ErrorKind::Unsupported))
    }

    fn since_1970(&self) -> io::Result<Duration> {
        Err(io::Error::from(io::ErrorKind::Unsupported))
    }
}

/// Returns a player whose reads wait by `reads_wait`.
pub fn player(reads_wait: &'static [u64]) -> Plan {
    Plan {
        reads_wait,
        ..plain(Role::Listen, PLAYERS_REQUESTS)
    }
}

/// Returns an editor whose first request comes once a long poll of the player is pending, and the next once another is.
pub fn editor(input: &'static str) -> Plan {
    Plan {
        reads_wait: &[BEFORE_EDIT, 0, 0, AFTER_EDIT],
        ..plain(Role::Edit, input)
    }
}

/// Returns whether there is a report, and it has `statuses` and `end`.
fn tells(report: Option<&LinkReport>, statuses: &[u16], end: LinkEnd) -> bool {
    match report {
        Some(report) => {
            report.end == end
                && report
                    .served
                    .as_slice()
                    .iter()
                    .map(|s| s.status)
                    .eq(statuses.iter().copied())
        }
        None => false,
    }
}

/// Returns whether a worker and its connection ended as expected.
pub fn has_ended<D>(worker: &Worker<D>, outcome: &Outcome) -> bool {
    worker.end == outcome.worker && tells(worker.reports.first(), outcome.statuses, outcome.link)
}

/// What two workers live through.
#[derive(Clone, Copy)]
enum Story {
    /// A player's long polls, and an edit and a stop.
    EditAndStop,
    /// A player's long polls, and the logout of its session.
    Logout,
    /// A player that is slow to read, and two edits.
    SlowReader,
    /// Two players, each of which sends its second request when the other has got bytes.
    Meeting,
}

fn outcomes_of(story: Story) -> (Outcome, Outcome) {
    match story {
        Story::EditAndStop => (HEARS_BOTH, MAKES_BOTH),
        Story::Logout => (HEARS_LOGOUT, MAKES_LOGOUT),
        Story::SlowReader => (ONE_REPLY, TWO_REPLIES),
        Story::Meeting => (TWO_REPLIES, TWO_REPLIES),
    }
}

fn have_ended<D>(workers: &[Worker<D>], story: Story) -> bool {
    let (first, second) = outcomes_of(story);
    match workers {
        [one, other] => has_ended(one, &first) && has_ended(other, &second),
        _ => false,
    }
}

/// Runs two workers of one share, each in its own thread. Returns whether they ended as expected.
fn served<R: Threads + Wait + Clock + Sync>(
    rt: &R,
    alloc: Global,
    plans: &(Plan, Plan),
    story: Story,
) -> Result<bool, AllocError> {
    let written = Written::new();
    let posts = posts_of(alloc, plans, &written)?;
    let workers = run(rt, alloc, posts)?;
    Ok(have_ended(workers.as_slice(), story))
}

fn read_clock<C: Clock>(clock: &C) -> Result<Duration, AllocError> {
    match clock.monotonic() {
        Ok(time) => Ok(time),
        Err(_) => Err(AllocError),
    }
}

/// Does what `served` does. Also returns whether it took less than the five seconds after which a pending long poll is
/// checked without a bell.
fn woken<R: Threads + Wait + Clock + Sync>(
    rt: &R,
    alloc: Global,
    plans: &(Plan, Plan),
    story: Story,
) -> Result<(bool, bool), AllocError> {
    let begun = read_clock(rt)?;
    let is_well = served(rt, alloc, plans, story)?;
    let spent = read_clock(rt)?.saturating_sub(begun);
    Ok((is_well, spent < Duration::from_secs(5)))
}

#[test]
fn an_edit_and_a_stop_wake_what_is_held(rt: HostRuntime) -> Result<(), Fail> {
    let plans = (player(&[]), editor(EDITORS_REQUESTS));
    let (is_well, prompt) = woken(&rt, rt.alloc(), &plans, Story::EditAndStop)?;
    assert!(rt; is_well && prompt);
    Ok(())
}

#[test]
fn a_logout_wakes_what_is_held(rt: HostRuntime) -> Result<(), Fail> {
    let other = Plan {
        reads_wait: &[BEFORE_EDIT],
        ..plain(Role::Listen, LOGOUT)
    };
    let plans = (player(&[]), other);
    let (is_well, prompt) = woken(&rt, rt.alloc(), &plans, Story::Logout)?;
    assert!(rt; is_well && prompt);
    Ok(())
}

// The first bytes of a player's reply let the editor's request come, and the others wait until something was written on
// the editor's connection.
#[test]
fn an_edit_waits_for_no_slow_reader(rt: HostRuntime) -> Result<(), Fail> {
    let slow = Plan {
        writes_wait: &[0, 1],
        ..plain(Role::Listen, INFO)
    };
    let editor = Plan {
        reads_wait: &[1],
        ..plain(Role::Edit, TWO_EDITS)
    };
    assert!(rt; served(&rt, rt.alloc(), &(slow, editor), Story::SlowReader)?);
    Ok(())
}

// Neither ends if one is served to its end before the other begins.
#[test]
fn two_links_meet(rt: HostRuntime) -> Result<(), Fail> {
    let meets = Plan {
        reads_wait: &[0, 1],
        ..plain(Role::Listen, TWO_INFOS)
    };
    assert!(rt; served(&rt, rt.alloc(), &(meets, meets), Story::Meeting)?);
    Ok(())
}

fn are_stopped<D>(workers: &[Worker<D>]) -> bool {
    match workers {
        [one, other, editor] => {
            has_ended(one, &HEARS_STOP)
                && has_ended(other, &HEARS_STOP)
                && has_ended(editor, &MAKES_STOP)
        }
        _ => false,
    }
}

/// Runs two players, of which the second begins when the first one's long poll is pending, and an editor that stops the
/// share when both are. Returns whether they ended as expected.
fn both_stopped<R: Threads + Wait + Clock + Sync>(
    rt: &R,
    alloc: Global,
) -> Result<bool, AllocError> {
    let written = Written::new();
    let plans = (player(&[]), player(&[BEFORE_EDIT]));
    let mut posts = posts_of(alloc, &plans, &written)?;
    let stop = Plan {
        reads_wait: &[BEFORE_EDIT],
        ..plain(Role::Edit, STOP)
    };
    let counts = Counts {
        own: &written.third,
        other: &written.second,
        probes: &written.probes,
    };
    posts.push(post_of(alloc, &stop, counts)?)?;
    let workers = run(rt, alloc, posts)?;
    Ok(are_stopped(workers.as_slice()))
}

// Neither is checked without the bell: one that isn't woken sleeps forever, and the test doesn't end.
#[test]
fn a_stop_wakes_both_of_two_held_updates(rt: HostRuntime) -> Result<(), Fail> {
    let waits = AtomicU64::new(0);
    let unclocked = Unclocked {
        rt: &rt,
        waits: &waits,
    };
    assert!(rt; both_stopped(&unclocked, rt.alloc())?);
    Ok(())
}
