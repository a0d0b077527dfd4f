//! Serves one connection.

ghost use Rattle.std.specs.Prelude.{◌≡◌, ◌++◌, List, None, false};
ghost use Rattle.item_model.specs.declared.changes.Edit.{Edit};
ghost use Rattle.share_history.specs.Histories.{batches};
ghost use Rattle.share_asks.specs.declared.ask.Role.{Role as RoleSeen};
ghost use Rattle.share_lock.specs.Passes.{lock_id, known, IsReady};
ghost use Rattle.share_server.specs.Served.{added_entries};
ghost use Rattle.share_server.specs.Losses.{is_loss};
ghost use Rattle.share_server.specs.Kept.{KeepsEdits};
ghost use Rattle.share_server.specs.Serving.{CountsEnd, limit_of};
ghost use Rattle.share_server.specs.Steps.{ServingSeen, serving_of, progress_of, AfterReads, EndsLink, ServesLink};

use crate::link::ending::end_out_of_memory;
use crate::link::exchanging::LinkContext;
use crate::link::reading::{LinkProgress, pump};
use crate::report::{LinkEnd, LinkReport, Served, ServedRequests};
use edit_keeping::{Keeps, Unkept};
use http_front::HeadReader;
use outside_net::Link;
use share_asks::Role;
use share_core::Share;
use share_lock::{Bell, Pass, ShareLock};
use std::alloc::Global;
use std::sync::Wait;
use std::time::Clock;

// The most requests on one connection.
const MAX_REQUESTS: u32 = 65_536;

/// Serves a connection to its end, as `keep_link` does, with a keeper that keeps nothing.
pub fn serve_link<K: Link, R: Wait + Clock>(
    rt: &R,
    alloc: Global,
    lock: &ShareLock<Share>,
    bell: &Bell,
    pass: &mut Pass<Share>,
    link: &mut K,
    role: Role,
    budget: u32,
) -> LinkReport
    requires ready { IsReady (lock_id lock.now) pass.old }
    ensures ready { IsReady (lock_id lock.now) pass.new }
    ensures served { ServesLink role budget (serving_of K.Link (known pass.old) link.old)
        (serving_of K.Link (known pass.new) link.new) result }
    ensures unlost { is_loss result.end ≡ false }
    ensures count { CountsEnd (K.faults link.old) (K.faults link.new) result.end }
{
    keep_link(rt, alloc, lock, bell, pass, link, &mut Unkept, role, budget)
}

/// Serves a connection to its end, for at most `budget` requests and never more than 65,536. Answers its requests in
/// order, each in its own turn. A pending update waits at the bell, which each added entry rings. The keeper gets
/// each edit in the turn that adds it, before the reply is written. If it loses one, the same turn stops the share,
/// and the connection ends without a reply to the edit. The caller keeps the connection, and closes it.
pub fn keep_link<K: Link, F: Keeps, R: Wait + Clock>(
    rt: &R,
    alloc: Global,
    lock: &ShareLock<Share>,
    bell: &Bell,
    pass: &mut Pass<Share>,
    link: &mut K,
    keeper: &mut F,
    role: Role,
    budget: u32,
) -> LinkReport
    requires ready { IsReady (lock_id lock.now) pass.old }
    requires going { F.is_lost keeper.old ≡ false }
    ensures ready { IsReady (lock_id lock.now) pass.new }
    ensures served { ServesLink role budget (serving_of K.Link (known pass.old) link.old)
        (serving_of K.Link (known pass.new) link.new) result }
    // The keeper keeps what it kept before, and then the edits of the served requests.
    ensures kept { (bs : List (List Edit)) → F.keeps keeper.old bs
        → F.keeps keeper.new (bs ++ batches (added_entries (known pass.new).seen result.served)) }
    ensures keeping { KeepsEdits F.Keeps keeper.old keeper.new (known pass.old) (known pass.new)
        (is_loss result.end) }
    ensures count { CountsEnd (K.faults link.old) (K.faults link.new) result.end }
{
    let context = LinkContext {
        rt,
        alloc,
        lock,
        bell,
        limit: budget.min(MAX_REQUESTS),
    };
    let number = pass.number();
    let (served, end) = serve_to_end(&context, pass, link, keeper, role);
    LinkReport {
        number,
        served: ServedRequests::of(served),
        end,
    }
}

fn serve_to_end<K: Link, F: Keeps, R: Wait + Clock>(
    context: &LinkContext<'_, R>,
    pass: &mut Pass<Share>,
    link: &mut K,
    keeper: &mut F,
    role: Role,
) -> (Vec<Served>, LinkEnd)
    requires ready { IsReady (lock_id context.now.lock.now) pass.old }
    requires going { F.is_lost keeper.old ≡ false }
    ensures ready { IsReady (lock_id context.now.lock.now) pass.new }
    ensures ended { EndsLink role context.now.limit (serving_of K.Link (known pass.old) link.old)
        (serving_of K.Link (known pass.new) link.new) result.0.items result.1 }
    ensures keeping { KeepsEdits F.Keeps keeper.old keeper.new (known pass.old) (known pass.new)
        (is_loss result.1) }
    ensures count { CountsEnd (K.faults link.old) (K.faults link.new) result.1 }
{
    let served = Vec::new(context.alloc);
    if context.limit == 0 {
        return (served, LinkEnd::Spent);
    }
    let Ok(reader) = HeadReader::new(context.alloc, role) else {
        return (served, end_out_of_memory(link));
    };
    let mut progress = LinkProgress { reader, served };
    let end = pump_to_end(context, pass, link, keeper, &mut progress);
    // A call drops the reader, so that the end of this function drops nothing.
    drop(progress.reader);
    (progress.served, end)
}

// Reads and serves until the connection ends. Returns its end.
fn pump_to_end<K: Link, F: Keeps, R: Wait + Clock>(
    context: &LinkContext<'_, R>,
    pass: &mut Pass<Share>,
    link: &mut K,
    keeper: &mut F,
    progress: &mut LinkProgress,
) -> LinkEnd
    requires ready { IsReady (lock_id context.now.lock.now) pass.old }
    requires idle { progress.old.reader.ready ≡ None }
    requires going { F.is_lost keeper.old ≡ false }
    ensures ready { IsReady (lock_id context.now.lock.now) pass.new }
    ensures ended { (role : RoleSeen) (start : ServingSeen)
        → AfterReads role context.now.limit start (progress_of K.Link (known pass.old) link.old progress.old) 0
        → EndsLink role context.now.limit start (serving_of K.Link (known pass.new) link.new)
        progress.new.served.items result }
    ensures keeping { KeepsEdits F.Keeps keeper.old keeper.new (known pass.old) (known pass.new)
        (is_loss result) }
    ensures count { CountsEnd (K.faults link.old) (K.faults link.new) result }
{
    let mut consumed = 0;
    for _ in context.rt.forever() {
        match pump(context, pass, link, keeper, progress, &mut consumed) {
            None => {}
            Some(end) => return end,
        }
    }
    unreachable!()
}
