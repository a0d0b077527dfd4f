//! Laws of what one end of a connection makes of what the other did: of all mirrors and the shares that they follow, of
//! all runs of `follow`, `edit` and `relay` that reach a share, and of all runs that met. Each function has an empty
//! body; its contract is a theorem.

ghost use Rattle.share_meetings.specs.CommandLaws.{EditGoesOn, FollowGoesOn};
ghost use Rattle.share_meetings.specs.FollowerLaws.{FollowersHoldTheRows, ServedRunsGoOn};
ghost use Rattle.share_meetings.specs.Laws.{FollowShowsAnyShare, LaterConnectionsBeginWell, RelaysAShare, ServesAShare};
ghost use Rattle.share_meetings.specs.MirrorLaws.{EndedLinksAreServed, FollowersAreNotStopped, MirrorsAreServed, WalkersHoldTheShare, WorkersLinksAreServed};
ghost use Rattle.share_meetings.specs.RelayLaws.{RunsSucceed, ServedRelaysGoOn, ServedRunsSucceed};

/// A mirror that followed a share holds the rows that the share had at the revision of its last round.
pub fn followers_hold_the_rows()
    ensures { FollowersHoldTheRows }
{}

/// What a share sends stops no client that follows it.
pub fn served_runs_go_on()
    ensures { ServedRunsGoOn }
{}

/// If a share responds to each request of a run of `follow`, for all its rounds, then the run succeeds, except for failed
/// allocations and errors outside.
pub fn follow_goes_on()
    ensures { FollowGoesOn }
{}

/// If a share responds to a run of `edit` with a success, then the run succeeds, except for failed allocations and errors
/// outside.
pub fn edit_goes_on()
    ensures { EditGoesOn }
{}

/// If a share responds to each request of a relay, then only a failed call on the connection, a failed allocation or the
/// relay's own share ends the relay early.
pub fn served_relays_go_on()
    ensures { ServedRelaysGoOn }
{}

/// If a share responds to each request of the relay of a run, and nothing outside fails, then the status is 0, except for
/// failed allocations, for workers that served as much as they may, and for a library that the relay's share has no
/// capacity for.
pub fn served_runs_succeed()
    ensures { ServedRunsSucceed }
{}

/// The same of each run of `relay`, by what the connection that is made next has to read.
pub fn runs_succeed()
    ensures { RunsSucceed }
{}

/// A connection that was served to its end is a `ServedLink`: it has the requests and the responses that the next laws are
/// about.
pub fn ended_links_are_served()
    ensures { EndedLinksAreServed }
{}

/// So is each connection of a worker.
pub fn workers_links_are_served()
    ensures { WorkersLinksAreServed }
{}

/// A mirror that follows a share, in each of its stages, holds what the share had at the last listing that it applied.
/// Each of its listings is the share's at a length of the one history, the first at or after the login, and each other one
/// at a higher revision than the one before.
pub fn walkers_hold_the_share()
    ensures { WalkersHoldTheShare }
{}

/// A mirror whose requests were all answered with success is stopped only by a failed call on its connection or a failed
/// allocation.
pub fn followers_are_not_stopped()
    ensures { FollowersAreNotStopped }
{}

/// There is a share that serves a mirror of all items to its end, whatever the mirror requests.
pub fn mirrors_are_served()
    ensures { MirrorsAreServed }
{}

/// A connection that a run of `serve` served is one of a share, with the history that the run left.
pub fn runs_serve_a_share()
    ensures { ServesAShare }
{}

/// So is a connection that a run of `relay` served.
pub fn relays_serve_a_share()
    ensures { RelaysAShare }
{}

/// What a run of `follow` over a connection of a share writes is the text of some revisions of the share's history, each
/// above the one before, none from before the login; or a prefix of it, or their lines and then that of an error.
pub fn follow_shows_any_share()
    ensures { FollowShowsAnyShare }
{}

/// A mirror that applied listings over a connection of a worker held what the share had before each request of a later
/// connection of that worker.
pub fn later_connections_begin_well()
    ensures { LaterConnectionsBeginWell }
{}
