//! Sessions.

ghost use Rattle.std.specs.Prelude.{◌≡◌, ◌<◌, ◌+◌, ◌^◌, option_copied, option_map, count_by, if◌then◌else◌};
ghost use Rattle.std.specs.List.{list_any};
ghost use Rattle.share_history.specs.Marks.{until_login};
ghost use Rattle.share_history.specs.Sessions.{is_login, is_login_of, logs_out, is_stop, after_login, is_live, next_session, is_stopped};

use item_model::Entry;
use share_history::LIVE_SESSIONS;

fn is_login(entry: &Entry) -> bool
    ensures { result ≡ is_login entry.now }
{
    matches!(entry, Entry::Login { .. })
}

fn is_stop(entry: &Entry) -> bool
    ensures { result ≡ is_stop entry.now }
{
    matches!(entry, Entry::Stop { .. })
}

fn is_login_of(entry: &Entry, session: u32) -> bool
    ensures { result ≡ is_login_of session entry.now }
{
    match entry {
        Entry::Login { id, .. } => *id == session,
        _ => false,
    }
}

fn is_logout_of(entry: &Entry, session: u32) -> bool
    ensures { result ≡ logs_out session entry.now }
{
    match entry {
        Entry::Logout { id, .. } => *id == session,
        _ => false,
    }
}

fn count_with(count: usize, entry: &Entry) -> usize
    requires { count < usize.MAX }
    ensures { result ≡ count + (if is_login entry.now then 1 else 0) }
{
    if is_login(entry) { count + 1 } else { count }
}

#[tactic(auto, using(crate::proofs::LoginFacts::count_more))]
fn logins(entries: &[Entry]) -> usize
    ensures { result ≡ count_by is_login entries.now }
{
    let mut count = 0;
    for entry in entries {
        count = count_with(count, entry);
    }
    count
}

// Returns the entries after a session's login.
#[tactic(auto, using(crate::proofs::LoginFacts::login_left))]
fn after_login(history: &[Entry], session: u32) -> Option<&[Entry]>
    ensures { option_copied result ≡ after_login session history.now }
{
    for (place, entry) in history.iter().enumerate() {
        if is_login_of(entry, session) {
            let (_, rest) = history.split_at(place + 1);
            return Some(rest);
        }
    }
    None
}

/// Returns the history up to and with the login of a session, or all of it if the session never logged in.
#[tactic(auto, using(crate::proofs::LoginFacts::until_login_left))]
pub fn until_login(history: &[Entry], session: u32) -> &[Entry]
    ensures { result.now ≡ until_login session history.now }
{
    for (place, entry) in history.iter().enumerate() {
        if is_login_of(entry, session) {
            let (front, _) = history.split_at(place + 1);
            return front;
        }
    }
    history
}

#[tactic(auto, using(crate::proofs::LoopFacts::any_left))]
fn is_logged_out(history: &[Entry], session: u32) -> bool
    ensures { result ≡ list_any (logs_out session) history.now }
{
    for entry in history {
        if is_logout_of(entry, session) {
            return true;
        }
    }
    false
}

/// Returns whether a session is live.
pub fn is_live(history: &[Entry], session: u32) -> bool
    ensures { result ≡ is_live history.now session }
{
    match after_login(history, session) {
        Some(rest) => logins(rest) < LIVE_SESSIONS as usize && !is_logged_out(history, session),
        None => false,
    }
}

/// Returns the id of the next login.
pub fn next_session(history: &[Entry]) -> u32
    requires { next_session history.now < 2 ^ 32 }
    ensures { result ≡ next_session history.now }
{
    logins(history) as u32 + 1
}

/// Returns whether the share was stopped.
#[tactic(auto, using(crate::proofs::LoopFacts::any_left))]
pub fn is_stopped(history: &[Entry]) -> bool
    ensures { result ≡ is_stopped history.now }
{
    for entry in history {
        if is_stop(entry) {
            return true;
        }
    }
    false
}
