//! One connection of a replay.

ghost use Rattle.std.specs.Prelude.{◌≡◌, ◌+◌, ◌<◌, true, false, Some, None, is_some, option_copied, if◌then◌else◌, IfOk, IfSome, OnOk};
ghost use Rattle.std.specs.Option.{option_or};
ghost use Rattle.share_asks.specs.Valid.{IsValidWant};
ghost use Rattle.share_replay.specs.Connections.{asked_on, closes, end_at_close, end_if_idle, end_of_input, ended_by, fault_on, gets, last_end, new_connection};
ghost use Rattle.share_replay.specs.Turns.{last_by, most_requests, one_more};
ghost use Rattle.share_history.specs.Sessions.{is_stopped};

use crate::ends::End;
use crate::intake::Intake;
use http_front::HeadError;
use share_asks::{Ask, Role};
use share_core::Share;
use std::alloc::{AllocError, Global};
use std::marker::Model;

/// The most requests of a connection.
const MOST_REQUESTS: u32 = 65_536;

/// A connection: the bytes that came over it, and how many requests were answered.
#[derive(Drop)]
pub(crate) struct Connection {
    intake: Intake,
    served: u32,
    is_closed: bool,
    is_ended: bool,
}

impl Model for Connection {
    ghost use Rattle.std.specs.Coded.{codes};
    ghost use Rattle.share_replay.specs.Connections as connections;
    ghost use Rattle.share_replay.specs.Intakes.{StandsUntilEnd};

    ghost Value = { connections.Connection };

    ghost coded = { Prim.hlevel codes };

    ghost view = { λ a. record { role = a.intake.reader.role; bytes = a.intake.bytes.items; served = a.served; is_closed = a.is_closed; is_ended = a.is_ended } };

    ghost invariant = { λ a. StandsUntilEnd a.is_ended a.intake a.served };
}

impl Connection {
    pub(crate) fn open(alloc: Global, role: Role) -> Result<Connection, AllocError>
        ensures { IfOk result (λ c. c ≡ new_connection role) }
    {
        Ok(Connection {
            intake: Intake::new(alloc, role)?,
            served: 0,
            is_closed: false,
            is_ended: false,
        })
    }

    /// Delivers bytes, unless the connection was closed or has ended. If an allocation fails, the connection ends.
    pub(crate) fn deliver(&mut self, more: &[u8]) -> Result<(), AllocError>
        ensures { OnOk result (self.new ≡ gets more.now self.old) }
    {
        if self.is_closed || self.is_ended {
            return Ok(());
        }
        match self.intake.take(more) {
            Ok(()) => Ok(()),
            Err(error) => {
                self.is_ended = true;
                Err(error)
            }
        }
    }

    /// Ends the input. Returns how the connection ends, if it ends at once because it is idle.
    pub(crate) fn close(&mut self) -> Option<End>
        ensures closed { self.new ≡ closes self.old }
        ensures told { result ≡ end_at_close self.old }
    {
        if self.is_closed || self.is_ended {
            return None;
        }
        self.is_closed = true;
        let end = self.end_if_idle();
        self.is_ended = end.is_some();
        end
    }

    /// Returns the next request, unless the connection has ended.
    pub(crate) fn next(&self) -> Option<&Ask>
        ensures asked { option_copied result ≡ asked_on self.now }
        ensures valid { IfSome result (λ ask. IsValidWant ask.now.want) }
        ensures few { self.now.is_ended ≡ false → self.now.served < most_requests }
    {
        if self.is_ended {
            return None;
        }
        self.intake.next.as_ref()
    }

    /// Returns the error of the bytes, if all requests before them were answered.
    pub(crate) fn fault(&self) -> Option<&HeadError>
        requires { asked_on self.now ≡ None }
        ensures { option_copied result ≡ fault_on self.now }
    {
        if self.is_ended {
            return None;
        }
        self.intake.fault.as_ref()
    }

    /// Returns how the connection ends after the reply to its next request, if that is its last. `close` says whether
    /// the request closes.
    pub(crate) fn last_by(&self, share: &Share, close: bool) -> Option<End>
        requires { self.now.served < most_requests }
        ensures { result ≡ last_by share.now.history (self.now.served + 1) close }
    {
        if share.is_stopped() {
            Some(End::Stopped)
        } else if self.served + 1 == MOST_REQUESTS {
            Some(End::Spent)
        } else if close {
            Some(End::Closed)
        } else {
            None
        }
    }

    /// Counts an answered request; `last` is given if its reply was the last. Returns how the connection ends, if it
    /// ends. If an allocation fails, the connection ends.
    pub(crate) fn count(&mut self, last: Option<End>) -> Result<Option<End>, AllocError>
        requires asked { is_some (asked_on self.old) ≡ true }
        requires few { last ≡ None → self.old.served + 1 < most_requests }
        ensures end { IfOk result (λ end. end ≡ option_or last (end_of_input (one_more self.old))) }
        ensures counted { IfOk result (λ end. self.new ≡ ended_by end (one_more self.old)) }
    {
        self.served += 1;
        if last.is_some() {
            self.is_ended = true;
            return Ok(last);
        }
        match self.intake.pass() {
            Ok(()) => {}
            Err(error) => {
                self.is_ended = true;
                return Err(error);
            }
        }
        if !self.is_closed {
            return Ok(None);
        }
        let end = self.end_if_idle();
        self.is_ended = end.is_some();
        Ok(end)
    }

    /// Ends the connection: no more requests are answered.
    pub(crate) fn end(&mut self)
        ensures { self.new ≡ record self.old { is_ended = true } }
    {
        self.is_ended = true;
    }

    /// Returns how the connection ends at the end of a script, unless it has ended.
    pub(crate) fn last_end(&self) -> Option<End>
        ensures { result ≡ last_end self.now }
    {
        if self.is_ended {
            return None;
        }
        match self.end_if_idle() {
            Some(end) => Some(end),
            None => Some(End::Held),
        }
    }

    // Returns how the connection ends at the end of its input, if it is idle.
    fn end_if_idle(&self) -> Option<End>
        requires { self.now.is_ended ≡ false }
        ensures { result ≡ end_if_idle self.now }
    {
        if self.intake.next.is_some() || self.intake.fault.is_some() {
            return None;
        }
        if self.intake.reader.between() {
            return Some(End::Closed);
        }
        Some(End::Cut {
            at: self.intake.bytes.len() as u64,
        })
    }
}
