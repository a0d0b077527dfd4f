//! The bytes of a connection, and how far they were read.

ghost use Rattle.std.specs.Prelude.{◌≡◌, ◌≢◌, ◌≤◌, [], ◌∷◌, ◌++◌, ℕ, List, length, Some, None, option_copied, IfOk, OnOk};
ghost use Rattle.http_heads.specs.declared.refusal.HeadError.TheVariants.{Memory};
ghost use Rattle.share_asks.specs.declared.ask.Ask.{Ask};
ghost use Rattle.share_replay.specs.Intakes.{HasPassed, IsReadOn};

use http_front::{HeadError, HeadReader};
use share_asks::{Ask, Role};
use std::alloc::{AllocError, Global};

/// All bytes that came over a connection, and the next request in them.
#[derive(Drop)]
pub(crate) struct Intake {
    pub(crate) reader: HeadReader,
    pub(crate) bytes: Vec<u8>,
    pub(crate) fed: usize,
    pub(crate) next: Option<Ask>,
    pub(crate) fault: Option<HeadError>,
}

impl Intake {
    /// Returns an intake without bytes.
    pub(crate) fn new(alloc: Global, role: Role) -> Result<Intake, AllocError>
        ensures role { IfOk result (λ i. i.reader.role ≡ role) }
        ensures bytes { IfOk result (λ i. i.bytes.items ≡ []) }
        ensures fed { IfOk result (λ i. i.fed ≡ 0) }
        ensures read { IfOk result (IsReadOn []) }
    {
        Ok(Intake {
            reader: HeadReader::new(alloc, role)?,
            bytes: Vec::new(alloc),
            fed: 0,
            next: None,
            fault: None,
        })
    }

    /// Appends bytes. If the next request is not known, reads to its end.
    pub(crate) fn take(&mut self, more: &[u8]) -> Result<(), AllocError>
        requires { self.old.fed ≤ length self.old.bytes.items }
        ensures within { self.new.fed ≤ length self.new.bytes.items }
        ensures role { self.new.reader.role ≡ self.old.reader.role }
        ensures bytes { OnOk result (self.new.bytes.items ≡ self.old.bytes.items ++ more.now) }
        ensures read { OnOk result ((asks : List Ask)
            → IsReadOn asks self.old → IsReadOn asks self.new) }
    {
        self.bytes.extend_from_slice(more)?;
        self.read_on()
    }

    /// Drops the next request, which was answered, and reads to the end of the following one.
    pub(crate) fn pass(&mut self) -> Result<(), AllocError>
        requires { self.old.fed ≤ length self.old.bytes.items }
        ensures within { self.new.fed ≤ length self.new.bytes.items }
        ensures role { self.new.reader.role ≡ self.old.reader.role }
        ensures bytes { self.new.bytes.items ≡ self.old.bytes.items }
        ensures read { OnOk result ((asks : List Ask) (ask : Ask) → self.old.next ≡ Some ask
            → IsReadOn asks self.old → IsReadOn (asks ++ ask ∷ []) self.new) }
    {
        put_ask(&mut self.next, None);
        self.read_on()
    }

    // Reads to the end of the next request, if it is not known.
    fn read_on(&mut self) -> Result<(), AllocError>
        requires { self.old.fed ≤ length self.old.bytes.items }
        ensures within { self.new.fed ≤ length self.new.bytes.items }
        ensures role { self.new.reader.role ≡ self.old.reader.role }
        ensures bytes { self.new.bytes.items ≡ self.old.bytes.items }
        ensures read { OnOk result ((asks : List Ask)
            → HasPassed asks self.old → IsReadOn asks self.new) }
    {
        if self.next.is_some() || self.fault.is_some() {
            return Ok(());
        }
        let (_, unread) = self.bytes.as_slice().split_at(self.fed);
        match self.reader.feed(unread) {
            Ok(taken) => {
                self.fed += taken;
                put_ask(&mut self.next, self.reader.next());
                Ok(())
            }
            Err(error) => {
                put_fault(&mut self.fault, unless_memory(error)?);
                Ok(())
            }
        }
    }
}

fn put_ask(place: &mut Option<Ask>, ask: Option<Ask>)
    ensures { place.new ≡ ask }
{
    *place = ask;
}

fn put_fault(place: &mut Option<HeadError>, fault: HeadError)
    ensures { place.new ≡ Some fault }
{
    *place = Some(fault);
}

// Returns the error if it is a refusal.
fn unless_memory(error: HeadError) -> Result<HeadError, AllocError>
    ensures same { IfOk result (λ refusal. refusal ≡ error) }
    ensures fault { IfOk result (λ refusal. refusal ≢ Memory) }
{
    match error {
        HeadError::Memory => Err(AllocError),
        HeadError::Head => Ok(HeadError::Head),
        HeadError::Length => Ok(HeadError::Length),
        HeadError::BodyTooLarge => Ok(HeadError::BodyTooLarge),
        HeadError::HeadTooLarge => Ok(HeadError::HeadTooLarge),
    }
}
