//! The command `show`: tags are read as they come, and their lines are written after each read.

ghost use Rattle.std.specs.Prelude.{◌≡◌, ◌+◌, ◌≤◌, ◌++◌, [], ℕ, List, length, IfOk, IfErr, OnOk};
ghost use Rattle.std.specs.Io.KnownBytes.{Consumes, IsAtEnd};
ghost use Rattle.dmap_stream.specs.Reader.{ready};
ghost use Rattle.command_core.specs.Seen.{Around, input_of, output_of, run_over_streams, no_share};
ghost use Rattle.command_core.specs.Endings.{IsWritten, IsAnswered};
ghost use Rattle.tag_commands.specs.TopTags.{tags_limit};
ghost use Rattle.tag_commands.specs.Counting.{IsCounted, EndsCounted};
ghost use Rattle.tag_commands.specs.Show.{show_meaning, IsInStep, IsShownWhole};
ghost use Rattle.tag_commands.specs.Showing.{HasShownEvents, IsShowing, ShowsSome, IsLast, StopsShowing, StepStops, ShowStops};

use crate::counting::{Counter, PIECE};
use crate::tags_fault::{TagsFault, tags_fault};
use command_core::{Fault, Outcome, write_error};
use dmap_show::show_event;
use dmap_stream::StreamError;
use outside_net::{Failed, Sink, Source, put_all};
use std::alloc::{AllocError, Global};

/// Runs `show`: writes the lines of the input's tags as they are read.
pub fn show_tags<I: Source, W: Sink>(alloc: Global, input: &mut I, output: &mut W) -> Outcome
    ensures { (around : Around) → IsAnswered show_meaning
        (run_over_streams around
        (input_of I.Source input.old)
        (input_of I.Source input.new)
        (output_of W.Sink output.old)
        (output_of W.Sink output.new))
        result }
{
    match write_lines(alloc, input, output) {
        Ok(()) => Outcome {
            status: 0,
            history: None,
        },
        Err(Stop::Input(fault)) => write_error(alloc, output, &fault),
        Err(Stop::Output) => Outcome {
            status: 5,
            history: None,
        },
    }
}

/// Why showing ended early.
#[derive(Drop)]
pub enum Stop {
    /// An error of the input, or an allocation failure. The lines before it were written.
    Input(Fault<TagsFault>),
    /// An error of the output.
    Output,
}

/// What was read so far, and the lines that are not yet written.
#[derive(Drop)]
pub struct Shower {
    pub counter: Counter,
    pub lines: Vec<u8>,
}

impl Shower {
    /// Returns a shower that was given no byte.
    fn new(alloc: Global) -> Result<Shower, AllocError>
        ensures showing { IfOk result (λ shower. IsShowing [] [] shower) }
        ensures idle { IfOk result (λ shower. shower.lines.items ≡ []) }
    {
        Ok(Shower {
            counter: Counter::new(alloc)?,
            lines: Vec::new(alloc),
        })
    }

    /// Takes further bytes, and writes the lines of their events.
    fn step<W: Sink>(&mut self, piece: &[u8], output: &mut W) -> Result<(), Stop>
        requires { (fed written : List ℕ) × IsShowing fed written self.old
            × (length fed ≤ tags_limit) }
        ensures went { (fed written : List ℕ) → IsShowing fed written self.old
            → IfOk result (λ _. (more : List ℕ)
            × IsShowing (fed ++ piece.now) (written ++ more) self.new
            × (length (fed ++ piece.now) ≤ tags_limit)
            × IsWritten (output_of W.Sink output.old) (output_of W.Sink output.new) more) }
        ensures idle { OnOk result (self.new.lines.items ≡ []) }
        ensures stopped { (fed written : List ℕ) → IsShowing fed written self.old
            → IfErr result (λ stop. (more : List ℕ)
            × StepStops (fed ++ piece.now) (written ++ more) more
            (output_of W.Sink output.old)
            (output_of W.Sink output.new) stop) }
    {
        let took = self.take(piece);
        if let Err(Failed) = put_all(output, self.lines.as_slice()) {
            return Err(Stop::Output);
        }
        self.lines.clear();
        match took {
            Ok(()) => Ok(()),
            Err(fault) => Err(Stop::Input(fault)),
        }
    }

    /// Makes the lines of the events of further bytes, up to the limit of the input.
    fn take(&mut self, piece: &[u8]) -> Result<(), Fault<TagsFault>>
        requires { (fed written : List ℕ) × IsShowing fed written self.old
            × (length fed ≤ tags_limit) }
        ensures took { (fed written : List ℕ) → IsShowing fed written self.old
            → IfOk result (λ _. IsShowing (fed ++ piece.now) written self.new
            × (length (fed ++ piece.now) ≤ tags_limit)) }
        ensures stopped { (fed written : List ℕ) → IsShowing fed written self.old
            → IfErr result (λ fault.
            StopsShowing (fed ++ piece.now) (written ++ self.new.lines.items) fault) }
    {
        let (front, behind) = self.counter.up_to_limit(piece);
        match self.feed(front) {
            Ok(()) if behind.is_empty() => Ok(()),
            Ok(()) => Err(Fault::Own(TagsFault::TooLong)),
            Err(error) => Err(tags_fault(error)),
        }
    }

    /// Feeds all bytes to the reader, and makes the lines of their events, also of those before a malformed tag.
    fn feed(&mut self, piece: &[u8]) -> Result<(), StreamError>
        requires { (fed written : List ℕ) × IsShowing fed written self.old
            × (length fed + length piece.now ≤ tags_limit) }
        ensures fed { (fed written : List ℕ) → IsShowing fed written self.old
            → IfOk result (λ _. IsShowing (fed ++ piece.now) written self.new) }
        ensures stopped { (fed written : List ℕ) → IsShowing fed written self.old
            → IfErr result (λ error.
            IsLast (fed ++ piece.now) (written ++ self.new.lines.items) error) }
    {
        let mut rest = piece;
        while !rest.is_empty() {
            let taken = match self.counter.reader.feed(rest) {
                Ok(taken) => taken,
                Err(error) => {
                    self.show_ready()?;
                    return Err(error);
                }
            };
            self.show_ready()?;
            let (_, behind) = rest.split_at(taken);
            rest = behind;
        }
        self.counter.bytes += piece.len() as u64;
        Ok(())
    }

    /// Makes the lines of all events that are ready.
    fn show_ready(&mut self) -> Result<(), AllocError>
        requires { (fed written : List ℕ) × HasShownEvents fed written self.old
            × (length fed ≤ tags_limit) }
        ensures shown { (fed written : List ℕ) → HasShownEvents fed written self.old
            → OnOk result (HasShownEvents fed written self.new) }
        ensures quiet { OnOk result (ready self.new.counter.reader ≡ []) }
        ensures error { self.new.counter.reader.error ≡ self.old.counter.reader.error }
        ensures bytes { self.new.counter.bytes ≡ self.old.counter.bytes }
        ensures some { (fed written : List ℕ) → HasShownEvents fed written self.old
            → IfErr result (λ _. ShowsSome fed (written ++ self.new.lines.items)) }
    {
        while let Some(event) = self.counter.reader.next() {
            let level = self.counter.tops.depth as u32;
            show_event(&event, level, &mut self.lines)?;
            self.counter.tops.count(event);
        }
        Ok(())
    }

    /// Reads the input to its end, and writes the lines of its events as it reads them.
    fn show_input<I: Source, W: Sink>(&mut self, input: &mut I, output: &mut W) -> Result<(), Stop>
        requires first { IsShowing [] [] self.old }
        requires idle { self.old.lines.items ≡ [] }
        ensures read { OnOk result ((fed written : List ℕ) × IsShowing fed written self.new
            × (self.new.lines.items ≡ [])
            × (length fed ≤ tags_limit)
            × Consumes (I.left input.old) (I.left input.new) fed
            × IsAtEnd (I.left input.new)
            × (I.faults input.new ≡ I.faults input.old)
            × IsWritten (output_of W.Sink output.old) (output_of W.Sink output.new) written) }
        ensures stopped { IfErr result (λ stop. ShowStops
            (input_of I.Source input.old)
            (input_of I.Source input.new)
            (output_of W.Sink output.old)
            (output_of W.Sink output.new)
            stop) }
        ensures in_step { IsInStep
            (input_of I.Source input.old)
            (input_of I.Source input.new)
            (output_of W.Sink output.old)
            (output_of W.Sink output.new) }
    {
        let mut piece = [0; PIECE];
        loop {
            let n = match input.read(&mut piece) {
                Ok(n) => n,
                Err(Failed) => return Err(Stop::Input(Fault::Read)),
            };
            if n == 0 {
                return Ok(());
            }
            let (read, _) = piece.split_at(n);
            if let Err(stop) = self.step(read, output) {
                return Err(stop);
            }
        }
    }

    /// Ends the bytes. Returns the number of their top tags.
    fn end(self) -> Result<u64, StreamError>
        ensures { (fed : List ℕ) → IsCounted fed self.counter → EndsCounted fed result }
    {
        self.counter.end()
    }
}

/// Reads the input to its end, and writes the lines of its tags as it reads them.
///
/// If the input is refused, its lines up to there have been written.
fn write_lines<I: Source, W: Sink>(alloc: Global, input: &mut I, output: &mut W) -> Result<(), Stop>
    ensures shown { OnOk result ((lines : List ℕ)
        × IsShownWhole (input_of I.Source input.old)
        (input_of I.Source input.new) no_share lines
        × IsWritten (output_of W.Sink output.old)
        (output_of W.Sink output.new) lines) }
    ensures stopped { IfErr result (λ stop. ShowStops
        (input_of I.Source input.old)
        (input_of I.Source input.new)
        (output_of W.Sink output.old)
        (output_of W.Sink output.new)
        stop) }
    ensures in_step { IsInStep
        (input_of I.Source input.old)
        (input_of I.Source input.new)
        (output_of W.Sink output.old)
        (output_of W.Sink output.new) }
{
    let mut shower = match Shower::new(alloc) {
        Ok(shower) => shower,
        Err(AllocError) => return Err(Stop::Input(Fault::Memory)),
    };
    if let Err(stop) = shower.show_input(input, output) {
        return Err(stop);
    }
    match shower.end() {
        Ok(_) => Ok(()),
        Err(error) => Err(Stop::Input(tags_fault(error))),
    }
}
