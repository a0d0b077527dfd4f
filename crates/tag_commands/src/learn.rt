//! The command `codes --learn`: the table that a reply to `/content-codes` states.

ghost use Rattle.std.specs.Prelude.{◌≡◌, ◌++◌, ◌∷◌, [], ℕ, List, length, IfOk, IfErr, OnOk, MatchOption};
ghost use Rattle.command_core.specs.Seen.{Around, input_of, output_of, run_over_streams, no_share};
ghost use Rattle.command_core.specs.Endings.{IsAnswered};
ghost use Rattle.tag_commands.specs.LearnCodes.{IsUnfinished, IsReply, IsLearned, StopsReading, table_text, learn_line, learn_status, table_fault, broken_fault, learn_meaning};
ghost use Rattle.tag_commands.specs.Learning.{is_whole, IsLearning, HasReadReply, LearnStops, IsRefusal};

use crate::codes::lines_of;
use crate::counting::{Counter, PIECE, TAG_LIMIT};
use crate::tags_fault::broken_line;
use code_table::{CodeError, CodeTable};
use command_core::{Fault, Outcome, Refusal, write_result};
use dmap_stream::{Limits, StreamError, read_tag};
use fault_lines::push_number;
use outside_net::{Failed, Sink, Source};
use std::alloc::{AllocError, Global};

/// Why an input is not accepted as a reply. An allocation failure is not a `LearnFault`.
#[derive(Drop)]
pub enum LearnFault {
    /// It begins with no whole tag.
    Broken(StreamError),
    /// Its tag states no table, or is not the whole input.
    Table(CodeError),
}

impl Refusal for LearnFault {
    ghost error_line = { learn_line };

    ghost error_status = { learn_status };

    fn line(&self, alloc: Global) -> Result<Vec<u8>, AllocError> {
        match self {
            LearnFault::Broken(error) => broken_line(alloc, error),
            LearnFault::Table(error) => table_line(alloc, error),
        }
    }

    fn status(&self) -> u8 {
        3
    }
}

fn table_line(alloc: Global, error: &CodeError) -> Result<Vec<u8>, AllocError>
    ensures { IfOk result (λ line. line.items ≡ table_text error.now ++ 10 ∷ []) }
{
    let mut line = Vec::new(alloc);
    push_table(&mut line, error)?;
    line.push(b'\n')?;
    Ok(line)
}

fn push_table(line: &mut Vec<u8>, error: &CodeError) -> Result<(), AllocError>
    ensures { OnOk result (line.new.items ≡ line.old.items ++ table_text error.now) }
{
    match error {
        CodeError::NotReply => line.extend_from_slice(b"codes: not a reply"),
        CodeError::Entry { index } => push_number(line, b"codes: entry ", *index),
        CodeError::Repeated { index } => push_number(line, b"codes: repeated ", *index),
        CodeError::Memory => line.extend_from_slice(b"memory"),
    }
}

/// Returns the error of `codes --learn` for a refusal of the reply's tag.
fn broken_fault(error: StreamError) -> Fault<LearnFault>
    ensures { result ≡ broken_fault error }
{
    match error {
        StreamError::Memory => Fault::Memory,
        refusal => Fault::Own(LearnFault::Broken(refusal)),
    }
}

/// Returns the error for a refusal of its table.
fn table_fault(error: CodeError) -> Fault<LearnFault>
    ensures { result ≡ table_fault error }
{
    match error {
        CodeError::Memory => Fault::Memory,
        refusal => Fault::Own(LearnFault::Table(refusal)),
    }
}

/// Runs `codes --learn`: writes the lines of the table that the input states.
pub fn learn_codes<I: Source, W: Sink>(alloc: Global, input: &mut I, output: &mut W) -> Outcome
    ensures { (around : Around) → IsAnswered learn_meaning
        (run_over_streams around
        (input_of I.Source input.old)
        (input_of I.Source input.new)
        (output_of W.Sink output.old)
        (output_of W.Sink output.new))
        result }
{
    let answer = learn_lines(alloc, input);
    write_result(alloc, output, answer)
}

/// The beginning of a reply: its bytes, and a reader that was fed them and reports a malformed tag as soon as it comes.
#[derive(Drop)]
pub struct Learner {
    pub counter: Counter,
    pub bytes: Vec<u8>,
}

impl Learner {
    /// Returns a learner that was given no byte.
    fn new(alloc: Global) -> Result<Learner, AllocError>
        ensures { IfOk result (λ learner. IsLearning [] learner) }
    {
        Ok(Learner {
            counter: Counter::new(alloc)?,
            bytes: Vec::new(alloc),
        })
    }

    /// Takes further bytes, and returns the table if they end its reply.
    fn take(&mut self, alloc: Global, piece: &[u8]) -> Result<Option<CodeTable>, Fault<LearnFault>>
        requires { (fed : List ℕ) × IsLearning fed self.old }
        ensures took { (fed : List ℕ) → IsLearning fed self.old
            → IfOk result (λ learned. MatchOption learned
            (IsLearning (fed ++ piece.now) self.new)
            (λ table. IsReply table (fed ++ piece.now))) }
        ensures stopped { (fed : List ℕ) → IsLearning fed self.old
            → IfErr result (λ fault. LearnStops (fed ++ piece.now) fault) }
    {
        self.bytes.extend_from_slice(piece)?;
        match self.counter.feed(piece) {
            Ok(()) if !is_whole(self.bytes.as_slice()) => Ok(None),
            Ok(()) => table_in(alloc, self.bytes.as_slice()),
            Err(StreamError::Memory) => Err(Fault::Memory),
            // The malformed tag may be after the first tag.
            Err(_) => table_in(alloc, self.bytes.as_slice()),
        }
    }

    /// Reads the input to the end of its first tag, and returns the table that the tag states.
    fn read_reply<I: Source>(
        &mut self,
        alloc: Global,
        input: &mut I,
    ) -> Result<CodeTable, Fault<LearnFault>>
        requires { IsLearning [] self.old }
        ensures told { IfOk result (λ table. HasReadReply table
            (input_of I.Source input.old)
            (input_of I.Source input.new)) }
        ensures faultless { IfOk result (λ _. I.faults input.new ≡ I.faults input.old) }
        ensures cause { IfErr result (λ fault. StopsReading
            (input_of I.Source input.old)
            (input_of I.Source input.new)
            fault) }
    {
        let mut piece = [0; PIECE];
        loop {
            let n = match input.read(&mut piece) {
                Ok(n) => n,
                Err(Failed) => return Err(Fault::Read),
            };
            if n == 0 {
                let at = self.counter.bytes;
                return Err(Fault::Own(LearnFault::Broken(StreamError::Truncated { at })));
            }
            let (read, _) = piece.split_at(n);
            match self.take(alloc, read) {
                Ok(None) => {}
                Ok(Some(table)) => return Ok(table),
                Err(fault) => return Err(fault),
            }
        }
    }
}

/// Returns whether all bytes of the first tag have come, by its head.
fn is_whole(bytes: &[u8]) -> bool
    ensures { result ≡ is_whole bytes.now }
{
    if bytes.len() < 8 {
        return false;
    }
    let (head, payload) = bytes.split_at(8);
    let told = u32::from_be_bytes([head[4], head[5], head[6], head[7]]);
    told as usize <= payload.len()
}

/// Returns the table that the first tag states, if the tag is whole and nothing follows it.
fn table_in(alloc: Global, bytes: &[u8]) -> Result<Option<CodeTable>, Fault<LearnFault>>
    ensures told { IfOk result (λ learned. MatchOption learned
        (IsUnfinished bytes.now)
        (λ table. IsReply table bytes.now)) }
    ensures refused { IfErr result (λ fault. IsRefusal bytes.now fault) }
{
    let standard = CodeTable::standard(alloc)?;
    match read_tag(alloc, bytes, &standard, Limits { top: TAG_LIMIT }) {
        Ok((tag, len)) => {
            let table = match CodeTable::from_reply(alloc, &tag) {
                Ok(table) => table,
                Err(error) => return Err(table_fault(error)),
            };
            if len < bytes.len() {
                return Err(Fault::Own(LearnFault::Table(CodeError::NotReply)));
            }
            Ok(Some(table))
        }
        Err(StreamError::Truncated { .. }) => Ok(None),
        Err(error) => Err(broken_fault(error)),
    }
}

/// Reads the input to the end of its first tag, and returns the table that the tag states.
fn told_table<I: Source>(alloc: Global, input: &mut I) -> Result<CodeTable, Fault<LearnFault>>
    ensures told { IfOk result (λ table. HasReadReply table
        (input_of I.Source input.old)
        (input_of I.Source input.new)) }
    ensures faultless { IfOk result (λ _. I.faults input.new ≡ I.faults input.old) }
    ensures cause { IfErr result (λ fault. StopsReading
        (input_of I.Source input.old)
        (input_of I.Source input.new)
        fault) }
{
    let mut learner = Learner::new(alloc)?;
    learner.read_reply(alloc, input)
}

/// Reads the input to its end, and returns the lines of the table that it states.
fn learn_lines<I: Source>(alloc: Global, input: &mut I) -> Result<Vec<u8>, Fault<LearnFault>>
    ensures learned { IfOk result (λ lines. IsLearned
        (input_of I.Source input.old)
        (input_of I.Source input.new)
        no_share lines.items) }
    ensures cause { IfErr result (λ fault. StopsReading
        (input_of I.Source input.old)
        (input_of I.Source input.new)
        fault) }
{
    let table = match told_table(alloc, input) {
        Ok(table) => table,
        Err(fault) => return Err(fault),
    };
    let mut behind = [0; 1];
    match input.read(&mut behind) {
        Ok(0) => Ok(lines_of(alloc, &table)?),
        Ok(_) => Err(Fault::Own(LearnFault::Table(CodeError::NotReply))),
        Err(Failed) => Err(Fault::Read),
    }
}
