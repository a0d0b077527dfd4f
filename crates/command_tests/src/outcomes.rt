//! `command_core`: what is written of results and of errors.

use command_core::{Fault, Refusal, out_of_memory, write_error, write_result};
use outside_net::{MemSink, Sink};
use std::alloc::{AllocError, Global};
use std::test::Fail;

/// An error with its own line.
#[derive(Drop)]
struct Torn;

impl Refusal for Torn {
    ghost use Rattle.std.specs.Prelude.{codes, ◌++◌, ◌∷◌, []};

    ghost error_line = { λ _. codes "torn" ++ 10 ∷ [] };

    ghost error_status = { λ _. 3 };

    fn line(&self, alloc: Global) -> Result<Vec<u8>, AllocError> {
        Vec::from_slice(alloc, b"torn\n")
    }

    fn status(&self) -> u8 {
        3
    }
}

// The functions for one call each have no clauses, so that the test's proof does not carry what it leaves.
fn answered<W: Sink>(alloc: Global, output: &mut W) -> Result<u8, AllocError> {
    let answer: Result<Vec<u8>, Fault<Torn>> = Ok(Vec::from_slice(alloc, b"ok\n")?);
    Ok(write_result(alloc, output, answer).status)
}

fn refused<W: Sink>(alloc: Global, output: &mut W) -> u8 {
    write_error(alloc, output, &Fault::Own(Torn)).status
}

fn unallocated<W: Sink>(output: &mut W) -> u8 {
    out_of_memory(output, None).status
}

#[test]
fn an_answer_is_written_or_the_line_of_its_fault(rt: HostRuntime) -> Result<(), Fail> {
    let alloc = rt.alloc();
    let mut output = MemSink::new(alloc, 64, 64, &[])?;
    assert_eq!(rt; answered(alloc, &mut output)?, 0);
    assert_eq!(rt; refused(alloc, &mut output), 3);
    assert_eq!(rt; unallocated(&mut output), 9);
    assert_eq!(rt; output.taken(), b"ok\ntorn\nmemory\n".as_slice());
    Ok(())
}
