//! `show`, `show --back` and `codes --learn` of `tag_commands`: what is reported if the second read fails.

use crate::runs::{Pieces, Ran, WHOLE, has_left, left, sink, source};
use command_core::Outcome;
use outside_net::{Sink, Source};
use std::alloc::{AllocError, Global};
use std::process::Abort;
use std::test::Fail;
use tag_commands::{learn_codes, read_shown, show_tags};

/// A command on tags.
#[derive(Clone, Copy)]
enum Asked {
    Show,
    ShowBack,
    Learn,
}

// The functions for one command each have no clauses, so that no other proof unfolds the specification of a command.
fn shown<I: Source, W: Sink>(alloc: Global, input: &mut I, output: &mut W) -> Outcome {
    show_tags(alloc, input, output)
}

fn unshown<I: Source, W: Sink>(alloc: Global, input: &mut I, output: &mut W) -> Outcome {
    read_shown(alloc, input, output)
}

fn learned_codes<I: Source, W: Sink>(alloc: Global, input: &mut I, output: &mut W) -> Outcome {
    learn_codes(alloc, input, output)
}

fn run_command<I: Source, W: Sink>(
    alloc: Global,
    asked: Asked,
    input: &mut I,
    output: &mut W,
) -> Outcome {
    match asked {
        Asked::Show => shown(alloc, input, output),
        Asked::ShowBack => unshown(alloc, input, output),
        Asked::Learn => learned_codes(alloc, input, output),
    }
}

fn run_over(alloc: Global, asked: Asked, bytes: &[u8], pieces: Pieces) -> Result<Ran, AllocError> {
    let mut input = source(alloc, bytes, pieces)?;
    let mut output = sink(alloc, pieces)?;
    let outcome = run_command(alloc, asked, &mut input, &mut output);
    Ok(left(outcome, output))
}

/// Bytes that a command reads in chunks of a length, of which the second read fails, and the status and the output.
type Early = (Asked, &'static [u8], usize, u8, &'static [u8]);

fn all_tell_early(rt: &impl Abort, alloc: Global, cases: &[Early]) -> Result<(), Fail> {
    for (asked, bytes, read, status, output) in cases {
        let pieces = Pieces {
            read: *read,
            failed_read: 2,
            ..WHOLE
        };
        let ran = run_over(alloc, *asked, bytes, pieces)?;
        has_left(rt, &ran, *status, output)?;
    }
    Ok(())
}

/// The listing of one item with id 7 and name `A`, at revision 3.
const ONE_ITEM: &[u8] =
    b"adbs\0\0\0\x5emstt\0\0\0\x04\0\0\0\xc8muty\0\0\0\x01\0musr\0\0\0\x04\0\0\0\x03mtco\0\0\0\x04\0\0\0\x01mrco\0\0\0\x04\0\0\0\x01mlcl\0\0\0\x1dmlit\0\0\0\x15miid\0\0\0\x04\0\0\0\x07minm\0\0\0\x01A";

/// Two lines of which neither is a tag; the second one is not UTF-8.
const TWO_BAD_LINES: &[u8] = b"no tag\nminm text \"\xff\"\n";

/// A reply whose member is longer than what is left of it.
const OVERRUN: &[u8] = b"mccr\0\0\0\x14mstt\0\0\0\x0d\0\0";

const EARLY: [Early; 4] = [
    (
        Asked::Show,
        ONE_ITEM,
        20,
        4,
        b"adbs list\n  mstt u32 200\nread failed\n",
    ),
    (Asked::ShowBack, TWO_BAD_LINES, 10, 4, b"read failed\n"),
    (Asked::Learn, OVERRUN, 16, 3, b"tags: overrun at 8\n"),
    (Asked::Learn, OVERRUN, 4, 4, b"read failed\n"),
];

#[test]
fn a_fault_is_told_before_a_later_read_that_fails(rt: HostRuntime) -> Result<(), Fail> {
    all_tell_early(&rt, rt.alloc(), &EARLY)
}
