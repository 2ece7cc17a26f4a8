//! Tests of `aeadrun` with streams of which each call fails in turn.

ghost use Rattle.std.specs.Prelude.{◌<◌};

use crate::tests::checks::{equal, holds, same};
use aead_ciphers::aeadrun::{FAULT, lines};
use std::alloc::Global;
use std::io::{BufReader, BufWriter};
use std::process::Abort;
use std::test::Fail;
use test_support::failing_streams::FailingStream;

/// Lines of each kind: test case 2, the mask of RFC 9001 appendix A.2, commands that fail, and a bad line.
const LINES: &[u8] = b"keys 128 00000000000000000000000000000000 00000000 0000000000000000 1\n\
    next-seal - 00000000000000000000000000000000\n\
    next-open - 0 0388dace60b6a392f328c2b971b2fe78ab6e47d42cec13bdf53a67b21257bddf\n\
    mask aes128 9f50449e04a0e810283a1e9933adedd2 d1b1c98dd7689fb8ec11d242b123dc9b\n\
    seal 128 00 - - -\n\
    open 128 00 00 - 0 ff\n\
    \n\
    next-seal - -";

/// The output for `LINES`.
const ANSWERS: &[u8] = b"ok\n\
    ok 0388dace60b6a392f328c2b971b2fe78ab6e47d42cec13bdf53a67b21257bddf\n\
    ok 00000000000000000000000000000000 00000000000000000000000000000000ab6e47d42cec13bdf53a67b21257bddf\n\
    ok 437b9aec36\n\
    refused\n\
    refused ff\n\
    bad line\n\
    refused\n";

/// The maximum number of bytes that a stream transfers per call.
const MOST: usize = 3;

/// The result of a run over a stream.
#[derive(Drop)]
struct Ended {
    status: u8,
    printed: Vec<u8>,
    calls: u32,
}

impl Ended {
    fn of_writer(status: u8, writer: FailingStream<Vec<u8>>) -> Ended {
        Ended {
            status,
            printed: writer.inner,
            calls: writer.made,
        }
    }
}

/// Which of a run's streams may fail.
#[derive(Clone, Copy)]
enum Failing {
    Reads,
    Writes,
    WritesOfABuffer,
}

fn reads(alloc: Global, failing: Option<u32>) -> Result<Ended, Fail> {
    let mut reader = FailingStream::new(LINES, MOST, failing);
    let mut printed = Vec::new(alloc);
    let mut input = BufReader::with_capacity(alloc, 4, &mut reader)?;
    let status = lines(alloc, &mut input, &mut printed);
    drop(input);
    Ok(Ended {
        status,
        printed,
        calls: reader.made,
    })
}

fn writes(alloc: Global, failing: Option<u32>) -> Result<Ended, Fail> {
    let mut writer = FailingStream::new(Vec::new(alloc), MOST, failing);
    let mut input = LINES;
    let status = lines(alloc, &mut input, &mut writer);
    Ok(Ended::of_writer(status, writer))
}

/// Runs with a buffer of this capacity over a writer that takes up to `most` bytes per call.
fn writes_of_a_buffer(
    alloc: Global,
    capacity: usize,
    most: usize,
    failing: Option<u32>,
) -> Result<Ended, Fail>
    requires { 0 < most }
{
    let mut writer = FailingStream::new(Vec::new(alloc), most, failing);
    let mut input = LINES;
    let mut output = BufWriter::with_capacity(alloc, capacity, &mut writer)?;
    let status = lines(alloc, &mut input, &mut output);
    drop(output);
    Ok(Ended::of_writer(status, writer))
}

impl Failing {
    /// Runs with a stream of which the call with this index fails, if any.
    fn run(self, alloc: Global, failing: Option<u32>) -> Result<Ended, Fail> {
        match self {
            Failing::Reads => reads(alloc, failing),
            Failing::Writes => writes(alloc, failing),
            Failing::WritesOfABuffer => writes_of_a_buffer(alloc, 16, MOST, failing),
        }
    }

    /// Asserts that all responses are printed if no call fails. If any one call fails, asserts that a prefix is printed and
    /// the status is `FAULT`.
    fn fails_in_turn(self, rt: &impl Abort, alloc: Global) -> Result<(), Fail> {
        let whole = self.run(alloc, None)?;
        equal(rt, whole.status, 1, "the whole run");
        same(rt, &whole.printed, ANSWERS, "the answers");
        for call in 0..whole.calls {
            let ended = self.run(alloc, Some(call))?;
            equal(rt, ended.status, FAULT, "a fault");
            holds(rt, ANSWERS.starts_with(&ended.printed), "a beginning");
        }
        Ok(())
    }
}

#[test]
fn each_failed_call_ends_the_run(rt: HostRuntime) -> Result<(), Fail> {
    Failing::Reads.fails_in_turn(&rt, rt.alloc())?;
    Failing::Writes.fails_in_turn(&rt, rt.alloc())?;
    Failing::WritesOfABuffer.fails_in_turn(&rt, rt.alloc())
}

/// Each response is written before the next line is read. The buffer has room for all of them, so the writer's calls are a
/// write and a flush for each response. If one of these flushes fails, the responses up to and including its own were
/// written.
#[test]
fn each_answer_is_flushed(rt: HostRuntime) -> Result<(), Fail> {
    for i in 0..8u32 {
        let ended = writes_of_a_buffer(rt.alloc(), 1024, 1024, Some(2 * i + 1))?;
        equal(&rt, ended.status, FAULT, "a fault");
        holds(&rt, ANSWERS.starts_with(&ended.printed), "a beginning");
        let answers = ended.printed.iter().filter(|byte| **byte == b'\n').count();
        equal(&rt, answers, i as usize + 1, "the answers so far");
    }
    Ok(())
}
