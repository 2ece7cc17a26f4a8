//! The text of `aeadrun`'s responses. It is written word by word, so that no response is held in memory as a whole.
ghost use Rattle.std.specs.Prelude.{◌≤◌, ◌++◌, length, take, codes, IfOk, OnOk, OnErr, if◌then◌else◌};
ghost use Rattle.std.specs.Io.KnownBytes.{Appends};
ghost use Rattle.std.specs.Result.{ForOk};
ghost use Rattle.aead_ciphers.specs.Words.{ok_line, word_of_bytes};

use super::Fault;
use super::words::text;
use crate::aead::{Tag, Unspecified};
use std::alloc::Global;
use std::convert::AsSlice;
use std::io::Write;

/// Writes `ok CIPHERTEXT TAG`, or `refused`.
pub(super) fn seal_answer<W: Write>(
    alloc: Global,
    output: &mut W,
    ciphertext: &[u8],
    sealed: Result<Tag, Unspecified>,
) -> Result<(), Fault>
    ensures ok { OnOk result (IfOk sealed (λ tag.
        Appends (W.contents output.old) (W.contents output.new) (ok_line ciphertext.now tag))) }
    ensures refused { OnOk result (OnErr sealed
        (Appends (W.contents output.old) (W.contents output.new) (codes "refused"))) }
{
    match sealed {
        Ok(tag) => ok_answer(alloc, output, ciphertext, tag.as_ref()),
        Err(Unspecified) => write_str(output, "refused"),
    }
}

/// Writes `ok PLAINTEXT BUFFER`, or `refused BUFFER`, with the buffer as the call left it.
pub(super) fn open_answer<W: Write>(
    alloc: Global,
    output: &mut W,
    buffer: &[u8],
    opened: Result<usize, Unspecified>,
) -> Result<(), Fault>
    requires { ForOk opened (λ count. count ≤ length buffer.now) }
    ensures ok { OnOk result (IfOk opened (λ count. Appends (W.contents output.old)
        (W.contents output.new) (ok_line (take count buffer.now) buffer.now))) }
    ensures refused { OnOk result (OnErr opened (Appends (W.contents output.old)
        (W.contents output.new) (codes "refused " ++ word_of_bytes buffer.now))) }
{
    match opened {
        Ok(count) => ok_answer(alloc, output, &buffer[..count], buffer),
        Err(Unspecified) => {
            write_str(output, "refused ")?;
            write_word(alloc, output, buffer)
        }
    }
}

/// Writes `ok FIRST SECOND`.
fn ok_answer<W: Write>(
    alloc: Global,
    output: &mut W,
    first: &[u8],
    second: &[u8],
) -> Result<(), Fault>
    ensures { OnOk result (Appends (W.contents output.old) (W.contents output.new)
        (ok_line first.now second.now)) }
{
    write_str(output, "ok ")?;
    write_word(alloc, output, first)?;
    write_str(output, " ")?;
    write_word(alloc, output, second)
}

/// Writes `ok BYTES`, or `refused`.
pub(super) fn bytes_answer<W: Write, T: AsSlice<u8> + Drop>(
    alloc: Global,
    output: &mut W,
    outcome: Result<T, Unspecified>,
) -> Result<(), Fault>
    ensures ok { OnOk result (IfOk outcome (λ bytes. Appends (W.contents output.old)
        (W.contents output.new) (codes "ok " ++ word_of_bytes (T.items bytes)))) }
    ensures refused { OnOk result (OnErr outcome
        (Appends (W.contents output.old) (W.contents output.new) (codes "refused"))) }
{
    match outcome {
        Ok(bytes) => {
            write_str(output, "ok ")?;
            write_word(alloc, output, bytes.as_slice())
        }
        Err(Unspecified) => write_str(output, "refused"),
    }
}

/// Writes `ok`, or `refused`.
pub(super) fn keys_answer<W: Write>(output: &mut W, are_made: bool) -> Result<(), Fault>
    ensures { OnOk result (Appends (W.contents output.old) (W.contents output.new)
        (if are_made then codes "ok" else codes "refused")) }
{
    write_str(output, if are_made { "ok" } else { "refused" })
}

fn write_word<W: Write>(alloc: Global, output: &mut W, bytes: &[u8]) -> Result<(), Fault>
    ensures { OnOk result (Appends (W.contents output.old) (W.contents output.new)
        (word_of_bytes bytes.now)) }
{
    let word = text(alloc, bytes)?;
    write_str(output, word.as_str())
}

fn write_str<W: Write>(output: &mut W, text: &str) -> Result<(), Fault>
    ensures { OnOk result (Appends (W.contents output.old) (W.contents output.new) text.now) }
{
    output.write_all(text.as_bytes())?;
    Ok(())
}
