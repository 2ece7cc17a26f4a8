//! One end of a TLS 1.3 connection, which sends application data and receives the records of a stream.

ghost use Rattle.std.specs.Prelude.{◌≡◌, ◌≢◌, ◌⊎◌, ◌+◌, ◌<◌, ◌≤◌, ◌++◌, ℕ, length, take, drop, slice_range, Err, None, IsTrue, IsOk, IfOk, IfErr, IfSome, OnOk, OnErr, vec_len, vec_capacity};
ghost use Rattle.records.specs.Record.{Carries, record_at};
ghost use Rattle.records.specs.Steps.{LeavesRefused, Reads};
ghost use Rattle.records.specs.Stream.{BeginsWith, RefusesToClassify};

use records::{Begins, ContentType, Reader, RecordError, RecordKind, Writer, classify};

/// Appends a record of application data, without padding, to `out`.
pub fn send(writer: &mut Writer, message: &[u8], out: &mut Vec<u8>) -> Result<(), RecordError>
    ensures sent { OnOk result (out.new.items ≡ out.old.items
        ++ record_at writer.old.key writer.old.number (record {
          content_type = ContentType.ApplicationData;
          content = message.now;
          padding = 0;
        })) }
    ensures accepted { writer.old.number < writer.old.limit
        → length message.now < writer.old.key.size_limit
        → vec_len out.old + length message.now + 22 ≤ vec_capacity out.old → IsOk result }
    ensures counted { OnOk result
        (writer.new ≡ record writer.old { number = writer.old.number + 1 }) }
    ensures refused { OnErr result ((writer.new ≡ writer.old) × (out.new.items ≡ out.old.items)) }
{
    writer.write(ContentType::ApplicationData, message, 0, out)
}

/// Receives the first record of a stream, before the peer's Finished message. Opens a protected record to the
/// front of the buffer, and drops a ChangeCipherSpec. Returns the number of bytes taken, which is 0 if more are
/// needed, and the content type and length of a record that was opened.
///
/// The bytes after those taken are unchanged. Without a protected record, the reader and all bytes are unchanged.
pub fn receive(
    reader: &mut Reader,
    bytes: &mut [u8],
) -> Result<(usize, Option<(ContentType, usize)>), RecordError>
    ensures taken { IfOk result (λ received. received.0 ≤ length bytes.old) }
    ensures carried { IfOk result (λ received. IfSome received.1 (λ read. (padding : ℕ)
        × Carries reader.old.key reader.old.number (slice_range bytes.old 0 received.0) (record {
          content_type = read.0;
          content = take read.1 bytes.new;
          padding = padding;
        }))) }
    ensures counted { IfOk result (λ received. IfSome received.1 (λ _. reader.new
        ≡ record reader.old { number = reader.old.number + 1 })) }
    ensures refused { IfErr result (λ error. RefusesToClassify bytes.old error
        ⊎ ((kind : RecordKind) × (len : ℕ) × BeginsWith bytes.old (Begins.Record kind len)
        × (kind ≢ RecordKind.ChangeCipherSpec)
        × (kind ≡ RecordKind.Protected → Reads reader.old reader.new (slice_range bytes.old 0 len)
        (Err error))
        × (kind ≢ RecordKind.Protected → error ≡ RecordError.UnexpectedRecord))) }
    ensures nothing { IfOk result (λ received. received.1 ≡ None
        → ((received.0 ≡ 0) × (n : ℕ) × BeginsWith bytes.old (Begins.MoreNeeded n))
        ⊎ BeginsWith bytes.old (Begins.Record RecordKind.ChangeCipherSpec received.0)) }
    ensures closed { IsTrue reader.old.is_closed → reader.new ≡ reader.old }
    ensures unread { ((reader.new ≡ reader.old) × (bytes.new ≡ bytes.old))
        ⊎ ((len : ℕ) × BeginsWith bytes.old (Begins.Record RecordKind.Protected len)) }
    ensures kept { IfErr result (λ error. (bytes.new ≡ bytes.old)
        ⊎ ((len : ℕ) × BeginsWith bytes.old (Begins.Record RecordKind.Protected len)
        × LeavesRefused reader.old.key reader.old.number (slice_range bytes.old 0 len) 0 bytes.old bytes.new error)) }
    ensures rest { IfOk result (λ received. drop received.0 bytes.new ≡ drop received.0 bytes.old) }
{
    match classify(bytes)? {
        Begins::Record(RecordKind::Protected, len) => {
            let read = reader.gather(bytes, 0, 0, len)?;
            Ok((len, Some(read)))
        }
        Begins::Record(RecordKind::ChangeCipherSpec, len) => Ok((len, None)),
        Begins::Record(RecordKind::Handshake | RecordKind::Alert, _) => {
            Err(RecordError::UnexpectedRecord)
        }
        Begins::MoreNeeded(_) => Ok((0, None)),
    }
}
