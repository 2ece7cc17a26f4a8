//! Tests of `classify`, and of `examples::record_stream`.

use crate::tests::checks::{equal, same};
use crate::tests::examples::record_stream;
use aead_ciphers::aead::AES_128_GCM;
use records::{Begins, ContentType, Reader, RecordError, RecordKind, Writer, classify};
use std::test::Fail;

const IV: [u8; 12] = [3; 12];

/// Bytes in hex, and the result of `classify` (RFC 8446 sections 5, 5.1 and 5.2).
const BEGIN: [(&str, Result<Begins, RecordError>); 29] = [
    ("", Ok(Begins::MoreNeeded(5))),
    ("16030100", Ok(Begins::MoreNeeded(5))),
    ("1603010002", Ok(Begins::MoreNeeded(7))),
    (
        "16030100020100",
        Ok(Begins::Record(RecordKind::Handshake, 7)),
    ),
    (
        "1603030001ff1603",
        Ok(Begins::Record(RecordKind::Handshake, 6)),
    ),
    ("1603034000", Ok(Begins::MoreNeeded(16389))),
    ("1603034001", Err(RecordError::PlaintextTooLong)),
    ("1603030000", Err(RecordError::UnexpectedRecord)),
    ("1503030002022e14", Ok(Begins::Record(RecordKind::Alert, 7))),
    ("1503030003", Err(RecordError::UnexpectedRecord)),
    ("1503030000", Err(RecordError::UnexpectedRecord)),
    ("1403030001", Ok(Begins::MoreNeeded(6))),
    (
        "140303000101",
        Ok(Begins::Record(RecordKind::ChangeCipherSpec, 6)),
    ),
    ("140303000102", Err(RecordError::UnexpectedRecord)),
    (
        "140301000101",
        Ok(Begins::Record(RecordKind::ChangeCipherSpec, 6)),
    ),
    ("140304000102", Err(RecordError::UnexpectedRecord)),
    ("1403034001", Err(RecordError::PlaintextTooLong)),
    ("1503034001", Err(RecordError::PlaintextTooLong)),
    ("1803034001", Err(RecordError::PlaintextTooLong)),
    ("1803034000", Err(RecordError::UnexpectedRecord)),
    ("1403030002", Err(RecordError::UnexpectedRecord)),
    ("1703030011", Ok(Begins::MoreNeeded(22))),
    ("1703034011", Ok(Begins::MoreNeeded(16406))),
    ("1703034012", Err(RecordError::InnerPlaintextTooLong)),
    ("1703034101", Err(RecordError::EncryptedRecordTooLong)),
    ("1703030010", Err(RecordError::EncryptedRecordTooShort)),
    ("1703010011", Err(RecordError::UnexpectedRecord)),
    ("1803030003", Err(RecordError::UnexpectedRecord)),
    ("474554202f", Err(RecordError::UnexpectedRecord)),
];

#[test]
fn what_streams_begin_with(rt: HostRuntime) -> Result<(), Fail> {
    for (text, expected) in BEGIN {
        let bytes = hex::decode(rt.alloc(), text)?;
        equal(&rt, classify(&bytes), expected, text);
    }
    Ok(())
}

/// Tests that `examples::record_stream` sends data, drops a ChangeCipherSpec, and receives the data.
#[test]
fn sends_and_receives(rt: HostRuntime) -> Result<(), Fail> {
    let mut writer = Writer::new(&AES_128_GCM, &[1; 16], IV)?;
    let mut reader = Reader::new(&AES_128_GCM, &[1; 16], IV)?;
    let mut bytes = Vec::from_slice(rt.alloc(), &[20, 3, 3, 0, 1, 1])?;
    record_stream::send(&mut writer, b"hello", &mut bytes)?;
    let received = record_stream::receive(&mut reader, &mut bytes);
    equal(&rt, received, Ok((6, None)), "a ChangeCipherSpec");
    let mut rest = bytes.get(6..).unwrap_or(&[]).to_vec(rt.alloc())?;
    let data = Some((ContentType::ApplicationData, 5));
    let received = record_stream::receive(&mut reader, &mut rest);
    equal(&rt, received, Ok((27, data)), "a record");
    let content = rest.get(..5).unwrap_or(&[]);
    same(&rt, content, b"hello", "the content");
    Ok(())
}
