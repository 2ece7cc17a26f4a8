//! Tests of readers and writers of traffic secrets.

use crate::tests::checks::{equal, holds, same};
use key_derivation::{Secret, Suite};
use records::ContentType::ApplicationData;
use records::{Reader, RecordError, Writer};
use std::alloc::Global;
use std::process::Abort;
use std::test::Fail;

const BYTES: [u8; 48] = [
    0, 1, 2, 3, 4, 5, 6, 7, 8, 9, 10, 11, 12, 13, 14, 15, 16, 17, 18, 19, 20, 21, 22, 23, 24, 25,
    26, 27, 28, 29, 30, 31, 32, 33, 34, 35, 36, 37, 38, 39, 40, 41, 42, 43, 44, 45, 46, 47,
];

/// A suite, the length of its secrets, and the first record under the secret of as many of `BYTES` and under each of the three
/// after it, whose content is `hello`. `tools/read-records make` printed the records.
struct Row {
    suite: Suite,
    len: usize,
    records: [&'static str; 4],
}

const ROWS: [Row; 2] = [
    Row {
        suite: Suite::Aes128Gcm,
        len: 32,
        records: [
            "17030300164d6d8b52c4219f73abf497337bed8c6d80d86f23fcba",
            "1703030016b251030a7625182ab0d04a821756401b6593ef4e2eea",
            "1703030016a68e2d354e9f1f4b6beab99bc8a40ee405f57cc5812e",
            "17030300161303205604dd611524c9a3cb6dc8928d118c4799da0e",
        ],
    },
    Row {
        suite: Suite::Aes256Gcm,
        len: 48,
        records: [
            "1703030016205213507a1ab2a128abae5928a72bee1710dead4c7b",
            "170303001644f0cfebe8116f596c306a34678202da56b8f5da1d6a",
            "17030300163f1dd2ecbc2d498c4e8e95c06042a308bb7d43437376",
            "1703030016157cd487200c0864ab9303188f93a1164d78be8f2097",
        ],
    },
];

fn secret_of(row: &Row) -> Result<Secret, Fail> {
    let bytes = BYTES.get(..row.len).unwrap_or(&[]);
    Ok(Secret::new(row.suite, bytes)?)
}

/// Asserts that a writer writes the first record under its secret, and that a reader of the same secret reads it.
fn carries(
    rt: &impl Abort,
    alloc: Global,
    writer: &mut Writer,
    reader: &mut Reader,
    record: &str,
) -> Result<(), Fail> {
    let mut bytes = Vec::new(alloc);
    writer.write(ApplicationData, b"hello", 0, &mut bytes)?;
    same(rt, &bytes, &hex::decode(alloc, record)?, "the record");
    let (_, content) = reader.read(bytes.as_mut_slice())?;
    same(rt, content, b"hello", "the content");
    Ok(())
}

/// Asserts that keys of the caller are refused, whatever their length.
fn takes_no_key(rt: &impl Abort, writer: &mut Writer, reader: &mut Reader) {
    for key in [&BYTES[..16], &BYTES[..32], &[]] {
        let refused = Err(RecordError::HasSecret);
        equal(rt, writer.update_with(key, [1; 12]), refused, "a writer");
        equal(rt, reader.update_with(key, [1; 12]), refused, "a reader");
    }
}

/// Asserts that no update of a reader succeeds once a record has closed it.
fn is_closed_by_a_record(rt: &impl Abort, reader: &mut Reader) {
    let closing = reader.read(&mut [23, 3, 3, 0, 16]).err();
    holds(rt, closing.is_some() && reader.is_closed(), "closed");
    let closed = Err(RecordError::Closed);
    equal(rt, reader.update(), closed, "update");
    let refused = reader.update_with(&BYTES[..16], [1; 12]);
    equal(rt, refused, closed, "update_with");
}

/// Continues both ends under the next secret.
fn update(writer: &mut Writer, reader: &mut Reader) -> Result<(), RecordError> {
    writer.update()?;
    reader.update()
}

/// Asserts that the ends of a row's secret agree over its updates.
fn agree(rt: &impl Abort, alloc: Global, row: &Row) -> Result<(), Fail> {
    let mut writer = Writer::from_secret(secret_of(row)?);
    let mut reader = Reader::from_secret(secret_of(row)?);
    for record in &row.records {
        carries(rt, alloc, &mut writer, &mut reader, record)?;
        takes_no_key(rt, &mut writer, &mut reader);
        update(&mut writer, &mut reader)?;
    }
    is_closed_by_a_record(rt, &mut reader);
    Ok(())
}

/// The two ends of a secret agree over its updates, and a refused call changes neither. Once the reader is closed, no update
/// succeeds.
#[test]
fn over_updates(rt: HostRuntime) -> Result<(), Fail> {
    for row in &ROWS {
        agree(&rt, rt.alloc(), row)?;
    }
    Ok(())
}
