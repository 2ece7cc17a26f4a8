//! Tests of rejected early data (RFC 8446 section 4.2.10).

use crate::tests::checks::{equal, holds, same};
use aead_ciphers::aead::AES_128_GCM;
use hex::FromHex;
use records::ContentType::{ApplicationData, Handshake};
use records::{ContentType, EarlyData, Reader, RecordError, Writer};
use std::alloc::Global;
use std::process::Abort;
use std::test::Fail;

const KEY: [u8; 16] = [0, 1, 2, 3, 4, 5, 6, 7, 8, 9, 10, 11, 12, 13, 14, 15];

const IV: [u8; 12] = [0, 1, 2, 3, 4, 5, 6, 7, 8, 9, 10, 11];

/// The client's first record under `KEY`, which `tools/read-records make` printed.
const FLIGHT: &str = "1703030016fb09cba2090d58e73c31563352433d33c8bfd9f986eb";

/// Early data, as lengths of contents with one byte of padding each, the bound, the server's size limit, and what happens to the
/// last of its records.
struct Case {
    sent: &'static [usize],
    bound: u32,
    size_limit: usize,
    result: Result<(), RecordError>,
}

const CASES: [Case; 7] = [
    Case {
        sent: &[0],
        bound: 1,
        size_limit: 16385,
        result: Ok(()),
    },
    Case {
        sent: &[0],
        bound: 0,
        size_limit: 16385,
        result: Err(RecordError::TooMuchEarlyData),
    },
    Case {
        sent: &[59, 39],
        bound: 100,
        size_limit: 16385,
        result: Ok(()),
    },
    Case {
        sent: &[59, 39],
        bound: 99,
        size_limit: 16385,
        result: Err(RecordError::TooMuchEarlyData),
    },
    Case {
        sent: &[199],
        bound: 200,
        size_limit: 64,
        result: Ok(()),
    },
    Case {
        sent: &[199],
        bound: 199,
        size_limit: 64,
        result: Err(RecordError::TooMuchEarlyData),
    },
    Case {
        sent: &[16383, 16383],
        bound: u32::MAX,
        size_limit: 64,
        result: Ok(()),
    },
];

/// Returns a record of early data.
fn early_record(alloc: Global, client: &mut Writer, len: usize) -> Result<Vec<u8>, Fail> {
    let content = Vec::from_elem(alloc, 7, len)?;
    let mut out = Vec::new(alloc);
    client.write(ApplicationData, &content, 1, &mut out)?;
    Ok(out)
}

/// Gathers a record, which is the whole of a buffer, past early data.
fn gather(
    reader: &mut Reader,
    early_data: &mut EarlyData,
    record: &mut [u8],
) -> Result<Option<(ContentType, usize)>, RecordError> {
    let end = record.len();
    reader.gather_past_early_data(early_data, record, 0, 0, end)
}

/// Asserts that the second flight is read after early data, which is then over.
fn goes_on(
    rt: &impl Abort,
    reader: &mut Reader,
    early_data: &mut EarlyData,
    early: &mut [u8],
) -> Result<(), Fail> {
    let mut flight = <[u8; 27]>::from_hex(FLIGHT)?;
    let read = gather(reader, early_data, &mut flight);
    equal(rt, read, Ok(Some((Handshake, 5))), "the second flight");
    holds(rt, early_data.is_over(), "the early data is over");
    let error = if early.len().saturating_sub(21) > reader.size_limit() {
        RecordError::InnerPlaintextTooLong
    } else {
        RecordError::Refused
    };
    let refused = gather(reader, early_data, early);
    equal(rt, refused, Err(error), "no more of it");
    holds(rt, reader.is_closed(), "closed");
    Ok(())
}

/// Asserts that early data is passed over, up to the bound, with a key and, after a HelloRetryRequest, without.
fn is_passed_over(rt: &impl Abort, alloc: Global, case: &Case) -> Result<(), Fail> {
    let mut client = Writer::new(&AES_128_GCM, &[5; 16], IV)?;
    let mut reader = Reader::new(&AES_128_GCM, &KEY, IV)?;
    reader.set_size_limit(case.size_limit)?;
    let mut early_data = EarlyData::rejected(case.bound);
    let mut without_key = EarlyData::rejected(case.bound);
    let mut last = Ok(());
    let mut record = Vec::new(alloc);
    for &len in case.sent {
        record = early_record(alloc, &mut client, len)?;
        let before = record.clone()?;
        let read = gather(&mut reader, &mut early_data, &mut record);
        same(rt, &record, &before, "the record stays");
        last = without_key.skip(&record);
        equal(rt, read, last.map(|()| None), "the same without a key");
    }
    equal(rt, last, case.result, "the last record");
    equal(rt, reader.number(), 0, "no number");
    equal(rt, reader.is_closed(), last.is_err(), "closed by an error");
    if last.is_ok() {
        goes_on(rt, &mut reader, &mut early_data, &mut record)?;
    }
    Ok(())
}

#[test]
fn passed_over_up_to_the_bound(rt: HostRuntime) -> Result<(), Fail> {
    for case in &CASES {
        is_passed_over(&rt, rt.alloc(), case)?;
    }
    Ok(())
}

/// Bytes that are no early data, and the errors.
const OTHERS: [(&str, RecordError); 5] = [
    ("16030300020100", RecordError::UnexpectedRecord),
    (
        "1703030010fb09cba2090d58e73c31563352433d33",
        RecordError::EncryptedRecordTooShort,
    ),
    ("1703034101", RecordError::EncryptedRecordTooLong),
    (
        "1703030016fb09cba2090d58e73c31563352433d33c8bfd9f986",
        RecordError::WrongLength,
    ),
    ("17030300", RecordError::WrongLength),
];

#[test]
fn nothing_else_is_passed_over(rt: HostRuntime) -> Result<(), Fail> {
    for (text, error) in OTHERS {
        let mut bytes = hex::decode(rt.alloc(), text)?;
        let mut early_data = EarlyData::rejected(1000);
        equal(&rt, early_data.skip(&bytes), Err(error), "without a key");
        let mut reader = Reader::new(&AES_128_GCM, &KEY, IV)?;
        let read = gather(&mut reader, &mut early_data, &mut bytes);
        equal(&rt, read, Err(error), "with a key");
        equal(&rt, reader.is_closed(), error.alert().is_some(), "closed");
        equal(&rt, early_data.remaining(), 1000, "nothing counted");
    }
    Ok(())
}
