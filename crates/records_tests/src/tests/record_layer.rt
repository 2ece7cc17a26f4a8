//! Tests with records of Python's `cryptography`, which are written and read, and with records that are
//! rejected.

use crate::tests::checks::{displays, equal, holds, same};
use aead_ciphers::aead::{AES_128_GCM, AES_256_GCM, Algorithm};
use hex::FromHex;
use records::ContentType::{Alert, ApplicationData, Handshake};
use records::{ContentType, MAX_CONTENT_LEN, Reader, RecordError, RecordKey, Writer};
use std::alloc::Global;
use std::process::Abort;
use std::test::Fail;

/// A record that `tools/read-records make` printed.
struct Case {
    content_type: ContentType,
    content: &'static [u8],
    padding: usize,
    record: &'static str,
}

const OF_AES_128: [Case; 3] = [
    Case {
        content_type: Handshake,
        content: b"hello",
        padding: 0,
        record: "1703030016fb09cba2090d58e73c31563352433d33c8bfd9f986eb",
    },
    Case {
        content_type: ApplicationData,
        content: b"",
        padding: 0,
        record: "1703030011d67694b177740aedfba37ae58563153ae0",
    },
    Case {
        content_type: ApplicationData,
        content: b"with zeros\0\0",
        padding: 7,
        record: "170303002486c888335ae8b7f06f0e8904bdb50a40532cb7cae9b995b53e555eec6fce9f8e8d77b915",
    },
];

const OF_AES_256: [Case; 3] = [
    Case {
        content_type: Alert,
        content: &[2, 50],
        padding: 1,
        record: "170303001438b3fac9f5ef2883dbf4b5e9d29a66668f3dd85a",
    },
    Case {
        content_type: Handshake,
        content: b"xxxxxxxxxxxxxxxxxxxxxxxxxxxxxxxxx",
        padding: 14,
        record: "17030300402f5255253d5775ebf4dc77b86889f0f7eba907ffa1a82fdbd9f4c8df9c6fd0b76bc472c3d1a24a346746e01483030bdfd9a1f1bc17b9b047980d9ca4891f7c1d",
    },
    Case {
        content_type: ApplicationData,
        content: b"",
        padding: 3,
        record: "1703030014b589a82976661c9db8fc622cd89f183d1e2d2e9f",
    },
];

const KEY: [u8; 32] = [
    0, 1, 2, 3, 4, 5, 6, 7, 8, 9, 10, 11, 12, 13, 14, 15, 16, 17, 18, 19, 20, 21, 22, 23, 24, 25,
    26, 27, 28, 29, 30, 31,
];

const IV: [u8; 12] = [0, 1, 2, 3, 4, 5, 6, 7, 8, 9, 10, 11];

/// Returns the inner plaintext: the content, its type and the padding.
fn inner_plaintext(alloc: Global, case: &Case) -> Result<Vec<u8>, Fail> {
    let mut inner = case.content.to_vec(alloc)?;
    inner.push(case.content_type.code())?;
    for _ in 0..case.padding {
        inner.push(0)?;
    }
    Ok(inner)
}

/// Writes a record.
fn write(
    alloc: Global,
    writer: &mut Writer,
    content_type: ContentType,
    content: &[u8],
    padding: usize,
) -> Result<Vec<u8>, RecordError> {
    let mut record = Vec::new(alloc);
    writer.write(content_type, content, padding, &mut record)?;
    Ok(record)
}

/// Asserts that these bytes are the record of a case.
fn is_record(rt: &impl Abort, alloc: Global, case: &Case, bytes: &[u8]) -> Result<(), Fail> {
    let wanted = hex::decode(alloc, case.record)?;
    same(rt, bytes, &wanted, "the record");
    Ok(())
}

/// Asserts that the record of a case is read as its content.
fn is_read(
    rt: &impl Abort,
    reader: &mut Reader,
    case: &Case,
    record: &mut [u8],
) -> Result<(), Fail> {
    let (content_type, content) = reader.read(record)?;
    equal(rt, content_type, case.content_type, "the content type");
    same(rt, content, case.content, "the content");
    Ok(())
}

/// Asserts that the first bytes are these, and that those after them are unchanged.
fn begins_with(rt: &impl Abort, bytes: &[u8], front: &[u8], before: &[u8]) {
    holds(rt, bytes.starts_with(front), "the front");
    let rest = before.get(front.len()..).unwrap_or(before);
    holds(rt, bytes.ends_with(rest), "the bytes after the front");
}

/// Asserts that the records of a run are written, and read again, whatever updates are refused between them for want of a secret.
/// Once the borrow of a content ends, the inner plaintext is at the front of the buffer, and every byte after it is unchanged.
fn there_and_back(
    rt: &impl Abort,
    alloc: Global,
    algorithm: &'static Algorithm,
    key: &[u8],
    iv: [u8; 12],
    cases: &[Case],
) -> Result<(), Fail> {
    let mut writer = Writer::new(algorithm, key, iv)?;
    let mut reader = Reader::new(algorithm, key, iv)?;
    for case in cases {
        let (content_type, content) = (case.content_type, case.content);
        let mut record = write(alloc, &mut writer, content_type, content, case.padding)?;
        is_record(rt, alloc, case, &record)?;
        let before = record.clone()?;
        is_read(rt, &mut reader, case, &mut record)?;
        begins_with(rt, &record, &inner_plaintext(alloc, case)?, &before);
        equal(rt, writer.update(), Err(RecordError::NoSecret), "a writer");
        equal(rt, reader.update(), Err(RecordError::NoSecret), "a reader");
    }
    Ok(())
}

#[test]
fn records_of_another_implementation(rt: HostRuntime) -> Result<(), Fail> {
    there_and_back(&rt, rt.alloc(), &AES_128_GCM, &KEY[..16], IV, &OF_AES_128)?;
    there_and_back(&rt, rt.alloc(), &AES_256_GCM, &KEY, [255; 12], &OF_AES_256)
}

fn appends(
    writer: &mut Writer,
    content: &[u8],
    padding: usize,
    bytes: &mut Vec<u8>,
) -> Result<(), RecordError> {
    writer.write(ApplicationData, content, padding, bytes)
}

/// The contents and the paddings of three records.
const THREE: [(&[u8], usize); 3] = [(b"to", 0), (b"get", 5), (b"her", 1)];

/// Returns three records, followed by five bytes.
fn three_records(alloc: Global) -> Result<Vec<u8>, Fail> {
    let mut writer = Writer::new(&AES_128_GCM, &KEY[..16], IV)?;
    let mut bytes = Vec::new(alloc);
    for (content, padding) in THREE {
        appends(&mut writer, content, padding, &mut bytes)?;
    }
    bytes.extend_from_slice(b"later")?;
    Ok(bytes)
}

/// The contents of three records become one text in their buffer, and the bytes after the records are
/// unchanged.
#[test]
fn gathered_in_one_buffer(rt: HostRuntime) -> Result<(), Fail> {
    let mut reader = Reader::new(&AES_128_GCM, &KEY[..16], IV)?;
    let mut bytes = three_records(rt.alloc())?;
    assert!(rt; bytes.len() == 85);
    for (filled, at, end) in [(0, 0, 24), (2, 24, 54), (5, 54, 80)] {
        assert!(rt; filled <= at && at <= end && end <= bytes.len());
        let (content_type, len) = reader.gather(bytes.as_mut_slice(), filled, at, end)?;
        let wanted = (ApplicationData, if at == 0 { 2 } else { 3 });
        equal(&rt, (content_type, len), wanted, "the type and the length");
    }
    let contents = bytes.get(..8).unwrap_or(&[]);
    same(&rt, contents, b"together", "the contents");
    let rest = bytes.get(80..).unwrap_or(&[]);
    same(&rt, rest, b"later", "the bytes after the records");
    Ok(())
}

/// Returns the error with which a reader rejects a record, or `None` if it reads it.
fn error_of(reader: &mut Reader, record: &mut [u8]) -> Option<RecordError> {
    reader.read(record).err()
}

/// A record with any one bit flipped is rejected and unchanged.
#[test]
fn every_flipped_bit_is_refused(rt: HostRuntime) -> Result<(), Fail> {
    let record = <[u8; 27]>::from_hex(OF_AES_128[0].record)?;
    for bit in 0..27 * 8 {
        let mut changed = record;
        changed[bit / 8] ^= 1 << (bit % 8);
        let before = changed;
        let mut reader = Reader::new(&AES_128_GCM, &KEY[..16], IV)?;
        let error = error_of(&mut reader, &mut changed);
        holds(&rt, error.is_some(), "a flipped bit");
        same(&rt, &changed, &before, "the record stays");
    }
    Ok(())
}

/// Asserts that each call of a closed reader fails with `Closed`.
fn is_closed(rt: &impl Abort, reader: &mut Reader, record: &mut [u8]) {
    let closed = RecordError::Closed;
    equal(rt, error_of(reader, record), Some(closed), "read");
    equal(rt, reader.update(), Err(closed), "update");
    let refused = reader.update_with(&KEY[..16], IV);
    equal(rt, refused, Err(closed), "update_with");
    equal(rt, reader.set_size_limit(64), Err(closed), "a size limit");
}

/// Asserts that a new reader rejects these bytes with this error, and that they stay as `before`. If the error has
/// an alert, asserts that the reader is closed.
fn rejects(
    rt: &impl Abort,
    bytes: &mut [u8],
    before: &[u8],
    error: RecordError,
) -> Result<(), RecordError> {
    let mut reader = Reader::new(&AES_128_GCM, &KEY[..16], IV)?;
    let found = error_of(&mut reader, bytes);
    equal(rt, found, Some(error), "the error");
    same(rt, bytes, before, "the bytes stay");
    equal(rt, reader.is_closed(), error.alert().is_some(), "closed");
    if reader.is_closed() {
        is_closed(rt, &mut reader, bytes);
    }
    Ok(())
}

/// Bytes in hex, and the errors with which they are rejected. Only the last two are single records, but
/// neither is the next one.
const REFUSED: [(&str, RecordError); 11] = [
    ("17030300", RecordError::WrongLength),
    (
        "1603030016fb09cba2090d58e73c31563352433d33c8bfd9f986eb",
        RecordError::UnexpectedRecord,
    ),
    (
        "1703010016fb09cba2090d58e73c31563352433d33c8bfd9f986eb",
        RecordError::UnexpectedRecord,
    ),
    (
        "1703030016fb09cba2090d58e73c31563352433d33c8bfd9f986",
        RecordError::WrongLength,
    ),
    (
        "1703030016fb09cba2090d58e73c31563352433d33c8bfd9f986eb00",
        RecordError::WrongLength,
    ),
    (
        "1703030010fb09cba2090d58e73c31563352433d33",
        RecordError::EncryptedRecordTooShort,
    ),
    ("1703034012", RecordError::InnerPlaintextTooLong),
    ("1703034100", RecordError::InnerPlaintextTooLong),
    ("1703034101", RecordError::EncryptedRecordTooLong),
    (
        "1703030011d67694b177740aedfba37ae58563153ae0",
        RecordError::Refused,
    ),
    (
        "1703030016fa09cba2090d58e73c31563352433d33c8bfd9f986eb",
        RecordError::Refused,
    ),
];

#[test]
fn no_record(rt: HostRuntime) -> Result<(), Fail> {
    for (text, error) in REFUSED {
        let bytes = hex::decode(rt.alloc(), text)?;
        rejects(&rt, &mut bytes.clone()?, &bytes, error)?;
    }
    Ok(())
}

/// Authentic records that `tools/read-records make` printed, with their inner plaintexts, and the errors with
/// which those are rejected.
const AUTHENTIC: [(&str, &[u8], RecordError); 9] = [
    (
        "1703030014936ca7ce192ea8e21527108e19c356659790e9ef",
        &[0; 4],
        RecordError::NoContentType,
    ),
    (
        "1703030012927855ce3e6fca0400ecab73879ada8bf18d",
        &[1, 20],
        RecordError::UnexpectedType,
    ),
    (
        "17030300149493a7ce406f9de28c94b3020b3588fb6b1befeb",
        &[7, 255, 0, 0],
        RecordError::UnexpectedType,
    ),
    (
        "17030300129274eda2910aa7d6043aef978dc9e26bbe0b",
        &[1, 24],
        RecordError::UnexpectedType,
    ),
    (
        "17030300118b75f04452a3e4bce16217c28a63365a24",
        &[24],
        RecordError::UnexpectedType,
    ),
    (
        "170303001186304669f65d9f79d56ee3e208948883b4",
        &[21],
        RecordError::EmptyContent,
    ),
    (
        "1703030013856ca797d99d54caac2c7ae05a4f47ccf7dce0",
        &[22, 0, 0],
        RecordError::EmptyContent,
    ),
    (
        "17030300129179f7ecfe7c77a94a6ee299ed27588fe16c",
        &[2, 21],
        RecordError::AlertLength,
    ),
    (
        "1703030015915ea7db66700ca14be09c26340c114dd82afd3ef6",
        &[2, 50, 0, 21, 0],
        RecordError::AlertLength,
    ),
];

/// Asserts that a new reader rejects this record with this error, and is closed. The inner plaintext is at the
/// front of the buffer, and every byte after it is unchanged.
fn rejects_inner(
    rt: &impl Abort,
    record: &[u8],
    bytes: &mut [u8],
    inner: &[u8],
    error: RecordError,
) -> Result<(), Fail> {
    let mut reader = Reader::new(&AES_128_GCM, &KEY[..16], IV)?;
    equal(rt, error_of(&mut reader, bytes), Some(error), "the error");
    begins_with(rt, bytes, inner, record);
    holds(rt, reader.is_closed(), "closed");
    Ok(())
}

#[test]
fn authentic_and_refused(rt: HostRuntime) -> Result<(), Fail> {
    for (text, inner, error) in AUTHENTIC {
        let record = hex::decode(rt.alloc(), text)?;
        rejects_inner(&rt, &record, &mut record.clone()?, inner, error)?;
    }
    Ok(())
}

/// Content types with lengths of contents and of paddings that no record has, and the errors.
const UNWRITTEN: [(ContentType, usize, usize, RecordError); 7] = [
    (
        ApplicationData,
        MAX_CONTENT_LEN + 1,
        0,
        RecordError::ContentTooLong,
    ),
    (
        ApplicationData,
        MAX_CONTENT_LEN,
        1,
        RecordError::ContentTooLong,
    ),
    (ApplicationData, 0, usize::MAX, RecordError::ContentTooLong),
    (Alert, 0, 0, RecordError::EmptyContent),
    (Handshake, 0, 3, RecordError::EmptyContent),
    (Alert, 1, 0, RecordError::AlertLength),
    (Alert, 3, usize::MAX, RecordError::AlertLength),
];

#[test]
fn no_such_content(rt: HostRuntime) -> Result<(), Fail> {
    let mut writer = Writer::new(&AES_128_GCM, &KEY[..16], IV)?;
    let mut record = Vec::new(rt.alloc());
    for (content_type, len, padding, expected) in UNWRITTEN {
        let content = Vec::from_elem(rt.alloc(), 7, len)?;
        let refused = writer.write(content_type, &content, padding, &mut record);
        equal(&rt, refused, Err(expected), "the error");
        holds(&rt, record.is_empty(), "no record");
    }
    equal(&rt, writer.number(), 0, "no number");
    Ok(())
}

/// A writer, and a reader of what it writes.
#[derive(Drop)]
struct Ends {
    writer: Writer,
    reader: Reader,
}

/// What happens to both ends.
#[derive(Clone, Copy)]
enum Event {
    /// A content of this length is written with this padding, and read again.
    Carried(usize, usize),
    /// A content of this length is not written.
    Unwritten(usize, RecordError),
    /// A content of this length is written, and rejected.
    Unread(usize, RecordError),
    /// The writer and the reader get these size limits.
    SizeLimits(usize, usize),
    Updated,
    /// So many records are left at both ends.
    Remaining(u64),
}

use Event::{Carried, Remaining, SizeLimits, Unread, Unwritten, Updated};

impl Ends {
    fn new(limit: u64) -> Result<Self, RecordError> {
        Ok(Ends {
            writer: Writer::new(&AES_128_GCM, &KEY[..16], IV)?.with_limit(limit),
            reader: Reader::new(&AES_128_GCM, &KEY[..16], IV)?.with_limit(limit),
        })
    }

    /// Returns a record with a content of `len` sevens.
    fn write(&mut self, alloc: Global, len: usize, padding: usize) -> Result<Vec<u8>, RecordError> {
        let Ok(content) = Vec::from_elem(alloc, 7, len) else {
            return Err(RecordError::OutOfMemory);
        };
        write(alloc, &mut self.writer, ApplicationData, &content, padding)
    }

    /// Reads a record, and returns whether its content is `len` sevens.
    fn reads(&mut self, mut record: Vec<u8>, len: usize) -> Result<bool, RecordError> {
        let (_, content) = self.reader.read(record.as_mut_slice())?;
        Ok(content.len() == len && content.iter().all(|byte| *byte == 7))
    }

    fn update(&mut self) -> Result<(), RecordError> {
        self.writer.update_with(&KEY[16..], IV)?;
        self.reader.update_with(&KEY[16..], IV)
    }

    fn meets(&mut self, rt: &impl Abort, alloc: Global, event: Event) -> Result<(), RecordError> {
        match event {
            Carried(len, padding) => {
                let record = self.write(alloc, len, padding)?;
                assert!(rt; self.reads(record, len)?, "{len}");
            }
            Unwritten(len, error) => {
                assert_eq!(rt; self.write(alloc, len, 0).err(), Some(error), "{len}");
            }
            Unread(len, error) => {
                let record = self.write(alloc, len, 0)?;
                assert_eq!(rt; self.reads(record, len), Err(error), "{len}");
            }
            SizeLimits(writer, reader) => {
                self.writer.set_size_limit(writer)?;
                self.reader.set_size_limit(reader)?;
            }
            Updated => self.update()?,
            Remaining(count) => {
                let found = (self.writer.remaining(), self.reader.remaining());
                equal(rt, found, (count, count), "the records left");
            }
        }
        Ok(())
    }
}

/// Asserts that the events happen one after another.
fn happen(rt: &impl Abort, alloc: Global, limit: u64, events: &[Event]) -> Result<(), Fail> {
    let mut ends = Ends::new(limit)?;
    for &event in events {
        ends.meets(rt, alloc, event)?;
    }
    Ok(())
}

/// The longest content and the longest padding, under the size limit of RFC 8446 and under a lower one, which
/// a key update does not change.
const LONGEST: [Event; 9] = [
    Carried(MAX_CONTENT_LEN, 0),
    Carried(0, MAX_CONTENT_LEN),
    SizeLimits(64, 64),
    Updated,
    Carried(63, 0),
    Carried(3, 60),
    Unwritten(64, RecordError::ContentTooLong),
    SizeLimits(65, 64),
    Unread(64, RecordError::InnerPlaintextTooLong),
];

/// After the last of two records, writing fails until the key is updated.
const END_OF_THE_SEQUENCE: [Event; 7] = [
    Carried(3, 0),
    Carried(3, 0),
    Remaining(0),
    Unwritten(3, RecordError::KeyUsedUp),
    Updated,
    Remaining(2),
    Carried(3, 0),
];

#[test]
fn longest_records(rt: HostRuntime) -> Result<(), Fail> {
    happen(&rt, rt.alloc(), 4, &LONGEST)
}

#[test]
fn the_end_of_the_sequence(rt: HostRuntime) -> Result<(), Fail> {
    happen(&rt, rt.alloc(), 2, &END_OF_THE_SEQUENCE)?;
    let mut reader = Ends::new(0)?.reader;
    let mut bytes = <[u8; 27]>::from_hex(OF_AES_128[0].record)?;
    let found = error_of(&mut reader, &mut bytes);
    equal(&rt, found, Some(RecordError::KeyUsedUp), "a third record");
    Ok(())
}

#[test]
fn size_limits(rt: HostRuntime) -> Result<(), Fail> {
    let mut key = RecordKey::new(&AES_128_GCM, &KEY[..16], IV)?;
    for (size_limit, is_allowed) in [(63, false), (64, true), (16385, true), (16386, false)] {
        let before = key.size_limit();
        let result = key.set_size_limit(size_limit);
        equal(&rt, result.is_ok(), is_allowed, "set_size_limit");
        let wanted = if is_allowed { size_limit } else { before };
        equal(&rt, key.size_limit(), wanted, "the size limit");
    }
    Ok(())
}

#[test]
fn limits_where_none_is_set(rt: HostRuntime) -> Result<(), Fail> {
    let writer = Writer::new(&AES_128_GCM, &KEY[..16], IV)?;
    let reader = Reader::new(&AES_128_GCM, &KEY[..16], IV)?;
    let found = (writer.remaining(), reader.remaining());
    equal(&rt, found, (1 << 24, u64::MAX), "the records left");
    let found = (writer.size_limit(), reader.size_limit());
    equal(&rt, found, (16385, 16385), "the size limits");
    Ok(())
}

#[test]
fn a_key_of_another_length(rt: HostRuntime) {
    let writer = Writer::new(&AES_256_GCM, &KEY[..16], IV);
    equal(&rt, writer.err(), Some(RecordError::KeyLength), "a writer");
    let reader = Reader::new(&AES_128_GCM, &KEY, IV);
    equal(&rt, reader.err(), Some(RecordError::KeyLength), "a reader");
}

/// A record is sealed around its content, in a slice.
#[test]
fn sealed_in_place(rt: HostRuntime) -> Result<(), Fail> {
    let mut writer = Writer::new(&AES_128_GCM, &KEY[..16], IV)?;
    let mut record = [0; 27];
    record[5..10].copy_from_slice(b"hello");
    let no_room = writer.seal(Handshake, &mut record, 5, 1);
    equal(&rt, no_room, Err(RecordError::NoRoom), "no room");
    let sealed = writer.seal(Handshake, &mut record, 5, 0);
    equal(&rt, sealed, Ok(27), "the length");
    let wanted = <[u8; 27]>::from_hex(OF_AES_128[0].record)?;
    same(&rt, &record, &wanted, "the record");
    equal(&rt, writer.number(), 1, "the number");
    Ok(())
}

/// The record that `tools/read-records make` printed for number 2^64 - 1.
const LAST: &str = "17030300151ebc8ad8e3b12c91d4263ea37368226008651065e6";

/// Seals a content of four bytes under the last number.
fn seal_last(key: &RecordKey, record: &mut [u8]) -> Result<usize, RecordError> {
    key.seal_at(u64::MAX, ApplicationData, record, 4, 0)
}

/// A record is sealed under the last number, in a slice with bytes after it.
#[test]
fn sealed_by_number(rt: HostRuntime) -> Result<(), Fail> {
    let key = RecordKey::new(&AES_128_GCM, &KEY[..16], IV)?;
    let mut record = [9; 28];
    record[5..9].copy_from_slice(b"last");
    let no_room = seal_last(&key, &mut record[..25]);
    equal(&rt, no_room, Err(RecordError::NoRoom), "no room");
    let sealed = seal_last(&key, &mut record);
    equal(&rt, sealed, Ok(26), "the length");
    let wanted = <[u8; 26]>::from_hex(LAST)?;
    holds(&rt, record.starts_with(&wanted), "the record");
    holds(&rt, record.ends_with(&[9; 2]), "the bytes after it");
    Ok(())
}

#[test]
fn opened_by_number(rt: HostRuntime) -> Result<(), Fail> {
    let key = RecordKey::new(&AES_128_GCM, &KEY[..16], IV)?;
    let mut record = <[u8; 26]>::from_hex(LAST)?;
    let opened = key.open_at(u64::MAX, &mut record);
    equal(&rt, opened, Ok((ApplicationData, 4)), "the last record");
    same(&rt, &record[5..9], b"last", "the content");
    Ok(())
}

/// Seals a content of four bytes under the last number to another buffer.
fn seal_last_to(key: &RecordKey, out: &mut [u8]) -> Result<usize, RecordError> {
    key.seal_to(u64::MAX, ApplicationData, b"last", 0, out)
}

/// Opens the record of the last number to another buffer.
fn open_last_to(
    key: &RecordKey,
    record: &[u8],
    out: &mut [u8],
) -> Result<(ContentType, usize), RecordError> {
    key.open_to(u64::MAX, record, out)
}

/// Asserts that this record is sealed to another buffer, in only the bytes that it needs, and that a failure writes none.
fn is_sealed_to(rt: &impl Abort, key: &RecordKey, record: &[u8]) {
    let mut out = [9; 28];
    let no_room = seal_last_to(key, &mut out[..25]);
    equal(rt, no_room, Err(RecordError::NoRoom), "no room");
    same(rt, &out, &[9; 28], "nothing written");
    equal(rt, seal_last_to(key, &mut out), Ok(26), "the length");
    begins_with(rt, &out, record, &[9; 28]);
}

/// Asserts that this record is opened to another buffer, in only the bytes that it needs, and that a failure writes none.
fn is_opened_to(rt: &impl Abort, key: &RecordKey, record: &[u8]) {
    let mut out = [9; 8];
    let no_room = open_last_to(key, record, &mut out[..4]);
    equal(rt, no_room, Err(RecordError::NoRoom), "no room to open");
    same(rt, &out, &[9; 8], "nothing opened");
    let opened = open_last_to(key, record, &mut out);
    equal(rt, opened, Ok((ApplicationData, 4)), "the type");
    begins_with(rt, &out, b"last\x17", &[9; 8]);
}

#[test]
fn sealed_and_opened_to_another_buffer(rt: HostRuntime) -> Result<(), Fail> {
    let key = RecordKey::new(&AES_128_GCM, &KEY[..16], IV)?;
    let record = <[u8; 26]>::from_hex(LAST)?;
    is_sealed_to(&rt, &key, &record);
    is_opened_to(&rt, &key, &record);
    Ok(())
}

/// Asserts that a record is not opened to another buffer, which then begins with `inner`, and is unchanged after it.
fn rejects_to(
    rt: &impl Abort,
    record: &[u8],
    inner: &[u8],
    error: RecordError,
) -> Result<(), RecordError> {
    let key = RecordKey::new(&AES_128_GCM, &KEY[..16], IV)?;
    let mut out = [9; 32];
    let opened = key.open_to(0, record, &mut out);
    equal(rt, opened, Err(error), "the error");
    begins_with(rt, &out, inner, &[9; 32]);
    Ok(())
}

#[test]
fn rejected_to_another_buffer(rt: HostRuntime) -> Result<(), Fail> {
    for (text, error) in &REFUSED {
        let record = hex::decode(rt.alloc(), text)?;
        rejects_to(&rt, &record, &[], *error)?;
    }
    for (text, inner, error) in &AUTHENTIC {
        let record = hex::decode(rt.alloc(), text)?;
        rejects_to(&rt, &record, inner, *error)?;
    }
    Ok(())
}

/// Seals a content of four bytes under the last number, without a header.
fn seal_last_payload(key: &RecordKey, payload: &mut [u8]) -> Result<usize, RecordError> {
    key.seal_payload(u64::MAX, ApplicationData, payload, 4, 0)
}

/// Opens a payload.
fn open_payload(
    key: &RecordKey,
    number: u64,
    payload: &mut [u8],
) -> Result<(ContentType, usize), RecordError> {
    key.open_payload(number, payload)
}

/// A payload is the record after its header, sealed in only the bytes that it needs.
#[test]
fn sealed_without_a_header(rt: HostRuntime) -> Result<(), Fail> {
    let key = RecordKey::new(&AES_128_GCM, &KEY[..16], IV)?;
    let record = <[u8; 26]>::from_hex(LAST)?;
    let mut payload = [9; 23];
    payload[..4].copy_from_slice(b"last");
    let no_room = seal_last_payload(&key, &mut payload[..20]);
    equal(&rt, no_room, Err(RecordError::NoRoom), "no room");
    let sealed = seal_last_payload(&key, &mut payload);
    equal(&rt, sealed, Ok(21), "the length");
    begins_with(&rt, &payload, &record[5..], &[9; 23]);
    Ok(())
}

/// Opens the payload of a record without its header. Asserts what comes of it, and with which bytes the payload then begins.
fn opens_payload(
    rt: &impl Abort,
    number: u64,
    record: &mut [u8],
    wanted: Result<(ContentType, usize), RecordError>,
    inner: &[u8],
) -> Result<(), Fail> {
    let key = RecordKey::new(&AES_128_GCM, &KEY[..16], IV)?;
    let Some(payload) = record.get_mut(5..) else {
        holds(rt, false, "a header");
        return Ok(());
    };
    let opened = open_payload(&key, number, payload);
    equal(rt, opened, wanted, "the type and the length, or the error");
    holds(rt, payload.starts_with(inner), "the inner plaintext");
    Ok(())
}

#[test]
fn opened_without_a_header(rt: HostRuntime) -> Result<(), Fail> {
    let mut record = <[u8; 26]>::from_hex(LAST)?;
    opens_payload(
        &rt,
        u64::MAX,
        &mut record,
        Ok((ApplicationData, 4)),
        b"last\x17",
    )
}

/// An authentic record is rejected without its header for the same reason as with it, and its inner plaintext is then in the
/// place of the payload.
#[test]
fn rejected_without_a_header(rt: HostRuntime) -> Result<(), Fail> {
    for (text, inner, error) in &AUTHENTIC {
        let mut record = hex::decode(rt.alloc(), text)?;
        opens_payload(&rt, 0, &mut record, Err(*error), inner)?;
    }
    Ok(())
}

/// The lengths of payloads, and why each is rejected.
const PAYLOAD_LENGTHS: [(usize, RecordError); 5] = [
    (0, RecordError::EncryptedRecordTooShort),
    (16, RecordError::EncryptedRecordTooShort),
    (17, RecordError::Refused),
    (16402, RecordError::InnerPlaintextTooLong),
    (16641, RecordError::EncryptedRecordTooLong),
];

#[test]
fn payloads_of_other_lengths(rt: HostRuntime) -> Result<(), Fail> {
    let key = RecordKey::new(&AES_128_GCM, &KEY[..16], IV)?;
    let mut payload = [7; 16641];
    for (len, error) in PAYLOAD_LENGTHS {
        let opened = open_payload(&key, 0, &mut payload[..len]);
        equal(&rt, opened, Err(error), "the error");
    }
    same(&rt, &payload, &[7; 16641], "unchanged");
    Ok(())
}

/// Numbers, and the records that `tools/read-records make` printed for them: one past the writer's default limit, and the last
/// that a reader reads.
const NUMBERED: [(u64, &str); 2] = [
    (
        1 << 24,
        "1703030015c9fe435a1a697eecad76a4c1665cb1743d58ad11bd",
    ),
    (
        u64::MAX - 1,
        "1703030015e238123fefd7cea0052137e396f15bb2570a1387a8",
    ),
];

/// A new reader that starts at a number reads the record with this number.
#[test]
fn starting_at(rt: HostRuntime) -> Result<(), Fail> {
    for (number, text) in NUMBERED {
        let mut reader = Reader::new(&AES_128_GCM, &KEY[..16], IV)?.starting_at(number);
        let mut record = <[u8; 26]>::from_hex(text)?;
        let (content_type, content) = reader.read(&mut record)?;
        equal(&rt, content_type, ApplicationData, "the type");
        same(&rt, content, b"last", "the content");
        equal(&rt, reader.number(), number.wrapping_add(1), "the number");
    }
    let mut ended = Reader::new(&AES_128_GCM, &KEY[..16], IV)?.starting_at(u64::MAX);
    let mut record = <[u8; 26]>::from_hex(LAST)?;
    let found = error_of(&mut ended, &mut record);
    equal(&rt, found, Some(RecordError::KeyUsedUp), "none after them");
    Ok(())
}

/// Asserts that a writer of this key refuses the key and IV that it has and is then unchanged, and that it takes another IV.
fn refuses_its_own_key(
    rt: &impl Abort,
    alloc: Global,
    mut writer: Writer,
    key: &[u8],
) -> Result<(), Fail> {
    write(alloc, &mut writer, ApplicationData, b"one", 0)?;
    let refused = writer.update_with(key, IV);
    equal(rt, refused, Err(RecordError::SameKey), "its own key");
    equal(rt, writer.number(), 1, "the number stays");
    writer.update_with(key, [7; 12])?;
    equal(rt, writer.number(), 0, "the number under another IV");
    Ok(())
}

#[test]
fn a_writer_refuses_its_own_key(rt: HostRuntime) -> Result<(), Fail> {
    let writer = Writer::new(&AES_128_GCM, &KEY[..16], IV)?;
    refuses_its_own_key(&rt, rt.alloc(), writer, &KEY[..16])?;
    let writer = Writer::new(&AES_256_GCM, &KEY, IV)?;
    refuses_its_own_key(&rt, rt.alloc(), writer, &KEY)
}

/// Each error with its text, and the number of its alert (RFC 8446 section 6).
const TEXTS: [(RecordError, &str, u8); 26] = [
    (
        RecordError::KeyLength,
        "the key does not have the length of the algorithm's keys",
        0,
    ),
    (
        RecordError::NoSecret,
        "there is no secret that gives the next key",
        0,
    ),
    (
        RecordError::HasSecret,
        "the next key is given by the secret",
        0,
    ),
    (
        RecordError::SameKey,
        "the next key and IV are those of this key",
        0,
    ),
    (
        RecordError::SizeLimit,
        "the size limit is not between 64 and 2^14 + 1",
        0,
    ),
    (
        RecordError::PeerSizeLimit,
        "the peer's size limit is not an allowed one",
        47,
    ),
    (
        RecordError::ContentTooLong,
        "the content and its padding are longer than the size limit allows",
        0,
    ),
    (
        RecordError::NoRoom,
        "the buffer has no room for the record",
        0,
    ),
    (RecordError::OutOfMemory, "no memory for the record", 0),
    (
        RecordError::KeyUsedUp,
        "the limit of records under this key is reached",
        0,
    ),
    (
        RecordError::Closed,
        "the reader is closed, since it has rejected a record",
        0,
    ),
    (
        RecordError::WrongLength,
        "the record does not have the length that its header gives",
        0,
    ),
    (
        RecordError::UnexpectedRecord,
        "the record header is not an expected one",
        10,
    ),
    (
        RecordError::PlaintextTooLong,
        "the plaintext record has more than 2^14 bytes",
        22,
    ),
    (
        RecordError::EncryptedRecordTooLong,
        "the encrypted record has more than 2^14 + 256 bytes",
        22,
    ),
    (
        RecordError::InnerPlaintextTooLong,
        "the inner plaintext is longer than the size limit",
        22,
    ),
    (
        RecordError::EncryptedRecordTooShort,
        "the encrypted record has fewer than 17 bytes",
        20,
    ),
    (RecordError::Refused, "the record is not authentic", 20),
    (
        RecordError::TooMuchEarlyData,
        "there is more early data than the server allows",
        10,
    ),
    (
        RecordError::NoContentType,
        "the inner plaintext has no content type",
        10,
    ),
    (
        RecordError::UnexpectedType,
        "a protected record cannot have this content type",
        10,
    ),
    (
        RecordError::EmptyContent,
        "an alert or handshake record has no content",
        10,
    ),
    (
        RecordError::AlertLength,
        "an alert does not have 2 bytes",
        50,
    ),
    (
        RecordError::MessageType,
        "a handshake message may not be sent here",
        0,
    ),
    (
        RecordError::MessageLength,
        "the handshake messages are not whole",
        0,
    ),
    (
        RecordError::Ended,
        "the connection has sent its last record",
        0,
    ),
];

#[test]
fn texts_and_alerts(rt: HostRuntime) -> Result<(), Fail> {
    for (error, text, alert) in &TEXTS {
        displays(&rt, error, text)?;
        let found = error.alert().map_or(0, |alert| alert as u8);
        equal(&rt, found, *alert, text);
    }
    Ok(())
}
