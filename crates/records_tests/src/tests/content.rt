//! Tests of contents of any length, of alerts that are sent, and of the size limits of peers.

use crate::tests::checks::{equal, holds, same};
use crate::tests::connection::bytes_of;
use aead_ciphers::aead::AES_128_GCM;
use records::ContentType::{Alert, ApplicationData, Handshake};
use records::{
    AlertDescription, CLOSE_NOTIFY, ContentType, Reader, RecordError, Side, Writer, fatal_alert,
    plaintext_alert,
};
use std::alloc::Global;
use std::process::Abort;
use std::test::Fail;

const KEY: [u8; 16] = [0, 1, 2, 3, 4, 5, 6, 7, 8, 9, 10, 11, 12, 13, 14, 15];

const IV: [u8; 12] = [0, 1, 2, 3, 4, 5, 6, 7, 8, 9, 10, 11];

/// A content of the bytes 0, 1 and so on, and its records at a size limit of 64 bytes, which `tools/read-records make` printed, in
/// parts.
struct Content {
    content_type: ContentType,
    len: u8,
    padding: usize,
    records: &'static [&'static str],
}

const CONTENTS: [Content; 5] = [
    Content {
        content_type: ApplicationData,
        len: 130,
        padding: 0,
        records: &[
            "1703030050936da5cd621ef15343db6b813aae7e07a33708f547f8ebe1fe38eb360859bc73a585f9d4d0a591c468dd23",
            "cceca4f9bdfcae26c330b2004c167748e9967128f3a50ecb573f7d1b3ba8fc43d2e9fab9ff1703030050fe7957d0275b",
            "3a3ac0ec96e077250de7a92857ea95e832748ead8958fbc5abb3a12f6cb38dc5a0836872577bc2c45f6c6efb3291d938",
            "9e5ff2370f96dbfec190794bc1a0207cd92fa2c8eee234a7f6d917030300158fde7cda6dfb7c2de52efdafa034f2f46c",
            "7096babf",
        ],
    },
    Content {
        content_type: Handshake,
        len: 126,
        padding: 0,
        records: &[
            "1703030050936da5cd621ef15343db6b813aae7e07a33708f547f8ebe1fe38eb360859bc73a585f9d4d0a591c468dd23",
            "cceca4f9bdfcae26c330b2004c167748e9967128f2b682c53438dd297cc7d62d3f33bf02f61703030050fe7957d0275b",
            "3a3ac0ec96e077250de7a92857ea95e832748ead8958fbc5abb3a12f6cb38dc5a0836872577bc2c45f6c6efb3291d938",
            "9e5ff2370f96dbfec1916ac7cfc327dceb68cde2800feee24dd0",
        ],
    },
    Content {
        content_type: Handshake,
        len: 7,
        padding: 60,
        records: &[
            "1703030050936da5d8661bf7544bd2618a36a37008b3261ae653edfdf6e621f12d1444a26c85a4dbf7f480b7e340f409",
            "e7c089d792cc9f14f00487367b2e4e72d2aa4c16e4edf19ba1a6a813499955880905df903a1703030050c23d1384641f",
            "7f7c87a4dfaa3c6940a9e67806b8c6bc6722d9f5d002a099f6edfe4f0dd1eea1c5e50f1a3e11a9a83202018b43e3aa4c",
            "eb29854f76eca082bc8771f444e76b08f116f0a0b2d16f5440a9170303004ef7b7fc5b7a92d282007d8904aab50a4053",
            "2cb7ca06ee8d44f7c42dd4c9d61092564eec4d6a00da1697cc5a78bcfd30aa3fbe6fea352230751ffd0cce1eb727b1a3",
            "799b113fd3bfa1b0b11840c020",
        ],
    },
    Content {
        content_type: ApplicationData,
        len: 0,
        padding: 63,
        records: &[
            "1703030050846ca7ce661bf7544bd2618a36a37008b3261ae653edfdf6e621f12d1444a26c85a4dbf7f480b7e340f409",
            "e7c089d792cc9f14f00487367b2e4e72d2aa4c16e410e1589316e526eaf638a315058b6db4",
        ],
    },
    Content {
        content_type: Alert,
        len: 2,
        padding: 61,
        records: &[
            "1703030050936db2ce661bf7544bd2618a36a37008b3261ae653edfdf6e621f12d1444a26c85a4dbf7f480b7e340f409",
            "e7c089d792cc9f14f00487367b2e4e72d2aa4c16e4077468aa94f311e7a4a7b9c23902576d",
        ],
    },
];

/// Returns a writer of this many records, with a size limit of 64 bytes.
fn new_writer(limit: u64) -> Result<Writer, RecordError> {
    let mut writer = Writer::new(&AES_128_GCM, &KEY, IV)?.with_limit(limit);
    writer.set_size_limit(64)?;
    Ok(writer)
}

/// Returns the bytes 0, 1 and so on.
fn bytes_from_zero(alloc: Global, len: u8) -> Result<Vec<u8>, Fail> {
    let mut bytes = Vec::new(alloc);
    for byte in 0..len {
        bytes.push(byte)?;
    }
    Ok(bytes)
}

/// Returns the records of a content, appended to nothing.
fn appended(alloc: Global, case: &Content, content: &[u8]) -> Result<Vec<u8>, Fail> {
    let mut written = Vec::new(alloc);
    new_writer(4)?.write_content(case.content_type, content, case.padding, &mut written)?;
    Ok(written)
}

/// Seals the content of a case in a slice.
fn seal(
    writer: &mut Writer,
    case: &Content,
    content: &[u8],
    out: &mut [u8],
) -> Result<usize, RecordError> {
    writer.seal_content(case.content_type, content, case.padding, out)
}

/// Asserts that a content is sealed as these records, in a slice that has room for them, and that nothing is written in one that
/// has not.
fn is_sealed(
    rt: &impl Abort,
    alloc: Global,
    case: &Content,
    content: &[u8],
    wanted: &[u8],
) -> Result<(), Fail> {
    let mut writer = new_writer(4)?;
    let mut short = Vec::from_elem(alloc, 9, wanted.len().saturating_sub(1))?;
    let refused = seal(&mut writer, case, content, &mut short);
    equal(rt, refused, Err(RecordError::NoRoom), "no room");
    holds(rt, short.iter().all(|byte| *byte == 9), "nothing sealed");
    let mut sealed = Vec::from_elem(alloc, 9, wanted.len())?;
    let len = seal(&mut writer, case, content, &mut sealed)?;
    equal(rt, len, wanted.len(), "the length");
    same(rt, &sealed, wanted, "sealed");
    Ok(())
}

/// Asserts that a content is written as these records, in a `Vec` and in a slice.
fn is_written(rt: &impl Abort, alloc: Global, case: &Content) -> Result<(), Fail> {
    let content = bytes_from_zero(alloc, case.len)?;
    let wanted = bytes_of(alloc, case.records)?;
    same(rt, &appended(alloc, case, &content)?, &wanted, "appended");
    is_sealed(rt, alloc, case, &content, &wanted)
}

#[test]
fn as_many_records_as_it_takes(rt: HostRuntime) -> Result<(), Fail> {
    for case in &CONTENTS {
        is_written(&rt, rt.alloc(), case)?;
    }
    Ok(())
}

/// Content types, lengths of contents, paddings and how many records may be written, at a size limit of 64 bytes, and the errors.
const UNWRITTEN: [(ContentType, u8, usize, u64, RecordError); 8] = [
    (ApplicationData, 127, 0, 2, RecordError::KeyUsedUp),
    (ApplicationData, 0, 0, 0, RecordError::KeyUsedUp),
    (ApplicationData, 1, 63, 2, RecordError::ContentTooLong),
    (
        ApplicationData,
        0,
        usize::MAX,
        2,
        RecordError::ContentTooLong,
    ),
    (Handshake, 0, 0, 2, RecordError::EmptyContent),
    (Alert, 0, 0, 2, RecordError::EmptyContent),
    (Alert, 2, 62, 2, RecordError::ContentTooLong),
    (Alert, 4, 0, 2, RecordError::AlertLength),
];

/// Asserts that `seal_content` fails, and writes nothing.
fn is_not_sealed(
    rt: &impl Abort,
    writer: &mut Writer,
    content_type: ContentType,
    content: &[u8],
    padding: usize,
    error: RecordError,
) {
    let mut sealed = [9; 256];
    let refused = writer.seal_content(content_type, content, padding, &mut sealed);
    equal(rt, refused, Err(error), "sealed");
    same(rt, &sealed, &[9; 256], "nothing sealed");
}

#[test]
fn refused_whole(rt: HostRuntime) -> Result<(), Fail> {
    for (content_type, len, padding, limit, error) in UNWRITTEN {
        let content = bytes_from_zero(rt.alloc(), len)?;
        let mut writer = new_writer(limit)?;
        let mut out = Vec::new(rt.alloc());
        let refused = writer.write_content(content_type, &content, padding, &mut out);
        equal(&rt, refused, Err(error), "appended");
        same(&rt, &out, &[], "nothing written");
        is_not_sealed(&rt, &mut writer, content_type, &content, padding, error);
        equal(&rt, writer.number(), 0, "no number");
    }
    Ok(())
}

/// The length of a record of 2^14 bytes of content without padding.
const FULL_RECORD_LEN: usize = (1 << 14) + 22;

/// Reads full records and a last one, and returns what they carry.
fn contents_of(alloc: Global, reader: &mut Reader, bytes: &[u8]) -> Result<Vec<u8>, Fail> {
    let mut contents = Vec::new(alloc);
    for record in bytes.chunks(FULL_RECORD_LEN) {
        let mut record = record.to_vec(alloc)?;
        let (_, content) = reader.read(&mut record)?;
        contents.extend_from_slice(content)?;
    }
    Ok(contents)
}

/// 100 KB are seven records, which carry them.
#[test]
fn a_long_content_comes_back(rt: HostRuntime) -> Result<(), Fail> {
    let content = Vec::from_elem(rt.alloc(), 7, 100_000)?;
    let mut bytes = Vec::new(rt.alloc());
    Writer::new(&AES_128_GCM, &KEY, IV)?.write_content(ApplicationData, &content, 0, &mut bytes)?;
    let mut reader = Reader::new(&AES_128_GCM, &KEY, IV)?;
    let read = contents_of(rt.alloc(), &mut reader, &bytes)?;
    equal(&rt, reader.number(), 7, "the records");
    same(&rt, &read, &content, "the content");
    Ok(())
}

#[test]
fn alerts(rt: HostRuntime) -> Result<(), Fail> {
    let fatal = fatal_alert(AlertDescription::IllegalParameter);
    same(
        &rt,
        &plaintext_alert(fatal),
        b"\x15\x03\x03\x00\x02\x02\x2f",
        "a fatal one",
    );
    let plain = plaintext_alert(CLOSE_NOTIFY);
    same(&rt, &plain, b"\x15\x03\x03\x00\x02\x01\x00", "close_notify");
    let mut out = Vec::new(rt.alloc());
    new_writer(1)?.close_notify(&mut out)?;
    let mut reader = Reader::new(&AES_128_GCM, &KEY, IV)?;
    let (content_type, content) = reader.read(&mut out)?;
    equal(&rt, content_type, Alert, "the type");
    same(&rt, content, &[1, 0], "protected");
    Ok(())
}

/// What a peer sends as its RecordSizeLimit, and the size limit of a client and of a server (RFC 8449 section 4).
const PEERS: [(u16, Option<usize>, Option<usize>); 5] = [
    (63, None, None),
    (64, Some(64), Some(64)),
    (16385, Some(16385), Some(16385)),
    (16386, None, Some(16385)),
    (65535, None, Some(16385)),
];

#[test]
fn size_limits_of_peers(rt: HostRuntime) {
    for (sent, client, server) in PEERS {
        assert_eq!(rt; Side::Client.size_limit_of(sent).ok(), client, "{sent}");
        assert_eq!(rt; Side::Server.size_limit_of(sent).ok(), server, "{sent}");
    }
}
