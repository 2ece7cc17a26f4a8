//! Tests with TLS 1.3 connections of OpenSSL, whose records are read and written again.

use crate::tests::captured::CAPTURED;
use crate::tests::checks::{equal, same};
use aead_ciphers::aead::{AES_128_GCM, AES_256_GCM, Algorithm};
use hex::FromHex;
use records::{Begins, ContentType, Reader, RecordKind, Writer, classify};
use std::alloc::Global;
use std::process::Abort;
use std::test::Fail;

/// What one side sent: its bytes in hex, and the contents of its records under each key.
pub(crate) struct Direction {
    pub(crate) stream: &'static [&'static str],
    pub(crate) epochs: &'static [Epoch],
}

/// A traffic secret, its key and IV, and the contents of the records under them. The first epoch of a direction is the
/// handshake.
pub(crate) struct Epoch {
    pub(crate) secret: &'static str,
    pub(crate) key: &'static str,
    pub(crate) iv: &'static str,
    pub(crate) records: &'static [Carried],
}

/// What a record contains, with the content in hex.
pub(crate) struct Carried {
    pub(crate) content_type: ContentType,
    pub(crate) content: &'static [&'static str],
    pub(crate) padding: usize,
}

/// Decodes lines of hex.
pub(crate) fn bytes_of(alloc: Global, lines: &[&str]) -> Result<Vec<u8>, Fail> {
    let mut bytes = Vec::new(alloc);
    for line in lines {
        bytes.extend_from_slice(hex::decode(alloc, line)?.as_slice())?;
    }
    Ok(bytes)
}

fn algorithm_of(key: &[u8]) -> &'static Algorithm {
    if key.len() == 32 {
        &AES_256_GCM
    } else {
        &AES_128_GCM
    }
}

/// Returns the kind and the length of the whole record at the front of these bytes, if there is one.
fn first_record(bytes: &[u8]) -> Option<(RecordKind, usize)> {
    match classify(bytes) {
        Ok(Begins::Record(kind, len)) => Some((kind, len)),
        _ => None,
    }
}

/// Returns the offset and the length of the next protected record of a stream. Skips the plaintext records
/// before it: a ClientHello or ServerHello, and a ChangeCipherSpec.
fn next_protected(stream: &[u8], from: usize) -> Result<(usize, usize), Fail> {
    let mut at = from;
    for _ in 0..3 {
        let (kind, len) = stream
            .get(at..)
            .and_then(first_record)
            .ok_or("no whole record")?;
        if kind == RecordKind::Protected {
            return Ok((at, len));
        }
        at = at.saturating_add(len);
    }
    Err("no protected record".into())
}

/// Returns the offset in a stream of what follows the handshake.
pub(crate) fn end_of_handshake(stream: &[u8], direction: &Direction) -> Result<usize, Fail> {
    let epoch = direction.epochs.first().ok_or("no epoch")?;
    let mut at = 0;
    for _ in 0..epoch.records.len() {
        let (start, len) = next_protected(stream, at)?;
        at = start.saturating_add(len);
    }
    Ok(at)
}

/// Asserts that reading a record yields its content, and that writing the content yields the record.
fn record_there_and_back(
    rt: &impl Abort,
    alloc: Global,
    carried: &Carried,
    reader: &mut Reader,
    writer: &mut Writer,
    record: &[u8],
) -> Result<(), Fail> {
    let content = bytes_of(alloc, carried.content)?;
    let mut bytes = record.to_vec(alloc)?;
    let (content_type, read) = reader.read(bytes.as_mut_slice())?;
    equal(rt, content_type, carried.content_type, "the type");
    same(rt, read, &content, "the content");
    let mut written = Vec::new(alloc);
    writer.write(content_type, &content, carried.padding, &mut written)?;
    same(rt, &written, record, "the record");
    Ok(())
}

/// Returns a reader and a writer of the key of an epoch, which go on from those of the epoch before it.
fn next_ends(
    alloc: Global,
    before: Option<(Reader, Writer)>,
    epoch: &Epoch,
) -> Result<(Reader, Writer), Fail> {
    let key = hex::decode(alloc, epoch.key)?;
    let iv = <[u8; 12]>::from_hex(epoch.iv)?;
    match before {
        Some((mut reader, mut writer)) => {
            reader.update_with(&key, iv)?;
            writer.update_with(&key, iv)?;
            Ok((reader, writer))
        }
        None => Ok((
            Reader::new(algorithm_of(&key), &key, iv)?,
            Writer::new(algorithm_of(&key), &key, iv)?,
        )),
    }
}

/// Asserts the same for the records of an epoch, which begin at an offset in the stream, and returns the offset of what follows.
fn epoch_there_and_back(
    rt: &impl Abort,
    alloc: Global,
    epoch: &Epoch,
    reader: &mut Reader,
    writer: &mut Writer,
    stream: &[u8],
    from: usize,
) -> Result<usize, Fail> {
    let mut at = from;
    for carried in epoch.records {
        let (start, len) = next_protected(stream, at)?;
        let Some(record) = stream.get(start..).and_then(|rest| rest.get(..len)) else {
            return Err(Fail::from("past the end"));
        };
        record_there_and_back(rt, alloc, carried, reader, writer, record)?;
        at = start.saturating_add(len);
    }
    Ok(at)
}

/// Asserts the same for every record that one side sent, across its key updates.
fn there_and_back(rt: &impl Abort, alloc: Global, direction: &Direction) -> Result<(), Fail> {
    let stream = bytes_of(alloc, direction.stream)?;
    let mut at = 0;
    let mut ends = None;
    for epoch in direction.epochs {
        let (mut reader, mut writer) = next_ends(alloc, ends, epoch)?;
        at = epoch_there_and_back(rt, alloc, epoch, &mut reader, &mut writer, &stream, at)?;
        ends = Some((reader, writer));
    }
    equal(rt, at, stream.len(), "the length of the stream");
    Ok(())
}

#[test]
fn connections_of_openssl(rt: HostRuntime) -> Result<(), Fail> {
    for (name, direction) in CAPTURED {
        println!(rt; "{name}")?;
        there_and_back(&rt, rt.alloc(), direction)?;
    }
    Ok(())
}
