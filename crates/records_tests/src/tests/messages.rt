//! Tests of `tls_messages`: the rules by type, its errors, and the handshakes of OpenSSL.

use crate::tests::captured::CAPTURED;
use crate::tests::checks::{displays, equal, holds, same};
use crate::tests::connection::{Carried, Direction, bytes_of};
use crate::tests::examples::handshake_messages::take_finished;
use records::{Begins, RecordKind, classify};
use std::alloc::Global;
use std::process::Abort;
use std::test::Fail;
use tls_messages::MessageError::{
    Closed, DataAfterKeys, Interrupted, KeyUpdateLength, KeyUpdateRequest, TooLong, UnexpectedType,
};
use tls_messages::Stage::{
    AuthenticatingClient, AuthenticatingServer, Client, Handshake, QuicClient, QuicHandshake,
    QuicServer, Server,
};
use tls_messages::{MessageError, MessageReader, Stage};

/// A stage, the contents of records, and how many messages they are or why they are rejected. The buffer has 16 bytes.
const CONTENTS: [(Stage, &[&[u8]], Result<usize, MessageError>); 37] = [
    (Handshake, &[], Ok(0)),
    (Handshake, &[&[8, 0, 0, 1, 9, 11, 0, 0, 0]], Ok(2)),
    (Handshake, &[&[8], &[0, 0], &[1], &[9], &[11]], Ok(1)),
    (
        Handshake,
        &[&[8, 0, 0, 12, 0, 1, 2, 3, 4, 5, 6, 7, 8, 9, 10, 11]],
        Ok(1),
    ),
    (Handshake, &[&[8, 0, 0, 13]], Err(TooLong(17))),
    (Handshake, &[&[8, 0, 1], &[0]], Err(TooLong(260))),
    (Handshake, &[&[8, 1, 0, 0]], Err(TooLong(65540))),
    (Handshake, &[&[24, 0, 0, 1, 0]], Err(UnexpectedType(24))),
    (
        Handshake,
        &[&[20, 0, 0, 1, 9], &[24, 0, 0, 1, 0]],
        Err(UnexpectedType(24)),
    ),
    (Handshake, &[&[1, 0, 0, 0, 1]], Err(DataAfterKeys)),
    (Handshake, &[&[2, 0, 0, 0, 8]], Err(DataAfterKeys)),
    (Handshake, &[&[5, 0, 0, 0, 20]], Err(DataAfterKeys)),
    (Handshake, &[&[20, 0, 0, 1, 9, 4]], Err(DataAfterKeys)),
    (Handshake, &[&[2, 0, 0, 0], &[8, 0, 0, 0]], Ok(2)),
    (Client, &[&[4, 0, 0, 1, 9, 4, 0, 0, 0]], Ok(2)),
    (Client, &[&[24, 0, 0, 1, 1, 4]], Err(DataAfterKeys)),
    (Client, &[&[24, 0, 0, 1, 2]], Err(KeyUpdateRequest)),
    (Client, &[&[24, 0, 0, 0]], Err(KeyUpdateLength)),
    (Client, &[&[24, 0, 0], &[2]], Err(KeyUpdateLength)),
    (Client, &[&[24, 1, 0, 0]], Err(KeyUpdateLength)),
    (Client, &[&[13, 0, 0, 0]], Err(UnexpectedType(13))),
    (Client, &[&[20, 0, 0, 0]], Err(UnexpectedType(20))),
    (
        AuthenticatingClient,
        &[&[13, 0, 0, 0, 4, 0, 0, 0], &[24, 0, 0, 1, 0]],
        Ok(3),
    ),
    (
        AuthenticatingClient,
        &[&[11, 0, 0, 0]],
        Err(UnexpectedType(11)),
    ),
    (Server, &[&[24, 0, 0, 1, 1]], Ok(1)),
    (Server, &[&[4, 0, 0, 0]], Err(UnexpectedType(4))),
    (Server, &[&[11, 0, 0, 0]], Err(UnexpectedType(11))),
    (
        AuthenticatingServer,
        &[&[11, 0, 0, 0, 15, 0, 0, 0], &[20, 0, 0, 0]],
        Ok(3),
    ),
    (
        AuthenticatingServer,
        &[&[4, 0, 0, 0]],
        Err(UnexpectedType(4)),
    ),
    (
        AuthenticatingServer,
        &[&[13, 0, 0, 0]],
        Err(UnexpectedType(13)),
    ),
    (
        QuicHandshake,
        &[&[8, 0, 0, 0, 13, 0, 0, 0], &[4, 0, 0, 0]],
        Ok(3),
    ),
    (QuicHandshake, &[&[24, 0, 0, 1, 0]], Err(UnexpectedType(24))),
    (QuicHandshake, &[&[5, 0, 0, 0]], Err(UnexpectedType(5))),
    (QuicClient, &[&[4, 0, 0, 1, 9, 4, 0, 0, 0]], Ok(2)),
    (QuicClient, &[&[24, 0, 0, 1, 0]], Err(UnexpectedType(24))),
    (QuicClient, &[&[13, 0, 0, 0]], Err(UnexpectedType(13))),
    (QuicServer, &[&[24, 0, 0, 1, 0]], Err(UnexpectedType(24))),
];

/// Appends the types of the messages in a content, each of which has bytes of its own.
fn read_types(
    messages: &mut MessageReader<'_>,
    mut content: &[u8],
    types: &mut Vec<u8>,
) -> Result<(), MessageError> {
    for _ in 0..content.len() {
        let Some(message) = messages.next(&mut content)? else {
            break;
        };
        if types.push(message[0]).is_err() {
            return Err(TooLong(0));
        }
    }
    Ok(())
}

/// Returns how many messages contents have.
fn count(
    messages: &mut MessageReader<'_>,
    alloc: Global,
    contents: &[&[u8]],
) -> Result<usize, MessageError> {
    let mut types = Vec::new(alloc);
    for content in contents {
        read_types(messages, content, &mut types)?;
    }
    Ok(types.len())
}

/// Reads contents at a stage, and one more if the reader is closed then. Returns how many messages they have, and it has.
fn read_at(
    alloc: Global,
    stage: Stage,
    contents: &[&[u8]],
) -> (
    Result<usize, MessageError>,
    Option<Result<usize, MessageError>>,
) {
    let mut buffer = [0; 16];
    let mut messages = MessageReader::new(&mut buffer, stage);
    let found = count(&mut messages, alloc, contents);
    if messages.is_closed() {
        let again = count(&mut messages, alloc, &[&[4, 0, 0, 0]]);
        (found, Some(again))
    } else {
        (found, None)
    }
}

#[test]
fn messages_by_stage(rt: HostRuntime) {
    for (stage, contents, expected) in &CONTENTS {
        let (found, again) = read_at(rt.alloc(), *stage, contents);
        equal(&rt, (contents, found), (contents, *expected), "messages");
        equal(&rt, again, expected.err().map(|_| Err(Closed)), "closed");
    }
}

/// A stage and a content, then another stage and a content, and how many messages the second content ends or why it is rejected.
/// The peer's Finished ends the handshake; only after it may a KeyUpdate (RFC 8446 section 4.6.3) and, from a server, a
/// NewSessionTicket come (section 4.6.1). The type of a cut message is judged when its header is whole.
const STAGES: [(Stage, &[u8], Stage, &[u8], Result<usize, MessageError>); 7] = [
    (
        Handshake,
        &[20, 0, 0, 1, 9],
        Client,
        &[24, 0, 0, 1, 0],
        Ok(1),
    ),
    (Handshake, &[20, 0, 0, 1, 9], Client, &[4, 0, 0, 0], Ok(1)),
    (
        Handshake,
        &[20, 0, 0, 1, 9],
        Client,
        &[20, 0, 0, 1, 9],
        Err(UnexpectedType(20)),
    ),
    (
        Handshake,
        &[20, 0, 0, 1, 9],
        Server,
        &[4, 0, 0, 0],
        Err(UnexpectedType(4)),
    ),
    (Handshake, &[24, 0, 0], Client, &[1, 0], Ok(1)),
    (
        Client,
        &[24, 0, 0],
        Handshake,
        &[1, 0],
        Err(UnexpectedType(24)),
    ),
    (
        Handshake,
        &[24, 0, 0, 1, 0],
        Client,
        &[24, 0, 0, 1, 0],
        Err(Closed),
    ),
];

#[test]
fn another_stage(rt: HostRuntime) {
    for (first, before, second, after, expected) in &STAGES {
        let mut buffer = [0; 16];
        let mut messages = MessageReader::new(&mut buffer, *first);
        let _ = count(&mut messages, rt.alloc(), &[*before]);
        messages.set_stage(*second);
        equal(&rt, messages.stage(), *second, "what `stage` returns");
        let found = count(&mut messages, rt.alloc(), &[*after]);
        equal(&rt, (after, found), (after, *expected), "messages");
    }
}

#[test]
fn the_finished_ends_the_handshake(rt: HostRuntime) -> Result<(), MessageError> {
    let mut buffer = [0; 16];
    let mut messages = MessageReader::new(&mut buffer, Handshake);
    let mut content: &[u8] = &[8, 0, 0, 0, 20, 0, 0, 1, 9];
    let first = take_finished(&mut messages, &mut content)?;
    holds(&rt, !first, "EncryptedExtensions");
    equal(&rt, messages.stage(), Handshake, "the handshake");
    let second = take_finished(&mut messages, &mut content)?;
    holds(&rt, second, "a Finished");
    equal(&rt, messages.stage(), Client, "after the handshake");
    Ok(())
}

#[test]
fn records_between_parts(rt: HostRuntime) {
    let mut buffer = [0; 16];
    let mut messages = MessageReader::new(&mut buffer, Client);
    holds(&rt, messages.admit_other_record().is_ok(), "no part");
    let found = count(&mut messages, rt.alloc(), &[&[4]]);
    equal(&rt, found, Ok(0), "a part");
    holds(&rt, messages.is_cut(), "cut");
    let refused = messages.admit_other_record();
    equal(&rt, refused, Err(Interrupted), "a record between parts");
    equal(&rt, messages.admit_other_record(), Err(Closed), "closed");
}

/// Each error with its text, the number of its alert (RFC 8446 section 6), and its code in QUIC.
const TEXTS: [(MessageError, &str, u8, u64); 8] = [
    (
        TooLong(70000),
        "a handshake message of 70000 bytes is longer than the buffer",
        80,
        0x0d,
    ),
    (
        UnexpectedType(24),
        "a handshake message of type 24 is not expected",
        10,
        0x010a,
    ),
    (
        UnexpectedType(13),
        "a handshake message of type 13 is not expected",
        10,
        0x0a,
    ),
    (
        KeyUpdateLength,
        "a KeyUpdate does not have one byte",
        50,
        0x0132,
    ),
    (
        KeyUpdateRequest,
        "a KeyUpdate has an unknown request",
        47,
        0x012f,
    ),
    (
        DataAfterKeys,
        "a record goes on after a handshake message that changes the keys",
        10,
        0x0a,
    ),
    (
        Interrupted,
        "a record of another type is between the parts of a handshake message",
        10,
        0x010a,
    ),
    (
        Closed,
        "the reader is closed, since it has rejected a message",
        0,
        0,
    ),
];

#[test]
fn texts_and_alerts(rt: HostRuntime) -> Result<(), Fail> {
    for (error, text, alert, code) in &TEXTS {
        displays(&rt, error, text)?;
        let found = error.alert().map_or(0, |alert| alert as u8);
        equal(&rt, found, *alert, text);
        equal(&rt, error.quic_code().unwrap_or(0), *code, text);
    }
    Ok(())
}

/// Appends the types of the messages in records.
fn read_contents(
    messages: &mut MessageReader<'_>,
    alloc: Global,
    records: &[Carried],
    types: &mut Vec<u8>,
) -> Result<(), Fail> {
    for carried in records {
        let content = bytes_of(alloc, carried.content)?;
        read_types(messages, &content, types)?;
    }
    Ok(())
}

/// Returns the types of the messages of a handshake: of the plaintext record that the stream begins with, and of the first
/// epoch.
fn handshake_types(alloc: Global, direction: &Direction) -> Result<Vec<u8>, Fail> {
    let stream = bytes_of(alloc, direction.stream)?;
    let mut buffer = [0; 1024];
    let mut messages = MessageReader::new(&mut buffer, Handshake);
    let mut types = Vec::new(alloc);
    let Ok(Begins::Record(RecordKind::Handshake, len)) = classify(&stream) else {
        return Err("no handshake record".into());
    };
    let hello = stream.get(5..len).unwrap_or(&[]);
    read_types(&mut messages, hello, &mut types)?;
    let epoch = direction.epochs.first().ok_or("no epoch")?;
    read_contents(&mut messages, alloc, epoch.records, &mut types)?;
    Ok(types)
}

#[test]
fn handshakes_of_openssl(rt: HostRuntime) -> Result<(), Fail> {
    for (name, direction) in CAPTURED {
        let wanted: &[u8] = if name.ends_with("CLIENT") {
            &[1, 20]
        } else {
            &[2, 8, 11, 15, 20]
        };
        same(&rt, &handshake_types(rt.alloc(), direction)?, wanted, name);
    }
    Ok(())
}
