//! Tests of `records::connection`: the handshake messages that an end sends after the handshake.

use crate::tests::checks::{equal, holds, same};
use key_derivation::Secret;
use records::connection::{Connection, Received};
use records::{Reader, RecordError, Writer};
use std::alloc::Global;
use std::process::Abort;
use std::test::Fail;
use tls_messages::Stage;

/// The end that has this stage, whose records have at most 64 bytes of inner plaintext.
fn end<'b>(
    buffer: &'b mut [u8; 64],
    stage: Stage,
    own: u8,
    peer: u8,
) -> Result<Connection<'b>, Fail> {
    let mut writer = Writer::from_secret(Secret::aes_128_gcm([own; 32]));
    writer.set_size_limit(64)?;
    let reader = Reader::from_secret(Secret::aes_128_gcm([peer; 32]));
    Ok(Connection::new(reader, writer, buffer, stage))
}

/// Bytes that an end sends, and whether it does: by their types, NewSessionTicket 4, Certificate 11, CertificateRequest 13,
/// CertificateVerify 15, Finished 20 and KeyUpdate 24 (RFC 8446 sections 4 and 4.6).
const MESSAGES: [(Stage, &[u8], Result<(), RecordError>); 18] = [
    (Stage::Server, &[4, 0, 0, 1, 9], Ok(())),
    (Stage::Server, &[4, 0, 0, 1, 9, 4, 0, 0, 2, 8, 7], Ok(())),
    (Stage::Server, &[], Err(RecordError::EmptyContent)),
    (Stage::Server, &[4, 0, 0], Err(RecordError::MessageLength)),
    (
        Stage::Server,
        &[4, 0, 0, 1],
        Err(RecordError::MessageLength),
    ),
    (
        Stage::Server,
        &[4, 0, 0, 1, 9, 4],
        Err(RecordError::MessageLength),
    ),
    (
        Stage::Server,
        &[4, 0, 0, 0, 24, 0, 0, 1, 0],
        Err(RecordError::MessageType),
    ),
    (Stage::Server, &[13, 0, 0, 0], Err(RecordError::MessageType)),
    (
        Stage::AuthenticatingServer,
        &[13, 0, 0, 0, 4, 0, 0, 0],
        Ok(()),
    ),
    (
        Stage::AuthenticatingServer,
        &[24, 0, 0, 1, 0],
        Err(RecordError::MessageType),
    ),
    (
        Stage::AuthenticatingServer,
        &[11, 0, 0, 0],
        Err(RecordError::MessageType),
    ),
    (
        Stage::AuthenticatingClient,
        &[11, 0, 0, 1, 0, 20, 0, 0, 0],
        Ok(()),
    ),
    (
        Stage::AuthenticatingClient,
        &[11, 0, 0, 0, 15, 0, 0, 0, 20, 0, 0, 0],
        Ok(()),
    ),
    (
        Stage::AuthenticatingClient,
        &[20, 0, 0, 0, 11, 0, 0, 0],
        Err(RecordError::MessageType),
    ),
    (
        Stage::AuthenticatingClient,
        &[4, 0, 0, 0],
        Err(RecordError::MessageType),
    ),
    (Stage::Client, &[4, 0, 0, 0], Err(RecordError::MessageType)),
    (Stage::Client, &[11, 0, 0, 0], Err(RecordError::MessageType)),
    (
        Stage::QuicServer,
        &[4, 0, 0, 0],
        Err(RecordError::MessageType),
    ),
];

#[test]
fn which_may_be_sent(rt: HostRuntime) -> Result<(), Fail> {
    for (stage, messages, result) in &MESSAGES {
        let mut buffer = [0; 64];
        let mut out = Vec::new(rt.alloc());
        let sent = end(&mut buffer, *stage, 7, 8)?.send_handshake(messages, &mut out);
        equal(&rt, sent, *result, "send_handshake");
        equal(&rt, out.is_empty(), result.is_err(), "nothing written");
    }
    Ok(())
}

/// Asserts that a peer at a stage receives the messages, from records of this length.
fn arrive(
    rt: &impl Abort,
    alloc: Global,
    stages: (Stage, Stage),
    messages: &[&[u8]],
    len: usize,
) -> Result<(), Fail> {
    let (mut of_sender, mut of_peer) = ([0; 64], [0; 64]);
    let mut sender = end(&mut of_sender, stages.0, 7, 8)?;
    let mut peer = end(&mut of_peer, stages.1, 8, 7)?;
    let mut all = Vec::new(alloc);
    for message in messages {
        all.extend_from_slice(message)?;
    }
    let mut out = Vec::new(alloc);
    sender.send_handshake(&all, &mut out)?;
    equal(rt, out.len(), len, "the records");
    let mut received = Received::new(alloc);
    let taken = peer.receive(alloc, &mut out, &mut received)?;
    equal(rt, taken, len, "the records taken");
    equal(rt, received.messages.len(), messages.len(), "the messages");
    for (found, message) in received.messages.iter().zip(messages) {
        same(rt, found, message, "a message");
    }
    holds(rt, received.application_data.is_empty(), "no data");
    Ok(())
}

/// A message of 64 bytes, its length included, is cut after the 63 for which a record has room.
#[test]
fn tickets_and_authentication(rt: HostRuntime) -> Result<(), Fail> {
    let alloc = rt.alloc();
    let mut ticket = [5; 64];
    ticket[..4].copy_from_slice(&[4, 0, 0, 60]);
    let server = (Stage::Server, Stage::Client);
    arrive(&rt, alloc, server, &[&[4, 0, 0, 2, 1, 2]], 6 + 22)?;
    arrive(&rt, alloc, server, &[&ticket], 64 + 2 * 22)?;
    arrive(&rt, alloc, server, &[&ticket, &ticket], 128 + 3 * 22)?;
    let request = (Stage::AuthenticatingServer, Stage::AuthenticatingClient);
    arrive(&rt, alloc, request, &[&[13, 0, 0, 1, 0]], 5 + 22)?;
    let answer = (Stage::AuthenticatingClient, Stage::AuthenticatingServer);
    let messages: [&[u8]; 3] = [&[11, 0, 0, 1, 0], &[15, 0, 0, 2, 3, 4], &[20, 0, 0, 1, 6]];
    arrive(&rt, alloc, answer, &messages, 16 + 22)
}
