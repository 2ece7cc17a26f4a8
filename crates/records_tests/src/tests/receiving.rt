//! Tests of `records::connection`: what an end receives, on what it must follow, reject and pass over, and on connections of
//! OpenSSL.

use crate::tests::captured::CAPTURED;
use crate::tests::checks::{displays, equal, holds, same};
use crate::tests::connection::{Direction, bytes_of, end_of_handshake};
use key_derivation::{Secret, Suite};
use records::ContentType::{Alert, ApplicationData, Handshake};
use records::connection::{Connection, ReceiveError, Received};
use records::{ContentType, Reader, RecordError, Writer};
use std::alloc::Global;
use std::process::Abort;
use std::test::Fail;
use tls_messages::{MessageError, Stage};

/// What a peer does.
#[derive(Clone, Copy)]
enum Sent {
    /// It writes a record with this content.
    Content(ContentType, &'static [u8]),
    /// It continues under its next key.
    Updated,
}

use Sent::{Content, Updated};

/// What a peer does, and what is received of it: the application data, the messages handed over, whether a KeyUpdate is owed, and
/// whether the connection has ended, or why.
struct Case {
    what: &'static str,
    stage: Stage,
    sent: &'static [Sent],
    application_data: &'static [u8],
    messages: &'static [&'static [u8]],
    owes_update: bool,
    result: Result<bool, ReceiveError>,
}

const TICKET: [u8; 6] = [4, 0, 0, 2, 7, 7];

const CASES: [Case; 17] = [
    Case {
        what: "a ticket and a KeyUpdate in one record",
        stage: Stage::Client,
        sent: &[
            Content(Handshake, &[4, 0, 0, 2, 7, 7, 24, 0, 0, 1, 0]),
            Updated,
            Content(ApplicationData, b"later"),
        ],
        application_data: b"later",
        messages: &[&TICKET],
        owes_update: false,
        result: Ok(false),
    },
    Case {
        what: "a KeyUpdate cut in two",
        stage: Stage::Server,
        sent: &[
            Content(ApplicationData, b"to"),
            Content(Handshake, &[24, 0, 0]),
            Content(Handshake, &[1, 1]),
            Updated,
            Content(ApplicationData, b"gether"),
        ],
        application_data: b"together",
        messages: &[],
        owes_update: true,
        result: Ok(false),
    },
    Case {
        what: "two KeyUpdates, of which the first asks for one",
        stage: Stage::Server,
        sent: &[
            Content(Handshake, &[24, 0, 0, 1, 1]),
            Updated,
            Content(Handshake, &[24, 0, 0, 1, 0]),
            Updated,
            Content(ApplicationData, b"last"),
        ],
        application_data: b"last",
        messages: &[],
        owes_update: true,
        result: Ok(false),
    },
    Case {
        what: "a fragment that begins with byte 24",
        stage: Stage::Client,
        sent: &[
            Content(Handshake, &[4, 0, 0, 2]),
            Content(Handshake, &[24, 0]),
            Content(ApplicationData, b"same key"),
        ],
        application_data: b"same key",
        messages: &[&[4, 0, 0, 2, 24, 0]],
        owes_update: false,
        result: Ok(false),
    },
    Case {
        what: "a fatal alert, and then data",
        stage: Stage::Client,
        sent: &[
            Content(ApplicationData, b"before"),
            Content(Alert, &[2, 40]),
            Content(ApplicationData, b"after"),
        ],
        application_data: b"before",
        messages: &[],
        owes_update: false,
        result: Err(ReceiveError::Alert(40)),
    },
    Case {
        what: "the same of level warning",
        stage: Stage::Client,
        sent: &[Content(Alert, &[1, 40]), Content(ApplicationData, b"after")],
        application_data: b"",
        messages: &[],
        owes_update: false,
        result: Err(ReceiveError::Alert(40)),
    },
    Case {
        what: "user_canceled, and close_notify, and then data",
        stage: Stage::Server,
        sent: &[
            Content(Alert, &[1, 90]),
            Content(ApplicationData, b"before"),
            Content(Alert, &[1, 0]),
            Content(ApplicationData, b"after"),
        ],
        application_data: b"before",
        messages: &[],
        owes_update: false,
        result: Ok(true),
    },
    Case {
        what: "the same of level fatal",
        stage: Stage::Server,
        sent: &[
            Content(Alert, &[2, 90]),
            Content(Alert, &[2, 0]),
            Content(Alert, &[2, 40]),
        ],
        application_data: b"",
        messages: &[],
        owes_update: false,
        result: Ok(true),
    },
    Case {
        what: "user_canceled between the parts of a message",
        stage: Stage::Client,
        sent: &[
            Content(Handshake, &[4, 0]),
            Content(Alert, &[1, 90]),
            Content(Handshake, &[0, 2, 7, 7]),
        ],
        application_data: b"",
        messages: &[],
        owes_update: false,
        result: Err(ReceiveError::Message(MessageError::Interrupted)),
    },
    Case {
        what: "close_notify between the parts of a message, after a KeyUpdate",
        stage: Stage::Client,
        sent: &[
            Content(Handshake, &[24, 0, 0, 1, 1]),
            Updated,
            Content(Handshake, &[4, 0]),
            Content(Alert, &[1, 0]),
        ],
        application_data: b"",
        messages: &[],
        owes_update: true,
        result: Err(ReceiveError::Message(MessageError::Interrupted)),
    },
    Case {
        what: "a fatal alert between the parts of a message",
        stage: Stage::Client,
        sent: &[Content(Handshake, &[4, 0]), Content(Alert, &[2, 80])],
        application_data: b"",
        messages: &[],
        owes_update: false,
        result: Err(ReceiveError::Alert(80)),
    },
    Case {
        what: "empty application data between the parts of a message",
        stage: Stage::Client,
        sent: &[
            Content(ApplicationData, b"before"),
            Content(Handshake, &[4, 0]),
            Content(ApplicationData, b""),
        ],
        application_data: b"before",
        messages: &[],
        owes_update: false,
        result: Err(ReceiveError::Message(MessageError::Interrupted)),
    },
    Case {
        what: "a ticket after a KeyUpdate in its record",
        stage: Stage::Client,
        sent: &[Content(Handshake, &[24, 0, 0, 1, 0, 4, 0, 0, 0])],
        application_data: b"",
        messages: &[],
        owes_update: false,
        result: Err(ReceiveError::Message(MessageError::DataAfterKeys)),
    },
    Case {
        what: "a ticket at a server",
        stage: Stage::Server,
        sent: &[Content(Handshake, &TICKET)],
        application_data: b"",
        messages: &[],
        owes_update: false,
        result: Err(ReceiveError::Message(MessageError::UnexpectedType(4))),
    },
    Case {
        what: "a CertificateRequest, which the client allows",
        stage: Stage::AuthenticatingClient,
        sent: &[Content(Handshake, &[13, 0, 0, 3, 0, 0, 0])],
        application_data: b"",
        messages: &[&[13, 0, 0, 3, 0, 0, 0]],
        owes_update: false,
        result: Ok(false),
    },
    Case {
        what: "a message longer than the buffer",
        stage: Stage::Client,
        sent: &[Content(Handshake, &[4, 0, 4, 0])],
        application_data: b"",
        messages: &[],
        owes_update: false,
        result: Err(ReceiveError::Message(MessageError::TooLong(1028))),
    },
    Case {
        what: "a record under the key before",
        stage: Stage::Client,
        sent: &[
            Content(Handshake, &[24, 0, 0, 1, 0]),
            Content(ApplicationData, b"old key"),
        ],
        application_data: b"",
        messages: &[],
        owes_update: false,
        result: Err(ReceiveError::Record(RecordError::Refused)),
    },
];

/// Returns the first secret of a peer.
fn first_secret() -> Secret {
    Secret::aes_128_gcm([7; 32])
}

/// Returns the records that a peer writes.
fn written(alloc: Global, sent: &[Sent]) -> Result<Vec<u8>, Fail> {
    let mut peer = Writer::from_secret(first_secret());
    let mut bytes = Vec::new(alloc);
    for &sent in sent {
        match sent {
            Content(content_type, content) => peer.write(content_type, content, 3, &mut bytes)?,
            Updated => peer.update()?,
        }
    }
    Ok(bytes)
}

/// Asserts that this was received.
fn received_is(rt: &impl Abort, found: &Received, case: &Case) {
    same(
        rt,
        &found.application_data,
        case.application_data,
        case.what,
    );
    equal(rt, found.messages.len(), case.messages.len(), case.what);
    for (found, wanted) in found.messages.iter().zip(case.messages) {
        same(rt, found, wanted, case.what);
    }
}

/// Returns an end that receives from a peer with this first secret.
fn new_end(secret: Secret, buffer: &mut [u8; 1024], stage: Stage) -> Connection<'_> {
    let writer = Writer::from_secret(first_secret());
    Connection::new(Reader::from_secret(secret), writer, buffer, stage)
}

/// Receives records, and returns whether the connection has ended.
fn receive(
    end: &mut Connection<'_>,
    alloc: Global,
    bytes: &mut [u8],
    received: &mut Received,
) -> Result<bool, ReceiveError> {
    end.receive(alloc, bytes, received)?;
    Ok(end.is_ended())
}

/// Receives what the peer of a case does, in one piece, and the same records once more if the connection has ended.
fn meets(rt: &impl Abort, alloc: Global, case: &Case) -> Result<(), Fail> {
    let mut bytes = written(alloc, case.sent)?;
    let mut buffer = [0; 1024];
    let mut end = new_end(first_secret(), &mut buffer, case.stage);
    let mut received = Received::new(alloc);
    let result = receive(&mut end, alloc, &mut bytes, &mut received);
    equal(rt, result, case.result, case.what);
    equal(rt, end.owes_update(), case.owes_update, case.what);
    received_is(rt, &received, case);
    if end.is_ended() {
        let again = receive(&mut end, alloc, &mut bytes, &mut received);
        equal(rt, again, Err(ReceiveError::Ended), "ended");
        received_is(rt, &received, case);
    }
    Ok(())
}

#[test]
fn what_peers_do(rt: HostRuntime) -> Result<(), Fail> {
    for case in &CASES {
        meets(&rt, rt.alloc(), case)?;
    }
    Ok(())
}

/// Returns what a direction carries after its handshake, without its KeyUpdates.
fn carried_after_handshake(alloc: Global, direction: &Direction) -> Result<Received, Fail> {
    let mut wanted = Received::new(alloc);
    for epoch in direction.epochs.get(1..).unwrap_or(&[]) {
        for carried in epoch.records {
            let content = bytes_of(alloc, carried.content)?;
            match carried.content_type {
                ApplicationData => wanted.application_data.extend_from_slice(&content)?,
                Handshake if content.first() != Some(&24) => wanted.messages.push(content)?,
                Handshake | Alert => {}
            }
        }
    }
    Ok(wanted)
}

/// Returns the first application traffic secret of a direction.
fn secret_of(alloc: Global, direction: &Direction) -> Result<Secret, Fail> {
    let first = direction
        .epochs
        .get(1)
        .ok_or("no epoch after the handshake")?;
    let secret = hex::decode(alloc, first.secret)?;
    let suite = if secret.len() == 32 {
        Suite::Aes128Gcm
    } else {
        Suite::Aes256Gcm
    };
    Ok(Secret::new(suite, &secret)?)
}

/// Returns what follows the handshake in the stream of a direction.
fn after_handshake(alloc: Global, stream: &[u8], direction: &Direction) -> Result<Vec<u8>, Fail> {
    let from = end_of_handshake(stream, direction)?;
    Ok(stream.get(from..).unwrap_or(&[]).to_vec(alloc)?)
}

/// Returns the records of a direction after its handshake.
fn records_after_handshake(alloc: Global, direction: &Direction) -> Result<Vec<u8>, Fail> {
    let stream = bytes_of(alloc, direction.stream)?;
    after_handshake(alloc, &stream, direction)
}

/// Asserts that records are received up to close_notify, the last of them, and returns what they bring.
fn received_to_the_end(
    rt: &impl Abort,
    alloc: Global,
    secret: Secret,
    stage: Stage,
    bytes: &mut [u8],
) -> Result<Received, Fail> {
    let mut buffer = [0; 1024];
    let mut end = new_end(secret, &mut buffer, stage);
    let mut received = Received::new(alloc);
    let taken = end.receive(alloc, bytes, &mut received)?;
    equal(rt, taken, bytes.len(), "the bytes taken");
    holds(rt, end.is_ended(), "close_notify");
    Ok(received)
}

/// Asserts that an end receives what one side of a connection sent after its handshake, given its first application traffic
/// secret.
fn is_received(
    rt: &impl Abort,
    alloc: Global,
    direction: &Direction,
    stage: Stage,
) -> Result<(), Fail> {
    let mut records = records_after_handshake(alloc, direction)?;
    let secret = secret_of(alloc, direction)?;
    let received = received_to_the_end(rt, alloc, secret, stage, &mut records)?;
    let wanted = carried_after_handshake(alloc, direction)?;
    same(
        rt,
        &received.application_data,
        &wanted.application_data,
        "the data",
    );
    equal(rt, &received.messages, &wanted.messages, "the messages");
    Ok(())
}

#[test]
fn connections_of_openssl(rt: HostRuntime) -> Result<(), Fail> {
    for (name, direction) in CAPTURED {
        println!(rt; "{name}")?;
        let stage = if name.ends_with("CLIENT") {
            Stage::Server
        } else {
            Stage::Client
        };
        is_received(&rt, rt.alloc(), direction, stage)?;
    }
    Ok(())
}

/// Errors, their texts, and the alerts they call for (RFC 8446 section 6), with 0 for none.
const TEXTS: [(ReceiveError, &str, u8); 6] = [
    (
        ReceiveError::Record(RecordError::Refused),
        "a record is rejected: the record is not authentic",
        20,
    ),
    (
        ReceiveError::Message(MessageError::KeyUpdateLength),
        "a handshake message is rejected: a KeyUpdate does not have one byte",
        50,
    ),
    (ReceiveError::Alert(47), "the peer has sent alert 47", 0),
    (
        ReceiveError::TooManyKeyUpdates,
        "too many KeyUpdates came in a row",
        10,
    ),
    (
        ReceiveError::OutOfMemory,
        "no memory for what was received",
        80,
    ),
    (
        ReceiveError::Ended,
        "the connection receives nothing more",
        0,
    ),
];

#[test]
fn texts_and_alerts(rt: HostRuntime) -> Result<(), Fail> {
    for (error, text, alert) in &TEXTS {
        displays(&rt, error, text)?;
        let found = error.alert().map_or(0, |alert| alert as u8);
        equal(&rt, found, *alert, text);
    }
    Ok(())
}
