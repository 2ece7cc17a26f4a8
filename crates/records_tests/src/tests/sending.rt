//! Tests of `records::connection`: whole connections, with key updates of both ends, and what an end sends at its limits.

use crate::tests::checks::{equal, holds, same};
use anyhow::bail;
use key_derivation::Secret;
use records::connection::KeyUpdateRequest::{NotRequested, Requested};
use records::connection::{Connection, KeyUpdateRequest, ReceiveError, Received};
use records::{AlertDescription, Reader, RecordError, Writer};
use std::alloc::Global;
use std::process::Abort;
use std::test::Fail;
use tls_messages::Stage;

const CLIENT_SECRET: [u8; 32] = [7; 32];

const SERVER_SECRET: [u8; 32] = [8; 32];

/// The client's end, whose writer has this limit.
fn client(buffer: &mut [u8; 64], limit: u64) -> Connection<'_> {
    Connection::new(
        Reader::from_secret(Secret::aes_128_gcm(SERVER_SECRET)),
        Writer::from_secret(Secret::aes_128_gcm(CLIENT_SECRET)).with_limit(limit),
        buffer,
        Stage::Client,
    )
}

/// The server's end, which receives from such a client.
fn server(buffer: &mut [u8; 64]) -> Connection<'_> {
    Connection::new(
        Reader::from_secret(Secret::aes_128_gcm(CLIENT_SECRET)),
        Writer::from_secret(Secret::aes_128_gcm(SERVER_SECRET)),
        buffer,
        Stage::Server,
    )
}

/// Takes what was read of the stream, or its end if that is nothing. Sends the data of whole records back, keeps the bytes of a
/// record that is not whole in `arrived`, and closes after the peer has.
fn echo(
    connection: &mut Connection<'_>,
    alloc: Global,
    read: &[u8],
    arrived: &mut Vec<u8>,
    out: &mut Vec<u8>,
) -> anyhow::Result<()> {
    if connection.is_ended() {
        return Ok(());
    }
    if read.is_empty() {
        bail!("the stream ends without close_notify");
    }
    arrived.extend_from_slice(read)?;
    let mut received = Received::new(alloc);
    match connection.receive(alloc, arrived, &mut received) {
        Ok(taken) => *arrived = arrived[taken..].to_vec(alloc)?,
        Err(error) => {
            if let Some(alert) = error.alert() {
                connection.abort(alert, out)?;
            }
            return Err(error.into());
        }
    }
    if !received.application_data.is_empty() {
        connection.send(&received.application_data, out)?;
    }
    if connection.is_ended() {
        connection.close(out)?;
    }
    Ok(())
}

/// The records of a content.
fn sent(end: &mut Connection<'_>, alloc: Global, content: &[u8]) -> Result<Vec<u8>, Fail> {
    let mut out = Vec::new(alloc);
    end.send(content, &mut out)?;
    Ok(out)
}

/// The record of a KeyUpdate, after the one that is owed.
fn updated(
    end: &mut Connection<'_>,
    alloc: Global,
    request: KeyUpdateRequest,
) -> Result<Vec<u8>, Fail> {
    let mut out = Vec::new(alloc);
    end.send_key_update(request, &mut out)?;
    Ok(out)
}

/// What whole records bring.
fn received(end: &mut Connection<'_>, alloc: Global, bytes: &mut [u8]) -> Result<Received, Fail> {
    let mut received = Received::new(alloc);
    let taken = end.receive(alloc, bytes, &mut received)?;
    if taken != bytes.len() {
        return Err("part of a record is left".into());
    }
    Ok(received)
}

/// What a server that echoes sends back, if the records arrive in pieces, each of one byte if they are short.
fn echoed(server: &mut Connection<'_>, alloc: Global, records: &[u8]) -> Result<Vec<u8>, Fail> {
    let mut back = Vec::new(alloc);
    let mut arrived = Vec::new(alloc);
    for piece in records.chunks(1.max(records.len() / 100)) {
        echo(server, alloc, piece, &mut arrived, &mut back)?;
    }
    Ok(back)
}

/// Asserts that a content comes back from a server that echoes.
fn comes_back(
    rt: &impl Abort,
    alloc: Global,
    client: &mut Connection<'_>,
    server: &mut Connection<'_>,
    content: &[u8],
) -> Result<(), Fail> {
    let records = sent(client, alloc, content)?;
    let mut back = echoed(server, alloc, &records)?;
    let found = received(client, alloc, &mut back)?;
    same(rt, &found.application_data, content, "the content");
    Ok(())
}

/// What the ends of a connection do.
#[derive(Clone, Copy)]
enum Move {
    /// The client sends a content, and the server sends it back.
    Echo(&'static [u8]),
    /// The client sends a KeyUpdate.
    Client(KeyUpdateRequest),
    /// The server does.
    Server(KeyUpdateRequest),
}

use Move::{Client, Echo, Server};

/// Key updates of both ends, and whether the client and the server owe one afterwards.
const MOVES: [(Move, bool, bool); 12] = [
    (Echo(b"first"), false, false),
    (Client(NotRequested), false, false),
    (Echo(b"second"), false, false),
    (Server(NotRequested), false, false),
    (Echo(b"third"), false, false),
    (Client(Requested), false, true),
    (Client(Requested), false, true),
    (Echo(b"fourth"), false, false),
    (Server(Requested), true, false),
    (Server(Requested), true, false),
    (Client(NotRequested), false, false),
    (Echo(b"fifth"), false, false),
];

fn make(
    rt: &impl Abort,
    alloc: Global,
    client: &mut Connection<'_>,
    server: &mut Connection<'_>,
    what: Move,
) -> Result<(), Fail> {
    match what {
        Echo(content) => comes_back(rt, alloc, client, server, content)?,
        Client(request) => {
            received(server, alloc, &mut updated(client, alloc, request)?)?;
        }
        Server(request) => {
            received(client, alloc, &mut updated(server, alloc, request)?)?;
        }
    }
    Ok(())
}

/// Asserts that close_notify of a client that sends it ends both directions.
fn ends(
    rt: &impl Abort,
    alloc: Global,
    client: &mut Connection<'_>,
    server: &mut Connection<'_>,
) -> Result<(), Fail> {
    let mut out = Vec::new(alloc);
    client.close(&mut out)?;
    let mut back = echoed(server, alloc, &out)?;
    received(client, alloc, &mut back)?;
    echo(server, alloc, b"", &mut Vec::new(alloc), &mut back)?;
    holds(rt, client.is_ended() && client.is_closed(), "the client");
    holds(rt, server.is_ended() && server.is_closed(), "the server");
    Ok(())
}

#[test]
fn a_whole_connection(rt: HostRuntime) -> Result<(), Fail> {
    let (mut of_client, mut of_server) = ([0; 64], [0; 64]);
    let (mut client, mut server) = (client(&mut of_client, 1000), server(&mut of_server));
    for (what, client_owes, server_owes) in MOVES {
        make(&rt, rt.alloc(), &mut client, &mut server, what)?;
        equal(&rt, client.owes_update(), client_owes, "the client owes");
        equal(&rt, server.owes_update(), server_owes, "the server owes");
    }
    ends(&rt, rt.alloc(), &mut client, &mut server)
}

/// Contents, and the lengths of the records that bring each back: 5 bytes of a header, 1 of a type and 16 of a tag beside the
/// content (RFC 8446 section 5.2).
const ECHOED: [(&[u8], usize); 3] = [(b"", 0), (b"x", 23), (b"four", 26)];

/// Bytes that dribble in are answered by the records of their data alone.
#[test]
fn nothing_is_answered_by_nothing(rt: HostRuntime) -> Result<(), Fail> {
    let (mut of_client, mut of_server) = ([0; 64], [0; 64]);
    let (mut client, mut server) = (client(&mut of_client, 1000), server(&mut of_server));
    for (content, len) in ECHOED {
        let records = sent(&mut client, rt.alloc(), content)?;
        let back = echoed(&mut server, rt.alloc(), &records)?;
        equal(&rt, back.len(), len, "the records sent back");
    }
    Ok(())
}

/// What a client sends, and whether a server that takes two KeyUpdates in a row receives it.
const BOUNDED: [(Option<&[u8]>, bool); 8] = [
    (None, true),
    (None, true),
    (Some(b"data"), true),
    (None, true),
    (None, true),
    (Some(b""), true),
    (None, false),
    (None, false),
];

#[test]
fn key_updates_in_a_row(rt: HostRuntime) -> Result<(), Fail> {
    let alloc = rt.alloc();
    let (mut of_client, mut of_server) = ([0; 64], [0; 64]);
    let (mut client, mut server) = (client(&mut of_client, 1000), server(&mut of_server));
    server.set_update_bound(2);
    for (content, is_received) in BOUNDED {
        let mut records = match content {
            Some(content) => sent(&mut client, alloc, content)?,
            None => updated(&mut client, alloc, NotRequested)?,
        };
        let found = server.receive(alloc, &mut records, &mut Received::new(alloc));
        equal(&rt, found.is_ok(), is_received, "received");
    }
    Ok(())
}

/// An end that is taken apart and made again goes on where it was.
#[test]
fn taken_apart(rt: HostRuntime) -> Result<(), Fail> {
    let alloc = rt.alloc();
    let (mut of_client, mut of_server) = ([0; 64], [0; 64]);
    let (mut client, mut server) = (client(&mut of_client, 1000), server(&mut of_server));
    comes_back(&rt, alloc, &mut client, &mut server, b"before")?;
    received(
        &mut client,
        alloc,
        &mut updated(&mut server, alloc, Requested)?,
    )?;
    let parts = client.into_parts();
    holds(&rt, parts.owes_update, "a KeyUpdate is owed");
    holds(&rt, !parts.is_cut, "no message is cut");
    let mut buffer = [0; 64];
    let mut client = Connection::new(parts.reader, parts.writer, &mut buffer, Stage::Client);
    comes_back(&rt, alloc, &mut client, &mut server, b"after")
}

/// A content and its padding, and the length of its records, or none if a record has no room for them: 2^14 + 1 bytes of inner
/// plaintext (RFC 8446 section 5.4), and 22 bytes more than content and padding.
const PADDED: [(&[u8], usize, Option<usize>); 6] = [
    (b"", 0, Some(22)),
    (b"", 16384, Some(16406)),
    (b"", 16385, None),
    (b"four", 100, Some(126)),
    (b"four", 16383, Some(65624)),
    (b"four", 16384, None),
];

#[test]
fn padded(rt: HostRuntime) -> Result<(), Fail> {
    let alloc = rt.alloc();
    let (mut of_client, mut of_server) = ([0; 64], [0; 64]);
    let (mut client, mut server) = (client(&mut of_client, 1000), server(&mut of_server));
    for (content, padding, len) in PADDED {
        let mut records = Vec::new(alloc);
        let sent = client.send_padded(content, padding, &mut records);
        equal(&rt, sent.is_ok(), len.is_some(), "sent");
        equal(&rt, records.len(), len.unwrap_or(0), "the records");
        if sent.is_ok() {
            let found = received(&mut server, alloc, &mut records)?;
            same(&rt, &found.application_data, content, "the content");
        }
    }
    Ok(())
}

/// The end of the stream without close_notify is an error.
#[test]
fn a_stream_that_is_cut(rt: HostRuntime) -> Result<(), Fail> {
    let alloc = rt.alloc();
    let mut buffer = [0; 64];
    let mut server = server(&mut buffer);
    let mut out = Vec::new(alloc);
    let cut = echo(&mut server, alloc, b"", &mut Vec::new(alloc), &mut out);
    holds(&rt, cut.is_err(), "a cut");
    holds(&rt, out.is_empty(), "nothing is sent");
    Ok(())
}

/// A limit, and which calls succeed of a new end: `send` of one record, `send_key_update` and `close`.
const LIMITS: [(u64, bool, bool, bool); 5] = [
    (0, false, false, false),
    (1, false, false, true),
    (2, false, true, true),
    (3, true, true, true),
    (1000, true, true, true),
];

#[test]
fn limits(rt: HostRuntime) -> Result<(), Fail> {
    for (limit, sends, updates, closes) in LIMITS {
        let mut out = Vec::new(rt.alloc());
        let mut buffer = [0; 64];
        let sent = client(&mut buffer, limit).send(b"x", &mut out);
        equal(&rt, sent.is_ok(), sends, "send");
        let mut buffer = [0; 64];
        let updated = client(&mut buffer, limit).send_key_update(Requested, &mut out);
        equal(&rt, updated.is_ok(), updates, "send_key_update");
        let mut buffer = [0; 64];
        let closed = client(&mut buffer, limit).close(&mut out);
        equal(&rt, closed.is_ok(), closes, "close");
    }
    Ok(())
}

/// With two records of content under each key, an end updates its key by itself, and refuses a content of three.
#[test]
fn updates_at_the_limit(rt: HostRuntime) -> Result<(), Fail> {
    let alloc = rt.alloc();
    let (mut of_client, mut of_server) = ([0; 64], [0; 64]);
    let (mut client, mut server) = (client(&mut of_client, 4), server(&mut of_server));
    let content = vec![in alloc; 9; 32769]?;
    let (two, _) = content.split_at(32768);
    let contents: [(&[u8], u64); 6] = [
        (b"one record", 1),
        (b"one record", 0),
        (b"one record", 1),
        (b"one record", 0),
        (two, 0),
        (b"one record", 1),
    ];
    for (content, remaining) in contents {
        comes_back(&rt, alloc, &mut client, &mut server, content)?;
        equal(&rt, client.remaining(), remaining, "the records left");
    }
    let mut out = Vec::new(alloc);
    let refused = client.send(&content, &mut out);
    equal(&rt, refused, Err(RecordError::KeyUsedUp), "three records");
    holds(&rt, out.is_empty(), "nothing is written");
    Ok(())
}

/// After an alert every call that sends fails, and nothing is written.
fn sends_nothing(rt: &impl Abort, end: &mut Connection<'_>, out: &mut Vec<u8>) {
    let len = out.len();
    let results = [
        end.send(b"x", out),
        end.send_key_update(Requested, out),
        end.close(out),
        end.abort(AlertDescription::DecodeError, out),
    ];
    for result in &results {
        equal(rt, result, &Err(RecordError::Ended), "after an alert");
    }
    equal(rt, out.len(), len, "nothing written");
}

/// What the peer sends is still received.
#[test]
fn nothing_after_an_alert(rt: HostRuntime) -> Result<(), Fail> {
    let alloc = rt.alloc();
    let (mut of_client, mut of_server) = ([0; 64], [0; 64]);
    let (mut client, mut server) = (client(&mut of_client, 1000), server(&mut of_server));
    let mut out = Vec::new(alloc);
    client.abort(AlertDescription::InternalError, &mut out)?;
    sends_nothing(&rt, &mut client, &mut out);
    let found = server.receive(alloc, &mut out, &mut Received::new(alloc));
    equal(&rt, found, Err(ReceiveError::Alert(80)), "the alert");
    let mut still = sent(&mut server, alloc, b"still")?;
    let found = received(&mut client, alloc, &mut still)?;
    same(&rt, &found.application_data, b"still", "the content");
    Ok(())
}
