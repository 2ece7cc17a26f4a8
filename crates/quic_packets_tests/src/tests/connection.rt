//! Tests of `connection`: a whole connection of a client and a server, which stands in README.md, and what each call does with
//! packets that are forged, late, or of another connection, and at its limits.

use crate::tests::checks::{equal, has_ranges, holds};
use key_derivation::Secret;
use key_derivation::quic::{QuicSecret, Version};
use quic_packets::connection::{Connection, Incoming, Level, PeerUpdate, SentPacket};
use quic_packets::{
    FixedBit, HeaderKey, KeyError, NumberError, PacketKey, PacketType, ReceiveError, SendError,
    Sender,
};
use std::alloc::Global;
use std::mem;
use std::process::Abort;
use std::test::Fail;

/// The connection ID of both ends.
const ID: [u8; 8] = [4; 8];

/// The headers of packets with 24 bytes from their number on, which is the payload of 4 bytes between the number and the tag.
const INITIAL: [u8; 17] = [0xc0, 0, 0, 0, 1, 8, 4, 4, 4, 4, 4, 4, 4, 4, 0, 0, 24];

const ZERO_RTT: [u8; 16] = [0xd0, 0, 0, 0, 1, 8, 4, 4, 4, 4, 4, 4, 4, 4, 0, 24];

const HANDSHAKE: [u8; 16] = [0xe0, 0, 0, 0, 1, 8, 4, 4, 4, 4, 4, 4, 4, 4, 0, 24];

const ONE_RTT: [u8; 9] = [0x40, 4, 4, 4, 4, 4, 4, 4, 4];

/// What a payload begins with, in place of the messages of TLS and the frames of QUIC: the hello and the finished message of each
/// end, HANDSHAKE_DONE, and a frame that does nothing. An acknowledgment follows.
const CLIENT_HELLO: u8 = 1;

const SERVER_HELLO: u8 = 2;

const SERVER_FINISHED: u8 = 3;

const CLIENT_FINISHED: u8 = 4;

const HANDSHAKE_DONE: u8 = 5;

const PING: u8 = 6;

/// No acknowledgment.
const NONE: u8 = 0xff;

/// The secrets of the client's 0-RTT packets, and of the packets of both ends.
const EARLY: [u8; 32] = [1; 32];

const CLIENT_HANDSHAKE: [u8; 32] = [2; 32];

const SERVER_HANDSHAKE: [u8; 32] = [3; 32];

const CLIENT: [u8; 32] = [4; 32];

const SERVER: [u8; 32] = [5; 32];

/// How many packets without keys an end keeps, and how many bytes they have.
const MAX_KEPT: usize = 16;

const MAX_KEPT_BYTES: usize = 4096;

/// One end, the packets that it keeps until their keys are there, the bytes for which it has room, and what it has received: how
/// many packets, the last number of a 1-RTT packet, and the key updates of the peer. The last field is the next byte in place of
/// random ones.
#[derive(Drop)]
struct End {
    connection: Connection<2>,
    kept: Vec<Vec<u8>>,
    room: usize,
    count: u8,
    last: u8,
    updates: Vec<PeerUpdate>,
    random: u8,
}

/// Clears the fixed bit of a first byte.
const CLEAR_FIXED_BIT: u8 = 0xbf;

/// The secret of version 1 with these bytes.
fn secret(bytes: [u8; 32]) -> QuicSecret {
    QuicSecret::new(Version::One, Secret::aes_128_gcm(bytes))
}

/// An end with these keys that has received nothing.
fn with_nothing_received(alloc: Global, connection: Connection<2>) -> End {
    End {
        connection,
        kept: Vec::new(alloc),
        room: MAX_KEPT_BYTES,
        count: 0,
        last: NONE,
        updates: Vec::new(alloc),
        random: 0,
    }
}

/// Gives an end the secrets of its Initial packets and of the peer's.
fn install_initial(
    connection: &mut Connection<2>,
    own: QuicSecret,
    peer: QuicSecret,
) -> Result<(), KeyError> {
    connection.install_sender(Level::Initial, own)?;
    connection.install_receiver(Level::Initial, peer)
}

/// Creates the client or the server, with the keys of Initial packets.
fn make_end(alloc: Global, is_client: bool) -> Result<End, Fail> {
    let client = QuicSecret::client_initial(Version::One, &ID)?;
    let server = QuicSecret::server_initial(Version::One, &ID)?;
    let mut connection = Connection::new(FixedBit::Greased);
    if is_client {
        install_initial(&mut connection, client, server)?;
    } else {
        install_initial(&mut connection, server, client)?;
    }
    Ok(with_nothing_received(alloc, connection))
}

/// Receives the packets of a datagram.
fn receive(alloc: Global, end: &mut End, datagram: &mut [u8], id: &[u8]) -> Result<(), Fail> {
    let mut at = 0;
    while at < datagram.len() {
        let step = end.connection.receive(datagram, at, ID.len(), id)?;
        match step.incoming {
            Incoming::Packet(packet_type, received, update) => {
                let payload = &datagram[received.payload.start..received.payload.end];
                frames(end, packet_type, received.number, received.phase, payload)?;
                if let Some(update) = update {
                    begin_timer(end, update)?;
                }
            }
            Incoming::NoKeys(_) => keep(alloc, end, &datagram[at..step.next])?,
            Incoming::Dropped(_) | Incoming::Ignored => {}
        }
        at = step.next;
    }
    Ok(())
}

/// Keeps a packet until its keys are there, if there is room.
fn keep(alloc: Global, end: &mut End, packet: &[u8]) -> Result<(), Fail> {
    if end.kept.len() < MAX_KEPT && packet.len() <= end.room {
        end.room -= packet.len();
        end.kept.push(Vec::from_slice(alloc, packet)?)?;
    }
    Ok(())
}

/// Receives the packets that were kept.
fn receive_kept(alloc: Global, end: &mut End) -> Result<(), Fail> {
    let mut kept = mem::replace(&mut end.kept, Vec::new(alloc));
    end.room = MAX_KEPT_BYTES;
    for packet in &mut kept {
        receive(alloc, end, packet, &ID)?;
    }
    Ok(())
}

/// Begins the timer of three probe timeouts, after which an end forgets the previous keys. Here it keeps the key update with
/// which the timer begins.
fn begin_timer(end: &mut End, update: PeerUpdate) -> Result<(), Fail> {
    end.updates.push(update)?;
    Ok(())
}

/// Takes what a packet carries.
fn frames(
    end: &mut End,
    packet_type: PacketType,
    number: u64,
    phase: bool,
    payload: &[u8],
) -> Result<(), Fail> {
    end.count = end.count.saturating_add(1);
    if packet_type == PacketType::OneRtt {
        end.last = (number % 0x80) as u8;
    }
    if let [message, acknowledged, ..] = payload {
        take_message(&mut end.connection, *message)?;
        if *acknowledged != NONE {
            end.connection
                .acknowledged(Level::OneRtt, u64::from(*acknowledged), phase)?;
        }
    }
    Ok(())
}

/// Takes a message, which may bring keys. Those with the transport parameters allow a fixed bit of 0.
fn take_message(connection: &mut Connection<2>, message: u8) -> Result<(), KeyError> {
    match message {
        CLIENT_HELLO => {
            connection.set_peer_fixed_bit(FixedBit::Greased);
            connection.install_zero_rtt_receiver(secret(EARLY))?;
            connection.install_sender(Level::Handshake, secret(SERVER_HANDSHAKE))?;
            connection.install_receiver(Level::Handshake, secret(CLIENT_HANDSHAKE))?;
            connection.install_sender(Level::OneRtt, secret(SERVER))?;
        }
        SERVER_HELLO => {
            connection.install_sender(Level::Handshake, secret(CLIENT_HANDSHAKE))?;
            connection.install_receiver(Level::Handshake, secret(SERVER_HANDSHAKE))?;
        }
        SERVER_FINISHED => {
            connection.set_peer_fixed_bit(FixedBit::Greased);
            connection.install_sender(Level::OneRtt, secret(CLIENT))?;
            connection.install_receiver(Level::OneRtt, secret(SERVER))?;
        }
        CLIENT_FINISHED => {
            connection.install_receiver(Level::OneRtt, secret(CLIENT))?;
            connection.discard_zero_rtt();
            finish(connection);
        }
        HANDSHAKE_DONE => finish(connection),
        _ => {}
    }
    Ok(())
}

/// The handshake is confirmed, so that its keys are dropped (RFC 9001 sections 4.9.1 and 4.9.2).
fn finish(connection: &mut Connection<2>) {
    connection.confirm_handshake();
    connection.discard(Level::Initial);
    connection.discard(Level::Handshake);
}

/// The header and the level of packets of a type.
fn header(packet_type: PacketType) -> (&'static [u8], Level) {
    match packet_type {
        PacketType::Initial => (&INITIAL, Level::Initial),
        PacketType::ZeroRtt => (&ZERO_RTT, Level::OneRtt),
        PacketType::Handshake => (&HANDSHAKE, Level::Handshake),
        _ => (&ONE_RTT, Level::OneRtt),
    }
}

/// A packet with this payload, before it is sent.
fn unsent(alloc: Global, header: &[u8], payload: [u8; 4]) -> Result<Vec<u8>, Fail> {
    let mut packet = Vec::from_slice(alloc, header)?;
    packet.extend_from_slice(&[0; 4])?;
    packet.extend_from_slice(&payload)?;
    packet.extend_from_slice(&[0; 16])?;
    Ok(packet)
}

/// Before a packet of a level is sent, skips a number if a random byte is below 64, and clears the packet's fixed bit if the byte
/// is even and the peer allows that.
fn vary(
    connection: &mut Connection<2>,
    level: Level,
    packet: &mut [u8],
    random: u8,
) -> Result<(), NumberError> {
    if random < 64 {
        let next = connection.sender(level).map_or(0, Sender::next_number);
        connection.skip_to(level, next.saturating_add(1))?;
    }
    if random % 2 == 0 && connection.peer_fixed_bit() == FixedBit::Greased {
        if let Some(first) = packet.first_mut() {
            *first &= CLEAR_FIXED_BIT;
        }
    }
    Ok(())
}

/// Sends a packet with a message, which acknowledges the last 1-RTT packet.
fn send(
    alloc: Global,
    end: &mut End,
    packet_type: PacketType,
    message: u8,
) -> Result<Vec<u8>, Fail> {
    let (header, level) = header(packet_type);
    let mut packet = unsent(alloc, header, [message, end.last, 0, 0])?;
    let at = header.len();
    end.random = end.random.wrapping_mul(5).wrapping_add(77);
    vary(&mut end.connection, level, &mut packet, end.random)?;
    end.connection
        .send(level, &mut packet, at..at.saturating_add(4))?;
    Ok(packet)
}

/// A datagram: whether the client sends it, whether its end updates the keys before it, and the packets.
#[derive(Clone, Copy)]
struct Flight {
    is_client: bool,
    is_update: bool,
    packets: &'static [(PacketType, u8)],
}

/// The datagrams from the first Initial packet to 1-RTT packets. The first comes before its keys, and the second brings them.
const HANDSHAKES: [Flight; 5] = [
    Flight {
        is_client: true,
        is_update: false,
        packets: &[(PacketType::ZeroRtt, PING)],
    },
    Flight {
        is_client: true,
        is_update: false,
        packets: &[
            (PacketType::Initial, CLIENT_HELLO),
            (PacketType::ZeroRtt, PING),
        ],
    },
    Flight {
        is_client: false,
        is_update: false,
        packets: &[
            (PacketType::Initial, SERVER_HELLO),
            (PacketType::Handshake, SERVER_FINISHED),
            (PacketType::OneRtt, PING),
        ],
    },
    Flight {
        is_client: true,
        is_update: false,
        packets: &[
            (PacketType::Handshake, CLIENT_FINISHED),
            (PacketType::OneRtt, PING),
        ],
    },
    Flight {
        is_client: false,
        is_update: false,
        packets: &[(PacketType::OneRtt, HANDSHAKE_DONE)],
    },
];

/// The ends of 1-RTT packets that follow, and whether the end updates its keys before it: a key update of the client, the answer,
/// one packet between, and an update of the server, with an acknowledgment of each; twice.
const UPDATES: [(bool, bool); 12] = [
    (true, true),
    (false, false),
    (true, false),
    (false, true),
    (true, false),
    (false, false),
    (true, true),
    (false, false),
    (true, false),
    (false, true),
    (true, false),
    (false, false),
];

/// Sends a datagram from one end to the other.
fn fly(alloc: Global, from: &mut End, to: &mut End, flight: &Flight) -> Result<(), Fail> {
    if flight.is_update {
        from.connection.initiate_update()?;
    }
    let mut datagram = Vec::new(alloc);
    for (packet_type, message) in flight.packets {
        let packet = send(alloc, from, *packet_type, *message)?;
        datagram.extend_from_slice(&packet)?;
    }
    receive(alloc, to, &mut datagram, &ID)?;
    receive_kept(alloc, to)
}

/// Sends a datagram from the end that it names to the other.
fn exchange(
    alloc: Global,
    client: &mut End,
    server: &mut End,
    flight: &Flight,
) -> Result<(), Fail> {
    if flight.is_client {
        fly(alloc, client, server, flight)
    } else {
        fly(alloc, server, client, flight)
    }
}

/// Sends the datagrams of two key updates of each end.
fn update_twice(alloc: Global, client: &mut End, server: &mut End) -> Result<(), Fail> {
    for (is_client, is_update) in UPDATES {
        let flight = Flight {
            is_client,
            is_update,
            packets: &[(PacketType::OneRtt, PING)],
        };
        exchange(alloc, client, server, &flight)?;
    }
    Ok(())
}

/// Sends the datagrams up to the first 1-RTT packets.
fn shake_hands(alloc: Global, client: &mut End, server: &mut End) -> Result<(), Fail> {
    for flight in &HANDSHAKES {
        exchange(alloc, client, server, flight)?;
    }
    Ok(())
}

use PeerUpdate::{Answered, Initiated};

/// Asserts that each packet is received, and each key update of the peer is told once, with its first packet. The client begins
/// with the keys of 0-RTT packets.
fn receive_all(
    rt: &impl Abort,
    alloc: Global,
    client: &mut End,
    server: &mut End,
) -> Result<(), Fail> {
    let early = secret(EARLY);
    client.connection.install_sender(Level::OneRtt, early)?;
    shake_hands(alloc, client, server)?;
    update_twice(alloc, client, server)?;
    equal(rt, &(client.count, server.count), &(10, 11));
    let of_server = [Answered, Initiated, Answered, Initiated];
    equal(rt, &client.updates, &Vec::from_slice(alloc, &of_server)?);
    let of_client = [Initiated, Answered, Initiated, Answered];
    equal(rt, &server.updates, &Vec::from_slice(alloc, &of_client)?);
    Ok(())
}

// Each packet is received, over two key updates of each end.
#[test]
fn whole_connection(rt: HostRuntime) -> Result<(), Fail> {
    let mut client = make_end(rt.alloc(), true)?;
    let mut server = make_end(rt.alloc(), false)?;
    receive_all(&rt, rt.alloc(), &mut client, &mut server)
}

/// An end that sends and receives under these secrets at the levels of Handshake and 1-RTT packets.
fn established(own: [u8; 32], peer: [u8; 32]) -> Result<Connection<2>, KeyError> {
    with_secrets(Connection::new(FixedBit::Required), own, peer)
}

/// The same, of an end without keys.
fn with_secrets<const W: usize>(
    connection: Connection<W>,
    own: [u8; 32],
    peer: [u8; 32],
) -> Result<Connection<W>, KeyError> {
    let mut connection = connection.with_limit(4).with_max_failures(2);
    for level in [Level::Handshake, Level::OneRtt] {
        connection.install_sender(level, secret(own))?;
        connection.install_receiver(level, secret(peer))?;
    }
    Ok(connection)
}

/// Sends a packet of this type, and returns it.
fn sent(
    alloc: Global,
    connection: &mut Connection<2>,
    packet_type: PacketType,
) -> Result<Vec<u8>, Fail> {
    let (header, level) = header(packet_type);
    let mut packet = unsent(alloc, header, [PING, NONE, 0, 0])?;
    let at = header.len();
    connection.send(level, &mut packet, at..at.saturating_add(4))?;
    Ok(packet)
}

/// Asserts what becomes of a packet that is alone in its datagram.
fn becomes<const W: usize>(
    rt: &impl Abort,
    connection: &mut Connection<W>,
    packet: &mut [u8],
    id: &[u8; 8],
    wanted: Result<&str, ReceiveError>,
) {
    let found = match connection.receive(packet, 0, ID.len(), id) {
        Ok(step) => match step.incoming {
            Incoming::Packet(_, _, None) => Ok("received"),
            Incoming::Packet(_, _, Some(Initiated)) => Ok("initiated"),
            Incoming::Packet(_, _, Some(Answered)) => Ok("answered"),
            Incoming::NoKeys(_) => Ok("no keys"),
            Incoming::Dropped(_) => Ok("dropped"),
            Incoming::Ignored => Ok("ignored"),
        },
        Err(error) => Err(error),
    };
    equal(rt, &found, &wanted);
}

/// Flips one bit of a packet's tag.
fn forge(packet: &mut [u8]) {
    if let Some(byte) = packet.last_mut() {
        *byte ^= 1;
    }
}

/// What comes to an end.
#[derive(Clone, Copy)]
enum Arrival {
    /// The peer's first packet of this type.
    First(PacketType),
    /// The same with one bit of its tag flipped.
    Forged(PacketType),
    Bytes(&'static [u8]),
}

use Arrival::{Bytes, First, Forged};

/// Returns the peer's first packet of this type.
fn first_packet(alloc: Global, packet_type: PacketType) -> Result<Vec<u8>, Fail> {
    sent(alloc, &mut established(CLIENT, SERVER)?, packet_type)
}

/// Returns the bytes that come.
fn bytes_of(alloc: Global, arrival: Arrival) -> Result<Vec<u8>, Fail> {
    match arrival {
        First(packet_type) => first_packet(alloc, packet_type),
        Forged(packet_type) => {
            let mut packet = first_packet(alloc, packet_type)?;
            forge(&mut packet);
            Ok(packet)
        }
        Bytes(bytes) => Ok(Vec::from_slice(alloc, bytes)?),
    }
}

/// An Initial packet for which there are no keys.
const WITHOUT_KEYS: [u8; 41] = [
    0xc0, 0, 0, 0, 1, 8, 4, 4, 4, 4, 4, 4, 4, 4, 0, 0, 24, 0, 0, 0, 0, 0, 0, 0, 0, 0, 0, 0, 0, 0,
    0, 0, 0, 0, 0, 0, 0, 0, 0, 0, 0,
];

/// What comes to an end, each alone in its datagram, the ID that it asks for, what becomes of it, and the failures after it.
const ARRIVALS: [(Arrival, [u8; 8], Result<&str, ReceiveError>, u64); 9] = [
    (First(PacketType::Handshake), [8; 8], Ok("ignored"), 0),
    (Bytes(&[0xe0; 9]), ID, Ok("ignored"), 0),
    (Bytes(&WITHOUT_KEYS), ID, Ok("no keys"), 0),
    (Forged(PacketType::Handshake), ID, Ok("dropped"), 1),
    (First(PacketType::Handshake), ID, Ok("received"), 1),
    (First(PacketType::Handshake), ID, Ok("dropped"), 1),
    (Forged(PacketType::OneRtt), ID, Ok("dropped"), 2),
    (
        First(PacketType::OneRtt),
        ID,
        Err(ReceiveError::TooManyFailures),
        2,
    ),
    (Bytes(&[]), [8; 8], Err(ReceiveError::TooManyFailures), 2),
];

/// Asserts what becomes of each packet.
fn arrive(rt: &impl Abort, alloc: Global, end: &mut Connection<2>) -> Result<(), Fail> {
    for (arrival, id, wanted, failures) in &ARRIVALS {
        let mut packet = bytes_of(alloc, *arrival)?;
        becomes(rt, end, &mut packet, id, *wanted);
        equal(rt, &end.failures(), failures);
    }
    let packet = sent(alloc, end, PacketType::OneRtt)?;
    equal(rt, &packet.len(), &33);
    Ok(())
}

// A packet with another ID and one that can't be parsed are ignored, forged ones and duplicates are dropped, and one without keys
// is kept. At the limit of failures nothing is opened, and the end still sends.
#[test]
fn what_becomes_of_packets(rt: HostRuntime) -> Result<(), Fail> {
    arrive(&rt, rt.alloc(), &mut established(SERVER, CLIENT)?)
}

/// The Key Phase bit of a short header.
const KEY_PHASE: u8 = 0x04;

/// The payload of an authentic packet.
const PINGS: [u8; 4] = [PING; 4];

/// An authentic packet of the peer with these bits set in its first byte, this number in four bytes, and this payload. With the
/// Key Phase bit it is under the keys of the next phase.
fn authentic(
    alloc: Global,
    packet_type: PacketType,
    bits: u8,
    number: u8,
    payload: &[u8],
) -> Result<Vec<u8>, Fail> {
    let (header, _) = header(packet_type);
    let mut packet = Vec::from_slice(alloc, header)?;
    if let Some(first) = packet.first_mut() {
        *first |= bits | 3;
    }
    packet.extend_from_slice(&[0, 0, 0, number])?;
    let header_len = packet.len();
    packet.extend_from_slice(payload)?;
    packet.extend_from_slice(&[0; 16])?;
    let peer = secret(CLIENT);
    let key = if bits == KEY_PHASE {
        PacketKey::from_secret(&peer.next())
    } else {
        PacketKey::from_secret(&peer)
    };
    key.seal(u64::from(number), &mut packet, header_len)?;
    HeaderKey::from_secret(&peer).protect(&mut packet, header.len())?;
    Ok(packet)
}

/// An authentic packet that closes a connection which has received the 1-RTT packet 5: its type, the bits that are set in its
/// first byte, its number and its payload, and the error and its code.
type Closing = (PacketType, u8, u8, &'static [u8], ReceiveError, u64);

use ReceiveError::{KeyUpdate, NoFrames, ReservedBits};

/// Each reserved bit of a short header, and both of a long one; no frames; and a packet of the next phase whose number is below
/// one that the current keys opened. The codes are PROTOCOL_VIOLATION and KEY_UPDATE_ERROR (RFC 9000 section 20.1).
const CLOSING: [Closing; 5] = [
    (PacketType::OneRtt, 0x08, 6, &PINGS, ReservedBits, 0x0a),
    (PacketType::OneRtt, 0x10, 6, &PINGS, ReservedBits, 0x0a),
    (PacketType::Handshake, 0x0c, 6, &PINGS, ReservedBits, 0x0a),
    (PacketType::OneRtt, 0, 6, &[], NoFrames, 0x0a),
    (PacketType::OneRtt, KEY_PHASE, 4, &PINGS, KeyUpdate, 0x0e),
];

/// Asserts that the packet is returned as an error with its code, again if it comes again, and that the connection is then as it
/// was: it has counted neither the number nor a failure, has not updated its keys, and receives the packets that follow.
fn closes(
    rt: &impl Abort,
    alloc: Global,
    end: &mut Connection<2>,
    row: &Closing,
) -> Result<(), Fail> {
    let (packet_type, bits, number, payload, error, code) = *row;
    let mut fifth = authentic(alloc, PacketType::OneRtt, 0, 5, &PINGS)?;
    becomes(rt, end, &mut fifth, &ID, Ok("received"));
    for _ in 0..2 {
        let mut packet = authentic(alloc, packet_type, bits, number, payload)?;
        becomes(rt, end, &mut packet, &ID, Err(error));
    }
    equal(rt, &error.code(), &Some(code));
    equal(rt, &end.failures(), &0);
    equal(
        rt,
        &end.sender(Level::OneRtt).map(Sender::phase),
        &Some(false),
    );
    let mut right = authentic(alloc, packet_type, 0, number, &PINGS)?;
    becomes(rt, end, &mut right, &ID, Ok("received"));
    let mut update = authentic(alloc, PacketType::OneRtt, KEY_PHASE, 7, &PINGS)?;
    becomes(rt, end, &mut update, &ID, Ok("initiated"));
    equal(
        rt,
        &end.sender(Level::OneRtt).map(Sender::phase),
        &Some(true),
    );
    Ok(())
}

// Authentic packets that no peer may send are errors that close the connection, and none is dropped.
#[test]
fn authentic_packets_that_close(rt: HostRuntime) -> Result<(), Fail> {
    for row in &CLOSING {
        closes(&rt, rt.alloc(), &mut established(SERVER, CLIENT)?, row)?;
    }
    Ok(())
}

/// Asserts that one packet of a datagram is received, and how many fail.
fn receives_one(
    rt: &impl Abort,
    alloc: Global,
    connection: Connection<2>,
    datagram: &mut [u8],
    failures: u64,
) -> Result<(), Fail> {
    let mut end = with_nothing_received(alloc, connection);
    receive(alloc, &mut end, datagram, &ID)?;
    equal(rt, &end.count, &1);
    equal(rt, &end.connection.failures(), &failures);
    Ok(())
}

/// A datagram of the peer: an Initial packet whose fixed bit is 0, and a Handshake packet.
fn first_without_fixed_bit(alloc: Global) -> Result<Vec<u8>, Fail> {
    let mut peer = established(CLIENT, SERVER)?;
    let initial = QuicSecret::client_initial(Version::One, &ID)?;
    peer.install_sender(Level::Initial, initial)?;
    let mut datagram = sent(alloc, &mut peer, PacketType::Initial)?;
    if let Some(first) = datagram.first_mut() {
        *first &= CLEAR_FIXED_BIT;
    }
    datagram.extend_from_slice(&first_packet(alloc, PacketType::Handshake)?)?;
    Ok(datagram)
}

// An Initial packet whose fixed bit is 0 is ignored, and the Handshake packet after it is received.
#[test]
fn no_fixed_bit_in_first_packet(rt: HostRuntime) -> Result<(), Fail> {
    let mut datagram = first_without_fixed_bit(rt.alloc())?;
    let initial = QuicSecret::client_initial(Version::One, &ID)?;
    let mut connection = established(SERVER, CLIENT)?;
    connection.install_receiver(Level::Initial, initial)?;
    receives_one(&rt, rt.alloc(), connection, &mut datagram, 0)
}

/// A datagram of the peer: a forged Handshake packet, and a 1-RTT packet.
fn forged_first(alloc: Global) -> Result<Vec<u8>, Fail> {
    let mut datagram = bytes_of(alloc, Forged(PacketType::Handshake))?;
    datagram.extend_from_slice(&first_packet(alloc, PacketType::OneRtt)?)?;
    Ok(datagram)
}

// A forged packet is dropped and left as it was, and the packet after it is received.
#[test]
fn forged_first_packet(rt: HostRuntime) -> Result<(), Fail> {
    let mut datagram = forged_first(rt.alloc())?;
    let connection = established(SERVER, CLIENT)?;
    receives_one(&rt, rt.alloc(), connection, &mut datagram, 1)?;
    let first = bytes_of(rt.alloc(), Forged(PacketType::Handshake))?;
    holds(&rt, datagram.starts_with(&first), "the forged packet");
    Ok(())
}

/// Sends packets of 1-RTT until the key is used up, and returns how many there were, and the number of the last one that a key
/// update followed.
fn sends_until_used_up(
    alloc: Global,
    connection: &mut Connection<2>,
) -> Result<(u8, Option<u64>), Fail> {
    let mut last_of_phase = None;
    for count in 0..9 {
        let mut packet = unsent(alloc, &ONE_RTT, [PING, NONE, 0, 0])?;
        match connection.send(Level::OneRtt, &mut packet, 9..13) {
            Ok(sent) if sent.keys_updated => last_of_phase = Some(sent.number),
            Ok(_) => {}
            Err(SendError::KeyUsedUp) => return Ok((count, last_of_phase)),
            Err(error) => return Err(error.into()),
        }
    }
    Ok((9, last_of_phase))
}

/// Asserts that the last packet of a key is kept for the one that closes the connection.
fn keeps_one_to_close(rt: &impl Abort, alloc: Global, end: &mut Connection<2>) -> Result<(), Fail> {
    equal(rt, &sends_until_used_up(alloc, end)?, &(3, None));
    let mut close = unsent(alloc, &ONE_RTT, [PING, NONE, 0, 0])?;
    let closed = end.send_close(Level::OneRtt, &mut close, 9..13);
    let last = SentPacket {
        number: 3,
        keys_updated: false,
    };
    equal(rt, &closed, &Ok(last));
    Ok(())
}

/// Acknowledgments of a number in a packet with a key phase, and the outcomes.
const ACKNOWLEDGED: [(u64, bool, Result<(), NumberError>); 3] = [
    (5, false, Err(NumberError::UpdateUnanswered)),
    (6, true, Err(NumberError::NeverSent)),
    (5, true, Ok(())),
];

/// Asserts that the keys are updated when fewer than half of the packets are left, and again after an acknowledgment, and that
/// `send` tells both.
fn updates_by_itself(rt: &impl Abort, alloc: Global, end: &mut Connection<2>) -> Result<(), Fail> {
    end.confirm_handshake();
    equal(rt, &sends_until_used_up(alloc, end)?, &(6, Some(2)));
    let updated = end.initiate_update();
    equal(rt, &updated, &Err(KeyError::PhaseUnacknowledged));
    for (number, phase, outcome) in &ACKNOWLEDGED {
        let found = end.acknowledged(Level::OneRtt, *number, *phase);
        equal(rt, &found, outcome);
    }
    equal(rt, &sends_until_used_up(alloc, end)?, &(4, Some(6)));
    Ok(())
}

// The last packets of a key, before the handshake is confirmed and after that.
#[test]
fn last_packets_of_a_key(rt: HostRuntime) -> Result<(), Fail> {
    keeps_one_to_close(&rt, rt.alloc(), &mut established(SERVER, CLIENT)?)?;
    updates_by_itself(&rt, rt.alloc(), &mut established(SERVER, CLIENT)?)
}

// An end without keys neither sends nor updates.
#[test]
fn no_keys(rt: HostRuntime) -> Result<(), Fail> {
    let mut packet = unsent(rt.alloc(), &INITIAL, [PING, NONE, 0, 0])?;
    let mut end = Connection::<2>::new(FixedBit::Required);
    let sent = end.send(Level::Initial, &mut packet, 17..21);
    equal(&rt, &sent, &Err(SendError::NoKeys));
    let acknowledged = end.acknowledged(Level::Initial, 0, false);
    equal(&rt, &acknowledged, &Err(NumberError::NoKeys));
    end.confirm_handshake();
    let updated = end.initiate_update();
    equal(&rt, &updated, &Err(KeyError::HandshakeUnconfirmed));
    holds(&rt, end.sender(Level::OneRtt).is_none(), "no sender");
    Ok(())
}

/// Asserts that an end whose Handshake keys were dropped, and those of 0-RTT packets after them, ignores their packets, forged or
/// not, and takes no keys for them.
fn takes_none(rt: &impl Abort, alloc: Global, end: &mut Connection<2>) -> Result<(), Fail> {
    end.discard(Level::Handshake);
    for arrival in [First(PacketType::Handshake), Forged(PacketType::Handshake)] {
        becomes(rt, end, &mut bytes_of(alloc, arrival)?, &ID, Ok("ignored"));
    }
    for wanted in ["no keys", "ignored"] {
        let mut packet = first_packet(alloc, PacketType::ZeroRtt)?;
        becomes(rt, end, &mut packet, &ID, Ok(wanted));
        end.discard_zero_rtt();
    }
    for installed in [
        end.install_sender(Level::Handshake, secret(SERVER)),
        end.install_receiver(Level::Handshake, secret(CLIENT)),
        end.install_zero_rtt_receiver(secret(EARLY)),
    ] {
        equal(rt, &installed, &Err(KeyError::Discarded));
    }
    equal(rt, &end.failures(), &0);
    Ok(())
}

// After keys are dropped, their packets are ignored, and none can be installed.
#[test]
fn dropped_keys(rt: HostRuntime) -> Result<(), Fail> {
    takes_none(&rt, rt.alloc(), &mut established(SERVER, CLIENT)?)
}

/// The headers of forged packets for which an end has no keys, their level, their length, and how many of 200 it keeps.
const FLOODS: [(&[u8], Level, usize, usize); 2] = [
    (&HANDSHAKE, Level::Handshake, 40, 16),
    (&ONE_RTT, Level::OneRtt, 1200, 3),
];

/// Receives 200 packets with this header and this length.
fn receive_flood(alloc: Global, end: &mut End, header: &[u8], len: usize) -> Result<(), Fail> {
    for _ in 0..200 {
        let mut packet = Vec::from_slice(alloc, header)?;
        packet.resize(len, 0)?;
        receive(alloc, end, &mut packet, &ID)?;
    }
    Ok(())
}

// Of packets whose keys are still to come, an end keeps as many as it has room for, and of those whose keys were dropped none.
#[test]
fn floods(rt: HostRuntime) -> Result<(), Fail> {
    for (header, level, len, kept) in &FLOODS {
        let mut end = with_nothing_received(rt.alloc(), Connection::new(FixedBit::Required));
        receive_flood(rt.alloc(), &mut end, header, *len)?;
        equal(&rt, &end.kept.len(), kept);
        end.connection.discard(*level);
        receive_kept(rt.alloc(), &mut end)?;
        receive_flood(rt.alloc(), &mut end, header, *len)?;
        equal(&rt, &end.kept.len(), &0);
    }
    Ok(())
}

/// Asserts that a packet of this type whose fixed bit is 0 is sent only once the peer allows that, and that only an end which
/// allows it receives the packet.
fn without_fixed_bit(rt: &impl Abort, alloc: Global, packet_type: PacketType) -> Result<(), Fail> {
    let mut from = established(CLIENT, SERVER)?;
    let (header, level) = header(packet_type);
    let mut packet = unsent(alloc, header, [PING, NONE, 0, 0])?;
    if let Some(first) = packet.first_mut() {
        *first &= CLEAR_FIXED_BIT;
    }
    let number = header.len()..header.len().saturating_add(4);
    let refused = from.send(level, &mut packet, number.clone()?);
    equal(rt, &refused, &Err(SendError::NoFixedBit));
    from.set_peer_fixed_bit(FixedBit::Greased);
    from.send(level, &mut packet, number)?;
    for (fixed_bit, wanted) in [
        (FixedBit::Required, "ignored"),
        (FixedBit::Greased, "received"),
    ] {
        let mut to = with_secrets(Connection::<2>::new(fixed_bit), SERVER, CLIENT)?;
        becomes(rt, &mut to, &mut packet, &ID, Ok(wanted));
    }
    Ok(())
}

// Packets with a long header and with a short one whose fixed bit is 0.
#[test]
fn fixed_bits(rt: HostRuntime) -> Result<(), Fail> {
    for packet_type in [PacketType::Handshake, PacketType::OneRtt] {
        without_fixed_bit(&rt, rt.alloc(), packet_type)?;
    }
    Ok(())
}

/// Skips up to a number at a level, and the outcomes.
const SKIPS: [(Level, u64, Result<(), NumberError>); 5] = [
    (Level::Initial, 1, Err(NumberError::NoKeys)),
    (Level::Handshake, 1, Err(NumberError::NoKeys)),
    (Level::OneRtt, 7, Ok(())),
    (Level::OneRtt, 6, Err(NumberError::NumberUsed)),
    (
        Level::OneRtt,
        0x4000_0000_0000_0001,
        Err(NumberError::NumbersEnded),
    ),
];

/// Acknowledgments of the last number that was skipped, and of the one after it, and the outcomes.
const AFTER_SKIP: [(u64, Result<(), NumberError>); 2] = [
    (6, Err(NumberError::NeverSent)),
    (7, Ok(())),
];

/// Asserts the outcomes of an end that has no Initial keys and drops its Handshake keys.
fn skips(rt: &impl Abort, alloc: Global, end: &mut Connection<2>) -> Result<(), Fail> {
    end.discard(Level::Handshake);
    for (level, number, outcome) in &SKIPS {
        equal(rt, &end.skip_to(*level, *number), outcome);
    }
    let _ = sent(alloc, end, PacketType::OneRtt)?;
    for (number, outcome) in &AFTER_SKIP {
        let found = end.acknowledged(Level::OneRtt, *number, false);
        equal(rt, &found, outcome);
    }
    Ok(())
}

// The numbers of a level are skipped, if it has keys, and an acknowledgment of one of them is an error.
#[test]
fn skipped_numbers(rt: HostRuntime) -> Result<(), Fail> {
    skips(&rt, rt.alloc(), &mut established(SERVER, CLIENT)?)
}

/// Asserts what becomes of packet 0 after packet 200, and the ranges of the numbers that are then received.
fn comes_late<const W: usize>(
    rt: &impl Abort,
    alloc: Global,
    end: &mut Connection<W>,
    wanted: &str,
    ranges: &[(u64, u64)],
) -> Result<(), Fail> {
    let mut peer = established(CLIENT, SERVER)?;
    let mut late = sent(alloc, &mut peer, PacketType::OneRtt)?;
    peer.skip_to(Level::OneRtt, 200)?;
    let mut packet = sent(alloc, &mut peer, PacketType::OneRtt)?;
    becomes(rt, end, &mut packet, &ID, Ok("received"));
    becomes(rt, end, &mut late, &ID, Ok(wanted));
    has_ranges(rt, end.space(Level::OneRtt), ranges);
    Ok(())
}

// A packet that comes late is received if the window reaches its number: one of 128 numbers, and one of 256.
#[test]
fn windows(rt: HostRuntime) -> Result<(), Fail> {
    let mut narrow = with_secrets(Connection::<2>::new(FixedBit::Required), SERVER, CLIENT)?;
    comes_late(&rt, rt.alloc(), &mut narrow, "dropped", &[(200, 201)])?;
    let mut wide = with_secrets(Connection::<4>::new(FixedBit::Required), SERVER, CLIENT)?;
    comes_late(
        &rt,
        rt.alloc(),
        &mut wide,
        "received",
        &[(200, 201), (0, 1)],
    )
}
