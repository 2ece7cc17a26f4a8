//! Tests of `quic_packets::Sender`: packets of RFC 9001 appendix A and of another implementation, each error, skipped numbers, limits and key updates.

use crate::tests::checks::{equal, same};
use crate::tests::keys::{packets, plain};
use crate::tests::rows::{HEADER_KEY, IV, Row, rows};
use aead_vectors::rfc_9001::Packet;
use quic_packets::{
    FixedBit, HeaderKey, KeyError, Keys, NumberError, PacketKey, SendError, Sender, Suite, Version,
    algorithm, header_algorithm,
};
use std::alloc::Global;
use std::ops::Range;
use std::process::Abort;
use std::test::Fail;

/// Returns the row's packet before it is sent, with ones in the bits that `send` writes.
fn before(rt: &impl Abort, alloc: Global, row: &Row) -> Result<Vec<u8>, Fail> {
    let mut packet = hex::decode(alloc, row.header)?;
    let payload = hex::decode(alloc, row.payload)?;
    let header = packet.as_mut_slice();
    assert!(rt; 0 < row.number_at && row.number_at < header.len());
    header[0] |= if header[0] & 0x80 == 0x80 { 0x0f } else { 0x1f };
    header[row.number_at..].fill(0xff);
    packet.extend_from_slice(&payload)?;
    packet.extend_from_slice(&[0xff; 16])?;
    Ok(packet)
}

/// Creates the sender of the row's packet.
fn sender_of(row: &Row) -> Result<Sender, Fail> {
    let mut sender = Sender::new(row.suite, row.keys(), row.number)?;
    if let Some(number) = row.acknowledged {
        sender.acknowledged(number)?;
    }
    if row.phase {
        sender.follow_update_with(row.key(), IV)?;
    }
    Ok(sender)
}

/// Sends the row's packet, and returns its number.
fn send(sender: &mut Sender, packet: &mut [u8], row: &Row) -> Result<u64, SendError> {
    let len = sender.next_number_len().ok_or(SendError::NumberTooFar)?;
    let end = row.number_at.saturating_add(len);
    sender.send(packet, row.number_at..end, FixedBit::Required)
}

/// Asserts that `send` yields the row's packet, which is from the other implementation.
fn sends(rt: &impl Abort, alloc: Global, row: &Row) -> Result<(), Fail> {
    let wanted = hex::decode(alloc, row.protected)?;
    let mut packet = before(rt, alloc, row)?;
    let mut sender = sender_of(row)?;
    let number = send(&mut sender, &mut packet, row)?;
    equal(rt, &number, &row.number);
    equal(rt, &sender.sealed(), &1);
    same(rt, &packet, &wanted, row.name);
    Ok(())
}

#[test]
fn packets_of_another_implementation(rt: HostRuntime) -> Result<(), Fail> {
    for row in rows() {
        sends(&rt, rt.alloc(), &row)?;
    }
    Ok(())
}

/// Asserts that `send` yields the packet of RFC 9001 appendix A.
fn sends_vector(rt: &impl Abort, row: &Packet) -> Result<(), Fail> {
    let keys = Keys {
        version: Version::One,
        key: &row.key,
        iv: row.iv,
        header_key: &row.header_key,
    };
    let mut packet = plain(row)?;
    packet.extend_from_slice(&[0; 16])?;
    let room = row.number_at..row.header.len();
    Sender::new(Suite::Aes128Gcm, keys, row.number)?.send(&mut packet, room, FixedBit::Required)?;
    same(rt, &packet, &row.protected, row.name);
    Ok(())
}

// A.2 has its number 2 in four bytes, where one would do.
#[test]
fn appendix_a(rt: HostRuntime) -> Result<(), Fail> {
    for line in packets() {
        sends_vector(&rt, &Packet::parse(rt.alloc(), line)?)?;
    }
    Ok(())
}

/// A short header of two bytes, a payload, and room for the tag.
const SHORT: [u8; 24] = [
    0x40, 0, 1, 1, 1, 1, 1, 1, 0, 0, 0, 0, 0, 0, 0, 0, 0, 0, 0, 0, 0, 0, 0, 0,
];

/// Creates a sender with a key of ones, whose first packet has the number `first`.
fn sender(first: u64) -> Result<Sender, KeyError> {
    let keys = Keys {
        version: Version::One,
        key: &[1; 16],
        iv: IV,
        header_key: &HEADER_KEY[..16],
    };
    Sender::new(Suite::Aes128Gcm, keys, first)
}

/// Returns a packet with this first byte and version.
fn packet(first: u8, version: u8) -> [u8; 24] {
    let mut packet = SHORT;
    packet[0] = first;
    packet[2] = 0;
    packet[3] = 0;
    packet[4] = version;
    packet
}

/// Asserts that `send` fails with this error, and the packet and the sender are unchanged.
fn refuses(
    rt: &impl Abort,
    sender: &mut Sender,
    packet: &[u8; 24],
    room: Range<usize>,
    wanted: SendError,
) {
    let mut sent = *packet;
    let before = (sender.next_number(), sender.sealed());
    let found = sender.send(&mut sent, room, FixedBit::Required);
    equal(rt, &found, &Err(wanted));
    let after = (sender.next_number(), sender.sealed());
    equal(rt, &after, &before);
    same(rt, &sent, packet, "refused");
}

/// A first byte and a version, the start and end of the room for the packet number, and the error.
const REFUSALS: [(u8, u8, usize, usize, SendError); 11] = [
    (0x40, 0, 8, 9, SendError::TooShort),
    (0x40, 0, 0, 1, SendError::NumberAtFirstByte),
    (0x40, 0, 5, 6, SendError::NoSample),
    (0x40, 0, 1, 6, SendError::NumberLength),
    (0x40, 0, 2, 1, SendError::NumberLength),
    (0xf0, 1, 1, 2, SendError::NoProtection),
    (0xc0, 0, 1, 2, SendError::NoProtection),
    (0xa0, 2, 4, 5, SendError::OtherVersion),
    (0x00, 0, 1, 2, SendError::NoFixedBit),
    (0xa0, 1, 4, 5, SendError::NoFixedBit),
    (0x40, 0, 4, 8, SendError::EmptyPayload),
];

#[test]
fn refusals(rt: HostRuntime) -> Result<(), Fail> {
    let mut sender = sender(0)?;
    for (first, version, start, end, error) in REFUSALS {
        refuses(&rt, &mut sender, &packet(first, version), start..end, error);
    }
    Ok(())
}

// The shortest packets that have a sample, with a short and with a long header.
#[test]
fn shortest(rt: HostRuntime) -> Result<(), Fail> {
    let mut sender = sender(0)?;
    for (number, first) in [(0, 0x40), (1, 0xe0)] {
        let sent = sender.send(&mut packet(first, 1), 4..5, FixedBit::Required);
        equal(&rt, &sent, &Ok(number));
    }
    Ok(())
}

// A fixed bit of 0, which is greased.
#[test]
fn greased(rt: HostRuntime) -> Result<(), Fail> {
    let mut sender = sender(0)?;
    for (number, first) in [(0, 0x00), (1, 0xa0)] {
        let mut packet = packet(first, 1);
        let sent = sender.send(&mut packet, 4..5, FixedBit::Greased);
        equal(&rt, &sent, &Ok(number));
        equal(&rt, &(packet[0] & 0x40), &0);
    }
    Ok(())
}

// Packet numbers are only skipped forward, and they end.
#[test]
fn numbers(rt: HostRuntime) -> Result<(), Fail> {
    let mut sender = sender(1 << 31)?;
    refuses(&rt, &mut sender, &SHORT, 1..2, SendError::NumberTooFar);
    for (number, outcome) in [
        ((1 << 31) - 1, Err(NumberError::NumberUsed)),
        ((1 << 62) + 1, Err(NumberError::NumbersEnded)),
        (1 << 62, Ok(())),
    ] {
        equal(&rt, &sender.skip_to(number), &outcome);
    }
    refuses(&rt, &mut sender, &SHORT, 1..2, SendError::NumbersEnded);
    Ok(())
}

/// An event at a sender. All bytes of a key are equal.
#[derive(Clone, Copy)]
enum Event {
    /// Sends a packet, which opens with this key and has this key phase.
    Sent(u8, bool),
    Refused(SendError),
    Confirmed,
    Skipped(u64),
    Acknowledged(u64),
    /// The peer acknowledges a number that is not below the next one, or that was skipped.
    NeverSent(u64),
    /// The peer acknowledges a number in a packet with this key phase.
    AcknowledgedIn(u64, bool, Result<(), NumberError>),
    /// The first number of the phase, and how many packets can still be sent.
    Stands(u64, u64),
    /// Initiates an update to a key of this byte and length.
    Initiated(u8, usize, Result<(), KeyError>),
    Followed(u8, usize, Result<(), KeyError>),
}

use Event::{
    Acknowledged, AcknowledgedIn, Confirmed, Followed, Initiated, NeverSent, Refused, Sent,
    Skipped, Stands,
};

/// Asserts that the packet opens with this key, and has this number and key phase.
fn opens(
    rt: &impl Abort,
    mut packet: [u8; 24],
    key: u8,
    number: u64,
    phase: bool,
) -> Result<(), KeyError> {
    let header_key = HeaderKey::new(header_algorithm(Suite::Aes128Gcm), &HEADER_KEY[..16])?;
    equal(rt, &header_key.unprotect(&mut packet, 1), &Ok(1));
    let header = [if phase { 0x44 } else { 0x40 }, number.to_le_bytes()[0]];
    same(rt, &packet[..2], &header, "header");
    let key = PacketKey::new(algorithm(Suite::Aes128Gcm), &[key; 16], IV)?;
    equal(rt, &key.open(number, &mut packet, 2), &Ok(6));
    same(rt, &packet[2..8], &SHORT[2..8], "payload");
    Ok(())
}

fn sends_under(rt: &impl Abort, sender: &mut Sender, key: u8, phase: bool) -> Result<(), Fail> {
    let mut packet = SHORT;
    let number = sender.send(&mut packet, 1..2, FixedBit::Required)?;
    opens(rt, packet, key, number, phase)?;
    Ok(())
}

fn meets(rt: &impl Abort, sender: &mut Sender, event: Event) -> Result<(), Fail> {
    match event {
        Sent(key, phase) => sends_under(rt, sender, key, phase)?,
        Refused(error) => refuses(rt, sender, &SHORT, 1..2, error),
        Confirmed => sender.confirm_handshake(),
        Skipped(number) => sender.skip_to(number)?,
        Acknowledged(number) => sender.acknowledged(number)?,
        NeverSent(number) => {
            let outcome = sender.acknowledged(number);
            equal(rt, &outcome, &Err(NumberError::NeverSent));
        }
        AcknowledgedIn(number, phase, outcome) => {
            equal(rt, &sender.acknowledged_in(number, phase), &outcome);
        }
        Stands(first, remaining) => {
            let found = (sender.first_of_phase(), sender.remaining());
            equal(rt, &found, &(first, remaining));
        }
        Initiated(key, len, outcome) => {
            equal(
                rt,
                &sender.initiate_update_with(&[key; 32][..len.min(32)], IV),
                &outcome,
            );
        }
        Followed(key, len, outcome) => {
            equal(
                rt,
                &sender.follow_update_with(&[key; 32][..len.min(32)], IV),
                &outcome,
            );
        }
    }
    Ok(())
}

/// At most two packets under each key. The limit applies anew after a key update, and the numbers continue.
const LIMITS_AND_UPDATES: [Event; 17] = [
    Sent(1, false),
    Sent(1, false),
    Refused(SendError::KeyUsedUp),
    Initiated(2, 16, Err(KeyError::HandshakeUnconfirmed)),
    Confirmed,
    Initiated(2, 17, Err(KeyError::KeyLength)),
    Initiated(2, 16, Ok(())),
    Sent(2, true),
    Acknowledged(1),
    NeverSent(3),
    NeverSent(1 << 61),
    Initiated(3, 16, Err(KeyError::PhaseUnacknowledged)),
    Acknowledged(2),
    Initiated(3, 16, Ok(())),
    Followed(4, 15, Err(KeyError::KeyLength)),
    Followed(4, 16, Ok(())),
    Sent(4, true),
];

/// A phase whose first packet comes after a skip, one with a skip after its packet, whose acknowledgment allows the next update,
/// and one with two skips before its packet and one after it that leaves no number unused. No skipped number was sent.
const SKIPS: [Event; 27] = [
    Confirmed,
    Initiated(2, 16, Ok(())),
    Skipped(50),
    NeverSent(0),
    NeverSent(49),
    Initiated(3, 16, Err(KeyError::PhaseUnacknowledged)),
    Sent(2, true),
    NeverSent(49),
    NeverSent(51),
    Initiated(3, 16, Err(KeyError::PhaseUnacknowledged)),
    Acknowledged(50),
    Initiated(3, 16, Ok(())),
    Sent(3, false),
    Skipped(60),
    NeverSent(52),
    NeverSent(59),
    Initiated(4, 16, Err(KeyError::PhaseUnacknowledged)),
    Acknowledged(51),
    Initiated(4, 16, Ok(())),
    Skipped(70),
    Skipped(80),
    NeverSent(69),
    NeverSent(70),
    Sent(4, true),
    Skipped(81),
    Acknowledged(80),
    Initiated(5, 16, Ok(())),
];

/// Acknowledgments that come under the keys of each phase: under older keys, only a number of an earlier phase is acknowledged. A
/// skip leaves the first number of the phase.
const OLDER_KEYS: [Event; 18] = [
    Stands(0, 9),
    Sent(1, false),
    AcknowledgedIn(0, false, Ok(())),
    AcknowledgedIn(1, true, Err(NumberError::NeverSent)),
    Confirmed,
    Initiated(2, 16, Ok(())),
    Stands(1, 9),
    Sent(2, true),
    Skipped(5),
    Sent(2, true),
    Stands(1, 7),
    AcknowledgedIn(0, false, Ok(())),
    AcknowledgedIn(1, false, Err(NumberError::UpdateUnanswered)),
    AcknowledgedIn(5, false, Err(NumberError::UpdateUnanswered)),
    AcknowledgedIn(4, false, Err(NumberError::NeverSent)),
    AcknowledgedIn(6, false, Err(NumberError::NeverSent)),
    Initiated(3, 16, Err(KeyError::PhaseUnacknowledged)),
    AcknowledgedIn(5, true, Ok(())),
];

/// At the last numbers, fewer packets than the limit are left.
const LAST_NUMBERS: [Event; 1] = [Stands((1 << 62) - 3, 3)];

/// Asserts the result of each event at one sender.
fn happen(rt: &impl Abort, first: u64, limit: u64, events: &[Event]) -> Result<(), Fail> {
    let mut sender = sender(first)?.with_limit(limit);
    for &event in events {
        meets(rt, &mut sender, event)?;
    }
    Ok(())
}

#[test]
fn events(rt: HostRuntime) -> Result<(), Fail> {
    happen(&rt, 0, 2, &LIMITS_AND_UPDATES)?;
    happen(&rt, 0, 99, &SKIPS)?;
    happen(&rt, 0, 9, &OLDER_KEYS)?;
    happen(&rt, (1 << 62) - 3, 9, &LAST_NUMBERS)
}

/// Skips a number before each of these, and sends a packet.
fn send_after_skips(sender: &mut Sender, numbers: &[u64]) -> Result<(), Fail> {
    for &number in numbers {
        sender.skip_to(number)?;
        sender.send(&mut packet(0x40, 0), 1..2, FixedBit::Required)?;
    }
    Ok(())
}

/// Asserts the result of an acknowledgment of each of these.
fn acknowledges(
    rt: &impl Abort,
    sender: &mut Sender,
    numbers: &[u64],
    wanted: Result<(), NumberError>,
) {
    for &number in numbers {
        equal(rt, &sender.acknowledged(number), &wanted);
    }
}

// Eight ranges of skipped numbers are kept, over a key update. A ninth forgets the lowest one, which then is acknowledged, and
// allows no update.
#[test]
fn skipped_ranges(rt: HostRuntime) -> Result<(), Fail> {
    let never_sent = Err(NumberError::NeverSent);
    let mut sender = sender(0)?;
    sender.confirm_handshake();
    send_after_skips(&mut sender, &[1, 3, 5])?;
    sender.follow_update_with(&[2; 16], IV)?;
    send_after_skips(&mut sender, &[7, 9, 11, 13, 15])?;
    acknowledges(&rt, &mut sender, &[0, 2, 4, 6, 14, 16], never_sent);
    send_after_skips(&mut sender, &[17, 19, 21, 23])?;
    acknowledges(&rt, &mut sender, &[0, 2, 4, 6], Ok(()));
    acknowledges(&rt, &mut sender, &[8, 10, 22, 24], never_sent);
    let updated = sender.initiate_update_with(&[3; 16], IV);
    equal(&rt, &updated, &Err(KeyError::PhaseUnacknowledged));
    sender.acknowledged(7)?;
    sender.initiate_update_with(&[3; 16], IV)?;
    Ok(())
}

// Acknowledgments keep the numbers of a sender short. The largest one counts, over key updates and installed keys.
#[test]
fn short_numbers(rt: HostRuntime) -> Result<(), Fail> {
    let mut sender = sender(1 << 40)?;
    equal(&rt, &sender.next_number_len(), &None);
    sender.acknowledged((1 << 40) - 1)?;
    sender.acknowledged(5)?;
    sender.send(&mut packet(0x40, 0), 1..2, FixedBit::Required)?;
    sender.follow_update_with(&[2; 16], IV)?;
    sender.send(&mut packet(0x40, 0), 1..2, FixedBit::Required)?;
    install_keys(&mut sender, 32)?;
    equal(&rt, &sender.next_number_len(), &Some(1));
    equal(&rt, &sender.largest_acknowledged(), &Some((1 << 40) - 1));
    Ok(())
}

/// Turns a sender of 0-RTT packets into one of 1-RTT packets.
fn install_keys(sender: &mut Sender, header_key_len: usize) -> Result<(), KeyError> {
    let keys = Keys {
        version: Version::One,
        key: &[5; 32],
        iv: IV,
        header_key: &HEADER_KEY[..header_key_len.min(32)],
    };
    sender.install_keys(Suite::Aes256Gcm, keys)
}

// A refused key leaves those of 0-RTT. The numbers and the limit of 0-RTT continue under the 1-RTT keys.
#[test]
fn numbers_go_on(rt: HostRuntime) -> Result<(), Fail> {
    let mut sender = sender(0)?.with_limit(1);
    sender.send(&mut packet(0xd0, 1), 4..5, FixedBit::Required)?;
    let refused = install_keys(&mut sender, 16);
    equal(&rt, &refused, &Err(KeyError::KeyLength));
    refuses(&rt, &mut sender, &SHORT, 1..2, SendError::KeyUsedUp);
    install_keys(&mut sender, 32)?;
    let sent = sender.send(&mut packet(0x40, 0), 1..2, FixedBit::Required);
    equal(&rt, &sent, &Ok(1));
    refuses(&rt, &mut sender, &SHORT, 1..2, SendError::KeyUsedUp);
    Ok(())
}
