//! Tests of `Receiver`, `Space` and `Failures`: packets of RFC 9001 appendix A, flipped bits, duplicates, key updates and
//! limits.

use crate::tests::checks::{equal, has_ranges, holds, same};
use crate::tests::keys::packets;
use crate::tests::rows::{IV as ROW_IV, Row, rows};
use aead_ciphers::aead::{AES_128_GCM, quic};
use aead_vectors::rfc_9001::Packet;
use quic_packets::{
    Failures, FixedBit, HeaderKey, KeyError, Keys, Packet as Parts, PacketKey, PacketType,
    ReceiveError, Received, Receiver, Space, Suite, Version, packet_at,
};
use std::alloc::Global;
use std::process::Abort;
use std::test::Fail;

const IV: [u8; 12] = [5; 12];

const HEADER_KEY: [u8; 16] = [9; 16];

/// The first byte of a short header with a packet number of two bytes, in the first key phase. `SECOND` is for the second.
const FIRST: u8 = 0x41;

const SECOND: u8 = 0x45;

/// Returns a protected packet of 40 bytes with a packet number of two bytes. Each byte of the key is `key`.
fn sent(key: u8, first: u8, number: u16) -> Result<[u8; 40], Fail> {
    let mut packet = [7; 40];
    packet[0] = first;
    let [high, low] = number.to_be_bytes();
    packet[9] = high;
    packet[10] = low;
    PacketKey::new(&AES_128_GCM, &[key; 16], IV)?.seal(u64::from(number), &mut packet, 11)?;
    HeaderKey::new(&quic::AES_128, &HEADER_KEY)?.protect(&mut packet, 9)?;
    Ok(packet)
}

/// The keys of a packet key.
fn keys(key: &[u8]) -> Keys<'_> {
    Keys {
        version: Version::One,
        key,
        iv: IV,
        header_key: &HEADER_KEY,
    }
}

/// Creates a receiver with a key whose bytes are all `key`.
fn receiver(key: u8) -> Result<Receiver, KeyError> {
    Receiver::new(Suite::Aes128Gcm, keys(&[key; 16]))
}

/// A receiving end, with the state that its packets share.
#[derive(Drop)]
struct End {
    receiver: Receiver,
    space: Space<2>,
    failures: Failures,
}

/// An event at a receiving end. A packet is given by the byte of its key, its first byte and its number.
#[derive(Clone, Copy)]
enum Event {
    Accepted(u8, u8, u16),
    Rejected(u8, u8, u16, ReceiveError),
    /// Sets the keys of the next phase.
    NextKey(u8),
    ForgetPrevious,
    /// Continues with another receiver in the same space.
    OtherKey(u8),
}

use Event::{Accepted, ForgetPrevious, NextKey, OtherKey, Rejected};

impl End {
    fn new(receiver: Receiver, max_failures: u64) -> Self {
        End {
            receiver,
            space: Space::new(),
            failures: Failures::new().with_limit(max_failures),
        }
    }

    fn receive(&mut self, packet: &mut [u8], number_at: usize) -> Result<Received, ReceiveError> {
        let end = packet.len();
        self.receive_part(packet, 0, Some(number_at), end)
    }

    /// Receives the packet between two positions of a datagram.
    fn receive_part(
        &mut self,
        datagram: &mut [u8],
        start: usize,
        number_at: Option<usize>,
        end: usize,
    ) -> Result<Received, ReceiveError> {
        let parts = Parts {
            start,
            packet_type: PacketType::OneRtt,
            version: None,
            destination_id: 1..1,
            source_id: 1..1,
            token: 1..1,
            number_at,
            end,
        };
        self.receiver
            .receive(&mut self.space, &mut self.failures, datagram, &parts)
    }

    /// Receives such a packet, and returns its number or the error.
    fn takes(
        &mut self,
        key: u8,
        first: u8,
        number: u16,
    ) -> Result<Result<u64, ReceiveError>, Fail> {
        let mut packet = sent(key, first, number)?;
        Ok(self.receive(&mut packet, 9).map(|received| received.number))
    }

    fn meets(&mut self, rt: &impl Abort, event: Event) -> Result<(), Fail> {
        match event {
            Accepted(key, first, number) => {
                equal(rt, &self.takes(key, first, number)?, &Ok(u64::from(number)));
            }
            Rejected(key, first, number, error) => {
                equal(rt, &self.takes(key, first, number)?, &Err(error));
            }
            NextKey(key) => self.receiver.set_next_with(&[key; 16], IV)?,
            ForgetPrevious => self.receiver.forget_previous(),
            OtherKey(key) => self.receiver = receiver(key)?,
        }
        Ok(())
    }
}

/// Asserts the result of each event at one end, which begins with a key of ones, and then the number of failures.
fn happen(rt: &impl Abort, limit: u64, events: &[Event], failures: u64) -> Result<(), Fail> {
    let mut end = End::new(receiver(1)?, limit);
    for &event in events {
        end.meets(rt, event)?;
    }
    equal(rt, &end.failures.count(), &failures);
    Ok(())
}

/// Asserts that a packet of RFC 9001 appendix A is received with its header and the length of its payload.
fn receives(rt: &impl Abort, row: &Packet) -> Result<(), Fail> {
    let keys = Keys {
        version: Version::One,
        key: &row.key,
        iv: row.iv,
        header_key: &row.header_key,
    };
    let receiver = Receiver::new(Suite::Aes128Gcm, keys)?;
    let mut packet = row.protected.clone()?;
    let received = End::new(receiver, 1).receive(&mut packet, row.number_at)?;
    let wanted = Received {
        number: row.number,
        payload: row.header.len()..row.header.len().saturating_add(row.payload_len),
        phase: false,
    };
    equal(rt, &received, &wanted);
    holds(rt, packet.starts_with(&row.header), row.name);
    Ok(())
}

#[test]
fn appendix_a(rt: HostRuntime) -> Result<(), Fail> {
    for line in packets() {
        receives(&rt, &Packet::parse(rt.alloc(), line)?)?;
    }
    Ok(())
}

/// Creates the end that receives a row's packet, in either key phase.
fn row_end(row: &Row) -> Result<End, KeyError> {
    let mut receiver = Receiver::new(row.suite, row.keys())?;
    receiver.set_next_with(row.key(), ROW_IV)?;
    Ok(End::new(receiver, 10_000))
}

/// Returns the packet with this bit flipped.
fn flipped(rt: &impl Abort, alloc: Global, packet: &[u8], bit: usize) -> Result<Vec<u8>, Fail> {
    let mut flipped = Vec::from_slice(alloc, packet)?;
    assert!(rt; bit / 8 < flipped.len());
    flipped[bit / 8] ^= 1 << (bit % 8);
    Ok(flipped)
}

/// Asserts that a modified packet is rejected and unchanged.
fn rejects(rt: &impl Abort, end: &mut End, row: &Row, packet: &mut Vec<u8>) -> Result<(), Fail> {
    let came = packet.clone()?;
    let outcome = end.receive(packet, row.number_at);
    equal(rt, &outcome, &Err(ReceiveError::Refused));
    same(rt, packet, &came, row.name);
    Ok(())
}

/// Asserts that the row's packet is rejected and counted if any one bit is flipped, and received if none is.
fn refuses_flipped(rt: &impl Abort, alloc: Global, row: &Row) -> Result<(), Fail> {
    let mut packet = hex::decode(alloc, row.protected)?;
    let mut end = row_end(row)?;
    let bits = packet.len().saturating_mul(8);
    for bit in 0..bits {
        rejects(rt, &mut end, row, &mut flipped(rt, alloc, &packet, bit)?)?;
    }
    equal(rt, &end.failures.count(), &(bits as u64));
    let received = end.receive(&mut packet, row.number_at)?;
    equal(
        rt,
        &(received.number, received.phase),
        &(row.number, row.phase),
    );
    Ok(())
}

// Only the packets whose numbers are decoded correctly if no packet was received before.
#[test]
fn each_bit_flipped(rt: HostRuntime) -> Result<(), Fail> {
    for row in rows() {
        if row.number < 1 << 24 && row.name != "two bytes" {
            refuses_flipped(&rt, rt.alloc(), &row)?;
        }
    }
    Ok(())
}

/// Each number is accepted once, and a number that is 128 below the largest is rejected.
const EACH_NUMBER_ONCE: [Event; 12] = [
    Accepted(1, FIRST, 0),
    Accepted(1, FIRST, 2),
    Accepted(1, FIRST, 1),
    Accepted(1, FIRST, 300),
    Accepted(1, FIRST, 173),
    Accepted(1, FIRST, 299),
    Rejected(1, FIRST, 0, ReceiveError::Duplicate),
    Rejected(1, FIRST, 2, ReceiveError::Duplicate),
    Rejected(1, FIRST, 300, ReceiveError::Duplicate),
    Rejected(1, FIRST, 173, ReceiveError::Duplicate),
    Rejected(1, FIRST, 299, ReceiveError::Duplicate),
    Rejected(1, FIRST, 172, ReceiveError::Duplicate),
];

/// Two key updates, with late packets of the previous phase. A packet is rejected if the receiver does not have its key.
const PHASES: [Event; 13] = [
    Accepted(1, FIRST, 5),
    Rejected(2, SECOND, 6, ReceiveError::Refused),
    NextKey(2),
    Rejected(2, SECOND, 4, ReceiveError::KeyUpdate),
    Accepted(2, SECOND, 8),
    Accepted(1, FIRST, 6),
    Accepted(2, SECOND, 7),
    NextKey(3),
    Accepted(1, FIRST, 4),
    Accepted(3, FIRST, 9),
    Rejected(1, FIRST, 3, ReceiveError::Refused),
    ForgetPrevious,
    Rejected(2, SECOND, 2, ReceiveError::Refused),
];

/// Packets under earlier keys than those of a lower number: under the next, the current and the previous keys, also once the
/// previous key is forgotten, and after late packets of theirs.
const EARLIER_KEYS: [Event; 18] = [
    Accepted(1, FIRST, 10),
    NextKey(2),
    Rejected(2, SECOND, 9, ReceiveError::KeyUpdate),
    Accepted(2, SECOND, 20),
    Rejected(2, SECOND, 9, ReceiveError::KeyUpdate),
    Accepted(2, SECOND, 19),
    Accepted(1, FIRST, 8),
    Accepted(2, SECOND, 11),
    Accepted(1, FIRST, 9),
    Rejected(1, FIRST, 10, ReceiveError::Duplicate),
    Accepted(2, SECOND, 14),
    NextKey(3),
    Accepted(3, FIRST, 30),
    Rejected(2, SECOND, 7, ReceiveError::KeyUpdate),
    Accepted(2, SECOND, 25),
    ForgetPrevious,
    Rejected(3, FIRST, 24, ReceiveError::KeyUpdate),
    Accepted(3, FIRST, 26),
];

/// A late packet of the previous key raises its highest number.
const LATE_PACKETS: [Event; 5] = [
    NextKey(2),
    Accepted(2, SECOND, 20),
    Accepted(1, FIRST, 15),
    Rejected(2, SECOND, 14, ReceiveError::KeyUpdate),
    Accepted(2, SECOND, 16),
];

/// Once the limit of 2 failures is reached, every packet is rejected and none is counted.
const FAILURES: [Event; 4] = [
    Rejected(2, FIRST, 0, ReceiveError::Refused),
    Accepted(1, FIRST, 0),
    Rejected(2, FIRST, 1, ReceiveError::Refused),
    Rejected(1, FIRST, 1, ReceiveError::TooManyFailures),
];

/// 0-RTT and 1-RTT packets have different keys and share one space.
const ONE_SPACE: [Event; 4] = [
    Accepted(1, 0xd1, 0),
    OtherKey(2),
    Rejected(2, FIRST, 0, ReceiveError::Duplicate),
    Accepted(2, FIRST, 1),
];

/// Reserved bits in authentic packets with short and long headers.
const RESERVED_BITS: [Event; 3] = [
    Rejected(1, FIRST | 0x08, 3, ReceiveError::ReservedBits),
    Rejected(1, 0xc5, 3, ReceiveError::ReservedBits),
    Accepted(1, 0xd1, 3),
];

#[test]
fn events(rt: HostRuntime) -> Result<(), Fail> {
    happen(&rt, 9, &EACH_NUMBER_ONCE, 0)?;
    happen(&rt, 9, &PHASES, 3)?;
    happen(&rt, 9, &EARLIER_KEYS, 0)?;
    happen(&rt, 9, &LATE_PACKETS, 0)?;
    happen(&rt, 2, &FAILURES, 2)?;
    happen(&rt, 9, &ONE_SPACE, 0)?;
    happen(&rt, 9, &RESERVED_BITS, 0)
}

/// Numbers, and whether each is received in a window of 64 words. The last two that aren't are a duplicate, and one that is 4096
/// below the largest.
const IN_64_WORDS: [(u16, bool); 10] = [
    (0, true),
    (4095, true),
    (0, false),
    (4096, true),
    (0, false),
    (1, true),
    (4160, true),
    (65, true),
    (65, false),
    (64, false),
];

#[test]
fn window_of_64_words(rt: HostRuntime) -> Result<(), Fail> {
    let mut receiver = receiver(1)?;
    let mut space = Space::<64>::new();
    let mut failures = Failures::new();
    for (number, is_new) in IN_64_WORDS {
        let mut packet = sent(1, FIRST, number)?;
        let parts = packet_at(&packet, 0, 8, FixedBit::Required)?;
        let outcome = receiver.receive(&mut space, &mut failures, &mut packet, &parts);
        let is_duplicate = outcome == Err(ReceiveError::Duplicate);
        equal(&rt, &outcome.is_ok(), &is_new);
        holds(&rt, is_duplicate != is_new, "a duplicate");
    }
    has_ranges(&rt, &space, &[(4160, 4161), (4095, 4097), (65, 66)]);
    Ok(())
}

// An authentic packet with reserved bits set is rejected with that error, and its payload is then decrypted.
#[test]
fn reserved_bits(rt: HostRuntime) -> Result<(), Fail> {
    let mut packet = sent(1, FIRST | 0x08, 3)?;
    let outcome = End::new(receiver(1)?, 1).receive(&mut packet, 9);
    equal(&rt, &outcome, &Err(ReceiveError::ReservedBits));
    same(&rt, &packet[11..24], &[7; 13], "opened");
    Ok(())
}

// An authentic packet without a payload: a number of four bytes, and the tag.
#[test]
fn no_frames(rt: HostRuntime) -> Result<(), Fail> {
    let mut packet = [0; 29];
    packet[0] = 0x43;
    packet[12] = 5;
    PacketKey::new(&AES_128_GCM, &[1; 16], IV)?.seal(5, &mut packet, 13)?;
    HeaderKey::new(&quic::AES_128, &HEADER_KEY)?.protect(&mut packet, 9)?;
    let mut end = End::new(receiver(1)?, 1);
    let came = packet;
    for _ in 0..2 {
        packet = came;
        let outcome = end.receive(&mut packet, 9);
        equal(&rt, &outcome, &Err(ReceiveError::NoFrames));
    }
    equal(&rt, &end.failures.count(), &0);
    Ok(())
}

/// Asserts that a packet of zeros is rejected with this error before it is opened, and not counted.
fn rejects_zeros(
    rt: &impl Abort,
    packet: &mut [u8],
    number_at: usize,
    error: ReceiveError,
) -> Result<(), Fail> {
    let mut end = End::new(receiver(1)?, 1);
    equal(rt, &end.receive(packet, number_at), &Err(error));
    equal(rt, &end.failures.count(), &0);
    Ok(())
}

// A packet that is too short for a sample, and one whose number would be at the first byte.
#[test]
fn too_short(rt: HostRuntime) -> Result<(), Fail> {
    rejects_zeros(&rt, &mut [0; 28], 9, ReceiveError::NoSample)?;
    rejects_zeros(&rt, &mut [0; 40], 0, ReceiveError::NumberAtFirstByte)
}

/// A start, the position of the number and an end of a packet in a datagram of 44 bytes, and the error.
const OTHER_PARTS: [(usize, Option<usize>, usize, ReceiveError); 7] = [
    (2, Some(11), 45, ReceiveError::PastEnd),
    (2, None, 42, ReceiveError::NoNumber),
    (2, Some(2), 42, ReceiveError::NumberAtFirstByte),
    (2, Some(1), 42, ReceiveError::NumberAtFirstByte),
    (2, Some(23), 42, ReceiveError::NoSample),
    (2, Some(11), 41, ReceiveError::Refused),
    (2, Some(11), 43, ReceiveError::Refused),
];

// A packet in a datagram, by its parts and by others.
#[test]
fn parts(rt: HostRuntime) -> Result<(), Fail> {
    let mut end = End::new(receiver(1)?, 9);
    let mut datagram = [6; 44];
    datagram[2..42].copy_from_slice(&sent(1, FIRST, 3)?);
    let before = datagram;
    for (start, number_at, to, error) in OTHER_PARTS {
        let found = end.receive_part(&mut datagram, start, number_at, to);
        equal(&rt, &found, &Err(error));
        same(&rt, &datagram, &before, "refused");
    }
    let received = end.receive_part(&mut datagram, 2, Some(11), 42)?;
    equal(&rt, &received.payload, &(13..26));
    same(&rt, &datagram[13..26], &[7; 13], "the payload");
    same(&rt, &datagram[42..], &[6; 2], "after the packet");
    Ok(())
}

// A key of the wrong length, and a key of the wrong length for the next phase.
#[test]
fn key_lengths(rt: HostRuntime) -> Result<(), Fail> {
    assert!(rt; Receiver::new(Suite::Aes256Gcm, keys(&[1; 32])).is_err());
    assert!(rt; Receiver::new(Suite::Aes128Gcm, keys(&[1; 32])).is_err());
    let outcome = receiver(1)?.set_next_with(&[1; 32], IV);
    equal(&rt, &outcome, &Err(KeyError::KeyLength));
    Ok(())
}
