//! Tests of `packet_at`: the packets of RFC 9001 and RFC 9369 appendix A, and handwritten datagrams.

use crate::tests::checks::equal;
use crate::tests::retry::A_4_RETRY;
use aead_vectors::rfc_9001::{A_2_PACKET, A_3_PACKET, A_5_PROTECTED, Packet as Vector};
use aead_vectors::rfc_9369;
use aead_vectors::words::BadLine;
use quic_packets::{DatagramError, FixedBit, Packet, PacketType, packet_at};
use std::alloc::Global;
use std::ops::Range;
use std::process::Abort;
use std::test::Fail;

/// A Version Negotiation packet with connection IDs of one and two bytes, and one version.
const NEGOTIATION: [u8; 14] = [0x80, 0, 0, 0, 0, 1, 9, 2, 8, 8, 0, 0, 0, 1];

/// A packet of a reserved version (RFC 9000 section 15) with a destination connection ID of 21 bytes.
const OTHER_VERSION: [u8; 30] = [
    0xc0, 0x0a, 0x1a, 0x2a, 0x3a, 21, 7, 7, 7, 7, 7, 7, 7, 7, 7, 7, 7, 7, 7, 7, 7, 7, 7, 7, 7, 7,
    7, 0, 1, 2,
];

/// Asserts that the datagram is one packet with a long header and these fields.
fn is_long(
    rt: &impl Abort,
    datagram: &[u8],
    packet_type: PacketType,
    version: u32,
    ids: (Range<usize>, Range<usize>),
    token: Range<usize>,
    number_at: Option<usize>,
) {
    let (destination_id, source_id) = ids;
    let packet = Packet {
        start: 0,
        packet_type,
        version: Some(version),
        destination_id,
        source_id,
        token,
        number_at,
        end: datagram.len(),
    };
    equal(
        rt,
        &packet_at(datagram, 0, 0, FixedBit::Required),
        &Ok(packet),
    );
}

/// Returns the protected packet of a test vector.
fn protected(alloc: Global, line: &'static str) -> Result<Vec<u8>, BadLine> {
    Ok(Vector::parse(alloc, line)?.protected)
}

#[test]
fn initial_headers(rt: HostRuntime) -> Result<(), Fail> {
    for (line, ids) in [(A_2_PACKET, (6..14, 15..15)), (A_3_PACKET, (6..6, 7..15))] {
        let packet = protected(rt.alloc(), line)?;
        is_long(&rt, &packet, PacketType::Initial, 1, ids, 16..16, Some(18));
    }
    Ok(())
}

#[test]
fn headers_without_a_number(rt: HostRuntime) {
    for (datagram, packet_type, version, ids, token) in [
        (
            A_4_RETRY.as_slice(),
            PacketType::Retry,
            1,
            (6..6, 7..15),
            15..20,
        ),
        (
            &NEGOTIATION,
            PacketType::VersionNegotiation,
            0,
            (6..7, 8..10),
            10..10,
        ),
        (
            &rfc_9369::A_4_RETRY,
            PacketType::Retry,
            0x6b33_43cf,
            (6..6, 7..15),
            15..20,
        ),
        (
            &OTHER_VERSION,
            PacketType::OtherVersion,
            0x0a1a_2a3a,
            (6..27, 28..28),
            28..28,
        ),
    ] {
        is_long(&rt, datagram, packet_type, version, ids, token, None);
    }
}

// The headers of RFC 9369 appendices A.2 and A.3.
#[test]
fn rfc_9369_a_2_and_a_3(rt: HostRuntime) -> Result<(), Fail> {
    for (line, ids) in [
        (rfc_9369::A_2_PACKET, (6..14, 15..15)),
        (rfc_9369::A_3_PACKET, (6..6, 7..15)),
    ] {
        let packet = protected(rt.alloc(), line)?;
        is_long(
            &rt,
            &packet,
            PacketType::Initial,
            0x6b33_43cf,
            ids,
            16..16,
            Some(18),
        );
    }
    Ok(())
}

// The types of version 2 (RFC 9369 section 3.2). The header has no connection IDs, and ends as an empty token and Length would.
#[test]
fn types_of_version_2(rt: HostRuntime) -> Result<(), Fail> {
    for (first, packet_type) in [
        (0xc0, PacketType::Retry),
        (0xd0, PacketType::Initial),
        (0xe0, PacketType::ZeroRtt),
        (0xf0, PacketType::Handshake),
    ] {
        let mut datagram = [0; 32];
        datagram[..5].copy_from_slice(&[first, 0x6b, 0x33, 0x43, 0xcf]);
        let packet = packet_at(&datagram, 0, 0, FixedBit::Required)?;
        equal(&rt, &packet.packet_type, &packet_type);
    }
    Ok(())
}

// Two packets of RFC 9001 appendix A in one datagram. The second has a short header.
#[test]
fn coalesced(rt: HostRuntime) -> Result<(), Fail> {
    let mut datagram = protected(rt.alloc(), A_3_PACKET)?;
    datagram.extend_from_slice(&A_5_PROTECTED)?;
    for (start, packet_type, number_at, end) in [
        (0, PacketType::Initial, 18, 135),
        (135, PacketType::OneRtt, 136, 156),
    ] {
        let packet = packet_at(&datagram, start, 0, FixedBit::Required)?;
        equal(&rt, &packet.packet_type, &packet_type);
        equal(&rt, &packet.number_at, &Some(number_at));
        equal(&rt, &packet.end, &end);
    }
    Ok(())
}

/// Asserts that each proper prefix of a packet is rejected with `Cut`.
fn cut_anywhere(rt: &impl Abort, packet: &[u8]) {
    for len in 0..packet.len() {
        refused(rt, &packet[..len], 0, DatagramError::Cut);
    }
}

/// Asserts that the packet at the front of a datagram is rejected with this error.
fn refused(rt: &impl Abort, datagram: &[u8], id_len: usize, error: DatagramError) {
    let found = packet_at(datagram, 0, id_len, FixedBit::Required);
    equal(rt, &found, &Err(error));
}

// A packet, and a truncated one after it.
fn cut_second(rt: &impl Abort, mut datagram: Vec<u8>) -> Result<(), Fail> {
    datagram.push(0xc0)?;
    let end = packet_at(&datagram, 0, 0, FixedBit::Required)?.end;
    let found = packet_at(&datagram, end, 0, FixedBit::Required);
    equal(rt, &found, &Err(DatagramError::Cut));
    Ok(())
}

// Truncated packets, connection IDs of 21 bytes in versions 1 and 2, and a fixed bit of 0 in version 2.
#[test]
fn refusals(rt: HostRuntime) -> Result<(), Fail> {
    let datagram = protected(rt.alloc(), A_3_PACKET)?;
    cut_anywhere(&rt, &datagram);
    for (datagram, id_len, error) in [
        (A_5_PROTECTED.as_slice(), 21, DatagramError::Cut),
        (&[0xc0, 0, 0, 0, 1, 21], 0, DatagramError::IdTooLong),
        (&[0xc0, 0, 0, 0, 1, 1, 9, 21], 0, DatagramError::IdTooLong),
        (
            &[0xd0, 0x6b, 0x33, 0x43, 0xcf, 21],
            0,
            DatagramError::IdTooLong,
        ),
        (
            &[0xb0, 0x6b, 0x33, 0x43, 0xcf, 0, 0, 0],
            0,
            DatagramError::NoFixedBit { end: 8 },
        ),
    ] {
        refused(&rt, datagram, id_len, error);
    }
    cut_second(&rt, datagram)
}

/// Asserts that the packet at the front of a datagram, with a fixed bit of 0 in this first byte, is rejected unless greased, and
/// that it ends here.
fn lacks_fixed_bit(
    rt: &impl Abort,
    datagram: &mut [u8],
    first: u8,
    end: usize,
) -> Result<(), DatagramError> {
    if let Some(byte) = datagram.first_mut() {
        *byte = first;
    }
    refused(rt, datagram, 0, DatagramError::NoFixedBit { end });
    equal(rt, &packet_at(datagram, 0, 0, FixedBit::Greased)?.end, &end);
    Ok(())
}

// A fixed bit of 0, in a packet without a version, in one with a Length field, which ends before the next packet, and in a Retry
// packet.
#[test]
fn greased(rt: HostRuntime) -> Result<(), Fail> {
    let mut datagram = protected(rt.alloc(), A_3_PACKET)?;
    datagram.extend_from_slice(&A_5_PROTECTED)?;
    for (first, end) in [(0x0f, 156), (0x8f, 135), (0xbf, 156)] {
        lacks_fixed_bit(&rt, &mut datagram, first, end)?;
    }
    Ok(())
}

/// Asserts that a Handshake packet ends 37 bytes after this Length field, which encodes 37.
fn has_length(rt: &impl Abort, alloc: Global, length: &[u8]) -> Result<(), Fail> {
    let mut datagram = [[0xe0, 0, 0, 0, 1, 0, 0].as_slice(), length, &[0; 37]].concat(alloc)?;
    let packet = packet_at(&datagram, 0, 0, FixedBit::Required)?;
    equal(rt, &packet.end, &datagram.len());
    datagram.push(0)?;
    equal(
        rt,
        &packet_at(&datagram, 0, 0, FixedBit::Required)?.end,
        &packet.end,
    );
    Ok(())
}

// The number 37 in each encoding of RFC 9000 section 16. The first two are in appendix A.1.
#[test]
fn variable_lengths(rt: HostRuntime) -> Result<(), Fail> {
    has_length(&rt, rt.alloc(), &[0x25])?;
    has_length(&rt, rt.alloc(), &[0x40, 0x25])?;
    has_length(&rt, rt.alloc(), &[0x80, 0, 0, 0x25])?;
    has_length(&rt, rt.alloc(), &[0xc0, 0, 0, 0, 0, 0, 0, 0x25])
}
