//! Tests of `LongHeader` and `ShortHeader`: headers of RFC 9001 and RFC 9369 appendix A, integers of RFC 9000 appendix A.1, and
//! each error.

use crate::tests::checks::{equal, holds, same};
use quic_packets::{HeaderError, LongHeader, LongType, ShortHeader, Version};
use std::alloc::Global;
use std::ops::Range;
use std::process::Abort;
use std::test::Fail;

/// A connection ID of one byte more than versions 1 and 2 allow.
const ID: [u8; 21] = [7; 21];

/// The connection IDs of RFC 9001 and RFC 9369 appendix A.
const CLIENT_ID: [u8; 8] = [0x83, 0x94, 0xc8, 0xf0, 0x3e, 0x51, 0x57, 0x08];

const SERVER_ID: [u8; 8] = [0xf0, 0x67, 0xa5, 0x50, 0x2a, 0x42, 0x62, 0xb5];

/// An Initial packet without a token.
const INITIAL: LongType<'static> = LongType::Initial { token: &[] };

/// A header of either form.
#[derive(Clone, Copy, Drop)]
enum Header<'a> {
    Long(LongHeader<'a>),
    Short(ShortHeader<'a>),
}

/// Returns a long header of version 1.
fn long<'a>(
    packet_type: LongType<'a>,
    ids: (&'a [u8], &'a [u8]),
    number_len: usize,
    payload_len: usize,
) -> Header<'a> {
    long_of(Version::One, packet_type, ids, number_len, payload_len)
}

/// Returns a long header.
fn long_of<'a>(
    version: Version,
    packet_type: LongType<'a>,
    ids: (&'a [u8], &'a [u8]),
    number_len: usize,
    payload_len: usize,
) -> Header<'a> {
    let (destination_id, source_id) = ids;
    Header::Long(LongHeader {
        version,
        packet_type,
        destination_id,
        source_id,
        number_len,
        payload_len,
    })
}

/// Returns a short header.
fn short(destination_id: &[u8], phase: bool, number_len: usize) -> Header<'_> {
    Header::Short(ShortHeader {
        destination_id,
        phase,
        number_len,
    })
}

fn write(header: Header<'_>, buffer: &mut [u8]) -> Result<Range<usize>, HeaderError> {
    match header {
        Header::Long(header) => header.write(buffer),
        Header::Short(header) => header.write(buffer),
    }
}

/// Asserts that a header has these bytes and then room for a number of this length, and changes nothing after them.
fn writes(
    rt: &impl Abort,
    alloc: Global,
    header: Header<'_>,
    number_len: usize,
    wanted: &[u8],
) -> Result<(), Fail> {
    let at = wanted.len();
    let mut buffer = Vec::from_elem(alloc, 0xaa, at.saturating_add(5))?;
    let room = write(header, &mut buffer);
    equal(rt, &room, &Ok(at..at.saturating_add(number_len)));
    holds(rt, buffer.starts_with(wanted), "the header");
    holds(rt, buffer.ends_with(&[0xaa; 5]), "the bytes after it");
    Ok(())
}

/// Asserts that a header has these bytes, which are in hex, and then room for a number of this length.
fn reads(
    rt: &impl Abort,
    alloc: Global,
    header: Header<'_>,
    number_len: usize,
    wanted: &str,
) -> Result<(), Fail> {
    let wanted = hex::decode(alloc, wanted)?;
    writes(rt, alloc, header, number_len, &wanted)
}

// The first two are those of RFC 9001 appendices A.2 and A.3.
#[test]
fn headers(rt: HostRuntime) -> Result<(), Fail> {
    let client = long(INITIAL, (&CLIENT_ID, &[]), 4, 1162);
    reads(
        &rt,
        rt.alloc(),
        client,
        4,
        "c300000001088394c8f03e5157080000449e",
    )?;
    let server = long(INITIAL, (&[], &SERVER_ID), 2, 99);
    reads(
        &rt,
        rt.alloc(),
        server,
        2,
        "c1000000010008f067a5502a4262b5004075",
    )?;
    let first = short(&CLIENT_ID, false, 1);
    reads(&rt, rt.alloc(), first, 1, "408394c8f03e515708")?;
    reads(&rt, rt.alloc(), short(&[], true, 4), 4, "47")
}

// The first two are those of RFC 9369 appendices A.2 and A.3.
#[test]
fn rfc_9369_a_2_and_a_3(rt: HostRuntime) -> Result<(), Fail> {
    let client = long_of(Version::Two, INITIAL, (&CLIENT_ID, &[]), 4, 1162);
    reads(
        &rt,
        rt.alloc(),
        client,
        4,
        "d36b3343cf088394c8f03e5157080000449e",
    )?;
    let server = long_of(Version::Two, INITIAL, (&[], &SERVER_ID), 2, 99);
    reads(
        &rt,
        rt.alloc(),
        server,
        2,
        "d16b3343cf0008f067a5502a4262b5004075",
    )?;
    let zero_rtt = long_of(Version::Two, LongType::ZeroRtt, (&[], &[]), 1, 20);
    reads(&rt, rt.alloc(), zero_rtt, 1, "e06b3343cf00004025")?;
    let handshake = long_of(Version::Two, LongType::Handshake, (&[], &[]), 1, 20);
    reads(&rt, rt.alloc(), handshake, 1, "f06b3343cf00004025")
}

// The longest Length of two bytes, and the shortest and the longest of four.
#[test]
fn lengths(rt: HostRuntime) -> Result<(), Fail> {
    let two = long(LongType::ZeroRtt, (&[7; 20], &[]), 3, 16364);
    let wanted = "d200000001140707070707070707070707070707070707070707007fff";
    reads(&rt, rt.alloc(), two, 3, wanted)?;
    let four = long(LongType::Handshake, (&[], &[7; 20]), 1, 16367);
    let wanted = "e0000000010014070707070707070707070707070707070707070780004000";
    reads(&rt, rt.alloc(), four, 1, wanted)?;
    let longest = long(LongType::Handshake, (&[], &[]), 1, (1 << 30) - 18);
    reads(&rt, rt.alloc(), longest, 1, "e0000000010000bfffffff")
}

/// Asserts that a token of this length has these bytes before it.
fn has_token_len(rt: &impl Abort, alloc: Global, len: usize, encoded: &[u8]) -> Result<(), Fail> {
    let token = Vec::from_elem(alloc, 9, len)?;
    let front = [0xc0, 0, 0, 0, 1, 0, 0];
    let wanted = [front.as_slice(), encoded, &token, &[0x40, 0x25]].concat(alloc)?;
    let packet_type = LongType::Initial { token: &token };
    writes(rt, alloc, long(packet_type, (&[], &[]), 1, 20), 1, &wanted)
}

// 37 and 15,293 are integers of RFC 9000 appendix A.1, and the others are the limits of section 16, table 4.
#[test]
fn token_lengths(rt: HostRuntime) -> Result<(), Fail> {
    has_token_len(&rt, rt.alloc(), 37, &[0x25])?;
    has_token_len(&rt, rt.alloc(), 63, &[0x3f])?;
    has_token_len(&rt, rt.alloc(), 64, &[0x40, 0x40])?;
    has_token_len(&rt, rt.alloc(), 15_293, &[0x7b, 0xbd])?;
    has_token_len(&rt, rt.alloc(), 16_383, &[0x7f, 0xff])?;
    has_token_len(&rt, rt.alloc(), 16_384, &[0x80, 0, 0x40, 0])
}

/// Asserts that a header isn't written to a buffer of this length, which is unchanged.
fn refuses(rt: &impl Abort, header: Header<'_>, len: usize, error: HeaderError) {
    let mut buffer = [0xaa; 40];
    let found = write(header, &mut buffer[..len.min(40)]);
    equal(rt, &found, &Err(error));
    same(rt, &buffer, &[0xaa; 40], "unchanged");
}

// Each error of a long header. The buffers without room are one byte too short.
#[test]
fn refusals(rt: HostRuntime) {
    let ids = ([].as_slice(), [].as_slice());
    let most = (1 << 30) - 17;
    for (header, len, error) in [
        (long(INITIAL, ids, 0, 4), 40, HeaderError::NumberLength),
        (long(INITIAL, ids, 5, 4), 40, HeaderError::NumberLength),
        (long(INITIAL, (&ID, &[]), 1, 4), 40, HeaderError::IdTooLong),
        (long(INITIAL, (&[], &ID), 1, 4), 40, HeaderError::IdTooLong),
        (long(INITIAL, ids, 1, most), 40, HeaderError::TooLong),
        (long(INITIAL, ids, 1, usize::MAX), 40, HeaderError::TooLong),
        (long(INITIAL, ids, 1, 4), 10, HeaderError::NoRoom),
        (
            long(LongType::Handshake, ids, 4, 4),
            12,
            HeaderError::NoRoom,
        ),
    ] {
        refuses(&rt, header, len, error);
    }
}

// Each error of a short header. The buffer without room is one byte too short.
#[test]
fn refusals_of_short_headers(rt: HostRuntime) {
    for (header, len, error) in [
        (short(&[], false, 0), 40, HeaderError::NumberLength),
        (short(&[], false, 5), 40, HeaderError::NumberLength),
        (short(&ID, false, 1), 40, HeaderError::IdTooLong),
        (short(&ID[..20], false, 4), 24, HeaderError::NoRoom),
    ] {
        refuses(&rt, header, len, error);
    }
}
