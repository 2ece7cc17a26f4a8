//! Tests of `PacketKey` and `HeaderKey`: the packets of RFC 9001 appendix A, sealed and opened by each call, and packets with
//! AES-256 keys, for which the RFC has none.

ghost use Rattle.std.specs.Prelude.{◌≡◌, ◌-◌, length, take, OnOk};
ghost use Rattle.quic_packets.specs.Packet.{HasNumber};

use crate::tests::checks::{equal, holds, same};
use aead_ciphers::aead::{AES_128_GCM, AES_256_GCM, Tag, quic};
use aead_vectors::rfc_9001::{A_5_KEY, A_5_PROTECTED, A_5_SEALED, PACKETS, Packet};
use quic_packets::{HeaderKey, KeyError, MaskError, PacketKey, ReceiveError, SendError, laws};
use std::alloc::AllocError;
use std::ops::Range;
use std::process::Abort;
use std::test::Fail;

/// Returns the packets of RFC 9001 appendix A.
pub(crate) fn packets() -> [&'static str; 2] {
    PACKETS
}

/// Returns the header and the payload.
pub(crate) fn plain(row: &Packet) -> Result<Vec<u8>, AllocError> {
    let mut packet = row.header.clone()?;
    packet.extend_from_slice(&row.frames)?;
    for _ in row.frames.len()..row.payload_len {
        packet.push(0)?;
    }
    Ok(packet)
}

/// Returns the header, the payload and room for the tag.
pub(crate) fn unsent(row: &Packet) -> Result<Vec<u8>, AllocError> {
    let mut packet = plain(row)?;
    packet.extend_from_slice(&[0; 16])?;
    Ok(packet)
}

/// Creates the key of a row.
fn key_of(row: &Packet) -> Result<PacketKey, KeyError> {
    PacketKey::new(&AES_128_GCM, &row.key, row.iv)
}

/// Returns the packet of a row before its header is protected.
fn unprotected(row: &Packet) -> Result<Vec<u8>, Fail> {
    let mut packet = row.protected.clone()?;
    HeaderKey::new(&quic::AES_128, &row.header_key)?.unprotect(&mut packet, row.number_at)?;
    Ok(packet)
}

// Header, payload and tag in one slice.
fn in_one_slice(
    rt: &impl Abort,
    row: &Packet,
    key: &PacketKey,
    packet: &mut [u8],
    sealed: &[u8],
) -> Result<(), Fail> {
    key.seal(row.number, packet, row.header.len())?;
    same(rt, packet, sealed, row.name);
    let len = key.open(row.number, packet, row.header.len())?;
    equal(rt, &len, &row.payload_len);
    holds(rt, packet.starts_with(&plain(row)?), row.name);
    Ok(())
}

// Header, payload and tag apart.
fn apart(
    rt: &impl Abort,
    row: &Packet,
    key: &PacketKey,
    payload: &mut [u8],
    sealed: &[u8],
) -> Result<(), Fail> {
    let (ciphertext, tag) = sealed.split_last_chunk::<16>().ok_or("a tag")?;
    let made = key.seal_separate_tag(row.number, &row.header, payload)?;
    same(rt, payload, ciphertext, row.name);
    same(rt, made.as_ref(), tag, row.name);
    key.open_separate_tag(row.number, &row.header, payload, Tag::from(*tag))?;
    Ok(())
}

// The header apart, and the tag at the payload's end.
fn tag_at_the_end(
    rt: &impl Abort,
    row: &Packet,
    key: &PacketKey,
    payload: &mut [u8],
    plain: &[u8],
) -> Result<(), Fail> {
    let len = key.open_payload(row.number, &row.header, payload)?;
    same(rt, &payload[..len.min(payload.len())], plain, row.name);
    Ok(())
}

// From one buffer to another.
fn to_another(
    rt: &impl Abort,
    row: &Packet,
    key: &PacketKey,
    (plain, sealed): (&[u8], &[u8]),
    out: &mut [u8],
) -> Result<(), Fail> {
    key.seal_to(row.number, &row.header, plain, out)?;
    same(rt, out, sealed, row.name);
    let len = plain.len().min(out.len());
    key.open_to(row.number, &row.header, sealed, &mut out[..len])?;
    same(rt, &out[..len], plain, row.name);
    Ok(())
}

/// Returns what comes after the header.
fn payload<'a>(row: &Packet, packet: &'a [u8]) -> &'a [u8] {
    &packet[row.header.len().min(packet.len())..]
}

/// Asserts the same of the calls that take the header apart.
fn with_the_header_apart(
    rt: &impl Abort,
    row: &Packet,
    key: &PacketKey,
    plain: &[u8],
    sealed: &[u8],
) -> Result<(), Fail> {
    let alloc = row.header.allocator();
    let mut buffer = Vec::from_slice(alloc, plain)?;
    apart(rt, row, key, &mut buffer, sealed)?;
    same(rt, &buffer, plain, row.name);
    tag_at_the_end(rt, row, key, &mut Vec::from_slice(alloc, sealed)?, plain)?;
    let mut out = Vec::from_elem(alloc, 0, sealed.len())?;
    to_another(rt, row, key, (plain, sealed), &mut out)
}

/// Asserts that each call seals and opens a row's packet.
fn by_each_call(rt: &impl Abort, row: &Packet, key: &PacketKey) -> Result<(), Fail> {
    let sealed = unprotected(row)?;
    in_one_slice(rt, row, key, &mut unsent(row)?, &sealed)?;
    let plain = plain(row)?;
    with_the_header_apart(rt, row, key, payload(row, &plain), payload(row, &sealed))
}

#[test]
fn packets_of_appendix_a(rt: HostRuntime) -> Result<(), Fail> {
    for line in packets() {
        let row = Packet::parse(rt.alloc(), line)?;
        by_each_call(&rt, &row, &key_of(&row)?)?;
    }
    Ok(())
}

/// Returns why each call opens no 4 bytes under this number.
fn errors(key: &PacketKey, number: u64, bytes: &mut [u8]) -> [Option<ReceiveError>; 4] {
    let tag = Tag::from([7; 16]);
    [
        key.open(number, bytes, 4).err(),
        key.open_payload(number, &[7; 4], bytes).err(),
        key.open_separate_tag(number, &[7; 4], bytes, tag).err(),
        key.open_to(number, &[7; 4], &[7; 40], bytes).err(),
    ]
}

/// Asserts that each call that opens 4 bytes under this number fails with this error.
fn refuses(rt: &impl Abort, number: u64, error: ReceiveError) -> Result<(), Fail> {
    let key = PacketKey::new(&AES_128_GCM, &[1; 16], [2; 12])?;
    let mut bytes = [7; 24];
    for found in errors(&key, number, &mut bytes) {
        equal(rt, &found, &Some(error));
    }
    same(rt, &bytes, &[7; 24], "the bytes");
    Ok(())
}

// A forged packet, and a number of 2^62.
#[test]
fn refusals(rt: HostRuntime) -> Result<(), Fail> {
    refuses(&rt, (1 << 62) - 1, ReceiveError::Refused)?;
    refuses(&rt, 1 << 62, ReceiveError::NumbersEnded)
}

/// Returns why each call seals no 4 bytes under this number.
fn errors_of_sealing(key: &PacketKey, number: u64, bytes: &mut [u8]) -> [Option<SendError>; 3] {
    [
        key.seal(number, bytes, 4).err(),
        key.seal_to(number, &[7; 4], &[7; 8], bytes).err(),
        key.seal_separate_tag(number, &[7; 4], bytes).err(),
    ]
}

// The last number seals, and 2^62 is refused.
#[test]
fn numbers_end(rt: HostRuntime) -> Result<(), Fail> {
    let key = PacketKey::new(&AES_128_GCM, &[1; 16], [2; 12])?;
    key.seal((1 << 62) - 1, &mut [7; 24], 4)?;
    let mut bytes = [7; 24];
    for found in errors_of_sealing(&key, 1 << 62, &mut bytes) {
        equal(&rt, &found, &Some(SendError::NumbersEnded));
    }
    same(&rt, &bytes, &[7; 24], "the bytes");
    Ok(())
}

/// Seals and protects a packet, then unprotects and opens it. The header and the payload are then as before.
fn there_and_back(
    key: &PacketKey,
    header_key: &HeaderKey,
    packet: &mut [u8],
    number: u64,
    place: Range<usize>,
) -> Result<usize, Fail>
    ensures { HasNumber place.start place.end packet.old → OnOk result (take (length packet.old - 16) packet.new
        ≡ take (length packet.old - 16) packet.old) }
{
    let number_at = place.start;
    laws::packet_comes_back(key, key, header_key, number, packet, number_at, place.end);
    key.seal(number, packet, place.end)?;
    header_key.protect(packet, number_at)?;
    let number_len = header_key.unprotect(packet, number_at)?;
    Ok(key.open(number, packet, number_at + number_len)?)
}

/// Asserts that a packet with this first byte and header length makes the round trip with AES-256-GCM.
fn comes_back(rt: &impl Abort, first: u8, header_len: usize) -> Result<(), Fail> {
    let key = PacketKey::new(&AES_256_GCM, &[1; 32], [2; 12])?;
    let header_key = HeaderKey::new(&quic::AES_256, &[3; 32])?;
    let mut packet = [7; 40];
    packet[0] = first;
    let payload_len = there_and_back(&key, &header_key, &mut packet, 0x0707_0707, 9..header_len)?;
    equal(rt, &payload_len.checked_add(header_len), &Some(24));
    equal(rt, &packet[0], &first);
    same(rt, &packet[1..24], &[7; 23], "came back");
    Ok(())
}

// Packet numbers of each length, with AES-256 keys, for which RFC 9001 has no packets.
#[test]
fn each_number_length(rt: HostRuntime) -> Result<(), Fail> {
    for (first, header_len) in [(0x40, 10), (0x41, 11), (0x42, 12), (0x43, 13)] {
        comes_back(&rt, first, header_len)?;
    }
    Ok(())
}

// The packet is just long enough for a sample.
#[test]
fn chacha20_header(rt: HostRuntime) -> Result<(), Fail> {
    let key = HeaderKey::new(&quic::CHACHA20, &A_5_KEY)?;
    let mut packet = A_5_SEALED;
    key.protect(&mut packet, 1)?;
    same(&rt, &packet, &A_5_PROTECTED, "protected");
    equal(&rt, &key.unprotect(&mut packet, 1), &Ok(3));
    same(&rt, &packet, &A_5_SEALED, "unprotected");
    Ok(())
}

/// Returns the sample of a row's packet.
fn sample(row: &Packet) -> &[u8] {
    let from = row.number_at.saturating_add(4);
    row.protected
        .get(from..from.saturating_add(16))
        .unwrap_or(&[])
}

/// Masks or unmasks the parts of a header by the sample of its packet.
fn mask_parts(
    key: &HeaderKey,
    row: &Packet,
    header: &mut [u8],
    is_masked: bool,
) -> Result<(), MaskError> {
    let (front, number) = header.split_at_mut(row.number_at.min(header.len()));
    let [first, ..] = front else {
        return Err(MaskError::NumberAtFirstByte);
    };
    if is_masked {
        key.decrypt_in_place(sample(row), first, number)
    } else {
        key.encrypt_in_place(sample(row), first, number)
    }
}

/// Asserts that the parts of a header are masked as those of the protected packet are, and unmasked again.
fn masks_parts(rt: &impl Abort, row: &Packet, header: &mut [u8]) -> Result<(), Fail> {
    let key = HeaderKey::new(&quic::AES_128, &row.header_key)?;
    mask_parts(&key, row, header, false)?;
    holds(rt, row.protected.starts_with(header), row.name);
    mask_parts(&key, row, header, true)?;
    same(rt, header, &row.header, row.name);
    Ok(())
}

// The headers of RFC 9001 appendix A, by their parts.
#[test]
fn parts_of_headers(rt: HostRuntime) -> Result<(), Fail> {
    for line in packets() {
        let row = Packet::parse(rt.alloc(), line)?;
        masks_parts(&rt, &row, &mut row.header.clone()?)?;
    }
    Ok(())
}

/// Asserts that both calls on the parts of a header fail with this error, and leave the parts. The number is of nines.
fn refuses_parts(
    rt: &impl Abort,
    sample: &[u8],
    number: &mut [u8],
    error: MaskError,
) -> Result<(), Fail> {
    let key = HeaderKey::new(&quic::AES_128, &[3; 16])?;
    let mut first = 0xc3;
    let found = key.encrypt_in_place(sample, &mut first, number);
    equal(rt, &found, &Err(error));
    let found = key.decrypt_in_place(sample, &mut first, number);
    equal(rt, &found, &Err(error));
    equal(rt, &first, &0xc3);
    same(rt, number, &[9; 5][..number.len().min(5)], "the number");
    Ok(())
}

// Samples of 15 and of 17 bytes, and a packet number of 5.
#[test]
fn refused_parts(rt: HostRuntime) -> Result<(), Fail> {
    refuses_parts(&rt, &[7; 15], &mut [9; 4], MaskError::NoSample)?;
    refuses_parts(&rt, &[7; 17], &mut [9; 5], MaskError::NoSample)?;
    refuses_parts(&rt, &[7; 16], &mut [9; 5], MaskError::NumberLength)
}
