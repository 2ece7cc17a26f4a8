//! Tests of `retry_tag` and `is_genuine_retry`: the packets of RFC 9001 and RFC 9369 appendix A.4, and modified packets.

use crate::tests::checks::equal;
use aead_vectors::rfc_9369;
use quic_packets::{RetryError, Version, is_genuine_retry, retry_tag};
use std::process::Abort;
use std::test::Fail;

/// RFC 9001 appendix A.4: the destination connection ID of the client's first packet.
const A_4_ID: [u8; 8] = [0x83, 0x94, 0xc8, 0xf0, 0x3e, 0x51, 0x57, 0x08];

/// RFC 9001 appendix A.4: the Retry packet.
pub(crate) const A_4_RETRY: [u8; 36] = [
    0xff, 0x00, 0x00, 0x00, 0x01, 0x00, 0x08, 0xf0, 0x67, 0xa5, 0x50, 0x2a, 0x42, 0x62, 0xb5, 0x74,
    0x6f, 0x6b, 0x65, 0x6e, 0x04, 0xa2, 0x65, 0xba, 0x2e, 0xff, 0x4d, 0x82, 0x90, 0x58, 0xfb, 0x3f,
    0x0f, 0x24, 0x96, 0xba,
];

/// Returns whether a packet of version 1 that is cut at a byte is genuine.
fn is_genuine(original_id: &[u8], packet: &[u8], cut: usize) -> bool {
    is_genuine_in(Version::One, original_id, packet, cut)
}

/// Returns whether a packet that is cut at a byte is genuine.
fn is_genuine_in(version: Version, original_id: &[u8], packet: &[u8], cut: usize) -> bool {
    let (header, payload) = packet.split_at(cut.min(packet.len()));
    is_genuine_retry(version, original_id, header, payload)
}

/// Asserts that the tag of a packet that is cut at each of these bytes is `tag`.
fn has_tag(
    rt: &impl Abort,
    version: Version,
    packet: &[u8],
    cuts: &[usize],
    tag: &[u8],
) -> Result<(), RetryError> {
    for cut in cuts {
        let (header, token) = packet.split_at(packet.len().min(*cut));
        equal(
            rt,
            &retry_tag(version, &A_4_ID, header, token)?.as_ref(),
            &tag,
        );
    }
    Ok(())
}

/// RFC 9001 appendix A.4, cut before and after each part of its header, and in its token.
#[test]
fn rfc_9001_a_4(rt: HostRuntime) -> Result<(), Fail> {
    let (retry, tag) = A_4_RETRY.split_at(20);
    has_tag(&rt, Version::One, retry, &[0, 1, 5, 6, 7, 15, 17, 20], tag)?;
    for cut in [0, 1, 15, 20] {
        equal(&rt, &is_genuine(&A_4_ID, &A_4_RETRY, cut), &true);
    }
    Ok(())
}

/// RFC 9369 appendix A.4, which isn't genuine in version 1.
#[test]
fn rfc_9369_a_4(rt: HostRuntime) -> Result<(), Fail> {
    let packet = rfc_9369::A_4_RETRY;
    let (retry, tag) = packet.split_at(20);
    has_tag(&rt, Version::Two, retry, &[0, 15, 20], tag)?;
    for (version, genuine) in [(Version::One, false), (Version::Two, true)] {
        equal(&rt, &is_genuine_in(version, &A_4_ID, &packet, 15), &genuine);
    }
    Ok(())
}

/// The tag by python's `cryptography` of a packet with the header of A.4 and a token of 5,000 bytes, each 0x5a.
const OF_A_LONG_TOKEN: [u8; 16] = [
    0x56, 0xdb, 0x1f, 0xa7, 0xfd, 0xbd, 0xb1, 0x39, 0x41, 0x04, 0xf1, 0x99, 0xe6, 0xee, 0x99, 0x8b,
];

#[test]
fn long_token(rt: HostRuntime) -> Result<(), Fail> {
    let mut packet = [0x5a; 5015];
    packet[..15].copy_from_slice(&A_4_RETRY[..15]);
    has_tag(
        &rt,
        Version::One,
        &packet,
        &[0, 15, 16, 127, 128, 5015],
        &OF_A_LONG_TOKEN,
    )?;
    Ok(())
}

#[test]
fn modified_packets(rt: HostRuntime) {
    let mut packet = A_4_RETRY;
    equal(&rt, &is_genuine(&A_4_ID[1..], &packet, 15), &false);
    equal(&rt, &is_genuine(&[0; 21], &packet, 15), &false);
    equal(&rt, &is_genuine(&A_4_ID, &packet, 21), &false);
    equal(&rt, &is_genuine(&A_4_ID, &packet[..15], 0), &false);
    packet[16] ^= 1;
    equal(&rt, &is_genuine(&A_4_ID, &packet, 15), &false);
}
