//! Tests of the callers in `examples`: the keys of a client's first packet, and that packet.

use crate::tests::checks::same;
use crate::tests::examples::first_initial::first_packet;
use crate::tests::examples::initial_keys::client_initial_keys;
use aead_vectors::rfc_9001::{A_2_PACKET, Packet};
use key_derivation::DerivationError;
use key_derivation::quic::Version;
use std::process::Abort;
use std::test::Fail;

/// The connection ID of RFC 9001 appendix A.
const CLIENT_ID: [u8; 8] = [0x83, 0x94, 0xc8, 0xf0, 0x3e, 0x51, 0x57, 0x08];

/// Asserts that the client's keys are those of a row.
fn has_keys(rt: &impl Abort, id: &[u8], row: &Packet) -> Result<(), DerivationError> {
    let keys = client_initial_keys(Version::One, id)?;
    same(rt, keys.key.as_slice(), &row.key, "key");
    same(rt, &keys.iv, &row.iv, "iv");
    same(rt, keys.header_key.as_slice(), &row.header_key, "hp");
    Ok(())
}

// The keys of RFC 9001 appendix A.1, and the packet of A.2.
#[test]
fn first_initial(rt: HostRuntime) -> Result<(), Fail> {
    let row = Packet::parse(rt.alloc(), A_2_PACKET)?;
    has_keys(&rt, &CLIENT_ID, &row)?;
    assert!(rt; row.frames.len() <= 1162);
    let packet = first_packet(&CLIENT_ID, row.number, &row.frames)?;
    same(&rt, &packet, &row.protected, row.name);
    Ok(())
}
