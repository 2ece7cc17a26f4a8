//! The example of `Sender` and `Receiver`: one end of a connection sends a packet, and the other end receives it.

use crate::tests::checks::same;
use key_derivation::Secret;
use quic_packets::{
    Failures, FixedBit, QuicSecret, Receiver, SendError, Sender, Space, Version, packet_at,
};
use std::alloc::Global;
use std::test::Fail;

/// The secret of one direction, which both ends have from TLS (RFC 9001 section 5.1).
const SECRET: [u8; 32] = [1; 32];

/// The connection ID chosen by the receiver.
const CONNECTION_ID: [u8; 8] = [4; 8];

/// Sends a payload in a packet with a short header, and returns the packet.
fn send(alloc: Global, sender: &mut Sender, payload: &[u8]) -> Result<Vec<u8>, Fail> {
    let least = sender.next_number_len().ok_or(SendError::NumberTooFar)?;
    let number_len = least.max(2);
    let mut packet = Vec::from_slice(alloc, &[0x40])?;
    packet.extend_from_slice(&CONNECTION_ID)?;
    packet.extend_from_slice(&[0; 4][..number_len])?;
    packet.extend_from_slice(payload)?;
    packet.extend_from_slice(&[0; 16])?;
    sender.send(&mut packet, 9..9 + number_len, FixedBit::Required)?;
    Ok(packet)
}

#[test]
fn one_packet(rt: HostRuntime) -> Result<(), Fail> {
    let secret = QuicSecret::new(Version::One, Secret::aes_128_gcm(SECRET));
    let mut sender = Sender::from_secret(secret, 0)?;
    let mut datagram = send(rt.alloc(), &mut sender, b"hello")?;

    let secret = QuicSecret::new(Version::One, Secret::aes_128_gcm(SECRET));
    let mut receiver = Receiver::from_secret(secret);
    let mut space = Space::<2>::new();
    let mut failures = Failures::new();
    let parts = packet_at(&datagram, 0, CONNECTION_ID.len(), FixedBit::Required)?;
    let received = receiver.receive(&mut space, &mut failures, &mut datagram, &parts)?;
    let payload = &datagram[received.payload];
    same(&rt, payload, b"hello", "the payload");
    Ok(())
}
