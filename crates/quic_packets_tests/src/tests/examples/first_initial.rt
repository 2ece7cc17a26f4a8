//! A client's first packet, from a connection ID to the bytes of its datagram.

ghost use Rattle.std.specs.Prelude.{◌↔◌, ◌+◌, ◌^◌, ◌<◌, ◌≤◌, length, IsOk, IfOk};
ghost use Rattle.quic_packets_tests.specs.FirstInitial.{initial_packet, initial_sender};
ghost use Rattle.quic_packets.specs.Sending.{IsSent};

use key_derivation::DerivationError;
use quic_packets::{
    FixedBit, HeaderError, KeyError, LongHeader, LongType, QuicSecret, SendError, Sender, Version,
};
use thiserror::Error;

/// The length of the datagram, which has to be 1200 or more (RFC 9000 section 14.1).
pub const DATAGRAM_LEN: usize = 1200;

/// The length of the payload, which comes after a header of 22 bytes and before a tag of 16.
const PAYLOAD_LEN: usize = DATAGRAM_LEN - 22 - 16;

/// The error of a step.
#[derive(Clone, Copy, PartialEq, Eq, Debug, Drop, Error)]
pub enum FirstPacketError {
    /// No keys are derived.
    #[error("{0}")]
    Keys(#[from] DerivationError),
    /// No sender is created.
    #[error("{0}")]
    Sender(#[from] KeyError),
    /// No header is written.
    #[error("{0}")]
    Header(#[from] HeaderError),
    /// The packet isn't sent.
    #[error("{0}")]
    Packet(#[from] SendError),
}

/// Returns a datagram with a client's Initial packet of version 1. `id` is the destination connection ID that the client has
/// chosen, and `frames` are the frames without padding.
///
/// Fails if four bytes cannot encode the number, since no number is acknowledged yet (RFC 9000 appendix A.2).
pub fn first_packet(
    id: &[u8; 8],
    number: u64,
    frames: &[u8],
) -> Result<[u8; DATAGRAM_LEN], FirstPacketError>
    requires { length frames.now ≤ 1162 }
    ensures accepted { IsOk result ↔ (number + 1 < 2 ^ 31) }
    ensures sent { IfOk result (λ packet. IsSent (initial_sender id.now number) 18 22
        (initial_packet id.now frames.now) packet) }
{
    let secret = QuicSecret::client_initial(Version::One, id)?;
    let mut sender = Sender::from_secret(secret, number)?;
    let header = LongHeader {
        version: Version::One,
        packet_type: LongType::Initial { token: &[] },
        destination_id: id,
        source_id: &[],
        number_len: 4,
        payload_len: PAYLOAD_LEN,
    };
    let mut packet = [0; DATAGRAM_LEN];
    let room = header.write(&mut packet)?;
    packet[room.end..room.end + frames.len()].copy_from_slice(frames);
    sender.send(&mut packet, room, FixedBit::Required)?;
    Ok(packet)
}
