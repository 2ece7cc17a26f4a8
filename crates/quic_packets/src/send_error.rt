//! The error of sealing and sending packets.

use thiserror::Error;

/// The error of sealing or sending a packet. The packet, the key, the sender and the connection are then unchanged. None of
/// these errors closes a connection.
#[derive(Clone, Copy, PartialEq, Eq, Debug, Drop, Error)]
pub enum SendError {
    /// The connection does not have the keys of the level.
    #[error("the keys of the level are not there")]
    NoKeys,
    /// The packet number is said to begin at byte 0, which is the first byte of every header.
    #[error("the packet number cannot begin at the header's first byte")]
    NumberAtFirstByte,
    /// The room for the packet number has fewer bytes than `Sender::next_number_len` returns, or more than 4 (RFC 9000 section
    /// 17.1).
    #[error("the packet number does not fit the room for it")]
    NumberLength,
    /// The packet number is too far above the largest acknowledged one for 4 bytes (RFC 9000 section 17.1).
    #[error("4 bytes cannot encode the packet number after the largest acknowledged one")]
    NumberTooFar,
    /// The packet ends before the 16-byte sample, which begins 4 bytes after the start of the packet number (RFC 9001 section
    /// 5.4.2).
    #[error("the packet is too short for a sample of header protection")]
    NoSample,
    /// The packet has fewer bytes than its header and a tag.
    #[error("the packet is shorter than its header and a tag")]
    TooShort,
    /// The payload has more than 2^36 - 32 bytes, or the header has 2^61 bytes or more (SP 800-38D section 5.2.1.1).
    #[error("the packet is longer than AES-GCM allows")]
    TooLong,
    /// The packet is of a type without protection: Version Negotiation or Retry (RFC 9000 sections 17.2.1 and 17.2.5).
    #[error("packets of this type have no protection")]
    NoProtection,
    /// The packet has a long header of another version than the sender's.
    #[error("the packet has another version")]
    OtherVersion,
    /// The fixed bit is 0 and must be 1 (RFC 9000 sections 17.2 and 17.3.1).
    #[error("the fixed bit of the packet is 0")]
    NoFixedBit,
    /// The packet to be sent has no payload, where a payload has at least one frame (RFC 9000 section 12.4). With a number of
    /// fewer than 4 bytes, `NoSample` comes first.
    #[error("the packet has no payload")]
    EmptyPayload,
    /// The packet number is not below 2^62, where packet numbers end: no packet may be sent after the last number (RFC 9000
    /// section 12.3).
    #[error("the packet number is not below 2^62")]
    NumbersEnded,
    /// The key has sealed as many packets as its limit allows (RFC 9001 section 6.6). A key update follows it. The key cannot
    /// seal the packet that closes the connection either, so a caller that cannot update closes it with `AEAD_LIMIT_REACHED`
    /// (0x0f) while `Sender::remaining` is above 0. `Connection::send` fails with it one packet earlier while no key update may
    /// be initiated, so that `Connection::send_close` can still seal that packet.
    #[error("the key has reached its limit of packets")]
    KeyUsedUp,
    /// The output does not have the length of the result.
    #[error("the output does not have the length of the result")]
    OutputLength,
}
