//! The error of opening and receiving packets.

ghost use Rattle.std.specs.Prelude.{◌≡◌};
ghost use Rattle.quic_packets.specs.Errors.{receive_error_code};

use crate::codes::{AEAD_LIMIT_REACHED, KEY_UPDATE_ERROR, PROTOCOL_VIOLATION};
use thiserror::Error;

/// The error of opening or receiving a packet.
///
/// A call that fails leaves the packet and the key unchanged, except with `ReservedBits`, `Duplicate`, `KeyUpdate` and
/// `NoFrames`: these come after the packet was opened.
#[derive(Clone, Copy, PartialEq, Eq, Debug, Drop, Error)]
pub enum ReceiveError {
    /// The packet ends past the end of the datagram.
    #[error("the datagram ends before the packet")]
    PastEnd,
    /// The packet has no packet number, because of its type or its version.
    #[error("the packet has no packet number")]
    NoNumber,
    /// The packet number is said to begin at byte 0, which is the first byte of every header.
    #[error("the packet number cannot begin at the header's first byte")]
    NumberAtFirstByte,
    /// The packet ends before the 16-byte sample, which begins 4 bytes after the start of the packet number (RFC 9001 section
    /// 5.4.2).
    #[error("the packet is too short for a sample of header protection")]
    NoSample,
    /// The packet has fewer bytes than its header and a tag.
    #[error("the packet is shorter than its header and a tag")]
    TooShort,
    /// The payload has more than 2^36 - 32 bytes, or the header has 2^61 bytes or more (SP 800-38D section 5.2.1.1).
    #[error("the packet is longer than AES-GCM allows")]
    TooLong,
    /// The packet has a long header of another version than the receiver's.
    #[error("the packet has another version")]
    OtherVersion,
    /// The packet number is not below 2^62, where packet numbers end (RFC 9000 section 12.3).
    #[error("the packet number is not below 2^62")]
    NumbersEnded,
    /// The output does not have the length of the result.
    #[error("the output does not have the length of the result")]
    OutputLength,
    /// The tag does not match the header, the payload and the number under this key.
    #[error("the packet is not authentic")]
    Refused,
    /// The limit on packets that fail authentication is reached (RFC 9001 section 6.6).
    #[error("too many packets have failed authentication")]
    TooManyFailures,
    /// The packet is authentic, but its reserved bits are set (RFC 9000 sections 17.2 and 17.3.1).
    #[error("the packet's reserved bits are set")]
    ReservedBits,
    /// The packet is authentic, but its number was already received, or is too low for the window to tell (RFC 9000 section
    /// 12.3).
    #[error("the packet number was already received, or is below the window")]
    Duplicate,
    /// The packet is authentic, but its key phase is out of turn (RFC 9001 section 6.4).
    #[error("the packet's key phase is out of order")]
    KeyUpdate,
    /// The packet is authentic, but its payload is empty, so it has no frames (RFC 9000 section 12.4).
    #[error("the packet has no frames")]
    NoFrames,
}

impl ReceiveError {
    /// Returns the code of the transport error that the connection must be closed with (RFC 9000 section 20.1), or `None` if the
    /// packet is only dropped: `PROTOCOL_VIOLATION` for `ReservedBits` and `NoFrames`, `KEY_UPDATE_ERROR` for `KeyUpdate`, and
    /// `AEAD_LIMIT_REACHED` for `TooManyFailures`.
    pub fn code(self) -> Option<u64>
        ensures { result ≡ receive_error_code self }
    {
        match self {
            ReceiveError::ReservedBits | ReceiveError::NoFrames => Some(PROTOCOL_VIOLATION),
            ReceiveError::KeyUpdate => Some(KEY_UPDATE_ERROR),
            ReceiveError::TooManyFailures => Some(AEAD_LIMIT_REACHED),
            _ => None,
        }
    }
}
