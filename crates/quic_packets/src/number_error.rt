//! The error of skipping packet numbers and recording acknowledgments.

ghost use Rattle.std.specs.Prelude.{◌≡◌};
ghost use Rattle.quic_packets.specs.Errors.{number_error_code};

use crate::codes::{KEY_UPDATE_ERROR, PROTOCOL_VIOLATION};
use thiserror::Error;

/// The error of skipping packet numbers or recording an acknowledgment. The sender, or the connection, is then unchanged.
#[derive(Clone, Copy, PartialEq, Eq, Debug, Drop, Error)]
pub enum NumberError {
    /// The next packet number is already above this one.
    #[error("the packet number is below the next one")]
    NumberUsed,
    /// The packet number is above 2^62, where packet numbers end (RFC 9000 section 12.3).
    #[error("the packet number is above 2^62")]
    NumbersEnded,
    /// The peer has acknowledged a packet number that was not sent (RFC 9000 section 13.1): one that is not below the next
    /// number, or that was skipped and is in a range that is kept (see `Sender::skip_to`).
    #[error("a packet that was not sent was acknowledged")]
    NeverSent,
    /// The peer has acknowledged a packet of the current keys in a packet of older keys (RFC 9001 section 6.2).
    #[error("a packet of the current keys was acknowledged under older keys")]
    UpdateUnanswered,
    /// The connection does not have the keys of the level.
    #[error("the keys of the level are not there")]
    NoKeys,
}

impl NumberError {
    /// Returns the code of the transport error that the connection must be closed with (RFC 9000 section 20.1), or `None` if it
    /// is not closed: `PROTOCOL_VIOLATION` for `NeverSent`, and `KEY_UPDATE_ERROR` for `UpdateUnanswered`.
    pub fn code(self) -> Option<u64>
        ensures { result ≡ number_error_code self }
    {
        match self {
            NumberError::NeverSent => Some(PROTOCOL_VIOLATION),
            NumberError::UpdateUnanswered => Some(KEY_UPDATE_ERROR),
            _ => None,
        }
    }
}
