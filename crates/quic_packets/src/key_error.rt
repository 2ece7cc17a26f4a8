//! The error of creating keys and changing them.

use thiserror::Error;

/// The error of creating a key, a sender or a receiver, or of changing the keys of a sender, a receiver or a connection, which
/// is then unchanged. None of these errors closes a connection.
#[derive(Clone, Copy, PartialEq, Eq, Debug, Drop, Error)]
pub enum KeyError {
    /// The key is not as long as the algorithm's keys.
    #[error("the key does not have the length of the algorithm's keys")]
    KeyLength,
    /// The keys derive from a secret, so keys of the caller's are refused.
    #[error("the keys derive from a secret")]
    KeysDerived,
    /// There is no secret from which keys could derive: the sender or the receiver was created with the caller's keys.
    #[error("there is no secret from which keys derive")]
    NoSecret,
    /// The first packet number of a sender is above 2^62, where packet numbers end (RFC 9000 section 12.3).
    #[error("the packet number is above 2^62")]
    NumbersEnded,
    /// The handshake is not confirmed, so the keys cannot be updated yet (RFC 9001 section 6.1).
    #[error("the handshake is not confirmed")]
    HandshakeUnconfirmed,
    /// No packet of this key phase is acknowledged, so the keys cannot be updated again yet (RFC 9001 section 6.1).
    #[error("no packet of this key phase was acknowledged")]
    PhaseUnacknowledged,
    /// The connection has discarded the keys of the level or of 0-RTT packets, or was told that it will have none, so no keys
    /// can be installed (RFC 9001 section 4.9).
    #[error("the keys were dropped, so no others can be installed")]
    Discarded,
}
