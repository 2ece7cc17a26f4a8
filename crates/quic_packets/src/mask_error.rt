//! The error of masking and unmasking headers.

use thiserror::Error;

/// The error of masking or unmasking a header, which is then unchanged.
#[derive(Clone, Copy, PartialEq, Eq, Debug, Drop, Error)]
pub enum MaskError {
    /// The packet number is said to begin at byte 0, which is the first byte of every header.
    #[error("the packet number cannot begin at the header's first byte")]
    NumberAtFirstByte,
    /// The packet ends before the 16-byte sample, which begins 4 bytes after the start of the packet number, or a sample does not
    /// have 16 bytes (RFC 9001 section 5.4.2).
    #[error("the packet is too short for a sample of header protection")]
    NoSample,
    /// The packet number has more than 4 bytes (RFC 9000 section 17.1).
    #[error("the packet number has more than 4 bytes")]
    NumberLength,
}
