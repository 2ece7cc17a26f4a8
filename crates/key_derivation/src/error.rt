//! The error of deriving keys.

use thiserror::Error;

/// The error of deriving a key. A call that fails writes nothing.
#[derive(Clone, Copy, PartialEq, Eq, Debug, Drop, Error)]
pub enum DerivationError {
    /// The secret is not as long as a digest of its suite's hash function.
    #[error("the secret does not have the length of the suite's digests")]
    SecretLength,
    /// The connection ID has more than 20 bytes (RFC 9000 section 17.2).
    #[error("the connection ID has more than 20 bytes")]
    ConnectionIdLength,
    /// The label is empty or has more than 249 bytes, besides its prefix `tls13 ` (RFC 8446 section 7.1).
    #[error("the label is empty or has more than 249 bytes")]
    LabelLength,
    /// The context has more than 255 bytes (RFC 8446 section 7.1).
    #[error("the context has more than 255 bytes")]
    ContextLength,
    /// The hash of the messages is not as long as the hash function's digests (RFC 8446 section 4.4.1).
    #[error("the hash of the messages does not have the length of a digest")]
    TranscriptHashLength,
    /// The output is longer than the function can make it: 255 digests by HKDF (RFC 5869 section 2.3), 2^32 - 1 digests by
    /// PBKDF2 (RFC 8018 section 5.2).
    #[error("more bytes are asked for than the function gives")]
    TooLong,
    /// The count of iterations is 0 (RFC 8018 section 5.2).
    #[error("the count of iterations is 0")]
    NoIterations,
}
