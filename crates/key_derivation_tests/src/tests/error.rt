//! What the errors print.

use crate::tests::checks::displays;
use key_derivation::DerivationError;

const ERRORS: [(DerivationError, &str); 7] = [
    (
        DerivationError::SecretLength,
        "the secret does not have the length of the suite's digests",
    ),
    (
        DerivationError::ConnectionIdLength,
        "the connection ID has more than 20 bytes",
    ),
    (
        DerivationError::LabelLength,
        "the label is empty or has more than 249 bytes",
    ),
    (
        DerivationError::ContextLength,
        "the context has more than 255 bytes",
    ),
    (
        DerivationError::TranscriptHashLength,
        "the hash of the messages does not have the length of a digest",
    ),
    (
        DerivationError::TooLong,
        "more bytes are asked for than the function gives",
    ),
    (
        DerivationError::NoIterations,
        "the count of iterations is 0",
    ),
];

#[test]
fn errors(rt: HostRuntime) {
    for (error, text) in &ERRORS {
        displays(&rt, error, text);
    }
}
