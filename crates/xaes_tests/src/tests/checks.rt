//! Assertions and data for tests. The assertions have no contract clauses, so a caller's proof learns nothing about the bytes and
//! stays short.

use std::fmt::Debug;
use std::process::Abort;
use test_support::hex::Hex;

/// The nonce of the vectors of the specification.
pub(crate) const NONCE: [u8; 24] = *b"ABCDEFGHIJKLMNOPQRSTUVWX";

/// The plaintext of the vectors of the specification.
pub(crate) const PLAINTEXT: [u8; 12] = *b"XAES-256-GCM";

/// The vectors of the specification: the byte of the key, the AAD, and the ciphertext and tag. The encrypted zero block begins
/// with a bit of 0 under the first key, and with one of 1 under the second.
pub(crate) const VECTORS: [(u8, &[u8], [u8; 28]); 2] = [
    (
        1,
        b"",
        *b"\xce\x54\x6e\xf6\x3c\x9c\xc6\x07\x65\x92\x36\x09\xb3\x3a\
            \x9a\x19\x74\xe9\x6e\x52\xda\xf2\xfc\xf7\x07\x5e\x22\x71",
    ),
    (
        3,
        b"c2sp.org/XAES-256-GCM",
        *b"\x98\x6e\xc1\x83\x25\x93\xdf\x54\x43\xa1\x79\x43\x7f\xd0\
            \x83\xbf\x3f\xdb\x41\xab\xd7\x40\xa2\x1f\x71\xeb\x76\x9d",
    ),
];

/// Asserts that two values are equal. A failure prints both.
pub(crate) fn equal<T: Debug + PartialEq + Drop>(rt: &impl Abort, found: T, wanted: T, what: &str) {
    assert_eq!(rt; found, wanted, "{what}");
}

/// Asserts that two byte slices are equal. A failure prints both in hex.
pub(crate) fn same(rt: &impl Abort, found: &[u8], wanted: &[u8], what: &str) {
    equal(rt, Hex(found), Hex(wanted), what);
}
