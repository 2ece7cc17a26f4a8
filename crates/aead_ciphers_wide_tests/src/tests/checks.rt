//! Assertions for tests. They have no contract clauses, so a caller's proof learns nothing about the bytes and stays short.

use std::fmt::Debug;
use std::process::Abort;
use test_support::hex::Hex;

/// Asserts that two values are equal. A failure prints both.
pub(crate) fn equal<T: Debug + PartialEq + Drop>(rt: &impl Abort, found: T, wanted: T, what: &str) {
    assert_eq!(rt; found, wanted, "{what}");
}

/// Asserts that two byte slices are equal. A failure prints both in hex.
pub(crate) fn same(rt: &impl Abort, found: &[u8], wanted: &[u8], what: &str) {
    equal(rt, Hex(found), Hex(wanted), what);
}

/// Asserts that a condition is true.
pub(crate) fn holds(rt: &impl Abort, test: bool, what: &str) {
    assert!(rt; test, "{what}");
}
