//! Assertions for tests. They have no contract clauses, so a caller's proof learns nothing about the bytes and stays short.

use std::alloc::AllocError;
use std::fmt::{Debug, Display};
use std::process::Abort;
use test_support::hex::Hex;
use test_support::text::displayed;

/// Asserts that two values are equal. A failure prints both.
pub(crate) fn equal<T: Debug + PartialEq + Drop>(rt: &impl Abort, found: T, wanted: T, what: &str) {
    assert_eq!(rt; found, wanted, "{what}");
}

/// Asserts that two byte slices are equal. A failure prints both in hex.
pub(crate) fn same(rt: &impl Abort, found: &[u8], wanted: &[u8], what: &str) {
    equal(rt, Hex(found), Hex(wanted), what);
}

/// Asserts that a condition is true.
pub(crate) fn holds(rt: &impl Abort, test: bool, what: &str) {
    assert!(rt; test, "{what}");
}

/// Asserts that a value is displayed as this text.
pub(crate) fn displays(
    rt: &(impl Abort + AllocGlobal),
    value: &impl Display,
    wanted: &str,
) -> Result<(), AllocError> {
    let text = displayed(rt.alloc(), value)?;
    equal(rt, text.as_str(), wanted, "the text");
    Ok(())
}
