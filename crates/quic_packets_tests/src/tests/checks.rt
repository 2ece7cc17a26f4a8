//! Assertions for tests. They have no contract clauses, so a caller's proof learns nothing about the bytes and stays short.

use quic_packets::Space;
use std::alloc::AllocError;
use std::fmt::{Debug, Display};
use std::process::Abort;
use test_support::hex::Hex;
use test_support::text::displayed;

/// Asserts that two byte slices are equal. A failure prints both in hex.
pub(crate) fn same(rt: &impl Abort, found: &[u8], wanted: &[u8], what: &str) {
    assert_eq!(rt; Hex(found), Hex(wanted), "{what}");
}

/// Asserts that two values are equal.
pub(crate) fn equal<T: Debug + PartialEq>(rt: &impl Abort, found: &T, wanted: &T) {
    assert_eq!(rt; found, wanted);
}

/// Asserts that a condition is true.
pub(crate) fn holds(rt: &impl Abort, test: bool, what: &str) {
    assert!(rt; test, "{what}");
}

/// Asserts that a value is displayed as this text.
pub(crate) fn displays(
    rt: &(impl Abort + AllocGlobal),
    value: &impl Display,
    wanted: &str,
) -> Result<(), AllocError> {
    let text = displayed(rt.alloc(), value)?;
    assert_eq!(rt; text.as_str(), wanted);
    Ok(())
}

/// Asserts that these are the ranges of a space, from the highest down.
pub(crate) fn has_ranges<const W: usize>(rt: &impl Abort, space: &Space<W>, wanted: &[(u64, u64)]) {
    let mut ranges = space.ranges();
    for (start, end) in wanted {
        equal(rt, &ranges.next(), &Some(*start..*end));
    }
    equal(rt, &ranges.next(), &None);
}
