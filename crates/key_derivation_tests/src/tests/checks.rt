//! Assertions for tests. They have no contract clauses and return no error, so a caller's proof learns nothing about the bytes and
//! stays short.

use std::fmt::{Debug, Display};
use std::process::Abort;

/// The bytes that are written in hex.
pub(crate) fn bytes_of(rt: &(impl Abort + AllocGlobal), hex: &str) -> Vec<u8> {
    hex::decode(rt.alloc(), hex).expect(rt, "bytes in hex")
}

/// Asserts that bytes are these, which are written in hex.
pub(crate) fn same(rt: &(impl Abort + AllocGlobal), found: &[u8], wanted: &str, what: &str) {
    let found = hex::encode(rt.alloc(), found).expect(rt, "memory");
    assert_eq!(rt; found.as_str(), wanted, "{what}");
}

/// Asserts that two values are equal.
pub(crate) fn equal<T: Debug + PartialEq>(rt: &impl Abort, found: &T, wanted: &T) {
    assert_eq!(rt; found, wanted);
}

/// Asserts that a value is displayed as this text.
pub(crate) fn displays(rt: &(impl Abort + AllocGlobal), value: &impl Display, wanted: &str) {
    let text = format!(in rt.alloc(); "{value}").expect(rt, "memory");
    assert_eq!(rt; text.as_str(), wanted);
}

/// Asserts that a value is printed as this text for debugging, also in the alternate form.
pub(crate) fn prints(rt: &(impl Abort + AllocGlobal), value: &impl Debug, wanted: &str) {
    let text = format!(in rt.alloc(); "{value:?}").expect(rt, "memory");
    assert_eq!(rt; text.as_str(), wanted);
    let text = format!(in rt.alloc(); "{value:#?}").expect(rt, "memory");
    assert_eq!(rt; text.as_str(), wanted);
}
