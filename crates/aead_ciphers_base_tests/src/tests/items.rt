//! Items that aren't bytes.

use crate::tests::checks::equal;
use std::process::Abort;

/// An item that isn't `Copy`.
#[derive(PartialEq, Eq, Debug, Drop)]
pub(crate) struct Item(pub(crate) u8);

/// Asserts that the items contain these bytes.
pub(crate) fn hold(rt: &impl Abort, items: &[Item], bytes: &[u8]) {
    equal(rt, items.len(), bytes.len(), "the number of items");
    for (item, byte) in items.iter().zip(bytes) {
        assert_eq!(rt; item.0, *byte);
    }
}
