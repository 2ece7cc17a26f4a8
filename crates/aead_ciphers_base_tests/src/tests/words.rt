//! Tests of the lines of vectors: lines that are rejected.

use aead_vectors::rfc_8439::Case;

// No word, a word too few, a word too many, a key of another length, a counter that isn't decimal, and no hex digits.
const BAD_LINES: [&str; 6] = [
    "",
    "name 0000000000000000000000000000000000000000000000000000000000000000 1 000000000000000000000000 -",
    "name 0000000000000000000000000000000000000000000000000000000000000000 1 000000000000000000000000 - - -",
    "name 00 1 000000000000000000000000 - -",
    "name 0000000000000000000000000000000000000000000000000000000000000000 f 000000000000000000000000 - -",
    "name 0000000000000000000000000000000000000000000000000000000000000000 1 000000000000000000000000 - x",
];

#[test]
fn bad_lines(rt: HostRuntime) {
    for line in BAD_LINES {
        assert!(rt; Case::parse(rt.alloc(), line).is_err(), "{line}");
    }
}
