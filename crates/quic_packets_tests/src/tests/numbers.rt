//! Tests of `quic_packets::numbers`: the examples of RFC 9000 appendices A.2 and A.3, and the limits of lengths and windows.

use crate::tests::checks::equal;
use quic_packets::numbers::{decode, number_len, truncated};

/// The largest packet number.
const LAST: u64 = (1 << 62) - 1;

/// A packet number, the largest acknowledged number, and the encoded length. The first two rows are from RFC 9000 appendix
/// A.2.
const LENGTHS: [(u64, Option<u64>, Option<usize>); 16] = [
    (0x00ac_5c02, Some(0x00ab_e8b3), Some(2)),
    (0x00ac_e8fe, Some(0x00ab_e8b3), Some(3)),
    (0, None, Some(1)),
    (126, None, Some(1)),
    (127, None, Some(2)),
    (127, Some(0), Some(1)),
    (128, Some(0), Some(2)),
    (0x7fff, Some(0), Some(2)),
    (0x8000, Some(0), Some(3)),
    (0x007f_ffff, Some(0), Some(3)),
    (0x0080_0000, Some(0), Some(4)),
    (0x7fff_ffff, Some(0), Some(4)),
    (0x8000_0000, Some(0), None),
    (7, Some(7), None),
    (LAST, Some(LAST - 1), Some(1)),
    (LAST + 1, Some(LAST), None),
];

#[test]
fn lengths(rt: HostRuntime) {
    for (number, largest_acknowledged, len) in LENGTHS {
        equal(&rt, &number_len(number, largest_acknowledged), &len);
    }
}

// The example of RFC 9000 appendix A.3, then both ends of a one-byte window and of the range of packet numbers.
#[test]
fn decoded(rt: HostRuntime) {
    equal(&rt, &decode(Some(0xa82f_30ea), 0x9b32, 2), &0xa82f_9b32);
    equal(&rt, &decode(Some(0x01ff), 0x80, 1), &0x0280);
    equal(&rt, &decode(Some(0x01ff), 0x81, 1), &0x0181);
    equal(&rt, &decode(None, 0, 1), &0);
    equal(&rt, &decode(None, 0xff, 1), &0xff);
    equal(&rt, &decode(Some(0), 0x8000_0001, 4), &0x8000_0001);
    equal(&rt, &decode(Some(LAST - 1), 0xff, 1), &LAST);
    equal(&rt, &decode(Some(LAST), 0, 1), &(LAST - 0xff));
    equal(&rt, &decode(Some(LAST), 0xff_ffff, 3), &LAST);
}

#[test]
fn truncated_numbers(rt: HostRuntime) {
    let packet = [0x43, 0x12, 0x34, 0x56, 0x78];
    equal(&rt, &truncated(&packet, 1, 1), &0x12);
    equal(&rt, &truncated(&packet, 1, 2), &0x1234);
    equal(&rt, &truncated(&packet, 1, 3), &0x0012_3456);
    equal(&rt, &truncated(&packet, 1, 4), &0x1234_5678);
}
