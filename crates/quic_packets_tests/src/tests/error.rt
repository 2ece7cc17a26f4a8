//! What the errors print, and the codes that close a connection.

use crate::tests::checks::{displays, equal};
use quic_packets::{
    DatagramError, HeaderError, KeyError, MaskError, NumberError, ReceiveError, RetryError,
    SendError,
};
use std::alloc::AllocError;
use std::fmt::Display;
use std::process::Abort;
use std::test::Fail;

const KEY_ERRORS: [(KeyError, &str); 7] = [
    (
        KeyError::KeyLength,
        "the key does not have the length of the algorithm's keys",
    ),
    (KeyError::KeysDerived, "the keys derive from a secret"),
    (
        KeyError::NoSecret,
        "there is no secret from which keys derive",
    ),
    (KeyError::NumbersEnded, "the packet number is above 2^62"),
    (
        KeyError::HandshakeUnconfirmed,
        "the handshake is not confirmed",
    ),
    (
        KeyError::PhaseUnacknowledged,
        "no packet of this key phase was acknowledged",
    ),
    (
        KeyError::Discarded,
        "the keys were dropped, so no others can be installed",
    ),
];

const NUMBER_ERRORS: [(NumberError, &str); 5] = [
    (
        NumberError::NumberUsed,
        "the packet number is below the next one",
    ),
    (NumberError::NumbersEnded, "the packet number is above 2^62"),
    (
        NumberError::NeverSent,
        "a packet that was not sent was acknowledged",
    ),
    (
        NumberError::UpdateUnanswered,
        "a packet of the current keys was acknowledged under older keys",
    ),
    (NumberError::NoKeys, "the keys of the level are not there"),
];

const SEND_ERRORS: [(SendError, &str); 14] = [
    (SendError::NoKeys, "the keys of the level are not there"),
    (
        SendError::NumberAtFirstByte,
        "the packet number cannot begin at the header's first byte",
    ),
    (
        SendError::NumberLength,
        "the packet number does not fit the room for it",
    ),
    (
        SendError::NumberTooFar,
        "4 bytes cannot encode the packet number after the largest acknowledged one",
    ),
    (
        SendError::NoSample,
        "the packet is too short for a sample of header protection",
    ),
    (
        SendError::TooShort,
        "the packet is shorter than its header and a tag",
    ),
    (
        SendError::TooLong,
        "the packet is longer than AES-GCM allows",
    ),
    (
        SendError::NoProtection,
        "packets of this type have no protection",
    ),
    (SendError::OtherVersion, "the packet has another version"),
    (SendError::NoFixedBit, "the fixed bit of the packet is 0"),
    (SendError::EmptyPayload, "the packet has no payload"),
    (
        SendError::NumbersEnded,
        "the packet number is not below 2^62",
    ),
    (
        SendError::KeyUsedUp,
        "the key has reached its limit of packets",
    ),
    (
        SendError::OutputLength,
        "the output does not have the length of the result",
    ),
];

const RECEIVE_ERRORS: [(ReceiveError, &str); 15] = [
    (ReceiveError::PastEnd, "the datagram ends before the packet"),
    (ReceiveError::NoNumber, "the packet has no packet number"),
    (
        ReceiveError::NumberAtFirstByte,
        "the packet number cannot begin at the header's first byte",
    ),
    (
        ReceiveError::NoSample,
        "the packet is too short for a sample of header protection",
    ),
    (
        ReceiveError::TooShort,
        "the packet is shorter than its header and a tag",
    ),
    (
        ReceiveError::TooLong,
        "the packet is longer than AES-GCM allows",
    ),
    (ReceiveError::OtherVersion, "the packet has another version"),
    (
        ReceiveError::NumbersEnded,
        "the packet number is not below 2^62",
    ),
    (
        ReceiveError::OutputLength,
        "the output does not have the length of the result",
    ),
    (ReceiveError::Refused, "the packet is not authentic"),
    (
        ReceiveError::TooManyFailures,
        "too many packets have failed authentication",
    ),
    (
        ReceiveError::ReservedBits,
        "the packet's reserved bits are set",
    ),
    (
        ReceiveError::Duplicate,
        "the packet number was already received, or is below the window",
    ),
    (
        ReceiveError::KeyUpdate,
        "the packet's key phase is out of order",
    ),
    (ReceiveError::NoFrames, "the packet has no frames"),
];

const MASK_ERRORS: [(MaskError, &str); 3] = [
    (
        MaskError::NumberAtFirstByte,
        "the packet number cannot begin at the header's first byte",
    ),
    (
        MaskError::NoSample,
        "the packet is too short for a sample of header protection",
    ),
    (
        MaskError::NumberLength,
        "the packet number has more than 4 bytes",
    ),
];

const DATAGRAM_ERRORS: [(DatagramError, &str); 3] = [
    (DatagramError::Cut, "the datagram ends before the packet"),
    (
        DatagramError::IdTooLong,
        "a connection ID of version 1 or 2 has at most 20 bytes",
    ),
    (
        DatagramError::NoFixedBit { end: 9 },
        "the fixed bit of the packet is 0",
    ),
];

const HEADER_ERRORS: [(HeaderError, &str); 4] = [
    (
        HeaderError::NumberLength,
        "a packet number has 1 to 4 bytes",
    ),
    (
        HeaderError::IdTooLong,
        "a connection ID of version 1 or 2 has at most 20 bytes",
    ),
    (
        HeaderError::TooLong,
        "the token or the packet has 2^30 bytes or more",
    ),
    (HeaderError::NoRoom, "the buffer is shorter than the header"),
];

const RETRY_ERRORS: [(RetryError, &str); 2] = [
    (
        RetryError::IdTooLong,
        "a connection ID has at most 20 bytes",
    ),
    (
        RetryError::TooLong,
        "the Retry packet has 2^61 bytes or more",
    ),
];

/// Asserts that each error is displayed as its text.
fn display<E: Display>(
    rt: &(impl Abort + AllocGlobal),
    rows: &[(E, &str)],
) -> Result<(), AllocError> {
    for (error, text) in rows {
        displays(rt, error, text)?;
    }
    Ok(())
}

#[test]
fn texts(rt: HostRuntime) -> Result<(), Fail> {
    display(&rt, &KEY_ERRORS)?;
    display(&rt, &NUMBER_ERRORS)?;
    display(&rt, &SEND_ERRORS)?;
    display(&rt, &RECEIVE_ERRORS)?;
    display(&rt, &MASK_ERRORS)?;
    display(&rt, &DATAGRAM_ERRORS)?;
    display(&rt, &RETRY_ERRORS)?;
    display(&rt, &HEADER_ERRORS)?;
    Ok(())
}

/// The errors that close a connection, with the codes of RFC 9000 section 20.1 and RFC 9001 section 6.6. All others have none.
const RECEIVE_CODES: [(ReceiveError, u64); 4] = [
    (ReceiveError::ReservedBits, 0x0a),
    (ReceiveError::NoFrames, 0x0a),
    (ReceiveError::KeyUpdate, 0x0e),
    (ReceiveError::TooManyFailures, 0x0f),
];

const NUMBER_CODES: [(NumberError, u64); 2] = [
    (NumberError::NeverSent, 0x0a),
    (NumberError::UpdateUnanswered, 0x0e),
];

/// Returns the error's code by the table.
fn code<E: Copy + PartialEq>(codes: &[(E, u64)], error: E) -> Option<u64> {
    for (closing, code) in codes {
        if *closing == error {
            return Some(*code);
        }
    }
    None
}

#[test]
fn codes(rt: HostRuntime) -> Result<(), Fail> {
    for (error, _) in &RECEIVE_ERRORS {
        equal(&rt, &error.code(), &code(&RECEIVE_CODES, *error));
    }
    for (error, _) in &NUMBER_ERRORS {
        equal(&rt, &error.code(), &code(&NUMBER_CODES, *error));
    }
    Ok(())
}
