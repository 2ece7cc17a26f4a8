//! Tests of senders and receivers that are made of a secret: packets of another implementation over key updates, and what is
//! refused.

use crate::tests::checks::{equal, holds, same};
use crate::tests::rows::{
    HEADER_KEY, IV, KEY, UPDATED_AES_128, UPDATED_AES_128_2, UPDATED_AES_256, UPDATED_AES_256_2,
};
use key_derivation::{Secret, Suite};
use quic_packets::{
    Failures, FixedBit, KeyError, Keys, QuicSecret, Receiver, Sender, Space, Version, packet_at,
};
use std::alloc::Global;
use std::process::Abort;
use std::test::Fail;

/// The bytes of the secrets. A suite uses a prefix as long as its secrets.
const BYTES: [u8; 48] = [
    0, 1, 2, 3, 4, 5, 6, 7, 8, 9, 10, 11, 12, 13, 14, 15, 16, 17, 18, 19, 20, 21, 22, 23, 24, 25,
    26, 27, 28, 29, 30, 31, 32, 33, 34, 35, 36, 37, 38, 39, 40, 41, 42, 43, 44, 45, 46, 47,
];

/// A secret of version 1.
fn secret(suite: Suite) -> Result<QuicSecret, Fail> {
    secret_of(Version::One, suite)
}

fn secret_of(version: Version, suite: Suite) -> Result<QuicSecret, Fail> {
    let len = match suite {
        Suite::Aes128Gcm => 32,
        Suite::Aes256Gcm => 48,
    };
    Ok(QuicSecret::new(version, Secret::new(suite, &BYTES[..len])?))
}

/// Asserts that the sender sends this packet: a short header without a connection ID, and six zeros.
fn sends(
    rt: &impl Abort,
    alloc: Global,
    sender: &mut Sender,
    wanted: &str,
) -> Result<[u8; 24], Fail> {
    let mut packet = [0; 24];
    packet[0] = 0x40;
    sender.send(&mut packet, 1..2, FixedBit::Required)?;
    same(rt, &packet, &hex::decode(alloc, wanted)?, "sent");
    Ok(packet)
}

/// Updates the keys of both ends, the second time as one that follows an update of the peer. The next key is set once.
fn update(sender: &mut Sender, receiver: &mut Receiver) -> Result<(), KeyError> {
    if sender.phase() {
        sender.follow_update()?;
        receiver.set_next()?;
        receiver.set_next()
    } else {
        sender.initiate_update()?;
        receiver.set_next()
    }
}

/// Asserts that a sender of a secret sends these packets, one after each key update, and that a receiver of it receives them.
fn updates(
    rt: &impl Abort,
    alloc: Global,
    version: Version,
    suite: Suite,
    packets: [&str; 4],
) -> Result<(), Fail> {
    let mut sender = Sender::from_secret(secret_of(version, suite)?, 0)?;
    let mut receiver = Receiver::from_secret(secret_of(version, suite)?);
    let mut space = Space::<2>::new();
    let mut failures = Failures::new();
    sender.confirm_handshake();
    for wanted in packets {
        let mut packet = sends(rt, alloc, &mut sender, wanted)?;
        let parts = packet_at(&packet, 0, 0, FixedBit::Required)?;
        let received = receiver.receive(&mut space, &mut failures, &mut packet, &parts)?;
        same(rt, &packet[received.payload], &[0; 6], "received");
        sender.acknowledged_in(received.number, received.phase)?;
        update(&mut sender, &mut receiver)?;
    }
    Ok(())
}

#[test]
fn key_updates(rt: HostRuntime) -> Result<(), Fail> {
    for (version, suite, packets) in [
        (Version::One, Suite::Aes128Gcm, UPDATED_AES_128),
        (Version::One, Suite::Aes256Gcm, UPDATED_AES_256),
        (Version::Two, Suite::Aes128Gcm, UPDATED_AES_128_2),
        (Version::Two, Suite::Aes256Gcm, UPDATED_AES_256_2),
    ] {
        updates(&rt, rt.alloc(), version, suite, packets)?;
    }
    Ok(())
}

/// Keys of a caller.
fn keys() -> Keys<'static> {
    Keys {
        version: Version::One,
        key: &KEY[..16],
        iv: IV,
        header_key: &HEADER_KEY[..16],
    }
}

/// Gives a sender the caller's keys, by each call.
fn takes_keys(sender: &mut Sender) -> [Result<(), KeyError>; 3] {
    [
        sender.initiate_update_with(&[1; 16], IV),
        sender.follow_update_with(&[1; 16], IV),
        sender.install_keys(Suite::Aes128Gcm, keys()),
    ]
}

// An end of a secret refuses the caller's keys, and sends and numbers as before. Another secret continues with the numbers.
#[test]
fn keys_derived(rt: HostRuntime) -> Result<(), Fail> {
    let mut sender = Sender::from_secret(secret(Suite::Aes128Gcm)?, 0)?;
    sender.confirm_handshake();
    for outcome in takes_keys(&mut sender) {
        equal(&rt, &outcome, &Err(KeyError::KeysDerived));
    }
    let mut receiver = Receiver::from_secret(secret(Suite::Aes128Gcm)?);
    let outcome = receiver.set_next_with(&[1; 16], IV);
    equal(&rt, &outcome, &Err(KeyError::KeysDerived));
    sends(&rt, rt.alloc(), &mut sender, UPDATED_AES_128[0])?;
    sender.install_secret(secret(Suite::Aes256Gcm)?)?;
    equal(&rt, &sender.next_number(), &1);
    Ok(())
}

/// Has a sender derive keys, by each call.
fn derives_keys(sender: &mut Sender, secret: QuicSecret) -> [Result<(), KeyError>; 3] {
    [
        sender.initiate_update(),
        sender.follow_update(),
        sender.install_secret(secret),
    ]
}

// An end of the caller's keys derives none.
#[test]
fn no_secret(rt: HostRuntime) -> Result<(), Fail> {
    let mut sender = Sender::new(Suite::Aes128Gcm, keys(), 0)?;
    sender.confirm_handshake();
    for outcome in derives_keys(&mut sender, secret(Suite::Aes128Gcm)?) {
        equal(&rt, &outcome, &Err(KeyError::NoSecret));
    }
    equal(&rt, &sender.phase(), &false);
    let mut receiver = Receiver::new(Suite::Aes128Gcm, keys())?;
    equal(&rt, &receiver.set_next(), &Err(KeyError::NoSecret));
    Ok(())
}

// The numbers of a sender end at 2^62, and an update needs the confirmed handshake and an acknowledgment.
#[test]
fn refusals(rt: HostRuntime) -> Result<(), Fail> {
    let past = Sender::from_secret(secret(Suite::Aes128Gcm)?, (1 << 62) + 1);
    holds(&rt, past.is_err(), "numbers ended");
    let mut sender = Sender::from_secret(secret(Suite::Aes128Gcm)?, 0)?;
    let unconfirmed = Err(KeyError::HandshakeUnconfirmed);
    equal(&rt, &sender.initiate_update(), &unconfirmed);
    sender.confirm_handshake();
    sender.initiate_update()?;
    let unacknowledged = Err(KeyError::PhaseUnacknowledged);
    equal(&rt, &sender.initiate_update(), &unacknowledged);
    Ok(())
}
