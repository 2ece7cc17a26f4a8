//! Tests of version 2: the packets of RFC 9369 appendix A under the keys of their connection ID, and packets of the other version.

use crate::tests::checks::{equal, holds, same};
use crate::tests::keys::{plain, unsent};
use aead_vectors::rfc_9001::{CLIENT_ID, Packet};
use aead_vectors::rfc_9369::{A_2_PACKET, A_3_PACKET};
use quic_packets::connection::{Connection, Incoming, Level};
use quic_packets::{
    Failures, FixedBit, QuicSecret, ReceiveError, Receiver, SendError, Sender, Space, Version,
    packet_at,
};
use std::process::Abort;
use std::test::Fail;

/// The secret of an endpoint's Initial packets.
fn initial(version: Version, is_client: bool) -> Result<QuicSecret, Fail> {
    if is_client {
        Ok(QuicSecret::client_initial(version, &CLIENT_ID)?)
    } else {
        Ok(QuicSecret::server_initial(version, &CLIENT_ID)?)
    }
}

/// Asserts that a sender in this version sends the row's packet.
fn sends(rt: &impl Abort, secret: QuicSecret, row: &Packet) -> Result<(), Fail> {
    let mut packet = unsent(row)?;
    let mut sender = Sender::from_secret(secret, row.number)?;
    let room = row.number_at..row.header.len();
    sender.send(&mut packet, room, FixedBit::Required)?;
    same(rt, &packet, &row.protected, row.name);
    Ok(())
}

/// Receives a packet, and returns its number or the error, and how many failures were counted.
fn received(
    secret: QuicSecret,
    datagram: &mut [u8],
) -> Result<(Result<u64, ReceiveError>, u64), Fail> {
    let mut receiver = Receiver::from_secret(secret);
    let mut space = Space::<2>::new();
    let mut failures = Failures::new();
    let parts = packet_at(datagram, 0, 0, FixedBit::Required)?;
    let received = receiver.receive(&mut space, &mut failures, datagram, &parts);
    Ok((received.map(|received| received.number), failures.count()))
}

/// Asserts that a receiver in this version receives the row's packet.
fn receives(rt: &impl Abort, secret: QuicSecret, row: &Packet) -> Result<(), Fail> {
    let mut datagram = row.protected.clone()?;
    let found = received(secret, &mut datagram)?;
    equal(rt, &found, &(Ok(row.number), 0));
    holds(rt, datagram.starts_with(&plain(row)?), row.name);
    Ok(())
}

#[test]
fn rfc_9369_a_2_and_a_3(rt: HostRuntime) -> Result<(), Fail> {
    for (line, is_client) in [(A_2_PACKET, true), (A_3_PACKET, false)] {
        let row = Packet::parse(rt.alloc(), line)?;
        sends(&rt, initial(Version::Two, is_client)?, &row)?;
        receives(&rt, initial(Version::Two, is_client)?, &row)?;
    }
    Ok(())
}

/// Asserts that a sender of version 1 refuses the row's packet, and uses no number.
fn refuses_to_send(rt: &impl Abort, row: &Packet) -> Result<(), Fail> {
    let mut packet = unsent(row)?;
    let mut sender = Sender::from_secret(initial(Version::One, true)?, row.number)?;
    let room = row.number_at..row.header.len();
    let sent = sender.send(&mut packet, room, FixedBit::Required);
    equal(rt, &sent, &Err(SendError::OtherVersion));
    equal(rt, &sender.next_number(), &row.number);
    Ok(())
}

/// Asserts that a receiver of version 1 refuses the row's packet, which is unchanged, and counts no failure.
fn refuses_to_receive(rt: &impl Abort, row: &Packet) -> Result<(), Fail> {
    let mut datagram = row.protected.clone()?;
    let found = received(initial(Version::One, true)?, &mut datagram)?;
    equal(rt, &found, &(Err(ReceiveError::OtherVersion), 0));
    same(rt, &datagram, &row.protected, row.name);
    Ok(())
}

/// Asserts that a connection with the keys of version 1 drops the row's packet, and goes on after it.
fn drops(rt: &impl Abort, row: &Packet) -> Result<(), Fail> {
    let mut connection = Connection::<2>::new(FixedBit::Required);
    connection.install_receiver(Level::Initial, initial(Version::One, true)?)?;
    let mut datagram = row.protected.clone()?;
    let step = connection.receive(&mut datagram, 0, 0, &CLIENT_ID)?;
    let dropped = Incoming::Dropped(ReceiveError::OtherVersion);
    equal(rt, &step.incoming, &dropped);
    equal(rt, &step.next, &datagram.len());
    Ok(())
}

#[test]
fn other_version(rt: HostRuntime) -> Result<(), Fail> {
    let row = Packet::parse(rt.alloc(), A_2_PACKET)?;
    refuses_to_send(&rt, &row)?;
    refuses_to_receive(&rt, &row)?;
    drops(&rt, &row)
}
