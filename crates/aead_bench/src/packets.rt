//! Loops that seal and open packets of QUIC, by `quic_packets` and by a key alone.

use crate::keys::key_of_bytes;
use crate::{NONCE, first_bytes};
use aead_ciphers::aead::nonce_of;
use aead_ciphers_base::aes::AES_128_KEY_LEN;
use aead_ciphers_wide::aes_gcm::ExpandedKey;
use quic_packets::{
    Failures, FixedBit, KeyError, Keys, Packet, ReceiveError, Receiver, Sender, Space, Suite,
    Version, packet_at,
};

/// A short header of a QUIC packet: the first byte, a connection ID of 8 bytes, and a packet number of 2 bytes.
const NUMBER_AT: usize = 9;

const HEADER_LEN: usize = 11;

/// The first byte of a short header (RFC 9000 section 17.3.1), without the bits that `Sender::send` writes.
const SHORT_HEADER: u8 = 0x40;

/// The number of unacknowledged packets. Their packet numbers take 2 bytes.
const UNACKNOWLEDGED: u64 = 1000;

/// The suite for keys of 16 or 32 bytes.
fn suite(key: &[u8]) -> Suite {
    match key.len() {
        AES_128_KEY_LEN => Suite::Aes128Gcm,
        _ => Suite::Aes256Gcm,
    }
}

/// The keys of a key, which also masks headers.
fn keys(key: &[u8]) -> Keys<'_> {
    Keys {
        version: Version::One,
        key,
        iv: NONCE,
        header_key: key,
    }
}

/// One end of a QUIC connection that sends to itself.
#[derive(Drop)]
struct Loopback {
    sender: Sender,
    receiver: Receiver,
    space: Space<2>,
    failures: Failures,
}

impl Loopback {
    fn new(key: &[u8]) -> Result<Self, KeyError> {
        Ok(Loopback {
            sender: Sender::new(suite(key), keys(key), UNACKNOWLEDGED)?,
            receiver: Receiver::new(suite(key), keys(key))?,
            space: Space::new(),
            failures: Failures::new(),
        })
    }

    fn send(&mut self, packet: &mut [u8]) -> Option<u64> {
        let acknowledged = self.sender.next_number().saturating_sub(UNACKNOWLEDGED);
        self.sender.acknowledged(acknowledged).ok()?;
        self.sender
            .send(packet, NUMBER_AT..HEADER_LEN, FixedBit::Required)
            .ok()
    }

    fn receive(&mut self, packet: &mut [u8], parts: &Packet) -> Result<u64, ReceiveError> {
        let received = self
            .receiver
            .receive(&mut self.space, &mut self.failures, packet, parts)?;
        Ok(received.number)
    }
}

/// Writes the first byte of a short header.
fn write_first_byte(packet: &mut [u8]) {
    if let Some(header) = packet.first_chunk_mut::<HEADER_LEN>() {
        header[0] = SHORT_HEADER;
    }
}

/// Zeroes the header, and returns the first eight bytes of the payload.
fn without_header(packet: &mut [u8]) -> u64 {
    if packet.len() < HEADER_LEN {
        return 0;
    }
    packet[..HEADER_LEN].fill(0);
    first_bytes(&packet[HEADER_LEN..])
}

/// Writes the first byte, for a packet number of 2 bytes, and the low bytes of a number into the header.
fn write_short_header(packet: &mut [u8], number: u64) {
    if let Some(header) = packet.first_chunk_mut::<HEADER_LEN>() {
        let [.., high, low] = number.to_be_bytes();
        header[0] = SHORT_HEADER | 1;
        header[NUMBER_AT] = high;
        header[NUMBER_AT + 1] = low;
    }
}

/// Sends the buffer as a QUIC packet in place in each turn: a short header, a payload, and the tag in the last 16 bytes.
#[unsafe(no_mangle)]
pub extern "C" fn bench_send(times: u64, key: &[u8], buffer: &mut [u8]) -> u64 {
    let Ok(mut connection) = Loopback::new(key) else {
        return 0
    };
    write_first_byte(buffer);
    for _ in 0..times {
        if connection.send(buffer).is_none() {
            return 0;
        }
    }
    without_header(buffer)
}

/// Sends the buffer as a QUIC packet in place and receives it, in each turn. Its parts are parsed once, before the turns.
#[unsafe(no_mangle)]
pub extern "C" fn bench_send_and_receive(times: u64, key: &[u8], buffer: &mut [u8]) -> u64 {
    let Ok(mut connection) = Loopback::new(key) else {
        return 0
    };
    write_first_byte(buffer);
    let Ok(parts) = packet_at(buffer, 0, NUMBER_AT - 1, FixedBit::Required) else {
        return 0
    };
    for _ in 0..times {
        if connection.send(buffer).is_none() || connection.receive(buffer, &parts).is_err() {
            return 0;
        }
    }
    without_header(buffer)
}

/// Seals what `bench_send` sends with a `LessSafeKey` of `aead_ciphers_wide`, without header protection.
#[unsafe(no_mangle)]
pub extern "C" fn bench_seal_packet(times: u64, key: &[u8], buffer: &mut [u8]) -> u64 {
    let Ok(key) = key_of_bytes::<ExpandedKey>(key) else {
        return 0
    };
    for number in 0..times.min(1 << 32) {
        let number = UNACKNOWLEDGED + number;
        write_short_header(buffer, number);
        if key
            .seal_packet_in_place(nonce_of(&NONCE, number), buffer, HEADER_LEN)
            .is_err()
        {
            return 0;
        }
    }
    without_header(buffer)
}

/// Seals and opens what `bench_send_and_receive` sends and receives with a `LessSafeKey` of `aead_ciphers_wide`, without header
/// protection.
#[unsafe(no_mangle)]
pub extern "C" fn bench_seal_and_open_packet(times: u64, key: &[u8], buffer: &mut [u8]) -> u64 {
    let Ok(key) = key_of_bytes::<ExpandedKey>(key) else {
        return 0
    };
    for number in 0..times.min(1 << 32) {
        let number = UNACKNOWLEDGED + number;
        write_short_header(buffer, number);
        if key
            .seal_packet_in_place(nonce_of(&NONCE, number), buffer, HEADER_LEN)
            .is_err()
        {
            return 0;
        }
        if key
            .open_packet_in_place_after_header(nonce_of(&NONCE, number), buffer, HEADER_LEN)
            .is_err()
        {
            return 0;
        }
    }
    without_header(buffer)
}
