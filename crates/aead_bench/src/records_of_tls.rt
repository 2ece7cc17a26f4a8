//! Loops that seal and open records of TLS 1.3, by `records` and by a key alone.

use crate::keys::{algorithm_of_key, key_of_bytes};
use crate::{NONCE, first_bytes};
use aead_ciphers::aead::nonce_of;
use aead_ciphers_wide::aes_gcm::ExpandedKey;
use records::{ContentType, HEADER_LEN, RecordKey};

/// The bytes of a record that are not its content: the header, the type and the tag.
const OVERHEAD: usize = 22;

/// The content of a record that fills the buffer.
fn content_len(buffer: &[u8]) -> Option<usize> {
    buffer.len().checked_sub(OVERHEAD)
}

/// The first eight bytes after the header.
fn first_bytes_after_header(buffer: &[u8]) -> u64 {
    match buffer.get(HEADER_LEN..) {
        Some(bytes) => first_bytes(bytes),
        None => 0,
    }
}

/// Seals the record that fills the buffer in place in each turn.
#[unsafe(no_mangle)]
pub extern "C" fn bench_seal_record(times: u64, key: &[u8], buffer: &mut [u8]) -> u64 {
    let (Ok(key), Some(len)) = (
        RecordKey::new(algorithm_of_key(key), key, NONCE),
        content_len(buffer),
    ) else {
        return 0;
    };
    for number in 0..times {
        if key
            .seal_at(number, ContentType::ApplicationData, buffer, len, 0)
            .is_err()
        {
            return 0;
        }
    }
    first_bytes_after_header(buffer)
}

/// Seals the record that fills the buffer in place and opens it, in each turn.
#[unsafe(no_mangle)]
pub extern "C" fn bench_seal_and_open_record(times: u64, key: &[u8], buffer: &mut [u8]) -> u64 {
    let (Ok(key), Some(len)) = (
        RecordKey::new(algorithm_of_key(key), key, NONCE),
        content_len(buffer),
    ) else {
        return 0;
    };
    for number in 0..times {
        if key
            .seal_at(number, ContentType::ApplicationData, buffer, len, 0)
            .is_err()
            || key.open_at(number, buffer).is_err()
        {
            return 0;
        }
    }
    first_bytes_after_header(buffer)
}

/// Writes the header of the record that fills the buffer, and its type after the content of `len` bytes.
fn frame(buffer: &mut [u8], len: usize) {
    let [.., high, low] = (len.wrapping_add(OVERHEAD - HEADER_LEN) as u64).to_be_bytes();
    if let Some(header) = buffer.first_chunk_mut::<HEADER_LEN>() {
        *header = [ContentType::ApplicationData.code(), 3, 3, high, low];
    }
    if let Some(at) = buffer.get_mut(HEADER_LEN.wrapping_add(len)) {
        *at = ContentType::ApplicationData.code();
    }
}

/// Seals what `bench_seal_record` seals with a `LessSafeKey` of `aead_ciphers_wide`.
#[unsafe(no_mangle)]
pub extern "C" fn bench_seal_framed(times: u64, key: &[u8], buffer: &mut [u8]) -> u64 {
    let (Ok(key), Some(len)) = (key_of_bytes::<ExpandedKey>(key), content_len(buffer)) else {
        return 0;
    };
    for number in 0..times {
        frame(buffer, len);
        if key
            .seal_packet_in_place(nonce_of(&NONCE, number), buffer, HEADER_LEN)
            .is_err()
        {
            return 0;
        }
    }
    first_bytes_after_header(buffer)
}

/// Seals and opens what `bench_seal_and_open_record` does with a `LessSafeKey` of `aead_ciphers_wide`.
#[unsafe(no_mangle)]
pub extern "C" fn bench_seal_and_open_framed(times: u64, key: &[u8], buffer: &mut [u8]) -> u64 {
    let (Ok(key), Some(len)) = (key_of_bytes::<ExpandedKey>(key), content_len(buffer)) else {
        return 0;
    };
    for number in 0..times {
        frame(buffer, len);
        let nonce = nonce_of(&NONCE, number);
        if key.seal_packet_in_place(nonce, buffer, HEADER_LEN).is_err() {
            return 0;
        }
        let nonce = nonce_of(&NONCE, number);
        if key
            .open_packet_in_place_after_header(nonce, buffer, HEADER_LEN)
            .is_err()
        {
            return 0;
        }
    }
    first_bytes_after_header(buffer)
}
