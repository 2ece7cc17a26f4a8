//! Loops over AES, GHASH and AES-GCM, of `aead_ciphers` and of `aead_ciphers_wide`, and over ChaCha20.

use crate::keys::{MASK_LEN, MaskKey, header_algorithm, key_of_bytes};
use crate::{NONCE, first_bytes, nonce, set_first_bytes};
use aead_ciphers::aead::Aad;
use aead_ciphers::aead::generic::LessSafeKey;
use aead_ciphers::aead::quic::{self, HeaderProtectionKey};
use aead_ciphers::aes_gcm::{ExpandedKey, GcmKey};
use aead_ciphers::gcm::{self, KeyValue, UpdateBlock, UpdateBlocks, Xi};
use aead_ciphers_base::aes::{
    self, BLOCK_LEN, Block, Counter, EncryptBlock, EncryptCtr32, KeyBytes, Work, ZERO_BLOCK,
};
use aead_ciphers_base::chacha;
use aead_ciphers_base::overlapping::Overlapping;
use aead_ciphers_base::polyfill::slice::as_chunks;
use aead_ciphers_wide::aead::quic::HeaderProtectionKey as WideHeaderKey;
use aead_ciphers_wide::aes_gcm::ExpandedKey as WideKey;
use aead_ciphers_wide::{aes as wide_aes, gcm as wide_gcm};

/// The most bytes that the loop over ChaCha20 encrypts in one turn.
const CHACHA_MAX_LEN: usize = 1 << 20;

/// The tag with the nonce as AAD, which distinguishes AES-GCM keys.
fn aead_key_check_value<K: GcmKey>(key: &LessSafeKey<K>) -> u64 {
    match key.seal_in_place_separate_tag(nonce(), Aad::from(&NONCE[..]), &mut []) {
        Ok(tag) => first_bytes(tag.as_ref()),
        Err(_) => 0,
    }
}

/// The first eight bytes of a block.
fn eight_bytes_of_block(block: Block) -> u64 {
    first_bytes(&block)
}

/// Encrypts four blocks in each turn.
#[unsafe(no_mangle)]
pub extern "C" fn bench_encrypt_four(times: u64, key: &[u8], _buffer: &mut [u8]) -> u64 {
    let Ok(bytes) = KeyBytes::from_slice(key) else {
        return 0
    };
    let Ok(key) = aes::Key::new(bytes) else {
        return 0;
    };
    let mut blocks = [ZERO_BLOCK; 4];
    for _ in 0..times {
        blocks = key.encrypt_four(blocks);
    }
    let [first, ..] = blocks;
    eight_bytes_of_block(first)
}

/// Encrypts the whole blocks of the buffer in counter mode in each turn.
fn loop_ctr32<K: EncryptCtr32>(times: u64, key: &K, buffer: &mut [u8]) -> u64 {
    for _ in 0..times {
        let whole = buffer.len() / BLOCK_LEN * BLOCK_LEN;
        let in_out = Overlapping::from(&mut buffer[..whole]);
        key.ctr32_encrypt_within(in_out, &mut Counter::one(nonce()), &mut Work::new());
    }
    first_bytes(buffer)
}

/// `loop_ctr32` under an AES key of `aead_ciphers_base`.
#[unsafe(no_mangle)]
pub extern "C" fn bench_ctr32(times: u64, key: &[u8], buffer: &mut [u8]) -> u64 {
    let Ok(bytes) = KeyBytes::from_slice(key) else {
        return 0
    };
    match aes::Key::new(bytes) {
        Ok(key) => loop_ctr32(times, &key, buffer),
        Err(_) => 0,
    }
}

/// `loop_ctr32` under an AES key of `aead_ciphers_wide`.
#[unsafe(no_mangle)]
pub extern "C" fn bench_wide_ctr32(times: u64, key: &[u8], buffer: &mut [u8]) -> u64 {
    let Ok(bytes) = KeyBytes::from_slice(key) else {
        return 0
    };
    match wide_aes::Key::new(bytes) {
        Ok(key) => loop_ctr32(times, &key, buffer),
        Err(_) => 0,
    }
}

/// Adds one block to a running hash in each turn.
fn loop_update_block<G: UpdateBlock>(times: u64, key: &G, block: Block) -> u64 {
    let mut xi = Xi::zero();
    for _ in 0..times {
        key.update_block(&mut xi, block, &mut Work::new());
    }
    first_bytes(xi.as_ref())
}

/// `loop_update_block` under a hash key of `aead_ciphers`. The hash subkey and the block are the key.
#[unsafe(no_mangle)]
pub extern "C" fn bench_update_block(times: u64, key: &[u8], _buffer: &mut [u8]) -> u64 {
    match key.as_array::<BLOCK_LEN>() {
        Some(block) => loop_update_block(times, &gcm::Key::new(KeyValue::new(*block)), *block),
        None => 0,
    }
}

/// `loop_update_block` under a hash key of `aead_ciphers_wide`. The hash subkey and the block are the key.
#[unsafe(no_mangle)]
pub extern "C" fn bench_wide_update_block(times: u64, key: &[u8], _buffer: &mut [u8]) -> u64 {
    match key.as_array::<BLOCK_LEN>() {
        Some(block) => loop_update_block(times, &wide_gcm::Key::new(*block), *block),
        None => 0,
    }
}

/// Adds the whole blocks of the buffer to a running hash in each turn.
fn loop_update_blocks<G: UpdateBlocks>(times: u64, key: &G, buffer: &[u8]) -> u64 {
    let mut xi = Xi::zero();
    for _ in 0..times {
        let (blocks, _) = as_chunks::<u8, BLOCK_LEN>(buffer);
        key.update_blocks(&mut xi, blocks, &mut Work::new());
    }
    first_bytes(xi.as_ref())
}

/// `loop_update_blocks` under a hash key of `aead_ciphers`. The hash subkey is the key.
#[unsafe(no_mangle)]
pub extern "C" fn bench_update_blocks(times: u64, key: &[u8], buffer: &mut [u8]) -> u64 {
    match key.as_array::<BLOCK_LEN>() {
        Some(subkey) => loop_update_blocks(times, &gcm::Key::new(KeyValue::new(*subkey)), buffer),
        None => 0,
    }
}

/// `loop_update_blocks` under a hash key of `aead_ciphers_wide`. The hash subkey is the key.
#[unsafe(no_mangle)]
pub extern "C" fn bench_wide_update_blocks(times: u64, key: &[u8], buffer: &mut [u8]) -> u64 {
    match key.as_array::<BLOCK_LEN>() {
        Some(subkey) => loop_update_blocks(times, &wide_gcm::Key::new(*subkey), buffer),
        None => 0,
    }
}

/// Seals the buffer in place in each turn.
fn loop_seal<K: GcmKey>(times: u64, key: &[u8], buffer: &mut [u8]) -> u64 {
    let Ok(key) = key_of_bytes::<K>(key) else {
        return 0
    };
    let mut last = 0;
    for _ in 0..times {
        if let Ok(tag) = key.seal_in_place_separate_tag(nonce(), Aad::empty(), buffer) {
            last = first_bytes(tag.as_ref());
        }
    }
    last
}

/// `loop_seal` under a `LessSafeKey` of `aead_ciphers`.
#[unsafe(no_mangle)]
pub extern "C" fn bench_seal(times: u64, key: &[u8], buffer: &mut [u8]) -> u64 {
    loop_seal::<ExpandedKey>(times, key, buffer)
}

/// `loop_seal` under a `LessSafeKey` of `aead_ciphers_wide`.
#[unsafe(no_mangle)]
pub extern "C" fn bench_wide_seal(times: u64, key: &[u8], buffer: &mut [u8]) -> u64 {
    loop_seal::<WideKey>(times, key, buffer)
}

/// Seals no bytes in each turn, with the buffer as the AAD.
fn loop_authenticate<K: GcmKey>(times: u64, key: &[u8], buffer: &[u8]) -> u64 {
    let Ok(key) = key_of_bytes::<K>(key) else {
        return 0
    };
    let mut last = 0;
    for _ in 0..times {
        if let Ok(tag) = key.seal_in_place_separate_tag(nonce(), Aad::from(buffer), &mut []) {
            last = first_bytes(tag.as_ref());
        }
    }
    last
}

/// `loop_authenticate` under a `LessSafeKey` of `aead_ciphers`.
#[unsafe(no_mangle)]
pub extern "C" fn bench_authenticate(times: u64, key: &[u8], buffer: &mut [u8]) -> u64 {
    loop_authenticate::<ExpandedKey>(times, key, buffer)
}

/// `loop_authenticate` under a `LessSafeKey` of `aead_ciphers_wide`.
#[unsafe(no_mangle)]
pub extern "C" fn bench_wide_authenticate(times: u64, key: &[u8], buffer: &mut [u8]) -> u64 {
    loop_authenticate::<WideKey>(times, key, buffer)
}

/// Opens the buffer in place in each turn, and adds the number of accepted messages to the result.
///
/// Opening replaces the buffer by the plaintext, whose encryption is the bytes that were in the buffer before. So two tags
/// alternate.
fn loop_open<K: GcmKey>(times: u64, key: &[u8], buffer: &mut [u8]) -> u64 {
    let Ok(key) = key_of_bytes::<K>(key) else {
        return 0
    };
    let Ok(odd) = key.seal_in_place_separate_tag(nonce(), Aad::empty(), buffer) else {
        return 0;
    };
    let Ok(even) = key.seal_in_place_separate_tag(nonce(), Aad::empty(), buffer) else {
        return 0;
    };
    let mut answer = first_bytes(even.as_ref());
    for turn in 0..times {
        let tag = if turn % 2 == 0 { even } else { odd };
        let opened = key.open_in_place_separate_tag_to_front(
            nonce(),
            Aad::empty(),
            tag,
            buffer,
            0..,
        );
        answer = answer.wrapping_add(u64::from(opened.is_ok()));
    }
    answer
}

/// `loop_open` under a `LessSafeKey` of `aead_ciphers`.
#[unsafe(no_mangle)]
pub extern "C" fn bench_open(times: u64, key: &[u8], buffer: &mut [u8]) -> u64 {
    loop_open::<ExpandedKey>(times, key, buffer)
}

/// `loop_open` under a `LessSafeKey` of `aead_ciphers_wide`.
#[unsafe(no_mangle)]
pub extern "C" fn bench_wide_open(times: u64, key: &[u8], buffer: &mut [u8]) -> u64 {
    loop_open::<WideKey>(times, key, buffer)
}

/// The encrypted zero block, which distinguishes AES keys.
fn aes_key_check_value<K: EncryptBlock>(key: &K) -> u64 {
    eight_bytes_of_block(key.encrypt_block(ZERO_BLOCK, &mut Work::new()))
}

/// Expands an AES key of `aead_ciphers_base` from the bytes of the buffer in each turn.
#[unsafe(no_mangle)]
pub extern "C" fn bench_aes_key(times: u64, key: &[u8], buffer: &mut [u8]) -> u64 {
    let Ok(bytes) = KeyBytes::from_slice(key) else {
        return 0
    };
    let Ok(mut last) = aes::Key::new(bytes) else {
        return 0;
    };
    for turn in 0..times {
        set_first_bytes(buffer, turn);
        if let Ok(bytes) = KeyBytes::from_slice(buffer)
            && let Ok(made) = aes::Key::new(bytes)
        {
            last = made;
        }
    }
    aes_key_check_value(&last)
}

/// Expands an AES key of `aead_ciphers_wide` from the bytes of the buffer in each turn.
#[unsafe(no_mangle)]
pub extern "C" fn bench_wide_aes_key(times: u64, key: &[u8], buffer: &mut [u8]) -> u64 {
    let Ok(bytes) = KeyBytes::from_slice(key) else {
        return 0
    };
    let Ok(mut last) = wide_aes::Key::new(bytes) else {
        return 0;
    };
    for turn in 0..times {
        set_first_bytes(buffer, turn);
        if let Ok(bytes) = KeyBytes::from_slice(buffer)
            && let Ok(made) = wide_aes::Key::new(bytes)
        {
            last = made;
        }
    }
    aes_key_check_value(&last)
}

/// Creates an AES-GCM key from the bytes of the buffer in each turn.
fn loop_make_key<K: GcmKey>(times: u64, key: &[u8], buffer: &mut [u8]) -> u64 {
    let Ok(mut last) = key_of_bytes::<K>(key) else {
        return 0
    };
    for turn in 0..times {
        set_first_bytes(buffer, turn);
        if let Ok(made) = key_of_bytes::<K>(buffer) {
            last = made;
        }
    }
    aead_key_check_value(&last)
}

/// `loop_make_key` of `aead_ciphers`.
#[unsafe(no_mangle)]
pub extern "C" fn bench_make_key(times: u64, key: &[u8], buffer: &mut [u8]) -> u64 {
    loop_make_key::<ExpandedKey>(times, key, buffer)
}

/// `loop_make_key` of `aead_ciphers_wide`.
#[unsafe(no_mangle)]
pub extern "C" fn bench_wide_less_safe_key(times: u64, key: &[u8], buffer: &mut [u8]) -> u64 {
    loop_make_key::<WideKey>(times, key, buffer)
}

/// Clones an AES-GCM key in each turn: first the key of the buffer, and then the last clone.
fn loop_clone<K: GcmKey>(times: u64, key: &[u8], buffer: &[u8]) -> u64 {
    let (Ok(even), Ok(odd)) = (key_of_bytes::<K>(key), key_of_bytes::<K>(buffer)) else {
        return 0;
    };
    let (mut even, mut odd) = (even, odd);
    for turn in 0..times {
        if turn % 2 == 0 {
            if let Ok(clone) = even.clone() {
                odd = clone;
            }
        } else if let Ok(clone) = odd.clone() {
            even = clone;
        }
    }
    aead_key_check_value(&odd)
}

/// `loop_clone` of a `LessSafeKey` of `aead_ciphers`.
#[unsafe(no_mangle)]
pub extern "C" fn bench_clone(times: u64, key: &[u8], buffer: &mut [u8]) -> u64 {
    loop_clone::<ExpandedKey>(times, key, buffer)
}

/// `loop_clone` of a `LessSafeKey` of `aead_ciphers_wide`.
#[unsafe(no_mangle)]
pub extern "C" fn bench_wide_clone(times: u64, key: &[u8], buffer: &mut [u8]) -> u64 {
    loop_clone::<WideKey>(times, key, buffer)
}

/// Encrypts the buffer in place with ChaCha20 in each turn.
#[unsafe(no_mangle)]
pub extern "C" fn bench_chacha(times: u64, key: &[u8], buffer: &mut [u8]) -> u64 {
    let Some(key) = key.as_array::<{ chacha::KEY_LEN }>() else {
        return 0;
    };
    let key = chacha::Key::new(*key);
    for _ in 0..times {
        let len = buffer.len().min(CHACHA_MAX_LEN);
        let counter = chacha::Counter::from_nonce_and_ctr(nonce(), 1);
        key.encrypt(counter, Overlapping::from(&mut buffer[..len]));
    }
    first_bytes(buffer)
}

/// Computes the header protection mask of the sample in the buffer in each turn, and writes it to the front of the sample.
fn loop_mask<K: MaskKey>(times: u64, key: &K, buffer: &mut [u8]) -> u64 {
    for _ in 0..times {
        if let (Ok(mask), Some(front)) = (key.mask(buffer), buffer.first_chunk_mut::<MASK_LEN>()) {
            *front = mask;
        }
    }
    first_bytes(buffer)
}

/// `loop_mask` by AES, with a key of `aead_ciphers`.
#[unsafe(no_mangle)]
pub extern "C" fn bench_mask(times: u64, key: &[u8], buffer: &mut [u8]) -> u64 {
    match HeaderProtectionKey::new(header_algorithm(key), key) {
        Ok(key) => loop_mask(times, &key, buffer),
        Err(_) => 0,
    }
}

/// `loop_mask` by AES, with a key of `aead_ciphers_wide`.
#[unsafe(no_mangle)]
pub extern "C" fn bench_wide_mask(times: u64, key: &[u8], buffer: &mut [u8]) -> u64 {
    match WideHeaderKey::new(header_algorithm(key), key) {
        Ok(key) => loop_mask(times, &key, buffer),
        Err(_) => 0,
    }
}

/// `loop_mask` by ChaCha20, with a key of `aead_ciphers`.
#[unsafe(no_mangle)]
pub extern "C" fn bench_chacha_mask(times: u64, key: &[u8], buffer: &mut [u8]) -> u64 {
    match HeaderProtectionKey::new(&quic::CHACHA20, key) {
        Ok(key) => loop_mask(times, &key, buffer),
        Err(_) => 0,
    }
}
