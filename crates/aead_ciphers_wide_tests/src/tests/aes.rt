//! Tests of `aes`: the cipher and counter mode on the vectors of FIPS 197, SP 800-38A and RFC 9001, and counter mode when the
//! number of a block wraps in a pass of eight or of sixteen.

use crate::tests::checks::{equal, same};
use aead_ciphers_base::aes::{
    self, BLOCK_LEN, Counter, EncryptBlock, EncryptCtr32, KeyBytes, Overlapping, Work,
};
use aead_ciphers_base::values::Nonce;
use aead_ciphers_wide::aes::{BlockKey, Key, Width};
use aead_vectors::fips_197::{CASES, Case};
use aead_vectors::rfc_9001;
use aead_vectors::sp_800_38a::{CTR, CtrCase, ECB};
use std::process::Abort;
use std::test::Fail;

/// Asserts the encryption of a block by a key and by its clone.
fn enciphers(rt: &impl Abort, case: &Case) -> Result<(), Fail> {
    let key = Key::new(KeyBytes::from_slice(&case.key)?)?;
    let found = key.encrypt_block(case.plaintext, &mut Work::new());
    same(rt, &found, &case.ciphertext, case.name);
    let found = key.clone()?.encrypt_block(case.plaintext, &mut Work::new());
    same(rt, &found, &case.ciphertext, case.name);
    Ok(())
}

#[test]
fn encrypt_block(rt: HostRuntime) -> Result<(), Fail> {
    for line in CASES {
        enciphers(&rt, &Case::parse(rt.alloc(), line)?)?;
    }
    for line in ECB {
        enciphers(&rt, &Case::parse(rt.alloc(), line)?)?;
    }
    Ok(())
}

#[test]
fn new_mask(rt: HostRuntime) -> Result<(), Fail> {
    let key = Key::new(KeyBytes::AES_128(&rfc_9001::A_2_KEY))?;
    let mask = key.new_mask(rfc_9001::A_2_SAMPLE);
    same(&rt, &mask, &rfc_9001::A_2_MASK, "the mask");
    let key = BlockKey::new(KeyBytes::AES_128(&rfc_9001::A_2_KEY));
    let mask = key.new_mask(rfc_9001::A_2_SAMPLE);
    same(
        &rt,
        &mask,
        &rfc_9001::A_2_MASK,
        "the mask of a key for one block",
    );
    let mask = key.clone()?.new_mask(rfc_9001::A_2_SAMPLE);
    same(&rt, &mask, &rfc_9001::A_2_MASK, "the mask of its clone");
    Ok(())
}

/// Returns the counter with this block.
fn counter_of(block: &[u8; 16]) -> Counter {
    let mut nonce = [0; 12];
    nonce.copy_from_slice(&block[..12]);
    let mut number = [0; 4];
    number.copy_from_slice(&block[12..]);
    let mut counter = Counter::one(Nonce::assume_unique_for_key(nonce));
    counter.increment_by_less_safe(u32::from_be_bytes(number).wrapping_sub(1));
    counter
}

/// Asserts the encryption of four blocks, starting at the initial counter block.
fn encrypts(rt: &impl Abort, case: &CtrCase, width: Width) -> Result<(), Fail> {
    let mut bytes = case.plaintext.clone()?;
    let whole = bytes.len() / BLOCK_LEN * BLOCK_LEN;
    let in_out = Overlapping::from(&mut bytes[..whole]);
    let mut counter = counter_of(&case.counter);
    let key = Key::new_with_width(KeyBytes::from_slice(&case.key)?, width)?;
    key.ctr32_encrypt_within(in_out, &mut counter, &mut Work::new());
    same(rt, &bytes, &case.ciphertext, case.name);
    Ok(())
}

#[test]
fn ctr32_encrypt_within(rt: HostRuntime) -> Result<(), Fail> {
    for line in CTR {
        let case = CtrCase::parse(rt.alloc(), line)?;
        encrypts(&rt, &case, Width::Bits128)?;
        encrypts(&rt, &case, Width::Bits256)?;
    }
    Ok(())
}

/// Encrypts twenty blocks of zeros from a counter block on, and returns them, the next counter block and the work.
fn keystream<K: EncryptCtr32>(key: &K, first: &[u8; 16]) -> ([u8; 320], [u8; 16], u64) {
    let mut bytes = [0; 320];
    let mut counter = counter_of(first);
    let mut work = Work::new();
    let in_out = Overlapping::from(bytes.as_mut_slice());
    key.ctr32_encrypt_within(in_out, &mut counter, &mut work);
    (bytes, *counter.as_ref(), work.blocks())
}

/// Asserts the keystream when the number wraps at each place of a pass.
fn wraps(rt: &impl Abort, width: Width) -> Result<(), Fail> {
    let key = Key::new_with_width(KeyBytes::AES_256(&[7; 32]), width)?;
    let narrow = aes::Key::new(KeyBytes::AES_256(&[7; 32]))?;
    for last in 0xf0..=0xffu8 {
        let first = [
            1, 2, 3, 4, 5, 6, 7, 8, 9, 10, 11, 12, 0xff, 0xff, 0xff, last,
        ];
        let (found, next, blocks) = keystream(&key, &first);
        let (wanted, wanted_next, _) = keystream(&narrow, &first);
        same(rt, &found, &wanted, "the key stream");
        same(rt, &next, &wanted_next, "the next counter block");
        equal(rt, blocks, 20, "the tally");
    }
    Ok(())
}

#[test]
fn counter_mode_wraps(rt: HostRuntime) -> Result<(), Fail> {
    wraps(&rt, Width::Bits128)?;
    wraps(&rt, Width::Bits256)
}

/// Asserts each number of blocks up to a pass of sixteen.
fn encrypts_few(rt: &impl Abort, width: Width) -> Result<(), Fail> {
    let key = Key::new_with_width(KeyBytes::AES_128(&[7; 16]), width)?;
    let narrow = aes::Key::new(KeyBytes::AES_128(&[7; 16]))?;
    let first = [1, 2, 3, 4, 5, 6, 7, 8, 9, 10, 11, 12, 0, 0, 0, 2];
    let (wanted, _, _) = keystream(&narrow, &first);
    for count in 1..=16 {
        let mut bytes = [0; 256];
        let in_out = Overlapping::from(&mut bytes[..BLOCK_LEN * count]);
        key.ctr32_encrypt_within(in_out, &mut counter_of(&first), &mut Work::new());
        same(
            rt,
            &bytes[..BLOCK_LEN * count],
            &wanted[..BLOCK_LEN * count],
            "few blocks",
        );
    }
    Ok(())
}

#[test]
fn counter_mode_of_few(rt: HostRuntime) -> Result<(), Fail> {
    encrypts_few(&rt, Width::Bits128)?;
    encrypts_few(&rt, Width::Bits256)
}
