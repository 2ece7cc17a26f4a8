//! Tests of `aes`: the field and the S-box, the cipher at each of four positions, the numbers of counter blocks, and counter
//! mode when they wrap.

ghost use Rattle.std.specs.Prelude.{◌≡◌};
ghost use Rattle.aead_ciphers_base.specs.ByteField.{mul8, inv, sbox};

use crate::tests::checks::{equal, same};
use aead_ciphers_base::aes::{
    BLOCK_LEN, Block, Counter, EncryptBlock, EncryptCtr32, Key, KeyBytes, Overlapping, Work,
    ZERO_BLOCK, sub_planes,
};
use aead_ciphers_base::values::Nonce;
use aead_vectors::fips_197::{CASES, Case, S_BOX};
use aead_vectors::rfc_9001;
use aead_vectors::sp_800_38a::{CTR, CtrCase, ECB};
use aead_vectors::words::Words;
use std::process::Abort;
use std::test::Fail;

// The definitions yield the values that FIPS 197 gives for its field (section 4) and S-box (section 5.1.1).
#[tactic(auto, unfolding(aead_ciphers_base::proofs::ByteFieldLaws::field))]
fn field_values()
    ensures product { mul8 0x57 0x83 ≡ 0xc1 }
    ensures inverse { inv 0x53 ≡ 0xca }
    ensures s_box_of_00 { sbox 0x00 ≡ 0x63 }
    ensures s_box_of_01 { sbox 0x01 ≡ 0x7c }
    ensures s_box_of_53 { sbox 0x53 ≡ 0xed }
{}

/// Returns the 64 bytes from `first` on. The byte after 255 is 0.
fn bytes_from(first: u8) -> [u8; 64] {
    let mut bytes = [0; 64];
    for (byte, p) in bytes.iter_mut().zip(0..64u8) {
        *byte = first.wrapping_add(p);
    }
    bytes
}

/// Returns the planes of 64 bytes: bit `b` of byte `p` is bit `p` of plane `b`.
fn planes_of(bytes: &[u8; 64]) -> [u64; 8] {
    let mut planes = [0; 8];
    for p in 0..64 {
        for b in 0..8 {
            planes[b] |= u64::from(bytes[p] >> b & 1) << p;
        }
    }
    planes
}

/// Replaces each byte by its S-box value.
fn substitute(bytes: &mut [u8; 64], s_box: &[u8; 256]) {
    for byte in bytes {
        *byte = s_box[*byte as usize];
    }
}

// Each byte at four places, one in each block.
#[test]
fn s_box_of_each_byte_in_each_block(rt: HostRuntime) -> Result<(), Fail> {
    let s_box = Words::new(S_BOX).array()?;
    for k in 0..16u8 {
        let mut bytes = bytes_from(16 * k);
        let mut planes = planes_of(&bytes);
        sub_planes(&mut planes);
        substitute(&mut bytes, &s_box);
        equal(&rt, planes, planes_of(&bytes), "the planes");
    }
    Ok(())
}

// The S-box value of 0 is 63.
#[test]
fn s_box_of_zero_planes(rt: HostRuntime) {
    let mut planes = [0; 8];
    sub_planes(&mut planes);
    equal(&rt, planes, planes_of(&[0x63; 64]), "the planes");
}

/// Expands a key of 16 or 32 bytes.
fn expanded(key: &[u8]) -> Result<Key, Fail> {
    Ok(Key::new(KeyBytes::from_slice(key)?)?)
}

/// Asserts the encryption of a block, alone and at each of four positions among blocks of zeros.
fn enciphers_in_each_place(rt: &impl Abort, key: &Key, case: &Case) {
    let found = key.encrypt_block(case.plaintext, &mut Work::new());
    same(rt, &found, &case.ciphertext, case.name);
    let of_zeros = key.encrypt_block(ZERO_BLOCK, &mut Work::new());
    for place in 0..4 {
        let mut blocks = [ZERO_BLOCK; 4];
        blocks[place] = case.plaintext;
        for (k, found) in key.encrypt_four(blocks).iter().enumerate() {
            let wanted = if k == place {
                &case.ciphertext
            } else {
                &of_zeros
            };
            same(rt, found, wanted, case.name);
        }
    }
}

/// Asserts the same with a key and with its clone.
fn enciphers(rt: &impl Abort, case: &Case) -> Result<(), Fail> {
    let key = expanded(&case.key)?;
    enciphers_in_each_place(rt, &key, case);
    enciphers_in_each_place(rt, &key.clone()?, case);
    Ok(())
}

#[test]
fn encrypt_block_and_encrypt_four(rt: HostRuntime) -> Result<(), Fail> {
    for line in CASES {
        enciphers(&rt, &Case::parse(rt.alloc(), line)?)?;
    }
    for line in ECB {
        enciphers(&rt, &Case::parse(rt.alloc(), line)?)?;
    }
    Ok(())
}

#[test]
fn new_mask(rt: HostRuntime) -> Result<(), Fail> {
    let mask = expanded(&rfc_9001::A_2_KEY)?.new_mask(rfc_9001::A_2_SAMPLE);
    same(&rt, &mask, &rfc_9001::A_2_MASK, "the mask");
    Ok(())
}

/// Returns the counter with this block.
fn counter_of(block: &[u8; 16]) -> Counter {
    let mut nonce = [0; 12];
    nonce.copy_from_slice(&block[..12]);
    let mut number = [0; 4];
    number.copy_from_slice(&block[12..]);
    let mut counter = Counter::one(Nonce::assume_unique_for_key(nonce));
    counter.increment_by_less_safe(u32::from_be_bytes(number).wrapping_sub(1));
    counter
}

/// Asserts the encryption of four blocks, starting at the initial counter block.
fn encrypts(rt: &impl Abort, case: &CtrCase) -> Result<(), Fail> {
    let mut bytes = *case
        .plaintext
        .as_slice()
        .as_array::<64>()
        .ok_or("four blocks")?;
    let mut counter = counter_of(&case.counter);
    same(rt, counter.as_ref(), &case.counter, case.name);
    let in_out = Overlapping::from(bytes.as_mut_slice());
    expanded(&case.key)?.ctr32_encrypt_within(in_out, &mut counter, &mut Work::new());
    same(rt, &bytes, &case.ciphertext, case.name);
    Ok(())
}

#[test]
fn ctr32_encrypt_within(rt: HostRuntime) -> Result<(), Fail> {
    for line in CTR {
        encrypts(&rt, &CtrCase::parse(rt.alloc(), line)?)?;
    }
    Ok(())
}

const NONCE: [u8; 12] = [1; 12];

/// Returns the counter of `NONCE` at number 1.
fn one() -> Counter {
    Counter::one(Nonce::assume_unique_for_key(NONCE))
}

/// Returns the counter block of `NONCE` and a number.
fn counter_block(number: u32) -> Block {
    let mut block = ZERO_BLOCK;
    block[..12].copy_from_slice(&NONCE);
    block[12..].copy_from_slice(&number.to_be_bytes());
    block
}

/// Asserts that the counter is at a number.
fn stands_at(rt: &impl Abort, counter: &Counter, number: u32) {
    same(rt, counter.as_ref(), &counter_block(number), "the counter");
}

#[test]
fn increment_gives_the_counter_as_it_was(rt: HostRuntime) {
    let mut counter = one();
    stands_at(&rt, &counter, 1);
    let iv = counter.increment().into_block_less_safe();
    same(&rt, &iv, &counter_block(1), "the counter as it was");
    stands_at(&rt, &counter, 2);
}

/// Returns the counter of `NONCE` at a number.
fn counter_at(number: u32) -> Counter {
    let mut counter = one();
    counter.increment_by_less_safe(number.wrapping_sub(1));
    counter
}

#[test]
fn sums_wrap_in_the_last_four_bytes(rt: HostRuntime) {
    for number in [0xffff_fffe, u32::MAX, 0, 1] {
        let mut counter = one();
        counter.increment();
        counter.increment_by_less_safe(number.wrapping_sub(2));
        stands_at(&rt, &counter, number);
        let iv = counter.increment().into_block_less_safe();
        same(&rt, &iv, &counter_block(number), "the counter as it was");
        stands_at(&rt, &counter, number.wrapping_add(1));
    }
}

/// Asserts the five blocks of the keystream that start at a number, and the number and the work after them.
fn keystream_from(rt: &impl Abort, key: &Key, number: u32) {
    let mut counter = counter_at(number);
    let mut keystream = [0; 5 * BLOCK_LEN];
    let mut work = Work::new();
    let in_out = Overlapping::from(keystream.as_mut_slice());
    key.ctr32_encrypt_within(in_out, &mut counter, &mut work);
    for (block, j) in keystream.chunks(BLOCK_LEN).zip(0..5u32) {
        let block_at = counter_block(number.wrapping_add(j));
        let wanted = key.encrypt_block(block_at, &mut Work::new());
        same(rt, block, &wanted, "the key stream");
    }
    equal(rt, (work.blocks(), work.products()), (5, 0), "the tallies");
    stands_at(rt, &counter, number.wrapping_add(5));
}

#[test]
fn counter_mode_wraps(rt: HostRuntime) -> Result<(), Fail> {
    let key = Key::new(KeyBytes::AES_128(&[0; 16]))?;
    for number in [0xffff_fffb, 0xffff_fffc, 0xffff_fffe, u32::MAX] {
        keystream_from(&rt, &key, number);
    }
    Ok(())
}
