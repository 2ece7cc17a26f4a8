//! Tests of `chacha`: vectors of RFC 8439 and RFC 9001, of the definitions in contracts and of the code; the words of keys and
//! counters, the first and the last block, and an input far after the output.

ghost use Rattle.std.specs.Prelude.{◌≡◌, ◌≤◌, length};
ghost use Rattle.aead_ciphers_base.specs.ChaCha20.{quarter_round, chacha20_block};
ghost use Rattle.aead_vectors.specs.declared.rfc_8439.TheConstants.{BLOCK, BLOCK_NONCE, KEY};

use crate::tests::checks::{equal, same};
use aead_ciphers_base::chacha::{BLOCK_LEN, Counter, KEY_LEN, Key, Overlapping};
use aead_ciphers_base::values::{NONCE_LEN, Nonce};
use aead_vectors::rfc_8439::{A_1_VECTOR_1, BLOCK_NONCE, CASES, Case, KEY};
use aead_vectors::rfc_9001;
use std::alloc::Global;
use std::process::Abort;
use std::test::Fail;

// The definition yields the vector of section 2.1.1.
#[tactic(auto, unfolding(aead_ciphers_base::specs::ChaCha20::quarter_round))]
fn rfc_8439_2_1_1()
    ensures { quarter_round 0x11111111 0x01020304 0x9b8d6f43 0x01234567
        ≡ (0xea2a92f4, 0xcb1cf8ce, 0x4581472e, 0x5881c4bb) }
{}

// The definition yields the block of section 2.3.2.
fn rfc_8439_2_3_2_block()
    ensures { chacha20_block KEY 1 BLOCK_NONCE ≡ BLOCK }
{}

/// XORs `bytes` with the keystream of a case.
fn xors(case: &Case, bytes: &mut [u8]) -> Result<(), Fail> {
    let blocks_left = (1 << 32) - case.counter as usize;
    if bytes.len().div_ceil(BLOCK_LEN) > blocks_left {
        return Err("a plaintext's length".into());
    }
    let nonce = Nonce::assume_unique_for_key(case.nonce);
    let counter = Counter::from_nonce_and_ctr(nonce, case.counter);
    Key::new(case.key).encrypt(counter, Overlapping::from(bytes));
    Ok(())
}

/// Asserts that the plaintext of a case is encrypted to its ciphertext, and that decrypted to the plaintext.
fn encrypts(rt: &impl Abort, case: &Case) -> Result<(), Fail> {
    let mut bytes = case.plaintext.clone()?;
    xors(case, &mut bytes)?;
    same(rt, &bytes, &case.ciphertext, case.name);
    xors(case, &mut bytes)?;
    same(rt, &bytes, &case.plaintext, case.name);
    Ok(())
}

#[test]
fn encrypt(rt: HostRuntime) -> Result<(), Fail> {
    for line in CASES {
        encrypts(&rt, &Case::parse(rt.alloc(), line)?)?;
    }
    Ok(())
}

#[test]
fn new_mask(rt: HostRuntime) {
    let mask = Key::new(rfc_9001::A_5_KEY).new_mask(rfc_9001::A_5_SAMPLE);
    same(&rt, &mask, &rfc_9001::A_5_MASK, "the mask");
}

fn zeros() -> Nonce {
    Nonce::assume_unique_for_key([0; NONCE_LEN])
}

/// Returns the first bytes of the block for a key, a nonce and a block counter of zeros.
fn block_of_zeros<const N: usize>(alloc: Global) -> Result<[u8; N], Fail> {
    let case = Case::parse(alloc, A_1_VECTOR_1)?;
    let block = case.ciphertext.as_slice();
    Ok(*block.first_chunk::<N>().ok_or("a block's length")?)
}

/// Encrypts at most a block under a key, a nonce and a block counter of zeros.
fn encrypt_zeros(buffer: &mut [u8])
    requires { length buffer.old ≤ 64 }
{
    let counter = Counter::from_nonce_and_ctr(zeros(), 0);
    Key::new([0; KEY_LEN]).encrypt(counter, Overlapping::from(buffer));
}

#[test]
fn rfc_8439_a_1_vector_1(rt: HostRuntime) -> Result<(), Fail> {
    let mut block = [0; BLOCK_LEN];
    encrypt_zeros(&mut block);
    same(
        &rt,
        &block,
        &block_of_zeros::<BLOCK_LEN>(rt.alloc())?,
        "the block",
    );
    let wanted = block_of_zeros::<16>(rt.alloc())?;
    let mut front = [0; 16];
    encrypt_zeros(&mut front);
    same(&rt, &front, &wanted, "its first bytes");
    Ok(())
}

#[test]
fn block_0_and_a_mask(rt: HostRuntime) -> Result<(), Fail> {
    let wanted = block_of_zeros::<16>(rt.alloc())?;
    let key = Key::new([0; KEY_LEN]);
    let mut block = [0; 16];
    let one = key.encrypt_single_block_with_ctr_0(zeros(), &mut block);
    same(&rt, &block, &wanted, "block 0");
    words_are(&rt, one, &[1, 0, 0, 0]);
    same(&rt, &key.new_mask([0; 16]), &wanted[..5], "the mask");
    Ok(())
}

#[test]
fn the_input_is_259_bytes_after_the_output(rt: HostRuntime) -> Result<(), Fail> {
    let mut buffer = [0x7b; 275];
    buffer[259..].fill(0);
    let in_out = Overlapping::new(&mut buffer[..], 259..)?;
    Key::new([0; KEY_LEN]).encrypt(Counter::from_nonce_and_ctr(zeros(), 0), in_out);
    let wanted = block_of_zeros::<16>(rt.alloc())?;
    same(&rt, &buffer[..16], &wanted, "the output");
    same(&rt, &buffer[16..259], &[0x7b; 243], "between them");
    same(&rt, &buffer[259..], &[0; 16], "the input stays");
    Ok(())
}

/// The block at the last block counter for the key of RFC 8439 section 2.3.2 and the nonce 01 02 .. 0c, computed by OpenSSL.
const LAST_BLOCK: [u8; BLOCK_LEN] = [
    0xc4, 0xe9, 0xbc, 0x95, 0x85, 0x5b, 0xfc, 0x7f, 0x54, 0x56, 0xe7, 0x9b, 0x23, 0x56, 0x44, 0x22,
    0xa6, 0x62, 0xe1, 0x95, 0x20, 0x8f, 0xc8, 0xa7, 0xd2, 0x4b, 0xd6, 0xc3, 0x5a, 0x36, 0x65, 0x73,
    0x68, 0x8f, 0xeb, 0xc5, 0x4e, 0xad, 0xe6, 0x8b, 0xc3, 0xd3, 0xe3, 0x52, 0x9d, 0xce, 0xc5, 0x8a,
    0xc7, 0x34, 0x40, 0x10, 0x7f, 0xf9, 0x02, 0x1d, 0xef, 0xca, 0x77, 0x1a, 0xd3, 0x82, 0x5c, 0x3d,
];

#[test]
fn the_block_at_the_last_counter(rt: HostRuntime) {
    let key = Key::new(KEY);
    let nonce = Nonce::assume_unique_for_key([1, 2, 3, 4, 5, 6, 7, 8, 9, 10, 11, 12]);
    let mut buffer = [0; BLOCK_LEN];
    key.encrypt(
        Counter::from_nonce_and_ctr(nonce, u32::MAX),
        Overlapping::from(&mut buffer[..]),
    );
    same(&rt, &buffer, &LAST_BLOCK, "the block");
    let mask = key.new_mask([
        0xff, 0xff, 0xff, 0xff, 1, 2, 3, 4, 5, 6, 7, 8, 9, 10, 11, 12,
    ]);
    same(&rt, &mask, &LAST_BLOCK[..5], "the mask");
}

/// Asserts that a counter has these words.
fn words_are(rt: &impl Abort, counter: Counter, wanted: &[u32; 4]) {
    equal(rt, counter.into_words_less_safe(), *wanted, "the words");
}

#[test]
fn words_of_counters(rt: HostRuntime) {
    let nonce = || Nonce::assume_unique_for_key(BLOCK_NONCE);
    words_are(
        &rt,
        Counter::from_nonce_and_ctr(nonce(), 1),
        &[1, 0x0900_0000, 0x4a00_0000, 0],
    );
    let (zero, one) = Counter::zero_one_less_safe(nonce());
    words_are(&rt, zero, &[0, 0x0900_0000, 0x4a00_0000, 0]);
    words_are(&rt, one, &[1, 0x0900_0000, 0x4a00_0000, 0]);
}

#[test]
fn words_of_a_key(rt: HostRuntime) {
    let wanted = [
        0x0302_0100,
        0x0706_0504,
        0x0b0a_0908,
        0x0f0e_0d0c,
        0x1312_1110,
        0x1716_1514,
        0x1b1a_1918,
        0x1f1e_1d1c,
    ];
    equal(&rt, *Key::new(KEY).words_less_safe(), wanted, "the words");
}
