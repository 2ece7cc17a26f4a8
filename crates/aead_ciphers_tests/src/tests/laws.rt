//! Tests of `laws`: modified messages, and arguments that reach the bounds of the laws.

ghost use Rattle.std.specs.Prelude.{◌≡◌, ◌≢◌, ℕ, ◌<◌, List, [], ◌∷◌, ◌++◌, length, replicate, IsErr};
ghost use Rattle.aead_ciphers_base.specs.Aes.{aes};
ghost use Rattle.aead_ciphers_base.specs.Bytes.{◌⊕◌, zero_block};
ghost use Rattle.aead_ciphers.specs.Different.{DifferInOneBlock, DifferWhenPadded, HasInverse};
ghost use Rattle.aead_ciphers.specs.Gcm.{Fits, hashed, gcm_tag};
ghost use Rattle.aead_ciphers.specs.Ghash.{IsBlock, ghash, unit_block};

use crate::tests::checks::{equal, holds, same};
use aead_ciphers::aead::{AES_128_GCM, Aad, LessSafeKey, Nonce, Tag, UnboundKey, Unspecified};
use aead_ciphers::gcm::{self, UpdateBlock, Xi};
use aead_ciphers::laws;
use aead_ciphers_base::aes::{self, Block, EncryptBlock, KeyBytes, Work, ZERO_BLOCK};
use aead_vectors::gcm_spec::{CASE_2_H, CASE_4, Case};
use std::process::Abort;
use std::test::Fail;

// The unit block, which is the identity of the product.
const UNIT_BLOCK: Block = [0x80, 0, 0, 0, 0, 0, 0, 0, 0, 0, 0, 0, 0, 0, 0, 0];

/// A sealed message, with its key and nonce.
#[derive(Drop)]
struct Sealed<'a> {
    key: &'a [u8; 16],
    nonce: [u8; 12],
    aad: &'a [u8],
    ciphertext: &'a [u8],
    tag: [u8; 16],
}

/// Opens another message with the key, the nonce and the tag of a sealed message.
///
/// Fails and leaves the buffer unchanged if the hash subkey isn't zero, and the messages have equal lengths and
/// differ in exactly one hashed block.
fn open_changed(sealed: &Sealed<'_>, aad: &[u8], in_out: &mut [u8]) -> Result<usize, Unspecified>
    requires fits { Fits (length sealed.now.aad.now) (length sealed.now.ciphertext.now) }
    requires other_fits { Fits (length aad.now) (length in_out.old) }
    ensures { let before = sealed.now in let key = before.key.now
        in before.tag ≡ gcm_tag (aes key) before.nonce before.aad.now before.ciphertext.now
        → aes key zero_block ≢ zero_block
        → length before.aad.now ≡ length aad.now → length before.ciphertext.now ≡ length in_out.old
        → DifferInOneBlock (hashed before.aad.now before.ciphertext.now) (hashed aad.now in_out.old)
        → IsErr result × (in_out.new ≡ in_out.old) }
{
    let key_bytes = sealed.key;
    let key = aes::Key::new(KeyBytes::AES_128(key_bytes))?;
    laws::has_inverse(key.encrypt_block(ZERO_BLOCK, &mut Work::new()));
    let sealed_aad = sealed.aad;
    let ciphertext = sealed.ciphertext;
    laws::one_changed_block(key_bytes, sealed.nonce, sealed_aad, ciphertext, aad, in_out);
    let key = LessSafeKey::new(UnboundKey::new(&AES_128_GCM, key_bytes)?);
    let nonce = Nonce::assume_unique_for_key(sealed.nonce);
    let tag = Tag::from(sealed.tag);
    key.open_in_place_separate_tag_to_front(nonce, Aad::from(aad), tag, in_out, 0..)
}

/// Asserts that a message other than the sealed one is rejected and the buffer is unchanged.
fn is_refused(rt: &impl Abort, sealed: &Sealed<'_>, aad: &[u8; 20], ciphertext: [u8; 60])
    requires { Fits (length sealed.now.aad.now) (length sealed.now.ciphertext.now) }
{
    let mut in_out = ciphertext;
    let opened = open_changed(sealed, aad, &mut in_out);
    holds(rt, opened.is_err(), "the message is refused");
    same(rt, &in_out, &ciphertext, "the buffer");
}

/// Returns the bytes with one of them replaced.
fn replaced<const N: usize>(
    rt: &impl Abort,
    bytes: &[u8; N],
    place: usize,
    old: u8,
    new: u8,
) -> [u8; N]
    requires { place < N }
{
    let mut bytes = *bytes;
    equal(rt, bytes[place], old, "the byte that is replaced");
    bytes[place] = new;
    bytes
}

#[test]
fn gcm_spec_case_4_with_a_byte_replaced(rt: HostRuntime) -> Result<(), Fail> {
    let case = Case::parse(rt.alloc(), CASE_4)?;
    let key = case
        .key
        .as_slice()
        .as_array::<16>()
        .ok_or("the key's length")?;
    let aad = case
        .aad
        .as_slice()
        .as_array::<20>()
        .ok_or("the AAD's length")?;
    let ciphertext = case
        .ciphertext
        .as_slice()
        .as_array::<60>()
        .ok_or("the ciphertext's length")?;
    let sealed = Sealed {
        key,
        nonce: case.nonce,
        aad,
        ciphertext,
        tag: case.tag,
    };
    is_refused(&rt, &sealed, aad, replaced(&rt, ciphertext, 59, 0x91, 0x90));
    let other_aad = replaced(&rt, aad, 0, 0xfe, 0xff);
    is_refused(&rt, &sealed, &other_aad, *ciphertext);
    Ok(())
}

// Two hash subkeys, zero and the unit block, under which two unit blocks and two zero blocks have the same
// GHASH. There are as many subkeys as blocks.
fn two_keys_of_two_blocks()
    ensures differ { DifferWhenPadded (unit_block ∷ unit_block ∷ [])
        (zero_block ∷ zero_block ∷ []) }
    ensures apart { HasInverse (zero_block ⊕ unit_block) }
    ensures zero { ghash zero_block (unit_block ∷ unit_block ∷ [])
        ⊕ ghash zero_block (zero_block ∷ zero_block ∷ []) ≡ zero_block }
    ensures unit { ghash unit_block (unit_block ∷ unit_block ∷ [])
        ⊕ ghash unit_block (zero_block ∷ zero_block ∷ []) ≡ zero_block }
{
    laws::has_inverse(UNIT_BLOCK);
    laws::few_hash_keys(
        &[UNIT_BLOCK; 2],
        &[ZERO_BLOCK; 2],
        ZERO_BLOCK,
        &[ZERO_BLOCK, UNIT_BLOCK],
    );
}

// The XOR of the GHASHes of the unit block and of no block is the hash subkey: one subkey for each XOR.
fn one_key_of_one_block()
    ensures { (h : List ℕ) → IsBlock h → ghash h (unit_block ∷ []) ⊕ ghash h [] ≡ h }
{
    laws::few_hash_keys(&[UNIT_BLOCK], &[], UNIT_BLOCK, &[UNIT_BLOCK]);
}

// Two hash subkeys, zero and the unit block, under which ciphertexts of 15 and of 16 bytes have the same GHASH.
// There are as many subkeys as blocks in the longer hashed list.
fn two_subkeys_of_two_messages()
    ensures zero { ghash zero_block (hashed [] (replicate 15 0))
        ≡ ghash zero_block (hashed [] (replicate 15 0 ++ 0xf8 ∷ [])) }
    ensures unit { ghash unit_block (hashed [] (replicate 15 0))
        ≡ ghash unit_block (hashed [] (replicate 15 0 ++ 0xf8 ∷ [])) }
{
    let ciphertext = [0; 15];
    let mut other_ciphertext = [0; 16];
    other_ciphertext[15] = 0xf8;
    laws::different_messages(&[], &ciphertext, &[], &other_ciphertext);
    laws::few_subkeys_accept(
        &[],
        &ciphertext,
        ZERO_BLOCK,
        &[],
        &other_ciphertext,
        ZERO_BLOCK,
        &[ZERO_BLOCK, UNIT_BLOCK],
    );
}

/// Asserts the GHASH of blocks under a hash subkey.
fn hashes(rt: &impl Abort, subkey: Block, blocks: &[Block], wanted: Block) {
    let key = gcm::Key::new(gcm::KeyValue::new(subkey));
    let mut xi = Xi::zero();
    for block in blocks {
        key.update_block(&mut xi, *block, &mut Work::new());
    }
    same(rt, xi.as_ref(), &wanted, "the GHASH");
}

/// Returns a block with only its last byte other than zero.
fn ends_in(last: u8) -> Block {
    let mut block = ZERO_BLOCK;
    block[15] = last;
    block
}

// The contracts of these functions are proved. The hashes that they name are computed: under the unit block the sum of the
// blocks, and under zero, zero.
#[test]
fn bounds_are_reached(rt: HostRuntime) {
    two_keys_of_two_blocks();
    for subkey in [ZERO_BLOCK, UNIT_BLOCK] {
        hashes(&rt, subkey, &[UNIT_BLOCK; 2], ZERO_BLOCK);
        hashes(&rt, subkey, &[ZERO_BLOCK; 2], ZERO_BLOCK);
    }
    one_key_of_one_block();
    hashes(&rt, UNIT_BLOCK, &[UNIT_BLOCK], UNIT_BLOCK);
    hashes(&rt, CASE_2_H, &[UNIT_BLOCK], CASE_2_H);
    two_subkeys_of_two_messages();
    for (subkey, hash) in [(ZERO_BLOCK, ZERO_BLOCK), (UNIT_BLOCK, ends_in(0x78))] {
        hashes(&rt, subkey, &[ZERO_BLOCK, ends_in(0x78)], hash);
        hashes(&rt, subkey, &[ends_in(0xf8), ends_in(0x80)], hash);
    }
}
