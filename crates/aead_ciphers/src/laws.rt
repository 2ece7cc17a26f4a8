//! Laws that follow from the definitions of AES-GCM and ChaCha20, such as that opening undoes sealing, that sealing spends no
//! nonce twice, and how few hash subkeys accept a forged message.
//!
//! Each function does nothing when it is called; its contract states a law for its arguments.

ghost use Rattle.std.specs.Prelude.{◌≡◌, ◌≢◌, ℕ, ◌^◌, ◌-◌, ◌<◌, ◌≤◌, ◌⊎◌, Bool, List, length, max, vec_len, All, AllPairs};
ghost use Rattle.aead_ciphers_base.specs.Aes.{aes};
ghost use Rattle.aead_ciphers_base.specs.Bytes.{◌⊕◌, zero_block};
ghost use Rattle.aead_ciphers_base.specs.ChaCha20.{chacha20_encrypted};
ghost use Rattle.aead_ciphers.specs.Different.{DifferInOneBlock, DifferWhenPadded, HasInverse, masked_tag};
ghost use Rattle.aead_ciphers.specs.FreshNonces.{GrewFresh, SealCalls};
ghost use Rattle.aead_ciphers.specs.Gcm.{Fits, hashed, sealing_products, gcm_tag};
ghost use Rattle.aead_ciphers.specs.Ghash.{IsBlock, ghash, xor_blocks};
ghost use Rattle.aead_ciphers.specs.Laws.{EachPlace, OpensAgain};

use crate::aead::NonceSequence;
use crate::aead::generic::SealingKey;
use crate::aes_gcm::GcmKey;
use aead_ciphers_base::aes::Block;
use aead_ciphers_base::values::NONCE_LEN;

/// GHASH of the XOR of two equally long lists of blocks is the XOR of their GHASHes, under any hash subkey (SP 800-38D
/// section 6.4).
#[tactic(auto, using(crate::proofs::GhashLaws::ghash_xor, crate::proofs::GhashLaws::sized_from))]
pub fn ghash_sum(h: Block, left: &[Block], right: &[Block])
    requires { length left.now ≡ length right.now }
    ensures { ghash h (xor_blocks left.now right.now) ≡ ghash h left.now ⊕ ghash h right.now }
{}

/// Opening undoes sealing (SP 800-38D section 7.2), for every key and all lists of nonces, AADs and plaintexts.
pub fn round_trip(key: &[u8], nonces: &[[u8; NONCE_LEN]], aads: &[Vec<u8>], messages: &[Vec<u8>])
    requires key_len { (length key.now ≡ 16) ⊎ (length key.now ≡ 32) }
    requires aads_len { length aads.now ≡ length nonces.now }
    requires messages_len { length messages.now ≡ length nonces.now }
    requires aads_fit { All (λ aad. vec_len aad < 2 ^ 61) aads.now }
    requires messages_fit { All (λ message. vec_len message ≤ 2 ^ 36 - 32) messages.now }
    ensures { EachPlace (λ nonce aad message. OpensAgain key.now nonce aad.items message.items)
        nonces.now aads.now messages.now }
{}

/// No nonce is used twice (SP 800-38D section 8): whatever calls take a sealing key from one state to another, the
/// nonces that they consume differ from each other and from all that were consumed before.
#[tactic(auto, using(crate::proofs::FreshLemmas::fresh_calls))]
pub fn no_nonce_twice<K: GcmKey, N: NonceSequence>(
    first: &SealingKey<K, N>,
    last: &SealingKey<K, N>,
)
    ensures { (calls : List (List ℕ × List ℕ)) (answers : List (List ℕ × Bool))
        → SealCalls N.spent N.is_closed first.now last.now calls answers
        → GrewFresh (N.spent first.now.sequence) (N.spent last.now.sequence) }
{}

/// Encrypting twice with ChaCha20, under the same key, counter and nonce, returns the original message (RFC 8439
/// section 2.4).
#[tactic(auto, using(aead_ciphers_base::proofs::KeyStreamLemmas::encrypted_twice))]
pub fn encrypt_twice(key: &[u8; 32], counter: u32, nonce: &[u8; NONCE_LEN], message: &[u8])
    ensures { let ciphertext = chacha20_encrypted key.now counter nonce.now message.now
        in chacha20_encrypted key.now counter nonce.now ciphertext ≡ message.now }
{}

/// If the hash subkey has an inverse, changing exactly one of the blocks that a tag hashes changes the tag (SP 800-38D
/// section 7.1).
///
/// By `Opened`, the changed message is therefore rejected under the old tag and nonce, and the buffer is left
/// unchanged. By `has_inverse`, every hash subkey but zero has an inverse.
pub fn one_changed_block(
    key: &[u8],
    nonce: [u8; NONCE_LEN],
    aad: &[u8],
    ciphertext: &[u8],
    other_aad: &[u8],
    other_ciphertext: &[u8],
)
    requires key_len { (length key.now ≡ 16) ⊎ (length key.now ≡ 32) }
    requires fits { Fits (length aad.now) (length ciphertext.now) }
    requires other_fits { Fits (length other_aad.now) (length other_ciphertext.now) }
    ensures { HasInverse (aes key.now zero_block)
        → length aad.now ≡ length other_aad.now
        → length ciphertext.now ≡ length other_ciphertext.now
        → DifferInOneBlock (hashed aad.now ciphertext.now)
        (hashed other_aad.now other_ciphertext.now)
        → gcm_tag (aes key.now) nonce aad.now ciphertext.now
        ≢ gcm_tag (aes key.now) nonce other_aad.now other_ciphertext.now }
{}

/// If two lists of blocks differ when padded, their GHASHes differ by `sum` under at most as many hash subkeys as the
/// longer list has blocks (SP 800-38D section 6.4).
///
/// `keys` are such hash subkeys; the XOR of any two of them must have an inverse.
#[tactic(auto, using(crate::proofs::FewHashKeys::few_hash_keys))]
pub fn few_hash_keys(left: &[Block], right: &[Block], sum: Block, keys: &[Block])
    ensures { DifferWhenPadded left.now right.now
        → AllPairs (λ h k. HasInverse (h ⊕ k)) keys.now
        → All (λ h. ghash h left.now ⊕ ghash h right.now ≡ sum) keys.now
        → length keys.now ≤ max (length left.now) (length right.now) }
{
    is_block(sum);
    are_blocks(left);
    are_blocks(right);
}

/// If two pairs of an AAD and a ciphertext differ, the lists of blocks that their tags hash differ when padded
/// (SP 800-38D section 7.1 step 5).
#[tactic(auto, using(crate::proofs::DifferentMessages::different_messages))]
pub fn different_messages(aad: &[u8], ciphertext: &[u8], other_aad: &[u8], other_ciphertext: &[u8])
    requires fits { Fits (length aad.now) (length ciphertext.now) }
    requires other_fits { Fits (length other_aad.now) (length other_ciphertext.now) }
    ensures { ¬ ((aad.now ≡ other_aad.now) × (ciphertext.now ≡ other_ciphertext.now))
        → DifferWhenPadded (hashed aad.now ciphertext.now)
        (hashed other_aad.now other_ciphertext.now) }
{}

/// Every block but zero has an inverse: the blocks are a field (SP 800-38D section 6.3).
#[tactic(auto, using(crate::proofs::BlockInverse::has_inverse))]
pub fn has_inverse(block: Block)
    ensures { block ≢ zero_block → HasInverse block }
{
    is_block(block);
}

/// If two pairs of an AAD and a ciphertext differ, `tag` and `other_tag` are their tags under at most as many hash
/// subkeys as the longer hashed list has blocks, whatever mask is used with each subkey (SP 800-38D section 7.1).
///
/// Once a message has been sealed under a nonce, another message and tag are therefore accepted under at most
/// ceil(a / 16) + ceil(n / 16) + 1 of the 2^128 hash subkeys that agree with what was seen, where the longer list is
/// that of a bytes of AAD and n bytes of ciphertext.
#[tactic(auto, using(crate::proofs::FewHashKeys::few_subkeys))]
pub fn few_subkeys_accept(
    aad: &[u8],
    ciphertext: &[u8],
    tag: Block,
    other_aad: &[u8],
    other_ciphertext: &[u8],
    other_tag: Block,
    subkeys: &[Block],
)
    requires fits { Fits (length aad.now) (length ciphertext.now) }
    requires other_fits { Fits (length other_aad.now) (length other_ciphertext.now) }
    ensures { ¬ ((aad.now ≡ other_aad.now) × (ciphertext.now ≡ other_ciphertext.now))
        → AllPairs (λ h k. h ≢ k) subkeys.now
        → All (λ h. (mask : List ℕ) × IsBlock mask
        × (tag ≡ masked_tag h mask aad.now ciphertext.now)
        × (other_tag ≡ masked_tag h mask other_aad.now other_ciphertext.now)) subkeys.now
        → length subkeys.now ≤ max (sealing_products (length aad.now) (length ciphertext.now))
        (sealing_products (length other_aad.now) (length other_ciphertext.now)) }
{
    is_block(tag);
    is_block(other_tag);
    are_blocks(subkeys);
}

/// The numbers of a block are bytes.
fn is_block(block: Block)
    ensures { IsBlock block }
{}

/// The numbers of each block are bytes.
fn are_blocks(blocks: &[Block])
    ensures { All IsBlock blocks.now }
{
    for block in blocks {
        is_block(*block);
    }
}
