//! Two ends of a connection, each with a key that counts its own nonces.

ghost use Rattle.std.specs.Prelude.{◌≡◌, ◌+◌, ◌-◌, ◌^◌, ◌<◌, ◌≤◌, ◌↔◌, ◌⊎◌, [], length, take, vec_capacity, vec_len, is_ok, IsOk, IfOk, OnOk, OnErr};
ghost use Rattle.aead_ciphers.specs.Aes.{aes};
ghost use Rattle.aead_ciphers.specs.Algorithm.{key_len};
ghost use Rattle.aead_ciphers.specs.Counting.{next_nonce, prefixed_nonce};
ghost use Rattle.aead_ciphers.specs.Gcm.{Fits, gcm_decrypted, gcm_encrypted, gcm_sealed, gcm_tag, OpenedAttached};
ghost use Rattle.aead_ciphers_tests.specs.BoundKey.{advanced};

use aead_ciphers::aead::{
    Aad, Algorithm, BoundKey, CounterSequence, OpeningKey, SealingKey, Tag, UnboundKey, Unspecified,
};

/// The number of nonces of a connection: 2^32, numbered from 0.
const NONCES: u64 = 0x1_0000_0000;

/// Creates the key of the end that seals. The key of the other end has the same bytes and prefix.
pub fn sender(
    algorithm: &'static Algorithm,
    key_bytes: &[u8],
    prefix: [u8; 4],
) -> Result<SealingKey<CounterSequence>, Unspecified>
    ensures accepted { IsOk result ↔ (length key_bytes.now ≡ key_len algorithm.now) }
    ensures key { IfOk result (λ key. key.key ≡ record { algorithm = algorithm.now; bytes = key_bytes.now }) }
    ensures sequence { IfOk result (λ key. key.sequence ≡ record { fixed = prefix; first = 0; count = 2 ^ 32; used = 0 }) }
{
    let sequence = CounterSequence::new(prefix, 0, NONCES)?;
    Ok(SealingKey::new(UnboundKey::new(algorithm, key_bytes)?, sequence))
}

/// Creates the key of the end that opens what the key of `sender` sealed, in the same order.
pub fn receiver(
    algorithm: &'static Algorithm,
    key_bytes: &[u8],
    prefix: [u8; 4],
) -> Result<OpeningKey<CounterSequence>, Unspecified>
    ensures accepted { IsOk result ↔ (length key_bytes.now ≡ key_len algorithm.now) }
    ensures key { IfOk result (λ key. key.key ≡ record { algorithm = algorithm.now; bytes = key_bytes.now }) }
    ensures sequence { IfOk result (λ key. key.sequence ≡ record { fixed = prefix; first = 0; count = 2 ^ 32; used = 0 }) }
{
    let sequence = CounterSequence::new(prefix, 0, NONCES)?;
    Ok(OpeningKey::new(UnboundKey::new(algorithm, key_bytes)?, sequence))
}

/// Seals the next message and appends its tag.
pub fn send(
    key: &mut SealingKey<CounterSequence>,
    aad: &[u8],
    message: &mut Vec<u8>,
) -> Result<(), Unspecified>
    ensures sealed { OnOk result (message.new.items ≡ gcm_sealed (aes key.old.key.bytes)
        (next_nonce prefixed_nonce key.old.sequence) aad.now message.old.items) }
    ensures grown { OnOk result (length message.new.items ≡ length message.old.items + 16) }
    ensures counted { OnOk result (key.new ≡ advanced key.old) }
    ensures refused { OnErr result (message.new.items ≡ message.old.items) }
    ensures after_error { OnErr result ((key.new ≡ key.old) ⊎ (key.new ≡ advanced key.old)) }
    ensures accepted { key.old.sequence.used < key.old.sequence.count
        → Fits (length aad.now) (vec_len message.old)
        → vec_len message.old + 16 ≤ vec_capacity message.old → IsOk result }
{
    key.seal_in_place_append_tag(Aad::from(aad), message)
}

/// Seals the next message and returns its tag. Succeeds if and only if a nonce is left.
pub fn send_apart(
    key: &mut SealingKey<CounterSequence>,
    message: &mut [u8],
) -> Result<Tag, Unspecified>
    requires { length message.old ≤ 1000000 }
    ensures accepted { IsOk result ↔ (key.old.sequence.used < key.old.sequence.count) }
    ensures counted { OnOk result (key.new ≡ advanced key.old) }
    ensures ciphertext { OnOk result (message.new ≡ gcm_encrypted (aes key.old.key.bytes)
        (next_nonce prefixed_nonce key.old.sequence) message.old) }
    ensures tag { IfOk result (λ tag. tag ≡ gcm_tag (aes key.old.key.bytes)
        (next_nonce prefixed_nonce key.old.sequence) [] message.new) }
    ensures refused { OnErr result ((key.new ≡ key.old) × (message.new ≡ message.old)) }
{
    key.seal_in_place_separate_tag(Aad::empty(), message)
}

/// Opens the next message and returns the length of the plaintext, which is then at the front of the buffer. A rejected
/// message consumes its nonce too.
pub fn receive(
    key: &mut OpeningKey<CounterSequence>,
    aad: &[u8],
    message: &mut [u8],
) -> Result<usize, Unspecified>
    ensures nonces_left { IsOk result → key.old.sequence.used < key.old.sequence.count }
    ensures opened { key.old.sequence.used < key.old.sequence.count → OpenedAttached (aes key.old.key.bytes)
        (next_nonce prefixed_nonce key.old.sequence) aad.now 0 message.old (is_ok result) message.new }
    ensures count { IfOk result (λ n. n ≡ length message.old - 16) }
    ensures plaintext { OnOk result (take (length message.old - 16) message.new ≡ gcm_decrypted (aes key.old.key.bytes)
        (next_nonce prefixed_nonce key.old.sequence) (take (length message.old - 16) message.old)) }
    ensures counted { key.old.sequence.used < key.old.sequence.count
        → key.new ≡ advanced key.old }
    ensures used_up { key.old.sequence.count ≤ key.old.sequence.used → key.new ≡ key.old }
    ensures refused { OnErr result (message.new ≡ message.old) }
{
    key.open_in_place_to_front(Aad::from(aad), message)
}
