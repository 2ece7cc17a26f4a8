//! A `deerlapse_quic_key`: a key that seals and opens the payloads of QUIC's packets by their numbers (RFC 9001 section 5.3), and
//! the secrets that it is derived from (RFC 9001 sections 5.1, 5.2 and 6.1, RFC 9369 section 3.3).

ghost use Rattle.std.specs.Prelude.{◌≡◌, ◌-◌, ◌^◌, ◌<◌, ◌≤◌, ◌↔◌, length, IsTrue, IsFalse, IsSome, IfSome};
ghost use Rattle.aead_ciphers_base.specs.Aes.{aes};
ghost use Rattle.aead_ciphers.specs.Counting.{xored_nonce};
ghost use Rattle.aead_ciphers.specs.Gcm.{Fits, gcm_encrypted, gcm_tag, tag_len, OpenedAttached};
ghost use Rattle.aead_ciphers_wide.specs.ExpandedKey.{bytes_of};
ghost use Rattle.aead_ciphers_wide.specs.Width.{width_bits};
ghost use Rattle.key_derivation.specs.Quic.{client_initial_secret, next_quic_secret, numbered_version, server_initial_secret};
ghost use Rattle.deerlapse.specs.AesKey.{HasRounds, IsKeyOrNone};
ghost use Rattle.deerlapse.specs.TrafficKey.{DerivesQuicKey, InitializesTrafficKey, IsDigestLen, IsPacketKey, quic_secret_of, zero_traffic_key};

use crate::key::{deerlapse_key_open, deerlapse_key_seal, width};
use crate::traffic_key::{SHA_256_LEN, TrafficKey, secret_of};
use aead_ciphers::aead::{MAX_TAG_LEN, NONCE_LEN, nonce_of};
use aead_ciphers_wide::aes::Width;
use key_derivation::quic::{QuicSecret, Version};

/// The number after the highest packet number, which is 2^62 - 1 (RFC 9000 section 12.3).
const NUMBERS_END: u64 = 1 << 62;

/// Initializes a key from its bytes and its IV. Its previous bytes are not read.
///
/// Returns false if the key does not have 16 or 32 bytes.
#[unsafe(no_mangle)]
pub extern "C" fn deerlapse_quic_key_init(
    key: &mut TrafficKey,
    bytes: &[u8],
    iv: &[u8; NONCE_LEN],
) -> bool
    ensures { InitializesTrafficKey bytes.now iv.now key.old result key.new }
{
    key.init(bytes, iv, width())
}

/// Initializes a key with the key and the IV of a secret, in the version with this number (RFC 9001 section 5.1, RFC 9369 section
/// 3.3.2). Its previous bytes are not read.
///
/// Returns false if the version is neither 1 nor 2, or if the secret does not have 32 or 48 bytes.
#[unsafe(no_mangle)]
pub extern "C" fn deerlapse_quic_key_from_secret(
    key: &mut TrafficKey,
    version: u32,
    secret: &[u8],
) -> bool
    ensures { DerivesQuicKey IsPacketKey version secret.now key.old result key.new }
{
    init_from_secret(key, version, secret, width())
}

/// Does the same as `deerlapse_quic_key_from_secret`, for planes of this width.
pub(crate) fn init_from_secret(
    key: &mut TrafficKey,
    version: u32,
    secret: &[u8],
    width: Width,
) -> bool
    ensures derives { DerivesQuicKey IsPacketKey version secret.now key.old result key.new }
    ensures width { IsTrue result → key.new.key.width ≡ width_bits width }
{
    let Some(version) = Version::from_number(version) else {
        return false
    };
    let Some(secret) = secret_of(secret) else {
        return false
    };
    let keys = QuicSecret::new(version, secret).packet_keys();
    key.init(keys.key.as_slice(), &keys.iv, width)
}

/// Writes the secrets that protect the Initial packets of a client and of a server. They are derived from the Destination
/// Connection ID of the client's first Initial packet (RFC 9001 section 5.2, RFC 9369 section 3.3.1).
///
/// Returns false if the version is neither 1 nor 2, or if the ID has more than 20 bytes.
#[unsafe(no_mangle)]
pub extern "C" fn deerlapse_quic_initial_secrets(
    version: u32,
    id: &[u8],
    client: &mut [u8; SHA_256_LEN],
    server: &mut [u8; SHA_256_LEN],
) -> bool
    ensures accepted { IsTrue result
        ↔ (IsSome (numbered_version version) × (length id.now ≤ 20)) }
    ensures client { IsTrue result → IfSome (numbered_version version)
        (λ version. client.new ≡ (client_initial_secret version id.now).secret.bytes) }
    ensures server { IsTrue result → IfSome (numbered_version version)
        (λ version. server.new ≡ (server_initial_secret version id.now).secret.bytes) }
    ensures refused { IsFalse result → (client.new ≡ client.old) × (server.new ≡ server.old) }
{
    let Some(version) = Version::from_number(version) else {
        return false
    };
    let (Ok(of_client), Ok(of_server)) = (
        QuicSecret::client_initial(version, id),
        QuicSecret::server_initial(version, id),
    ) else {
        return false
    };
    client.copy_from_slice(of_client.as_slice());
    server.copy_from_slice(of_server.as_slice());
    true
}

/// Overwrites a secret with the one after a key update (RFC 9001 section 6.1, RFC 9369 section 3.3.2).
///
/// Returns false if the version is neither 1 nor 2, or if the secret does not have 32 or 48 bytes.
#[unsafe(no_mangle)]
pub extern "C" fn deerlapse_quic_next_secret(version: u32, secret: &mut [u8]) -> bool
    ensures accepted { IsTrue result
        ↔ (IsSome (numbered_version version) × IsDigestLen (length secret.old)) }
    ensures next { IsTrue result → IfSome (numbered_version version) (λ version. secret.new
        ≡ (next_quic_secret (quic_secret_of secret.old version)).secret.bytes) }
    ensures refused { IsFalse result → secret.new ≡ secret.old }
{
    let Some(version) = Version::from_number(version) else {
        return false
    };
    let Some(first) = secret_of(secret) else {
        return false
    };
    let next = QuicSecret::new(version, first).next();
    secret.copy_from_slice(next.as_slice());
    true
}

/// Encrypts in place the payload of the packet with this number, and writes its tag of 16 bytes (RFC 9001 section 5.3). The AAD
/// is the header, which is not masked yet.
///
/// Returns false if the key is all zeros, if the number is 2^62 or more, or if a length is not one that `deerlapse_seal` takes.
#[unsafe(no_mangle)]
pub extern "C" fn deerlapse_quic_key_seal(
    key: &TrafficKey,
    number: u64,
    header: &[u8],
    payload: &mut [u8],
    tag: &mut [u8; MAX_TAG_LEN],
) -> bool
    requires { IsKeyOrNone key.now.key }
    ensures accepted { IsTrue result ↔ (HasRounds key.now.key × (number < 2 ^ 62)
        × Fits (length header.now) (length payload.old)) }
    ensures ciphertext { IsTrue result → payload.new
        ≡ gcm_encrypted (aes (bytes_of key.now.key)) (xored_nonce key.now.iv number) payload.old }
    ensures tag { IsTrue result → tag.new
        ≡ gcm_tag (aes (bytes_of key.now.key)) (xored_nonce key.now.iv number) header.now payload.new }
    ensures refused { IsFalse result → (payload.new ≡ payload.old) × (tag.new ≡ tag.old) }
{
    if number >= NUMBERS_END {
        return false;
    }
    let nonce = nonce_of(&key.iv, number);
    deerlapse_key_seal(&key.key, nonce.as_ref(), header, payload, tag)
}

/// Opens in place the payload of the packet with this number, whose last 16 bytes are its tag (RFC 9001 section 5.3), and writes
/// the length of the plaintext. The AAD is the header, whose mask is removed already.
///
/// The call counts nothing: it is the caller's responsibility to know which numbers were opened before.
///
/// Returns false if the tag is wrong, if the key is all zeros, if the number is 2^62 or more, or if a length is not one that
/// `deerlapse_open` takes.
#[unsafe(no_mangle)]
pub extern "C" fn deerlapse_quic_key_open(
    key: &TrafficKey,
    number: u64,
    header: &[u8],
    payload: &mut [u8],
    plaintext_len: &mut usize,
) -> bool
    requires { IsKeyOrNone key.now.key }
    ensures filled { IsTrue result → HasRounds key.now.key × (number < 2 ^ 62) }
    ensures opened { HasRounds key.now.key × (number < 2 ^ 62)
        → OpenedAttached (aes (bytes_of key.now.key)) (xored_nonce key.now.iv number) header.now 0
        payload.old result payload.new }
    ensures count { IsTrue result → plaintext_len.new ≡ length payload.old - tag_len }
    ensures refused { IsFalse result
        → (payload.new ≡ payload.old) × (plaintext_len.new ≡ plaintext_len.old) }
{
    if number >= NUMBERS_END {
        return false;
    }
    let nonce = nonce_of(&key.iv, number);
    deerlapse_key_open(&key.key, nonce.as_ref(), header, payload, 0, plaintext_len)
}

/// Overwrites a key with zeros. Every call under it then returns false.
#[unsafe(no_mangle)]
pub extern "C" fn deerlapse_quic_key_wipe(key: &mut TrafficKey)
    ensures { key.new ≡ zero_traffic_key }
{
    key.wipe();
}
