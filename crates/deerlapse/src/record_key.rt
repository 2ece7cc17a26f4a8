//! A `deerlapse_record_key`: a key that seals and opens the records of TLS 1.3 by their numbers (RFC 8446 section 5.2), and the
//! traffic secrets that it is derived from (sections 7.2 and 7.3).

ghost use Rattle.std.specs.Prelude.{◌≡◌, ◌≢◌, ◌+◌, ◌-◌, ◌^◌, ◌≤◌, ◌↔◌, length, take, IsTrue, IsFalse};
ghost use Rattle.aead_ciphers_base.specs.Aes.{aes};
ghost use Rattle.aead_ciphers.specs.Counting.{xored_nonce};
ghost use Rattle.aead_ciphers.specs.Gcm.{gcm_sealed, tag_len, OpenedAttached};
ghost use Rattle.aead_ciphers_wide.specs.ExpandedKey.{bytes_of};
ghost use Rattle.aead_ciphers_wide.specs.Width.{width_bits};
ghost use Rattle.key_derivation.specs.Tls.{next_traffic_secret};
ghost use Rattle.records.specs.Record.{header, plaintext};
ghost use Rattle.deerlapse.specs.AesKey.{HasRounds, IsKeyOrNone};
ghost use Rattle.deerlapse.specs.TrafficKey.{DerivesRecordKey, InitializesTrafficKey, IsDigestLen, IsInner, IsPayloadLen, secret_of, zero_traffic_key};

use crate::key::{deerlapse_key_open, deerlapse_key_seal, has_rounds, width};
use crate::traffic_key::{TrafficKey, secret_of};
use aead_ciphers::aead::{MAX_TAG_LEN, NONCE_LEN, nonce_of};
use aead_ciphers_wide::aes::Width;
use records::{MAX_ENCRYPTED_LEN, MAX_SIZE_LIMIT, header_of, last_nonzero, write_type_and_padding};

/// Initializes a key from its bytes and its IV. Its previous bytes are not read.
///
/// Returns false if the key does not have 16 or 32 bytes.
#[unsafe(no_mangle)]
pub extern "C" fn deerlapse_record_key_init(
    key: &mut TrafficKey,
    bytes: &[u8],
    iv: &[u8; NONCE_LEN],
) -> bool
    ensures { InitializesTrafficKey bytes.now iv.now key.old result key.new }
{
    key.init(bytes, iv, width())
}

/// Initializes a key with the key and the IV of a traffic secret (RFC 8446 section 7.3). Its previous bytes are not read.
///
/// Returns false if the secret does not have 32 or 48 bytes.
#[unsafe(no_mangle)]
pub extern "C" fn deerlapse_record_key_from_secret(key: &mut TrafficKey, secret: &[u8]) -> bool
    ensures { DerivesRecordKey secret.now key.old result key.new }
{
    init_from_secret(key, secret, width())
}

/// Does the same as `deerlapse_record_key_from_secret`, for planes of this width.
pub(crate) fn init_from_secret(key: &mut TrafficKey, secret: &[u8], width: Width) -> bool
    ensures derives { DerivesRecordKey secret.now key.old result key.new }
    ensures width { IsTrue result → key.new.key.width ≡ width_bits width }
{
    let Some(secret) = secret_of(secret) else {
        return false
    };
    let keys = secret.record_keys();
    key.init(keys.key.as_slice(), &keys.iv, width)
}

/// Overwrites a traffic secret with the one after a KeyUpdate (RFC 8446 section 7.2).
///
/// Returns false if the secret does not have 32 or 48 bytes.
#[unsafe(no_mangle)]
pub extern "C" fn deerlapse_tls_next_secret(secret: &mut [u8]) -> bool
    ensures accepted { IsTrue result ↔ IsDigestLen (length secret.old) }
    ensures next { IsTrue result
        → secret.new ≡ (next_traffic_secret (secret_of secret.old)).bytes }
    ensures refused { IsFalse result → secret.new ≡ secret.old }
{
    let Some(first) = secret_of(secret) else {
        return false
    };
    secret.copy_from_slice(first.next_traffic().as_slice());
    true
}

/// Seals in place the payload of the record with this number, which is all of the record but its header (RFC 8446 section 5.2).
/// The content is the first `content_len` bytes of `payload`. Its type, zeros as padding and the tag replace the bytes after it,
/// of which there are at least 17. The AAD is the header of a record whose payload has this length.
///
/// Returns false if the key is all zeros, if the type is 0, or if `payload` is too short for the content or is longer than
/// 2^14 + 17 bytes.
#[unsafe(no_mangle)]
pub extern "C" fn deerlapse_record_key_seal(
    key: &TrafficKey,
    number: u64,
    content_type: u8,
    payload: &mut [u8],
    content_len: usize,
) -> bool
    requires { IsKeyOrNone key.now.key }
    ensures accepted { IsTrue result ↔ (HasRounds key.now.key × (content_type ≢ 0)
        × (content_len + 1 + tag_len ≤ length payload.old) × (length payload.old ≤ 2 ^ 14 + 1 + tag_len)) }
    ensures sealed { IsTrue result → payload.new
        ≡ gcm_sealed (aes (bytes_of key.now.key)) (xored_nonce key.now.iv number)
        (header (length payload.old)) (plaintext (take content_len payload.old) content_type
        (length payload.old - (1 + tag_len) - content_len)) }
    ensures refused { IsFalse result → payload.new ≡ payload.old }
{
    let len = payload.len();
    let fits = len <= MAX_SIZE_LIMIT + MAX_TAG_LEN
        && len > MAX_TAG_LEN
        && content_len < len - MAX_TAG_LEN;
    if content_type == 0 || !fits || !has_rounds(&key.key) {
        return false;
    }
    let (inner, tag) = payload.split_at_mut(len - MAX_TAG_LEN);
    write_type_and_padding(inner, content_type, content_len);
    let nonce = nonce_of(&key.iv, number);
    let mut made = [0; MAX_TAG_LEN];
    let sealed = deerlapse_key_seal(&key.key, nonce.as_ref(), &header_of(len), inner, &mut made);
    tag.copy_from_slice(&made);
    sealed
}

/// Opens in place the payload of the record with this number, which is all of the record but its header (RFC 8446 section 5.2),
/// and writes the type and the length of its content. The content is then at the front of `payload`. The AAD is the header of a
/// record whose payload has this length. If the record is authentic and its inner plaintext is all zeros, it has no type: the
/// type and the length are then 0.
///
/// The call counts nothing: it is the caller's responsibility to know which numbers were opened before.
///
/// Returns false if the tag is wrong, if the key is all zeros, or if `payload` has fewer than 17 or more than 2^14 + 256 bytes.
#[unsafe(no_mangle)]
pub extern "C" fn deerlapse_record_key_open(
    key: &TrafficKey,
    number: u64,
    payload: &mut [u8],
    content_type: &mut u8,
    content_len: &mut usize,
) -> bool
    requires { IsKeyOrNone key.now.key }
    ensures filled { IsTrue result → HasRounds key.now.key × IsPayloadLen (length payload.old) }
    ensures opened { HasRounds key.now.key × IsPayloadLen (length payload.old)
        → OpenedAttached (aes (bytes_of key.now.key)) (xored_nonce key.now.iv number)
        (header (length payload.old)) 0 payload.old result payload.new }
    ensures content { IsTrue result → IsInner
        (take (length payload.old - tag_len) payload.new) content_type.new content_len.new }
    ensures refused { IsFalse result → (payload.new ≡ payload.old)
        × (content_type.new ≡ content_type.old) × (content_len.new ≡ content_len.old) }
{
    let len = payload.len();
    if len <= MAX_TAG_LEN || len > MAX_ENCRYPTED_LEN {
        return false;
    }
    let nonce = nonce_of(&key.iv, number);
    let mut inner_len = 0;
    if !deerlapse_key_open(
        &key.key,
        nonce.as_ref(),
        &header_of(len),
        payload,
        0,
        &mut inner_len,
    ) {
        return false;
    }
    (*content_type, *content_len) = last_nonzero(&payload[..inner_len]).unwrap_or((0, 0));
    true
}

/// Overwrites a key with zeros. Every call under it then returns false.
#[unsafe(no_mangle)]
pub extern "C" fn deerlapse_record_key_wipe(key: &mut TrafficKey)
    ensures { key.new ≡ zero_traffic_key }
{
    key.wipe();
}
