//! A `deerlapse_opener`: an AES-GCM key that opens what a sealer sealed, in the order of the numbers or by a number that the
//! caller knows.

ghost use Rattle.std.specs.Prelude.{◌≡◌, ◌+◌, ◌-◌, ◌<◌, length, IsTrue, IsFalse};
ghost use Rattle.aead_ciphers_base.specs.Aes.{aes};
ghost use Rattle.aead_ciphers.specs.Counting.{xored_nonce};
ghost use Rattle.aead_ciphers.specs.Gcm.{tag_len, OpenedAttached};
ghost use Rattle.deerlapse.specs.AesKey.{HasRounds, IsKeyOrNone};
ghost use Rattle.deerlapse.specs.NumberedKey.{InitializesNumberedKey, key_of, next_nonce, zero_numbered_key};

use crate::key::{deerlapse_key_open, width};
use crate::numbered_key::NumberedKey;
use aead_ciphers::aead::{NONCE_LEN, nonce_of};

/// Initializes an opener of the messages with the numbers from `first` up to `limit`, exclusive. Its previous bytes are not read.
///
/// Returns false if the key does not have 16 or 32 bytes, or if `first` is above `limit`.
#[unsafe(no_mangle)]
pub extern "C" fn deerlapse_opener_init(
    opener: &mut NumberedKey,
    key: &[u8],
    iv: &[u8; NONCE_LEN],
    first: u64,
    limit: u64,
) -> bool
    ensures { InitializesNumberedKey key.now iv.now first limit opener.old result opener.new }
{
    opener.init(key, iv, first, limit, width())
}

/// Returns the number of the message that is opened next in order.
#[unsafe(no_mangle)]
pub extern "C" fn deerlapse_opener_next(opener: &NumberedKey) -> u64
    ensures { result ≡ opener.now.next }
{
    opener.next
}

/// Does the same as `deerlapse_open` under the nonce of the next number, and then counts the number up by one.
///
/// Returns false if no number is left, if the opener is all zeros, or if `deerlapse_open` does. The number is not counted up
/// then, so the message with this number can still be opened.
#[unsafe(no_mangle)]
pub extern "C" fn deerlapse_opener_open(
    opener: &mut NumberedKey,
    aad: &[u8],
    in_out: &mut [u8],
    start: usize,
    plaintext_len: &mut usize,
) -> bool
    requires { IsKeyOrNone opener.old.key }
    ensures filled { IsTrue result
        → HasRounds opener.old.key × (opener.old.next < opener.old.limit) }
    ensures opened { HasRounds opener.old.key × (opener.old.next < opener.old.limit)
        → OpenedAttached (aes (key_of opener.old)) (next_nonce opener.old) aad.now start in_out.old
        result in_out.new }
    ensures count { IsTrue result → plaintext_len.new ≡ length in_out.old - tag_len - start }
    ensures counted { IsTrue result
        → opener.new ≡ record opener.old { next = opener.old.next + 1 } }
    ensures refused { IsFalse result → (in_out.new ≡ in_out.old)
        × (plaintext_len.new ≡ plaintext_len.old) × (opener.new ≡ opener.old) }
{
    if opener.next >= opener.limit
        || !deerlapse_opener_open_number(opener, opener.next, aad, in_out, start, plaintext_len)
    {
        return false;
    }
    opener.next += 1;
    true
}

/// Does the same as `deerlapse_open` under the nonce of a number that the caller knows, for example from a packet.
///
/// The call counts nothing: it is the caller's responsibility to know which numbers were opened before.
///
/// Returns false if the opener is all zeros, or if `deerlapse_open` does.
#[unsafe(no_mangle)]
pub extern "C" fn deerlapse_opener_open_number(
    opener: &NumberedKey,
    number: u64,
    aad: &[u8],
    in_out: &mut [u8],
    start: usize,
    plaintext_len: &mut usize,
) -> bool
    requires { IsKeyOrNone opener.now.key }
    ensures filled { IsTrue result → HasRounds opener.now.key }
    ensures opened { HasRounds opener.now.key
        → OpenedAttached (aes (key_of opener.now)) (xored_nonce opener.now.iv number) aad.now start
        in_out.old result in_out.new }
    ensures count { IsTrue result → plaintext_len.new ≡ length in_out.old - tag_len - start }
    ensures refused { IsFalse result
        → (in_out.new ≡ in_out.old) × (plaintext_len.new ≡ plaintext_len.old) }
{
    let nonce = nonce_of(&opener.iv, number);
    deerlapse_key_open(
        &opener.key,
        nonce.as_ref(),
        aad,
        in_out,
        start,
        plaintext_len,
    )
}

/// Overwrites an opener with zeros. It then opens nothing.
#[unsafe(no_mangle)]
pub extern "C" fn deerlapse_opener_wipe(opener: &mut NumberedKey)
    ensures { opener.new ≡ zero_numbered_key }
{
    opener.wipe();
}
