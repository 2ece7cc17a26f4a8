//! Messages under nonces of 24 bytes that the caller draws at random for each of them.

ghost use Rattle.std.specs.Prelude.{◌≡◌, ◌-◌, is_ok, IfOk, OnOk, OnErr, length};
ghost use Rattle.xaes.specs.Xaes.{XaesOpenedAttached, xaes_sealed};

use aead_ciphers::aead::{Aad, Unspecified};
use xaes::{XAES_NONCE_LEN, XNonce, Xaes256Gcm};

/// Seals a message, and appends its tag.
pub fn seal(
    key: &Xaes256Gcm,
    random: [u8; XAES_NONCE_LEN],
    aad: &[u8],
    message: &mut Vec<u8>,
) -> Result<(), Unspecified>
    ensures sealed { OnOk result (message.new.items ≡ xaes_sealed key.now random aad.now message.old.items) }
    ensures refused { OnErr result (message.new.items ≡ message.old.items) }
{
    let nonce = XNonce::assume_unique_for_key(random);
    key.seal_in_place_append_tag(nonce, Aad::from(aad), message)
}

/// Opens what `seal` sealed, and returns the length of the message.
pub fn open(
    key: &Xaes256Gcm,
    random: [u8; XAES_NONCE_LEN],
    aad: &[u8],
    sealed: &mut [u8],
) -> Result<usize, Unspecified>
    ensures opened { XaesOpenedAttached key.now random aad.now 0 sealed.old (is_ok result) sealed.new }
    ensures len { IfOk result (λ n. n ≡ length sealed.old - 16) }
{
    let nonce = XNonce::assume_unique_for_key(random);
    key.open_in_place_to_front(nonce, Aad::from(aad), sealed)
}
