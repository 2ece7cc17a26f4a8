//! Vectors of the ChaCha20 stream, of HMAC and of HKDF.

use crate::NoAnswer;
use aead_ciphers::aead::Nonce;
use aead_ciphers::aeadrun::text;
use aead_ciphers_base::chacha::{Counter, KEY_LEN, Key};
use aead_ciphers_base::overlapping::Overlapping;
use key_derivation::hash::Hash;
use key_derivation::{hkdf as of_hkdf, hmac as of_hmac};
use std::alloc::Global;
use std::convert::AsSlice;

/// The most bytes of a message, far fewer than the stream has.
const MAX_LEN: usize = 1 << 16;

/// XORs a message with the stream from block 1 on (RFC 8439 section 2.4), and returns it.
#[tactic(auto, using(std::proofs::lemmas::Grind::div_ceil_times))]
pub(crate) fn chacha20(
    alloc: Global,
    key: &[u8],
    iv: &[u8],
    in_out: &mut [u8],
) -> Result<String, NoAnswer> {
    if in_out.len() > MAX_LEN {
        return Err(NoAnswer::Refused);
    }
    let nonce = Nonce::try_assume_unique_for_key(iv)?;
    let key = key.first_chunk::<KEY_LEN>().ok_or(NoAnswer::Refused)?;
    let counter = Counter::from_nonce_and_ctr(nonce, 1);
    Key::new(*key).encrypt(counter, Overlapping::from(&mut *in_out));
    Ok(text(alloc, in_out)?)
}

/// The number that these bytes are, from the highest on.
fn number(bytes: &[u8]) -> Result<usize, NoAnswer> {
    match bytes {
        [high, low] => Ok(usize::from(u16::from_be_bytes([*high, *low]))),
        _ => Err(NoAnswer::NoVector),
    }
}

/// Returns the first `len` bytes of the code of a message (RFC 2104).
pub(crate) fn hmac<H: Hash>(
    alloc: Global,
    key: &[u8],
    message: &[u8],
    len: &[u8],
) -> Result<String, NoAnswer> {
    let code = of_hmac::hmac::<H>(key, message);
    let code = code
        .as_slice()
        .get(..number(len)?)
        .ok_or(NoAnswer::Refused)?;
    Ok(text(alloc, code)?)
}

/// Returns whether this is the whole code of a message.
pub(crate) fn verify<H: Hash>(
    alloc: Global,
    key: &[u8],
    message: &[u8],
    code: &[u8],
) -> Result<String, NoAnswer> {
    let key = of_hmac::HmacKey::<H>::new(key);
    let mut hasher = key.start();
    hasher.update(message);
    let is_right = key.verify(hasher, code);
    Ok(format!(in alloc; "{is_right}")?)
}

/// Returns `len` bytes of output keying material (RFC 5869 sections 2.2 and 2.3).
pub(crate) fn hkdf<H: Hash>(
    alloc: Global,
    ikm: &[u8],
    salt: &[u8],
    info: &[u8],
    len: &[u8],
) -> Result<String, NoAnswer> {
    let mut okm = Vec::new(alloc);
    okm.resize(number(len)?, 0)?;
    let prk = of_hkdf::extract::<H>(salt, ikm);
    of_hkdf::expand::<H>(prk.as_slice(), info, &mut okm)?;
    Ok(text(alloc, &okm)?)
}
