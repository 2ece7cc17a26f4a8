//! The words of a line of `aeadrun` that represent bytes and numbers.
ghost use Rattle.std.specs.Prelude.{◌≡◌, ◌↔◌, ◌<◌, ◌%◌, length, option_map, Some, IsSome, IfSome, IfOk, OnErr};
ghost use Rattle.std.specs.Result.{result_ok};
ghost use Rattle.std.specs.String.{string_bytes};
ghost use Rattle.std.specs.Str.Parse.{digits_value};
ghost use Rattle.hex.specs.Hex.{decode_sized};
ghost use Rattle.aead_ciphers.specs.Words.{IsBytesWord, IsNumberWord, bytes_of_word, word_of_bytes};

use hex::{FromHex, FromHexError};
use std::alloc::{AllocError, Global};

/// The word that represents no bytes.
const NO_BYTES: &str = "-";

/// The maximum number of digits of a number.
const MAX_DIGITS: usize = 20;

/// Returns the bytes that a word represents, or `None` if it represents none: `-` is no bytes, and otherwise each byte
/// is two hex digits in either case.
///
/// # Errors
///
/// Fails with `AllocError` if memory for the bytes is refused.
#[tactic(auto, using(crate::proofs::HexWords::decoded))]
pub fn bytes(alloc: Global, word: &str) -> Result<Option<Vec<u8>>, AllocError>
    ensures accepted { IfOk result (λ read. IsSome read ↔ IsBytesWord word.now) }
    ensures value { IfOk result (λ read. option_map (λ v. v.items) read ≡ bytes_of_word word.now) }
    ensures wants_memory { OnErr result ((0 < length word.now) × (length word.now % 2 ≡ 0)) }
{
    if word.is_empty() {
        return Ok(None);
    }
    if word == NO_BYTES {
        return Ok(Some(Vec::new(alloc)));
    }
    match hex::decode(alloc, word) {
        Ok(bytes) => Ok(Some(bytes)),
        Err(error) => match error {
            FromHexError::OutOfMemory => Err(AllocError),
            _ => Ok(None),
        },
    }
}

/// Returns the `N` bytes that a word of `2 * N` hex digits represents, or `None` if the word is not of this form.
pub(super) fn hex_array<const N: usize>(word: &str) -> Option<[u8; N]>
    ensures { result ≡ result_ok (decode_sized word.now N) }
{
    <[u8; N]>::from_hex(word).ok()
}

/// Returns the word that represents `bytes`: lower case hex digits, or `-` if there are no bytes.
///
/// # Errors
///
/// Fails with `AllocError` if memory for the word is refused.
pub fn text(alloc: Global, bytes: &[u8]) -> Result<String, AllocError>
    ensures lower_hex { IfOk result (λ word. string_bytes word ≡ word_of_bytes bytes.now) }
    ensures reads_back { IfOk result (λ word. bytes_of_word (string_bytes word) ≡ Some bytes.now) }
{
    if bytes.is_empty() {
        return String::from_str(alloc, NO_BYTES);
    }
    hex::encode(alloc, bytes)
}

/// Returns the number that a word of decimal digits represents, or `None` if it represents none.
pub(super) fn decimal_number(word: &str) -> Option<u64>
    ensures accepted { IsSome result ↔ IsNumberWord word.now }
    ensures value { IfSome result (λ n. n ≡ digits_value 10 word.now) }
{
    if word.len() > MAX_DIGITS || word.starts_with('+') {
        return None;
    }
    word.parse().ok()
}
