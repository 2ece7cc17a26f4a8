//! The program `test_vectors`: reads test vectors on standard input, one a line, and writes a line with the result of each.
#![tactic(auto)]

mod gcm;
mod others;

use aead_ciphers::aead::Unspecified;
use aead_ciphers::aeadrun::bytes;
use key_derivation::DerivationError;
use sha2::{Sha256, Sha384};
use std::alloc::{AllocError, Global};
use std::io::{self, BufRead, BufReader, BufWriter, Write};
use std::str::SplitWhitespace;

/// The reason why a vector has no result.
#[derive(Drop)]
enum NoAnswer {
    /// The line is no vector, or memory was refused.
    NoVector,
    /// A call refuses the length of a key, a nonce, a tag or an output.
    Refused,
}

impl From<Unspecified> for NoAnswer {
    fn from(_error: Unspecified) -> NoAnswer {
        NoAnswer::Refused
    }
}

impl From<DerivationError> for NoAnswer {
    fn from(_error: DerivationError) -> NoAnswer {
        NoAnswer::Refused
    }
}

impl From<AllocError> for NoAnswer {
    fn from(_error: AllocError) -> NoAnswer {
        NoAnswer::NoVector
    }
}

fn main(rt: HostRuntime) -> io::Result<()> {
    let mut output = BufWriter::new(rt.alloc(), io::writer(&rt))?;
    for line in BufReader::new(rt.alloc(), rt.reader())?.lines(rt.alloc()) {
        match response_to_line(rt.alloc(), line?.as_str()) {
            Ok(text) => writeln!(output, "{text}")?,
            Err(NoAnswer::Refused) => writeln!(output, "refused")?,
            Err(NoAnswer::NoVector) => writeln!(output, "bad line")?,
        }
    }
    output.flush()
}

/// Returns the response to a line.
fn response_to_line(alloc: Global, line: &str) -> Result<String, NoAnswer> {
    let mut words = line.split_whitespace();
    let verb = words.next().ok_or(NoAnswer::NoVector)?;
    let mut fields = fields(alloc, words)?;
    response(alloc, verb, &mut fields)
}

/// Reads words: bytes in hex, or `-` for none.
fn fields(alloc: Global, words: SplitWhitespace<'_>) -> Result<Vec<Vec<u8>>, NoAnswer> {
    let mut fields = Vec::new(alloc);
    for word in words {
        fields
            .push(field(alloc, word)?)
            .map_err(|_| NoAnswer::NoVector)?;
    }
    Ok(fields)
}

/// Reads a word.
fn field(alloc: Global, word: &str) -> Result<Vec<u8>, NoAnswer> {
    bytes(alloc, word)?.ok_or(NoAnswer::NoVector)
}

/// Makes the call that the verb names.
fn response(alloc: Global, verb: &str, fields: &mut [Vec<u8>]) -> Result<String, NoAnswer> {
    match (verb, fields) {
        ("seal", [key, iv, aad, in_out]) => gcm::seal_by_both(alloc, key, iv, aad, in_out),
        ("open", [key, iv, aad, in_out, tag]) => {
            gcm::open_by_both(alloc, key, iv, aad, in_out, tag)
        }
        ("chacha20", [key, iv, in_out]) => others::chacha20(alloc, key, iv, in_out),
        ("hmac_sha_256", [key, text, len]) => others::hmac::<Sha256>(alloc, key, text, len),
        ("hmac_sha_384", [key, text, len]) => others::hmac::<Sha384>(alloc, key, text, len),
        ("verify_sha_256", [key, text, code]) => others::verify::<Sha256>(alloc, key, text, code),
        ("verify_sha_384", [key, text, code]) => others::verify::<Sha384>(alloc, key, text, code),
        ("hkdf_sha_256", [ikm, salt, info, len]) => {
            others::hkdf::<Sha256>(alloc, ikm, salt, info, len)
        }
        ("hkdf_sha_384", [ikm, salt, info, len]) => {
            others::hkdf::<Sha384>(alloc, ikm, salt, info, len)
        }
        _ => Err(NoAnswer::NoVector),
    }
}
