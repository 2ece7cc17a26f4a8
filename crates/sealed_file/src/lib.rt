//! Sealed files: a header and the file in chunks of 64 KiB, each sealed by AES-256-GCM under a key derived for the file. The
//! nonce is the file's prefix, the chunk's number and whether it is the last (STREAM). `SEALED_FILE.md`, beside the README, has
//! the format.
#![tactic(auto)]

mod aad;
mod chunk;
mod derivation;
mod error;
mod header;
mod in_memory;
mod key;
pub mod laws;
mod opening;
mod passphrase;
mod random;
mod random_access;
mod read_at;
mod reader;
mod sealing;
mod stream;

pub use self::aad::MAX_AAD_LEN;
pub use self::chunk::{CHUNK_LEN, MAX_CHUNKS, SEALED_CHUNK_LEN};
pub use self::error::FileError;
pub use self::header::{
    CONTEXT_LEN, Context, HEADER_LEN, MAGIC, PREFIX_LEN, RANDOM_LEN, VERSION, check_header,
};
pub use self::in_memory::{open_bytes, seal_bytes};
pub use self::key::FileKey;
pub use self::opening::{open, open_with_aad};
pub use self::passphrase::{
    ITERATIONS, MAX_ITERATIONS, PASSPHRASE_HEADER_LEN, PASSPHRASE_VERSION, iterations_in,
    open_with_passphrase, seal_with_passphrase,
};
pub use self::random::FileRandom;
pub use self::random_access::{open_chunk_at, plaintext_len};
pub use self::read_at::ReadAt;
pub use self::reader::SealedReader;
pub use self::sealing::{seal, seal_with_aad};
