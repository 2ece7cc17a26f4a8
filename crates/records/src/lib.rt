//! The record layer of TLS 1.3 (RFC 8446 section 5), with AES-GCM, under a key and an IV or under the traffic secret from
//! which both are derived.
//!
//! A protected record is a header of 5 bytes and the encrypted record: the content, its type and zeros as padding, sealed under
//! the number of the record with the header as AAD. `Writer` and `Reader` are the two ends of one direction. A
//! `connection::Connection` is one end of a connection after the handshake, and has a `Reader` and a `Writer`. `RECORDS.md`,
//! beside the README, has the format byte by byte.
#![tactic(auto)]

mod alert;
pub mod connection;
mod content_type;
mod header;
mod inner;
mod key;
pub mod laws;
mod reader;
mod record_error;
mod side;
mod stream;
mod writer;

use aead_ciphers::aead::MAX_TAG_LEN;
pub use alert::{CLOSE_NOTIFY, fatal_alert, plaintext_alert};
pub use content_type::ContentType;
pub use header::{MAX_ENCRYPTED_LEN, header_of};
pub use inner::{last_nonzero, write_type_and_padding};
pub use key::RecordKey;
pub use reader::{EarlyData, Reader};
pub use record_error::RecordError;
pub use side::Side;
pub use stream::{Begins, RecordKind, classify};
pub use tls_messages::AlertDescription;
pub use writer::Writer;

/// The length of a header in bytes.
pub const HEADER_LEN: usize = 5;

/// The longest content of a record in bytes, including its padding, when no lower size limit is set (RFC 8446 section 5.1).
pub const MAX_CONTENT_LEN: usize = 16384;

/// The lowest size limit in bytes (RFC 8449 section 4).
pub const MIN_SIZE_LIMIT: usize = 64;

/// The highest and the default size limit in bytes: a content and its type (RFC 8446 section 5.4).
pub const MAX_SIZE_LIMIT: usize = 16385;

/// The default limit on the records that a writer seals under one key. It is below the 2^24.5 records that keep a margin of
/// safety with AES-GCM (RFC 8446 section 5.5).
pub const DEFAULT_LIMIT: u64 = 1 << 24;

/// The length of a tag in bytes.
const TAG_LEN: usize = MAX_TAG_LEN;

/// The length of a record in bytes without its content and its padding: a header, a content type and a tag.
const RECORD_OVERHEAD: usize = HEADER_LEN + 1 + TAG_LEN;
