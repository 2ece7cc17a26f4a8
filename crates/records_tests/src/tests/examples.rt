//! Example callers, whose contracts are proved from the contracts of the libraries alone.

pub mod handshake_messages;
pub mod record_stream;
