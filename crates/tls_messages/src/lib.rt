//! Handshake messages of TLS 1.3 (RFC 8446 section 4), joined from the contents of the records that they are cut into, and the
//! alerts that end a connection (section 6).
//!
//! Read `MessageReader` first. Programs in Rust take the package `deerlapse`, whose paths the examples have.
// `docs/guide/RATTLE.md` has examples in Rattle.
#![tactic(auto)]

mod alert;
pub mod laws;
mod message_error;
mod message_reader;
pub mod message_type;
mod stage;

pub use alert::AlertDescription;
pub use message_error::MessageError;
pub use message_reader::MessageReader;
pub use stage::Stage;

/// The length of a message's header in bytes: the type of the message, and the length of its body (RFC 8446 section 4).
pub const MESSAGE_HEADER_LEN: usize = 4;

/// The length of a KeyUpdate in bytes, including its header (RFC 8446 section 4.6.3).
pub const KEY_UPDATE_LEN: usize = 5;
