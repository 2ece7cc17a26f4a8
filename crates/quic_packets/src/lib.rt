//! Packet protection of QUIC versions 1 and 2 (RFC 9000 section 17, RFC 9001 sections 5 and 6, RFC 9369), under the keys of a
//! secret or keys that the caller derives.
//!
//! A packet is one slice: the header, which ends with the packet number, the payload, and 16 bytes for the tag. `LongHeader`
//! and `ShortHeader` write a header, and `Sender` sends a packet in one call. `packet_at` finds the parts of a packet in its
//! datagram, and `Receiver` receives the packet. `connection` has a sender and a receiver for each encryption level of a
//! connection. `PacketKey`, `HeaderKey` and `numbers` are the steps of which sending and receiving consist. `laws` states what
//! follows from the contracts over runs of calls.
#![tactic(auto)]

mod codes;
pub mod connection;
mod datagram;
mod failures;
mod first_byte;
mod fixed_bit;
mod header;
mod header_writer;
mod key;
mod key_error;
mod keys;
pub mod laws;
mod mask_error;
mod number_error;
pub mod numbers;
mod packet;
mod receive_error;
mod receiver;
mod retry;
mod send_error;
mod sender;
mod skipped;
mod space;
mod suite;
mod versions;

pub use datagram::{DatagramError, Packet, PacketType, packet_at};
pub use failures::{Failures, INTEGRITY_LIMIT};
pub use fixed_bit::FixedBit;
pub use header::{HeaderKey, SAMPLE_LEN};
pub use header_writer::{HeaderError, LongHeader, LongType, ShortHeader};
pub use key::{PacketKey, TAG_LEN};
pub use key_derivation::Suite;
pub use key_derivation::quic::{QuicSecret, Version};
pub use key_error::KeyError;
pub use keys::Keys;
pub use mask_error::MaskError;
pub use number_error::NumberError;
pub use receive_error::ReceiveError;
pub use receiver::{Received, Receiver};
pub use retry::{RetryError, is_genuine_retry, retry_tag};
pub use send_error::SendError;
pub use sender::{CONFIDENTIALITY_LIMIT, Sender};
pub use space::{Ranges, Space};
pub use suite::{algorithm, header_algorithm};
