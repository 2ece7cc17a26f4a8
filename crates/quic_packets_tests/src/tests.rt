//! The modules of tests, and what they share.

mod checks;
mod connection;
mod datagram;
mod error;
mod example;
mod examples;
mod first_packets;
mod header_writer;
mod keys;
mod numbers;
mod receiver;
mod retry;
mod rfc_9369;
mod rows;
mod secrets;
mod sender;
