//! The modules of tests, and what they share.

mod captured;
mod checks;
mod connection;
mod content;
mod early_data;
mod examples;
mod messages;
mod post_handshake;
mod receiving;
mod record_layer;
mod secrets;
mod sending;
mod stream;
