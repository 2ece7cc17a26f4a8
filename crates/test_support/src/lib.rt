//! What the test crates share: a stream that fails, bytes that print in hex, the text that a value displays, a counter mode of one
//! block at a time, messages, and what sealing makes of them.
#![tactic(auto)]

pub mod failing_streams;
pub mod hex;
pub mod messages;
pub mod one_block;
pub mod reference;
pub mod text;
