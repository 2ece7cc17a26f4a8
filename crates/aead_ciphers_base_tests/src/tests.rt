//! The modules of tests, and what they share.

mod aes;
mod bb;
mod chacha;
mod checks;
mod chunks;
mod errors;
mod items;
mod overlapping;
mod values;
mod words;
