//! Tests of `quic_packets`, one module for each of its modules, except that `keys` tests `key` and `header`, and `first_packets`
//! the callers in `examples`, and `rfc_9369` version 2. `rows` contains packets made by `tools/quic-packets`.
#![tactic(auto)]

#[cfg(test)]
mod tests;
