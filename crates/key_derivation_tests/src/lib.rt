//! Tests of the public interface of `key_derivation`: vectors of the standards, and values by python's `hmac` and `hashlib`.
#![tactic(auto)]

#[cfg(test)]
mod tests;
