//! Tests of the public interface of `aead_ciphers_wide`: external test vectors, and that its keys make the same bytes as
//! those of `aead_ciphers`. `examples` has a caller, and `example_callers` its test.
#![tactic(auto)]

#[cfg(test)]
mod tests;
