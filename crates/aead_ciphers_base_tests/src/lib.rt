//! Tests of the public interface of `aead_ciphers_base`, and of the lines of `aead_vectors`: external test vectors, printed text,
//! and properties that no contract states.
#![tactic(auto)]

#[cfg(test)]
mod tests;
