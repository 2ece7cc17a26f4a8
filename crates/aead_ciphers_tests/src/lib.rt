//! Tests of the public interface of `aead_ciphers`: external test vectors, printed text, and properties that no contract
//! states. `examples` has callers, and `example_callers` their tests.
#![tactic(auto)]

#[cfg(test)]
mod tests;
