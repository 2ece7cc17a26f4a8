//! Tests of the public interfaces of `records` and `tls_messages`: records of OpenSSL and of Python's `cryptography`, whole
//! connections, printed text, and properties that no contract states. `examples` has callers, which `stream` tests.
#![tactic(auto)]

#[cfg(test)]
mod tests;
