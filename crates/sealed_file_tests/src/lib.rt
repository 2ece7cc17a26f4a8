//! Tests of the public interface of `sealed_file`: files that python's `cryptography` sealed, files that do not open, streams
//! that fail, and printed text. `examples` has callers, and `example_callers` their test.
#![tactic(auto)]

#[cfg(test)]
mod tests;
