//! Tests of the public interface of `xaes`: the vectors of the specification, messages that are opened again, and messages that
//! are refused. `examples` has callers, and `example_callers` their test.
#![tactic(auto)]

#[cfg(test)]
mod tests;
