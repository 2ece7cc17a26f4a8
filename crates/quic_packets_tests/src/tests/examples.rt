//! Example callers, which READMEs quote. The contract of each is proved from the contracts of the libraries alone.

pub mod first_initial;
pub mod initial_keys;
