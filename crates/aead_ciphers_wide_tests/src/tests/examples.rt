//! Example callers, whose contracts are proved from the contracts of the libraries alone.

pub mod pieces;
pub mod session;
