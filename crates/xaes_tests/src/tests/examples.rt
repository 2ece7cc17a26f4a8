//! An example caller, which `README.md` of the library quotes. Its contracts are proved from those of the library alone.

pub mod random_nonces;
