//! The sentence with which docs/CLAIMS.md begins, as the contracts of functions: over every library whose calls have the clauses
//! of `library`, and over the keys of `aead_ciphers` and of `aead_ciphers_wide`.
//!
//! Read `calls` first, whose contract is the sentence about lists of calls, and then `bound` and `one_key`, which have it for one
//! call. They are proved from the traits of `library` alone. `keys` shows that the types of `aead_ciphers` have these traits over
//! any expanded key, and `plain` and `wide` say the sentence for the keys of each library. `values` says what nonces, AAD, tags
//! and jobs hold, which the calls take and return, and how long the keys of the algorithms are.
#![tactic(auto)]

pub mod bound;
pub mod calls;
pub mod keys;
pub mod library;
pub mod one_key;
pub mod plain;
pub mod values;
pub mod wide;
