//! Test vectors of public standards, as lines of text: a module for each source. What a contract cites, and short parts of a
//! packet, are arrays.
#![tactic(auto)]

pub mod fips_197;
pub mod gcm_spec;
pub mod rfc_8439;
pub mod rfc_8448;
pub mod rfc_9001;
pub mod rfc_9369;
pub mod sp_800_38a;
pub mod words;
