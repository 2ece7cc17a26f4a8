//! Bytes in hex.

use std::fmt::{self, Debug};

/// Bytes that print in hex, so that a failed comparison can be read.
#[derive(Drop, PartialEq)]
pub struct Hex<'a>(pub &'a [u8]);

impl Debug for Hex<'_> {
    fn fmt<W: fmt::Write>(&self, f: &mut fmt::Formatter<W>) -> fmt::Result {
        for byte in self.0 {
            write!(f, "{byte:02x}")?;
        }
        Ok(())
    }
}
