//! The text of a value.

use std::alloc::{AllocError, Global};
use std::fmt::Display;

/// Returns what the value displays.
pub fn displayed(alloc: Global, value: &impl Display) -> Result<String, AllocError> {
    format!(in alloc; "{value}")
}
