//! The errors that calls fail with: `Unspecified`, and three that hold an index or a length.

ghost use Rattle.std.specs.Prelude.{◌≡◌, ℕ};

mod input_too_long;

pub use input_too_long::InputTooLongError;
use std::error::Error;
use std::fmt;
use std::marker::Model;

/// The error of a call that gives no reason for its failure.
#[derive(Clone, Copy, PartialEq, Eq, Debug)]
pub struct Unspecified;

/// Displays as `unspecified error`.
impl fmt::Display for Unspecified {
    ghost use Rattle.std.specs.Prelude.{Some, codes};

    ghost output = { λ _. Some (codes "unspecified error") };

    fn fmt<W: fmt::Write>(&self, f: &mut fmt::Formatter<W>) -> fmt::Result {
        f.write_str("unspecified error")
    }
}

impl Error for Unspecified {}

/// The error returned when a start or a block does not lie within its input.
#[derive(Clone, Copy, PartialEq, Eq, Debug)]
pub struct IndexError(usize);

impl Model for IndexError {
    ghost Value = { ℕ };

    ghost view = { λ e. e.0 };

    ghost inverse = { λ n. record { 0 = n } };
}

impl IndexError {
    /// Creates the error for a start, or for a number of items.
    pub fn new(index: usize) -> Self
        ensures { result ≡ index }
    {
        IndexError(index)
    }

    /// Returns the start, or the number of items, that was asked for.
    pub fn value(self) -> usize
        ensures { result ≡ self }
    {
        let IndexError(value) = self;
        value
    }
}

/// Displays as `index out of range`.
impl fmt::Display for IndexError {
    ghost use Rattle.std.specs.Prelude.{Some, codes};

    ghost output = { λ _. Some (codes "index out of range") };

    fn fmt<W: fmt::Write>(&self, f: &mut fmt::Formatter<W>) -> fmt::Result {
        f.write_str("index out of range")
    }
}

impl Error for IndexError {}

/// The error returned when an input does not have the length that was asked for.
#[derive(Clone, Copy, PartialEq, Eq, Debug)]
pub struct LenMismatchError(usize);

impl Model for LenMismatchError {
    ghost Value = { ℕ };

    ghost view = { λ e. e.0 };

    ghost inverse = { λ n. record { 0 = n } };
}

impl LenMismatchError {
    /// Creates the error for the length that was asked for, in items.
    pub fn new(len: usize) -> Self
        ensures { result ≡ len }
    {
        LenMismatchError(len)
    }

    /// Returns the length that was asked for, in items.
    pub fn value(self) -> usize
        ensures { result ≡ self }
    {
        let LenMismatchError(value) = self;
        value
    }
}

/// Displays as `length mismatch`.
impl fmt::Display for LenMismatchError {
    ghost use Rattle.std.specs.Prelude.{Some, codes};

    ghost output = { λ _. Some (codes "length mismatch") };

    fn fmt<W: fmt::Write>(&self, f: &mut fmt::Formatter<W>) -> fmt::Result {
        f.write_str("length mismatch")
    }
}

impl Error for LenMismatchError {}
