//! The error for an input that is too long.

ghost use Rattle.std.specs.Prelude.{◌≡◌};

use std::error::Error;
use std::fmt;
use std::marker::Model;

/// The error returned when an input is longer than the call allows.
#[derive(Clone, Copy, PartialEq, Eq, Debug)]
pub struct InputTooLongError<T = usize>(T);

impl<T> Model for InputTooLongError<T> {
    ghost Value = { T };

    ghost view = { λ e. e.0 };

    ghost inverse = { λ n. record { 0 = n } };
}

impl<T> InputTooLongError<T> {
    /// Creates the error for the length of the input, in items.
    pub fn new(imprecise_input_length: T) -> Self
        ensures { result ≡ imprecise_input_length }
    {
        InputTooLongError(imprecise_input_length)
    }

    /// Returns the length of the input, in items.
    pub fn value(self) -> T
        ensures { result ≡ self }
    {
        let InputTooLongError(value) = self;
        value
    }
}

/// Displays as `input too long`.
impl<T> fmt::Display for InputTooLongError<T> {
    ghost use Rattle.std.specs.Prelude.{Some, codes};

    ghost output = { λ _. Some (codes "input too long") };

    fn fmt<W: fmt::Write>(&self, f: &mut fmt::Formatter<W>) -> fmt::Result {
        f.write_str("input too long")
    }
}

impl<T: fmt::Debug + Drop> Error for InputTooLongError<T> {}
