//! The reasons why a connection receives nothing more, with the alert that each calls for.

ghost use Rattle.std.specs.Prelude.{◌≡◌};
ghost use Rattle.records.specs.Handling.{received_alert};

use crate::record_error::RecordError;
use std::alloc::{AllocError, AllocFailed};
use thiserror::Error;
use tls_messages::{AlertDescription, MessageError};

/// Why a connection receives nothing more.
#[derive(Clone, Copy, Debug, PartialEq, Eq, Drop, Error)]
pub enum ReceiveError {
    /// A record is rejected.
    #[error("a record is rejected: {0}")]
    Record(RecordError),
    /// A handshake message is rejected, or a record that is between its parts.
    #[error("a handshake message is rejected: {0}")]
    Message(MessageError),
    /// The peer has sent this alert, which is an error whatever its level (RFC 8446 section 6).
    #[error("the peer has sent alert {0}")]
    Alert(u8),
    /// More KeyUpdates came in a row than may, without data between them (RFC 8446 section 4.6.3).
    #[error("too many KeyUpdates came in a row")]
    TooManyKeyUpdates,
    /// Allocating memory for what was received failed.
    #[error("no memory for what was received")]
    OutOfMemory,
    /// The connection received close_notify before, or failed.
    #[error("the connection receives nothing more")]
    Ended,
}

impl ReceiveError {
    /// Returns the alert that ends the connection, or `None` if the peer has ended it. It is `internal_error` for `OutOfMemory`
    /// (RFC 8446 section 6.2).
    pub fn alert(self) -> Option<AlertDescription>
        ensures { result ≡ received_alert self }
    {
        match self {
            ReceiveError::Record(error) => error.alert(),
            ReceiveError::Message(error) => error.alert(),
            ReceiveError::TooManyKeyUpdates => Some(AlertDescription::UnexpectedMessage),
            ReceiveError::OutOfMemory => Some(AlertDescription::InternalError),
            ReceiveError::Alert(_) | ReceiveError::Ended => None,
        }
    }
}

impl From<RecordError> for ReceiveError {
    ghost use Rattle.std.specs.Prelude.{◌≡◌};
    ghost use Rattle.records.specs.declared.connection.receive_error.ReceiveError.TheVariants.{Record};

    ghost from_gives = { λ from error. error ≡ Record from };

    fn from(error: RecordError) -> Self {
        ReceiveError::Record(error)
    }
}

impl From<MessageError> for ReceiveError {
    ghost use Rattle.std.specs.Prelude.{◌≡◌};
    ghost use Rattle.records.specs.declared.connection.receive_error.ReceiveError.TheVariants.{Message};

    ghost from_gives = { λ from error. error ≡ Message from };

    fn from(error: MessageError) -> Self {
        ReceiveError::Message(error)
    }
}

impl From<AllocError> for ReceiveError {
    ghost use Rattle.std.specs.Prelude.{◌≡◌};
    ghost use Rattle.records.specs.declared.connection.receive_error.ReceiveError.TheVariants.{OutOfMemory};

    ghost from_gives = { λ _ error. error ≡ OutOfMemory };

    fn from(_error: AllocError) -> Self {
        ReceiveError::OutOfMemory
    }
}

impl<T: Drop> From<AllocFailed<T>> for ReceiveError {
    ghost use Rattle.std.specs.Prelude.{◌≡◌};
    ghost use Rattle.records.specs.declared.connection.receive_error.ReceiveError.TheVariants.{OutOfMemory};

    ghost from_gives = { λ _ error. error ≡ OutOfMemory };

    fn from(_error: AllocFailed<T>) -> Self {
        ReceiveError::OutOfMemory
    }
}
