//! The count of packets that have failed authentication (RFC 9001 section 6.6).

ghost use Rattle.std.specs.Prelude.{◌≡◌, ◌≢◌, ◌+◌, ◌^◌, ◌<◌, ◌≤◌, ◌↔◌, IsTrue, min};

use crate::receive_error::ReceiveError;
use std::marker::Model;

/// The integrity limit of AES-GCM: the packets that may fail authentication, over all keys of a connection (RFC 9001 section
/// 6.6).
pub const INTEGRITY_LIMIT: u64 = 1 << 52;

/// The number of packets that have failed authentication, over all keys of a connection, and the limit of that number.
///
/// Once the limit is reached, every packet is rejected and the connection must be closed (RFC 9001 section 6.6).
#[derive(Drop)]
pub struct Failures {
    count: u64,
    limit: u64,
}

impl Model for Failures {
    ghost use Rattle.std.specs.Prelude.{◌^◌, ◌≤◌};
    ghost use Rattle.quic_packets.specs.Failures.{Failures};

    ghost Value = { Failures };

    ghost view = { λ failures. record { count = failures.count; limit = failures.limit } };

    ghost invariant = { λ failures. failures.limit ≤ 2 ^ 52 };
}

impl Failures {
    /// Creates a count of 0 with the limit of AES-GCM: 2^52 packets.
    pub fn new() -> Self
        ensures { result ≡ record { count = 0; limit = 2 ^ 52 } }
    {
        Failures {
            count: 0,
            limit: INTEGRITY_LIMIT,
        }
    }

    /// Lowers the limit to `limit`. A higher limit has no effect.
    pub fn with_limit(mut self, limit: u64) -> Self
        ensures { result ≡ record self { limit = min self.limit limit } }
    {
        self.limit = self.limit.min(limit);
        self
    }

    /// Returns the number of packets that have failed authentication.
    pub fn count(&self) -> u64
        ensures { result ≡ self.now.count }
    {
        self.count
    }

    /// Returns whether the limit is reached. Every packet is then rejected.
    pub fn is_at_limit(&self) -> bool
        ensures { IsTrue result ↔ (self.now.limit ≤ self.now.count) }
    {
        self.count >= self.limit
    }

    /// Counts one more failure if the error is `Refused`, that of a packet that isn't authentic.
    pub(crate) fn count_if_refused(&mut self, error: ReceiveError)
        requires { self.old.count < self.old.limit }
        ensures failed { error ≡ ReceiveError.Refused → self.new ≡ record self.old { count = self.old.count + 1 } }
        ensures others { error ≢ ReceiveError.Refused → self.new ≡ self.old }
    {
        if let ReceiveError::Refused = error {
            self.count += 1;
        }
    }
}
