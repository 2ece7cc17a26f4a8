//! The two sides of a connection, and the size limit that each takes from the peer's RecordSizeLimit (RFC 8449 section 4).

ghost use Rattle.std.specs.Prelude.{◌≡◌, ◌+◌, ◌^◌, ◌≤◌, ◌↔◌, min, IsOk, IfOk, IsOkUnless};

use crate::record_error::RecordError;
use crate::{MAX_SIZE_LIMIT, MIN_SIZE_LIMIT};

/// A side of a connection.
#[derive(Clone, Copy, Debug, PartialEq, Eq)]
pub enum Side {
    Client,
    Server,
}

impl Side {
    /// Returns the size limit for what this side sends to a peer that sent this RecordSizeLimit (RFC 8449 section 4).
    ///
    /// A server takes a value above 2^14 + 1 as 2^14 + 1, since the client may know of an extension with longer records.
    ///
    /// Fails with `PeerSizeLimit` for a value above 2^14 + 1 at a client, and for a value below 64 at either side.
    pub fn size_limit_of(self, sent: u16) -> Result<usize, RecordError>
        ensures accepted { IsOk result
            ↔ ((64 ≤ sent) × (self ≡ Side.Client → sent ≤ 2 ^ 14 + 1)) }
        ensures refused { IsOkUnless result RecordError.PeerSizeLimit }
        ensures limit { IfOk result (λ size_limit. size_limit ≡ min sent (2 ^ 14 + 1)) }
    {
        let size_limit = usize::from(sent);
        if size_limit < MIN_SIZE_LIMIT {
            return Err(RecordError::PeerSizeLimit);
        }
        match self {
            Side::Client if size_limit > MAX_SIZE_LIMIT => Err(RecordError::PeerSizeLimit),
            Side::Client | Side::Server => Ok(size_limit.min(MAX_SIZE_LIMIT)),
        }
    }
}
