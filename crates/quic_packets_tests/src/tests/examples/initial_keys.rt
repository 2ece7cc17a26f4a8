//! The keys of a client's Initial packets.

ghost use Rattle.std.specs.Prelude.{◌≡◌, ◌≤◌, ◌↔◌, length, IsOk, IfOk};
ghost use Rattle.key_derivation.specs.Quic.{client_initial_secret, quic_header_key, quic_iv, quic_key};

use key_derivation::quic::{QuicSecret, Version};
use key_derivation::{DerivationError, QuicKeys};

/// Returns the keys of a client's Initial packets, from the Destination Connection ID of the first.
pub fn client_initial_keys(version: Version, id: &[u8]) -> Result<QuicKeys, DerivationError>
    ensures accepted { IsOk result ↔ (length id.now ≤ 20) }
    ensures key { IfOk result (λ keys. keys.key ≡ quic_key (client_initial_secret version id.now)) }
    ensures iv { IfOk result (λ keys. keys.iv ≡ quic_iv (client_initial_secret version id.now)) }
    ensures header_key { IfOk result (λ keys. keys.header_key ≡ quic_header_key (client_initial_secret version id.now)) }
{
    Ok(QuicSecret::client_initial(version, id)?.keys())
}
