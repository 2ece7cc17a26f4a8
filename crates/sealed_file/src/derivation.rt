//! The commitment to a key, by further iterations of the derivation of XAES-256-GCM.

ghost use Rattle.std.specs.Prelude.{◌≡◌};
ghost use Rattle.sealed_file.specs.Derivation.{commitment};

use crate::header::Context;
use aead_ciphers_base::aes::AES_256_KEY_LEN;
use xaes::Xaes256Gcm;

/// Returns the commitment in the headers of the files with this context, by iterations 3 and 4 of the derivation.
pub(crate) fn commitment(key: &Xaes256Gcm, context: &Context) -> [u8; AES_256_KEY_LEN]
    ensures { result ≡ commitment key.now context.now }
{
    key.derived_blocks(context, 3, 4)
}
