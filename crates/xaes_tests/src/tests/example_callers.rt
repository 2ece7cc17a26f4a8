//! Tests of `examples` with a vector of the specification.

use crate::tests::checks::{NONCE, PLAINTEXT, VECTORS, equal, same};
use crate::tests::examples::random_nonces;
use std::test::Fail;
use xaes::Xaes256Gcm;

#[test]
fn a_message_there_and_back(rt: HostRuntime) -> Result<(), Fail> {
    for (byte, aad, wanted) in &VECTORS {
        let key = Xaes256Gcm::new(&[*byte; 32]);
        let mut message = PLAINTEXT.to_vec(rt.alloc())?;
        random_nonces::seal(&key, NONCE, aad, &mut message)?;
        same(&rt, &message, wanted, "sealed");
        let len = random_nonces::open(&key, NONCE, aad, &mut message)?;
        equal(&rt, len, PLAINTEXT.len(), "the length");
        message.truncate(len);
        same(&rt, &message, &PLAINTEXT, "opened");
    }
    Ok(())
}
