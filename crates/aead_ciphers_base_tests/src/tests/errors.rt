//! Tests of the texts of the errors.

use crate::tests::checks::equal;
use aead_ciphers_base::error::{IndexError, InputTooLongError, LenMismatchError, Unspecified};
use std::test::Fail;

#[test]
fn texts(rt: HostRuntime) -> Result<(), Fail> {
    let (u, i, l, t) = (
        Unspecified,
        IndexError::new(7),
        LenMismatchError::new(3),
        InputTooLongError::new(9),
    );
    let text = format!(in rt.alloc(); "{u}, {i}, {l}, {t}")?;
    equal(
        &rt,
        text.as_str(),
        "unspecified error, index out of range, length mismatch, input too long",
        "the texts",
    );
    Ok(())
}
