//! RFC 8448, "Example Handshake Traces for TLS 1.3": records of section 3.

use crate::words::{BadLine, Words};
use std::alloc::Global;

/// A record under the keys of a traffic secret.
#[derive(Drop)]
pub struct Record {
    pub name: &'static str,
    pub secret: [u8; 32],
    pub number: u32,
    /// The value of the content type.
    pub content_type: u32,
    pub content: Vec<u8>,
    /// The encrypted record, which a header of 5 bytes precedes.
    pub encrypted: Vec<u8>,
}

impl Record {
    /// Reads a line: the words are the name, the secret, the number, the type, the content and the encrypted record.
    pub fn parse(alloc: Global, line: &'static str) -> Result<Record, BadLine> {
        let mut words = Words::new(line);
        let record = Record {
            name: words.text()?,
            secret: words.array()?,
            number: words.number()?,
            content_type: words.number()?,
            content: words.bytes(alloc)?,
            encrypted: words.bytes(alloc)?,
        };
        words.end()?;
        Ok(record)
    }
}

/// Application data and an alert of each end.
pub const RECORDS: [&str; 4] = [
    "client_application_data 9e40646ce79a7f9dc05af8889bce6552875afa0b06df0087f792ebb7c17504a5 0 23 000102030405060708090a0b0c0d0e0f101112131415161718191a1b1c1d1e1f202122232425262728292a2b2c2d2e2f3031 a23f7054b62c94d0affafe8228ba55cbefacea42f914aa66bcab3f2b9819a8a5b46b395bd54a9a20441e2b62974e1f5a6292a2977014bd1e3deae63aeebb21694915e4",
    "server_application_data a11af9f05531f856ad47116b45a950328204b4f44bfb6b3a4b4f1f3fcb631643 1 23 000102030405060708090a0b0c0d0e0f101112131415161718191a1b1c1d1e1f202122232425262728292a2b2c2d2e2f3031 2e937e11ef4ac740e538ad36005fc4a46932fc3225d05f82aa1b36e30efaf97d90e6dffc602dcb501a59a8fcc49c4bf2e5f0a21c0047c2abf332540dd032e167c2955d",
    "client_alert 9e40646ce79a7f9dc05af8889bce6552875afa0b06df0087f792ebb7c17504a5 1 21 0100 c9872760655666b74d7ff1153efd6db6d0b0e3",
    "server_alert a11af9f05531f856ad47116b45a950328204b4f44bfb6b3a4b4f1f3fcb631643 2 21 0100 b58fd67166ebf599d24720cfbe7efa7a8864a9",
];
