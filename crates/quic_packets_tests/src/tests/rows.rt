//! QUIC packets printed by `tools/quic-packets`.

use quic_packets::{Keys, Suite, Version};

/// The key. A suite uses a prefix as long as its keys.
pub(crate) const KEY: [u8; 32] = [
    0, 1, 2, 3, 4, 5, 6, 7, 8, 9, 10, 11, 12, 13, 14, 15, 16, 17, 18, 19, 20, 21, 22, 23, 24, 25,
    26, 27, 28, 29, 30, 31,
];

pub(crate) const IV: [u8; 12] = [100, 101, 102, 103, 104, 105, 106, 107, 108, 109, 110, 111];

/// The header protection key. A suite uses a prefix as long as its keys.
pub(crate) const HEADER_KEY: [u8; 32] = [
    200, 201, 202, 203, 204, 205, 206, 207, 208, 209, 210, 211, 212, 213, 214, 215, 216, 217, 218,
    219, 220, 221, 222, 223, 224, 225, 226, 227, 228, 229, 230, 231,
];

/// A packet before and after protection, in hex.
#[derive(Clone, Copy)]
pub(crate) struct Row {
    pub(crate) name: &'static str,
    pub(crate) version: Version,
    pub(crate) suite: Suite,
    /// The length of the header before the packet number.
    pub(crate) number_at: usize,
    pub(crate) number: u64,
    /// The largest number acknowledged so far.
    pub(crate) acknowledged: Option<u64>,
    pub(crate) phase: bool,
    /// The unmasked header, which ends with the packet number.
    pub(crate) header: &'static str,
    pub(crate) payload: &'static str,
    pub(crate) protected: &'static str,
}

impl Row {
    /// Returns the keys of the suite's lengths.
    pub(crate) fn keys(&self) -> Keys<'static> {
        Keys {
            version: self.version,
            key: self.key(),
            iv: IV,
            header_key: self.header_key(),
        }
    }

    /// Returns the key of the suite's length.
    pub(crate) fn key(&self) -> &'static [u8] {
        match self.suite {
            Suite::Aes128Gcm => &KEY[..16],
            Suite::Aes256Gcm => &KEY,
        }
    }

    /// Returns the header protection key of the suite's length.
    pub(crate) fn header_key(&self) -> &'static [u8] {
        match self.suite {
            Suite::Aes128Gcm => &HEADER_KEY[..16],
            Suite::Aes256Gcm => &HEADER_KEY,
        }
    }
}

/// Returns the packets.
pub(crate) fn rows() -> [Row; 7] {
    ROWS
}

const ROWS: [Row; 7] = [
    Row {
        name: "initial",
        version: Version::One,
        suite: Suite::Aes128Gcm,
        number_at: 18,
        number: 0,
        acknowledged: None,
        phase: false,
        header: "c000000001088394c8f03e5157080000403900",
        payload: "000102030405060708090a0b0c0d0e0f101112131415161718191a1b1c1d1e1f2021222324252627",
        protected: "c400000001088394c8f03e51570800004039c01a634ca6df07befd93375d1b8ac725e320996aec86bccb4dec76ab8ca0efe9ec9add7007af3d01b6c458be6bdd1b1e44c00521c9378d85b2",
    },
    Row {
        name: "handshake",
        version: Version::One,
        suite: Suite::Aes256Gcm,
        number_at: 15,
        number: 300,
        acknowledged: None,
        phase: false,
        header: "e100000001040a0b0c0d02fefd4033012c",
        payload: "000102030405060708090a0b0c0d0e0f101112131415161718191a1b1c1d1e1f20",
        protected: "ec00000001040a0b0c0d02fefd40335a381388c3d1415b71c159e4a87f011abf3b8c8280affc3f59c23ef151e43f7d52a7df9fa8dbb05bfb15ca415a8be30b32d505",
    },
    Row {
        name: "one byte",
        version: Version::One,
        suite: Suite::Aes128Gcm,
        number_at: 9,
        number: 0x7e,
        acknowledged: None,
        phase: false,
        header: "608394c8f03e5157087e",
        payload: "000102",
        protected: "7c8394c8f03e515708be951bd949102890c0b04cc96844df46b1238287",
    },
    Row {
        name: "two bytes",
        version: Version::One,
        suite: Suite::Aes256Gcm,
        number_at: 9,
        number: 0x00ac_5c02,
        acknowledged: Some(0x00ab_e8b3),
        phase: true,
        header: "658394c8f03e5157085c02",
        payload: "0001",
        protected: "7e8394c8f03e5157088b96502a906296a7f5bcf11f4ed88ee589a17abf",
    },
    Row {
        name: "three bytes",
        version: Version::One,
        suite: Suite::Aes256Gcm,
        number_at: 9,
        number: 0x00ac_e8fe,
        acknowledged: Some(0x00ab_e8b3),
        phase: true,
        header: "668394c8f03e515708ace8fe",
        payload: "000102030405060708090a0b0c0d0e0f101112131415161718191a1b1c1d1e1f202122232425262728292a2b2c2d2e2f303132333435363738393a3b3c3d3e3f404142434445464748494a4b4c4d4e4f505152535455565758595a5b5c5d5e5f60616263",
        protected: "758394c8f03e515708e739d5058e075b88986ff722be8bc853b3c1016f9f5463c7732162460d29d9a7c40b7d90c1bb1e8edd9e1f36090d59b4a4f4f93ccfe114dfa13be6f211e979b1b555e29ec33ad87e561bedf40b16a4a59f2e47337cab9bff83a064993e4683ed17dd8d64a3119ca0f1d224dc8838cdbe639d9ecc4a4fed",
    },
    Row {
        name: "four bytes",
        version: Version::One,
        suite: Suite::Aes128Gcm,
        number_at: 9,
        number: (1 << 62) - 1,
        acknowledged: Some((1 << 62) - 0x0080_0001),
        phase: false,
        header: "638394c8f03e515708ffffffff",
        payload: "00",
        protected: "7f8394c8f03e515708ef1fe8d640a659e6183ab420552cde176b9fcacaf5",
    },
    Row {
        name: "handshake of version 2",
        version: Version::Two,
        suite: Suite::Aes256Gcm,
        number_at: 15,
        number: 300,
        acknowledged: None,
        phase: false,
        header: "f16b3343cf040a0b0c0d02fefd4033012c",
        payload: "000102030405060708090a0b0c0d0e0f101112131415161718191a1b1c1d1e1f20",
        protected: "fc6b3343cf040a0b0c0d02fefd40335a381388c3d1415b71c159e4a87f011abf3b8c8280affc3f59c23ef151e43f7d52a7df42e639435666c6786d12cf489637d25e",
    },
];

/// The packets of a secret of bytes 0, 1, .. in hex, one after each key update: the numbers 0 to 3 in one byte after the first
/// byte, and a payload of six zeros.
pub(crate) const UPDATED_AES_128: [&str; 4] = [
    "4dde8a89b37534bcd0882006f0297b66723b054fa0f1d66e",
    "51f43ec4d3e8488df2ae539e98903e2efd17b00357aaa825",
    "53783e1cdcf1ed574d90c0d27219fb21a8420e5373dbc217",
    "446fc95f4c6f34da1e9861c75a527557bf194177f323bd2b",
];

pub(crate) const UPDATED_AES_256: [&str; 4] = [
    "492345c706c780ad4e1a2ce612dbd26cea2dc6924be224ce",
    "4f5b4f8e05645a58c6b7599092df50e6eee5448512834790",
    "49183aee17f4f0f99c8a899923c7735a3ee8fef4f4b07866",
    "504fed104ff849aefff8f5161b310c0d62a37bf06829be62",
];

/// The same with the labels of version 2.
pub(crate) const UPDATED_AES_128_2: [&str; 4] = [
    "4224de7520121f868b2ca9326525b1bfbfde938d0832d4f3",
    "4421406f3743374d5d50e893c48c15c5ef4c9c682a63d11b",
    "4a8225f0a34c697bc992ae7e1a05b149f6a77748906a0b0a",
    "4deb2009a254919c6fa595250df1d7d607c078f186a8985c",
];

pub(crate) const UPDATED_AES_256_2: [&str; 4] = [
    "4f909f1425aca5c6eb6794bec8101d99103874aaa5c593b5",
    "4ccd29e2a7557215eeb532f21ac3f21eaf6252d6b17f2c21",
    "54bfdf72195b01f863bb3f1006006ff5969d40b3aa80d11d",
    "46a3cba5ad78040917c8296fb99a2d38be8532c4e0888b8b",
];
