//! Counter mode of one block at a time, over any block cipher.

use aead_ciphers_base::aes::{
    BLOCK_LEN, Block, Counter, EncryptBlock, EncryptCtr32, Overlapping, Work, ZERO_BLOCK,
};

/// A block cipher whose counter mode encrypts one block after another.
#[derive(Drop)]
pub struct OneBlock<'a, E> {
    /// The block cipher, under a key.
    pub cipher: &'a E,
}

impl<E: EncryptBlock> EncryptBlock for OneBlock<'_, E> {
    ghost cipher = { λ c block. E.cipher c.cipher.now block };

    ghost length_cipher = { λ c block size. E.length_cipher c.cipher.now block size };

    fn encrypt_block(&self, block: Block, work: &mut Work) -> Block {
        self.cipher.encrypt_block(block, work)
    }
}

impl<E: EncryptBlock> EncryptCtr32 for OneBlock<'_, E> {
    #[tactic(auto, using(aead_ciphers_base::proofs::CounterModeLemmas::encrypts_all))]
    fn ctr32_encrypt_within(
        &self,
        in_out: Overlapping<'_>,
        counter: &mut Counter,
        work: &mut Work,
    ) {
        let Overlapping { in_out, start } = in_out;
        for i in 0..(in_out.len() - start) / BLOCK_LEN {
            let at = BLOCK_LEN * i;
            let from = start + at;
            let mut block = ZERO_BLOCK;
            block.copy_from_slice(&in_out[from..from + BLOCK_LEN]);
            let output = self.encrypt_iv_xor_block(counter.increment(), block, work);
            in_out[at..at + BLOCK_LEN].copy_from_slice(&output);
        }
    }
}
