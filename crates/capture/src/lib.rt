// The 64 sample bytes of a capture (document 01, "Machine", Rx), kept in eight words.
#![tactic(auto)]

ghost use Rattle.std.specs.Prelude.{◌≡◌, get_or, replicate};
ghost use Rattle.capture.specs.Samples.{words_of, byte_in, bytes_of, samples_of, with_byte};
ghost use Rattle.capture.specs.Code.{word_with};

use window::DALI_RX_SAMPLE_BUF_LEN;

// A word holds eight bytes, the first at its low end. Words that no index selects can stay in registers, so a tick copies no array.
#[derive(Clone, Copy)]
pub struct Samples {
    w0: u64,
    w1: u64,
    w2: u64,
    w3: u64,
    w4: u64,
    w5: u64,
    w6: u64,
    w7: u64,
}

const WORDS: usize = DALI_RX_SAMPLE_BUF_LEN / 8;

impl Samples {
    #[tactic(auto, unfolding(crate::specs::Samples::samples_of, crate::specs::Samples::word_in, laws::specs::Packed::packed))]
    pub fn new() -> Samples
        ensures { result ≡ samples_of (replicate 64 0) }
    {
        Samples {
            w0: 0,
            w1: 0,
            w2: 0,
            w3: 0,
            w4: 0,
            w5: 0,
            w6: 0,
            w7: 0,
        }
    }

    // If `at` is past the last byte, nothing changes.
    pub fn with_byte(self, at: usize, byte: u8) -> Samples
        ensures { result ≡ with_byte self at byte }
    {
        let which = at / 8;
        let shift = at % 8 * 8;
        let mask = 255u64 << shift;
        let bits = (byte as u64) << shift;
        Samples {
            w0: word_with(self.w0, which == 0, mask, bits),
            w1: word_with(self.w1, which == 1, mask, bits),
            w2: word_with(self.w2, which == 2, mask, bits),
            w3: word_with(self.w3, which == 3, mask, bits),
            w4: word_with(self.w4, which == 4, mask, bits),
            w5: word_with(self.w5, which == 5, mask, bits),
            w6: word_with(self.w6, which == 6, mask, bits),
            w7: word_with(self.w7, which == 7, mask, bits),
        }
    }

    // Past the last byte the answer is 0.
    #[tactic(auto, using(crate::proofs::Kept::byte_is))]
    pub fn byte_at(self, at: usize) -> u8
        ensures { result ≡ get_or (bytes_of self) at 0 }
    {
        byte_in(self.words(), at)
    }

    // The loop writes each byte by its index: after `iter_mut().enumerate()` a proof knows no byte.
    pub fn bytes(self) -> [u8; DALI_RX_SAMPLE_BUF_LEN]
        ensures { result ≡ bytes_of self }
    {
        let words = self.words();
        let mut all = [0u8; DALI_RX_SAMPLE_BUF_LEN];
        for at in 0..DALI_RX_SAMPLE_BUF_LEN {
            all[at] = byte_in(words, at);
        }
        all
    }

    fn words(self) -> [u64; WORDS]
        ensures { result ≡ words_of self }
    {
        [
            self.w0, self.w1, self.w2, self.w3, self.w4, self.w5, self.w6, self.w7,
        ]
    }
}

// If the byte is in this word, `bits` replace what the mask covers.
#[tactic(auto, unfolding(crate::specs::Code::word_with, laws::specs::Pick::pick))]
fn word_with(word: u64, hit: bool, mask: u64, bits: u64) -> u64
    ensures { result ≡ word_with word hit mask bits }
{
    if hit {
        (word - (word & mask)) | bits
    } else {
        word
    }
}

fn byte_in(words: [u64; WORDS], at: usize) -> u8
    ensures { result ≡ byte_in words at }
{
    let which = at / 8;
    if WORDS <= which {
        return 0;
    }
    ((words[which] >> (at % 8 * 8)) % 256) as u8
}
