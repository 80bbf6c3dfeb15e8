// Sets of preferred lengths, from source document 001 (manchester.rs).
#![tactic(auto)]

ghost use Rattle.std.specs.Prelude.{◌≡◌, [], ◌∷◌};
ghost use Rattle.lengths.specs.Lengths.{holds, with_length, set_of, sniffed_lengths, backward_lengths, HoldsJust};
ghost use Rattle.lengths.specs.Constants.{public_constants};

// Bit n of the number stands for the length n.
#[derive(Clone, Copy)]
pub struct BitLengths(u32);

impl BitLengths {
    pub fn of(lengths: &[u8]) -> BitLengths
        ensures value { result ≡ set_of lengths.now }
        ensures holds_just { HoldsJust result lengths.now }
    {
        let mut set = BitLengths(0);
        for length in lengths {
            set = set.with_length(*length);
        }
        set
    }

    #[tactic(auto, unfolding(crate::specs::Lengths::with_length, laws::specs::Pick::pick))]
    fn with_length(self, length: u8) -> BitLengths
        ensures { result ≡ with_length self length }
    {
        1u32.checked_shl(length as u32)
            .map_or(self, |bit| BitLengths(self.0 | bit))
    }

    #[tactic(auto, unfolding(crate::specs::Lengths::holds, laws::specs::Pick::pick))]
    pub fn contains(self, length: u8) -> bool
        ensures { result ≡ holds self length }
    {
        length < 32 && (self.0 >> length) % 2 == 1
    }
}

// A constant can't call `of`, so these two sets are written by their bits. The promises of `sniffed` and `backward` say which lengths they hold.

// The lengths 8, 16 and 24.
pub const SNIFFED_BIT_LENGTHS: BitLengths = BitLengths(1 << 8 | 1 << 16 | 1 << 24);

// The length 8 alone. Source document 003 (rx_decode.rs) has this set; it is here since only this crate can write a set by its bits.
pub const BACKWARD_FRAME_BIT_LENGTHS: BitLengths = BitLengths(1 << 8);

pub const FORWARD24_BITS: u8 = 24;

// Nobody calls this function or the next two. Their promises say what the public constants are.
fn constants() -> PublicConstants
    ensures { result ≡ public_constants }
{
    PublicConstants {
        forward24_bits: FORWARD24_BITS,
    }
}

#[derive(Drop)]
struct PublicConstants {
    forward24_bits: u8,
}

#[tactic(auto, using(crate::proofs::Masks::sniffed_mask, crate::proofs::Masks::sniffed_just))]
fn sniffed() -> BitLengths
    ensures value { result ≡ sniffed_lengths }
    ensures holds_just { HoldsJust result (8 ∷ 16 ∷ 24 ∷ []) }
{
    SNIFFED_BIT_LENGTHS
}

#[tactic(auto, using(crate::proofs::Masks::backward_mask, crate::proofs::Masks::backward_just))]
fn backward() -> BitLengths
    ensures value { result ≡ backward_lengths }
    ensures holds_just { HoldsJust result (8 ∷ []) }
{
    BACKWARD_FRAME_BIT_LENGTHS
}
