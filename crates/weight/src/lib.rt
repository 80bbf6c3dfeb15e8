// The weight of eight ticks, from source document 001 (manchester.rs).
#![tactic(auto)]

ghost use Rattle.std.specs.Prelude.{◌≡◌, ◌<◌, ◌≤◌};
ghost use Rattle.std.specs.Int.Signed.{mag};
ghost use Rattle.weight.specs.Weight.{bit_weight, half_weight, weight_of};

// A set bit counts plus its weight, a clear one minus its weight. Bit 0 is the last tick.
fn bit_weight(sample: u8, bit: u8, weight: i16) -> i16
    requires { (bit < 8) × (mag weight < 32767) }
    ensures { result ≡ bit_weight sample bit weight }
{
    // The sign is multiplied: with an `if` in its place a decode takes a third longer.
    let set = ((sample >> bit) % 2) as i16;
    let sign = 2 * set - 1;
    sign * weight
}

// The two ticks in the middle of a half weigh double.
#[tactic(auto, unfolding(crate::specs::Weight::half_weight, crate::specs::Weight::bit_weight, laws::specs::Pick::pick))]
fn half_weight(half: u8) -> i16
    requires { half < 16 }
    ensures value { result ≡ half_weight half }
    ensures bounds { mag result ≤ 6 }
{
    bit_weight(half, 3, 1)
        + bit_weight(half, 2, 2)
        + bit_weight(half, 1, 2)
        + bit_weight(half, 0, 1)
}

// The more the two halves differ, the larger the weight. A rising bit weighs odd, a falling or flat one even.
pub fn sample_weight(sample: u8) -> u8
    ensures { result ≡ weight_of sample }
{
    let first = half_weight(sample / 16);
    let second = half_weight(sample % 16);
    let w = 2 * (first - second);
    if w < 0 { (1 - w) as u8 } else { w as u8 }
}
