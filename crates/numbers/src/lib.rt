// What the crates above share: notation and laws of numbers and lists, floats by their bits and the bits
// of floats.
#![tactic(auto)]

ghost use Rattle.std.specs.Prelude.{◌≡◌};
ghost use Rattle.std.specs.Float.{binary64};
ghost use Rattle.std.specs.Float.Ieee.{to_bits};
ghost use Rattle.numbers.specs.Numbers.{f64};

// The float of a bit pattern, and the NaN for each pattern of a NaN, which `f64::from_bits` doesn't take.
pub fn float_of(bits: u64) -> f64
    ensures { result ≡ f64 bits }
{
    if bits % 0x8000_0000_0000_0000 <= 0x7ff0_0000_0000_0000 {
        return f64::from_bits(bits);
    }
    f64::NAN
}

// The bits of a float. A NaN, which `f64::to_bits` doesn't take, has one pattern here.
pub fn bits_of(x: f64) -> u64
    ensures { result ≡ to_bits binary64 x }
{
    if x.is_nan() {
        return 0x7ff8_0000_0000_0000;
    }
    f64::to_bits(x)
}
