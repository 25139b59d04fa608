// What 64 bits hold: whole numbers: a width, an index, a decimal's exponent.
#![tactic(auto)]

pub mod ieee; // ieee.rt: the parts of floats by name

ghost use Rattle.std.specs.Prelude.{◌≡◌};
ghost use Rattle.number_bits.specs.Number.{shifted};

// One digit more. `None` is a number that 64 bits do not hold, and stays one.
pub fn shift(n: Option<u64>, d: u8) -> Option<u64>
    ensures { result ≡ shifted n d }
{
    n?.checked_mul(10)?.checked_add(u64::from(d))
}
