// The bits of floats. 01: "`0x` or `0X` takes 1 to 16 hex digits as bits; `f0x` exactly 8 (binary32 widened) or 16."
ghost use Rattle.std.specs.Prelude.{◌≡◌, ◌+◌, ◌-◌, ◌*◌, ◌^◌, ◌<◌};
ghost use Rattle.grammar.specs.Numbers.{widen, special_bits, subnormal_bits};
ghost use Rattle.number_integers.specs.Hex.{hex_held, hex_pushed};

use number_bits::ieee::{BIAS, INFINITY64, MOVED, QUIET32, SIGN32, SIGN64, TOP32, UNIT32, UNIT64};

// Up to 16 hex digits, and how many. Where there are more there is `None`.
#[derive(Clone, Copy)]
pub struct Hex {
    pub bits: u64,
    pub count: u64,
}

// Before the first digit.
pub fn no_hex() -> Option<Hex>
    ensures { result ≡ hex_held 0 0 }
{
    Some(Hex { bits: 0, count: 0 })
}

// A digit more. What is below 2^60 has room for it.
pub fn push_hex(h: Option<Hex>, d: u8) -> Option<Hex>
    ensures { result ≡ hex_pushed h d }
{
    let h = h?;
    if h.count < 16 {
        return Some(Hex {
            bits: h.bits % 1152921504606846976 * 16 + u64::from(d) % 16,
            count: h.count + 1,
        });
    }
    None
}

// "In widening, a subnormal is shifted by its count of leading zeros."
fn subnormal(f: u32) -> u64
    requires { (0 < f) × (f < 2 ^ 23) }
    ensures { (result ≡ subnormal_bits f) × (result < 2 ^ 63) }
{
    let z = f.leading_zeros();
    (904 - u64::from(z)) * UNIT64 + (u64::from(f) << (z + 21))
}

// Infinity and NaN without their sign. "A NaN keeps its payload with the quiet bit set."
fn special(f: u64) -> u64
    requires { f < 2 ^ 23 }
    ensures { (result ≡ special_bits f) × (result < 2 ^ 63) }
{
    if f == 0 {
        return INFINITY64;
    }
    if QUIET32 <= f {
        return INFINITY64 + f * MOVED;
    }
    INFINITY64 + (f + QUIET32) * MOVED
}

// A binary32 as a binary64, both as bits.
pub fn widen_bits(b: u32) -> u64
    ensures { result ≡ widen b }
{
    let s = u64::from(b / SIGN32) * SIGN64;
    let e = u64::from(b / UNIT32 % 256);
    let f = b % UNIT32;
    if e == TOP32 {
        return s + special(u64::from(f));
    }
    if e == 0 {
        if f == 0 {
            return s;
        }
        return s + subnormal(f);
    }
    s + ((e + BIAS) * UNIT64 + u64::from(f) * MOVED)
}
