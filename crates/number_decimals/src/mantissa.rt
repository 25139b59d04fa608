// The digits of a decimal, folded one by one, with no copy of them.
ghost use Rattle.std.specs.Prelude.{◌≡◌, ◌+◌, ◌*◌, ◌^◌, ◌<◌};
ghost use Rattle.number_decimals.specs.Decimals.{counted, no_digits, few_digits, significant_pushed, digit_pushed};

use crate::five;

// "at most 15 digits": sig is below ten to that many.
const DIGITS: u64 = 15;

pub const DIGITS_LIMIT: u64 = 1000000000000000;

// Counts stop at 2^62: no text has as many bytes.
const COUNT_LIMIT: u64 = 4611686018427387904;

// The digits so far are sig, without the zeros in front, and then so many zeros. Without a digit that is not zero, sig and zeros are 0. Where
// sig would be of more than 15 digits there is `None`.
#[derive(Clone, Copy)]
pub struct Mantissa {
    pub sig: u64,
    pub zeros: u64,
}

// A count, up to its limit.
pub fn count(n: u64) -> u64
    ensures { result ≡ counted n }
{
    n.min(COUNT_LIMIT)
}

// One more.
pub fn count_on(n: u64) -> u64
    ensures { result ≡ counted (n + 1) }
{
    count(n.saturating_add(1))
}

// Before the first digit.
pub fn no_digits() -> Option<Mantissa>
    ensures { result ≡ no_digits }
{
    Some(Mantissa { sig: 0, zeros: 0 })
}

fn ten(k: usize) -> u64
    requires { k < 20 }
    ensures { result ≡ 10 ^ k }
{
    five(k) << k
}

// sig, p times as much, and a digit more.
fn joined(sig: u64, p: u64, d: u8) -> Option<Mantissa>
    ensures { result ≡ few_digits (sig * p + d) 0 }
{
    let x = sig.checked_mul(p)?.checked_add(u64::from(d))?;
    (x < DIGITS_LIMIT).then_some(Mantissa { sig: x, zeros: 0 })
}

// A digit more that is not zero.
fn significant(m: Mantissa, d: u8) -> Option<Mantissa>
    ensures { result ≡ significant_pushed m.sig m.zeros d }
{
    if DIGITS <= m.zeros {
        return None;
    }
    // Most digits stand behind no zero: with ten as a constant there is no division in `joined`.
    if m.zeros == 0 {
        return joined(m.sig, 10, d);
    }
    joined(m.sig, ten(m.zeros as usize + 1), d)
}

// A digit more.
pub fn digit(s: Option<Mantissa>, d: u8) -> Option<Mantissa>
    ensures { result ≡ digit_pushed s d }
{
    let m = s?;
    if d != 0 {
        return significant(m, d);
    }
    if m.sig == 0 {
        return s;
    }
    Some(Mantissa {
        zeros: count_on(m.zeros),
        ..m
    })
}
