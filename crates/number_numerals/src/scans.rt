// Digits that are a numeral by themselves.
ghost use Rattle.std.specs.Prelude.{IfSome};
ghost use Rattle.number_numerals.specs.Scans.{ShortAt};

use crate::Short;
use lexer::class;
use lexer::limits::{DIGIT, SPACE};
use number_integers::integer::TENFOLD_LIMIT;

// The digits at a place, if they are a numeral by themselves, as most are: no byte of a name behind them, so no `_`, `.`, `e` or `E`, and a value
// that 64 bits hold. So the loop has one word and no state, and stops where ten times the value may not fit.
pub fn short_digits(text: &[u8], at: usize) -> Option<Short>
    ensures { IfSome result (λ s. ShortAt text.now at s.at s.v) }
{
    let mut v = 0;
    for i in at..text.len() {
        let d = class(text[i]);
        if DIGIT <= d {
            let in_name = d < SPACE;
            if in_name || i == at {
                return None;
            }
            return Some(Short { at: i, v });
        }
        if TENFOLD_LIMIT <= v {
            return None;
        }
        v = v * 10 + u64::from(d);
    }
    if text.len() <= at {
        return None;
    }
    Some(Short { at: text.len(), v })
}
