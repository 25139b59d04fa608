// Numbers of at most 64 bits in a text (`parse_int`), questions 4 and 15.
#![tactic(auto)]

ghost use Rattle.std.specs.Prelude.{◌≡◌};
ghost use Rattle.grammar.specs.Numbers.{digit_step, parse_int};
ghost use Rattle.lexer.specs.Step.{step_of};
ghost use Rattle.lexer.specs.Parsed.{Ok};
ghost use Rattle.lexer.specs.Reads.{Gives};
ghost use Rattle.number_counts.specs.Number.{added, refusal, NumAt};

use lexer::limits::DIGIT;
use lexer::{Cursor, Num, Parsed, class};
use number_bits::shift;
use records::Refusal;

// The place behind digits, and their value, or `None` where 64 bits do not hold it.
#[derive(Clone, Copy)]
pub struct Digits {
    pub at: usize,
    pub val: Option<u64>,
}

// Digits and `_`: the state behind b, or none where they end. The state is 0 before the first digit.
fn digit_step(q: u8, b: u8) -> Option<u8>
    ensures { step_of result ≡ digit_step q b }
{
    if class(b) < DIGIT {
        return Some(1);
    }
    if b == b'_' {
        if q == 0 {
            return None;
        }
        return Some(1);
    }
    None
}

// One digit or `_` more.
fn add_digit(n: Option<u64>, b: u8) -> Option<u64>
    ensures { result ≡ added n b }
{
    if b == b'_' { n } else { shift(n, class(b)) }
}

// The digits at a place.
fn digits_at(text: &[u8], at: usize) -> Digits
    ensures { NumAt text.now at result }
{
    let mut q = 0;
    let mut val = Some(0);
    for i in at..text.len() {
        let b = text[i];
        match digit_step(q, b) {
            Some(next) => q = next,
            None => return Digits { at: i, val },
        }
        val = add_digit(val, b);
    }
    Digits {
        at: at.max(text.len()),
        val,
    }
}

// A refusal in the place of a number.
fn refusal(question: u64, place: usize) -> Num
    ensures { result ≡ refusal question place }
{
    Num {
        p: Err(Refusal { question, place }),
        v: 0,
    }
}

// A number from lo to hi at the cursor; one outside is refused at its first digit.
fn int_at(text: &[u8], c: Cursor, lo: u64, hi: u64) -> Num
    ensures { Gives (parse_int lo hi) result.v text.now (Ok c) result.p }
{
    let r = digits_at(text, c.at);
    if r.at == c.at {
        return refusal(records::Q_DIGIT, c.at);
    }
    let outside = refusal(records::Q_NUMBER, c.at);
    let Some(v) = r.val else {
        return outside;
    };
    if v < lo {
        return outside;
    }
    if hi < v {
        return outside;
    }
    Num {
        p: Ok(Cursor { at: r.at, w: c.w }),
        v,
    }
}

// A number from lo to hi.
pub fn parse_int(text: &[u8], p: Parsed, lo: u64, hi: u64) -> Num
    ensures { Gives (parse_int lo hi) result.v text.now p result.p }
{
    match p {
        Ok(c) => int_at(text, c, lo, hi),
        Err(_) => Num { p, v: 0 },
    }
}
