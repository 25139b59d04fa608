// The phases of a numeral, byte by byte. 01: "A number begins with a digit; later underscores are passed over."
ghost use Rattle.std.specs.Prelude.{◌≡◌};
ghost use Rattle.program.specs.Class.{class_of};
ghost use Rattle.number_numerals.specs.Numerals.{letter_next, whole_next, part_next, power_next, is_sign, first_next, next_phase};
ghost use Rattle.number_numerals.specs.Steps.{next_of};

use crate::folds::Phase;
use lexer::limits::DIGIT;

// The phase behind a byte, or none where the byte is not the numeral's, here and below: `e` or `E`.
fn letter(b: u8) -> Option<Phase>
    ensures { next_of result ≡ letter_next b }
{
    match b {
        b'e' | b'E' => Some(Phase::Letter),
        _ => None,
    }
}

// A digit before the point, the point, or the letter. d is the class of the byte b, here and below.
fn whole(b: u8, d: u8) -> Option<Phase>
    requires { d ≡ class_of b }
    ensures { next_of result ≡ whole_next b }
{
    if d < DIGIT {
        return Some(Phase::Whole);
    }
    if b == b'.' {
        return Some(Phase::Point);
    }
    letter(b)
}

// A digit behind the point, or the letter.
fn part(b: u8, d: u8) -> Option<Phase>
    requires { d ≡ class_of b }
    ensures { next_of result ≡ part_next b }
{
    if d < DIGIT {
        return Some(Phase::Behind);
    }
    letter(b)
}

// A digit of the exponent.
fn power(b: u8, d: u8) -> Option<Phase>
    requires { d ≡ class_of b }
    ensures { next_of result ≡ power_next b }
{
    if d < DIGIT {
        return Some(Phase::Power);
    }
    None
}

// Is it a sign?
fn is_sign(b: u8) -> bool
    ensures { result ≡ is_sign b }
{
    b == b'+' || b == b'-'
}

// The sign, or a digit: a numeral begins with one of these.
fn first(b: u8, d: u8) -> Option<Phase>
    requires { d ≡ class_of b }
    ensures { next_of result ≡ first_next b }
{
    if is_sign(b) {
        return Some(Phase::Front);
    }
    if d < DIGIT {
        return Some(Phase::Whole);
    }
    None
}

// The phase behind one more byte. An underscore is passed over behind a digit, and behind another one.
pub fn next_phase(phase: Phase, b: u8, d: u8) -> Option<Phase>
    requires { d ≡ class_of b }
    ensures { next_of result ≡ next_phase phase b }
{
    match phase {
        Phase::Start => first(b, d),
        Phase::Front => whole(b, d),
        Phase::Whole => {
            if b == b'_' {
                return Some(Phase::Whole);
            }
            whole(b, d)
        }
        Phase::Point => part(b, d),
        Phase::Behind => {
            if b == b'_' {
                return Some(Phase::Behind);
            }
            part(b, d)
        }
        Phase::Letter => {
            if is_sign(b) {
                return Some(Phase::Sign);
            }
            power(b, d)
        }
        Phase::Sign => power(b, d),
        Phase::Power => {
            if b == b'_' {
                return Some(Phase::Power);
            }
            power(b, d)
        }
    }
}
