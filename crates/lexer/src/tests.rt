// What stands at the cursor (`match_chars`, which has no end test, and the test for a digit).
ghost use Rattle.std.specs.Prelude.{◌≡◌, drop};
ghost use Rattle.program.specs.Class.{is_digit};
ghost use Rattle.program.specs.Prog.{byte_at, lead_word};
ghost use Rattle.grammar.specs.Lexer.{starts_with};
ghost use Rattle.lexer.specs.Tests.{starts_p, digit_p};

use crate::limits::{DIGIT, WORD};
use crate::{Parsed, class};

// Does the word at `at` begin with kw? A byte that differs is seen before its class is asked for.
pub(crate) fn starts_at(text: &[u8], at: usize, kw: &[u8]) -> bool
    ensures { result ≡ starts_with kw.now (lead_word (drop at text.now)) }
{
    if text.len() < at {
        return kw.is_empty();
    }
    for j in 0..kw.len() {
        if text.len() - at <= j {
            return false;
        }
        let b = text[at + j];
        if b != kw[j] {
            return false;
        }
        if WORD < class(b) {
            return false;
        }
    }
    true
}

// Does the word at the cursor begin with kw? A byte that differs is seen before its class is asked for.
pub fn starts(text: &[u8], p: Parsed, kw: &[u8]) -> bool
    ensures { result ≡ starts_p text.now p kw.now }
{
    match p {
        Ok(c) => starts_at(text, c.at, kw),
        Err(_) => false,
    }
}

// Does a digit stand at `at`?
fn at_digit(text: &[u8], at: usize) -> bool
    ensures { result ≡ is_digit (byte_at (drop at text.now)) }
{
    match text.get(at) {
        Some(b) => class(*b) < DIGIT,
        None => false,
    }
}

// Is the next byte a digit?
pub fn digit(text: &[u8], p: Parsed) -> bool
    ensures { result ≡ digit_p text.now p }
{
    match p {
        Ok(c) => at_digit(text, c.at),
        Err(_) => false,
    }
}
