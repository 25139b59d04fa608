// A numeric constant, or none: `+inf`, `-inf`, `+qnan`, `0x..`, integers and decimals.
ghost use Rattle.lexer.specs.Reads.{Reads};
ghost use Rattle.number_nodes.specs.Constants.{plus_value, minus_value, digit_value, NumericVal};

use crate::nodes::{float_node, hex_value, numeral};
use lexer::tests::{digit, starts};
use lexer::{Parsed, looks, pass, pass_word};

// Behind `+`.
fn plus_value(text: &[u8], words: &mut [u64], p: Parsed) -> Parsed
    ensures { Reads plus_value text.now p words.old result words.new }
{
    if starts(text, p, b"inf") {
        let q = pass_word(text, p, b"inf");
        return float_node(words, q, 0x7FF0_0000_0000_0000);
    }
    if starts(text, p, b"qnan") {
        let q = pass_word(text, p, b"qnan");
        return float_node(words, q, 0x7FF8_0000_0000_0000);
    }
    numeral(text, words, p, false)
}

// Behind `-`.
fn minus_value(text: &[u8], words: &mut [u64], p: Parsed) -> Parsed
    ensures { Reads minus_value text.now p words.old result words.new }
{
    if starts(text, p, b"inf") {
        let q = pass_word(text, p, b"inf");
        return float_node(words, q, 0xFFF0_0000_0000_0000);
    }
    numeral(text, words, p, true)
}

// At a digit.
fn digit_value(text: &[u8], words: &mut [u64], p: Parsed) -> Parsed
    ensures { Reads digit_value text.now p words.old result words.new }
{
    if starts(text, p, b"0x") {
        let q = pass_word(text, p, b"0x");
        return hex_value(text, words, q);
    }
    if starts(text, p, b"0X") {
        let q = pass_word(text, p, b"0X");
        return hex_value(text, words, q);
    }
    numeral(text, words, p, false)
}

// A numeric constant, if there is one. Most begin with a digit, which is tested first.
pub fn numeric(text: &[u8], words: &mut [u64], p: Parsed) -> Option<Parsed>
    ensures { NumericVal text.now p words.old result words.new }
{
    if digit(text, p) {
        return Some(digit_value(text, words, p));
    }
    if looks(text, p, b'-') {
        let q = pass(text, p, 1);
        return Some(minus_value(text, words, q));
    }
    if looks(text, p, b'+') {
        let q = pass(text, p, 1);
        return Some(plus_value(text, words, q));
    }
    None
}
