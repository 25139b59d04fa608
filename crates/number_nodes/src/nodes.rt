// A literal as its node: an integer's two words, a float's bits.
ghost use Rattle.std.specs.Prelude.{List, [], ℕ};
ghost use Rattle.program.specs.Prog.{ret};
ghost use Rattle.records.specs.Words.{node};
ghost use Rattle.records.specs.Kinds.{kind, IntConst};
ghost use Rattle.grammar.specs.Numbers.{halves, twos};
ghost use Rattle.grammar.specs.Values.{float_node, numeral};
ghost use Rattle.lexer.specs.Reads.{Leads, Reads, made, same};
ghost use Rattle.number_nodes.specs.Constants.{hex_value, f0x_value};

use lexer::{Cursor, Parsed};
use node_words::push;
use number_hex::{parse_f0x, parse_hex_float};
use number_integers::literal::Literal;
use number_numerals::reads::parse_numeral;
use number_numerals::scans::short_digits;

// What a word counts for behind a low one, 2^64.
const WORD: u128 = 18446744073709551616;

// A float's node.
pub fn float_node(words: &mut [u64], p: Parsed, bits: u64) -> Parsed
    ensures { (text : List ℕ) → Leads (float_node bits) 2 [] (made same text p) text p p words.old result words.new }
{
    let p1 = push(words, p, records::FLOAT_HEADER);
    push(words, p1, bits)
}

// An integer's node, "two words, two's complement of 128 bits, high first".
pub fn int_node(words: &mut [u64], p: Parsed, n: u128) -> Parsed
    ensures { (text : List ℕ) → Leads (ret (node (kind IntConst) 0 0 (halves n))) 3 [] (made same text p) text p p words.old result words.new }
{
    let q = push(words, p, records::INT_HEADER);
    let q1 = push(words, q, (n / WORD) as u64);
    push(words, q1, (n % WORD) as u64)
}

// The node of an integer of 64 bits and a sign.
fn short_node(words: &mut [u64], p: Parsed, v: u64, neg: bool) -> Parsed
    ensures { (text : List ℕ) → Leads (ret (node (kind IntConst) 0 0 (halves (twos neg v)))) 3 [] (made same text p) text p p words.old result words.new }
{
    let n = u128::from(v);
    if neg {
        return int_node(words, p, n.wrapping_neg());
    }
    int_node(words, p, n)
}

// Any numeral behind its sign.
fn long_numeral(text: &[u8], words: &mut [u64], p: Parsed, neg: bool) -> Parsed
    ensures { Reads (numeral neg) text.now p words.old result words.new }
{
    let x = parse_numeral(text, p, neg)?;
    match x.lit {
        Literal::Int(n) => int_node(words, Ok(x.c), n),
        Literal::Float(b) => float_node(words, Ok(x.c), b),
    }
}

// A numeral behind its sign. Most are short.
pub fn numeral(text: &[u8], words: &mut [u64], p: Parsed, neg: bool) -> Parsed
    ensures { Reads (numeral neg) text.now p words.old result words.new }
{
    let c = p?;
    match short_digits(text, c.at) {
        Some(s) => {
            let q = Ok(Cursor { at: s.at, w: c.w });
            short_node(words, q, s.v, neg)
        }
        None => long_numeral(text, words, p, neg),
    }
}

// A float's bits behind `0x`.
pub fn hex_value(text: &[u8], words: &mut [u64], p: Parsed) -> Parsed
    ensures { Reads hex_value text.now p words.old result words.new }
{
    let x = parse_hex_float(text, p);
    float_node(words, x.p, x.v)
}

// A float's bits behind `f0x`.
pub fn f0x_value(text: &[u8], words: &mut [u64], p: Parsed) -> Parsed
    ensures { Reads f0x_value text.now p words.old result words.new }
{
    let x = parse_f0x(text, p);
    float_node(words, x.p, x.v)
}
