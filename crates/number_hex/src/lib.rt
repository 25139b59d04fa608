// The bits of floats in a text (`parse_hex_float`), their digits folded as they are scanned. 01: "Types and values", question 7.
#![tactic(auto)]

ghost use Rattle.std.specs.Prelude.{List, ℕ};
ghost use Rattle.grammar.specs.Numbers.{parse_hex_float, parse_f0x};
ghost use Rattle.lexer.specs.Reads.{Gives};
ghost use Rattle.lexer.specs.Parsed.{Ok};
ghost use Rattle.number_integers.specs.Literals.{bits_in};
ghost use Rattle.number_hex.specs.Hex.{HexAt};

use lexer::limits::HEX;
use lexer::{Cursor, Num, Parsed, class, refuse};
use number_integers::hex::{Hex, no_hex, push_hex};
use number_integers::literal::{f0x_literal, hex_literal};

// Where the reader is behind hex digits, and what they fold to.
#[derive(Clone, Copy)]
pub struct HexFolded {
    pub p: Parsed,
    pub h: Option<Hex>,
}

// The hex digits at the cursor.
fn hex_at(text: &[u8], c: Cursor) -> HexFolded
    ensures { HexAt text.now (Ok c) result.p result.h }
{
    let mut h = no_hex();
    for i in c.at..text.len() {
        let d = class(text[i]);
        if HEX <= d {
            return HexFolded {
                p: Ok(Cursor { at: i, w: c.w }),
                h,
            };
        }
        h = push_hex(h, d);
    }
    HexFolded {
        p: Ok(Cursor {
            at: c.at.max(text.len()),
            w: c.w,
        }),
        h,
    }
}

// The hex digits where the reader is.
fn hex_digits(text: &[u8], p: Parsed) -> HexFolded
    ensures { HexAt text.now p result.p result.h }
{
    match p {
        Ok(c) => hex_at(text, c),
        Err(_) => HexFolded { p, h: no_hex() },
    }
}

// The bits of a float, or the question.
fn bits_of(bits: Result<u64, u64>, p: Parsed) -> Num
    ensures { (text : List ℕ) → Gives (bits_in bits) result.v text p result.p }
{
    match bits {
        Ok(v) => Num { p, v },
        Err(e) => {
            let q = refuse(p, e);
            Num { p: q, v: 0 }
        }
    }
}

// The bits of a float, behind `0x`.
pub fn parse_hex_float(text: &[u8], p: Parsed) -> Num
    ensures { Gives parse_hex_float result.v text.now p result.p }
{
    let x = hex_digits(text, p);
    bits_of(hex_literal(x.h), x.p)
}

// The bits of a float or a widened one, behind `f0x`. It shares all but the literal's rule with `parse_hex_float`; a closure for that is no plainer.
pub fn parse_f0x(text: &[u8], p: Parsed) -> Num
    ensures { Gives parse_f0x result.v text.now p result.p }
{
    let x = hex_digits(text, p);
    bits_of(f0x_literal(x.h), x.p)
}
