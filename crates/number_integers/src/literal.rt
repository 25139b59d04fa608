// What a literal is.
ghost use Rattle.std.specs.Prelude.{◌≡◌};
ghost use Rattle.number_integers.specs.Literals.{hex_literal, f0x_literal};

use crate::hex::{Hex, widen_bits};

// An integer, "two's complement of 128 bits"; a float's bits.
#[derive(Clone, Copy)]
pub enum Literal {
    Int(u128),
    Float(u64),
}

// The bits of a float, or the number of a question, here and below: "`0x` or `0X` takes 1 to 16 hex digits as bits".
pub fn hex_literal(h: Option<Hex>) -> Result<u64, u64>
    ensures { result ≡ hex_literal h }
{
    let Some(h) = h else {
        return Err(records::Q_LITERAL);
    };
    match h.count {
        1..=16 => Ok(h.bits),
        _ => Err(records::Q_LITERAL),
    }
}

// "`f0x` exactly 8 (binary32 widened) or 16".
pub fn f0x_literal(h: Option<Hex>) -> Result<u64, u64>
    ensures { result ≡ f0x_literal h }
{
    let Some(h) = h else {
        return Err(records::Q_LITERAL);
    };
    match h.count {
        8 => Ok(widen_bits((h.bits % records::HALF) as u32)),
        16 => Ok(h.bits),
        _ => Err(records::Q_LITERAL),
    }
}
