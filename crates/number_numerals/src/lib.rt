// Numerals in a text (`read_numeric`), folded byte by byte. 01: "Types and values", questions 7 and 17.
#![tactic(auto)]

pub mod folds; // folds.rt: the state of a numeral, and what it is in the end
pub mod reads; // reads.rt: numerals
pub mod scans; // scans.rt: digits that are a numeral by themselves
pub mod steps; // steps.rt: a byte more

use crate::folds::Fold;
use lexer::Cursor;
use number_integers::literal::Literal;

// A literal, and the cursor behind it.
#[derive(Clone, Copy)]
pub struct Lit {
    pub c: Cursor,
    pub lit: Literal,
}

// The cursor behind bytes of a numeral, and the numeral's state there.
#[derive(Clone, Copy)]
pub struct Folded {
    pub c: Cursor,
    pub s: Fold,
}

// Where a run of digits ends that is a numeral by itself, and its value.
#[derive(Clone, Copy)]
pub struct Short {
    pub at: usize,
    pub v: u64,
}
