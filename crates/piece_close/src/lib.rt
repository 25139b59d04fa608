// How a piece is closed: the node of a block, or question 19, and the answer of a reader as a piece.
#![tactic(auto)]

ghost use Rattle.std.specs.Prelude.{◌≡◌, List, ◌∷◌, ◌++◌, ℕ};
ghost use Rattle.grammar.specs.Body.{over_at, finish_block};
ghost use Rattle.lexer.specs.Reads.{Leads, made};
ghost use Rattle.piece_close.specs.Pieces.{piece_of, tail_of};

use lexer::Parsed;
use piece_directory::pieces::{Piece, Size};
use records::Refusal;

// Question 19, for a count that goes past it.
const CHILDREN: usize = records::CHILD_LIMIT as usize;

// The place behind the 65,536th instruction, once it is read.
pub fn over_at(n: usize, over: usize, at: usize) -> usize
    ensures { result ≡ over_at n over at }
{
    if n == CHILDREN { at } else { over }
}

// The block that was begun at p0: its label, and its header, or 19; whatever the counter behind it is.
pub fn finish_block(
    words: &mut [u64],
    p0: Parsed,
    p: Parsed,
    label: u64,
    n: usize,
    over: usize,
) -> Parsed
    ensures { (c : ℕ) (text acc term : List ℕ) → Leads (finish_block c label n over acc term) 0 (0 ∷ (0 ∷ (acc ++ term))) (made (◌∷◌ c) text p0) text p0 p words.old result words.new }
{
    if n < CHILDREN {
        let p1 = node_words::patch(words, p0, p, 1, label);
        let m = (n + 1) as u16;
        return node_words::close(words, p0, p1, records::K_BLOCK, records::D_NONE, m);
    }
    if CHILDREN < n {
        return lexer::refuse_at(p, records::Q_CHILDREN, over);
    }
    lexer::refuse(p, records::Q_CHILDREN)
}

// The answer of a head or block that is read; d is the counter behind it.
pub fn piece_of(p: Parsed, d: u64) -> Result<Piece, Refusal>
    ensures { result ≡ piece_of d p }
{
    let c = p?;
    let size = Size {
        bytes: c.at,
        words: c.w,
    };
    Ok(Piece::Read(size, d))
}

// The answer of the tail.
pub fn tail_of(p: Parsed) -> Result<Piece, Refusal>
    ensures { result ≡ tail_of p }
{
    Ok(Piece::Tail(p?.at))
}
