// One piece of a text by its number: the head, or from number 1 on a block or the tail.
ghost use Rattle.std.specs.Prelude.{◌≡◌, ◌≤◌, length};
ghost use Rattle.records.specs.Limits.{text_limit};
ghost use Rattle.reread_passes.specs.Numbered.{PieceDry, PieceIn};

use piece_block::{block_dry, block_in};
use piece_directory::pieces::{Piece, Spot};
use piece_head::{head_dry, head_in};
use records::Refusal;

// The piece there, its words only counted.
pub fn piece_dry(text: &[u8], spot: Spot) -> Result<Piece, Refusal>
    requires text_len_bound { (length text.now ≤ text_limit) × (spot.pos ≤ length text.now) }
    requires pos_value { spot.number ≡ 0 → spot.pos ≡ 0 }
    ensures { PieceDry text.now spot.number spot.pos spot.counter result }
{
    if spot.number == 0 {
        return head_dry(text);
    }
    block_dry(text, spot.pos, spot.counter)
}

// The piece there. Its words stand from there on, as far as `to`.
pub fn piece_in(text: &[u8], words: &mut [u64], spot: Spot, to: usize) -> Result<Piece, Refusal>
    requires text_len_bound { (length text.now ≤ text_limit) × (spot.pos ≤ length text.now) }
    requires word_le_to { (spot.word ≤ to) × (to ≤ length words.old) }
    ensures { PieceIn text.now spot.number spot.pos spot.word spot.counter to words.old words.new result }
{
    if spot.number == 0 {
        return head_in(text, words, spot.word, to);
    }
    block_in(text, words, spot, to)
}
