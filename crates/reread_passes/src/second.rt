// The second pass: the pieces that the first found are read again, and written.
ghost use Rattle.std.specs.Prelude.{◌≤◌, length};
ghost use Rattle.records.specs.Limits.{text_limit};
ghost use Rattle.reread_passes.specs.Second.{Fit, Wrote};

use crate::numbered::piece_in;
use piece_directory::arrays::put_entry;
use piece_directory::pieces::{Piece, Size, Spot};

// The pieces from where the ones kept in front end, up to where those kept behind begin.
pub fn write(newer: &[u8], words: &mut [u64], directory: &mut [u64], front: Spot, behind: Spot)
    requires newer_len_bound { length newer.now ≤ text_limit }
    requires fit { Fit newer.now (length words.old) (length directory.old) front.number front.pos front.word front.counter behind.number behind.word }
    ensures { Wrote newer.now front.number front.pos front.word front.counter behind.number behind.word words.old directory.old words.new directory.new }
{
    let to = behind.word;
    let mut spot = front;
    // the spot has the number that is counted, so a range beside it would count it twice
    while spot.number < behind.number {
        match piece_in(newer, words, spot, to) {
            Err(_) => return,
            Ok(Piece::Tail(bytes)) => {
                put_entry(directory, spot, Size { bytes, words: 0 });
                return;
            }
            Ok(Piece::Read(size, counter)) => {
                put_entry(directory, spot, size);
                spot = spot.behind(size, counter);
            }
        }
    }
}
