// The full reading, piece by piece: each is written where it stays.
#![tactic(auto)]

ghost use Rattle.std.specs.Prelude.{◌+◌, ◌≤◌, ◌<◌, length};
ghost use Rattle.records.specs.Limits.{half_limit, text_limit};
ghost use Rattle.reading_full.specs.Full.{Come, Ended, Entered};

use piece_block::block_in;
use piece_directory::arrays::put_entry;
use piece_directory::pieces::{Piece, Size, Spot};
use piece_head::head_in;
use piece_room::{Lent, ask};
use records::Refusal;
use text_whole::Verdict;

// All pieces: their number and that of their words.
#[derive(Clone, Copy)]
pub struct Written {
    pub entries: usize,
    pub words: usize,
}

// Questions 20 and 21 of the piece that was read there, and its entry; so many words are lent.
fn enter(directory: &mut [u64], words: usize, spot: Spot, size: Size) -> Verdict
    requires in_text { spot.pos + size.bytes ≤ text_limit }
    requires word { spot.word < half_limit }
    ensures { Entered words spot size directory.old directory.new result }
{
    let lent = Lent {
        words,
        directory: directory.len(),
    };
    ask(lent, spot, size)?;
    put_entry(directory, spot, size);
    Ok(())
}

// The blocks and the tail, behind the head: the first of them stands there.
fn read_blocks(
    text: &[u8],
    words: &mut [u64],
    directory: &mut [u64],
    first: Spot,
) -> Result<Written, Refusal>
    requires text_len_bound { length text.now ≤ text_limit }
    requires come { Come text.now (length words.old) (length directory.old) first.number first.pos first.word first.counter words.old directory.old }
    ensures { Ended text.now (length words.old) (length directory.old) words.new directory.new result }
{
    let to = words.len();
    let mut spot = first;
    loop {
        match block_in(text, words, spot, to) {
            Err(r) => {
                return Err(Refusal {
                    question: r.question,
                    place: spot.pos + r.place,
                });
            }
            Ok(Piece::Tail(bytes)) => {
                enter(directory, to, spot, Size { bytes, words: 0 })?;
                return Ok(Written {
                    entries: spot.number + 1,
                    words: spot.word,
                });
            }
            Ok(Piece::Read(size, counter)) => {
                enter(directory, to, spot, size)?;
                spot = spot.behind(size, counter);
            }
        }
    }
}

// All pieces, from the head on.
pub fn read_pieces(
    text: &[u8],
    words: &mut [u64],
    directory: &mut [u64],
) -> Result<Written, Refusal>
    requires text_len_bound { length text.now ≤ text_limit }
    ensures { Ended text.now (length words.old) (length directory.old) words.new directory.new result }
{
    let to = words.len();
    let start = Spot {
        number: 0,
        pos: 0,
        word: 0,
        counter: 0,
    };
    match head_in(text, words, 0, to)? {
        Piece::Read(size, counter) => {
            enter(directory, to, start, size)?;
            read_blocks(text, words, directory, start.behind(size, counter))
        }
        Piece::Tail(_) => unreachable!(),
    }
}
