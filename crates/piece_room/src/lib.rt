// Whether a piece has room: questions 20 and 21. Nothing here knows the grammar.
#![tactic(auto)]

ghost use Rattle.std.specs.Prelude.{◌≡◌, ◌+◌, ◌*◌, ◌≤◌, ◌<◌, length, drop};
ghost use Rattle.records.specs.Limits.{half_limit, entry_words};
ghost use Rattle.records.specs.Pieces.{judge, map_run, size, before, done, old_sizes};
ghost use Rattle.text_whole.specs.Verdicts.{verdict};
ghost use Rattle.piece_room.specs.Rooms.{room_of, Asked};
ghost use Rattle.piece_directory.specs.Olds.{olds_of};

use piece_directory::arrays::entry;
use piece_directory::pieces::{Older, Size, Spot};
use records::Refusal;
use text_whole::Verdict;

// How long the lent arrays are.
#[derive(Clone, Copy)]
pub struct Lent {
    pub words: usize,
    pub directory: usize,
}

// Questions 20 and 21 of the piece with that number and first word, which has n words: the one that refuses. Its words do not end inside the array
// and below 2^32 (20); its entry does not (21).
pub fn room_for(lent: Lent, number: usize, word: usize, n: usize) -> Result<(), u64>
    ensures { result ≡ room_of lent.words lent.directory number word n }
{
    if lent.words < word {
        return Err(records::Q_WORDS);
    }
    if lent.words - word < n {
        return Err(records::Q_WORDS);
    }
    if records::HALF <= (word + n) as u64 {
        return Err(records::Q_WORDS);
    }
    if lent.directory / records::ENTRY_WORDS <= number {
        return Err(records::Q_ENTRIES);
    }
    Ok(())
}

// Questions 20 and 21 of the piece there, which takes so much; a refusal's place is its end.
#[tactic(auto, unfolding(crate::specs::Rooms::after_room))]
pub fn ask(lent: Lent, spot: Spot, size: Size) -> Verdict
    requires { spot.pos + size.bytes ≤ usize.MAX }
    ensures { Asked lent.words lent.directory spot.number spot.word size.words (spot.pos + size.bytes) result }
{
    let place = spot.pos + size.bytes;
    room_for(lent, spot.number, spot.word, size.words).map_err(|question| Refusal {
        question,
        place,
    })
}

// "the old pieces from the first such are kept, shifted, and 20 and 21 are asked of them too": of the old pieces from `from` on, which
// come to stand there.
// A function of its own: in the midst of a re-reading the loop would keep what it counts in memory.
#[inline(never)]
pub fn room_kept(directory: &[u64], older: Older, from: usize, spot: Spot) -> Verdict
    requires entry_words_in_bounds { older.entries * entry_words ≤ length directory.now }
    requires directory_bound { spot.pos + old_sizes (drop from (olds_of older.entries directory.now)) < half_limit }
    ensures { verdict result ≡ judge older.words (length directory.now) spot.number spot.pos spot.word (map_run size (before (drop from (olds_of older.entries directory.now)) done)) }
{
    let lent = Lent {
        words: older.words,
        directory: directory.len(),
    };
    let mut next = spot;
    for k in from..older.entries {
        let old = entry(directory, k);
        ask(lent, next, old.size)?;
        next = next.behind(old.size, old.counter);
    }
    Ok(())
}
