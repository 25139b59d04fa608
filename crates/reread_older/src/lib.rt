// The older directory: question 22, and where an old piece starts. Nothing here knows the grammar.
#![tactic(auto)]

ghost use Rattle.std.specs.Prelude.{◌≡◌, ◌-◌, ◌≤◌};
ghost use Rattle.records.specs.Pieces.{olds};
ghost use Rattle.piece_directory.specs.Olds.{answers, olds_of, Joined, Passed, Reached};
ghost use Rattle.reread_older.specs.Answers.{Finds, Joins};

use piece_directory::arrays::entry;
use piece_directory::pieces::Older;

// Question 22: "Does the older directory, whose entry count is lent, have at least 2 entries within its array, the first starting at 0
// in text and words, each starting where the last ended, ending inside older text and words?", and "The older directory check asks that this
// word", the counter at a piece's start, "be at most 2^32" (M-106).
pub fn chained(directory: &[u64], older: Older, text_len: usize) -> bool
    ensures { result ≡ answers (olds text_len older.words older.entries directory.now) }
{
    let entries = older.entries;
    if entries < 2 {
        return false;
    }
    if directory.len() / records::ENTRY_WORDS < entries {
        return false;
    }
    let mut pos = 0;
    let mut word = 0;
    for i in 0..entries {
        let old = entry(directory, i);
        if old.start != pos {
            return false;
        }
        if old.first != word {
            return false;
        }
        if text_len - pos < old.size.bytes {
            return false;
        }
        if older.words - word < old.size.words {
            return false;
        }
        if records::COUNTER_LIMIT < old.counter {
            return false;
        }
        pos += old.size.bytes;
        word += old.size.words;
    }
    true
}

// The number of the old piece that starts at a place with a counter; or, where none does, the number from which to look for a later place.
pub type Found = Result<usize, usize>;

// The first old piece from number `from` on that starts at the target or behind it, as those before `from` start, but for the head, before
// the target.
fn first_from(directory: &[u64], entries: usize, from: usize, target: usize) -> usize
    requires from_le_entries { from ≤ entries }
    requires joined { Joined entries directory.now }
    requires passed { Passed (olds_of entries directory.now) from target }
    ensures { Reached (olds_of entries directory.now) target result }
{
    for j in from..entries {
        if target <= entry(directory, j).start {
            return j;
        }
    }
    entries
}

// "if .. the old start at the same distance from the text's end belongs to a block or tail, the old pieces from the first such", and "Old pieces
// behind an edit are kept only where the counter agrees too" (M-106): looked for from piece `from` on. Several can start at one place; a later
// target is looked for from the first of them on.
pub fn find_old(
    directory: &[u64],
    entries: usize,
    from: usize,
    target: usize,
    counter: u64,
) -> Found
    requires from_le_entries { from ≤ entries }
    requires joined { Joined entries directory.now }
    requires passed { Passed (olds_of entries directory.now) from target }
    ensures { Finds (olds_of entries directory.now) target counter result }
{
    let first = first_from(directory, entries, from, target);
    for j in first..entries {
        let old = entry(directory, j);
        if target < old.start {
            return Err(first);
        }
        if old.counter == counter {
            return Ok(j);
        }
    }
    Err(first)
}

// An edit: how long both texts are, and their common end.
#[derive(Clone, Copy)]
pub struct Edit {
    pub older: usize,
    pub newer: usize,
    pub end: usize,
}

// "After each head or block read, if at most c bytes remain and the old start at the same distance from the text's end belongs to a block
// or tail", with the counter behind that piece: behind the piece that ends at pos; looked for from piece `from` on.
pub fn join_old(
    directory: &[u64],
    entries: usize,
    from: usize,
    edit: Edit,
    pos: usize,
    counter: u64,
) -> Found
    requires from_le_entries { (from ≤ entries) × (edit.end ≤ edit.older) × (pos ≤ edit.newer) }
    requires joined { Joined entries directory.now }
    requires passed { Passed (olds_of entries directory.now) from (edit.older - (edit.newer - pos)) }
    ensures { Joins (olds_of entries directory.now) edit.end edit.older (edit.newer - pos) counter result }
{
    let left = edit.newer - pos;
    if edit.end < left {
        return Err(from);
    }
    find_old(directory, entries, from, edit.older - left, counter)
}
