// Zeros, entries, and moves within a lent array.
ghost use Rattle.std.specs.Prelude.{◌≡◌, [], ◌++◌, ◌+◌, ◌-◌, ◌*◌, ◌≤◌, ◌<◌, length, get_or, take, drop, replicate, set};
ghost use Rattle.std.proofs.Math.Seq.{paste};
ghost use Rattle.records.specs.Pieces.{old_sizes, old_words, pad};
ghost use Rattle.records.specs.Limits.{half_limit, entry_words};
ghost use Rattle.records.specs.Words.{pack, hi, lo};
ghost use Rattle.piece_directory.specs.Olds.{olds_of, moved};

use crate::pieces::{Entry, Size, Spot};

// "Unused words are zero": all from `from` on.
pub fn clear(words: &mut [u64], from: usize)
    ensures { words.new ≡ take from words.old ++ replicate (length words.old - from) 0 }
{
    if from < words.len() {
        words[from..].fill(0);
    }
}

// A refused full reading leaves zeros.
#[tactic(auto, unfolding(records::specs::Pieces::pad))]
pub fn wipe(words: &mut [u64], directory: &mut [u64])
    ensures { (words.new ≡ pad (length words.old) []) × (directory.new ≡ pad (length directory.old) []) }
{
    clear(words, 0);
    clear(directory, 0);
}

// "A directory entry is two words: start 32, length 32; first word 32, word count 32", and "a third word holding the counter at the piece's start"
// (M-106). Of the piece that stands there, where question 21 was asked.
pub fn put_entry(directory: &mut [u64], spot: Spot, size: Size)
    requires entry_words_in_bounds { spot.number * entry_words + entry_words ≤ length directory.old }
    requires pos_lt_half_limit { (spot.pos < half_limit) × (size.bytes < half_limit) × (spot.word < half_limit) × (size.words < half_limit) }
    ensures { directory.new ≡ set (set (set directory.old (spot.number * entry_words) (pack spot.pos size.bytes)) (spot.number * entry_words + 1) (pack spot.word size.words)) (spot.number * entry_words + 2) spot.counter }
{
    let i = spot.number * records::ENTRY_WORDS;
    directory[i] = spot.pos as u64 * records::HALF + size.bytes as u64;
    directory[i + 1] = spot.word as u64 * records::HALF + size.words as u64;
    directory[i + 2] = spot.counter;
}

// The entry of the piece with that number.
pub fn entry(directory: &[u64], number: usize) -> Entry
    requires { number * entry_words + entry_words ≤ length directory.now }
    ensures start { result.start ≡ hi (get_or directory.now (number * entry_words) 0) }
    ensures first { result.first ≡ hi (get_or directory.now (number * entry_words + 1) 0) }
    ensures bytes { result.size.bytes ≡ lo (get_or directory.now (number * entry_words) 0) }
    ensures words { result.size.words ≡ lo (get_or directory.now (number * entry_words + 1) 0) }
    ensures counter { result.counter ≡ get_or directory.now (number * entry_words + 2) 0 }
{
    let i = number * records::ENTRY_WORDS;
    Entry {
        start: (directory[i] / records::HALF) as usize,
        first: (directory[i + 1] / records::HALF) as usize,
        size: Size {
            bytes: (directory[i] % records::HALF) as usize,
            words: (directory[i + 1] % records::HALF) as usize,
        },
        counter: directory[i + 2],
    }
}

// The n words at `from` come to stand at `to`, as they were before the call.
pub fn move_words(words: &mut [u64], from: usize, to: usize, n: usize)
    requires { (from + n ≤ length words.old) × (to + n ≤ length words.old) }
    ensures { words.new ≡ paste words.old to (drop from words.old) n }
{
    // where they stand there already nothing is to be done: a copy upon itself would go over all of them
    if from != to {
        words.copy_within(from..from + n, to);
    }
}

// The n entries there come to start there in text and words, one behind the other; each keeps its counter.
fn renumber(directory: &mut [u64], spot: Spot, n: usize)
    requires entry_words_in_bounds { (spot.number + n) * entry_words ≤ length directory.old }
    requires directory_bound { (spot.pos + old_sizes (olds_of n (drop (spot.number * entry_words) directory.old)) < half_limit) × (spot.word + old_words (olds_of n (drop (spot.number * entry_words) directory.old)) < half_limit) }
    ensures { directory.new ≡ take (spot.number * entry_words) directory.old ++ (moved n spot.pos spot.word (drop (spot.number * entry_words) directory.old) ++ drop ((spot.number + n) * entry_words) directory.old) }
{
    let mut pos = spot.pos;
    let mut word = spot.word;
    for k in 0..n {
        let number = spot.number + k;
        let old = entry(directory, number);
        put_entry(
            directory,
            Spot {
                number,
                pos,
                word,
                counter: old.counter,
            },
            old.size,
        );
        pos += old.size.bytes;
        word += old.size.words;
    }
}

// The old entries from number `from` on come to stand there.
pub fn move_entries(directory: &mut [u64], entries: usize, from: usize, spot: Spot)
    requires from_le_entries { (from ≤ entries) × (entries * entry_words ≤ length directory.old) × ((spot.number + (entries - from)) * entry_words ≤ length directory.old) }
    requires directory_bound { (spot.pos + old_sizes (drop from (olds_of entries directory.old)) < half_limit) × (spot.word + old_words (drop from (olds_of entries directory.old)) < half_limit) }
    ensures { directory.new ≡ take (spot.number * entry_words) directory.old ++ (moved (entries - from) spot.pos spot.word (drop (from * entry_words) directory.old) ++ drop ((spot.number + (entries - from)) * entry_words) directory.old) }
{
    let n = entries - from;
    move_words(
        directory,
        from * records::ENTRY_WORDS,
        spot.number * records::ENTRY_WORDS,
        n * records::ENTRY_WORDS,
    );
    renumber(directory, spot, n);
}
