// The pieces that re-reading keeps, in front of what is read and behind it. Nothing here knows the grammar.
#![tactic(auto)]

ghost use Rattle.std.specs.Prelude.{◌≡◌, ◌+◌, ◌≤◌, ◌<◌, length, take, drop};
ghost use Rattle.program.specs.Class.{is_word};
ghost use Rattle.records.specs.Limits.{half_limit};
ghost use Rattle.records.specs.Pieces.{leads, addrspace, kept_front, old_sizes, old_words};
ghost use Rattle.piece_directory.specs.Olds.{olds_of, begins, Joined, FrontIs, WordEnd, RoomFor, KeptBehind};

use piece_directory::arrays::{entry, move_entries, move_words};
use piece_directory::pieces::Spot;

// The counter with which reading begins at that piece: "that of the old piece it starts at, and .. 0 at the head" (M-106).
fn counter_at(directory: &[u64], entries: usize, number: usize) -> u64
    requires { Joined entries directory.now }
    ensures { result ≡ begins number (olds_of entries directory.now) }
{
    if number == 0 {
        return 0;
    }
    if entries <= number {
        return 0;
    }
    entry(directory, number).counter
}

// Where the first `number` of the pieces end, and the next would stand.
pub fn behind(directory: &[u64], entries: usize, number: usize) -> Spot
    requires number_le_entries { number ≤ entries }
    requires joined { Joined entries directory.now }
    ensures { (result.number ≡ number) × (result.pos ≡ old_sizes (take number (olds_of entries directory.now))) × (result.word ≡ old_words (take number (olds_of entries directory.now))) × (result.counter ≡ begins number (olds_of entries directory.now)) }
{
    let counter = counter_at(directory, entries, number);
    if number == 0 {
        return Spot {
            number,
            pos: 0,
            word: 0,
            counter,
        };
    }
    let last = entry(directory, number - 1);
    Spot {
        number,
        pos: last.start + last.size.bytes,
        word: last.first + last.size.words,
        counter,
    }
}

// Is b a letter, a digit or `_`?
fn is_word(b: u8) -> bool
    ensures { result ≡ is_word b }
{
    b.is_ascii_alphanumeric() || b == b'_'
}

// The end of the letters, digits and `_` at `from`.
fn word_end(text: &[u8], from: usize) -> usize
    requires { from ≤ length text.now }
    ensures { WordEnd text.now from result }
{
    for i in from..text.len() {
        if !is_word(text[i]) {
            return i;
        }
    }
    text.len()
}

// Does exactly the word `addrspace` stand at p, with a byte behind it?
fn addrspace_at(text: &[u8], p: usize) -> bool
    requires { p ≤ length text.now }
    ensures { result ≡ leads addrspace (drop p text.now) }
{
    let rest = &text[p..];
    if !rest.starts_with(b"addrspace") {
        return false;
    }
    9 < rest.len() && !is_word(rest[9])
}

// "Pieces are kept up to the first that fails this: its end is below a and, for a block, the letters, digits and `_` that stand from
// there, with the byte behind them, are below a too and are not `addrspace`": how many, where the text is common to both.
// A word is passed over once: w is the end of the last, behind which the next search starts.
fn front_count(text: &[u8], directory: &[u64], entries: usize) -> usize
    requires two { 2 ≤ entries }
    requires joined { Joined entries directory.now }
    ensures { result ≡ kept_front text.now (olds_of entries directory.now) }
{
    let a = text.len();
    let mut pos = entry(directory, 0).size.bytes;
    if a <= pos {
        return 0;
    }
    let mut w = 0;
    for i in 1..entries - 1 {
        let bytes = entry(directory, i).size.bytes;
        if a - pos <= bytes {
            return i;
        }
        pos += bytes;
        w = word_end(text, w.max(pos));
        if a <= w {
            return i;
        }
        if addrspace_at(text, pos) {
            return i;
        }
    }
    let tail = entry(directory, entries - 1).size.bytes;
    if a - pos <= tail {
        return entries - 1;
    }
    entries
}

// Where the pieces end that are kept in front: of the text, either one, the first a bytes are common.
pub fn kept_front(text: &[u8], a: usize, directory: &[u64], entries: usize) -> Spot
    requires a_in_bounds { (a ≤ length text.now) × (2 ≤ entries) }
    requires joined { Joined entries directory.now }
    ensures { FrontIs (take a text.now) (olds_of entries directory.now) result.number result.pos result.word result.counter }
{
    let number = front_count(&text[..a], directory, entries);
    behind(directory, entries, number)
}

// Makes place for what is read: the old pieces from number `from` on, "kept, shifted", come to stand there. Returns the end of their words.
pub fn keep_behind(
    words: &mut [u64],
    directory: &mut [u64],
    entries: usize,
    from: usize,
    spot: Spot,
) -> usize
    requires joined { Joined entries directory.old }
    requires from_le_entries { (from ≤ entries) × (old_words (olds_of entries directory.old) ≤ length words.old) × (spot.pos + old_sizes (drop from (olds_of entries directory.old)) < half_limit) }
    requires room_for { RoomFor (length words.old) (length directory.old) spot.number spot.word (drop from (olds_of entries directory.old)) }
    ensures { KeptBehind words.old directory.old entries from spot.number spot.pos spot.word result words.new directory.new }
{
    if from == entries {
        return spot.word;
    }
    let here = behind(directory, entries, from);
    let end = behind(directory, entries, entries);
    let n = end.word - here.word;
    let word = spot.word;
    move_words(words, here.word, word, n);
    move_entries(directory, entries, from, spot);
    word + n
}
