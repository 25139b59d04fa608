// Steps from node to node for the preview screen: to a node's first child, to the next node below an end, and the text of a name.
// Over any words whatever: a step that cannot be made is an answer.
#![tactic(auto)]

pub mod payloads; // payloads.rt: how many words stand between a header and the first child
pub mod names; // names.rt: a name as a part of the piece's text
pub mod handle; // handle.rt: a handle that holds words and place

ghost use Rattle.std.specs.Prelude.{◌≡◌, ◌+◌, ltb};
ghost use Rattle.trees.specs.Steps.{kind_in, detail_in, children_in, is_header, word_at, step_to, child_of, next_of, step_of};
ghost use Rattle.record_steps.specs.Views.{reached};
ghost use Rattle.record_steps.specs.Payloads.{words_in, step_behind};
ghost use Rattle.record_steps.specs.Moves.{place_or};

use payloads::Payload;

// The word at a place; past the array 0, which is no header.
pub fn word_at(words: &[u64], at: usize) -> u64
    ensures { result ≡ word_at words.now at }
{
    words.get(at).copied().unwrap_or(0)
}

// A header's detail is below this, 2^8.
const DETAILS: u64 = 256;

// The number of its children is below this, 2^16.
const COUNTS: u64 = 65536;

// A header's fields.
pub fn kind_in(header: u64) -> u8
    ensures { result ≡ kind_in header }
{
    (header / records::KIND_UNIT) as u8
}

pub fn detail_in(header: u64) -> u8
    ensures { result ≡ detail_in header }
{
    (header / records::DETAIL_UNIT % DETAILS) as u8
}

pub fn children_in(header: u64) -> u16
    ensures { result ≡ children_in header }
{
    (header / records::HALF % COUNTS) as u16
}

fn has_children(header: u64) -> bool
    ensures { result ≡ ltb 0 (children_in header) }
{
    0 < header / records::HALF % COUNTS
}

// A word of extent 0 is no header.
pub fn is_header(word: u64) -> bool
    ensures { result ≡ is_header word }
{
    0 < word % records::HALF
}

// The step to a place: none where no header stands there.
pub fn step_to(words: &[u64], to: usize) -> Option<usize>
    ensures { reached result ≡ step_to words.now to }
{
    if is_header(word_at(words, to)) {
        Some(to)
    } else {
        None
    }
}

// The step over n words. Where the sum wraps there is no place of the array.
fn step_over(words: &[u64], at: usize, n: u64) -> Option<usize>
    ensures { reached result ≡ step_to words.now (at + n) }
{
    step_to(words, at.checked_add(n as usize)?)
}

// The step over a header and a switch's payload: a word for the count and two for each case.
fn step_over_cases(words: &[u64], at: usize, count: u64) -> Option<usize>
    ensures { reached result ≡ step_to words.now (at + (1 + (1 + (count + count)))) }
{
    step_over(words, at, count.checked_mul(2)?.checked_add(2)?)
}

// The step behind a header and its payload; none where no kind has the header's number.
fn step_behind(words: &[u64], at: usize, payload: Option<Payload>) -> Option<usize>
    ensures { reached result ≡ step_behind words.now at (words_in payload) }
{
    match payload? {
        Payload::Words(n) => step_over(words, at, 1 + u64::from(n)),
        Payload::Cases(count) => step_over_cases(words, at, count),
    }
}

// "child": the first child stands behind the payload.
pub fn child(words: &[u64], at: usize) -> Option<usize>
    ensures { reached result ≡ child_of words.now at }
{
    let header = word_at(words, at);
    if !is_header(header) {
        return None;
    }
    if !has_children(header) {
        return None;
    }
    let payload = payloads::payload_length(
        kind_in(header),
        detail_in(header),
        word_at(words, at + 1),
    );
    step_behind(words, at, payload)
}

// "next below a given parent's end": the next node begins behind all words of this one.
pub fn next(words: &[u64], at: usize, end: usize) -> Option<usize>
    ensures { reached result ≡ next_of words.now at end }
{
    let header = word_at(words, at);
    if !is_header(header) {
        return None;
    }
    let behind = at.checked_add((header % records::HALF) as usize)?;
    if behind < end {
        return step_to(words, behind);
    }
    None
}

// "child, else next below the array's end".
pub fn onward(words: &[u64], at: usize) -> Option<usize>
    ensures { reached result ≡ step_of words.now at }
{
    child(words, at).or_else(|| next(words, at, words.len()))
}

// The first child's place, or the place itself: a step goes forward, so that the two are never the same.
pub fn child_or_stay(words: &[u64], at: usize) -> usize
    ensures { result ≡ place_or at (child_of words.now at) }
{
    child(words, at).unwrap_or(at)
}

// The next node's place, or the place itself.
pub fn next_or_stay(words: &[u64], at: usize, end: usize) -> usize
    ensures { result ≡ place_or at (next_of words.now at end) }
{
    next(words, at, end).unwrap_or(at)
}
