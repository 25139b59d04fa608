// The text as a whole: questions 1 and 2, and what an older and a newer text have in common.
#![tactic(auto)]

ghost use Rattle.std.specs.Prelude.{◌≡◌, ℕ, ◌+◌, ◌≤◌, ◌<◌, length, get_or, MatchOption};
ghost use Rattle.records.specs.Limits.{byte_limit};
ghost use Rattle.records.specs.Pieces.{text_asked, common, common_end};
ghost use Rattle.text_whole.specs.Verdicts.{verdict};
ghost use Rattle.text_whole.specs.Texts.{AllLow, Same, Shares, Ends};

use records::Refusal;

// What the questions answer: all is fine, or the first no.
pub type Verdict = Result<(), Refusal>;

// A number that no byte exceeds. Nothing leaves the loop early, so that it is compiled to wide steps.
fn most(text: &[u8]) -> u8
    ensures { (k : ℕ) → k < length text.now → get_or text.now k 0 ≤ result }
{
    let mut m: u8 = 0;
    for b in text {
        m |= *b;
    }
    m
}

// Where the first byte stands that question 2 refuses.
fn first_high(text: &[u8]) -> Option<usize>
    ensures { MatchOption result (AllLow text.now (length text.now)) (λ i. (i < length text.now) × (byte_limit < get_or text.now i 0) × AllLow text.now i) }
{
    text.iter().position(|b| records::BYTE_LIMIT < *b)
}

// Questions 1 and 2.
pub fn text_asked(text: &[u8]) -> Verdict
    ensures { verdict result ≡ text_asked text.now }
{
    if records::TEXT_LIMIT < text.len() {
        return Err(Refusal {
            question: records::Q_LENGTH,
            place: records::TEXT_LIMIT,
        });
    }
    if most(text) <= records::BYTE_LIMIT {
        return Ok(());
    }
    if let Some(place) = first_high(text) {
        return Err(Refusal {
            question: records::Q_ASCII,
            place,
        });
    }
    Ok(())
}

// Texts are compared by blocks of so many bytes first.
const BLOCK: usize = 64;

// 0 only where the blocks at p and at q are the same. Nothing leaves the loop early.
fn differ(older: &[u8], newer: &[u8], p: usize, q: usize) -> u8
    requires { (p + 64 ≤ length older.now) × (q + 64 ≤ length newer.now) }
    ensures { result ≡ 0 → Same 64 p q older.now newer.now }
{
    let mut d: u8 = 0;
    for k in 0..BLOCK {
        d |= older[p + k] ^ newer[q + k];
    }
    d
}

// How much is common by whole blocks.
fn common_blocks(older: &[u8], newer: &[u8]) -> usize
    ensures { Shares older.now newer.now result }
{
    let blocks = older.len().min(newer.len()) / BLOCK;
    for k in 0..blocks {
        let i = k * BLOCK;
        if differ(older, newer, i, i) != 0 {
            return i;
        }
    }
    blocks * BLOCK
}

// "let a be the longest common prefix of older and newer"
pub fn common(older: &[u8], newer: &[u8]) -> usize
    ensures { result ≡ length (common older.now newer.now) }
{
    let shorter = older.len().min(newer.len());
    for i in common_blocks(older, newer)..shorter {
        if older[i] != newer[i] {
            return i;
        }
    }
    shorter
}

// How much of the end is common by whole blocks, behind a.
fn end_blocks(older: &[u8], newer: &[u8], a: usize) -> usize
    requires { (a ≤ length older.now) × (a ≤ length newer.now) }
    ensures { Ends older.now newer.now a result }
{
    let blocks = (older.len().min(newer.len()) - a) / BLOCK;
    for k in 0..blocks {
        let c = k * BLOCK;
        let p = older.len() - c - BLOCK;
        let q = newer.len() - c - BLOCK;
        if differ(older, newer, p, q) != 0 {
            return c;
        }
    }
    blocks * BLOCK
}

// "c the longest common suffix of what remains of both"
pub fn common_end(older: &[u8], newer: &[u8], a: usize) -> usize
    requires { a ≡ length (common older.now newer.now) }
    ensures { result ≡ common_end older.now newer.now }
{
    let left = older.len().min(newer.len()) - a;
    for c in end_blocks(older, newer, a)..left {
        if older[older.len() - c - 1] != newer[newer.len() - c - 1] {
            return c;
        }
    }
    left
}
