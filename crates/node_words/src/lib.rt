// Words and nodes: a node is a slot for its header, its payload and its children, and `close` writes the header. Each function stores where
// the array reaches and counts always, so that a short array and none at all are read alike.
#![tactic(auto)]

ghost use Rattle.std.specs.Prelude.{◌≡◌, ◌+◌, set};
ghost use Rattle.lexer.specs.Step.{bumped};
ghost use Rattle.node_words.specs.Writes.{pushed, pushes, header_of, closes, patches, replaced, replaces, back_to, restarted, joined};

use lexer::{Cursor, Parsed};

// Stores x at w, where w is inside.
pub fn put(words: &mut [u64], w: usize, x: u64) -> usize
    ensures { (result ≡ bumped w) × (words.new ≡ set words.old w x) }
{
    if w < words.len() {
        words[w] = x;
        return lexer::bump(w);
    }
    lexer::bump(w)
}

// Writes a word.
pub fn push(words: &mut [u64], p: Parsed, x: u64) -> Parsed
    ensures { (result ≡ pushed p) × (words.new ≡ pushes x p words.old) }
{
    let c = p?;
    let w = put(words, c.w, x);
    Ok(Cursor { at: c.at, w })
}

// Begins the node of an instruction: a slot for its header, and its destination.
pub fn begin(words: &mut [u64], p: Parsed, dest: u64) -> Parsed
    ensures { (result ≡ pushed (pushed p)) × (words.new ≡ pushes dest (pushed p) (pushes 0 p words.old)) }
{
    let q = push(words, p, 0);
    push(words, q, dest)
}

// A header word.
fn header_of(kind: u8, d: u8, n: u16, from: usize, to: usize) -> u64
    ensures { result ≡ header_of kind d n from to }
{
    let size = to.saturating_sub(from);
    if size < records::HALF_LIMIT {
        (kind as u64) * records::KIND_UNIT
            + (d as u64) * records::DETAIL_UNIT
            + (n as u64) * records::HALF
            + (size as u64)
    } else {
        0
    }
}

// Writes the header of the node that was begun at p0.
pub fn close(words: &mut [u64], p0: Parsed, p: Parsed, kind: u8, d: u8, n: u16) -> Parsed
    ensures { (result ≡ p) × (words.new ≡ closes kind d n p0 p words.old) }
{
    if let (Ok(b), Ok(c)) = (p0, p) {
        put(words, b.w, header_of(kind, d, n, b.w, c.w));
    }
    p
}

// Stores x at w + k, where that is inside.
pub fn put_at(words: &mut [u64], w: usize, k: usize, x: u64)
    ensures { words.new ≡ set words.old (w + k) x }
{
    if w < words.len() {
        if k < words.len() - w {
            words[w + k] = x;
        }
    }
}

// Word number k since p0 becomes x: for payload that is known only behind the operands.
pub fn patch(words: &mut [u64], p0: Parsed, p: Parsed, k: usize, x: u64) -> Parsed
    ensures { (result ≡ p) × (words.new ≡ patches k x p0 p words.old) }
{
    if let (Ok(b), Ok(_)) = (p0, p) {
        put_at(words, b.w, k, x);
    }
    p
}

// The word x in place of all since p0.
pub fn replace(words: &mut [u64], p0: Parsed, p: Parsed, x: u64) -> Parsed
    ensures { (result ≡ replaced p0 p) × (words.new ≡ replaces x p0 p words.old) }
{
    let c = p?;
    match p0 {
        Ok(b) => {
            let w = put(words, b.w, x);
            Ok(Cursor { at: c.at, w })
        }
        Err(_) => p,
    }
}

// Back to p, unless q is a refusal.
pub fn back_to(p: Parsed, q: Parsed) -> Parsed
    ensures { result ≡ back_to p q }
{
    let _ = q?;
    p
}

// The place of p, before any words.
pub fn restart(p: Parsed) -> Parsed
    ensures { result ≡ restarted p }
{
    let c = p?;
    Ok(Cursor { at: c.at, w: 0 })
}

// The place of q with the words of p.
pub fn join(p: Parsed, q: Parsed) -> Parsed
    ensures { result ≡ joined p q }
{
    let c = p?;
    let b = q?;
    Ok(Cursor { at: b.at, w: c.w })
}
