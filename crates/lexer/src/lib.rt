// The lexer (lexer.rs, and the small lexical helpers of parser.rs): a text under a cursor, and words that are written behind it.
//
// A reader takes the answer so far, `Parsed`, and hands a refusal on with `?`, so that a body above these is a straight line of calls.
#![tactic(auto)]

pub mod limits; // limits.rt: the classes of bytes by name
pub mod lists; // lists.rt: what lists share
pub mod tests; // tests.rt: the beginning of a word, and a digit

ghost use Rattle.std.specs.Prelude.{◌≡◌, ℕ, ◌+◌, length, drop};
ghost use Rattle.std.proofs.Math.Option.{Option};
ghost use Rattle.program.specs.Class.{class_of};
ghost use Rattle.program.specs.Prog.{scan_len, lead_word, byte_at};
ghost use Rattle.grammar.specs.Lexer.{space_step, is_byte, same_word, eat_ws, expect_token, expect_keyword, skip_keyword};
ghost use Rattle.lexer.specs.Step.{step_of, Steps, StopAt, bumped, looks_p, word_p, passed, refused, refused_at, place_p};
ghost use Rattle.lexer.specs.Reads.{Gives};

pub use lists::{comma_or, count_child};
use records::Refusal;

// The class of each byte: below HEX a hexadecimal digit and its value, WORD any other letter or `_`, NAME one of `.` `-` `$`, SPACE white space,
// OTHER any other.
pub static CLASSES: [u8; 256] = [
    19, 19, 19, 19, 19, 19, 19, 19, 19, 18, 18, 19, 18, 18, 19, 19, 19, 19, 19, 19, 19, 19, 19, 19,
    19, 19, 19, 19, 19, 19, 19, 19, 18, 19, 19, 19, 17, 19, 19, 19, 19, 19, 19, 19, 19, 17, 17, 19,
    0, 1, 2, 3, 4, 5, 6, 7, 8, 9, 19, 19, 19, 19, 19, 19, 19, 10, 11, 12, 13, 14, 15, 16, 16, 16,
    16, 16, 16, 16, 16, 16, 16, 16, 16, 16, 16, 16, 16, 16, 16, 16, 16, 19, 19, 19, 19, 16, 19, 10,
    11, 12, 13, 14, 15, 16, 16, 16, 16, 16, 16, 16, 16, 16, 16, 16, 16, 16, 16, 16, 16, 16, 16, 16,
    16, 19, 19, 19, 19, 19, 19, 19, 19, 19, 19, 19, 19, 19, 19, 19, 19, 19, 19, 19, 19, 19, 19, 19,
    19, 19, 19, 19, 19, 19, 19, 19, 19, 19, 19, 19, 19, 19, 19, 19, 19, 19, 19, 19, 19, 19, 19, 19,
    19, 19, 19, 19, 19, 19, 19, 19, 19, 19, 19, 19, 19, 19, 19, 19, 19, 19, 19, 19, 19, 19, 19, 19,
    19, 19, 19, 19, 19, 19, 19, 19, 19, 19, 19, 19, 19, 19, 19, 19, 19, 19, 19, 19, 19, 19, 19, 19,
    19, 19, 19, 19, 19, 19, 19, 19, 19, 19, 19, 19, 19, 19, 19, 19, 19, 19, 19, 19, 19, 19, 19, 19,
    19, 19, 19, 19, 19, 19, 19, 19, 19, 19, 19, 19, 19, 19,
];

// The class of b.
pub fn class(b: u8) -> u8
    ensures { result ≡ class_of b }
{
    CLASSES[b as usize]
}

// Where the reader stands: the place in the text and the next word.
#[derive(Clone, Copy)]
pub struct Cursor {
    pub at: usize,
    pub w: usize,
}

// How far the reader came, or a refusal.
pub type Parsed = Result<Cursor, Refusal>;

// An answer with a number: a value, or a name's word.
#[derive(Clone, Copy)]
pub struct Num {
    pub p: Parsed,
    pub v: u64,
}

// Where an automaton stopped, and in which state.
#[derive(Clone, Copy)]
pub struct Stop {
    pub at: usize,
    pub q: u8,
}

// One more, up to 2^32. A step of std saturates at the type's end, which is further.
pub fn bump(w: usize) -> usize
    ensures { result ≡ bumped w }
{
    if w < records::HALF_LIMIT { w + 1 } else { w }
}

// White space and comments: the state behind b, which is 1 inside a comment, or none where they end.
fn space_step(q: u8, b: u8) -> Option<u8>
    ensures { step_of result ≡ space_step q b }
{
    if q != 0 {
        return if b == b'\n' { Some(0) } else { Some(1) };
    }
    if b == b';' {
        return Some(1);
    }
    if class(b) == limits::SPACE {
        Some(0)
    } else {
        None
    }
}

// Where an automaton stops that begins at a place in state 0.
pub fn scan_text<F: Fn(u8, u8) -> Option<u8>>(text: &[u8], at: usize, step: F) -> Stop
    requires { F.IsAlwaysCallable step }
    ensures { (f : ℕ → ℕ → Option ℕ) → Steps F.post step f → StopAt f text.now at result }
{
    let mut q = 0;
    for i in at..text.len() {
        match step(q, text[i]) {
            Some(next) => q = next,
            None => return Stop { at: i, q },
        }
    }
    Stop {
        at: at.max(text.len()),
        q,
    }
}

// The place behind the comments and white space that stand at `at`. Nearly always it is white space alone, which needs no state.
fn space_end(text: &[u8], at: usize) -> usize
    ensures { result ≡ at + scan_len space_step 0 (drop at text.now) }
{
    for i in at..text.len() {
        let b = text[i];
        if class(b) != limits::SPACE {
            if b == b';' {
                return scan_text(text, i, space_step).at;
            }
            return i;
        }
    }
    at.max(text.len())
}

// Is b the byte at `at`?
pub fn at_byte(text: &[u8], at: usize, b: u8) -> bool
    ensures { result ≡ is_byte b (byte_at (drop at text.now)) }
{
    match text.get(at) {
        Some(x) => *x == b,
        None => false,
    }
}

// Does the keyword kw stand at `at`? Behind it stands the text's end or a byte of no word.
fn at_word(text: &[u8], at: usize, kw: &[u8]) -> bool
    ensures { result ≡ same_word (lead_word (drop at text.now)) kw.now }
{
    if !tests::starts_at(text, at, kw) {
        return false;
    }
    match text.get(at + kw.len()) {
        Some(b) => limits::WORD < class(*b),
        None => true,
    }
}

// Behind white space and comments (`eat_ws`).
pub fn eat_ws(text: &[u8], p: Parsed) -> Parsed
    ensures { Gives eat_ws tt text.now p result }
{
    let c = p?;
    let at = space_end(text, c.at);
    Ok(Cursor { at, w: c.w })
}

// Is b the next byte? (`peek_ch`, `match_char`)
pub fn looks(text: &[u8], p: Parsed, b: u8) -> bool
    ensures { result ≡ looks_p text.now p b }
{
    match p {
        Ok(c) => at_byte(text, c.at, b),
        Err(_) => false,
    }
}

// Is kw the next word? (`match_keyword`, behind white space)
pub fn word(text: &[u8], p: Parsed, kw: &[u8]) -> bool
    ensures { result ≡ word_p text.now p kw.now }
{
    match p {
        Ok(c) => at_word(text, c.at, kw),
        Err(_) => false,
    }
}

// m bytes on, where the text has as many.
pub fn pass(text: &[u8], p: Parsed, m: usize) -> Parsed
    ensures { result ≡ passed text.now m p }
{
    let c = p?;
    if c.at <= text.len() {
        if m <= text.len() - c.at {
            return Ok(Cursor {
                at: c.at + m,
                w: c.w,
            });
        }
    }
    Ok(c)
}

// Behind the keyword kw, which stands there.
pub fn pass_word(text: &[u8], p: Parsed, kw: &[u8]) -> Parsed
    ensures { result ≡ passed text.now (length kw.now) p }
{
    pass(text, p, kw.len())
}

// A refusal at the cursor (`parse_error`).
pub fn refuse(p: Parsed, e: u64) -> Parsed
    ensures { result ≡ refused e p }
{
    let c = p?;
    refuse_at(p, e, c.at)
}

// A refusal at a place before the cursor.
pub fn refuse_at(p: Parsed, e: u64, at: usize) -> Parsed
    ensures { result ≡ refused_at e at p }
{
    let _ = p?;
    Err(Refusal {
        question: e,
        place: at,
    })
}

// The same answer, made anew: a copy takes the unused bytes of its memory along, which costs more than the rest.
pub fn anew(p: Parsed) -> Parsed
    ensures { result ≡ p }
{
    let c = p?;
    Ok(Cursor { at: c.at, w: c.w })
}

// The place of the cursor.
pub fn place(p: Parsed) -> usize
    ensures { result ≡ place_p p }
{
    match p {
        Ok(c) => c.at,
        Err(_) => 0,
    }
}

// White space, and the byte b (`expect_token`).
pub fn expect_token(text: &[u8], p: Parsed, b: u8) -> Parsed
    ensures { Gives (expect_token b) tt text.now p result }
{
    let q = eat_ws(text, p);
    if looks(text, q, b) {
        return pass(text, q, 1);
    }
    refuse(q, records::Q_TOKEN)
}

// White space, and the keyword kw (`expect_keyword`).
pub fn expect_keyword(text: &[u8], p: Parsed, kw: &[u8]) -> Parsed
    ensures { Gives (expect_keyword kw.now) tt text.now p result }
{
    let q = eat_ws(text, p);
    if word(text, q, kw) {
        return pass_word(text, q, kw);
    }
    refuse(q, records::Q_TOKEN)
}

// White space, and the keyword kw, if it stands there.
pub fn skip_keyword(text: &[u8], p: Parsed, kw: &[u8]) -> Parsed
    ensures { Gives (skip_keyword kw.now) tt text.now p result }
{
    let q = eat_ws(text, p);
    if word(text, q, kw) {
        return pass_word(text, q, kw);
    }
    q
}
